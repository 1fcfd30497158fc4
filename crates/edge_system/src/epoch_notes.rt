//! What is known of an epoch beside the lines of its duties.
use std::rt::Clock;
use std::sync::atomic::{AtomicBool, AtomicU64, Ordering};

/// How many seconds after its start the votes of a slot are due. Another try of its duties comes sooner after that.
const VOTES_SECONDS: u64 = 4;

/// What is known of an epoch beside the lines of its duties, which several threads may note: how many keys are active, and
/// when the duties of the slot at hand were due. Nothing is known at first.
#[derive(Drop)]
pub struct EpochNotes {
    /// How many keys the nodes were asked for since they were last asked for the fork, which begins a round of questions.
    keys: AtomicU64,
    /// Whether a round of questions begins, of which no key is counted yet.
    is_new: AtomicBool,
    /// The second since 1970 at which the duties at hand were due: the one that was waited for last, but for another try.
    due: AtomicU64,
}

impl EpochNotes {
    /// Notes of which nothing is known.
    pub fn new() -> Self {
        EpochNotes {
            keys: AtomicU64::new(0),
            is_new: AtomicBool::new(true),
            due: AtomicU64::new(0),
        }
    }

    /// Notes that the active keys are counted anew.
    pub fn begin_keys(&self) {
        self.is_new.store(true, Ordering::SeqCst);
    }

    /// Notes that so many more keys are active.
    pub fn add_keys(&self, count: usize) {
        let more = u64::try_from(count).unwrap_or(u64::MAX);
        let before = if self.is_new.swap(false, Ordering::SeqCst) {
            0
        } else {
            self.keys.load(Ordering::SeqCst)
        };
        self.keys
            .store(before.saturating_add(more), Ordering::SeqCst);
    }

    // How many keys are active.
    pub(crate) fn keys(&self) -> u64 {
        self.keys.load(Ordering::SeqCst)
    }

    // Notes that this second since 1970 is waited for. Where that is for another try of what was due before, that is due since
    // then.
    pub(crate) fn wait_for(&self, moment: u64) {
        let due = self.due.load(Ordering::SeqCst);
        let is_again = due < moment && moment < due.saturating_add(VOTES_SECONDS);
        if !is_again {
            self.due.store(moment, Ordering::SeqCst);
        }
    }

    // For how many tenths of a second the duties at hand are due; none where the clock cannot be read.
    pub(crate) fn tenths_after<C: Clock>(&self, clock: &C) -> Option<u64> {
        let shown = clock.since_1970().ok()?;
        let tenths = u64::try_from(shown.as_millis()).ok()? / 100;
        let due = self.due.load(Ordering::SeqCst).saturating_mul(10);
        Some(tenths.saturating_sub(due))
    }
}
