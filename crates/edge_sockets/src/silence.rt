//! Peers that are set aside after an exchange that passed its limit.
use crate::round::Round;
use std::alloc::{AllocError, Global};
use std::rt::Clock;
use std::sync::atomic::{AtomicBool, AtomicU64, Ordering};
use std::time::Duration;

/// For how many milliseconds a peer is set aside at first.
const FIRST_PAUSE: u64 = 1_000;

/// For how many milliseconds a peer is set aside at most.
const LONGEST_PAUSE: u64 = 60_000;

/// For how many milliseconds the questions whether peers are syncing last at most, all of a slot together.
const LONGEST_ROUND: u64 = 2_000;

/// Whether a peer is set aside, and until when.
#[derive(Drop)]
struct Silence {
    /// The millisecond of the system's clock from which on the peer is asked whether it is syncing.
    until: AtomicU64,
    /// For how many milliseconds it was set aside last; 0 where it has answered after that.
    pause: AtomicU64,
    /// Whether its last exchange failed, or had no answer.
    has_failed: AtomicBool,
}

impl Silence {
    // That of a peer which is not set aside.
    fn new() -> Self {
        Silence {
            until: AtomicU64::new(0),
            pause: AtomicU64::new(0),
            has_failed: AtomicBool::new(false),
        }
    }

    // Whether the peer is not even asked whether it is syncing at this moment.
    fn waits_at(&self, now: u64) -> bool {
        now < self.until.load(Ordering::SeqCst)
    }

    // Whether an exchange with the peer passed its limit, and it has not answered after that.
    fn is_silent(&self) -> bool {
        self.pause.load(Ordering::SeqCst) != 0
    }

    // Whether it answered last, or was not asked yet.
    fn is_well(&self) -> bool {
        !self.has_failed.load(Ordering::SeqCst)
    }

    // Sets the peer aside from this moment on, twice as long as the last time, and gives for how many milliseconds. One
    // that waits already does so for as long as before.
    fn set_aside_at(&self, now: u64) -> Option<u64> {
        if self.waits_at(now) {
            return None;
        }
        let pause = pause_after(self.pause.load(Ordering::SeqCst));
        self.pause.store(pause, Ordering::SeqCst);
        self.until
            .store(now.saturating_add(pause), Ordering::SeqCst);
        Some(pause)
    }

    // Notes that an exchange with the peer failed, or had no answer.
    fn note_failure(&self) {
        self.has_failed.store(true, Ordering::SeqCst);
    }

    // Takes the peer back after it answered, and gives whether it was set aside before.
    fn take_back(&self) -> bool {
        self.has_failed.store(false, Ordering::SeqCst);
        self.until.store(0, Ordering::SeqCst);
        self.pause.swap(0, Ordering::SeqCst) != 0
    }
}

/// Peers one of which is asked where another fails. All links to them may share this: it says which are set aside, and how
/// long they may be asked whether they are syncing.
#[derive(Drop)]
pub struct Peers {
    all: Vec<Silence>,
    round: Round,
}

impl Peers {
    /// That many peers, none of which is set aside.
    ///
    /// # Errors
    ///
    /// `AllocError` where memory was wanted.
    pub fn new(alloc: Global, count: usize) -> Result<Self, AllocError> {
        let mut all = Vec::new(alloc);
        'peers: for _ in 0..count {
            all.push(Silence::new())?;
        }
        Ok(Peers {
            all,
            round: Round::new(),
        })
    }

    // Whether a peer is set aside now. It is not where no other one answered last: then each is asked.
    pub(crate) fn is_set_aside(&self, index: usize) -> bool {
        let (mut is_silent, mut has_other) = (false, false);
        for (place, peer) in self.all.iter().enumerate() {
            if place == index {
                is_silent = peer.is_silent();
            } else if peer.is_well() {
                has_other = true;
            }
        }
        is_silent && has_other
    }

    // How long an exchange may last in which a peer is asked whether it is syncing, where others may last so long: such
    // questions of a slot have one limit together, of which each peer has an equal share, and one share is for those that
    // ask again. None where the peer is set aside still, whatever others do, where less than a share is left, and where the
    // clock cannot be read.
    pub(crate) fn syncing_limit<C: Clock>(
        &self,
        clock: &C,
        index: usize,
        limit: Duration,
    ) -> Option<Duration> {
        let now = shown_by(clock)?;
        if self.all.get(index)?.waits_at(now) {
            return None;
        }
        let whole = milliseconds_of(limit)?.min(LONGEST_ROUND);
        let share = share_of(whole, self.all.len());
        if self.round.left_at(now, whole) < share {
            return None;
        }
        Some(Duration::from_millis(share))
    }

    // Sets a peer aside after an exchange that passed its limit, and gives for how many milliseconds, where it did not wait
    // already.
    pub(crate) fn set_aside<C: Clock>(&self, clock: &C, index: usize) -> Option<u64> {
        let peer = self.all.get(index)?;
        peer.set_aside_at(shown_by(clock)?)
    }

    // Notes that an exchange with a peer failed, or had no answer.
    pub(crate) fn note_failure(&self, index: usize) {
        if let Some(peer) = self.all.get(index) {
            peer.note_failure();
        }
    }

    // Takes a peer back after it answered, and gives whether it was set aside before.
    pub(crate) fn take_back(&self, index: usize) -> bool {
        match self.all.get(index) {
            Some(peer) => peer.take_back(),
            None => false,
        }
    }
}

// For how many milliseconds a peer is set aside that was set aside for that many the last time.
fn pause_after(last: u64) -> u64 {
    last.saturating_mul(2).max(FIRST_PAUSE).min(LONGEST_PAUSE)
}

// The share of that many milliseconds that each of that many peers has, where one more share is left; 1 at least.
fn share_of(whole: u64, count: usize) -> u64 {
    let parts = u64::try_from(count).unwrap_or(u64::MAX).saturating_add(1);
    whole.checked_div(parts).unwrap_or(whole).max(1)
}

// The milliseconds that the clock shows, where it can be read.
fn shown_by<C: Clock>(clock: &C) -> Option<u64> {
    milliseconds_of(clock.monotonic().ok()?)
}

// How many milliseconds a span has.
fn milliseconds_of(span: Duration) -> Option<u64> {
    u64::try_from(span.as_millis()).ok()
}
