//! Questions that have one limit of time together.
use std::sync::atomic::{AtomicU64, Ordering};

/// How many milliseconds after the start of a round the next one begins at the earliest: half a slot's.
const APART: u64 = 6_000;

/// Questions that follow each other shortly: the first of them begins a round.
#[derive(Drop)]
pub(crate) struct Round {
    /// The millisecond of the system's clock at which the last round began; 0 before the first.
    begun: AtomicU64,
}

impl Round {
    // Before the first round.
    pub(crate) fn new() -> Self {
        Round {
            begun: AtomicU64::new(0),
        }
    }

    // How many of the milliseconds that the questions of a round may last together are left at this moment, which begins
    // another round where the last one began long before.
    pub(crate) fn left_at(&self, now: u64, whole: u64) -> u64 {
        let begun = self.begun.load(Ordering::SeqCst);
        if begun == 0 || now >= begun.saturating_add(APART) {
            self.begun.store(now, Ordering::SeqCst);
            return whole;
        }
        whole.saturating_sub(now.saturating_sub(begun))
    }
}
