//! A clock whose late waits are reported.
use crate::epoch_notes::EpochNotes;
use edge_clock::Clock;
use std::io::Eprint;
use std::sync::Wait;

/// How many seconds late a wait is that is reported: from then on the votes of a slot, which are waited for up to a third of it,
/// are dropped, and a little later all its duties.
const LATE_SECONDS: u64 = 8;

/// What a clock that is set back does to whoever waits.
#[derive(Clone, Copy, PartialEq, Eq, Debug)]
pub enum SetBack {
    /// The wait is over, and the run goes on.
    GoesOn,
    /// The clock is halted as well, which ends the run: keys that became active in the false time are watched from a
    /// false epoch on, and a new start has all of them watched from the true one.
    Halts,
}

impl SetBack {
    // What is reported to follow.
    fn consequence(self) -> &'static str {
        match self {
            SetBack::GoesOn => "duties go on with the slot of now",
            SetBack::Halts => "the run ends, and a new start watches keys from the epoch of now on",
        }
    }
}

/// A clock that reports on standard error each wait that is over so late that votes of a slot are dropped, or all its duties,
/// and each that is over before its moment, since the clock was set back. It notes what is waited for.
#[derive(Drop)]
pub struct ToldClock<'a, C, E> {
    inner: C,
    handle: E,
    notes: &'a EpochNotes,
    set_back: SetBack,
}

impl<'a, C, E> ToldClock<'a, C, E> {
    /// Such a clock, of another one. It reports by this handle, and notes here. Where it is set back, that does this.
    pub fn new(inner: C, handle: E, notes: &'a EpochNotes, set_back: SetBack) -> Self {
        ToldClock {
            inner,
            handle,
            notes,
            set_back,
        }
    }
}

impl<C: Clock, E: Eprint + Sync> Clock for ToldClock<'_, C, E> {
    ghost start = { λ clock. C.start clock.inner };

    fn now(&self) -> u64 {
        self.inner.now()
    }

    fn wait_until<R: Wait>(&self, rt: &R, moment: u64) -> u64 {
        self.notes.wait_for(moment);
        let reached = self.inner.wait_until(rt, moment);
        if reached >= moment.saturating_add(LATE_SECONDS) {
            let _ = eprintln!(&self.handle;
                "a wait for second {moment} was over at {reached}: the duties of slots that are over are dropped"
            );
        } else if reached < moment && !self.inner.is_halted() {
            if self.set_back == SetBack::Halts {
                self.inner.halt();
            }
            let then = self.set_back.consequence();
            let _ = eprintln!(&self.handle;
                "the clock was set back to {reached} in a wait for second {moment}: {then}"
            );
        }
        reached
    }

    fn halt(&self) {
        self.inner.halt();
    }

    fn is_halted(&self) -> bool {
        self.inner.is_halted()
    }
}
