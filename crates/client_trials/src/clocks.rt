//! A clock of trials.
use edge_clock::{Clock, MemClock};
use std::sync::Wait;

/// A wait for this moment is over at another one.
#[derive(Clone, Copy, PartialEq, Eq, Debug)]
pub struct Jump {
    pub moment: u64,
    pub reached: u64,
}

/// A clock in memory, but for such a wait, if one is given.
#[derive(Drop)]
pub struct TrialClock {
    clock: MemClock,
    jump: Option<Jump>,
}

impl TrialClock {
    /// This clock, with such a wait, if one is given.
    pub fn new(clock: MemClock, jump: Option<Jump>) -> Self {
        TrialClock { clock, jump }
    }
}

impl Clock for TrialClock {
    ghost use Rattle.std.specs.Prelude.{None};

    ghost start = { λ clock. None };

    fn now(&self) -> u64 {
        self.clock.now()
    }

    fn wait_until<R: Wait>(&self, rt: &R, moment: u64) -> u64 {
        match self.jump {
            Some(jump) if jump.moment == moment => jump.reached,
            _ => self.clock.wait_until(rt, moment),
        }
    }

    /// Does nothing.
    fn halt(&self) {}

    /// Never.
    fn is_halted(&self) -> bool {
        false
    }
}
