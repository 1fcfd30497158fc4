//! A clock, by its meaning.
ghost use Rattle.std.specs.Prelude.{ℕ};
ghost use Rattle.std.specs.declared.option.Option.{Option};
ghost use Rattle.edge_clock.specs.Clocks.{IsHalted, IsNow, IsWaited};

use std::sync::Wait;

/// A clock, which several threads may use, and by which they learn that they shall end. It has no faults, and its calls
/// take no memory. What it shows may go back.
pub trait Clock: Sync {
    /// Where it is told on time, the second since 1970 at which it starts.
    ghost start: { Self → Option ℕ };

    /// The second since 1970 that it shows: of one told on time, its start.
    fn now(&self) -> u64
        ensures { IsNow (start self.now) result };

    /// Waits until this second since 1970, and answers the one that is reached: of one told on time, the greater of
    /// both its start and the moment. Where the clock is set back the answer may be before the moment: whoever waits
    /// looks at it.
    fn wait_until<R: Wait>(&self, rt: &R, moment: u64) -> u64
        ensures { IsWaited (start self.now) moment result };

    /// Says to all that use the clock that they shall end.
    fn halt(&self);

    /// Whether `halt` was called by anyone: of one told on time, never.
    fn is_halted(&self) -> bool
        ensures { IsHalted (start self.now) result };
}
