//! A clock in memory, which waits for nobody.
ghost use Rattle.std.specs.Prelude.{◌≡◌};
ghost use Rattle.std.specs.Prelude.{false};
ghost use Rattle.edge_clock.specs.Clocks.{IsHalted, IsNow, IsWaited};
ghost use Rattle.edge_clock.specs.InMemory.{delay_of};

use crate::clock::Clock;
use std::sync::Wait;

/// A wait that is over late: one for this moment, by so many seconds.
#[derive(Clone, Copy, PartialEq, Eq, Debug)]
pub struct Delay {
    pub moment: u64,
    pub seconds: u64,
}

/// Shows its start, always. A wait is over at the greater of the start and the moment, and later by the first of
/// its delays that is of this moment, at 18446744073709551615 at the latest. Without delays it is told on time.
#[derive(Drop)]
pub struct MemClock {
    start: u64,
    delays: Vec<Delay>,
}

impl MemClock {
    /// A clock with this start and these delays.
    pub fn new(start: u64, delays: Vec<Delay>) -> Self
        ensures start { result.start ≡ start }
        ensures delays { result.delays ≡ delays }
    {
        MemClock { start, delays }
    }
}

impl Clock for MemClock {
    ghost use Rattle.edge_clock.specs.InMemory.{start_told, waited_until};

    ghost start = { λ clock. start_told clock.start clock.delays.items };

    /// Its start.
    fn now(&self) -> u64
        ensures told { IsNow (start_told self.now.start self.now.delays.items) result }
        ensures start { result ≡ self.now.start }
    {
        self.start
    }

    /// The moment at which the wait is over, at once.
    fn wait_until<R: Wait>(&self, _rt: &R, moment: u64) -> u64
        ensures waited { IsWaited (start_told self.now.start self.now.delays.items) moment result }
        ensures exact { result ≡ waited_until self.now.start self.now.delays.items moment }
    {
        let reached = self.start.max(moment);
        reached.saturating_add(delay_in(self.delays.as_slice(), moment))
    }

    /// Does nothing.
    fn halt(&self) {}

    /// Never.
    fn is_halted(&self) -> bool
        ensures halted { IsHalted (start_told self.now.start self.now.delays.items) result }
        ensures never { result ≡ false }
    {
        false
    }
}

/// By how many seconds a wait for this moment is late.
fn delay_in(delays: &[Delay], moment: u64) -> u64
    ensures { result ≡ delay_of delays.now moment }
{
    for delay in delays {
        if delay.moment == moment {
            return delay.seconds;
        }
    }
    0
}
