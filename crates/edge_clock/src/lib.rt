//! Clocks: what they show, and waiting until a moment. Moments are seconds since 1970.
#![tactic(auto)]

mod clock;
mod halt;
mod mem_clock;
mod system_clock;

pub use clock::Clock;
pub use halt::Halt;
pub use mem_clock::{Delay, MemClock};
pub use system_clock::SystemClock;
