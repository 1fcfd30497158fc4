//! The clock of the system. It tells nothing of its moments.
ghost use Rattle.std.specs.Prelude.{None};

use crate::clock::Clock;
use crate::halt::Halt;
use std::sync::Wait;
use std::sync::atomic::{AtomicU64, Ordering};
use std::time::{Duration, SystemTime};
use std::{rt, thread};

/// How many seconds a wait sleeps at most before it reads the clock again, so that one that is set meanwhile is noticed.
const NAP_SECONDS: u64 = 1;

/// By how many seconds the clock may be set back without a wait ending before its moment.
const LEEWAY_SECONDS: u64 = 60;

/// How many seconds a wait that is left when the clock is halted may last: a slot's (consensus-specs, `SECONDS_PER_SLOT`).
const HALTED_SECONDS: u64 = 12;

/// The system's clock, read by this handle. Where it can't be read, or is set before 1970, it shows 0, and a wait is
/// over at once at the moment that was waited for. A wait ends before its moment only where the clock was set back by more
/// than `LEEWAY_SECONDS` since it was read before, or where it is halted and the moment is more than a slot away. It is
/// halted where this halt is raised.
#[derive(Drop)]
pub struct SystemClock<'a, T: rt::Clock + Drop> {
    handle: T,
    halt: &'a Halt,
    /// The latest second that it showed to anyone, since it was set back the last time.
    latest: AtomicU64,
}

impl<'a, T: rt::Clock + Drop> SystemClock<'a, T> {
    pub fn new(handle: T, halt: &'a Halt) -> Self {
        SystemClock {
            handle,
            halt,
            latest: AtomicU64::new(0),
        }
    }

    // Notes a second that the clock shows, where it is the latest.
    fn note(&self, shown: u64) {
        if self.latest.load(Ordering::SeqCst) < shown {
            self.latest.store(shown, Ordering::SeqCst);
        }
    }

    // Whether a second that the clock shows says that it was set back by more than is waited for, since it had shown the latest
    // one that was noted before it was read. Then that is not said again of the same setting.
    fn is_set_back(&self, before: u64, shown: u64) -> bool {
        let is_back = shown.saturating_add(LEEWAY_SECONDS) < before;
        if is_back {
            self.latest.store(shown, Ordering::SeqCst);
        } else {
            self.note(shown);
        }
        is_back
    }

    // Whether a wait ends at this second: the moment is reached, the clock was set back, or it is halted long before.
    fn is_over(&self, before: u64, shown: u64, moment: u64) -> bool {
        self.is_set_back(before, shown)
            || shown >= moment
            || (self.halt.is_raised() && shown.saturating_add(HALTED_SECONDS) < moment)
    }
}

impl<T: rt::Clock + Sync + Drop> Clock for SystemClock<'_, T> {
    ghost start = { λ clock. None };

    fn now(&self) -> u64 {
        let Some(shown) = shown_by(&self.handle) else {
            return 0;
        };
        self.note(shown.as_secs());
        shown.as_secs()
    }

    /// Sleeps until the clock shows the moment or a later one, is set back, or is halted more than a slot before it.
    fn wait_until<R: Wait>(&self, rt: &R, moment: u64) -> u64 {
        for _ in rt.forever() {
            let before = self.latest.load(Ordering::SeqCst);
            let Some(shown) = shown_by(&self.handle) else {
                return moment;
            };
            if self.is_over(before, shown.as_secs(), moment) {
                return shown.as_secs();
            }
            let left = Duration::from_secs(moment).saturating_sub(shown);
            thread::sleep(&self.handle, left.min(Duration::from_secs(NAP_SECONDS)));
        }
        unreachable!()
    }

    fn halt(&self) {
        self.halt.raise();
    }

    fn is_halted(&self) -> bool {
        self.halt.is_raised()
    }
}

/// The time since 1970, where the clock can be read.
fn shown_by(handle: &impl rt::Clock) -> Option<Duration> {
    let shown = SystemTime::now(handle).ok()?;
    shown.duration_since(SystemTime::UNIX_EPOCH).ok()
}
