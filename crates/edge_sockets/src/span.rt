//! A span of time, from a moment of the system's clock on.
use std::io;
use std::io::ErrorKind;
use std::rt::Clock;
use std::time::{Duration, Instant};

/// A span of time that begins at a moment and is over after its limit.
#[derive(Clone, Copy)]
pub struct Span {
    begun: Instant,
    limit: Duration,
}

impl Span {
    /// A span that begins now.
    pub fn begin<C: Clock>(clock: &C, limit: Duration) -> io::Result<Self> {
        Ok(Span {
            begun: Instant::now(clock)?,
            limit,
        })
    }

    /// The same span, with another limit.
    pub fn with_limit(self, limit: Duration) -> Self {
        Span {
            begun: self.begun,
            limit,
        }
    }

    /// A span of the same length that begins now.
    pub fn again<C: Clock>(&self, clock: &C) -> io::Result<Self> {
        Span::begin(clock, self.limit)
    }

    /// What is left of it. Where nothing is, the call that asks has timed out.
    pub fn left<C: Clock>(&self, clock: &C) -> io::Result<Duration> {
        let left = self.limit.saturating_sub(self.begun.elapsed(clock)?);
        if left.is_zero() {
            return Err(io::Error::from(ErrorKind::TimedOut));
        }
        Ok(left)
    }
}
