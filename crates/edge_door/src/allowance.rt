//! Time that counts only while the door looks.
use edge_sockets::Span;
use std::io;
use std::rt::Clock;
use std::time::Duration;

/// How long something may last, whose pauses do not count.
#[derive(Clone, Copy)]
pub(crate) struct Allowance {
    span: Span,
    /// Without pauses.
    limit: Duration,
    /// That of the span, which has the pauses as well.
    with_pauses: Duration,
}

impl Allowance {
    // One that begins now.
    pub(crate) fn begin<C: Clock>(clock: &C, limit: Duration) -> io::Result<Self> {
        Ok(Allowance {
            span: Span::begin(clock, limit)?,
            limit,
            with_pauses: limit,
        })
    }

    // That of a span with this limit, with no pause yet.
    pub(crate) fn of(span: Span, limit: Duration) -> Self {
        Allowance {
            span,
            limit,
            with_pauses: limit,
        }
    }

    // One of the same length that begins now.
    pub(crate) fn again<C: Clock>(&self, clock: &C) -> io::Result<Self> {
        Allowance::begin(clock, self.limit)
    }

    // The same, which this pause makes no shorter.
    pub(crate) fn with_pause(self, pause: Duration) -> Self {
        let with_pauses = self.with_pauses.saturating_add(pause);
        Allowance {
            span: self.span.with_limit(with_pauses),
            limit: self.limit,
            with_pauses,
        }
    }

    // From when to when it lasts.
    pub(crate) fn span(&self) -> Span {
        self.span
    }

    // Whether nothing of it is left.
    pub(crate) fn is_over<C: Clock>(&self, clock: &C) -> bool {
        self.span.left(clock).is_err()
    }
}
