//! What is counted in a rehearsal.

/// What is counted in a rehearsal.
#[derive(Clone, Copy, PartialEq, Eq, Debug)]
pub struct Counts {
    /// The steps.
    pub steps: u64,
    /// The messages that were granted, signed and sent.
    pub granted: u64,
    /// The blocks and votes that a desk refused.
    pub refused: u64,
    /// The handovers.
    pub handovers: u64,
    /// The stops.
    pub stops: u64,
    /// The slashable pairs among the messages that were sent.
    pub conflicts: u64,
}
