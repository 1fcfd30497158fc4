//! What a record says of a message.
use slash_defs::{BlockEntry, VoteEntry};

/// What a record says of a message: the first of these that holds, a block's in this order and a vote's in
/// this order. A kept entry that is named is the first of its kind in file order.
#[derive(Clone, Copy, PartialEq, Eq, Debug)]
pub enum Verdict {
    /// None of the others holds.
    Pass,
    /// A block whose slot is below this floor.
    SlotBelow(u64),
    /// A block of the slot of this kept block, which has another signing root or none.
    DoubleBlock(BlockEntry),
    /// A vote whose source is below this floor.
    SourceBelow(u64),
    /// A vote whose target is below this floor.
    TargetBelow(u64),
    /// A vote of the target of this kept vote, which has another source, another signing root or none.
    DoubleVote(VoteEntry),
    /// A vote that surrounds this kept vote.
    Surrounds(VoteEntry),
    /// A vote that this kept vote surrounds.
    Surrounded(VoteEntry),
}
