//! What an interchange file or a record keeps of a message.
ghost use Rattle.std.specs.Prelude.{IsTrue, ◌↔◌};
ghost use Rattle.slash_defs.specs.Slashing.{Conflict};

use crate::message::Message;
use edge_kit::Root;

/// A signed block as it is kept (EIP-3076, an element of `signed_blocks`). The derived order is the order
/// of a written file: by slot, an absent root first, then by root.
#[derive(Clone, Copy, PartialEq, Eq, PartialOrd, Ord, Debug)]
pub struct BlockEntry {
    /// The block's slot.
    pub slot: u64,
    /// The signing root, where it is known.
    pub root: Option<Root>,
}

/// A signed vote as it is kept (EIP-3076, an element of `signed_attestations`). The derived order is the
/// order of a written file: by target, then source, an absent root first, then by root.
#[derive(Clone, Copy, PartialEq, Eq, PartialOrd, Ord, Debug)]
pub struct VoteEntry {
    /// The target epoch.
    pub target: u64,
    /// The source epoch.
    pub source: u64,
    /// The signing root, where it is known.
    pub root: Option<Root>,
}

/// A message as a file or a record keeps it. Its signing root may be absent.
#[derive(Clone, Copy, PartialEq, Eq, Debug)]
pub enum Entry {
    /// A block.
    Block(BlockEntry),
    /// A vote.
    Vote(VoteEntry),
}

/// Whether an entry of a key forbids a message of that key: they are slashable, an absent root counting
/// as different from every root (EIP-3076, conditions 1 and 3). Takes no memory.
pub fn conflicts(entry: &Entry, message: &Message) -> bool
    ensures { IsTrue result ↔ Conflict entry.now message.now }
{
    match (*entry, *message) {
        (Entry::Block(kept), Message::Block { slot, root }) => {
            kept.slot == slot && kept.root != Some(root)
        }
        (
            Entry::Vote(kept),
            Message::Vote {
                source,
                target,
                root,
            },
        ) => {
            (kept.target == target && (kept.source != source || kept.root != Some(root)))
                || (kept.source < source && target < kept.target)
                || (source < kept.source && kept.target < target)
        }
        _ => false,
    }
}
