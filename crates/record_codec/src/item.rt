//! What a journal keeps.
use edge_kit::PubKey;
use slash_defs::{BlockEntry, VoteEntry};

/// An item of a batch: something that happened to a key's record or state.
#[derive(Clone, Copy, PartialEq, Eq, Debug)]
pub enum JournalItem {
    /// A block of a key.
    Block {
        /// The key.
        key: PubKey,
        /// The block.
        entry: BlockEntry,
    },
    /// A vote of a key.
    Vote {
        /// The key.
        key: PubKey,
        /// The vote.
        entry: VoteEntry,
    },
    /// A key and the least values that an interchange file has for it (EIP-3076, conditions 2, 4 and 5).
    Floors {
        /// The key.
        key: PubKey,
        /// The least slot of its blocks, where it has blocks.
        block: Option<u64>,
        /// The least source and the least target of its votes, where it has votes.
        vote: Option<(u64, u64)>,
    },
    /// A key becomes active; the epoch isn't said. Of version one.
    ActivateUndated {
        /// The key.
        key: PubKey,
    },
    /// A key becomes active at an epoch. Of version two.
    Activate {
        /// The key.
        key: PubKey,
        /// The epoch.
        epoch: u64,
    },
    /// A beacon node said whether a key was live in an epoch. Of version two.
    Answer {
        /// The key.
        key: PubKey,
        /// The epoch of which it was said.
        epoch: u64,
        /// Whether the key was live in it.
        live: bool,
        /// The moment at which it was said, an epoch.
        moment: u64,
    },
    /// A key is closed.
    Close {
        /// The key.
        key: PubKey,
    },
}

/// The place in a payload, in bytes, of the first item that can't be read.
#[derive(Clone, Copy, PartialEq, Eq, Debug)]
pub struct BadAt {
    /// How many bytes stand before it.
    pub offset: u64,
}

// The first byte of each item.
pub(crate) const BLOCK: u8 = 1;

pub(crate) const VOTE: u8 = 2;

pub(crate) const FLOORS: u8 = 3;

pub(crate) const ACTIVATE_UNDATED: u8 = 4;

pub(crate) const CLOSE: u8 = 5;

pub(crate) const ACTIVATE: u8 = 7;

pub(crate) const ANSWER: u8 = 8;
