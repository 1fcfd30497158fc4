//! What a validator signs.
ghost use Rattle.std.specs.Prelude.{IsTrue, ◌≡◌, ◌↔◌};
ghost use Rattle.slash_defs.specs.Slashing.{Slashable};
ghost use Rattle.slash_defs.specs.Signing.{signing_root_of};

use edge_kit::Root;

/// A block or a vote (attestation), with its signing root. A slot counts 12 seconds, an epoch 32 slots.
#[derive(Clone, Copy, PartialEq, Eq, Debug)]
pub enum Message {
    /// A block of a slot.
    Block {
        slot: u64,
        root: Root,
    },
    /// A vote from a source epoch to a target epoch.
    Vote {
        source: u64,
        target: u64,
        root: Root,
    },
}

impl Message {
    /// The root that is signed.
    pub fn signing_root(&self) -> &Root
        ensures { result.now ≡ signing_root_of self.now }
    {
        match self {
            Message::Block { root, .. } | Message::Vote { root, .. } => root,
        }
    }
}

/// Whether the chain slashes one key for both: two blocks of one slot, a double vote, or one vote that
/// surrounds the other, in either direction (consensus-specs, `process_proposer_slashing` and
/// `is_slashable_attestation_data`). Takes no memory.
pub fn slashable(a: &Message, b: &Message) -> bool
    ensures { IsTrue result ↔ Slashable a.now b.now }
{
    match (*a, *b) {
        (
            Message::Block { slot, root },
            Message::Block {
                slot: other,
                root: second,
            },
        ) => { slot == other && root != second }
        (
            Message::Vote {
                source,
                target,
                root,
            },
            Message::Vote {
                source: s,
                target: t,
                root: second,
            },
        ) => {
            (target == t && (source != s || root != second))
                || (source < s && t < target)
                || (s < source && target < t)
        }
        _ => false,
    }
}
