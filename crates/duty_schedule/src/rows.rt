//! Rows of duty answers, and what is due of them.
ghost use Rattle.std.specs.Prelude.{◌≡◌, ℕ};
ghost use Rattle.edge_kit.specs.declared.bytes.PubKey.{PubKey};

use edge_kit::{Items, PubKey};
use node_calls::{AttesterRow, ProposerRow};

/// The rows of an answer to a duty question. The kind of the answer is theirs.
#[derive(Drop)]
pub enum DutyRows {
    /// Who proposes in an epoch (Beacon API, `getProposerDuties`).
    Proposer(Items<ProposerRow>),
    /// Who votes where in an epoch (Beacon API, `getAttesterDuties`).
    Attester(Items<AttesterRow>),
}

/// What became of an answer.
#[derive(Clone, Copy, PartialEq, Eq, Debug)]
pub enum Taken {
    /// It is held in place of what was held of its kind and epoch, or its epoch is no longer kept.
    Replaced,
    /// What was held of its kind and epoch has its dependent root and its asked indices, and stays.
    Kept,
}

/// What a validator is to do in a slot.
#[derive(Clone, Copy, PartialEq, Eq, Debug)]
pub enum Duty {
    /// To propose a block.
    Block(ProposerRow),
    /// To vote.
    Vote(AttesterRow),
}

/// A row of a duty answer.
pub(crate) trait DutyRow: Copy + Drop {
    ghost slot_of: { Self → ℕ };

    ghost key_of: { Self → PubKey };

    /// The slot in which it is due.
    fn slot(&self) -> u64
        ensures { result ≡ slot_of self.now };

    /// The key of the validator whose duty it is.
    fn pubkey(&self) -> PubKey
        ensures { result ≡ key_of self.now };
}

impl DutyRow for ProposerRow {
    ghost slot_of = { λ row. row.slot };

    ghost key_of = { λ row. row.pubkey };

    fn slot(&self) -> u64 {
        self.slot
    }

    fn pubkey(&self) -> PubKey {
        self.pubkey
    }
}

impl DutyRow for AttesterRow {
    ghost slot_of = { λ row. row.slot };

    ghost key_of = { λ row. row.pubkey };

    fn slot(&self) -> u64 {
        self.slot
    }

    fn pubkey(&self) -> PubKey {
        self.pubkey
    }
}
