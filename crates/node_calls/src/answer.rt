//! What a beacon node answers.
use altair_blocks::AnyBlock;
use edge_kit::{Items, PubKey, Root};
use phase0_blocks::Attestation;
use phase0_types::{AttestationData, Fork};

/// A validator's index and key.
#[derive(Clone, Copy, PartialEq, Eq, Debug)]
pub struct ValidatorRow {
    pub index: u64,
    pub pubkey: PubKey,
}

/// Who is to propose at a slot.
#[derive(Clone, Copy, PartialEq, Eq, Debug)]
pub struct ProposerRow {
    pub pubkey: PubKey,
    pub validator_index: u64,
    pub slot: u64,
}

/// Where a validator is to vote: at this slot, in this committee of so many members, at this place among them.
#[derive(Clone, Copy, PartialEq, Eq, Debug)]
pub struct AttesterRow {
    pub pubkey: PubKey,
    pub validator_index: u64,
    pub committee_index: u64,
    pub committee_length: u64,
    pub committees_at_slot: u64,
    pub validator_committee_index: u64,
    pub slot: u64,
}

/// Whether a validator was seen.
#[derive(Clone, Copy, PartialEq, Eq, Debug)]
pub struct LivenessRow {
    pub index: u64,
    pub is_live: bool,
}

/// The answer to a question, of the same name.
///
/// A dependent root is the block root that the duties rest on: where another one is answered for the same epoch
/// later, the chain was reorganised and the duties of before are no longer right.
#[derive(Drop)]
pub enum Answer {
    /// The second since 1970 at which the chain began, and the root of its first validators.
    Genesis {
        genesis_time: u64,
        genesis_validators_root: Root,
    },
    Fork(Fork),
    Syncing {
        is_syncing: bool,
    },
    Validators(Items<ValidatorRow>),
    Proposer {
        dependent_root: Root,
        rows: Items<ProposerRow>,
    },
    Attester {
        dependent_root: Root,
        rows: Items<AttesterRow>,
    },
    Data(AttestationData),
    Block(AnyBlock),
    Aggregate(Attestation),
    Liveness(Items<LivenessRow>),
}

/// Why a node gave nothing.
#[derive(Drop)]
pub enum NodeFault {
    /// The node failed; its count of faults rose.
    Fault,
    /// It answered this HTTP status in place of one of success.
    Status(u16),
    /// It answered something else than what was asked for; the bytes of the answer's body, none where there was
    /// no response.
    Unreadable(Items<u8>),
    /// Memory ran out. The node may have been asked, and nothing is known of its answer.
    OutOfMemory,
}
