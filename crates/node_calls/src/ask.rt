//! What a beacon node is asked.
use edge_kit::{Items, PubKey, Root, Sig};

/// A question to a beacon node, named after what it asks for (Beacon API). Slots and epochs are counted from
/// genesis; indices are the chain's numbers of its validators.
#[derive(Drop)]
pub enum Ask {
    /// When the chain began, and the root of its first validators (`getGenesis`).
    Genesis,
    /// The fork at the head of the chain (`getStateFork`).
    Fork,
    /// Whether the node is syncing (`getSyncingStatus`).
    Syncing,
    /// The indices of these keys at the head, those that have one (`getStateValidators`). Without a key a node
    /// answers those of all validators, so it is not asked then. An answer's rows are not held against the keys.
    Validators {
        keys: Items<PubKey>,
    },
    /// Who proposes in an epoch (`getProposerDuties`).
    Proposer {
        epoch: u64,
    },
    /// Where the validators of these indices vote in an epoch (`getAttesterDuties`).
    Attester {
        epoch: u64,
        indices: Items<u64>,
    },
    /// What a committee is to vote at a slot (`produceAttestationData`).
    Data {
        slot: u64,
        committee_index: u64,
    },
    /// A block for a slot that reveals this randomness, with a graffiti of 32 zero bytes (`produceBlockV2`).
    Block {
        slot: u64,
        randao_reveal: Sig,
    },
    /// An aggregate of the votes at a slot for the data of this hash tree root (`getAggregatedAttestation`). Whether an
    /// answer has that data is for the caller to look at.
    Aggregate {
        attestation_data_root: Root,
        slot: u64,
    },
    /// Whether the validators of these indices were seen in an epoch (`getLiveness`).
    Liveness {
        epoch: u64,
        indices: Items<u64>,
    },
}
