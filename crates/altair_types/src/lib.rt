//! What members of a sync committee sign, as containers of Altair: their hash tree roots, and their JSON.
#![tactic(auto)]

mod sync_committee;

pub use sync_committee::{
    ContributionAndProof, SyncAggregatorSelectionData, SyncCommitteeContribution,
};
