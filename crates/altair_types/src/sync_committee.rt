//! The choice of a sync committee's aggregator, and its contribution.
ghost use Rattle.altair_types.specs.Containers.{contribution_and_proof, sync_aggregator_selection_data, sync_committee_contribution};
ghost use Rattle.altair_types.specs.Names.{contribution_and_proof_names, sync_aggregator_selection_data_names, sync_committee_contribution_names};
ghost use Rattle.altair_types.specs.SyncCommittees.{contribution_and_proof_value, sync_aggregator_selection_data_value, sync_committee_contribution_value};

use edge_kit::{Root, Sig};
use json_members::Object;
use phase0_types::{
    Container, Member, ReadResult, Shaped, container_root, object_at, read_field, with_member,
};
use serde_json::Value;
use std::alloc::{AllocError, Global};

/// The slot and the subcommittee that an aggregator is chosen for (consensus-specs, "Altair",
/// `SyncAggregatorSelectionData`).
#[derive(Clone, Copy, PartialEq, Eq, Debug)]
pub struct SyncAggregatorSelectionData {
    pub slot: u64,
    pub subcommittee_index: u64,
}

#[tactic(auto, unfolding(phase0_types::specs::Roots::root_of, phase0_types::specs::Reading::read_at, phase0_types::specs::Writing::write, phase0_types::specs::Fitting::Fits, crate::specs::Containers::sync_aggregator_selection_data, crate::specs::SyncCommittees::sync_aggregator_selection_data_value))]
impl Shaped for SyncAggregatorSelectionData {
    ghost shape = { sync_aggregator_selection_data };

    ghost value = { sync_aggregator_selection_data_value };

    fn root(&self) -> Root {
        container_root(&[self.slot.root(), self.subcommittee_index.root()])
    }

    fn read_at(alloc: Global, place: Option<Member>, json: &Value) -> ReadResult<Self> {
        object_at!(place, json);
        Ok(Ok(SyncAggregatorSelectionData {
            slot: read_field!(alloc, Member::Slot, json),
            subcommittee_index: read_field!(alloc, Member::SubcommitteeIndex, json),
        }))
    }

    fn to_json(&self, alloc: Global) -> Result<Value, AllocError> {
        let object = with_member(
            Object::new(alloc),
            alloc,
            Member::SubcommitteeIndex,
            &self.subcommittee_index,
        )?;
        let object = with_member(object, alloc, Member::Slot, &self.slot)?;
        Ok(object.value())
    }

    ghost names = { sync_aggregator_selection_data_names };
}

impl Container for SyncAggregatorSelectionData {}

/// What a sync subcommittee's members said of a block, as one of them gathered it (consensus-specs, "Altair",
/// `SyncCommitteeContribution`).
#[derive(Clone, Copy, PartialEq, Eq, Debug)]
pub struct SyncCommitteeContribution {
    pub slot: u64,
    pub beacon_block_root: Root,
    pub subcommittee_index: u64,
    /// One bit a member, 128 of them, the first one the lowest of the first byte.
    pub aggregation_bits: [u8; 16],
    pub signature: Sig,
}

#[tactic(auto, unfolding(phase0_types::specs::Roots::root_of, phase0_types::specs::Reading::read_at, phase0_types::specs::Writing::write, phase0_types::specs::Fitting::Fits, crate::specs::Containers::sync_committee_contribution, crate::specs::SyncCommittees::sync_committee_contribution_value))]
impl Shaped for SyncCommitteeContribution {
    ghost shape = { sync_committee_contribution };

    ghost value = { sync_committee_contribution_value };

    fn root(&self) -> Root {
        container_root(&[
            self.slot.root(),
            self.beacon_block_root.root(),
            self.subcommittee_index.root(),
            self.aggregation_bits.root(),
            self.signature.root(),
        ])
    }

    fn read_at(alloc: Global, place: Option<Member>, json: &Value) -> ReadResult<Self> {
        object_at!(place, json);
        Ok(Ok(SyncCommitteeContribution {
            slot: read_field!(alloc, Member::Slot, json),
            beacon_block_root: read_field!(alloc, Member::BeaconBlockRoot, json),
            subcommittee_index: read_field!(alloc, Member::SubcommitteeIndex, json),
            aggregation_bits: read_field!(alloc, Member::AggregationBits, json),
            signature: read_field!(alloc, Member::Signature, json),
        }))
    }

    fn to_json(&self, alloc: Global) -> Result<Value, AllocError> {
        let object = with_member(
            Object::new(alloc),
            alloc,
            Member::Signature,
            &self.signature,
        )?;
        let object = with_member(
            object,
            alloc,
            Member::AggregationBits,
            &self.aggregation_bits,
        )?;
        let object = with_member(
            object,
            alloc,
            Member::SubcommitteeIndex,
            &self.subcommittee_index,
        )?;
        let object = with_member(
            object,
            alloc,
            Member::BeaconBlockRoot,
            &self.beacon_block_root,
        )?;
        let object = with_member(object, alloc, Member::Slot, &self.slot)?;
        Ok(object.value())
    }

    ghost names = { sync_committee_contribution_names };
}

impl Container for SyncCommitteeContribution {}

/// A contribution with its aggregator, and the proof that it was chosen (consensus-specs, "Altair",
/// `ContributionAndProof`).
#[derive(Clone, Copy, PartialEq, Eq, Debug)]
pub struct ContributionAndProof {
    pub aggregator_index: u64,
    pub contribution: SyncCommitteeContribution,
    pub selection_proof: Sig,
}

#[tactic(auto, unfolding(phase0_types::specs::Roots::root_of, phase0_types::specs::Reading::read_at, phase0_types::specs::Writing::write, phase0_types::specs::Fitting::Fits, crate::specs::Containers::contribution_and_proof, crate::specs::SyncCommittees::contribution_and_proof_value))]
impl Shaped for ContributionAndProof {
    ghost shape = { contribution_and_proof };

    ghost value = { contribution_and_proof_value };

    fn root(&self) -> Root {
        container_root(&[
            self.aggregator_index.root(),
            self.contribution.root(),
            self.selection_proof.root(),
        ])
    }

    fn read_at(alloc: Global, place: Option<Member>, json: &Value) -> ReadResult<Self> {
        object_at!(place, json);
        Ok(Ok(ContributionAndProof {
            aggregator_index: read_field!(alloc, Member::AggregatorIndex, json),
            contribution: read_field!(alloc, Member::Contribution, json),
            selection_proof: read_field!(alloc, Member::SelectionProof, json),
        }))
    }

    fn to_json(&self, alloc: Global) -> Result<Value, AllocError> {
        let object = with_member(
            Object::new(alloc),
            alloc,
            Member::SelectionProof,
            &self.selection_proof,
        )?;
        let object = with_member(object, alloc, Member::Contribution, &self.contribution)?;
        let object = with_member(
            object,
            alloc,
            Member::AggregatorIndex,
            &self.aggregator_index,
        )?;
        Ok(object.value())
    }

    ghost names = { contribution_and_proof_names };
}

impl Container for ContributionAndProof {}
