//! Attestations.
ghost use Rattle.phase0_blocks.specs.Votes.{attestation_value, indexed_attestation_value};
ghost use Rattle.phase0_types.specs.Containers.{attestation, indexed_attestation};
ghost use Rattle.phase0_types.specs.Names.{attestation_names, indexed_attestation_names};

use edge_kit::{Root, Sig};
use json_members::Object;
use phase0_types::{
    AttestationData, BoundedList, Container, Member, ReadResult, Shaped, container_root, object_at,
    read_field, with_member,
};
use serde_json::Value;
use std::alloc::{AllocError, Global};

/// A vote with the indices of its attesters (consensus-specs, `IndexedAttestation`).
#[derive(Drop, Debug)]
pub struct IndexedAttestation {
    pub attesting_indices: BoundedList<u64, 2048>,
    pub details: AttestationData,
    pub signature: Sig,
}

#[tactic(auto, unfolding(phase0_types::specs::Roots::root_of, phase0_types::specs::Reading::read_at, phase0_types::specs::Writing::write, phase0_types::specs::Fitting::Fits, phase0_types::specs::Containers::indexed_attestation, crate::specs::Votes::indexed_attestation_value))]
impl Shaped for IndexedAttestation {
    ghost shape = { indexed_attestation };

    ghost value = { indexed_attestation_value };

    fn root(&self) -> Root {
        container_root(&[
            self.attesting_indices.root(),
            self.details.root(),
            self.signature.root(),
        ])
    }

    fn read_at(alloc: Global, place: Option<Member>, json: &Value) -> ReadResult<Self> {
        object_at!(place, json);
        Ok(Ok(IndexedAttestation {
            attesting_indices: read_field!(alloc, Member::AttestingIndices, json),
            details: read_field!(alloc, Member::Details, json),
            signature: read_field!(alloc, Member::Signature, json),
        }))
    }

    fn to_json(&self, alloc: Global) -> Result<Value, AllocError> {
        let object = with_member(
            Object::new(alloc),
            alloc,
            Member::Signature,
            &self.signature,
        )?;
        let object = with_member(object, alloc, Member::Details, &self.details)?;
        let object = with_member(
            object,
            alloc,
            Member::AttestingIndices,
            &self.attesting_indices,
        )?;
        Ok(object.value())
    }

    ghost names = { indexed_attestation_names };
}

impl Container for IndexedAttestation {}

/// A vote with a bit for each member of its committee (consensus-specs, `Attestation`).
#[derive(Drop, Debug)]
pub struct Attestation {
    pub aggregation_bits: BoundedList<bool, 2048>,
    pub details: AttestationData,
    pub signature: Sig,
}

#[tactic(auto, unfolding(phase0_types::specs::Roots::root_of, phase0_types::specs::Reading::read_at, phase0_types::specs::Writing::write, phase0_types::specs::Fitting::Fits, phase0_types::specs::Containers::attestation, crate::specs::Votes::attestation_value))]
impl Shaped for Attestation {
    ghost shape = { attestation };

    ghost value = { attestation_value };

    fn root(&self) -> Root {
        container_root(&[
            self.aggregation_bits.root(),
            self.details.root(),
            self.signature.root(),
        ])
    }

    fn read_at(alloc: Global, place: Option<Member>, json: &Value) -> ReadResult<Self> {
        object_at!(place, json);
        Ok(Ok(Attestation {
            aggregation_bits: read_field!(alloc, Member::AggregationBits, json),
            details: read_field!(alloc, Member::Details, json),
            signature: read_field!(alloc, Member::Signature, json),
        }))
    }

    fn to_json(&self, alloc: Global) -> Result<Value, AllocError> {
        let object = with_member(
            Object::new(alloc),
            alloc,
            Member::Signature,
            &self.signature,
        )?;
        let object = with_member(object, alloc, Member::Details, &self.details)?;
        let object = with_member(
            object,
            alloc,
            Member::AggregationBits,
            &self.aggregation_bits,
        )?;
        Ok(object.value())
    }

    ghost names = { attestation_names };
}

impl Container for Attestation {}
