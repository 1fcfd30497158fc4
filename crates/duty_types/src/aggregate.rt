//! Aggregates with the proof that their aggregator was chosen.
ghost use Rattle.std.specs.Prelude.{◌≡◌, IfOk};
ghost use Rattle.duty_types.specs.Containers.{aggregate_and_proof, electra_aggregate_and_proof, electra_attestation};
ghost use Rattle.duty_types.specs.Names.{aggregate_and_proof_names, electra_aggregate_and_proof_names, electra_attestation_names};
ghost use Rattle.duty_types.specs.Values.{aggregate_and_proof_value, electra_aggregate_and_proof_value, electra_attestation_value};

use block_copies::{attestation_copy, bounded_copy};
use edge_kit::{Root, Sig};
use json_members::Object;
use phase0_blocks::Attestation;
use phase0_types::{
    AttestationData, BoundedList, Container, Member, ReadResult, Shaped, container_root, object_at,
    read_field, with_member,
};
use serde_json::Value;
use std::alloc::{AllocError, Global};

/// An aggregate of the forks up to Deneb, with its aggregator (consensus-specs, `AggregateAndProof`).
#[derive(Drop, Debug)]
pub struct AggregateAndProof {
    pub aggregator_index: u64,
    pub aggregate: Attestation,
    pub selection_proof: Sig,
}

#[tactic(auto, unfolding(phase0_types::specs::Roots::root_of, phase0_types::specs::Reading::read_at, phase0_types::specs::Writing::write, phase0_types::specs::Fitting::Fits, crate::specs::Containers::aggregate_and_proof, crate::specs::Values::aggregate_and_proof_value))]
impl Shaped for AggregateAndProof {
    ghost shape = { aggregate_and_proof };

    ghost value = { aggregate_and_proof_value };

    fn root(&self) -> Root {
        container_root(&[
            self.aggregator_index.root(),
            self.aggregate.root(),
            self.selection_proof.root(),
        ])
    }

    fn read_at(alloc: Global, place: Option<Member>, json: &Value) -> ReadResult<Self> {
        object_at!(place, json);
        Ok(Ok(AggregateAndProof {
            aggregator_index: read_field!(alloc, Member::AggregatorIndex, json),
            aggregate: read_field!(alloc, Member::Aggregate, json),
            selection_proof: read_field!(alloc, Member::SelectionProof, json),
        }))
    }

    fn to_json(&self, alloc: Global) -> Result<Value, AllocError> {
        let object = with_member(
            Object::new(alloc),
            alloc,
            Member::SelectionProof,
            &self.selection_proof,
        )?;
        let object = with_member(object, alloc, Member::Aggregate, &self.aggregate)?;
        let object = with_member(
            object,
            alloc,
            Member::AggregatorIndex,
            &self.aggregator_index,
        )?;
        Ok(object.value())
    }

    ghost names = { aggregate_and_proof_names };
}

impl Container for AggregateAndProof {}

impl AggregateAndProof {
    /// The same aggregate again. The error is want of memory.
    pub fn copy(&self, alloc: Global) -> Result<AggregateAndProof, AllocError>
        ensures { IfOk result (λ copy. copy ≡ self.now) }
    {
        Ok(AggregateAndProof {
            aggregator_index: self.aggregator_index,
            aggregate: attestation_copy(alloc, &self.aggregate)?,
            selection_proof: self.selection_proof,
        })
    }
}

/// The votes of a slot's committees from Electra on (consensus-specs, "Electra", `Attestation`).
#[derive(Drop, Debug)]
pub struct ElectraAttestation {
    /// One bit a member, committee by committee.
    pub aggregation_bits: BoundedList<bool, 131072>,
    pub details: AttestationData,
    pub signature: Sig,
    /// One bit a committee, 64 of them, the first one the lowest of the first byte.
    pub committee_bits: [u8; 8],
}

#[tactic(auto, unfolding(phase0_types::specs::Roots::root_of, phase0_types::specs::Reading::read_at, phase0_types::specs::Writing::write, phase0_types::specs::Fitting::Fits, crate::specs::Containers::electra_attestation, crate::specs::Values::electra_attestation_value))]
impl Shaped for ElectraAttestation {
    ghost shape = { electra_attestation };

    ghost value = { electra_attestation_value };

    fn root(&self) -> Root {
        container_root(&[
            self.aggregation_bits.root(),
            self.details.root(),
            self.signature.root(),
            self.committee_bits.root(),
        ])
    }

    fn read_at(alloc: Global, place: Option<Member>, json: &Value) -> ReadResult<Self> {
        object_at!(place, json);
        Ok(Ok(ElectraAttestation {
            aggregation_bits: read_field!(alloc, Member::AggregationBits, json),
            details: read_field!(alloc, Member::Details, json),
            signature: read_field!(alloc, Member::Signature, json),
            committee_bits: read_field!(alloc, Member::CommitteeBits, json),
        }))
    }

    fn to_json(&self, alloc: Global) -> Result<Value, AllocError> {
        let object = with_member(
            Object::new(alloc),
            alloc,
            Member::CommitteeBits,
            &self.committee_bits,
        )?;
        let object = with_member(object, alloc, Member::Signature, &self.signature)?;
        let object = with_member(object, alloc, Member::Details, &self.details)?;
        let object = with_member(
            object,
            alloc,
            Member::AggregationBits,
            &self.aggregation_bits,
        )?;
        Ok(object.value())
    }

    ghost names = { electra_attestation_names };
}

impl Container for ElectraAttestation {}

impl ElectraAttestation {
    /// The same votes again. The error is want of memory.
    fn copy(&self, alloc: Global) -> Result<ElectraAttestation, AllocError>
        ensures { IfOk result (λ copy. copy ≡ self.now) }
    {
        Ok(ElectraAttestation {
            aggregation_bits: bounded_copy(alloc, &self.aggregation_bits)?,
            details: self.details,
            signature: self.signature,
            committee_bits: self.committee_bits,
        })
    }
}

/// An aggregate from Electra on, with its aggregator (consensus-specs, "Electra", `AggregateAndProof`).
#[derive(Drop, Debug)]
pub struct ElectraAggregateAndProof {
    pub aggregator_index: u64,
    pub aggregate: ElectraAttestation,
    pub selection_proof: Sig,
}

#[tactic(auto, unfolding(phase0_types::specs::Roots::root_of, phase0_types::specs::Reading::read_at, phase0_types::specs::Writing::write, phase0_types::specs::Fitting::Fits, crate::specs::Containers::electra_aggregate_and_proof, crate::specs::Values::electra_aggregate_and_proof_value))]
impl Shaped for ElectraAggregateAndProof {
    ghost shape = { electra_aggregate_and_proof };

    ghost value = { electra_aggregate_and_proof_value };

    fn root(&self) -> Root {
        container_root(&[
            self.aggregator_index.root(),
            self.aggregate.root(),
            self.selection_proof.root(),
        ])
    }

    fn read_at(alloc: Global, place: Option<Member>, json: &Value) -> ReadResult<Self> {
        object_at!(place, json);
        Ok(Ok(ElectraAggregateAndProof {
            aggregator_index: read_field!(alloc, Member::AggregatorIndex, json),
            aggregate: read_field!(alloc, Member::Aggregate, json),
            selection_proof: read_field!(alloc, Member::SelectionProof, json),
        }))
    }

    fn to_json(&self, alloc: Global) -> Result<Value, AllocError> {
        let object = with_member(
            Object::new(alloc),
            alloc,
            Member::SelectionProof,
            &self.selection_proof,
        )?;
        let object = with_member(object, alloc, Member::Aggregate, &self.aggregate)?;
        let object = with_member(
            object,
            alloc,
            Member::AggregatorIndex,
            &self.aggregator_index,
        )?;
        Ok(object.value())
    }

    ghost names = { electra_aggregate_and_proof_names };
}

impl Container for ElectraAggregateAndProof {}

impl ElectraAggregateAndProof {
    /// The same aggregate again. The error is want of memory.
    pub fn copy(&self, alloc: Global) -> Result<ElectraAggregateAndProof, AllocError>
        ensures { IfOk result (λ copy. copy ≡ self.now) }
    {
        Ok(ElectraAggregateAndProof {
            aggregator_index: self.aggregator_index,
            aggregate: self.aggregate.copy(alloc)?,
            selection_proof: self.selection_proof,
        })
    }
}
