//! What a sync committee said of a block's parent.
ghost use Rattle.altair_blocks.specs.Containers.{sync_aggregate};
ghost use Rattle.altair_blocks.specs.Names.{sync_aggregate_names};
ghost use Rattle.altair_blocks.specs.Blocks.{sync_aggregate_value};

use edge_kit::{Root, Sig};
use json_members::Object;
use phase0_types::{
    Container, Member, ReadResult, Shaped, container_root, object_at, read_field, with_member,
};
use serde_json::Value;
use std::alloc::{AllocError, Global};

/// The sync committee's members that signed the parent's root, and their signature (consensus-specs, "Altair",
/// `SyncAggregate`).
#[derive(Clone, Copy, PartialEq, Eq, Debug)]
pub struct SyncAggregate {
    /// One bit a member, 512 of them, the first one the lowest of the first byte.
    pub sync_committee_bits: [u8; 64],
    pub sync_committee_signature: Sig,
}

#[tactic(auto, unfolding(phase0_types::specs::Roots::root_of, phase0_types::specs::Reading::read_at, phase0_types::specs::Writing::write, phase0_types::specs::Fitting::Fits, crate::specs::Containers::sync_aggregate, crate::specs::Blocks::sync_aggregate_value))]
impl Shaped for SyncAggregate {
    ghost shape = { sync_aggregate };

    ghost value = { sync_aggregate_value };

    fn root(&self) -> Root {
        container_root(&[
            self.sync_committee_bits.root(),
            self.sync_committee_signature.root(),
        ])
    }

    fn read_at(alloc: Global, place: Option<Member>, json: &Value) -> ReadResult<Self> {
        object_at!(place, json);
        Ok(Ok(SyncAggregate {
            sync_committee_bits: read_field!(alloc, Member::SyncCommitteeBits, json),
            sync_committee_signature: read_field!(alloc, Member::SyncCommitteeSignature, json),
        }))
    }

    fn to_json(&self, alloc: Global) -> Result<Value, AllocError> {
        let object = with_member(
            Object::new(alloc),
            alloc,
            Member::SyncCommitteeSignature,
            &self.sync_committee_signature,
        )?;
        let object = with_member(
            object,
            alloc,
            Member::SyncCommitteeBits,
            &self.sync_committee_bits,
        )?;
        Ok(object.value())
    }

    ghost names = { sync_aggregate_names };
}

impl Container for SyncAggregate {}
