//! Checkpoints and what is attested.
ghost use Rattle.phase0_types.specs.Attestations.{attestation_data_value, checkpoint_value};
ghost use Rattle.phase0_types.specs.Containers.{attestation_data, checkpoint};
ghost use Rattle.phase0_types.specs.Names.{attestation_data_names, checkpoint_names};

use crate::member::Member;
use crate::shaped::{Container, ReadResult, Shaped, container_root, with_member};
use crate::{object_at, read_field};
use edge_kit::Root;
use json_members::Object;
use serde_json::Value;
use std::alloc::{AllocError, Global};

/// An epoch, and the root of its block (consensus-specs, `Checkpoint`).
#[derive(Clone, Copy, PartialEq, Eq, Debug)]
pub struct Checkpoint {
    pub epoch: u64,
    pub root: Root,
}

#[tactic(auto, unfolding(crate::specs::Roots::root_of, crate::specs::Reading::read_at, crate::specs::Writing::write, crate::specs::Fitting::Fits, crate::specs::Containers::checkpoint, crate::specs::Attestations::checkpoint_value))]
impl Shaped for Checkpoint {
    ghost shape = { checkpoint };

    ghost value = { checkpoint_value };

    fn root(&self) -> Root {
        container_root(&[self.epoch.root(), self.root.root()])
    }

    fn read_at(alloc: Global, place: Option<Member>, json: &Value) -> ReadResult<Self> {
        object_at!(place, json);
        Ok(Ok(Checkpoint {
            epoch: read_field!(alloc, Member::Epoch, json),
            root: read_field!(alloc, Member::Root, json),
        }))
    }

    fn to_json(&self, alloc: Global) -> Result<Value, AllocError> {
        let object = with_member(Object::new(alloc), alloc, Member::Root, &self.root)?;
        let object = with_member(object, alloc, Member::Epoch, &self.epoch)?;
        Ok(object.value())
    }

    ghost names = { checkpoint_names };
}

impl Container for Checkpoint {}

/// What an attester votes for (consensus-specs, `AttestationData`).
#[derive(Clone, Copy, PartialEq, Eq, Debug)]
pub struct AttestationData {
    pub slot: u64,
    pub index: u64,
    pub beacon_block_root: Root,
    pub source: Checkpoint,
    pub target: Checkpoint,
}

#[tactic(auto, unfolding(crate::specs::Roots::root_of, crate::specs::Reading::read_at, crate::specs::Writing::write, crate::specs::Fitting::Fits, crate::specs::Containers::attestation_data, crate::specs::Attestations::attestation_data_value))]
impl Shaped for AttestationData {
    ghost shape = { attestation_data };

    ghost value = { attestation_data_value };

    fn root(&self) -> Root {
        container_root(&[
            self.slot.root(),
            self.index.root(),
            self.beacon_block_root.root(),
            self.source.root(),
            self.target.root(),
        ])
    }

    fn read_at(alloc: Global, place: Option<Member>, json: &Value) -> ReadResult<Self> {
        object_at!(place, json);
        Ok(Ok(AttestationData {
            slot: read_field!(alloc, Member::Slot, json),
            index: read_field!(alloc, Member::Index, json),
            beacon_block_root: read_field!(alloc, Member::BeaconBlockRoot, json),
            source: read_field!(alloc, Member::Source, json),
            target: read_field!(alloc, Member::Target, json),
        }))
    }

    fn to_json(&self, alloc: Global) -> Result<Value, AllocError> {
        let object = with_member(Object::new(alloc), alloc, Member::Target, &self.target)?;
        let object = with_member(object, alloc, Member::Source, &self.source)?;
        let object = with_member(
            object,
            alloc,
            Member::BeaconBlockRoot,
            &self.beacon_block_root,
        )?;
        let object = with_member(object, alloc, Member::Index, &self.index)?;
        let object = with_member(object, alloc, Member::Slot, &self.slot)?;
        Ok(object.value())
    }

    ghost names = { attestation_data_names };
}

impl Container for AttestationData {}
