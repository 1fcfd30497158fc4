//! Blocks of Altair.
ghost use Rattle.std.specs.Prelude.{◌≡◌};
ghost use Rattle.altair_blocks.specs.Blocks.{altair_block_body_value, altair_block_value};
ghost use Rattle.altair_blocks.specs.Containers.{altair_block, altair_block_body};
ghost use Rattle.altair_blocks.specs.Names.{altair_block_body_names, altair_block_names};
ghost use Rattle.phase0_types.specs.Containers.{beacon_block_header};
ghost use Rattle.phase0_types.specs.Headers.{beacon_block_header_value};
ghost use Rattle.phase0_types.specs.Roots.{root_of};

use crate::sync_aggregate::SyncAggregate;
use edge_kit::Root;
use json_members::Object;
use phase0_blocks::BeaconBlockBody;
use phase0_types::{
    BeaconBlockHeader, Container, Member, ReadResult, Shaped, container_root, object_at,
    read_field, with_member,
};
use serde_json::Value;
use std::alloc::{AllocError, Global};

/// What a block of Altair carries (consensus-specs, "Altair", `BeaconBlockBody`). In its JSON and in its root these are the
/// fields of one container.
#[derive(Drop, Debug)]
pub struct AltairBlockBody {
    /// The fields that a body of phase 0 has.
    pub phase0: BeaconBlockBody,
    pub sync_aggregate: SyncAggregate,
}

#[tactic(auto, unfolding(phase0_types::specs::Roots::root_of, phase0_types::specs::Writing::write, phase0_types::specs::Fitting::Fits, crate::specs::Containers::altair_block_body, crate::specs::Blocks::altair_block_body_value))]
impl Shaped for AltairBlockBody {
    ghost shape = { altair_block_body };

    ghost value = { altair_block_body_value };

    fn root(&self) -> Root {
        let body = &self.phase0;
        container_root(&[
            body.randao_reveal.root(),
            body.eth1_data.root(),
            body.graffiti.root(),
            body.proposer_slashings.root(),
            body.attester_slashings.root(),
            body.attestations.root(),
            body.deposits.root(),
            body.voluntary_exits.root(),
            self.sync_aggregate.root(),
        ])
    }

    fn read_at(alloc: Global, place: Option<Member>, json: &Value) -> ReadResult<Self> {
        match BeaconBlockBody::read_at(alloc, place, json)? {
            Ok(phase0) => Ok(Ok(AltairBlockBody {
                phase0,
                sync_aggregate: read_field!(alloc, Member::SyncAggregate, json),
            })),
            Err(fault) => Ok(Err(fault)),
        }
    }

    fn to_json(&self, alloc: Global) -> Result<Value, AllocError> {
        let body = &self.phase0;
        let object = Object::new(alloc);
        let object = with_member(object, alloc, Member::SyncAggregate, &self.sync_aggregate)?;
        let object = with_member(object, alloc, Member::VoluntaryExits, &body.voluntary_exits)?;
        let object = with_member(object, alloc, Member::Deposits, &body.deposits)?;
        let object = with_member(object, alloc, Member::Attestations, &body.attestations)?;
        let object = with_member(
            object,
            alloc,
            Member::AttesterSlashings,
            &body.attester_slashings,
        )?;
        let object = with_member(
            object,
            alloc,
            Member::ProposerSlashings,
            &body.proposer_slashings,
        )?;
        let object = with_member(object, alloc, Member::Graffiti, &body.graffiti)?;
        let object = with_member(object, alloc, Member::Eth1Data, &body.eth1_data)?;
        let object = with_member(object, alloc, Member::RandaoReveal, &body.randao_reveal)?;
        Ok(object.value())
    }

    ghost names = { altair_block_body_names };
}

impl Container for AltairBlockBody {}

/// A block of Altair (consensus-specs, "Altair", `BeaconBlock`).
#[derive(Drop, Debug)]
pub struct AltairBlock {
    pub slot: u64,
    pub proposer_index: u64,
    pub parent_root: Root,
    pub state_root: Root,
    pub body: AltairBlockBody,
}

#[tactic(auto, unfolding(phase0_types::specs::Roots::root_of, phase0_types::specs::Reading::read_at, phase0_types::specs::Writing::write, phase0_types::specs::Fitting::Fits, crate::specs::Containers::altair_block, crate::specs::Blocks::altair_block_value))]
impl Shaped for AltairBlock {
    ghost shape = { altair_block };

    ghost value = { altair_block_value };

    fn root(&self) -> Root {
        container_root(&[
            self.slot.root(),
            self.proposer_index.root(),
            self.parent_root.root(),
            self.state_root.root(),
            self.body.root(),
        ])
    }

    fn read_at(alloc: Global, place: Option<Member>, json: &Value) -> ReadResult<Self> {
        object_at!(place, json);
        Ok(Ok(AltairBlock {
            slot: read_field!(alloc, Member::Slot, json),
            proposer_index: read_field!(alloc, Member::ProposerIndex, json),
            parent_root: read_field!(alloc, Member::ParentRoot, json),
            state_root: read_field!(alloc, Member::StateRoot, json),
            body: read_field!(alloc, Member::Body, json),
        }))
    }

    fn to_json(&self, alloc: Global) -> Result<Value, AllocError> {
        let object = with_member(Object::new(alloc), alloc, Member::Body, &self.body)?;
        let object = with_member(object, alloc, Member::StateRoot, &self.state_root)?;
        let object = with_member(object, alloc, Member::ParentRoot, &self.parent_root)?;
        let object = with_member(object, alloc, Member::ProposerIndex, &self.proposer_index)?;
        let object = with_member(object, alloc, Member::Slot, &self.slot)?;
        Ok(object.value())
    }

    ghost names = { altair_block_names };
}

impl Container for AltairBlock {}

impl AltairBlock {
    /// Its header, with the body's root in place of the body. The two have one root.
    pub fn header(&self) -> BeaconBlockHeader
        ensures slot { result.slot ≡ self.now.slot }
        ensures proposer_index { result.proposer_index ≡ self.now.proposer_index }
        ensures parent_root { result.parent_root ≡ self.now.parent_root }
        ensures state_root { result.state_root ≡ self.now.state_root }
        ensures body_root { result.body_root.0
            ≡ root_of altair_block_body (altair_block_body_value self.now.body) }
        ensures same_root { root_of beacon_block_header (beacon_block_header_value result)
            ≡ root_of altair_block (altair_block_value self.now) }
    {
        BeaconBlockHeader {
            slot: self.slot,
            proposer_index: self.proposer_index,
            parent_root: self.parent_root,
            state_root: self.state_root,
            body_root: self.body.root(),
        }
    }
}
