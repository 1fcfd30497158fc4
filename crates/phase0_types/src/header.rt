//! Block headers, and what a block says of deposits.
ghost use Rattle.phase0_types.specs.Headers.{beacon_block_header_value, eth1_data_value};
ghost use Rattle.phase0_types.specs.Containers.{beacon_block_header, eth1_data};
ghost use Rattle.phase0_types.specs.Names.{beacon_block_header_names, eth1_data_names};

use crate::member::Member;
use crate::shaped::{Container, ReadResult, Shaped, container_root, with_member};
use crate::{object_at, read_field};
use edge_kit::Root;
use json_members::Object;
use serde_json::Value;
use std::alloc::{AllocError, Global};

/// A block with its body's root in place of the body (consensus-specs, `BeaconBlockHeader`).
#[derive(Clone, Copy, PartialEq, Eq, Debug)]
pub struct BeaconBlockHeader {
    pub slot: u64,
    pub proposer_index: u64,
    pub parent_root: Root,
    pub state_root: Root,
    pub body_root: Root,
}

#[tactic(auto, unfolding(crate::specs::Roots::root_of, crate::specs::Reading::read_at, crate::specs::Writing::write, crate::specs::Fitting::Fits, crate::specs::Containers::beacon_block_header, crate::specs::Headers::beacon_block_header_value))]
impl Shaped for BeaconBlockHeader {
    ghost shape = { beacon_block_header };

    ghost value = { beacon_block_header_value };

    fn root(&self) -> Root {
        container_root(&[
            self.slot.root(),
            self.proposer_index.root(),
            self.parent_root.root(),
            self.state_root.root(),
            self.body_root.root(),
        ])
    }

    fn read_at(alloc: Global, place: Option<Member>, json: &Value) -> ReadResult<Self> {
        object_at!(place, json);
        Ok(Ok(BeaconBlockHeader {
            slot: read_field!(alloc, Member::Slot, json),
            proposer_index: read_field!(alloc, Member::ProposerIndex, json),
            parent_root: read_field!(alloc, Member::ParentRoot, json),
            state_root: read_field!(alloc, Member::StateRoot, json),
            body_root: read_field!(alloc, Member::BodyRoot, json),
        }))
    }

    fn to_json(&self, alloc: Global) -> Result<Value, AllocError> {
        let object = with_member(Object::new(alloc), alloc, Member::BodyRoot, &self.body_root)?;
        let object = with_member(object, alloc, Member::StateRoot, &self.state_root)?;
        let object = with_member(object, alloc, Member::ParentRoot, &self.parent_root)?;
        let object = with_member(object, alloc, Member::ProposerIndex, &self.proposer_index)?;
        let object = with_member(object, alloc, Member::Slot, &self.slot)?;
        Ok(object.value())
    }

    ghost names = { beacon_block_header_names };
}

impl Container for BeaconBlockHeader {}

/// The deposits that the execution chain has seen (consensus-specs, `Eth1Data`).
#[derive(Clone, Copy, PartialEq, Eq, Debug)]
pub struct Eth1Data {
    pub deposit_root: Root,
    pub deposit_count: u64,
    pub block_hash: Root,
}

#[tactic(auto, unfolding(crate::specs::Roots::root_of, crate::specs::Reading::read_at, crate::specs::Writing::write, crate::specs::Fitting::Fits, crate::specs::Containers::eth1_data, crate::specs::Headers::eth1_data_value))]
impl Shaped for Eth1Data {
    ghost shape = { eth1_data };

    ghost value = { eth1_data_value };

    fn root(&self) -> Root {
        container_root(&[
            self.deposit_root.root(),
            self.deposit_count.root(),
            self.block_hash.root(),
        ])
    }

    fn read_at(alloc: Global, place: Option<Member>, json: &Value) -> ReadResult<Self> {
        object_at!(place, json);
        Ok(Ok(Eth1Data {
            deposit_root: read_field!(alloc, Member::DepositRoot, json),
            deposit_count: read_field!(alloc, Member::DepositCount, json),
            block_hash: read_field!(alloc, Member::BlockHash, json),
        }))
    }

    fn to_json(&self, alloc: Global) -> Result<Value, AllocError> {
        let object = with_member(
            Object::new(alloc),
            alloc,
            Member::BlockHash,
            &self.block_hash,
        )?;
        let object = with_member(object, alloc, Member::DepositCount, &self.deposit_count)?;
        let object = with_member(object, alloc, Member::DepositRoot, &self.deposit_root)?;
        Ok(object.value())
    }

    ghost names = { eth1_data_names };
}

impl Container for Eth1Data {}
