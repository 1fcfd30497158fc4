//! Blocks.
ghost use Rattle.std.specs.Prelude.{◌≡◌};
ghost use Rattle.phase0_blocks.specs.Blocks.{beacon_block_body_value, beacon_block_value};
ghost use Rattle.phase0_types.specs.Containers.{beacon_block, beacon_block_body, beacon_block_header};
ghost use Rattle.phase0_types.specs.Headers.{beacon_block_header_value};
ghost use Rattle.phase0_types.specs.Names.{beacon_block_body_names, beacon_block_names};
ghost use Rattle.phase0_types.specs.Roots.{root_of};

use crate::lists::read_lists;
use crate::operation::{AttesterSlashing, Deposit, ProposerSlashing};
use crate::signed::SignedVoluntaryExit;
use crate::vote::Attestation;
use edge_kit::{Root, Sig};
use json_members::Object;
use phase0_types::{
    BeaconBlockHeader, BoundedList, Container, Eth1Data, Member, ReadResult, Shaped,
    container_root, object_at, read_field, with_member,
};
use serde_json::Value;
use std::alloc::{AllocError, Global};

/// What a block carries (consensus-specs, `BeaconBlockBody`).
#[derive(Drop, Debug)]
pub struct BeaconBlockBody {
    pub randao_reveal: Sig,
    pub eth1_data: Eth1Data,
    pub graffiti: [u8; 32],
    pub proposer_slashings: BoundedList<ProposerSlashing, 16>,
    pub attester_slashings: BoundedList<AttesterSlashing, 2>,
    pub attestations: BoundedList<Attestation, 128>,
    pub deposits: BoundedList<Deposit, 16>,
    pub voluntary_exits: BoundedList<SignedVoluntaryExit, 16>,
}

#[tactic(auto, unfolding(phase0_types::specs::Roots::root_of, phase0_types::specs::Reading::read_at, phase0_types::specs::Writing::write, phase0_types::specs::Fitting::Fits, phase0_types::specs::Containers::beacon_block_body, crate::specs::Blocks::beacon_block_body_value, crate::specs::Lists::body_lists_value, crate::specs::Lists::body_operations_value))]
impl Shaped for BeaconBlockBody {
    ghost shape = { beacon_block_body };

    ghost value = { beacon_block_body_value };

    fn root(&self) -> Root {
        container_root(&[
            self.randao_reveal.root(),
            self.eth1_data.root(),
            self.graffiti.root(),
            self.proposer_slashings.root(),
            self.attester_slashings.root(),
            self.attestations.root(),
            self.deposits.root(),
            self.voluntary_exits.root(),
        ])
    }

    fn read_at(alloc: Global, place: Option<Member>, json: &Value) -> ReadResult<Self> {
        object_at!(place, json);
        let randao_reveal: Sig = read_field!(alloc, Member::RandaoReveal, json);
        let eth1_data: Eth1Data = read_field!(alloc, Member::Eth1Data, json);
        let graffiti: [u8; 32] = read_field!(alloc, Member::Graffiti, json);
        match read_lists(alloc, json)? {
            Ok(lists) => Ok(Ok(BeaconBlockBody {
                randao_reveal,
                eth1_data,
                graffiti,
                proposer_slashings: lists.proposer_slashings,
                attester_slashings: lists.attester_slashings,
                attestations: lists.operations.attestations,
                deposits: lists.operations.deposits,
                voluntary_exits: lists.operations.voluntary_exits,
            })),
            Err(fault) => Ok(Err(fault)),
        }
    }

    fn to_json(&self, alloc: Global) -> Result<Value, AllocError> {
        let object = with_member(
            Object::new(alloc),
            alloc,
            Member::VoluntaryExits,
            &self.voluntary_exits,
        )?;
        let object = with_member(object, alloc, Member::Deposits, &self.deposits)?;
        let object = with_member(object, alloc, Member::Attestations, &self.attestations)?;
        let object = with_member(
            object,
            alloc,
            Member::AttesterSlashings,
            &self.attester_slashings,
        )?;
        let object = with_member(
            object,
            alloc,
            Member::ProposerSlashings,
            &self.proposer_slashings,
        )?;
        let object = with_member(object, alloc, Member::Graffiti, &self.graffiti)?;
        let object = with_member(object, alloc, Member::Eth1Data, &self.eth1_data)?;
        let object = with_member(object, alloc, Member::RandaoReveal, &self.randao_reveal)?;
        Ok(object.value())
    }

    ghost names = { beacon_block_body_names };
}

impl Container for BeaconBlockBody {}

/// A block (consensus-specs, `BeaconBlock`).
#[derive(Drop, Debug)]
pub struct BeaconBlock {
    pub slot: u64,
    pub proposer_index: u64,
    pub parent_root: Root,
    pub state_root: Root,
    pub body: BeaconBlockBody,
}

#[tactic(auto, unfolding(phase0_types::specs::Roots::root_of, phase0_types::specs::Reading::read_at, phase0_types::specs::Writing::write, phase0_types::specs::Fitting::Fits, phase0_types::specs::Containers::beacon_block, crate::specs::Blocks::beacon_block_value))]
impl Shaped for BeaconBlock {
    ghost shape = { beacon_block };

    ghost value = { beacon_block_value };

    fn root(&self) -> Root {
        container_root(&[
            self.slot.root(),
            self.proposer_index.root(),
            self.parent_root.root(),
            self.state_root.root(),
            self.body.root(),
        ])
    }

    fn read_at(alloc: Global, place: Option<Member>, json: &Value) -> ReadResult<Self> {
        object_at!(place, json);
        Ok(Ok(BeaconBlock {
            slot: read_field!(alloc, Member::Slot, json),
            proposer_index: read_field!(alloc, Member::ProposerIndex, json),
            parent_root: read_field!(alloc, Member::ParentRoot, json),
            state_root: read_field!(alloc, Member::StateRoot, json),
            body: read_field!(alloc, Member::Body, json),
        }))
    }

    fn to_json(&self, alloc: Global) -> Result<Value, AllocError> {
        let object = with_member(Object::new(alloc), alloc, Member::Body, &self.body)?;
        let object = with_member(object, alloc, Member::StateRoot, &self.state_root)?;
        let object = with_member(object, alloc, Member::ParentRoot, &self.parent_root)?;
        let object = with_member(object, alloc, Member::ProposerIndex, &self.proposer_index)?;
        let object = with_member(object, alloc, Member::Slot, &self.slot)?;
        Ok(object.value())
    }

    ghost names = { beacon_block_names };
}

impl Container for BeaconBlock {}

impl BeaconBlock {
    /// Its header, with the body's root in place of the body. The two have one root.
    pub fn header(&self) -> BeaconBlockHeader
        ensures slot { result.slot ≡ self.now.slot }
        ensures proposer_index { result.proposer_index ≡ self.now.proposer_index }
        ensures parent_root { result.parent_root ≡ self.now.parent_root }
        ensures state_root { result.state_root ≡ self.now.state_root }
        ensures body_root { result.body_root.0
            ≡ root_of beacon_block_body (beacon_block_body_value self.now.body) }
        ensures same_root { root_of beacon_block_header (beacon_block_header_value result)
            ≡ root_of beacon_block (beacon_block_value self.now) }
    {
        BeaconBlockHeader {
            slot: self.slot,
            proposer_index: self.proposer_index,
            parent_root: self.parent_root,
            state_root: self.state_root,
            body_root: self.body.root(),
        }
    }
}
