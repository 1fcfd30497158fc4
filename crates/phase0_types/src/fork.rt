//! Forks and what is signed.
ghost use Rattle.phase0_types.specs.Forks.{fork_data_value, fork_value, signing_data_value};
ghost use Rattle.phase0_types.specs.Containers.{fork, fork_data, signing_data};
ghost use Rattle.phase0_types.specs.Names.{fork_data_names, fork_names, signing_data_names};

use crate::member::Member;
use crate::shaped::{Container, ReadResult, Shaped, container_root, with_member};
use crate::{object_at, read_field};
use edge_kit::Root;
use json_members::Object;
use serde_json::Value;
use std::alloc::{AllocError, Global};

/// The versions before and from an epoch on (consensus-specs, `Fork`).
#[derive(Clone, Copy, PartialEq, Eq, Debug)]
pub struct Fork {
    pub previous_version: [u8; 4],
    pub current_version: [u8; 4],
    pub epoch: u64,
}

#[tactic(auto, unfolding(crate::specs::Roots::root_of, crate::specs::Reading::read_at, crate::specs::Writing::write, crate::specs::Fitting::Fits, crate::specs::Containers::fork, crate::specs::Forks::fork_value))]
impl Shaped for Fork {
    ghost shape = { fork };

    ghost value = { fork_value };

    fn root(&self) -> Root {
        container_root(&[
            self.previous_version.root(),
            self.current_version.root(),
            self.epoch.root(),
        ])
    }

    fn read_at(alloc: Global, place: Option<Member>, json: &Value) -> ReadResult<Self> {
        object_at!(place, json);
        Ok(Ok(Fork {
            previous_version: read_field!(alloc, Member::PreviousVersion, json),
            current_version: read_field!(alloc, Member::CurrentVersion, json),
            epoch: read_field!(alloc, Member::Epoch, json),
        }))
    }

    fn to_json(&self, alloc: Global) -> Result<Value, AllocError> {
        let object = with_member(Object::new(alloc), alloc, Member::Epoch, &self.epoch)?;
        let object = with_member(object, alloc, Member::CurrentVersion, &self.current_version)?;
        let object = with_member(
            object,
            alloc,
            Member::PreviousVersion,
            &self.previous_version,
        )?;
        Ok(object.value())
    }

    ghost names = { fork_names };
}

impl Container for Fork {}

/// What tells one chain and fork from another (consensus-specs, `ForkData`).
#[derive(Clone, Copy, PartialEq, Eq, Debug)]
pub struct ForkData {
    pub current_version: [u8; 4],
    pub genesis_validators_root: Root,
}

#[tactic(auto, unfolding(crate::specs::Roots::root_of, crate::specs::Reading::read_at, crate::specs::Writing::write, crate::specs::Fitting::Fits, crate::specs::Containers::fork_data, crate::specs::Forks::fork_data_value))]
impl Shaped for ForkData {
    ghost shape = { fork_data };

    ghost value = { fork_data_value };

    fn root(&self) -> Root {
        container_root(&[
            self.current_version.root(),
            self.genesis_validators_root.root(),
        ])
    }

    fn read_at(alloc: Global, place: Option<Member>, json: &Value) -> ReadResult<Self> {
        object_at!(place, json);
        Ok(Ok(ForkData {
            current_version: read_field!(alloc, Member::CurrentVersion, json),
            genesis_validators_root: read_field!(alloc, Member::GenesisValidatorsRoot, json),
        }))
    }

    fn to_json(&self, alloc: Global) -> Result<Value, AllocError> {
        let object = with_member(
            Object::new(alloc),
            alloc,
            Member::GenesisValidatorsRoot,
            &self.genesis_validators_root,
        )?;
        let object = with_member(object, alloc, Member::CurrentVersion, &self.current_version)?;
        Ok(object.value())
    }

    ghost names = { fork_data_names };
}

impl Container for ForkData {}

/// What is signed: an object's root under a domain (consensus-specs, `SigningData`).
#[derive(Clone, Copy, PartialEq, Eq, Debug)]
pub struct SigningData {
    pub object_root: Root,
    pub domain: [u8; 32],
}

#[tactic(auto, unfolding(crate::specs::Roots::root_of, crate::specs::Reading::read_at, crate::specs::Writing::write, crate::specs::Fitting::Fits, crate::specs::Containers::signing_data, crate::specs::Forks::signing_data_value))]
impl Shaped for SigningData {
    ghost shape = { signing_data };

    ghost value = { signing_data_value };

    fn root(&self) -> Root {
        container_root(&[self.object_root.root(), self.domain.root()])
    }

    fn read_at(alloc: Global, place: Option<Member>, json: &Value) -> ReadResult<Self> {
        object_at!(place, json);
        Ok(Ok(SigningData {
            object_root: read_field!(alloc, Member::ObjectRoot, json),
            domain: read_field!(alloc, Member::Domain, json),
        }))
    }

    fn to_json(&self, alloc: Global) -> Result<Value, AllocError> {
        let object = with_member(Object::new(alloc), alloc, Member::Domain, &self.domain)?;
        let object = with_member(object, alloc, Member::ObjectRoot, &self.object_root)?;
        Ok(object.value())
    }

    ghost names = { signing_data_names };
}

impl Container for SigningData {}
