//! Messages with their signatures.
ghost use Rattle.phase0_types.specs.Containers.{signed};
ghost use Rattle.phase0_types.specs.Names.{signed_names};
ghost use Rattle.phase0_blocks.specs.Signed.{signed_value};

use crate::block::BeaconBlock;
use crate::operation::VoluntaryExit;
use edge_kit::{Root, Sig};
use json_members::Object;
use phase0_types::{
    BeaconBlockHeader, Container, Member, ReadResult, Shaped, container_root, object_at,
    read_field, with_member,
};
use serde_json::Value;
use std::alloc::{AllocError, Global};

/// A message with its signature.
#[derive(Clone, Copy, PartialEq, Eq, Debug, Drop)]
pub struct Signed<T> {
    pub message: T,
    pub signature: Sig,
}

/// A signed block (consensus-specs, `SignedBeaconBlock`).
pub type SignedBeaconBlock = Signed<BeaconBlock>;

/// A signed header (consensus-specs, `SignedBeaconBlockHeader`).
pub type SignedBeaconBlockHeader = Signed<BeaconBlockHeader>;

/// A signed exit (consensus-specs, `SignedVoluntaryExit`).
pub type SignedVoluntaryExit = Signed<VoluntaryExit>;

#[tactic(auto, unfolding(phase0_types::specs::Roots::root_of, phase0_types::specs::Reading::read_at, phase0_types::specs::Writing::write, phase0_types::specs::Fitting::Fits, phase0_types::specs::Containers::signed, crate::specs::Signed::signed_value))]
impl<T: Container> Shaped for Signed<T> {
    ghost shape = { signed T.shape };

    ghost value = { signed_value T.shape T.value };

    fn root(&self) -> Root {
        container_root(&[self.message.root(), self.signature.root()])
    }

    fn read_at(alloc: Global, place: Option<Member>, json: &Value) -> ReadResult<Self> {
        object_at!(place, json);
        Ok(Ok(Signed {
            message: read_field!(alloc, Member::Message, json),
            signature: read_field!(alloc, Member::Signature, json),
        }))
    }

    fn to_json(&self, alloc: Global) -> Result<Value, AllocError> {
        let object = with_member(
            Object::new(alloc),
            alloc,
            Member::Signature,
            &self.signature,
        )?;
        let object = with_member(object, alloc, Member::Message, &self.message)?;
        Ok(object.value())
    }

    ghost names = { signed_names T.shape T.names };
}

impl<T: Container> Container for Signed<T> {}
