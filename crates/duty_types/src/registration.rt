//! A registration with builders.
ghost use Rattle.duty_types.specs.Containers.{validator_registration};
ghost use Rattle.duty_types.specs.Names.{validator_registration_names};
ghost use Rattle.duty_types.specs.Values.{validator_registration_value};

use edge_kit::{PubKey, Root};
use json_members::Object;
use phase0_types::{
    Container, Member, ReadResult, Shaped, container_root, object_at, read_field, with_member,
};
use serde_json::Value;
use std::alloc::{AllocError, Global};

/// What a validator wants of the builders of its blocks (builder-specs, `ValidatorRegistrationV1`).
#[derive(Clone, Copy, PartialEq, Eq, Debug)]
pub struct ValidatorRegistration {
    /// The execution address that is paid, 20 bytes.
    pub fee_recipient: [u8; 20],
    pub gas_limit: u64,
    /// When it was made, in seconds since 1970.
    pub timestamp: u64,
    pub pubkey: PubKey,
}

#[tactic(auto, unfolding(phase0_types::specs::Roots::root_of, phase0_types::specs::Reading::read_at, phase0_types::specs::Writing::write, phase0_types::specs::Fitting::Fits, crate::specs::Containers::validator_registration, crate::specs::Values::validator_registration_value))]
impl Shaped for ValidatorRegistration {
    ghost shape = { validator_registration };

    ghost value = { validator_registration_value };

    fn root(&self) -> Root {
        container_root(&[
            self.fee_recipient.root(),
            self.gas_limit.root(),
            self.timestamp.root(),
            self.pubkey.root(),
        ])
    }

    fn read_at(alloc: Global, place: Option<Member>, json: &Value) -> ReadResult<Self> {
        object_at!(place, json);
        Ok(Ok(ValidatorRegistration {
            fee_recipient: read_field!(alloc, Member::FeeRecipient, json),
            gas_limit: read_field!(alloc, Member::GasLimit, json),
            timestamp: read_field!(alloc, Member::Timestamp, json),
            pubkey: read_field!(alloc, Member::Pubkey, json),
        }))
    }

    fn to_json(&self, alloc: Global) -> Result<Value, AllocError> {
        let object = with_member(Object::new(alloc), alloc, Member::Pubkey, &self.pubkey)?;
        let object = with_member(object, alloc, Member::Timestamp, &self.timestamp)?;
        let object = with_member(object, alloc, Member::GasLimit, &self.gas_limit)?;
        let object = with_member(object, alloc, Member::FeeRecipient, &self.fee_recipient)?;
        Ok(object.value())
    }

    ghost names = { validator_registration_names };
}

impl Container for ValidatorRegistration {}
