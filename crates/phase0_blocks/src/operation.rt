//! Slashings, deposits and exits.
ghost use Rattle.phase0_blocks.specs.Operations.{attester_slashing_value, deposit_data_value, deposit_value, proposer_slashing_value, voluntary_exit_value};
ghost use Rattle.phase0_types.specs.Containers.{attester_slashing, deposit, deposit_data, proposer_slashing, voluntary_exit};
ghost use Rattle.phase0_types.specs.Names.{attester_slashing_names, deposit_data_names, deposit_names, proposer_slashing_names, voluntary_exit_names};

use crate::signed::SignedBeaconBlockHeader;
use crate::vote::IndexedAttestation;
use edge_kit::{PubKey, Root, Sig};
use json_members::Object;
use phase0_types::{
    Container, Member, ReadResult, Shaped, container_root, object_at, read_field, with_member,
};
use serde_json::Value;
use std::alloc::{AllocError, Global};

/// Two headers of one slot by one proposer (consensus-specs, `ProposerSlashing`).
#[derive(Clone, Copy, PartialEq, Eq, Debug)]
pub struct ProposerSlashing {
    pub signed_header_1: SignedBeaconBlockHeader,
    pub signed_header_2: SignedBeaconBlockHeader,
}

#[tactic(auto, unfolding(phase0_types::specs::Roots::root_of, phase0_types::specs::Reading::read_at, phase0_types::specs::Writing::write, phase0_types::specs::Fitting::Fits, phase0_types::specs::Containers::proposer_slashing, crate::specs::Operations::proposer_slashing_value))]
impl Shaped for ProposerSlashing {
    ghost shape = { proposer_slashing };

    ghost value = { proposer_slashing_value };

    fn root(&self) -> Root {
        container_root(&[self.signed_header_1.root(), self.signed_header_2.root()])
    }

    fn read_at(alloc: Global, place: Option<Member>, json: &Value) -> ReadResult<Self> {
        object_at!(place, json);
        Ok(Ok(ProposerSlashing {
            signed_header_1: read_field!(alloc, Member::SignedHeader1, json),
            signed_header_2: read_field!(alloc, Member::SignedHeader2, json),
        }))
    }

    fn to_json(&self, alloc: Global) -> Result<Value, AllocError> {
        let object = with_member(
            Object::new(alloc),
            alloc,
            Member::SignedHeader2,
            &self.signed_header_2,
        )?;
        let object = with_member(object, alloc, Member::SignedHeader1, &self.signed_header_1)?;
        Ok(object.value())
    }

    ghost names = { proposer_slashing_names };
}

impl Container for ProposerSlashing {}

/// Two votes that conflict (consensus-specs, `AttesterSlashing`).
#[derive(Drop, Debug)]
pub struct AttesterSlashing {
    pub attestation_1: IndexedAttestation,
    pub attestation_2: IndexedAttestation,
}

#[tactic(auto, unfolding(phase0_types::specs::Roots::root_of, phase0_types::specs::Reading::read_at, phase0_types::specs::Writing::write, phase0_types::specs::Fitting::Fits, phase0_types::specs::Containers::attester_slashing, crate::specs::Operations::attester_slashing_value))]
impl Shaped for AttesterSlashing {
    ghost shape = { attester_slashing };

    ghost value = { attester_slashing_value };

    fn root(&self) -> Root {
        container_root(&[self.attestation_1.root(), self.attestation_2.root()])
    }

    fn read_at(alloc: Global, place: Option<Member>, json: &Value) -> ReadResult<Self> {
        object_at!(place, json);
        Ok(Ok(AttesterSlashing {
            attestation_1: read_field!(alloc, Member::Attestation1, json),
            attestation_2: read_field!(alloc, Member::Attestation2, json),
        }))
    }

    fn to_json(&self, alloc: Global) -> Result<Value, AllocError> {
        let object = with_member(
            Object::new(alloc),
            alloc,
            Member::Attestation2,
            &self.attestation_2,
        )?;
        let object = with_member(object, alloc, Member::Attestation1, &self.attestation_1)?;
        Ok(object.value())
    }

    ghost names = { attester_slashing_names };
}

impl Container for AttesterSlashing {}

/// What is deposited for whom (consensus-specs, `DepositData`).
#[derive(Clone, Copy, PartialEq, Eq, Debug)]
pub struct DepositData {
    pub pubkey: PubKey,
    pub withdrawal_credentials: [u8; 32],
    pub amount: u64,
    pub signature: Sig,
}

#[tactic(auto, unfolding(phase0_types::specs::Roots::root_of, phase0_types::specs::Reading::read_at, phase0_types::specs::Writing::write, phase0_types::specs::Fitting::Fits, phase0_types::specs::Containers::deposit_data, crate::specs::Operations::deposit_data_value))]
impl Shaped for DepositData {
    ghost shape = { deposit_data };

    ghost value = { deposit_data_value };

    fn root(&self) -> Root {
        container_root(&[
            self.pubkey.root(),
            self.withdrawal_credentials.root(),
            self.amount.root(),
            self.signature.root(),
        ])
    }

    fn read_at(alloc: Global, place: Option<Member>, json: &Value) -> ReadResult<Self> {
        object_at!(place, json);
        Ok(Ok(DepositData {
            pubkey: read_field!(alloc, Member::Pubkey, json),
            withdrawal_credentials: read_field!(alloc, Member::WithdrawalCredentials, json),
            amount: read_field!(alloc, Member::Amount, json),
            signature: read_field!(alloc, Member::Signature, json),
        }))
    }

    fn to_json(&self, alloc: Global) -> Result<Value, AllocError> {
        let object = with_member(
            Object::new(alloc),
            alloc,
            Member::Signature,
            &self.signature,
        )?;
        let object = with_member(object, alloc, Member::Amount, &self.amount)?;
        let object = with_member(
            object,
            alloc,
            Member::WithdrawalCredentials,
            &self.withdrawal_credentials,
        )?;
        let object = with_member(object, alloc, Member::Pubkey, &self.pubkey)?;
        Ok(object.value())
    }

    ghost names = { deposit_data_names };
}

impl Container for DepositData {}

/// A deposit with its Merkle proof (consensus-specs, `Deposit`).
#[derive(Clone, Copy, PartialEq, Eq, Debug)]
pub struct Deposit {
    pub proof: [Root; 33],
    pub details: DepositData,
}

#[tactic(auto, unfolding(phase0_types::specs::Roots::root_of, phase0_types::specs::Reading::read_at, phase0_types::specs::Writing::write, phase0_types::specs::Fitting::Fits, phase0_types::specs::Containers::deposit, crate::specs::Operations::deposit_value))]
impl Shaped for Deposit {
    ghost shape = { deposit };

    ghost value = { deposit_value };

    fn root(&self) -> Root {
        container_root(&[self.proof.root(), self.details.root()])
    }

    fn read_at(alloc: Global, place: Option<Member>, json: &Value) -> ReadResult<Self> {
        object_at!(place, json);
        Ok(Ok(Deposit {
            proof: read_field!(alloc, Member::Proof, json),
            details: read_field!(alloc, Member::Details, json),
        }))
    }

    fn to_json(&self, alloc: Global) -> Result<Value, AllocError> {
        let object = with_member(Object::new(alloc), alloc, Member::Details, &self.details)?;
        let object = with_member(object, alloc, Member::Proof, &self.proof)?;
        Ok(object.value())
    }

    ghost names = { deposit_names };
}

impl Container for Deposit {}

/// A validator's wish to leave from an epoch on (consensus-specs, `VoluntaryExit`).
#[derive(Clone, Copy, PartialEq, Eq, Debug)]
pub struct VoluntaryExit {
    pub epoch: u64,
    pub validator_index: u64,
}

#[tactic(auto, unfolding(phase0_types::specs::Roots::root_of, phase0_types::specs::Reading::read_at, phase0_types::specs::Writing::write, phase0_types::specs::Fitting::Fits, phase0_types::specs::Containers::voluntary_exit, crate::specs::Operations::voluntary_exit_value))]
impl Shaped for VoluntaryExit {
    ghost shape = { voluntary_exit };

    ghost value = { voluntary_exit_value };

    fn root(&self) -> Root {
        container_root(&[self.epoch.root(), self.validator_index.root()])
    }

    fn read_at(alloc: Global, place: Option<Member>, json: &Value) -> ReadResult<Self> {
        object_at!(place, json);
        Ok(Ok(VoluntaryExit {
            epoch: read_field!(alloc, Member::Epoch, json),
            validator_index: read_field!(alloc, Member::ValidatorIndex, json),
        }))
    }

    fn to_json(&self, alloc: Global) -> Result<Value, AllocError> {
        let object = with_member(
            Object::new(alloc),
            alloc,
            Member::ValidatorIndex,
            &self.validator_index,
        )?;
        let object = with_member(object, alloc, Member::Epoch, &self.epoch)?;
        Ok(object.value())
    }

    ghost names = { voluntary_exit_names };
}

impl Container for VoluntaryExit {}
