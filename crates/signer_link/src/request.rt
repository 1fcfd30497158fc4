//! What the signing service is asked.
ghost use Rattle.std.specs.Prelude.{◌≡◌, true, IfOk, OnErr};
ghost use Rattle.signer_link.specs.Signing.{has_block, is_block};
ghost use Rattle.signer_link.specs.Plain.{is_aggregate, plain_epoch, plain_kind, plain_object_root, plain_root};

use crate::aggregate::Aggregate;
use crate::version::BlockVersion;
use altair_blocks::AnyBlock;
use altair_types::{ContributionAndProof, SyncAggregatorSelectionData};
use block_copies::block_copy;
use duty_types::ValidatorRegistration;
use edge_kit::{Items, PubKey, Root};
use phase0_blocks::VoluntaryExit;
use phase0_types::{AttestationData, BeaconBlockHeader, Fork, Shaped};
use sign_roots::{DomainKind, Domains, signing_root};
use slash_defs::Message;
use std::alloc::{AllocError, Global};

/// How many slots an epoch has (consensus-specs, `SLOTS_PER_EPOCH`).
const SLOTS_PER_EPOCH: u64 = 32;

/// The object that a message was made of (Web3Signer: `beacon_block` with `block_header` or `block`,
/// `attestation`).
#[derive(Drop, Debug)]
pub enum SignObject {
    /// The header of a block, and the version that the block is of.
    Header {
        version: BlockVersion,
        header: BeaconBlockHeader,
    },
    /// A whole block, of any version.
    Block(AnyBlock),
    /// The data of a vote.
    Attestation(AttestationData),
}

impl SignObject {
    /// The same object again. The error is want of memory, which only a whole block takes.
    pub fn copy(&self, alloc: Global) -> Result<SignObject, AllocError>
        ensures same { IfOk result (λ copy. copy ≡ self.now) }
        ensures memory { OnErr result (is_block self.now ≡ true) }
    {
        match self {
            SignObject::Header { version, header } => Ok(SignObject::Header {
                version: *version,
                header: *header,
            }),
            SignObject::Block(block) => Ok(SignObject::Block(block_copy(alloc, block)?)),
            SignObject::Attestation(details) => Ok(SignObject::Attestation(*details)),
        }
    }
}

/// What goes to the service next to the key and the message of the grant. The type of the request is the
/// message's: `BLOCK_V2` for a block, `ATTESTATION` for a vote.
#[derive(Drop, Debug)]
pub struct SignRequest {
    /// The chain's fork.
    pub fork: Fork,
    /// The root of the chain's genesis validators.
    pub genesis: Root,
    /// What the message was made of, where it is known.
    pub object: Option<SignObject>,
}

impl SignRequest {
    /// The same request again. The error is want of memory, which only a whole block takes.
    pub fn copy(&self, alloc: Global) -> Result<SignRequest, AllocError>
        ensures same { IfOk result (λ copy. copy ≡ self.now) }
        ensures memory { OnErr result (has_block self.now.object ≡ true) }
    {
        let object = match &self.object {
            Some(object) => Some(object.copy(alloc)?),
            None => None,
        };
        Ok(SignRequest {
            fork: self.fork,
            genesis: self.genesis,
            object,
        })
    }
}

/// What is signed that is no block and no vote, and so can be in no slashable pair.
#[derive(Drop, Debug)]
pub enum PlainObject {
    /// The epoch that a proposer reveals its randomness for (Web3Signer: `RANDAO_REVEAL`).
    RandaoReveal { epoch: u64 },
    /// The slot that an aggregator is chosen for (`AGGREGATION_SLOT`).
    AggregationSlot { slot: u64 },
    /// An exit (`VOLUNTARY_EXIT`).
    VoluntaryExit(VoluntaryExit),
    /// The block that a member of a sync committee votes for at a slot (`SYNC_COMMITTEE_MESSAGE`).
    SyncCommitteeMessage { slot: u64, beacon_block_root: Root },
    /// The slot and the subcommittee that an aggregator of a sync committee is chosen for
    /// (`SYNC_COMMITTEE_SELECTION_PROOF`).
    SyncCommitteeSelectionProof(SyncAggregatorSelectionData),
    /// The contribution of a sync subcommittee (`SYNC_COMMITTEE_CONTRIBUTION_AND_PROOF`).
    SyncCommitteeContributionAndProof(ContributionAndProof),
    /// An aggregate with its aggregator (`AGGREGATE_AND_PROOF`, `AGGREGATE_AND_PROOF_V2`).
    Aggregate(Aggregate),
    /// A registration with builders (`VALIDATOR_REGISTRATION`), which goes to the service without a fork and a chain.
    ValidatorRegistration(ValidatorRegistration),
}

impl PlainObject {
    /// The root that is to be signed for it under a fork, of the chain with this root of its genesis validators: its own,
    /// under the domain of its kind and epoch (consensus-specs, `get_epoch_signature`, `get_slot_signature`,
    /// `VoluntaryExit`, `get_aggregate_and_proof_signature`, `get_sync_committee_message`,
    /// `get_sync_committee_selection_proof`, `get_contribution_and_proof_signature`; builder-specs,
    /// `ValidatorRegistrationV1`). Takes no memory.
    pub fn signing_root(&self, fork: Fork, genesis: Root) -> Root
        ensures { result.0 ≡ plain_root (record { fork = fork; genesis = genesis; object = self.now }) }
    {
        let domains = Domains::new(fork, genesis);
        signing_root(self.root(), domains.domain(self.kind(), self.epoch()))
    }

    /// The same object again. The error is want of memory, which only an aggregate takes.
    pub fn copy(&self, alloc: Global) -> Result<PlainObject, AllocError>
        ensures same { IfOk result (λ copy. copy ≡ self.now) }
        ensures memory { OnErr result (is_aggregate self.now ≡ true) }
    {
        match self {
            PlainObject::RandaoReveal { epoch } => Ok(PlainObject::RandaoReveal { epoch: *epoch }),
            PlainObject::AggregationSlot { slot } => {
                Ok(PlainObject::AggregationSlot { slot: *slot })
            }
            PlainObject::VoluntaryExit(exit) => Ok(PlainObject::VoluntaryExit(*exit)),
            PlainObject::SyncCommitteeMessage {
                slot,
                beacon_block_root,
            } => Ok(PlainObject::SyncCommitteeMessage {
                slot: *slot,
                beacon_block_root: *beacon_block_root,
            }),
            PlainObject::SyncCommitteeSelectionProof(choice) => {
                Ok(PlainObject::SyncCommitteeSelectionProof(*choice))
            }
            PlainObject::SyncCommitteeContributionAndProof(given) => {
                Ok(PlainObject::SyncCommitteeContributionAndProof(*given))
            }
            PlainObject::ValidatorRegistration(registration) => {
                Ok(PlainObject::ValidatorRegistration(*registration))
            }
            PlainObject::Aggregate(aggregate) => Ok(PlainObject::Aggregate(aggregate.copy(alloc)?)),
        }
    }

    /// The kind of the domain that it is signed under, which is no proposer's and no attester's.
    fn kind(&self) -> DomainKind
        ensures { result ≡ plain_kind self.now }
    {
        match self {
            PlainObject::RandaoReveal { .. } => DomainKind::Randao,
            PlainObject::AggregationSlot { .. } => DomainKind::SelectionProof,
            PlainObject::VoluntaryExit(_) => DomainKind::VoluntaryExit,
            PlainObject::SyncCommitteeMessage { .. } => DomainKind::SyncCommittee,
            PlainObject::SyncCommitteeSelectionProof(_) => DomainKind::SyncCommitteeSelectionProof,
            PlainObject::SyncCommitteeContributionAndProof(_) => DomainKind::ContributionAndProof,
            PlainObject::Aggregate(_) => DomainKind::AggregateAndProof,
            PlainObject::ValidatorRegistration(_) => DomainKind::ApplicationBuilder,
        }
    }

    /// The epoch of its domain; that of genesis for a registration, which is signed under the version at genesis.
    fn epoch(&self) -> u64
        ensures { result ≡ plain_epoch self.now }
    {
        match self {
            PlainObject::RandaoReveal { epoch } => *epoch,
            PlainObject::AggregationSlot { slot } => *slot / SLOTS_PER_EPOCH,
            PlainObject::VoluntaryExit(exit) => exit.epoch,
            PlainObject::SyncCommitteeMessage { slot, .. } => *slot / SLOTS_PER_EPOCH,
            PlainObject::SyncCommitteeSelectionProof(choice) => choice.slot / SLOTS_PER_EPOCH,
            PlainObject::SyncCommitteeContributionAndProof(given) => {
                given.contribution.slot / SLOTS_PER_EPOCH
            }
            PlainObject::Aggregate(aggregate) => aggregate.slot() / SLOTS_PER_EPOCH,
            PlainObject::ValidatorRegistration(_) => 0,
        }
    }

    /// Its own root.
    #[tactic(auto, unfolding(phase0_types::specs::Roots::root_of))]
    fn root(&self) -> Root
        ensures { result.0 ≡ plain_object_root self.now }
    {
        match self {
            PlainObject::RandaoReveal { epoch } => epoch.root(),
            PlainObject::AggregationSlot { slot } => slot.root(),
            PlainObject::VoluntaryExit(exit) => exit.root(),
            PlainObject::SyncCommitteeMessage {
                beacon_block_root,
                ..
            } => *beacon_block_root,
            PlainObject::SyncCommitteeSelectionProof(choice) => choice.root(),
            PlainObject::SyncCommitteeContributionAndProof(given) => given.root(),
            PlainObject::Aggregate(aggregate) => aggregate.root(),
            PlainObject::ValidatorRegistration(registration) => registration.root(),
        }
    }
}

/// What goes to the service next to the key for what is no block and no vote.
#[derive(Drop, Debug)]
pub struct PlainRequest {
    /// The fork that it is signed under: the chain's; of an exit from Deneb on Capella's (EIP-7044); of a registration the
    /// version at genesis.
    pub fork: Fork,
    /// The root of the chain's genesis validators; zeros for a registration.
    pub genesis: Root,
    /// What is to be signed.
    pub object: PlainObject,
}

impl PlainRequest {
    /// The same request again. The error is want of memory, which only an aggregate takes.
    pub fn copy(&self, alloc: Global) -> Result<PlainRequest, AllocError>
        ensures same { IfOk result (λ copy. copy ≡ self.now) }
        ensures memory { OnErr result (is_aggregate self.now.object ≡ true) }
    {
        Ok(PlainRequest {
            fork: self.fork,
            genesis: self.genesis,
            object: self.object.copy(alloc)?,
        })
    }

    /// The root that is to be signed: the object's, under the domain of its kind and epoch.
    pub fn signing_root(&self) -> Root
        ensures { result.0 ≡ plain_root self.now }
    {
        self.object.signing_root(self.fork, self.genesis)
    }
}

/// A call for the signature of a message: the key, the message whose root is to be signed, and what goes
/// with it.
#[derive(Drop, Debug)]
pub struct SignCall {
    pub key: PubKey,
    pub message: Message,
    pub request: SignRequest,
}

impl SignCall {
    /// The same call again. The error is want of memory, which only a whole block takes.
    pub fn copy(&self, alloc: Global) -> Result<SignCall, AllocError>
        ensures same { IfOk result (λ copy. copy ≡ self.now) }
        ensures memory { OnErr result (has_block self.now.request.object ≡ true) }
    {
        Ok(SignCall {
            key: self.key,
            message: self.message,
            request: self.request.copy(alloc)?,
        })
    }
}

/// A call for another signature: the key, and what is to be signed.
#[derive(Drop, Debug)]
pub struct PlainCall {
    pub key: PubKey,
    pub request: PlainRequest,
}

impl PlainCall {
    /// The same call again. The error is want of memory, which only an aggregate takes.
    pub fn copy(&self, alloc: Global) -> Result<PlainCall, AllocError>
        ensures same { IfOk result (λ copy. copy ≡ self.now) }
        ensures memory { OnErr result (is_aggregate self.now.request.object ≡ true) }
    {
        Ok(PlainCall {
            key: self.key,
            request: self.request.copy(alloc)?,
        })
    }
}

/// A call to take a key in: the key, and the bytes of its keystore's text (EIP-2335) and of its password.
#[derive(Drop)]
pub struct ImportCall {
    pub key: PubKey,
    pub keystore: Items<u8>,
    pub password: Items<u8>,
}
