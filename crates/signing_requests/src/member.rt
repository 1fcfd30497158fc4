//! What a request is made of.
ghost use Rattle.std.specs.Prelude.{◌≡◌};
ghost use Rattle.signing_requests.specs.Members.{inside, member_name};

use phase0_types::ReadFault;

/// The first part of a request that is absent or cannot be read.
#[derive(Clone, Copy, PartialEq, Eq, Debug)]
pub enum SigningMember {
    /// The last part of the target's path: the public key, `0x` and 96 hex digits.
    Identifier,
    /// The body, which is a JSON object.
    Body,
    /// What kind of thing is to be signed: one of `ATTESTATION`, `BLOCK_V2`, `RANDAO_REVEAL`, `AGGREGATION_SLOT`,
    /// `AGGREGATE_AND_PROOF`, `AGGREGATE_AND_PROOF_V2`, `VOLUNTARY_EXIT`, `SYNC_COMMITTEE_MESSAGE`,
    /// `SYNC_COMMITTEE_SELECTION_PROOF`, `SYNC_COMMITTEE_CONTRIBUTION_AND_PROOF` and `VALIDATOR_REGISTRATION`.
    Type,
    /// The object with the fork and the chain.
    ForkInfo,
    /// The fork (consensus-specs, `Fork`).
    Fork,
    /// The root of the chain's genesis validators, 32 bytes.
    GenesisValidatorsRoot,
    /// The data of a vote (consensus-specs, `AttestationData`).
    Attestation,
    /// The object with the block or its header.
    BeaconBlock,
    /// The name of a fork: of a whole block `PHASE0` or `ALTAIR`, next to a header of a block any name, and next to an
    /// aggregate one of those from `PHASE0` to `FULU`.
    Version,
    /// The whole block (consensus-specs, `BeaconBlock` of its version).
    Block,
    /// The header of the block (consensus-specs, `BeaconBlockHeader`).
    BlockHeader,
    /// The object with the epoch of a proposer's reveal.
    RandaoReveal,
    /// The object with the slot that an aggregator is chosen for.
    AggregationSlot,
    /// The exit (consensus-specs, `VoluntaryExit`).
    VoluntaryExit,
    /// The object with the block that a sync committee's member votes for, and the slot.
    SyncCommitteeMessage,
    /// The slot and the subcommittee that an aggregator of a sync committee is chosen for (consensus-specs,
    /// `SyncAggregatorSelectionData`).
    SyncAggregatorSelectionData,
    /// The contribution of a sync subcommittee (consensus-specs, `ContributionAndProof`).
    ContributionAndProof,
    /// The aggregate (consensus-specs, `AggregateAndProof`), or the object with its version and the aggregate.
    AggregateAndProof,
    /// The registration with builders (builder-specs, `ValidatorRegistrationV1`).
    ValidatorRegistration,
    /// A member inside one of the containers.
    Inside(phase0_types::Member),
    /// The root that is to be signed, 32 bytes.
    SigningRoot,
    /// The same under its other name, `signing_root`.
    SigningRootInSnakeCase,
}

impl SigningMember {
    /// The name in the body; `identifier` for the target's part, and `body` for the whole. Takes no memory.
    pub fn name(self) -> &'static str
        ensures { result.now ≡ member_name self }
    {
        match self {
            SigningMember::Identifier => "identifier",
            SigningMember::Body => "body",
            SigningMember::Type => "type",
            SigningMember::ForkInfo => "fork_info",
            SigningMember::Fork => "fork",
            SigningMember::GenesisValidatorsRoot => "genesis_validators_root",
            SigningMember::Attestation => "attestation",
            SigningMember::BeaconBlock => "beacon_block",
            SigningMember::Version => "version",
            SigningMember::Block => "block",
            SigningMember::BlockHeader => "block_header",
            SigningMember::RandaoReveal => "randao_reveal",
            SigningMember::AggregationSlot => "aggregation_slot",
            SigningMember::VoluntaryExit => "voluntary_exit",
            SigningMember::SyncCommitteeMessage => "sync_committee_message",
            SigningMember::SyncAggregatorSelectionData => "sync_aggregator_selection_data",
            SigningMember::ContributionAndProof => "contribution_and_proof",
            SigningMember::AggregateAndProof => "aggregate_and_proof",
            SigningMember::ValidatorRegistration => "validator_registration",
            SigningMember::Inside(member) => member.name(),
            SigningMember::SigningRoot => "signingRoot",
            SigningMember::SigningRootInSnakeCase => "signing_root",
        }
    }
}

/// The member that a container's fault names; the whole where the value itself is no object.
pub(crate) fn member_of(whole: SigningMember, fault: ReadFault) -> SigningMember
    ensures { result ≡ inside whole fault }
{
    match fault {
        ReadFault::Json => whole,
        ReadFault::Missing(member)
        | ReadFault::BadNumber(member)
        | ReadFault::BadHex(member)
        | ReadFault::TooLong(member) => SigningMember::Inside(member),
    }
}
