//! What kind of thing is to be signed.
ghost use Rattle.std.specs.Prelude.{◌≡◌};
ghost use Rattle.serde_json.specs.View.{view};
ghost use Rattle.signing_requests.specs.Requests.{type_at, type_named};

use crate::member::SigningMember;
use crate::refusal::SigningRefusal;
use json_members::text_in;
use serde_json::Value;

/// What kind of thing is to be signed (Web3Signer API, `type`).
#[derive(Clone, Copy, PartialEq, Eq, Debug)]
pub(crate) enum SigningType {
    /// A vote.
    Attestation,
    /// A block.
    BlockV2,
    /// A proposer's reveal of its randomness.
    RandaoReveal,
    /// The slot that an aggregator is chosen for.
    AggregationSlot,
    /// An exit.
    VoluntaryExit,
    /// The vote of a sync committee's member for a block.
    SyncCommitteeMessage,
    /// The slot and the subcommittee that an aggregator of a sync committee is chosen for.
    SyncCommitteeSelectionProof,
    /// The contribution of a sync subcommittee.
    SyncCommitteeContributionAndProof,
    /// An aggregate of the forks up to Deneb.
    AggregateAndProof,
    /// An aggregate of the fork that it names.
    AggregateAndProofV2,
    /// A registration with builders.
    ValidatorRegistration,
}

/// The type that a name means, if it is one.
fn type_named(name: &str) -> Option<SigningType>
    ensures { result ≡ type_named name.now }
{
    match name {
        "ATTESTATION" => Some(SigningType::Attestation),
        "BLOCK_V2" => Some(SigningType::BlockV2),
        "RANDAO_REVEAL" => Some(SigningType::RandaoReveal),
        "AGGREGATION_SLOT" => Some(SigningType::AggregationSlot),
        "VOLUNTARY_EXIT" => Some(SigningType::VoluntaryExit),
        "SYNC_COMMITTEE_MESSAGE" => Some(SigningType::SyncCommitteeMessage),
        "SYNC_COMMITTEE_SELECTION_PROOF" => Some(SigningType::SyncCommitteeSelectionProof),
        "SYNC_COMMITTEE_CONTRIBUTION_AND_PROOF" => {
            Some(SigningType::SyncCommitteeContributionAndProof)
        }
        "AGGREGATE_AND_PROOF" => Some(SigningType::AggregateAndProof),
        "AGGREGATE_AND_PROOF_V2" => Some(SigningType::AggregateAndProofV2),
        "VALIDATOR_REGISTRATION" => Some(SigningType::ValidatorRegistration),
        _ => None,
    }
}

/// The type that a body names.
pub(crate) fn type_of(value: &Value) -> Result<SigningType, SigningRefusal>
    ensures { result ≡ type_at (view value.now) }
{
    text_in(value, "type")
        .and_then(|name| type_named(name))
        .ok_or(SigningRefusal::BadMember(SigningMember::Type))
}
