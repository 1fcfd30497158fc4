//! What is to be signed, by its type.
ghost use Rattle.std.specs.Prelude.{◌≡◌};
ghost use Rattle.serde_json.specs.View.{view};
ghost use Rattle.phase0_types.specs.Reading.{read_at};
ghost use Rattle.phase0_types.specs.Containers.{attestation_data, beacon_block_header, voluntary_exit};
ghost use Rattle.altair_types.specs.Containers.{contribution_and_proof, sync_aggregator_selection_data};
ghost use Rattle.std.specs.Prelude.{None};
ghost use Rattle.signing_requests.specs.Objects.{said, contribution_is, exit_is, header_is, registration_is, sync_choice_is, vote_is};
ghost use Rattle.duty_types.specs.Containers.{validator_registration};
ghost use Rattle.signing_requests.specs.Requests.{block_at, block_in, block_of, contribution_at, exit_at, registration_at, reveal_at, reveal_in, said_by, shaped, slot_at, slot_in, sync_choice_at, sync_message_at, sync_message_in, version_in, vote_at, whole_block, whole_version};
ghost use Rattle.signing_requests.specs.Steps.{GivesAs, ReadsAs};

use crate::aggregates::{aggregate_in, versioned_aggregate_in};
use crate::kind::SigningType;
use crate::member::{SigningMember, member_of};
use crate::refusal::{SigningRefusal, SigningStop};
use crate::request::SigningObject;
use crate::texts::object_of;
use altair_blocks::{AnyBlock, ConsensusVersion};
use altair_types::{ContributionAndProof, SyncAggregatorSelectionData};
use duty_types::ValidatorRegistration;
use edge_kit::Root;
use json_members::{bytes_in, number_in, text_in};
use phase0_blocks::VoluntaryExit;
use phase0_types::{AttestationData, BeaconBlockHeader, Shaped};
use serde_json::Value;
use signer_link::{BlockVersion, PlainObject};
use std::alloc::Global;

/// What is to be signed, of this type.
pub(crate) fn object_in(
    alloc: Global,
    kind: SigningType,
    value: &Value,
) -> Result<SigningObject, SigningStop>
    ensures { GivesAs said result (said_by kind (view value.now)) }
{
    match kind {
        SigningType::Attestation => vote_in(alloc, value),
        SigningType::BlockV2 => block_in(alloc, value),
        SigningType::RandaoReveal => Ok(reveal_in(value)?),
        SigningType::AggregationSlot => Ok(slot_in(value)?),
        SigningType::VoluntaryExit => exit_in(alloc, value),
        SigningType::SyncCommitteeMessage => Ok(sync_message_of(value)?),
        SigningType::SyncCommitteeSelectionProof => sync_choice_in(alloc, value),
        SigningType::SyncCommitteeContributionAndProof => contribution_in(alloc, value),
        SigningType::AggregateAndProof => aggregate_in(alloc, value),
        SigningType::AggregateAndProofV2 => versioned_aggregate_in(alloc, value),
        SigningType::ValidatorRegistration => registration_in(alloc, value),
    }
}

/// A vote.
fn vote_in(alloc: Global, value: &Value) -> Result<SigningObject, SigningStop>
    ensures { GivesAs said result (vote_at (view value.now)) }
{
    match value.get("attestation") {
        Some(json) => read_vote(alloc, json),
        None => Err(SigningStop::Refused(SigningRefusal::BadMember(SigningMember::Attestation))),
    }
}

fn read_vote(alloc: Global, json: &Value) -> Result<SigningObject, SigningStop>
    ensures { GivesAs said result (shaped SigningMember.Attestation vote_is (read_at attestation_data None (view json.now))) }
{
    match AttestationData::read_value(alloc, json)? {
        Ok(details) => Ok(SigningObject::Vote(details)),
        Err(fault) => Err(SigningStop::Refused(SigningRefusal::BadMember(member_of(
            SigningMember::Attestation,
            fault,
        )))),
    }
}

/// A block: by its header, where that is there, else whole.
fn block_in(alloc: Global, value: &Value) -> Result<SigningObject, SigningStop>
    ensures { GivesAs said result (block_at (view value.now)) }
{
    let block = object_of(SigningMember::BeaconBlock, value.get("beacon_block"))?;
    match block.get("block_header") {
        Some(header) => read_header(alloc, version_of(block), header),
        None => whole_block(alloc, block),
    }
}

/// The version that a block names next to its header; the newest where there is none.
fn version_of(block: &Value) -> BlockVersion
    ensures { result ≡ version_in (view block.now) }
{
    BlockVersion::of_name(text_in(block, "version").unwrap_or(""))
}

fn read_header(
    alloc: Global,
    version: BlockVersion,
    json: &Value,
) -> Result<SigningObject, SigningStop>
    ensures { GivesAs said result (shaped SigningMember.BlockHeader (header_is version) (read_at beacon_block_header None (view json.now))) }
{
    match BeaconBlockHeader::read_value(alloc, json)? {
        Ok(header) => Ok(SigningObject::Header { version, header }),
        Err(fault) => Err(SigningStop::Refused(SigningRefusal::BadMember(member_of(
            SigningMember::BlockHeader,
            fault,
        )))),
    }
}

/// A whole block of the version that it names.
fn whole_block(alloc: Global, block: &Value) -> Result<SigningObject, SigningStop>
    ensures { GivesAs said result (whole_block (view block.now)) }
{
    let Some(version) = text_in(block, "version").and_then(|name| whole_version(name)) else {
        return Err(SigningStop::Refused(SigningRefusal::BadMember(SigningMember::Version)));
    };
    match block.get("block") {
        Some(json) => read_block(alloc, version, json),
        None => Err(SigningStop::Refused(SigningRefusal::BadMember(SigningMember::Block))),
    }
}

/// The version that a name next to a whole block means, if whole blocks of it are taken.
fn whole_version(name: &str) -> Option<ConsensusVersion>
    ensures { result ≡ whole_version name.now }
{
    match name {
        "PHASE0" => Some(ConsensusVersion::Phase0),
        "ALTAIR" => Some(ConsensusVersion::Altair),
        _ => None,
    }
}

fn read_block(
    alloc: Global,
    version: ConsensusVersion,
    json: &Value,
) -> Result<SigningObject, SigningStop>
    ensures { GivesAs said result (block_of version (view json.now)) }
{
    match AnyBlock::read_value(alloc, version, json)? {
        Ok(block) => Ok(SigningObject::Block(block)),
        Err(fault) => Err(SigningStop::Refused(SigningRefusal::BadMember(member_of(
            SigningMember::Block,
            fault,
        )))),
    }
}

/// The epoch of a proposer's reveal.
fn reveal_in(value: &Value) -> Result<SigningObject, SigningRefusal>
    ensures { ReadsAs said result (reveal_at (view value.now)) }
{
    let reveal = object_of(SigningMember::RandaoReveal, value.get("randao_reveal"))?;
    match number_in(reveal, "epoch") {
        Some(epoch) => Ok(SigningObject::Plain(PlainObject::RandaoReveal { epoch })),
        None => Err(SigningRefusal::BadMember(SigningMember::Inside(phase0_types::Member::Epoch))),
    }
}

/// The slot that an aggregator is chosen for.
fn slot_in(value: &Value) -> Result<SigningObject, SigningRefusal>
    ensures { ReadsAs said result (slot_at (view value.now)) }
{
    let choice = object_of(
        SigningMember::AggregationSlot,
        value.get("aggregation_slot"),
    )?;
    match number_in(choice, "slot") {
        Some(slot) => Ok(SigningObject::Plain(PlainObject::AggregationSlot { slot })),
        None => Err(SigningRefusal::BadMember(SigningMember::Inside(phase0_types::Member::Slot))),
    }
}

/// An exit.
fn exit_in(alloc: Global, value: &Value) -> Result<SigningObject, SigningStop>
    ensures { GivesAs said result (exit_at (view value.now)) }
{
    match value.get("voluntary_exit") {
        Some(json) => read_exit(alloc, json),
        None => Err(SigningStop::Refused(SigningRefusal::BadMember(SigningMember::VoluntaryExit))),
    }
}

fn read_exit(alloc: Global, json: &Value) -> Result<SigningObject, SigningStop>
    ensures { GivesAs said result (shaped SigningMember.VoluntaryExit exit_is (read_at voluntary_exit None (view json.now))) }
{
    match VoluntaryExit::read_value(alloc, json)? {
        Ok(exit) => Ok(SigningObject::Plain(PlainObject::VoluntaryExit(exit))),
        Err(fault) => Err(SigningStop::Refused(SigningRefusal::BadMember(member_of(
            SigningMember::VoluntaryExit,
            fault,
        )))),
    }
}

/// The vote of a sync committee's member for a block.
fn sync_message_of(value: &Value) -> Result<SigningObject, SigningRefusal>
    ensures { ReadsAs said result (sync_message_at (view value.now)) }
{
    let message = object_of(
        SigningMember::SyncCommitteeMessage,
        value.get("sync_committee_message"),
    )?;
    read_sync_message(message)
}

fn read_sync_message(message: &Value) -> Result<SigningObject, SigningRefusal>
    ensures { ReadsAs said result (sync_message_in (view message.now)) }
{
    let Some(block) = bytes_in::<32>(message, "beacon_block_root") else {
        return Err(inside(phase0_types::Member::BeaconBlockRoot));
    };
    match number_in(message, "slot") {
        Some(slot) => Ok(SigningObject::Plain(PlainObject::SyncCommitteeMessage {
            slot,
            beacon_block_root: Root(block),
        })),
        None => Err(inside(phase0_types::Member::Slot)),
    }
}

/// The refusal of a member inside a container.
fn inside(member: phase0_types::Member) -> SigningRefusal
    ensures { result ≡ SigningRefusal.BadMember (SigningMember.Inside member) }
{
    SigningRefusal::BadMember(SigningMember::Inside(member))
}

/// The slot and the subcommittee that an aggregator of a sync committee is chosen for.
fn sync_choice_in(alloc: Global, value: &Value) -> Result<SigningObject, SigningStop>
    ensures { GivesAs said result (sync_choice_at (view value.now)) }
{
    match value.get("sync_aggregator_selection_data") {
        Some(json) => read_sync_choice(alloc, json),
        None => Err(SigningStop::Refused(SigningRefusal::BadMember(
            SigningMember::SyncAggregatorSelectionData,
        ))),
    }
}

fn read_sync_choice(alloc: Global, json: &Value) -> Result<SigningObject, SigningStop>
    ensures { GivesAs said result (shaped SigningMember.SyncAggregatorSelectionData sync_choice_is (read_at sync_aggregator_selection_data None (view json.now))) }
{
    match SyncAggregatorSelectionData::read_value(alloc, json)? {
        Ok(choice) => {
            let object = PlainObject::SyncCommitteeSelectionProof(choice);
            Ok(SigningObject::Plain(object))
        }
        Err(fault) => Err(SigningStop::Refused(SigningRefusal::BadMember(member_of(
            SigningMember::SyncAggregatorSelectionData,
            fault,
        )))),
    }
}

/// The contribution of a sync subcommittee.
fn contribution_in(alloc: Global, value: &Value) -> Result<SigningObject, SigningStop>
    ensures { GivesAs said result (contribution_at (view value.now)) }
{
    match value.get("contribution_and_proof") {
        Some(json) => read_contribution(alloc, json),
        None => Err(SigningStop::Refused(SigningRefusal::BadMember(
            SigningMember::ContributionAndProof,
        ))),
    }
}

fn read_contribution(alloc: Global, json: &Value) -> Result<SigningObject, SigningStop>
    ensures { GivesAs said result (shaped SigningMember.ContributionAndProof contribution_is (read_at contribution_and_proof None (view json.now))) }
{
    match ContributionAndProof::read_value(alloc, json)? {
        Ok(given) => {
            let object = PlainObject::SyncCommitteeContributionAndProof(given);
            Ok(SigningObject::Plain(object))
        }
        Err(fault) => Err(SigningStop::Refused(SigningRefusal::BadMember(member_of(
            SigningMember::ContributionAndProof,
            fault,
        )))),
    }
}

/// A registration with builders.
fn registration_in(alloc: Global, value: &Value) -> Result<SigningObject, SigningStop>
    ensures { GivesAs said result (registration_at (view value.now)) }
{
    match value.get("validator_registration") {
        Some(json) => read_registration(alloc, json),
        None => Err(SigningStop::Refused(SigningRefusal::BadMember(
            SigningMember::ValidatorRegistration,
        ))),
    }
}

fn read_registration(alloc: Global, json: &Value) -> Result<SigningObject, SigningStop>
    ensures { GivesAs said result (shaped SigningMember.ValidatorRegistration registration_is (read_at validator_registration None (view json.now))) }
{
    match ValidatorRegistration::read_value(alloc, json)? {
        Ok(given) => Ok(SigningObject::Plain(PlainObject::ValidatorRegistration(given))),
        Err(fault) => Err(SigningStop::Refused(SigningRefusal::BadMember(member_of(
            SigningMember::ValidatorRegistration,
            fault,
        )))),
    }
}
