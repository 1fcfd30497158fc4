//! What Web3Signer is asked, as texts.
ghost use Rattle.std.specs.Prelude.{◌≡◌, codes, decimal, IfOk, string_bytes};
ghost use Rattle.json_members.specs.Building.{built};
ghost use Rattle.phase0_types.specs.Containers.{beacon_block_header};
ghost use Rattle.phase0_types.specs.Headers.{beacon_block_header_value};
ghost use Rattle.phase0_types.specs.Writing.{write};
ghost use Rattle.serde_json.specs.Data.{no_members, object, put, string};
ghost use Rattle.serde_json.specs.View.{view};
ghost use Rattle.signer_link.specs.Versions.{version_name};
ghost use Rattle.web3_signer.specs.Web3 as web3;

use altair_blocks::AnyBlock;
use edge_kit::{PubKey, Root, hex_text, push_hex};
use json_members::Object;
use phase0_types::{BeaconBlockHeader, Fork, Shaped};
use serde_json::{Value, json};
use signer_link::{Aggregate, BlockVersion, PlainObject, PlainRequest, SignObject, SignRequest};
use slash_defs::Message;
use std::alloc::{AllocError, Global};

/// The path of the call for a signature by a key.
pub(crate) fn sign_path(alloc: Global, key: &PubKey) -> Result<String, AllocError>
    ensures { IfOk result (λ path. string_bytes path ≡ web3.sign_path key.now) }
{
    let mut path = String::from_str(alloc, "/api/v1/eth2/sign/")?;
    push_hex(alloc, &mut path, &key.0)?;
    Ok(path)
}

/// The body of a request for the signature of a message.
pub(crate) fn sign_body(
    alloc: Global,
    request: &SignRequest,
    message: &Message,
) -> Result<Vec<u8>, AllocError>
    ensures { IfOk result (λ body. body.items ≡ web3.sign_body request.now message.now) }
{
    let text = sign_value(alloc, request, message)?.to_string(alloc)?;
    Ok(text.into_bytes())
}

fn sign_value(alloc: Global, request: &SignRequest, message: &Message) -> Result<Value, AllocError>
    ensures { IfOk result (λ v. view v ≡ web3.sign_data request.now message.now) }
{
    let info = fork_info(alloc, &request.fork, &request.genesis)?;
    let root = hex_text(alloc, &message.signing_root().0)?;
    let kind = type_of(message);
    match &request.object {
        None => Ok(members_of(alloc, info, root.as_str(), kind)?.value()),
        Some(given) => object_value(alloc, given, info, root.as_str(), kind),
    }
}

/// The request for a message whose object is known.
fn object_value(
    alloc: Global,
    given: &SignObject,
    info: Value,
    root: &str,
    kind: &str,
) -> Result<Value, AllocError>
    ensures { IfOk result (λ v. view v ≡ object (web3.with_object (Some given.now) (web3.with_root (view info) (string root.now) kind.now no_members))) }
{
    match given {
        SignObject::Header { version, header } => {
            let block = header_value(alloc, *version, header)?;
            with_member(alloc, "beacon_block", block, info, root, kind)
        }
        SignObject::Block(block) => {
            let block = block_value(alloc, block)?;
            with_member(alloc, "beacon_block", block, info, root, kind)
        }
        SignObject::Attestation(details) => {
            let details = details.to_value(alloc)?;
            with_member(alloc, "attestation", details, info, root, kind)
        }
    }
}

fn header_value(
    alloc: Global,
    version: BlockVersion,
    header: &BeaconBlockHeader,
) -> Result<Value, AllocError>
    ensures { IfOk result (λ v. view v ≡ web3.versioned (codes "block_header") (version_name version) (write beacon_block_header (beacon_block_header_value header.now))) }
{
    let header = header.to_value(alloc)?;
    versioned(alloc, "block_header", version, header)
}

/// An object under its name, next to the name of its version.
fn versioned(
    alloc: Global,
    name: &str,
    version: BlockVersion,
    value: Value,
) -> Result<Value, AllocError>
    ensures { IfOk result (λ v. view v ≡ object (put (codes "version") (string (version_name version)) (put name.now (view value) no_members))) }
{
    let object = Object::new(alloc)
        .with_value(alloc, name, value)?
        .with_text(alloc, "version", version.name())?;
    Ok(object.value())
}

fn block_value(alloc: Global, block: &AnyBlock) -> Result<Value, AllocError>
    ensures { IfOk result (λ v. view v ≡ web3.block_data block.now) }
{
    let value = block.to_value(alloc)?;
    versioned(
        alloc,
        "block",
        BlockVersion::of_block(block.version()),
        value,
    )
}

/// The members of each request to sign, and one more.
fn with_member(
    alloc: Global,
    name: &str,
    value: Value,
    info: Value,
    root: &str,
    kind: &str,
) -> Result<Value, AllocError>
    ensures { IfOk result (λ v. view v ≡ object (put name.now (view value) (web3.with_root (view info) (string root.now) kind.now no_members))) }
{
    let object = members_of(alloc, info, root, kind)?.with_value(alloc, name, value)?;
    Ok(object.value())
}

/// The members of each request to sign that is of a chain.
fn members_of(alloc: Global, info: Value, root: &str, kind: &str) -> Result<Object, AllocError>
    ensures { IfOk result (λ object. built object ≡ web3.with_root (view info) (string root.now) kind.now no_members) }
{
    root_members(alloc, root, kind)?.with_value(alloc, "fork_info", info)
}

/// The members of each request to sign.
fn root_members(alloc: Global, root: &str, kind: &str) -> Result<Object, AllocError>
    ensures { IfOk result (λ object. built object ≡ web3.without_chain (string root.now) kind.now no_members) }
{
    Object::new(alloc)
        .with_text(alloc, "signingRoot", root)?
        .with_text(alloc, "type", kind)
}

/// The chain's fork, with the root of its genesis validators.
fn fork_info(alloc: Global, fork: &Fork, genesis: &Root) -> Result<Value, AllocError>
    ensures { IfOk result (λ v. view v ≡ web3.fork_info fork.now genesis.now) }
{
    let fork = fork.to_value(alloc)?;
    let object = Object::new(alloc)
        .with_value(alloc, "fork", fork)?
        .with_hex(alloc, "genesis_validators_root", &genesis.0)?;
    Ok(object.value())
}

/// The type of a request for a message.
fn type_of(message: &Message) -> &'static str
    ensures { result.now ≡ web3.type_of message.now }
{
    match message {
        Message::Block { .. } => "BLOCK_V2",
        Message::Vote { .. } => "ATTESTATION",
    }
}

/// The body of a request for another signature.
pub(crate) fn plain_body(alloc: Global, request: &PlainRequest) -> Result<Vec<u8>, AllocError>
    ensures { IfOk result (λ body. body.items ≡ web3.plain_body request.now) }
{
    let text = plain_value(alloc, request)?.to_string(alloc)?;
    Ok(text.into_bytes())
}

/// The request for another signature: the members of each request, and the object under its name.
fn plain_value(alloc: Global, request: &PlainRequest) -> Result<Value, AllocError>
    ensures { IfOk result (λ v. view v ≡ web3.plain_data request.now) }
{
    let root = hex_text(alloc, &request.signing_root().0)?;
    let value = object_data(alloc, &request.object)?;
    let object = plain_others(alloc, request, root.as_str())?.with_value(
        alloc,
        plain_name(&request.object),
        value,
    )?;
    Ok(object.value())
}

/// The members next to the object. A registration is of no chain.
fn plain_others(alloc: Global, request: &PlainRequest, root: &str) -> Result<Object, AllocError>
    ensures { IfOk result (λ object. built object ≡ web3.plain_others request.now.object (web3.fork_info request.now.fork request.now.genesis) (string root.now)) }
{
    match &request.object {
        PlainObject::ValidatorRegistration(_) => {
            root_members(alloc, root, "VALIDATOR_REGISTRATION")
        }
        given => {
            let info = fork_info(alloc, &request.fork, &request.genesis)?;
            members_of(alloc, info, root, plain_type(given))
        }
    }
}

/// The name of the object in the request.
fn plain_name(given: &PlainObject) -> &'static str
    ensures { result.now ≡ web3.plain_name given.now }
{
    match given {
        PlainObject::RandaoReveal { .. } => "randao_reveal",
        PlainObject::AggregationSlot { .. } => "aggregation_slot",
        PlainObject::VoluntaryExit(_) => "voluntary_exit",
        PlainObject::SyncCommitteeMessage { .. } => "sync_committee_message",
        PlainObject::SyncCommitteeSelectionProof(_) => "sync_aggregator_selection_data",
        PlainObject::SyncCommitteeContributionAndProof(_) => "contribution_and_proof",
        PlainObject::Aggregate(_) => "aggregate_and_proof",
        PlainObject::ValidatorRegistration(_) => "validator_registration",
    }
}

/// The type of the request.
fn plain_type(given: &PlainObject) -> &'static str
    ensures { result.now ≡ web3.plain_type given.now }
{
    match given {
        PlainObject::RandaoReveal { .. } => "RANDAO_REVEAL",
        PlainObject::AggregationSlot { .. } => "AGGREGATION_SLOT",
        PlainObject::VoluntaryExit(_) => "VOLUNTARY_EXIT",
        PlainObject::SyncCommitteeMessage { .. } => "SYNC_COMMITTEE_MESSAGE",
        PlainObject::SyncCommitteeSelectionProof(_) => "SYNC_COMMITTEE_SELECTION_PROOF",
        PlainObject::SyncCommitteeContributionAndProof(_) => {
            "SYNC_COMMITTEE_CONTRIBUTION_AND_PROOF"
        }
        PlainObject::Aggregate(aggregate) => aggregate_type(aggregate),
        PlainObject::ValidatorRegistration(_) => "VALIDATOR_REGISTRATION",
    }
}

/// The JSON of the object.
fn object_data(alloc: Global, given: &PlainObject) -> Result<Value, AllocError>
    ensures { IfOk result (λ v. view v ≡ web3.object_data given.now) }
{
    match given {
        PlainObject::RandaoReveal { epoch } => number_value(alloc, "epoch", *epoch),
        PlainObject::AggregationSlot { slot } => number_value(alloc, "slot", *slot),
        PlainObject::VoluntaryExit(exit) => exit.to_value(alloc),
        PlainObject::SyncCommitteeMessage {
            slot,
            beacon_block_root,
        } => sync_message_value(alloc, *slot, beacon_block_root),
        PlainObject::SyncCommitteeSelectionProof(choice) => choice.to_value(alloc),
        PlainObject::SyncCommitteeContributionAndProof(given) => given.to_value(alloc),
        PlainObject::Aggregate(aggregate) => aggregate_data(alloc, aggregate),
        PlainObject::ValidatorRegistration(registration) => registration.to_value(alloc),
    }
}

/// The type of a request for an aggregate.
fn aggregate_type(given: &Aggregate) -> &'static str
    ensures { result.now ≡ web3.aggregate_type given.now }
{
    match given {
        Aggregate::Unnamed(_) => "AGGREGATE_AND_PROOF",
        Aggregate::UpToDeneb { .. } | Aggregate::FromElectra { .. } => "AGGREGATE_AND_PROOF_V2",
    }
}

/// An aggregate, next to the name of its version where it has one.
fn aggregate_data(alloc: Global, given: &Aggregate) -> Result<Value, AllocError>
    ensures { IfOk result (λ v. view v ≡ web3.aggregate_data given.now) }
{
    match given {
        Aggregate::Unnamed(aggregate) => aggregate.to_value(alloc),
        Aggregate::UpToDeneb { version, aggregate } => {
            let value = aggregate.to_value(alloc)?;
            versioned(alloc, "data", *version, value)
        }
        Aggregate::FromElectra { version, aggregate } => {
            let value = aggregate.to_value(alloc)?;
            versioned(alloc, "data", *version, value)
        }
    }
}

/// What a sync committee's member says: the root of a block, and the slot.
fn sync_message_value(alloc: Global, slot: u64, root: &Root) -> Result<Value, AllocError>
    ensures { IfOk result (λ v. view v ≡ web3.sync_message_data slot root.now) }
{
    let object = Object::new(alloc)
        .with_hex(alloc, "beacon_block_root", &root.0)?
        .with_number(alloc, "slot", slot)?;
    Ok(object.value())
}

/// An object of one number.
fn number_value(alloc: Global, name: &str, number: u64) -> Result<Value, AllocError>
    ensures { IfOk result (λ v. view v ≡ web3.one_member name.now (string (decimal number))) }
{
    let object = Object::new(alloc).with_number(alloc, name, number)?;
    Ok(object.value())
}

/// The body of a request to take a key in.
pub(crate) fn import_body(
    alloc: Global,
    keystore: &str,
    password: &str,
) -> Result<Vec<u8>, AllocError>
    ensures { IfOk result (λ body. body.items ≡ web3.import_body keystore.now password.now) }
{
    let text = import_value(alloc, keystore, password)?.to_string(alloc)?;
    Ok(text.into_bytes())
}

fn import_value(alloc: Global, keystore: &str, password: &str) -> Result<Value, AllocError>
    ensures { IfOk result (λ v. view v ≡ web3.import_data keystore.now password.now) }
{
    json!(in alloc; {"keystores": [keystore], "passwords": [password]})
}

/// The body of a request to give a key up.
pub(crate) fn delete_body(alloc: Global, key: &PubKey) -> Result<Vec<u8>, AllocError>
    ensures { IfOk result (λ body. body.items ≡ web3.delete_body key.now) }
{
    let text = delete_value(alloc, key)?.to_string(alloc)?;
    Ok(text.into_bytes())
}

fn delete_value(alloc: Global, key: &PubKey) -> Result<Value, AllocError>
    ensures { IfOk result (λ v. view v ≡ web3.delete_data key.now) }
{
    let key = hex_text(alloc, &key.0)?;
    json!(in alloc; {"pubkeys": [key.as_str()]})
}
