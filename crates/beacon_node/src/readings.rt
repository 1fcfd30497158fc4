//! What a response of a beacon node means.
ghost use Rattle.std.specs.Prelude.{◌≡◌, ◌⊎◌, ℕ, List, true, Err, IfOk, IfSome, codes, option_and_then, option_map};
ghost use Rattle.serde_json.specs.View.{view};
ghost use Rattle.altair_blocks.specs.Versions.{version_named};
ghost use Rattle.json_members.specs.Reading as members;
ghost use Rattle.node_calls.specs.Fitting.{fits};
ghost use Rattle.beacon_node.specs.Readings as reading;
ghost use Rattle.beacon_node.specs.Said.{reply_said, said};

use crate::rows::{duty_rows_in, rows_in};
use altair_blocks::{AnyBlock, ConsensusVersion};
use edge_kit::{Items, Root, Sig};
use http_wire::{Response, WireFault};
use json_members::{bytes_in, flag_in, json_of, number_in, text_in};
use node_calls::{Answer, Ask, NodeFault, are_attesters, are_proposers};
use phase0_types::{AttestationData, Shaped};
use serde_json::Value;
use std::alloc::{AllocError, Global};

/// What a response, or its lack, says to a question.
pub(crate) fn ask_reply(
    alloc: Global,
    ask: &Ask,
    response: Result<Response, WireFault>,
) -> Result<Answer, NodeFault>
    ensures means { (reply_said result ≡ reading.ask_reading ask.now response) ⊎ (result ≡ Err NodeFault.OutOfMemory) }
    ensures fits { IfOk result (λ answer. fits ask.now answer ≡ true) }
{
    let response = match response {
        Ok(response) => response,
        Err(fault) => return Err(wire_fault(alloc, fault)),
    };
    if !is_success(response.status) {
        return Err(NodeFault::Status(response.status));
    }
    match answer_of(alloc, ask, response.body.as_slice()) {
        Ok(Some(answer)) => Ok(answer),
        Ok(None) => Err(NodeFault::Unreadable(Items::from_vec(response.body))),
        Err(AllocError) => Err(NodeFault::OutOfMemory),
    }
}

/// What a response, or its lack, says to a post.
pub(crate) fn post_reply(
    alloc: Global,
    response: Result<Response, WireFault>,
) -> Result<(), NodeFault>
    ensures { result ≡ reading.post_reading response }
{
    match response {
        Ok(response) => {
            if is_success(response.status) {
                Ok(())
            } else {
                Err(NodeFault::Status(response.status))
            }
        }
        Err(fault) => Err(wire_fault(alloc, fault)),
    }
}

/// What it says that there is no response: a peer that does not speak HTTP cannot be read.
fn wire_fault(alloc: Global, fault: WireFault) -> NodeFault
    ensures { result ≡ reading.fault_reading fault }
{
    match fault {
        WireFault::Link => NodeFault::Fault,
        WireFault::OutOfMemory => NodeFault::OutOfMemory,
        WireFault::BadHead | WireFault::BadBody | WireFault::TooLong(_) | WireFault::Encoded(_) =>
            NodeFault::Unreadable(Items::new(alloc)),
    }
}

fn is_success(status: u16) -> bool
    ensures { result ≡ reading.is_success status }
{
    200 <= status && status <= 299
}

/// The answer that a body gives to a question, if it gives one. The error is want of memory.
fn answer_of(alloc: Global, ask: &Ask, body: &[u8]) -> Result<Option<Answer>, AllocError>
    ensures means { IfOk result (λ found. option_map said found ≡ reading.answer_of ask.now body.now) }
    ensures fits { IfOk result (λ found. IfSome found (λ answer. fits ask.now answer ≡ true)) }
{
    let Some(value) = json_of(alloc, body)? else {
        return Ok(None);
    };
    answer_in(alloc, ask, &value)
}

fn answer_in(alloc: Global, ask: &Ask, value: &Value) -> Result<Option<Answer>, AllocError>
    ensures means { IfOk result (λ found. option_map said found ≡ reading.answer_in ask.now (view value.now)) }
    ensures fits { IfOk result (λ found. IfSome found (λ answer. fits ask.now answer ≡ true)) }
{
    match ask {
        Ask::Genesis => Ok(genesis_in(value)),
        Ask::Fork => Ok(data_in(alloc, value)?.map(Answer::Fork)),
        Ask::Syncing => Ok(syncing_in(value)),
        Ask::Validators { .. } => Ok(rows_in(alloc, value)?.map(Answer::Validators)),
        Ask::Proposer { epoch } => proposers_in(alloc, *epoch, value),
        Ask::Attester { epoch, .. } => attesters_in(alloc, *epoch, value),
        Ask::Data { .. } => details_in(alloc, value),
        Ask::Block { .. } => block_in(alloc, value),
        Ask::Aggregate { .. } => Ok(data_in(alloc, value)?.map(Answer::Aggregate)),
        Ask::Liveness { .. } => Ok(rows_in(alloc, value)?.map(Answer::Liveness)),
    }
}

/// The value that the member `data` writes, if it writes one. The error is want of memory.
fn data_in<T: Shaped>(alloc: Global, value: &Value) -> Result<Option<T>, AllocError>
    ensures { IfOk result (λ found. option_map T.value found ≡ reading.data_value T.shape (view value.now)) }
{
    let Some(inner) = value.get("data") else {
        return Ok(None);
    };
    Ok(T::read_value(alloc, inner)?.ok())
}

fn genesis_in(value: &Value) -> Option<Answer>
    ensures means { option_map said result ≡ reading.genesis_in (view value.now) }
    ensures fits { IfSome result (λ answer. fits Ask.Genesis answer ≡ true) }
{
    let inner = value.get("data")?;
    Some(Answer::Genesis {
        genesis_time: number_in(inner, "genesis_time")?,
        genesis_validators_root: root_in(inner, "genesis_validators_root")?,
    })
}

fn syncing_in(value: &Value) -> Option<Answer>
    ensures means { option_map said result ≡ reading.syncing_in (view value.now) }
    ensures fits { IfSome result (λ answer. fits Ask.Syncing answer ≡ true) }
{
    let is_syncing = flag_in(value.get("data")?, "is_syncing")?;
    Some(Answer::Syncing { is_syncing })
}

fn root_in(value: &Value, name: &str) -> Option<Root>
    ensures { result ≡ reading.root_in name.now (view value.now) }
{
    bytes_in::<32>(value, name).map(Root)
}

fn block_in(alloc: Global, value: &Value) -> Result<Option<Answer>, AllocError>
    ensures means { IfOk result (λ found. option_map said found ≡ reading.block_in (view value.now)) }
    ensures fits { IfOk result (λ found. IfSome found (λ answer. (slot : ℕ) (reveal : Sig) → fits (Ask.Block slot reveal) answer ≡ true)) }
{
    let Some(version) = version_in(value) else {
        return Ok(None);
    };
    let Some(inner) = value.get("data") else {
        return Ok(None);
    };
    let block = AnyBlock::read_value(alloc, version, inner)?;
    Ok(block.ok().map(Answer::Block))
}

/// The version that an answer names, if it is one whose blocks are read.
fn version_in(value: &Value) -> Option<ConsensusVersion>
    ensures { result ≡ option_and_then version_named (members.text_in (codes "version") (view value.now)) }
{
    ConsensusVersion::named(text_in(value, "version")?)
}

fn details_in(alloc: Global, value: &Value) -> Result<Option<Answer>, AllocError>
    ensures means { IfOk result (λ found. option_map said found ≡ reading.details_in (view value.now)) }
    ensures fits { IfOk result (λ found. IfSome found (λ answer. (slot committee : ℕ) → fits (Ask.Data slot committee) answer ≡ true)) }
{
    let Some(details) = data_in::<AttestationData>(alloc, value)? else {
        return Ok(None);
    };
    if details.source.epoch > details.target.epoch {
        return Ok(None);
    }
    Ok(Some(Answer::Data(details)))
}

fn proposers_in(alloc: Global, epoch: u64, value: &Value) -> Result<Option<Answer>, AllocError>
    ensures means { IfOk result (λ found. option_map said found ≡ reading.proposers_in epoch (view value.now)) }
    ensures fits { IfOk result (λ found. IfSome found (λ answer. fits (Ask.Proposer epoch) answer ≡ true)) }
{
    let Some(dependent_root) = root_in(value, "dependent_root") else {
        return Ok(None);
    };
    let Some(rows) = duty_rows_in(alloc, value)? else {
        return Ok(None);
    };
    if !are_proposers(alloc, epoch, rows.as_slice())? {
        return Ok(None);
    }
    Ok(Some(Answer::Proposer {
        dependent_root,
        rows,
    }))
}

fn attesters_in(alloc: Global, epoch: u64, value: &Value) -> Result<Option<Answer>, AllocError>
    ensures means { IfOk result (λ found. option_map said found ≡ reading.attesters_in epoch (view value.now)) }
    ensures fits { IfOk result (λ found. IfSome found (λ answer. (indices : List ℕ) → fits (Ask.Attester epoch indices) answer ≡ true)) }
{
    let Some(dependent_root) = root_in(value, "dependent_root") else {
        return Ok(None);
    };
    let Some(rows) = duty_rows_in(alloc, value)? else {
        return Ok(None);
    };
    if !are_attesters(alloc, epoch, rows.as_slice())? {
        return Ok(None);
    }
    Ok(Some(Answer::Attester {
        dependent_root,
        rows,
    }))
}
