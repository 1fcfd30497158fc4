//! What a beacon node is asked and given, as texts.
ghost use Rattle.std.specs.Prelude.{◌≡◌, ◌++◌, codes, decimal, IfOk, OnOk, string_bytes};
ghost use Rattle.edge_kit.specs.Texts.{hex_text};
ghost use Rattle.serde_json.specs.Data.{array, item, no_items, string};
ghost use Rattle.serde_json.specs.View.{items_view, view};
ghost use Rattle.beacon_node.specs.Requests as request;

use altair_blocks::signed_to_value;
use edge_kit::{PubKey, Root, Sig, push_hex};
use http::Method;
use node_calls::{Ask, Post};
use phase0_types::Shaped;
use serde_json::{Value, json};
use std::alloc::{AllocError, Global};

/// An HTTP request to a node: its method, its path with its query, and its body.
#[derive(Drop)]
pub(crate) struct NodeRequest {
    pub(crate) method: Method,
    pub(crate) path: String,
    pub(crate) body: Vec<u8>,
}

/// The request that asks a question.
pub(crate) fn ask_request(alloc: Global, ask: &Ask) -> Result<NodeRequest, AllocError>
    ensures method { IfOk result (λ r. r.method ≡ request.ask_method ask.now) }
    ensures path { IfOk result (λ r. string_bytes r.path ≡ request.ask_path ask.now) }
    ensures body { IfOk result (λ r. r.body.items ≡ request.ask_body ask.now) }
{
    Ok(NodeRequest {
        method: ask_method(ask),
        path: ask_path(alloc, ask)?,
        body: ask_body(alloc, ask)?,
    })
}

fn ask_method(ask: &Ask) -> Method
    ensures { result ≡ request.ask_method ask.now }
{
    match ask {
        Ask::Attester { .. } | Ask::Liveness { .. } => Method::POST,
        _ => Method::GET,
    }
}

fn ask_path(alloc: Global, ask: &Ask) -> Result<String, AllocError>
    ensures { IfOk result (λ path. string_bytes path ≡ request.ask_path ask.now) }
{
    match ask {
        Ask::Genesis => String::from_str(alloc, "/eth/v1/beacon/genesis"),
        Ask::Fork => String::from_str(alloc, "/eth/v1/beacon/states/head/fork"),
        Ask::Syncing => String::from_str(alloc, "/eth/v1/node/syncing"),
        Ask::Validators { keys } => validators_path(alloc, keys.as_slice()),
        Ask::Proposer { epoch } => with_number(alloc, "/eth/v1/validator/duties/proposer/", *epoch),
        Ask::Attester { epoch, .. } => {
            with_number(alloc, "/eth/v1/validator/duties/attester/", *epoch)
        }
        Ask::Data {
            slot,
            committee_index,
        } => data_path(alloc, *slot, *committee_index),
        Ask::Block {
            slot,
            randao_reveal,
        } => block_path(alloc, *slot, randao_reveal),
        Ask::Aggregate {
            attestation_data_root,
            slot,
        } => aggregate_path(alloc, attestation_data_root, *slot),
        Ask::Liveness { epoch, .. } => with_number(alloc, "/eth/v1/validator/liveness/", *epoch),
    }
}

fn with_number(alloc: Global, front: &str, number: u64) -> Result<String, AllocError>
    ensures { IfOk result (λ path. string_bytes path ≡ front.now ++ decimal number) }
{
    let path = format!(in alloc; "{front}{number}")?;
    Ok(path)
}

fn data_path(alloc: Global, slot: u64, committee_index: u64) -> Result<String, AllocError>
    ensures { IfOk result (λ path. string_bytes path ≡ request.data_path slot committee_index) }
{
    let mut path = format!(in alloc;
        "/eth/v1/validator/attestation_data?slot={slot}&committee_index="
    )?;
    push_number(alloc, &mut path, committee_index)?;
    Ok(path)
}

fn push_number(alloc: Global, path: &mut String, number: u64) -> Result<(), AllocError>
    ensures { OnOk result (string_bytes path.new ≡ string_bytes path.old ++ decimal number) }
{
    let text = with_number(alloc, "", number)?;
    path.push_str(text.as_str())
}

fn block_path(alloc: Global, slot: u64, randao_reveal: &Sig) -> Result<String, AllocError>
    ensures { IfOk result (λ path. string_bytes path ≡ request.block_path slot randao_reveal.now) }
{
    let mut path = format!(in alloc; "/eth/v2/validator/blocks/{slot}?randao_reveal=")?;
    push_hex(alloc, &mut path, &randao_reveal.0)?;
    path.push_str("&graffiti=")?;
    push_hex(alloc, &mut path, &[0; 32])?;
    Ok(path)
}

fn aggregate_path(
    alloc: Global,
    attestation_data_root: &Root,
    slot: u64,
) -> Result<String, AllocError>
    ensures { IfOk result (λ path. string_bytes path ≡ request.aggregate_path attestation_data_root.now slot) }
{
    let mut path = String::from_str(
        alloc,
        "/eth/v1/validator/aggregate_attestation?attestation_data_root=",
    )?;
    push_hex(alloc, &mut path, &attestation_data_root.0)?;
    path.push_str("&slot=")?;
    push_number(alloc, &mut path, slot)?;
    Ok(path)
}

fn validators_path(alloc: Global, keys: &[PubKey]) -> Result<String, AllocError>
    ensures { IfOk result (λ path. string_bytes path ≡ request.validators_path keys.now) }
{
    let mut path = String::from_str(alloc, "/eth/v1/beacon/states/head/validators")?;
    let Some((first, others)) = keys.split_first() else {
        return Ok(path);
    };
    push_key(alloc, &mut path, "?id=", first)?;
    'keys: for key in others {
        push_key(alloc, &mut path, "&id=", key)?;
    }
    Ok(path)
}

fn push_key(alloc: Global, path: &mut String, mark: &str, key: &PubKey) -> Result<(), AllocError>
    ensures { OnOk result (string_bytes path.new ≡ string_bytes path.old ++ (mark.now ++ hex_text key.now.0)) }
{
    path.push_str(mark)?;
    push_hex(alloc, path, &key.0)
}

fn ask_body(alloc: Global, ask: &Ask) -> Result<Vec<u8>, AllocError>
    ensures { IfOk result (λ body. body.items ≡ request.ask_body ask.now) }
{
    match ask {
        Ask::Attester { indices, .. } | Ask::Liveness { indices, .. } => {
            index_body(alloc, indices.as_slice())
        }
        _ => Ok(Vec::new(alloc)),
    }
}

fn index_body(alloc: Global, indices: &[u64]) -> Result<Vec<u8>, AllocError>
    ensures { IfOk result (λ body. body.items ≡ request.index_body indices.now) }
{
    let text = index_value(alloc, indices)?.to_string(alloc)?;
    Ok(text.into_bytes())
}

fn index_value(alloc: Global, indices: &[u64]) -> Result<Value, AllocError>
    ensures { IfOk result (λ v. view v ≡ array (request.number_items indices.now)) }
{
    Ok(Value::Array(number_values(alloc, indices)?))
}

fn number_values(alloc: Global, numbers: &[u64]) -> Result<Vec<Value>, AllocError>
    ensures { IfOk result (λ values. items_view values.items ≡ request.number_items numbers.now) }
{
    let mut values = Vec::with_capacity(alloc, numbers.len())?;
    'numbers: for number in numbers {
        values.push(number_value(alloc, *number)?)?;
    }
    Ok(values)
}

#[tactic(auto, unfolding(phase0_types::specs::Writing::write))]
fn number_value(alloc: Global, number: u64) -> Result<Value, AllocError>
    ensures { IfOk result (λ v. view v ≡ string (decimal number)) }
{
    number.to_value(alloc)
}

/// The request that hands a vote, a block or an aggregate over.
pub(crate) fn post_request(alloc: Global, post: &Post) -> Result<NodeRequest, AllocError>
    ensures method { IfOk result (λ r. r.method ≡ codes "POST") }
    ensures path { IfOk result (λ r. string_bytes r.path ≡ request.post_path post.now) }
    ensures body { IfOk result (λ r. r.body.items ≡ request.post_body post.now) }
{
    let text = post_value(alloc, post)?.to_string(alloc)?;
    Ok(NodeRequest {
        method: Method::POST,
        path: String::from_str(alloc, post_path(post))?,
        body: text.into_bytes(),
    })
}

fn post_path(post: &Post) -> &'static str
    ensures { result.now ≡ request.post_path post.now }
{
    match post {
        Post::Vote(_) => "/eth/v1/beacon/pool/attestations",
        Post::Block(_) => "/eth/v1/beacon/blocks",
        Post::Aggregate(_) => "/eth/v1/validator/aggregate_and_proofs",
    }
}

fn post_value(alloc: Global, post: &Post) -> Result<Value, AllocError>
    ensures { IfOk result (λ v. view v ≡ request.post_data post.now) }
{
    match post {
        Post::Vote(vote) => list_of_one(alloc, vote.to_value(alloc)?),
        Post::Block(signed) => signed_to_value(alloc, signed),
        Post::Aggregate(signed) => list_of_one(alloc, signed.to_value(alloc)?),
    }
}

fn list_of_one(alloc: Global, value: Value) -> Result<Value, AllocError>
    ensures { IfOk result (λ v. view v ≡ array (item (view value) no_items)) }
{
    json!(in alloc; [value])
}
