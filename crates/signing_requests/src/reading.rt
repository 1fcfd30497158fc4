//! Reading a request.
ghost use Rattle.std.specs.Prelude.{◌≡◌, None};
ghost use Rattle.serde_json.specs.View.{view};
ghost use Rattle.json_members.specs.Reading.{json_of};
ghost use Rattle.phase0_types.specs.Reading.{read_at};
ghost use Rattle.phase0_types.specs.Containers.{fork};
ghost use Rattle.signing_requests.specs.Objects.{fork_from, said, signed_root};
ghost use Rattle.signing_requests.specs.Requests.{asked_of, asking, chain_at, chain_for, checked, domains_at, fork_at, genesis_at, is_another, members_of, object_in, rooted, shaped};
ghost use Rattle.signing_requests.specs.Steps.{GivesAs};

use crate::chain::{Chain, network_of};
use crate::kind::{SigningType, type_of};
use crate::member::{SigningMember, member_of};
use crate::objects::object_in;
use crate::refusal::{SigningRefusal, SigningStop};
use crate::request::{SigningObject, SigningRequest};
use crate::texts::{key_of, named_root_of, object_of};
use edge_kit::{PubKey, Root};
use json_members::{bytes_in, json_of};
use phase0_types::{Fork, Shaped};
use serde_json::Value;
use sign_roots::Domains;
use std::alloc::Global;

/// What a target's identifier and a body ask for, of the chain with this root of its genesis validators, or the first check
/// that fails, in this order: that the identifier is a key; that the body is a JSON object in UTF-8, and of its members
/// `type`, `fork_info` with `fork` and `genesis_validators_root`, the object of that type, and `signingRoot` or, where that is
/// absent, `signing_root`, which both may be absent; that the request is of this chain; and that the root which it names is the
/// one that is signed. A member that is null is there, and cannot be read. Of a `beacon_block` with a `block_header` no `block`
/// is looked at, and every `version` is taken: one that is absent or unknown counts as the newest that is known. Members that
/// the type does not name are ignored.
///
/// An exit whose fork is Deneb's or a later one is signed under Capella's version (EIP-7044), and a registration, of which no
/// `fork_info` is looked at, under the version at genesis and a genesis root of zeros (builder-specs): both where the chain is
/// mainnet, Hoodi or Sepolia. On other chains an exit is signed under the fork that the request names, and a registration is
/// refused as `UnknownNetwork`, in the place of the check of `fork_info`.
///
/// # Errors
///
/// `SigningStop::Refused` is the check; `SigningStop::Memory` is want of memory.
#[tactic(auto, unfolding(crate::specs::Requests::asked_of))]
pub fn read_signing_request(
    alloc: Global,
    identifier: &str,
    genesis: &Root,
    body: &[u8],
) -> Result<SigningRequest, SigningStop>
    ensures { GivesAs asking result (asked_of identifier.now genesis.now body.now) }
{
    let key = key_of(identifier)?;
    let value = body_of(alloc, body)?;
    read_members(alloc, genesis, key, &value)
}

/// The object that a body is.
fn body_of(alloc: Global, body: &[u8]) -> Result<Value, SigningStop>
    ensures { GivesAs (λ v. view v) result (object_in SigningMember.Body (json_of body.now)) }
{
    match json_of(alloc, body)? {
        Some(value) if value.is_object() => Ok(value),
        _ => Err(SigningStop::Refused(SigningRefusal::BadMember(SigningMember::Body))),
    }
}

fn read_members(
    alloc: Global,
    genesis: &Root,
    key: PubKey,
    value: &Value,
) -> Result<SigningRequest, SigningStop>
    ensures { GivesAs asking result (members_of genesis.now key (view value.now)) }
{
    let kind = type_of(value)?;
    let chain = chain_for(alloc, kind, genesis, value)?;
    let object = object_in(alloc, kind, value)?;
    match named_root_of(value) {
        Ok(named) => checked(genesis, key, chain, object, named),
        Err(refusal) => Err(SigningStop::Refused(refusal)),
    }
}

/// What is asked for, where it is of this chain and of the root that the request names, if it names one.
fn checked(
    genesis: &Root,
    key: PubKey,
    chain: Chain,
    object: SigningObject,
    named: Option<Root>,
) -> Result<SigningRequest, SigningStop>
    ensures { GivesAs asking result (checked genesis.now key chain (said object) named) }
{
    if chain.is_of_another(genesis) {
        return Err(SigningStop::Refused(SigningRefusal::GenesisDiffers));
    }
    let domains = chain.signing_domains(&object);
    rooted(key, domains, object, named)
}

/// What is asked for, where it is of the root that the request names, if it names one.
fn rooted(
    key: PubKey,
    domains: Domains,
    object: SigningObject,
    named: Option<Root>,
) -> Result<SigningRequest, SigningStop>
    ensures { GivesAs asking result (rooted (record { key = key; domains = domains; said = said object }) named) }
{
    if names_another(named, &domains, &object) {
        return Err(SigningStop::Refused(SigningRefusal::SigningRootDiffers));
    }
    Ok(SigningRequest {
        key,
        domains,
        object,
    })
}

/// Whether a root is named, and is another than the one that is signed.
fn names_another(named: Option<Root>, domains: &Domains, object: &SigningObject) -> bool
    ensures { result ≡ is_another named (signed_root domains.now (said object.now)) }
{
    match named {
        Some(named) => named.0.as_slice() != object.signing_root(domains).0.as_slice(),
        None => false,
    }
}

/// The chain that a request of this type is of. A registration names none, and is signed under the version at genesis of the
/// chain that is served.
fn chain_for(
    alloc: Global,
    kind: SigningType,
    genesis: &Root,
    value: &Value,
) -> Result<Chain, SigningStop>
    ensures { GivesAs (λ c. c) result (chain_for kind genesis.now (view value.now)) }
{
    match kind {
        SigningType::ValidatorRegistration => match network_of(genesis) {
            Some(network) => Ok(Chain::AtGenesis(network.genesis_fork_version)),
            None => Err(SigningStop::Refused(SigningRefusal::UnknownNetwork)),
        },
        _ => Ok(Chain::Named(chain_of(alloc, value)?)),
    }
}

/// The chain and the fork that a request names.
fn chain_of(alloc: Global, value: &Value) -> Result<Domains, SigningStop>
    ensures { GivesAs (λ d. d) result (chain_at (view value.now)) }
{
    let info = object_of(SigningMember::ForkInfo, value.get("fork_info"))?;
    let fork = fork_of(alloc, info)?;
    let genesis = genesis_of(info)?;
    Ok(Domains::new(fork, genesis))
}

fn fork_of(alloc: Global, info: &Value) -> Result<Fork, SigningStop>
    ensures { GivesAs (λ f. f) result (fork_at (view info.now)) }
{
    match info.get("fork") {
        Some(json) => read_fork(alloc, json),
        None => Err(SigningStop::Refused(SigningRefusal::BadMember(SigningMember::Fork))),
    }
}

fn read_fork(alloc: Global, json: &Value) -> Result<Fork, SigningStop>
    ensures { GivesAs (λ f. f) result (shaped SigningMember.Fork fork_from (read_at fork None (view json.now))) }
{
    match Fork::read_value(alloc, json)? {
        Ok(fork) => Ok(fork),
        Err(fault) => Err(SigningStop::Refused(SigningRefusal::BadMember(member_of(
            SigningMember::Fork,
            fault,
        )))),
    }
}

fn genesis_of(info: &Value) -> Result<Root, SigningRefusal>
    ensures { result ≡ genesis_at (view info.now) }
{
    match bytes_in::<32>(info, "genesis_validators_root") {
        Some(bytes) => Ok(Root(bytes)),
        None => Err(SigningRefusal::BadMember(SigningMember::GenesisValidatorsRoot)),
    }
}
