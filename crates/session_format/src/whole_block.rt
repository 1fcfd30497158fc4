//! Whole blocks, each of the version that goes with it.
ghost use Rattle.std.specs.Prelude.{◌≡◌};
ghost use Rattle.serde_json.specs.View.{view};
ghost use Rattle.altair_blocks.specs.AnyBlocks.{read_block};
ghost use Rattle.session_format.specs.Requests.{version_in, versioned_block, whole_block};
ghost use Rattle.session_format.specs.Steps.{Gives};
ghost use Rattle.session_format.specs.WholeBlocks.{fitting_block, is_of_slot, read_whole, whole_message};

use crate::chain::SessionChain;
use crate::member::{Member, member_of};
use crate::objects::block_message_of;
use crate::reading::Unread;
use crate::request::Op;
use crate::texts::text_of;
use altair_blocks::{AnyBlock, ConsensusVersion, version_at};
use edge_kit::PubKey;
use serde_json::Value;
use sign_roots::Domains;
use signer_link::SignObject;
use slash_defs::Message;
use std::alloc::Global;

/// To sign the block that the member `beacon_block` is.
pub(crate) fn whole_block_of(
    alloc: Global,
    chain: &SessionChain,
    key: PubKey,
    json: &Value,
) -> Result<Op, Unread>
    ensures { Gives result (whole_block chain.now key (view json.now)) }
{
    if !json.is_object() {
        return Err(Unread::Member(Member::BeaconBlock));
    }
    versioned_block_of(alloc, chain, key, json)
}

/// To sign the block of the member `block`, as the container that the member `version` names.
fn versioned_block_of(
    alloc: Global,
    chain: &SessionChain,
    key: PubKey,
    json: &Value,
) -> Result<Op, Unread>
    ensures { Gives result (versioned_block chain.now key (view json.now)) }
{
    let version = version_of(json)?;
    let Some(block) = json.get("block") else {
        return Err(Unread::Member(Member::Block));
    };
    read_block(alloc, chain, key, version, block)
}

/// The version that a whole block is said to be of.
fn version_of(json: &Value) -> Result<ConsensusVersion, Member>
    ensures { result ≡ version_in (view json.now) }
{
    text_of(json, "version")
        .and_then(|name| ConsensusVersion::named(name))
        .ok_or(Member::Version)
}

/// To sign the block of this version that a JSON document writes.
fn read_block(
    alloc: Global,
    chain: &SessionChain,
    key: PubKey,
    version: ConsensusVersion,
    json: &Value,
) -> Result<Op, Unread>
    ensures { Gives result (read_whole chain.now key (read_block version (view json.now))) }
{
    match AnyBlock::read_value(alloc, version, json)? {
        Ok(block) => proposal_of(chain, key, block),
        Err(fault) => Err(Unread::Member(member_of(Member::Block, fault))),
    }
}

/// To sign a block, where it is of its slot's version.
fn proposal_of(chain: &SessionChain, key: PubKey, block: AnyBlock) -> Result<Op, Unread>
    ensures { Gives result (fitting_block chain.now key block) }
{
    if !is_of_slot(chain.altair, &block) {
        return Err(Unread::Member(Member::Version));
    }
    Ok(Op::Propose {
        key,
        message: message_of(&chain.domains, &block),
        object: Some(SignObject::Block(block)),
    })
}

/// Whether a block is of the version that its slot has.
fn is_of_slot(altair: Option<u64>, block: &AnyBlock) -> bool
    ensures { result ≡ is_of_slot altair block.now }
{
    block.version() == version_at(altair, block.slot())
}

/// What is signed of a block, as of its header.
fn message_of(domains: &Domains, block: &AnyBlock) -> Message
    ensures { result ≡ whole_message domains.now block.now }
{
    block_message_of(domains, &block.header())
}
