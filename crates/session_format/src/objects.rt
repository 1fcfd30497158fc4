//! Blocks and votes, of their objects or of plain members.
ghost use Rattle.std.specs.Prelude.{◌≡◌, None, codes};
ghost use Rattle.serde_json.specs.View.{view};
ghost use Rattle.phase0_types.specs.Containers.{attestation_data, beacon_block_header};
ghost use Rattle.phase0_types.specs.Reading.{read_at};
ghost use Rattle.signer_link.specs.Objects.{block_message, vote_message};
ghost use Rattle.serde_json.specs.Find.{get};
ghost use Rattle.session_format.specs.Requests.{block_at, details_vote, header_block, headless_block, plain_block, plain_vote, vote_at};
ghost use Rattle.session_format.specs.Steps.{Gives};

use crate::chain::SessionChain;
use crate::member::{Member, member_of};
use crate::reading::Unread;
use crate::request::Op;
use crate::texts::{key_of, number_of, root_of};
use crate::whole_block::whole_block_of;
use edge_kit::PubKey;
use phase0_types::{AttestationData, BeaconBlockHeader, Shaped};
use serde_json::Value;
use sign_roots::Domains;
use signer_link::{BlockVersion, SignObject};
use slash_defs::Message;
use std::alloc::Global;

/// To sign a block: of its header, where the member is there, else of the whole block, where that is there, else of its
/// slot and signing root.
pub(crate) fn block_of(alloc: Global, chain: &SessionChain, value: &Value) -> Result<Op, Unread>
    ensures { Gives result (block_at chain.now (view value.now)) }
{
    let key = key_of(value)?;
    match value.get("header") {
        Some(header) => block_of_header(alloc, &chain.domains, key, header),
        None => headless_block_of(alloc, chain, key, value),
    }
}

/// A block without a header.
fn headless_block_of(
    alloc: Global,
    chain: &SessionChain,
    key: PubKey,
    value: &Value,
) -> Result<Op, Unread>
    ensures { Gives result (headless_block chain.now key
        (view value.now) (get (codes "beacon_block") (view value.now))) }
{
    match value.get("beacon_block") {
        Some(block) => whole_block_of(alloc, chain, key, block),
        None => plain_block_of(key, value),
    }
}

fn plain_block_of(key: PubKey, value: &Value) -> Result<Op, Unread>
    ensures { Gives result (plain_block key (view value.now)) }
{
    let slot = number_of(value, "slot", Member::Slot)?;
    let root = root_of(value)?;
    Ok(Op::Propose {
        key,
        message: Message::Block { slot, root },
        object: None,
    })
}

fn block_of_header(
    alloc: Global,
    domains: &Domains,
    key: PubKey,
    json: &Value,
) -> Result<Op, Unread>
    ensures { Gives result (header_block domains.now key
        (read_at beacon_block_header None (view json.now))) }
{
    match BeaconBlockHeader::read_value(alloc, json)? {
        Ok(header) => Ok(Op::Propose {
            key,
            message: block_message_of(domains, &header),
            object: Some(SignObject::Header {
                version: BlockVersion::Phase0,
                header,
            }),
        }),
        Err(fault) => Err(Unread::Member(member_of(Member::Header, fault))),
    }
}

/// The block of a header.
pub(crate) fn block_message_of(domains: &Domains, header: &BeaconBlockHeader) -> Message
    ensures { result ≡ block_message domains.now header.now }
{
    Message::Block {
        slot: header.slot,
        root: domains.block_root(header),
    }
}

/// To sign a vote: of its attestation data, where the member is there, else of its epochs and signing root.
pub(crate) fn vote_of(alloc: Global, chain: &SessionChain, value: &Value) -> Result<Op, Unread>
    ensures { Gives result (vote_at chain.now (view value.now)) }
{
    let key = key_of(value)?;
    match value.get("attestation") {
        Some(details) => vote_of_details(alloc, &chain.domains, key, details),
        None => plain_vote_of(key, value),
    }
}

fn plain_vote_of(key: PubKey, value: &Value) -> Result<Op, Unread>
    ensures { Gives result (plain_vote key (view value.now)) }
{
    let source = number_of(value, "source_epoch", Member::SourceEpoch)?;
    let target = number_of(value, "target_epoch", Member::TargetEpoch)?;
    let root = root_of(value)?;
    Ok(Op::Propose {
        key,
        message: Message::Vote {
            source,
            target,
            root,
        },
        object: None,
    })
}

fn vote_of_details(
    alloc: Global,
    domains: &Domains,
    key: PubKey,
    json: &Value,
) -> Result<Op, Unread>
    ensures { Gives result (details_vote domains.now key
        (read_at attestation_data None (view json.now))) }
{
    match AttestationData::read_value(alloc, json)? {
        Ok(details) => Ok(Op::Propose {
            key,
            message: vote_message_of(domains, &details),
            object: Some(SignObject::Attestation(details)),
        }),
        Err(fault) => Err(Unread::Member(member_of(Member::Attestation, fault))),
    }
}

/// The vote of attestation data.
fn vote_message_of(domains: &Domains, details: &AttestationData) -> Message
    ensures { result ≡ vote_message domains.now details.now }
{
    Message::Vote {
        source: details.source.epoch,
        target: details.target.epoch,
        root: domains.attestation_root(details),
    }
}
