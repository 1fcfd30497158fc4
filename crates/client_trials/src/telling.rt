//! What desks, nodes and lanes have come to, in words.
use crate::desks::standings;
use crate::lanes::{MemLane, NotedDesk};
use crate::words::{key, root};
use altair_blocks::AnyBlock;
use check_sign::{DeskEvent, Event};
use edge_kit::push_hex;
use node_calls::{Ask, MemNode, NodeCall, Post, PostCall};
use node_fallback::Nodes;
use std::alloc::{AllocError, Global};
use test_texts::{Noting, kept_words};

fn word(ask: &Ask) -> &'static str {
    match ask {
        Ask::Genesis => "genesis",
        Ask::Fork => "fork",
        Ask::Syncing => "syncing",
        Ask::Validators { keys: _ } => "validators",
        Ask::Proposer { epoch: _ } => "proposer",
        Ask::Attester {
            epoch: _,
            indices: _,
        } => "attester",
        Ask::Data {
            slot: _,
            committee_index: _,
        } => "data",
        Ask::Block {
            slot: _,
            randao_reveal: _,
        } => "block",
        Ask::Aggregate {
            attestation_data_root: _,
            slot: _,
        } => "aggregate",
        Ask::Liveness {
            epoch: _,
            indices: _,
        } => "liveness",
    }
}

/// Writes what was posted, with its slot, of a vote the committee, and a star where it is not of key 1.
fn write_post(text: &mut String, call: &PostCall) -> Result<(), AllocError> {
    let star = if call.key == key(1) { "" } else { "*" };
    match &call.post {
        Post::Vote(vote) => {
            let (slot, committee) = (vote.details.slot, vote.details.index);
            write!(text, " vote@{slot},{committee}{star}")
        }
        Post::Block(signed) => match &signed.message {
            AnyBlock::Phase0(block) => write!(text, " block@{}{star}", block.slot),
            AnyBlock::Altair(block) => write!(text, " altair_block@{}{star}", block.slot),
        },
        Post::Aggregate(signed) => {
            let slot = signed.message.aggregate.details.slot;
            write!(text, " aggregate@{slot}{star}")
        }
    }
}

/// Writes a question by its name, and that for what a committee is to vote with its slot and the committee.
fn write_question(text: &mut String, ask: &Ask) -> Result<(), AllocError> {
    match ask {
        Ask::Data {
            slot,
            committee_index,
        } => write!(text, " data@{slot},{committee_index}"),
        _ => write!(text, " {}", word(ask)),
    }
}

/// Writes the calls of a node: each question by its name, each post by what was posted.
fn write_calls(text: &mut String, calls: &[NodeCall]) -> Result<(), AllocError> {
    for call in calls {
        match call {
            NodeCall::Asked(ask, _) => write_question(text, ask)?,
            NodeCall::Posted(call, _) => write_post(text, call)?,
        }
    }
    Ok(())
}

/// Writes what the first of some nodes was asked and handed over.
fn write_nodes(text: &mut String, nodes: Nodes<MemNode>) -> Result<(), AllocError> {
    text.push_str("node")?;
    if let Some(node) = nodes.into_nodes().first() {
        write_calls(text, node.told())?;
    }
    text.push_str("\n")
}

/// Writes how each key at a desk stands.
fn write_keys(alloc: Global, text: &mut String, desk: &mut NotedDesk) -> Result<(), AllocError> {
    let Some(listed) = standings(desk) else {
        return Ok(());
    };
    for (key, standing) in listed.as_slice() {
        text.push_str("key ")?;
        push_hex(alloc, text, &key.0)?;
        writeln!(text, " {standing:?}")?;
    }
    Ok(())
}

fn compactions(events: &[DeskEvent]) -> u64 {
    let mut count: u64 = 0;
    for event in events {
        if let Event::Compacted {
            before: _,
            after: _,
        } = event.event
        {
            count = count.saturating_add(1);
        }
    }
    count
}

/// Writes what a desk's disks say of each key at the end, in words.
pub fn write_kept(alloc: Global, text: &mut String, lane: MemLane) -> Result<(), AllocError> {
    let (noted, _signer, _nodes) = lane.into_parts();
    let Noting { desk, notes: _ } = noted;
    let (disks, _) = desk.end();
    text.push_str(kept_words(alloc, &disks, root(0))?.as_str())
}

/// Writes how many events a desk has, how many of them are compactions, and whether its second file is begun.
fn write_desk(text: &mut String, noted: NotedDesk) -> Result<(), AllocError> {
    let Noting { desk, notes } = noted;
    let events = notes.events().len();
    let compactions = compactions(notes.events());
    let (disks, _) = desk.end();
    let begun = !disks.second.bytes().is_empty();
    writeln!(
        text,
        "desk {events} events, {compactions} compactions, second file begun: {begun}"
    )
}

/// Writes what a lane has come to: how the keys at its desk stand, the desk, and the calls of its node.
pub fn write_lane(alloc: Global, text: &mut String, lane: MemLane) -> Result<(), AllocError> {
    let (mut desk, _signer, nodes) = lane.into_parts();
    write_keys(alloc, text, &mut desk)?;
    write_desk(text, desk)?;
    write_nodes(text, nodes)
}
