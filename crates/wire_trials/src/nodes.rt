//! A beacon node over a link in memory.
use crate::answers::{answer_words, fault_words};
use crate::links::{link, sent};
use crate::permits::PERMIT;
use crate::questions::ask_of;
use crate::reading::{Stop, first_part, numbers_in, service_of, value_of};
use crate::scenes::Scene;
use beacon_node::BeaconNode;
use edge_kit::{MemLink, Sig};
use node_calls::{Answer, Ask, Node, Post, aggregation_bits};
use phase0_blocks::{Attestation, Signed};
use phase0_types::BoundedList;
use std::alloc::Global;

/// A node over a link whose peer says this, and whose calls of these numbers fail.
pub fn node(alloc: Global, setting: &str, failing: &[u64]) -> Result<BeaconNode<MemLink>, Stop> {
    let link = link(alloc, setting, failing)?;
    let service = service_of(alloc, "http://node:5052/base/")?;
    Ok(BeaconNode::telling(link, service))
}

/// The bits of a vote by the member at this place of a committee of that many.
pub fn bits_of(alloc: Global, words: &str) -> Result<BoundedList<bool, 2048>, Stop> {
    match numbers_in(alloc, words)?.as_slice() {
        [place, length] if *place < *length && *length <= 2048 => {
            Ok(aggregation_bits(alloc, *place, *length)?)
        }
        _ => Err(Stop::Unread),
    }
}

/// A vote by the member at this place for this data.
fn vote_of(alloc: Global, words: &str) -> Result<Post, Stop> {
    let (place, data) = first_part(words, " for ");
    Ok(Post::Vote(Attestation {
        aggregation_bits: bits_of(alloc, place)?,
        details: value_of(alloc, data)?,
        signature: Sig([0x44; 96]),
    }))
}

/// The block that a node gives which says this.
fn block_of(alloc: Global, setting: &str) -> Result<Post, Stop> {
    let ask = Ask::Block {
        slot: 100,
        randao_reveal: Sig([0x44; 96]),
    };
    match node(alloc, setting, &[])?.ask(&ask) {
        Ok(Answer::Block(message)) => Ok(Post::Block(Signed {
            message,
            signature: Sig([0x55; 96]),
        })),
        _ => Err(Stop::Unread),
    }
}

/// The aggregate that a JSON text writes, with its aggregator and the proof.
fn aggregate_of(alloc: Global, json: &str) -> Result<Post, Stop> {
    Ok(Post::Aggregate(Signed {
        message: value_of(alloc, json)?,
        signature: Sig([0x66; 96]),
    }))
}

/// Something signed: a block that another node gives, an aggregate, or a vote.
pub fn post_of(alloc: Global, words: &str) -> Result<Post, Stop> {
    if let Some(setting) = words.strip_prefix("block of a node that ") {
        return block_of(alloc, setting);
    }
    match words.strip_prefix("aggregate ") {
        Some(json) => aggregate_of(alloc, json),
        None => vote_of(alloc, words),
    }
}

/// What a node answers to a question.
fn ask(alloc: Global, node: &mut BeaconNode<MemLink>, words: &str) -> Result<String, Stop> {
    let ask = ask_of(alloc, words)?;
    match node.ask(&ask) {
        Ok(answer) => Ok(answer_words(alloc, &answer)?),
        Err(fault) => fault_words(alloc, &fault),
    }
}

/// Whether a node takes something signed.
fn post(alloc: Global, node: &mut BeaconNode<MemLink>, words: &str) -> Result<String, Stop> {
    let post = post_of(alloc, words)?;
    match node.post(&PERMIT, &post) {
        Ok(()) => Ok(String::from_str(alloc, "taken")?),
        Err(fault) => fault_words(alloc, &fault),
    }
}

impl Scene for BeaconNode<MemLink> {
    fn call(&mut self, alloc: Global, name: &str, arguments: &str) -> Result<String, Stop> {
        match name {
            "ask" => ask(alloc, self, arguments),
            "post" => post(alloc, self, arguments),
            "sent" => sent(alloc, self.twin(alloc)?.into_link()),
            _ => Err(Stop::Unread),
        }
    }

    fn another(&self, alloc: Global) -> Result<Self, Stop> {
        Ok(self.twin(alloc)?)
    }
}
