//! What is held from turn to turn.
use duty_schedule::Schedule;
use edge_kit::{Items, PubKey};
use phase0_types::Fork;
use std::collections::BTreeMap;

/// What is held from turn to turn.
#[derive(Drop)]
pub struct Held {
    /// The slot of the turn.
    pub slot: u64,
    /// The chain's fork.
    pub fork: Fork,
    /// The validator indices that the nodes gave, each of its key's last row.
    pub indices: BTreeMap<PubKey, u64>,
    /// The duty answers that stand.
    pub schedule: Schedule,
    /// The keys that were active in the turn before, if there was one.
    pub active: Option<Items<PubKey>>,
    /// The epoch in which fork and indices were asked for last, if each of these questions had an answer.
    pub renewed: Option<u64>,
}

/// Why the duty loop ends before its number of turns.
#[derive(Clone, Copy, PartialEq, Eq, Debug)]
pub enum DutyEnd {
    /// The desk's disk failed.
    Disk,
    /// The output failed; its count of faults rose.
    Write,
    /// Memory ran out.
    OutOfMemory,
}
