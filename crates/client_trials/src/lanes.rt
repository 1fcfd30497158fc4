//! Lanes, as a part of a line describes them. Its words, each of which may lack: `active=1,2` keys that are active at the
//! desk, since `epoch=N`; `voted=N` how many votes each of them signed, the first from epoch 0 to epoch 1; `watches=1`
//! where the desk watches keys; `lacks=1` keys that the signer lacks; `signer-fails=0,1` and `node-fails=0,1` the calls of
//! the signer and of the node that fail; and `says` before the answers of the node.
use crate::answers::answers_in;
use crate::desks::{activate, vote_all};
use crate::words::{keys_in, number_in, numbers_in, root};
use check_sign::{Desk, MOMENT_LIMIT};
use duty_workers::Lane;
use edge_kit::{Disks, MemDisk, PubKey};
use node_calls::MemNode;
use node_fallback::Nodes;
use signer_link::MemSigner;
use std::alloc::Global;
use test_texts::{Notes, Noting};

/// A desk over disks in memory, and what it did.
pub type NotedDesk = Noting<Desk<MemDisk>>;

/// A lane with a desk of its own.
pub type MemLane = Lane<NotedDesk, MemSigner, MemNode>;

/// Opens a desk over disks of which the first has these bytes and stops at a call, if one is given.
pub fn desk_over(
    alloc: Global,
    bytes: Vec<u8>,
    stop: Option<u64>,
    watches: bool,
    epoch: u64,
) -> Option<NotedDesk> {
    let first = MemDisk::new(alloc, bytes, Vec::new(alloc), stop).ok()?;
    let second = MemDisk::new(alloc, Vec::new(alloc), Vec::new(alloc), None).ok()?;
    let now = epoch.min(MOMENT_LIMIT);
    match Desk::open(alloc, Disks { first, second }, root(0), watches, now) {
        Ok(desk) => Some(Noting {
            desk,
            notes: Notes::new(alloc, now),
        }),
        Err(_) => None,
    }
}

/// Makes keys active at an epoch.
pub fn activate_all(desk: &mut NotedDesk, keys: &[PubKey], epoch: u64) {
    for key in keys {
        activate(desk, *key, epoch);
    }
}

fn desk_of(alloc: Global, part: &str) -> Option<NotedDesk> {
    let epoch = number_in(part, "epoch")?;
    let votes = number_in(part, "voted")?;
    let watches = number_in(part, "watches")? == 1;
    let keys = keys_in(alloc, part, "active")?;
    let mut desk = desk_over(alloc, Vec::new(alloc), None, watches, epoch)?;
    activate_all(&mut desk, keys.as_slice(), epoch);
    vote_all(&mut desk, keys.as_slice(), votes);
    Some(desk)
}

fn signer_of(alloc: Global, part: &str) -> Option<MemSigner> {
    let lacking = keys_in(alloc, part, "lacks")?;
    let failing = numbers_in(alloc, part, "signer-fails")?;
    Some(MemSigner::new(alloc, lacking, failing))
}

fn nodes_of(alloc: Global, part: &str) -> Option<Nodes<MemNode>> {
    let answers = answers_in(alloc, part)?;
    let failing = numbers_in(alloc, part, "node-fails")?;
    let nodes = vec![in alloc; MemNode::new(alloc, answers, failing)].ok()?;
    Some(Nodes::new(alloc, nodes))
}

/// The lane that a part of a line describes.
pub fn lane_of(alloc: Global, part: &str) -> Option<MemLane> {
    let signer = signer_of(alloc, part)?;
    let nodes = nodes_of(alloc, part)?;
    let desk = desk_of(alloc, part)?;
    Some(Lane::new(desk, signer, nodes))
}
