//! What a node answers, in words. A validator's index is the number of its key.
ghost use Rattle.std.specs.Prelude.{◌≡◌};

use crate::words::{key, numbers_of, root};
use altair_blocks::{AltairBlock, AltairBlockBody, AnyBlock, SyncAggregate};
use edge_kit::{Items, Root, Sig};
use node_calls::{Answer, AttesterRow, LivenessRow, ProposerRow, ValidatorRow};
use phase0_blocks::{Attestation, BeaconBlock, BeaconBlockBody};
use phase0_types::{AttestationData, BoundedList, Checkpoint, Eth1Data, Fork};
use std::alloc::Global;

/// The fork of the chain.
pub const FORK: Fork = Fork {
    previous_version: [0; 4],
    current_version: [0; 4],
    epoch: 0,
};

const NO_DEPOSIT: Eth1Data = Eth1Data {
    deposit_root: Root([0; 32]),
    deposit_count: 0,
    block_hash: Root([0; 32]),
};

/// The row of a proposer.
pub fn proposer(number: u64, slot: u64) -> ProposerRow {
    ProposerRow {
        pubkey: key(number),
        validator_index: number,
        slot,
    }
}

/// The row of an attester at place 3 of 128 in this committee.
pub fn attester(number: u64, slot: u64, committee: u64) -> AttesterRow
    ensures { (result.validator_committee_index ≡ 3) × (result.committee_length ≡ 128) }
{
    AttesterRow {
        pubkey: key(number),
        validator_index: number,
        committee_index: committee,
        committee_length: 128,
        committees_at_slot: 64,
        validator_committee_index: 3,
        slot,
    }
}

/// `indices=KEY,KEY`: the indices of keys.
fn indices(alloc: Global, numbers: &[u64]) -> Option<Answer> {
    let mut rows = Vec::new(alloc);
    for number in numbers {
        rows.push(ValidatorRow {
            index: *number,
            pubkey: key(*number),
        })
        .ok()?;
    }
    Some(Answer::Validators(Items::from_vec(rows)))
}

/// `live=KEY:1`, or `live=KEY:0`: whether a key was live.
fn liveness(alloc: Global, numbers: &[u64]) -> Option<Answer> {
    let [number, live] = numbers else {
        return None;
    };
    let row = LivenessRow {
        index: *number,
        is_live: *live == 1,
    };
    Some(Answer::Liveness(Items::from_vec(vec![in alloc; row].ok()?)))
}

/// `proposes=ROOT:SLOT,SLOT`: under a dependent root, the slots in which key 1 proposes.
fn proposes(alloc: Global, numbers: &[u64]) -> Option<Answer> {
    let [dependent, slots @ ..] = numbers else {
        return None;
    };
    let mut rows = Vec::new(alloc);
    for slot in slots {
        rows.push(proposer(1, *slot)).ok()?;
    }
    Some(Answer::Proposer {
        dependent_root: root(*dependent),
        rows: Items::from_vec(rows),
    })
}

/// `votes=ROOT:KEY@SLOT,KEY@SLOT`: under a dependent root, the slots in which keys vote in committee 2.
fn votes(alloc: Global, numbers: &[u64]) -> Option<Answer> {
    let [dependent, votes @ ..] = numbers else {
        return None;
    };
    let mut rows = Vec::new(alloc);
    for vote in votes.chunks(2) {
        let [number, slot] = vote else {
            return None;
        };
        rows.push(attester(*number, *slot, 2)).ok()?;
    }
    Some(Answer::Attester {
        dependent_root: root(*dependent),
        rows: Items::from_vec(rows),
    })
}

/// `seats=ROOT:KEY@SLOT@COMMITTEE,KEY@SLOT@COMMITTEE`: the same of keys in these committees.
fn seats(alloc: Global, numbers: &[u64]) -> Option<Answer> {
    let [dependent, seats @ ..] = numbers else {
        return None;
    };
    let mut rows = Vec::new(alloc);
    for seat in seats.chunks(3) {
        let [number, slot, committee] = seat else {
            return None;
        };
        rows.push(attester(*number, *slot, *committee)).ok()?;
    }
    Some(Answer::Attester {
        dependent_root: root(*dependent),
        rows: Items::from_vec(rows),
    })
}

/// What a committee is to vote, from epoch 0 to the slot's.
fn details(numbers: &[u64]) -> Option<AttestationData> {
    let [slot, committee, head] = numbers else {
        return None;
    };
    Some(AttestationData {
        slot: *slot,
        index: *committee,
        beacon_block_root: root(*head),
        source: Checkpoint {
            epoch: 0,
            root: root(0),
        },
        target: Checkpoint {
            epoch: *slot / 32,
            root: root(0),
        },
    })
}

/// `data=SLOT,COMMITTEE,ROOT`: what a committee is to vote.
fn data(numbers: &[u64]) -> Option<Answer> {
    Some(Answer::Data(details(numbers)?))
}

/// `aggregate=SLOT,COMMITTEE,ROOT`: the votes of all members of a committee for that.
fn aggregate(alloc: Global, numbers: &[u64]) -> Option<Answer> {
    Some(Answer::Aggregate(Attestation {
        aggregation_bits: all_members(alloc)?,
        details: details(numbers)?,
        signature: Sig([0; 96]),
    }))
}

/// A set bit for each of the 128 members of a committee.
fn all_members(alloc: Global) -> Option<BoundedList<bool, 2048>> {
    let bits = vec![in alloc; true; 128].ok()?;
    match BoundedList::try_new(bits) {
        Ok(bits) => Some(bits),
        Err(_) => None,
    }
}

fn no_items<T: Drop, const LIMIT: usize>(alloc: Global) -> BoundedList<T, LIMIT> {
    match BoundedList::try_new(Vec::new(alloc)) {
        Ok(list) => list,
        Err(_) => unreachable!(),
    }
}

fn body(alloc: Global) -> BeaconBlockBody {
    BeaconBlockBody {
        randao_reveal: Sig([0; 96]),
        eth1_data: NO_DEPOSIT,
        graffiti: [0; 32],
        proposer_slashings: no_items(alloc),
        attester_slashings: no_items(alloc),
        attestations: no_items(alloc),
        deposits: no_items(alloc),
        voluntary_exits: no_items(alloc),
    }
}

/// `block=SLOT,ROOT`: an empty block of key 1 over a parent of this root.
fn block(alloc: Global, numbers: &[u64]) -> Option<Answer> {
    let [slot, parent] = numbers else {
        return None;
    };
    Some(Answer::Block(AnyBlock::Phase0(BeaconBlock {
        slot: *slot,
        proposer_index: 1,
        parent_root: root(*parent),
        state_root: root(0),
        body: body(alloc),
    })))
}

/// `altair_block=SLOT,ROOT`: such a block of Altair, which no member of a sync committee signed.
fn altair_block(alloc: Global, numbers: &[u64]) -> Option<Answer> {
    let [slot, parent] = numbers else {
        return None;
    };
    Some(Answer::Block(AnyBlock::Altair(AltairBlock {
        slot: *slot,
        proposer_index: 1,
        parent_root: root(*parent),
        state_root: root(0),
        body: AltairBlockBody {
            phase0: body(alloc),
            sync_aggregate: SyncAggregate {
                sync_committee_bits: [0; 64],
                sync_committee_signature: Sig([0; 96]),
            },
        },
    })))
}

fn answer(alloc: Global, name: &str, numbers: &[u64]) -> Option<Answer> {
    match name {
        "synced" => Some(Answer::Syncing { is_syncing: false }),
        "fork" => Some(Answer::Fork(FORK)),
        "indices" => indices(alloc, numbers),
        "live" => liveness(alloc, numbers),
        "proposes" => proposes(alloc, numbers),
        "votes" => votes(alloc, numbers),
        "seats" => seats(alloc, numbers),
        "data" => data(numbers),
        "aggregate" => aggregate(alloc, numbers),
        "block" => block(alloc, numbers),
        "altair_block" => altair_block(alloc, numbers),
        _ => None,
    }
}

fn answer_of(alloc: Global, word: &str) -> Option<Answer> {
    let (name, value) = word.split_once('=').unwrap_or((word, ""));
    let numbers = numbers_of(alloc, value)?;
    answer(alloc, name, numbers.as_slice())
}

/// The answers that a part of a line gives after the word `says`, if it has that.
pub fn answers_in(alloc: Global, part: &str) -> Option<Vec<Answer>> {
    let mut answers = Vec::new(alloc);
    let Some((_, said)) = part.split_once(" says ") else {
        return Some(answers);
    };
    for word in said.split(' ') {
        answers.push(answer_of(alloc, word)?).ok()?;
    }
    Some(answers)
}
