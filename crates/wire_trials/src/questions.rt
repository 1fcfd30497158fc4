//! Questions to beacon nodes, and their answers, as lines give them.
use crate::reading::{Stop, byte_of, first_part, numbers_in};
use edge_kit::{Items, PubKey, Root, Sig};
use node_calls::{Answer, Ask, AttesterRow, ProposerRow};
use std::alloc::{AllocError, Global};

/// The key whose bytes are a number. Above 255 each byte is the number's last one, and to the first two of them those before
/// it are added, so that each number has its key.
fn key_of(number: u64) -> PubKey {
    let last = number % 256;
    let mut bytes = [byte_of(number); 48];
    bytes[0] = byte_of(last + number / 256);
    bytes[1] = byte_of(last + number / 65_536);
    PubKey(bytes)
}

/// The root whose bytes are a number.
fn root_of(number: u64) -> Root {
    Root([byte_of(number); 32])
}

/// The keys whose bytes are numbers.
pub fn keys_of(alloc: Global, numbers: &[u64]) -> Result<Vec<PubKey>, AllocError> {
    numbers.iter().map(|number| key_of(*number)).collect(alloc)
}

fn indices_of(alloc: Global, numbers: &[u64]) -> Result<Items<u64>, AllocError> {
    Ok(Items::from_vec(Vec::from_slice(alloc, numbers)?))
}

/// A question.
pub fn ask_of(alloc: Global, words: &str) -> Result<Ask, Stop> {
    let (kind, _) = first_part(words, " ");
    match (kind, numbers_in(alloc, words)?.as_slice()) {
        ("genesis", []) => Ok(Ask::Genesis),
        ("fork", []) => Ok(Ask::Fork),
        ("syncing", []) => Ok(Ask::Syncing),
        ("proposer", [epoch]) => Ok(Ask::Proposer { epoch: *epoch }),
        ("data", [slot, committee_index]) => Ok(Ask::Data {
            slot: *slot,
            committee_index: *committee_index,
        }),
        ("block", [slot, reveal]) => Ok(Ask::Block {
            slot: *slot,
            randao_reveal: Sig([byte_of(*reveal); 96]),
        }),
        ("aggregate", [root, slot]) => Ok(Ask::Aggregate {
            attestation_data_root: root_of(*root),
            slot: *slot,
        }),
        (_, numbers) => ask_with_list(alloc, kind, numbers),
    }
}

/// A question with a list.
fn ask_with_list(alloc: Global, kind: &str, numbers: &[u64]) -> Result<Ask, Stop> {
    match (kind, numbers) {
        ("validators", keys) => Ok(Ask::Validators {
            keys: Items::from_vec(keys_of(alloc, keys)?),
        }),
        ("attester", [epoch, indices @ ..]) => Ok(Ask::Attester {
            epoch: *epoch,
            indices: indices_of(alloc, indices)?,
        }),
        ("liveness", [epoch, indices @ ..]) => Ok(Ask::Liveness {
            epoch: *epoch,
            indices: indices_of(alloc, indices)?,
        }),
        _ => Err(Stop::Unread),
    }
}

/// An attester.
pub fn attester(alloc: Global, words: &str) -> Result<AttesterRow, Stop> {
    match numbers_in(alloc, words)?.as_slice() {
        [key, validator, committee, length, committees, place, slot] => Ok(AttesterRow {
            pubkey: key_of(*key),
            validator_index: *validator,
            committee_index: *committee,
            committee_length: *length,
            committees_at_slot: *committees,
            validator_committee_index: *place,
            slot: *slot,
        }),
        _ => Err(Stop::Unread),
    }
}

/// Adds an attester for each key from this number to the one that the words begin with.
fn push_range(
    alloc: Global,
    rows: &mut Vec<AttesterRow>,
    first: u64,
    words: &str,
) -> Result<(), Stop> {
    let row = attester(alloc, words)?;
    let numbers = numbers_in(alloc, words)?;
    let Some(last) = numbers.first() else {
        return Err(Stop::Unread);
    };
    for number in first..=*last {
        rows.push(AttesterRow {
            pubkey: key_of(number),
            ..row
        })?;
    }
    Ok(())
}

/// Adds an attester, or one for each key from a number to another.
fn push_attesters(alloc: Global, rows: &mut Vec<AttesterRow>, words: &str) -> Result<(), Stop> {
    let (front, rest) = first_part(words, " to ");
    match (
        front.strip_prefix("keys "),
        numbers_in(alloc, front)?.as_slice(),
    ) {
        (Some(_), [first]) => push_range(alloc, rows, *first, rest),
        _ => Ok(rows.push(attester(alloc, words)?)?),
    }
}

/// Attesters.
fn attesters(alloc: Global, text: &str) -> Result<Items<AttesterRow>, Stop> {
    let mut rows = Vec::new(alloc);
    for words in text.split(", ") {
        push_attesters(alloc, &mut rows, words)?;
    }
    Ok(Items::from_vec(rows))
}

/// A proposer.
fn proposer(alloc: Global, words: &str) -> Result<ProposerRow, Stop> {
    match numbers_in(alloc, words)?.as_slice() {
        [key, validator, slot] => Ok(ProposerRow {
            pubkey: key_of(*key),
            validator_index: *validator,
            slot: *slot,
        }),
        _ => Err(Stop::Unread),
    }
}

/// Proposers.
fn proposers(alloc: Global, text: &str) -> Result<Items<ProposerRow>, Stop> {
    let mut rows = Vec::new(alloc);
    for words in text.split(", ") {
        rows.push(proposer(alloc, words)?)?;
    }
    Ok(Items::from_vec(rows))
}

/// An answer: when the chain began, whether a node is syncing, or duties on a root, each row of them after a comma.
pub fn answer_of(alloc: Global, text: &str) -> Result<Answer, Stop> {
    let (head, rows) = first_part(text, ", ");
    let (kind, rest) = first_part(head, " ");
    match (kind, numbers_in(alloc, head)?.as_slice()) {
        ("genesis", [genesis_time]) => Ok(Answer::Genesis {
            genesis_time: *genesis_time,
            genesis_validators_root: Root([0; 32]),
        }),
        ("syncing", []) => Ok(Answer::Syncing {
            is_syncing: rest == "true",
        }),
        ("attester", [root]) => Ok(Answer::Attester {
            dependent_root: root_of(*root),
            rows: attesters(alloc, rows)?,
        }),
        ("proposer", [root]) => Ok(Answer::Proposer {
            dependent_root: root_of(*root),
            rows: proposers(alloc, rows)?,
        }),
        _ => Err(Stop::Unread),
    }
}
