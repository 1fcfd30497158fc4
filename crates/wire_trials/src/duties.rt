//! Slots, data of votes, blocks, aggregators, questions and watches.
use crate::nodes::bits_of;
use crate::questions::{answer_of, ask_of, attester};
use crate::reading::{Stop, byte_of, first_part, numbers_in, whole_block};
use altair_blocks::version_at;
use doppel_watch::{MOMENT_LIMIT, Watch};
use duty_schedule::{DataDiffers, check_block, check_data, is_aggregator, slot_at};
use edge_kit::{Items, Root, Sig};
use node_fallback::Cause;
use phase0_types::{AttestationData, Checkpoint};
use std::alloc::Global;

/// What comes of a subject of this module.
pub fn outcome(alloc: Global, subject: &str, arguments: &str) -> Result<String, Stop> {
    match subject {
        "slot" => slot(alloc, arguments),
        "check-data" => data(alloc, arguments),
        "version" => version(alloc, arguments),
        "check-block" => block(alloc, arguments),
        "aggregator" => aggregator(alloc, arguments),
        "fits" => fits(alloc, arguments),
        "bits" => Ok(format!(in alloc; "{:?}", bits_of(alloc, arguments)?.as_slice())?),
        "cause" => cause(alloc, arguments),
        "watch" => watch(alloc, arguments),
        _ => Err(Stop::Unread),
    }
}

/// The slot of a moment.
fn slot(alloc: Global, words: &str) -> Result<String, Stop> {
    match numbers_in(alloc, words)?.as_slice() {
        [genesis_time, moment] => {
            let slot = slot_at(*genesis_time, *moment);
            Ok(format!(in alloc; "{slot:?}")?)
        }
        _ => Err(Stop::Unread),
    }
}

/// The data of a vote.
fn details_of(alloc: Global, words: &str) -> Result<AttestationData, Stop> {
    let root = Root([0; 32]);
    match numbers_in(alloc, words)?.as_slice() {
        [slot, index, epoch] => Ok(AttestationData {
            slot: *slot,
            index: *index,
            beacon_block_root: root,
            source: Checkpoint { epoch: 0, root },
            target: Checkpoint {
                epoch: *epoch,
                root,
            },
        }),
        _ => Err(Stop::Unread),
    }
}

/// What differs between a vote that is due and the data that a node gives for it.
fn data(alloc: Global, words: &str) -> Result<String, Stop> {
    let (due, given) = first_part(words, ": ");
    let due = attester(alloc, due)?;
    let given = details_of(alloc, given)?;
    check_words(alloc, check_data(&due, &given))
}

/// What differs, if anything does.
fn check_words(alloc: Global, checked: Result<(), DataDiffers>) -> Result<String, Stop> {
    match checked {
        Ok(()) => Ok(String::from_str(alloc, "nothing differs")?),
        Err(differs) => Ok(format!(in alloc; "{differs}")?),
    }
}

/// A slot, and the epoch of Altair where one stands after it.
fn slot_and_altair(alloc: Global, words: &str) -> Result<(u64, Option<u64>), Stop> {
    match numbers_in(alloc, words)?.as_slice() {
        [slot] => Ok((*slot, None)),
        [slot, altair] => Ok((*slot, Some(*altair))),
        _ => Err(Stop::Unread),
    }
}

/// The version of a slot's block.
fn version(alloc: Global, words: &str) -> Result<String, Stop> {
    let (slot, altair) = slot_and_altair(alloc, words)?;
    Ok(String::from_str(alloc, version_at(altair, slot).name())?)
}

/// What differs between the block that is due in a slot and one that a node gives for it.
fn block(alloc: Global, words: &str) -> Result<String, Stop> {
    let (due, given) = first_part(words, ": ");
    let (slot, altair) = slot_and_altair(alloc, due)?;
    let given = whole_block(alloc, given)?;
    check_words(alloc, check_block(slot, altair, &given))
}

/// Whether a member with this proof aggregates the votes of a committee of that many.
fn aggregator(alloc: Global, words: &str) -> Result<String, Stop> {
    match numbers_in(alloc, words)?.as_slice() {
        [proof, members] => {
            let aggregates = is_aggregator(&Sig([byte_of(*proof); 96]), *members);
            Ok(format!(in alloc; "{aggregates}")?)
        }
        _ => Err(Stop::Unread),
    }
}

/// Whether an answer fits its question.
fn fits(alloc: Global, words: &str) -> Result<String, Stop> {
    let (ask, answer) = first_part(words, ": ");
    let ask = ask_of(alloc, ask)?;
    let fits = answer_of(alloc, answer)?.fits(alloc, &ask)?;
    Ok(format!(in alloc; "{fits}")?)
}

/// The name of a cause, which is given by what a node did, or by the status that it answered.
fn cause(alloc: Global, words: &str) -> Result<String, Stop> {
    let cause = match words {
        "failed" => Cause::Fault,
        "answered something else" => Cause::Unreadable(Items::new(alloc)),
        "catching up" => Cause::Syncing,
        _ => match words.parse::<u16>() {
            Ok(status) => Cause::Status(status),
            Err(_) => return Err(Stop::Unread),
        },
    };
    Ok(cause.to_string(alloc)?)
}

/// Takes in what was told of a key.
fn tell(alloc: Global, watch: &mut Watch, words: &str) -> Result<(), Stop> {
    match numbers_in(alloc, words)?.as_slice() {
        [epoch, now] => {
            watch.answer(*epoch, words.contains("live"), (*now).min(MOMENT_LIMIT));
            Ok(())
        }
        _ => Err(Stop::Unread),
    }
}

/// How the watch of a key that becomes active at epoch 5 stands at epoch 20, after what was told, each after a bar.
fn watch(alloc: Global, told: &str) -> Result<String, Stop> {
    let mut watch = Watch::start(5);
    for words in told.split(" | ") {
        if words != "nothing" {
            tell(alloc, &mut watch, words)?;
        }
    }
    let state = watch.state(20);
    Ok(format!(in alloc; "{state:?}")?)
}
