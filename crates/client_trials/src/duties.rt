//! The duties of one slot.
use crate::answers::{FORK, attester, proposer};
use crate::lanes::MemLane;
use crate::words::{epoch_in, number_in, numbers_in};
use duty_plans::DutySetup;
use duty_schedule::Duty;
use duty_workers::{Ended, Task, run_slot};
use edge_kit::Root;
use sign_roots::Domains;
use std::alloc::{AllocError, Global};

/// What the duties share, where blocks are Altair's from this epoch on, or never.
fn setup_at(altair: Option<u64>) -> DutySetup {
    DutySetup {
        genesis: Root([0; 32]),
        genesis_time: 0,
        fork: FORK,
        altair,
        watch: false,
        aggregate: false,
        slots: 1,
        keep_epochs: None,
    }
}

/// Casts three votes of a slot.
fn vote(
    alloc: Global,
    lane: &mut MemLane,
    slot: u64,
    keys: [u64; 3],
) -> Result<Vec<Ended>, AllocError> {
    let setup = setup_at(None);
    run_slot(
        alloc,
        &setup,
        &Domains::new(FORK, setup.genesis),
        slot,
        1,
        &[
            Task::Fresh(Duty::Vote(attester(keys[0], slot, 2))),
            Task::Fresh(Duty::Vote(attester(keys[1], slot, 2))),
            Task::Fresh(Duty::Vote(attester(keys[2], slot, 2))),
        ],
        &mut lane.desk,
        &mut lane.signer,
        &mut lane.nodes,
    )
}

/// Proposes three blocks of a slot.
fn propose(
    alloc: Global,
    lane: &mut MemLane,
    altair: Option<u64>,
    slot: u64,
    keys: [u64; 3],
) -> Result<Vec<Ended>, AllocError> {
    let setup = setup_at(altair);
    run_slot(
        alloc,
        &setup,
        &Domains::new(FORK, setup.genesis),
        slot,
        1,
        &[
            Task::Fresh(Duty::Block(proposer(keys[0], slot))),
            Task::Fresh(Duty::Block(proposer(keys[1], slot))),
            Task::Fresh(Duty::Block(proposer(keys[2], slot))),
        ],
        &mut lane.desk,
        &mut lane.signer,
        &mut lane.nodes,
    )
}

fn write_results(text: &mut String, ends: &[Ended]) -> Option<()> {
    for end in ends {
        writeln!(text, "{}", end.result).ok()?;
    }
    Some(())
}

/// `vote slot=N keys=K,K,K` or `propose slot=N keys=K,K,K`, maybe with `altair=EPOCH`: three duties of a slot in epoch 1, one
/// after another.
pub fn do_duties(
    alloc: Global,
    text: &mut String,
    lane: &mut MemLane,
    are_blocks: bool,
    rest: &str,
) -> Option<()> {
    let slot = number_in(rest, "slot")?;
    let numbers = numbers_in(alloc, rest, "keys")?;
    let [first, second, third] = *numbers.as_slice() else {
        return None;
    };
    let keys = [first, second, third];
    let ends = if are_blocks {
        let altair = epoch_in(alloc, rest, "altair")?;
        propose(alloc, lane, altair, slot, keys).ok()?
    } else {
        vote(alloc, lane, slot, keys).ok()?
    };
    write_results(text, ends.as_slice())
}
