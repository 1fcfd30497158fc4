//! What an answer makes of what is held.
ghost use Rattle.std.specs.Prelude.{◌≡◌, ◌⊎◌, true, Err, OnOk, OnErr};
ghost use Rattle.duty_turns.specs.Standing.{Standing, with_attesters, with_fork, with_indices, with_proposers, with_rows};
ghost use Rattle.duty_turns.specs.Turns.{to_renew};
ghost use Rattle.duty_asks.specs.Placed.{HoldsPlaced};
ghost use Rattle.duty_asks.specs.Quiet.{CameFit, Took};
ghost use Rattle.node_calls.specs.Fitting.{fits};
ghost use Rattle.node_calls.specs.declared.ask.Ask.TheVariants as question;

use crate::ask::{Asked, Stop};
use duty_schedule::DutyRows;
use duty_turns::Held;
use edge_kit::{Items, PubKey};
use node_calls::{Answer, ValidatorRow};
use std::alloc::{AllocError, Global};
use std::collections::BTreeMap;

/// Takes the fork. Where no node answered, it is asked for once more at the next turn.
pub(crate) fn take_fork(held: &mut Held, asked: Asked) -> Result<(), Stop>
    ensures { (s : Standing) → HoldsPlaced held.old s → Took with_fork (to_renew s) s (HoldsPlaced held.new) asked result }
{
    match asked {
        Asked::Given(answer) => {
            set_fork(held, answer);
            Ok(())
        }
        Asked::Nothing => {
            held.renewed = None;
            Ok(())
        }
        Asked::Stopped(stop) => Err(stop),
    }
}

fn set_fork(held: &mut Held, answer: Answer)
    ensures { (s : Standing) → HoldsPlaced held.old s → HoldsPlaced held.new (with_fork answer s) }
{
    let Answer::Fork(fork) = answer else {
        return;
    };
    held.fork = fork;
}

/// Takes the indices of keys. Where no node answered, all are asked for once more at the next turn. Memory may run out
/// meanwhile.
pub(crate) fn take_indices(held: &mut Held, asked: Asked) -> Result<(), Stop>
    ensures { (s : Standing) → HoldsPlaced held.old s → (result ≡ Err Stop.OutOfMemory) ⊎ Took with_indices (to_renew s) s (HoldsPlaced held.new) asked result }
{
    match asked {
        Asked::Given(answer) => set_indices(held, answer),
        Asked::Nothing => {
            held.renewed = None;
            Ok(())
        }
        Asked::Stopped(stop) => Err(stop),
    }
}

fn set_indices(held: &mut Held, answer: Answer) -> Result<(), Stop>
    ensures set { OnOk result ((s : Standing) → HoldsPlaced held.old s → HoldsPlaced held.new (with_indices answer s)) }
    ensures memory { OnErr result (result ≡ Err Stop.OutOfMemory) }
{
    let Answer::Validators(rows) = answer else {
        return Ok(());
    };
    match insert_rows(&mut held.indices, rows.as_slice()) {
        Ok(()) => Ok(()),
        Err(AllocError) => Err(Stop::OutOfMemory),
    }
}

/// Takes rows in, a later one of a key in place of an earlier one.
fn insert_rows(indices: &mut BTreeMap<PubKey, u64>, rows: &[ValidatorRow]) -> Result<(), AllocError>
    ensures { OnOk result (indices.new.entries ≡ with_rows rows.now indices.old.entries) }
{
    'rows: for row in rows {
        if indices.insert(row.pubkey, row.index).is_err() {
            return Err(AllocError);
        }
    }
    Ok(())
}

/// Takes who proposes in an epoch.
pub(crate) fn take_proposers(
    alloc: Global,
    held: &mut Held,
    epoch: u64,
    asked: Asked,
) -> Result<(), Stop>
    ensures { (s : Standing) → HoldsPlaced held.old s → Took (with_proposers epoch) s s (HoldsPlaced held.new) asked result }
{
    match asked {
        Asked::Given(answer) => {
            set_proposers(alloc, held, epoch, answer);
            Ok(())
        }
        Asked::Nothing => Ok(()),
        Asked::Stopped(stop) => Err(stop),
    }
}

fn set_proposers(alloc: Global, held: &mut Held, epoch: u64, answer: Answer)
    ensures { (s : Standing) → HoldsPlaced held.old s → HoldsPlaced held.new (with_proposers epoch answer s) }
{
    let Answer::Proposer {
        dependent_root,
        rows,
    } = answer
    else {
        return;
    };
    let rows = DutyRows::Proposer(rows);
    let none = Items::new(alloc);
    let _ = held.schedule.take_answer(epoch, none, dependent_root, rows);
}

/// Takes who votes where in an epoch, of those with these indices.
pub(crate) fn take_attesters(
    held: &mut Held,
    epoch: u64,
    indices: Items<u64>,
    asked: Asked,
) -> Result<(), Stop>
    ensures { (s : Standing) → HoldsPlaced held.old s → CameFit (question.Attester epoch indices) asked → Took (with_attesters epoch indices) s s (HoldsPlaced held.new) asked result }
{
    match asked {
        Asked::Given(answer) => {
            set_attesters(held, epoch, indices, answer);
            Ok(())
        }
        Asked::Nothing => Ok(()),
        Asked::Stopped(stop) => Err(stop),
    }
}

fn set_attesters(held: &mut Held, epoch: u64, indices: Items<u64>, answer: Answer)
    ensures { (s : Standing) → HoldsPlaced held.old s → fits (question.Attester epoch indices) answer ≡ true → HoldsPlaced held.new (with_attesters epoch indices answer s) }
{
    let Answer::Attester {
        dependent_root,
        rows,
    } = answer
    else {
        return;
    };
    let rows = DutyRows::Attester(rows);
    let _ = held
        .schedule
        .take_answer(epoch, indices, dependent_root, rows);
}
