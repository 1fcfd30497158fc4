//! What follows of votes where aggregators are chosen among their validators, and what is reported of it.
ghost use Rattle.std.specs.Prelude.{◌≡◌, ◌<◌, ◌++◌, IfOk, OnOk, drop};
ghost use Rattle.duty_plans.specs.Choices.{aggregate_of, aggregate_tasks, choice_of, choose_tasks, next_place, report_of, reports};

use crate::ended::{Aggregation, Ended};
use crate::result::DutyResult;
use crate::task::Task;
use duty_schedule::Duty;
use std::alloc::{AllocError, Global};

/// The choices of the aggregators among the validators of these votes, which ended so: of each of which a node said what its
/// committee is to vote. The error is want of memory.
pub fn choose_tasks(
    alloc: Global,
    duties: &[Duty],
    ended: &[Ended],
) -> Result<Vec<Task>, AllocError>
    ensures { IfOk result (λ tasks. tasks.items ≡ choose_tasks duties.now ended.now) }
{
    let mut tasks = Vec::new(alloc);
    'duties: for (i, duty) in duties.iter().enumerate() {
        let Some(one) = ended.get(i) else {
            return Ok(tasks);
        };
        keep_choice(&mut tasks, duty, one)?;
    }
    Ok(tasks)
}

/// Keeps the choice of a duty, if it has one. The error is want of memory.
fn keep_choice(tasks: &mut Vec<Task>, duty: &Duty, one: &Ended) -> Result<(), AllocError>
    ensures { OnOk result (tasks.new.items ≡ tasks.old.items ++ choice_of duty.now one.now) }
{
    let Duty::Vote(row) = duty else {
        return Ok(());
    };
    if let Some(Aggregation::Voted(details)) = one.aggregation {
        tasks.push(Task::Choose(*row, details))?;
    }
    Ok(())
}

/// The aggregates of the validators that these choices, which ended so, have chosen. The error is want of memory.
pub fn aggregate_tasks(
    alloc: Global,
    choices: &[Task],
    ended: &[Ended],
) -> Result<Vec<Task>, AllocError>
    ensures { IfOk result (λ tasks. tasks.items ≡ aggregate_tasks choices.now ended.now) }
{
    let mut tasks = Vec::new(alloc);
    'choices: for (i, choice) in choices.iter().enumerate() {
        let Some(one) = ended.get(i) else {
            return Ok(tasks);
        };
        keep_aggregate(&mut tasks, choice, one)?;
    }
    Ok(tasks)
}

/// Keeps the aggregate of a choice, if it has one. The error is want of memory.
fn keep_aggregate(tasks: &mut Vec<Task>, choice: &Task, one: &Ended) -> Result<(), AllocError>
    ensures { OnOk result (tasks.new.items ≡ tasks.old.items ++ aggregate_of choice.now one.now) }
{
    let Task::Choose(row, _) = choice else {
        return Ok(());
    };
    if let Some(Aggregation::Chosen(details, proof)) = one.aggregation {
        tasks.push(Task::Aggregate(*row, details, proof))?;
    }
    Ok(())
}

/// What is reported of each of these choices, where the aggregates of those that are chosen ended so, in their order, or were
/// not begun: how the aggregate ended, or that the choice failed. The error is want of memory.
pub fn reports(
    alloc: Global,
    choices: &[Ended],
    aggregates: &[Ended],
) -> Result<Vec<Option<DutyResult>>, AllocError>
    ensures { IfOk result (λ found. found.items ≡ reports choices.now aggregates.now) }
{
    let mut found = Vec::with_capacity(alloc, choices.len())?;
    let mut at = 0;
    'choices: for one in choices {
        found.push(report_of(one, aggregates, at))?;
        at = next_place(one, at);
    }
    Ok(found)
}

/// What is reported of a choice, where the end of its aggregate stands at this place, if it has one.
fn report_of(one: &Ended, aggregates: &[Ended], at: usize) -> Option<DutyResult>
    ensures { result ≡ report_of one.now (drop at aggregates.now) }
{
    if one.aggregation.is_some() {
        return aggregates.get(at).map(|last| last.result);
    }
    match one.result {
        DutyResult::Sent => None,
        failed => Some(failed),
    }
}

/// The place after it, if it is chosen.
pub(crate) fn next_place(one: &Ended, at: usize) -> usize
    requires { at < 18446744073709551615 }
    ensures { result ≡ next_place one.now at }
{
    if one.aggregation.is_some() {
        at + 1
    } else {
        at
    }
}
