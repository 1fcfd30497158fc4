//! How the votes of a slot are cast: nodes are asked what each committee is to vote, and each vote is cast on what a node said.
ghost use Rattle.std.specs.Prelude.{◌≡◌, ◌++◌, IfOk, OnOk, drop, map, position};
ghost use Rattle.std.specs.List.{list_any};
ghost use Rattle.duty_plans.specs.Choices.{next_place};
ghost use Rattle.duty_plans.specs.Messages.{vote_message};
ghost use Rattle.duty_plans.specs.Votes.{answer_by, answer_of, asks_for, data_tasks, end_by, is_own, vote_ends, vote_task, vote_tasks, with_question};

use crate::choices::next_place;
use crate::ended::{Aggregation, Ended, over};
use crate::result::DutyResult;
use crate::task::Task;
use duty_schedule::{Duty, check_data};
use node_calls::AttesterRow;
use phase0_types::AttestationData;
use sign_roots::Domains;
use slash_defs::Message;
use std::alloc::{AllocError, Global};

/// The questions for what the committees of these votes of one slot are to vote: one for each committee, that of its first
/// vote. A committee's question is looked for among those so far, of which a slot has 64 at most (consensus-specs,
/// `MAX_COMMITTEES_PER_SLOT`). The error is want of memory.
pub fn data_tasks(alloc: Global, votes: &[Duty]) -> Result<Vec<Task>, AllocError>
    ensures { IfOk result (λ tasks. tasks.items ≡ data_tasks votes.now) }
{
    let mut tasks = Vec::new(alloc);
    'votes: for duty in votes {
        keep_question(&mut tasks, duty)?;
    }
    Ok(tasks)
}

/// Keeps the question for what the committee of a vote is to vote, where it is not among these. The error is want of memory.
fn keep_question(tasks: &mut Vec<Task>, duty: &Duty) -> Result<(), AllocError>
    ensures { OnOk result (tasks.new.items ≡ with_question tasks.old.items duty.now) }
{
    let Duty::Vote(row) = duty else {
        return Ok(());
    };
    if !is_asked(tasks.as_slice(), row) {
        tasks.push(Task::Data(*row))?;
    }
    Ok(())
}

/// Whether the question for what the committee of this vote is to vote is among these.
fn is_asked(tasks: &[Task], row: &AttesterRow) -> bool
    ensures { result ≡ list_any (asks_for row.now) tasks.now }
{
    tasks.iter().any(|task| asks_for(row, task))
}

/// Whether this is the question for what the committee of that vote is to vote, where both are of one slot.
fn asks_for(row: &AttesterRow, task: &Task) -> bool
    ensures { result ≡ asks_for row.now task.now }
{
    match task {
        Task::Data(asked) => asked.committee_index == row.committee_index,
        Task::Fresh(_) | Task::Again(_, _) | Task::Vote(_, _) => false,
        Task::Choose(_, _) | Task::Aggregate(_, _, _) => false,
    }
}

/// The answers of these votes, whose questions ended so: of each the end of its committee's question, and `DataDiffers`
/// where a member of what a node said differs from what the vote's duty is to vote. The error is want of memory.
pub fn vote_answers(
    alloc: Global,
    votes: &[Duty],
    tasks: &[Task],
    ended: &[Ended],
) -> Result<Vec<Ended>, AllocError>
    ensures { IfOk result (λ answers. answers.items ≡ map (answer_of tasks.now ended.now) votes.now) }
{
    let mut answers = Vec::with_capacity(alloc, votes.len())?;
    'votes: for duty in votes {
        answers.push(answer_of(alloc, tasks, ended, duty)?)?;
    }
    Ok(answers)
}

/// How the question of its committee ended for a vote. The error is want of memory.
fn answer_of(
    alloc: Global,
    tasks: &[Task],
    ended: &[Ended],
    duty: &Duty,
) -> Result<Ended, AllocError>
    ensures { IfOk result (λ answer. answer ≡ answer_of tasks.now ended.now duty.now) }
{
    let Duty::Vote(row) = duty else {
        return Ok(over(DutyResult::NoData));
    };
    match place_of(tasks, row) {
        Some(at) => answer_at(alloc, row, ended, at),
        None => Ok(over(DutyResult::NoData)),
    }
}

/// The place of the question for what the committee of this vote is to vote.
fn place_of(tasks: &[Task], row: &AttesterRow) -> Option<usize>
    ensures { result ≡ position (asks_for row.now) tasks.now }
{
    tasks.iter().position(|task| asks_for(row, task))
}

/// How the question at this place ended for a vote. The error is want of memory.
fn answer_at(
    alloc: Global,
    row: &AttesterRow,
    ended: &[Ended],
    at: usize,
) -> Result<Ended, AllocError>
    ensures { IfOk result (λ answer. answer ≡ answer_by row.now (drop at ended.now)) }
{
    let Some(one) = ended.get(at) else {
        return Ok(over(DutyResult::NoData));
    };
    if is_own(row, &one.aggregation) {
        one.copy(alloc)
    } else {
        Ok(over(DutyResult::DataDiffers))
    }
}

/// Whether no member of what a node said, if one did, differs from what this vote's duty is to vote.
fn is_own(row: &AttesterRow, known: &Option<Aggregation>) -> bool
    ensures { result ≡ is_own row.now known.now }
{
    match known {
        Some(Aggregation::Voted(details)) => check_data(row, details).is_ok(),
        Some(Aggregation::Chosen(_, _)) | None => true,
    }
}

/// The votes for the data that nodes said, where the questions for it ended so for each. The error is want of memory.
pub fn vote_tasks(alloc: Global, votes: &[Duty], asked: &[Ended]) -> Result<Vec<Task>, AllocError>
    ensures { IfOk result (λ tasks. tasks.items ≡ vote_tasks votes.now asked.now) }
{
    let mut tasks = Vec::new(alloc);
    'votes: for (i, duty) in votes.iter().enumerate() {
        let Some(one) = asked.get(i) else {
            return Ok(tasks);
        };
        keep_vote(&mut tasks, duty, one)?;
    }
    Ok(tasks)
}

/// Keeps the vote of a duty, if a node said what to vote. The error is want of memory.
fn keep_vote(tasks: &mut Vec<Task>, duty: &Duty, one: &Ended) -> Result<(), AllocError>
    ensures { OnOk result (tasks.new.items ≡ tasks.old.items ++ vote_task duty.now one.now) }
{
    let Duty::Vote(row) = duty else {
        return Ok(());
    };
    if let Some(Aggregation::Voted(details)) = one.aggregation {
        tasks.push(Task::Vote(*row, details))?;
    }
    Ok(())
}

/// What is signed of a vote for this data. Takes no memory.
pub fn vote_message(domains: &Domains, details: &AttestationData) -> Message
    ensures { result ≡ vote_message domains.now details.now }
{
    Message::Vote {
        source: details.source.epoch,
        target: details.target.epoch,
        root: domains.attestation_root(details),
    }
}

/// How each vote ended whose question ended so, where those on which a node said what to vote were cast and ended so, in
/// this order. The error is want of memory.
pub fn vote_ends(alloc: Global, asked: &[Ended], cast: &[Ended]) -> Result<Vec<Ended>, AllocError>
    ensures { IfOk result (λ ends. ends.items ≡ vote_ends asked.now cast.now) }
{
    let mut ends = Vec::with_capacity(alloc, asked.len())?;
    let mut at = 0;
    'asked: for one in asked {
        ends.push(end_of(alloc, one, cast, at)?)?;
        at = next_place(one, at);
    }
    Ok(ends)
}

/// How a vote ended whose question ended so: as it was cast, whose end stands at this place, if it was.
fn end_of(alloc: Global, one: &Ended, cast: &[Ended], at: usize) -> Result<Ended, AllocError>
    ensures { IfOk result (λ e. e ≡ end_by one.now.aggregation one.now (drop at cast.now)) }
{
    if one.aggregation.is_none() {
        return one.copy(alloc);
    }
    match cast.get(at) {
        Some(last) => last.copy(alloc),
        None => one.copy(alloc),
    }
}
