//! What is done of duties: all of each, or what was granted and not sent once more.
ghost use Rattle.std.specs.Prelude.{◌≡◌, ◌++◌, IfOk, OnOk};
ghost use Rattle.duty_plans.specs.Tasks.{again_of, again_tasks, fresh};

use crate::ended::{Ended, Unsent};
use duty_schedule::Duty;
use edge_kit::Sig;
use node_calls::AttesterRow;
use phase0_types::AttestationData;
use std::alloc::{AllocError, Global};

/// What is done of a duty.
#[derive(Drop)]
pub enum Task {
    /// All of it.
    Fresh(Duty),
    /// What was granted for it and not sent, once more.
    Again(Duty, Unsent),
    /// What the committee of this validator is to vote.
    Data(AttesterRow),
    /// The vote of this validator for this data.
    Vote(AttesterRow, AttestationData),
    /// Whether the validator of this vote aggregates the votes of its committee, which are for this data.
    Choose(AttesterRow, AttestationData),
    /// The aggregate of the votes for this data, by a validator that this proof chooses.
    Aggregate(AttesterRow, AttestationData, Sig),
}

impl Task {
    /// The same again. The error is want of memory, which only a block takes.
    pub fn copy(&self, alloc: Global) -> Result<Task, AllocError>
        ensures { IfOk result (λ copy. copy ≡ self.now) }
    {
        match self {
            Task::Fresh(duty) => Ok(Task::Fresh(*duty)),
            Task::Again(duty, unsent) => Ok(Task::Again(*duty, unsent.copy(alloc)?)),
            Task::Data(row) => Ok(Task::Data(*row)),
            Task::Vote(row, details) => Ok(Task::Vote(*row, *details)),
            Task::Choose(row, details) => Ok(Task::Choose(*row, *details)),
            Task::Aggregate(row, details, proof) => Ok(Task::Aggregate(*row, *details, *proof)),
        }
    }
}

/// All of each of these duties. The error is want of memory.
pub fn fresh(alloc: Global, duties: &[Duty]) -> Result<Vec<Task>, AllocError>
    ensures { IfOk result (λ tasks. tasks.items ≡ fresh duties.now) }
{
    duties.iter().map(|duty| Task::Fresh(*duty)).collect(alloc)
}

/// What was granted for these duties, which ended so, and not sent, where another try may send it. The error is want of
/// memory.
pub fn again_tasks(alloc: Global, duties: &[Duty], ended: &[Ended]) -> Result<Vec<Task>, AllocError>
    ensures { IfOk result (λ tasks. tasks.items ≡ again_tasks duties.now ended.now) }
{
    let mut tasks = Vec::new(alloc);
    'duties: for (i, duty) in duties.iter().enumerate() {
        let Some(one) = ended.get(i) else {
            return Ok(tasks);
        };
        keep_again(alloc, &mut tasks, duty, one)?;
    }
    Ok(tasks)
}

/// Keeps what was granted for a duty and not sent, if there is something. The error is want of memory.
fn keep_again(
    alloc: Global,
    tasks: &mut Vec<Task>,
    duty: &Duty,
    one: &Ended,
) -> Result<(), AllocError>
    ensures { OnOk result (tasks.new.items ≡ tasks.old.items ++ again_of duty.now one.now) }
{
    if let Some(unsent) = &one.unsent {
        tasks.push(Task::Again(*duty, unsent.copy(alloc)?))?;
    }
    Ok(())
}
