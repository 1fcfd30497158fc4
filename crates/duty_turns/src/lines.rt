//! What is printed of a turn.
ghost use Rattle.std.specs.Prelude.{◌≡◌, ◌++◌, IfOk, OnOk, string_bytes};
ghost use Rattle.duty_plans.specs.Tasks.{duty_of};
ghost use Rattle.duty_turns.specs.Lines.{aggregate_lines, duty_line, duty_lines, key_of, kind_word, line_of, none_line, report_line};

use duty_plans::{DutyResult, Task};
use duty_schedule::Duty;
use edge_kit::{PubKey, hex_text};
use std::alloc::{AllocError, Global};

/// A line for each of these duties of a slot that has a result: the slot, `block` or `vote`, the key, and how the
/// duty ended. The error is want of memory.
pub fn duty_lines(
    alloc: Global,
    slot: u64,
    duties: &[Duty],
    results: &[DutyResult],
) -> Result<String, AllocError>
    ensures { IfOk result (λ text. string_bytes text ≡ duty_lines slot duties.now results.now) }
{
    let mut text = String::new(alloc);
    'duties: for (i, duty) in duties.iter().enumerate() {
        let Some(ended) = results.get(i).copied() else {
            return Ok(text);
        };
        let line = duty_line(alloc, slot, duty, &ended)?;
        text.push_str(line.as_str())?;
    }
    Ok(text)
}

/// The line of a duty.
fn duty_line(
    alloc: Global,
    slot: u64,
    duty: &Duty,
    ended: &DutyResult,
) -> Result<String, AllocError>
    ensures { IfOk result (λ text. string_bytes text ≡ duty_line slot duty.now ended.now) }
{
    line_of(alloc, slot, kind_word(duty), key_of(duty), ended)
}

/// The line of what was done for a key.
fn line_of(
    alloc: Global,
    slot: u64,
    kind: &str,
    key: PubKey,
    ended: &DutyResult,
) -> Result<String, AllocError>
    ensures { IfOk result (λ text. string_bytes text ≡ line_of slot kind.now key ended.now) }
{
    let key = hex_text(alloc, &key.0)?;
    let key = key.as_str();
    format!(in alloc; "{slot} {kind} {key} {ended}\n")
}

fn kind_word(duty: &Duty) -> &'static str
    ensures { result.now ≡ kind_word duty.now }
{
    match duty {
        Duty::Block(_) => "block",
        Duty::Vote(_) => "vote",
    }
}

fn key_of(duty: &Duty) -> PubKey
    ensures { result ≡ key_of duty.now }
{
    match duty {
        Duty::Block(row) => row.pubkey,
        Duty::Vote(row) => row.pubkey,
    }
}

/// A line for each of these choices of aggregators of a slot that has something to report: the slot, `aggregate`, the key, and
/// how the aggregate ended. The error is want of memory.
pub fn aggregate_lines(
    alloc: Global,
    slot: u64,
    choices: &[Task],
    reports: &[Option<DutyResult>],
) -> Result<String, AllocError>
    ensures { IfOk result (λ text. string_bytes text ≡ aggregate_lines slot choices.now reports.now) }
{
    let mut text = String::new(alloc);
    'choices: for (i, choice) in choices.iter().enumerate() {
        let Some(report) = reports.get(i).copied() else {
            return Ok(text);
        };
        let line = report_line(alloc, slot, choice, report)?;
        text.push_str(line.as_str())?;
    }
    Ok(text)
}

/// The line of a choice, or nothing.
fn report_line(
    alloc: Global,
    slot: u64,
    choice: &Task,
    report: Option<DutyResult>,
) -> Result<String, AllocError>
    ensures { IfOk result (λ text. string_bytes text ≡ report_line slot choice.now report) }
{
    match report {
        Some(ended) => line_of(alloc, slot, "aggregate", owner_of(choice), &ended),
        None => Ok(String::new(alloc)),
    }
}

/// Whose task it is.
fn owner_of(task: &Task) -> PubKey
    ensures { result ≡ key_of (duty_of task.now) }
{
    match task {
        Task::Fresh(duty) | Task::Again(duty, _) => key_of(duty),
        Task::Data(row) | Task::Vote(row, _) => row.pubkey,
        Task::Choose(row, _) | Task::Aggregate(row, _, _) => row.pubkey,
    }
}

/// The line that says that no node gave what was asked for in a slot. The error is want of memory.
pub fn none_line(alloc: Global, slot: u64) -> Result<String, AllocError>
    ensures { IfOk result (λ text. string_bytes text ≡ none_line slot) }
{
    format!(in alloc; "{slot} nodes none\n")
}
