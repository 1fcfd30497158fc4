//! A rehearsal.
ghost use Rattle.std.specs.Prelude.{◌≡◌, ◌++◌, ℕ, IfOk, OnOk, string_bytes};
ghost use Rattle.edge_kit.specs.Causes.{Rose};
ghost use Rattle.command_line.specs.declared.rehearsal_size.RehearsalSize.{RehearsalSize};
ghost use Rattle.journal_commands.specs.Views.{output_of};
ghost use Rattle.validator_cli.specs.Rehearsing.{IsRehearsalComplete, IsRehearse, RehearsalEnds, count_line, counts_text};

use command_line::Plan;
use edge_kit::Sink;
use program_end::{Status, finish};
use rehearsal::{Counts, rehearse};
use std::alloc::{AllocError, Global};

/// Does what a rehearsal's plan says: plays it, and writes what is counted in it, a line each: `steps`, `granted`,
/// `refused`, `handovers`, `stops`, and `unsafe`, the slashable pairs among the messages that were sent, which are
/// none.
///
/// The status is `Done`; `WriteFault` where the output failed; and `OutOfMemory` where memory was wanted, and nothing
/// is written then.
pub fn run_rehearse<O: Sink>(alloc: Global, plan: &Plan, out: &mut O) -> Status
    requires { IsRehearse plan.now }
    ensures ends { (number : ℕ) (size : RehearsalSize) → plan.now ≡ Plan.Rehearse number size
        → RehearsalEnds number size.clients size.steps (output_of O.held O.faults out.old) (output_of O.held O.faults out.new) result }
    ensures write_fault { result ≡ Status.WriteFault → Rose (O.faults out.old) (O.faults out.new) }
    ensures complete { ¬ (Rose (O.faults out.old) (O.faults out.new)) → IsRehearsalComplete result }
{
    let Plan::Rehearse { number, size } = plan else {
        unreachable!()
    };
    let Ok(counts) = rehearse(alloc, *number, size.clients(), size.steps()) else {
        return Status::OutOfMemory;
    };
    let Ok(text) = text_of(alloc, &counts) else {
        return Status::OutOfMemory;
    };
    finish(out, text.as_str())
}

/// What is written of counts: the line of each.
fn text_of(alloc: Global, counts: &Counts) -> Result<String, AllocError>
    ensures { IfOk result (λ text. string_bytes text ≡ counts_text counts.now) }
{
    let mut text = String::new(alloc);
    push_count(alloc, &mut text, "steps", counts.steps)?;
    push_count(alloc, &mut text, "granted", counts.granted)?;
    push_count(alloc, &mut text, "refused", counts.refused)?;
    push_count(alloc, &mut text, "handovers", counts.handovers)?;
    push_count(alloc, &mut text, "stops", counts.stops)?;
    push_count(alloc, &mut text, "unsafe", counts.conflicts)?;
    Ok(text)
}

/// Adds the line of a count.
fn push_count(alloc: Global, text: &mut String, word: &str, count: u64) -> Result<(), AllocError>
    ensures { OnOk result (string_bytes text.new ≡ string_bytes text.old ++ count_line word.now count) }
{
    let line = format!(in alloc; "{word} {count}\n")?;
    text.push_str(line.as_str())
}
