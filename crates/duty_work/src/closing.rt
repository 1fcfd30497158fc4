//! A slot is closed: its lines are written, what is old is forgotten, and the desk is asked whether its disk failed.
ghost use Rattle.std.specs.Prelude.{◌≡◌, ℕ, List, Option};
ghost use Rattle.call_plans.specs.Paths.{Carries};
ghost use Rattle.node_fallback.specs.Seen.{Seen};
ghost use Rattle.desk_machine.specs.declared.call.DeskCall.TheVariants as call;
ghost use Rattle.duty_plans.specs.Ends.{results_of};
ghost use Rattle.duty_plans.specs.Seats.{Seat};
ghost use Rattle.duty_turns.specs.Standing.{Standing};
ghost use Rattle.duty_turns.specs.Turns.{calls, close_plan, failed_plan, finish_plan};
ghost use Rattle.duty_turns.specs.TurnSteps.{Does, Fits, SinkSeen, sink_seen};
ghost use Rattle.duty_work.specs.Houses.{IsFailed, end_by, house, next_value};

use crate::prune::prune_old;
use desk_machine::{DeskCall, DeskCalls, DeskReply};
use duty_asks::write_text;
use duty_plans::{DutyResult, DutySetup, Ended, results_of};
use duty_schedule::Duty;
use duty_turns::{DutyEnd, Held, duty_lines};
use edge_kit::Sink;
use std::alloc::Global;

/// Closes a slot whose duties ended so.
pub(crate) fn close_ended<K: DeskCalls, O: Sink>(
    alloc: Global,
    setup: &DutySetup,
    slot: u64,
    duties: &[Duty],
    ends: &[Ended],
    held: &Held,
    desk: &mut K,
    out: &mut O,
) -> Result<(), DutyEnd>
    requires ready { K.ready desk.old }
    ensures ready { K.ready desk.new }
    ensures runs { (start : Option ℕ) (lanes : List (Seat K)) (nodes : List Seen) (s : Standing) → held.now.active ≡ s.active → Carries Fits (Does K.leads start) (close_plan setup.now slot duties.now (results_of ends.now) s)
        (house desk.old lanes nodes (sink_seen O.held O.faults out.old)) (house desk.new lanes nodes (sink_seen O.held O.faults out.new)) (next_value s result) }
{
    let Ok(results) = results_of(alloc, ends) else {
        return Err(DutyEnd::OutOfMemory);
    };
    let results = results.as_slice();
    close(alloc, setup, slot, duties, results, held, desk, out)
}

/// Writes a line for each of these duties of a slot that has a result, and finishes the slot.
pub fn close<K: DeskCalls, O: Sink>(
    alloc: Global,
    setup: &DutySetup,
    slot: u64,
    duties: &[Duty],
    results: &[DutyResult],
    held: &Held,
    desk: &mut K,
    out: &mut O,
) -> Result<(), DutyEnd>
    requires ready { K.ready desk.old }
    ensures ready { K.ready desk.new }
    ensures runs { (start : Option ℕ) (lanes : List (Seat K)) (nodes : List Seen) (s : Standing) → held.now.active ≡ s.active → Carries Fits (Does K.leads start) (close_plan setup.now slot duties.now results.now s)
        (house desk.old lanes nodes (sink_seen O.held O.faults out.old)) (house desk.new lanes nodes (sink_seen O.held O.faults out.new)) (next_value s result) }
{
    let Ok(lines) = duty_lines(alloc, slot, duties, results) else {
        return Err(DutyEnd::OutOfMemory);
    };
    match write_text(out, lines.as_bytes()) {
        Ok(()) => {}
        Err(_) => return Err(DutyEnd::Write),
    }
    finish(alloc, setup, slot, held, desk)
}

/// Has what is old of the active keys forgotten whose turn it is in this slot, and asks the desk whether its disk failed.
pub(crate) fn finish<K: DeskCalls>(
    alloc: Global,
    setup: &DutySetup,
    slot: u64,
    held: &Held,
    desk: &mut K,
) -> Result<(), DutyEnd>
    requires ready { K.ready desk.old }
    ensures ready { K.ready desk.new }
    ensures runs { (start : Option ℕ) (lanes : List (Seat K)) (nodes : List Seen) (out : SinkSeen) (s : Standing) → held.now.active ≡ s.active → Carries Fits (Does K.leads start) (finish_plan setup.now slot s)
        (house desk.old lanes nodes out) (house desk.new lanes nodes out) (next_value s result) }
{
    let Ok(()) = prune_old(alloc, setup.keep_epochs, slot, held, desk) else {
        return Err(DutyEnd::OutOfMemory);
    };
    ask_failed(desk)
}

/// Asks the desk whether its disk failed, which ends the loop.
fn ask_failed<K: DeskCalls>(desk: &mut K) -> Result<(), DutyEnd>
    requires ready { K.ready desk.old }
    ensures ready { K.ready desk.new }
    ensures runs { (start : Option ℕ) (lanes : List (Seat K)) (nodes : List Seen) (out : SinkSeen) (s : Standing) → Carries Fits (Does K.leads start) (calls call.HasFailed (failed_plan s))
        (house desk.old lanes nodes out) (house desk.new lanes nodes out) (next_value s result) }
{
    let reply = desk.call(DeskCall::HasFailed);
    end_by(reply)
}

fn end_by(reply: DeskReply) -> Result<(), DutyEnd>
    requires { IsFailed reply }
    ensures { result ≡ end_by reply }
{
    match reply {
        DeskReply::HasFailed(true) => Err(DutyEnd::Disk),
        DeskReply::HasFailed(false) => Ok(()),
        _ => unreachable!(),
    }
}
