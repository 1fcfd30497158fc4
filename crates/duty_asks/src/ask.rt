//! A question to the nodes, and the line where none answers.
ghost use Rattle.std.specs.Prelude.{◌≡◌, List, Result, Some};
ghost use Rattle.call_plans.specs.Paths.{Carries};
ghost use Rattle.call_plans.specs.Plans.{Done};
ghost use Rattle.node_calls.specs.declared.answer.Answer.{Answer};
ghost use Rattle.node_fallback.specs.Seen.{Seen};
ghost use Rattle.node_fallback.specs.declared.no_node.NoAnswer.{NoAnswer};
ghost use Rattle.duty_plans.specs.Hands.{Free, MayAsk};
ghost use Rattle.duty_plans.specs.Seats.{nodes_seen};
ghost use Rattle.duty_turns.specs.Lines.{none_line};
ghost use Rattle.duty_turns.specs.Standing.{Standing};
ghost use Rattle.duty_turns.specs.Turns.{PartPlan, writes};
ghost use Rattle.duty_turns.specs.TurnSteps.{Fits, sink_seen};
ghost use Rattle.duty_asks.specs.Quiet.{CameSo, QuietDoes, TellsNone, WritesText, done_value, outside};

use duty_turns::none_line;
use edge_kit::{Failed, Sink};
use node_calls::{Answer, Ask, Node};
use node_fallback::{NoAnswer, Nodes};
use program_end::write_all;
use std::alloc::Global;

/// Why a part of a turn goes no further.
#[derive(Clone, Copy, PartialEq, Eq, Debug)]
pub enum Stop {
    /// The output failed; its count of faults rose.
    Write,
    /// Memory ran out.
    OutOfMemory,
}

/// What came of a question.
#[derive(Drop)]
pub enum Asked {
    /// The first answer, in the order of the nodes.
    Given(Answer),
    /// No node gave one, and a line says so.
    Nothing,
    /// The turn goes no further.
    Stopped(Stop),
}

/// Asks the nodes. Where none of them gives an answer, a line of the slot says so.
pub fn ask_or_tell<N: Node + Drop, O: Sink>(
    alloc: Global,
    slot: u64,
    ask: &Ask,
    nodes: &mut Nodes<N>,
    out: &mut O,
) -> Asked
    requires { MayAsk Free ask.now }
    ensures { (next_by : Result Answer NoAnswer → PartPlan) (s : Standing) → s.slot ≡ slot → TellsNone next_by s → CameSo ask.now next_by s
        (outside (nodes_seen N.told N.faults nodes.old) (sink_seen O.held O.faults out.old))
        (outside (nodes_seen N.told N.faults nodes.new) (sink_seen O.held O.faults out.new)) result }
{
    match nodes.ask(ask) {
        Ok(answer) => Asked::Given(answer),
        Err(NoAnswer::NoNode(_)) => match tell_none(alloc, slot, out) {
            Ok(()) => Asked::Nothing,
            Err(stop) => Asked::Stopped(stop),
        },
        Err(NoAnswer::OutOfMemory) => Asked::Stopped(Stop::OutOfMemory),
    }
}

/// Says that no node gave an answer.
fn tell_none<O: Sink>(alloc: Global, slot: u64, out: &mut O) -> Result<(), Stop>
    ensures { (s : Standing) → s.slot ≡ slot → (ns : List Seen) → Carries Fits QuietDoes (writes (none_line s.slot) (Done (Some s)))
        (outside ns (sink_seen O.held O.faults out.old)) (outside ns (sink_seen O.held O.faults out.new)) (done_value s result) }
{
    let Ok(line) = none_line(alloc, slot) else {
        return Err(Stop::OutOfMemory);
    };
    write_text(out, line.as_bytes())
}

/// Writes a text. The error is `Stop::Write`, only where the output's count of faults rose.
pub fn write_text<O: Sink>(out: &mut O, text: &[u8]) -> Result<(), Stop>
    ensures { WritesText (sink_seen O.held O.faults out.old) (sink_seen O.held O.faults out.new) text.now result }
{
    match write_all(out, text) {
        Ok(()) => Ok(()),
        Err(Failed) => Err(Stop::Write),
    }
}
