//! One epoch of the watch: which of the keys that miss it were live in it.
ghost use Rattle.std.specs.Prelude.{◌≡◌, ◌≤◌, ℕ, List, Ok, Option};
ghost use Rattle.call_plans.specs.Paths.{Carries};
ghost use Rattle.desk_machine.specs.Machine.{moment_limit};
ghost use Rattle.desk_machine.specs.declared.call.DeskCall.TheVariants as call;
ghost use Rattle.node_fallback.specs.Seen.{Seen};
ghost use Rattle.duty_plans.specs.Seats.{Seat, nodes_seen};
ghost use Rattle.duty_turns.specs.Standing.{IsHeld, Standing};
ghost use Rattle.duty_turns.specs.Turns.{PartPlan, calls, epoch_plan, lived_plan, liveness_plan, noted, notes_plan};
ghost use Rattle.duty_turns.specs.TurnSteps.{Does, Fits, SinkSeen, sink_seen};
ghost use Rattle.duty_asks.specs.Quiet.{done_value};
ghost use Rattle.duty_work.specs.Houses.{house};
ghost use Rattle.duty_loop.specs.Noting.{IsNoted, NotedOn, NotedSo, noted_by};

use crate::keys::missing_keys;
use crate::notes::notes_of;
use desk_machine::{DeskCall, DeskCalls, DeskReply, KeyStanding};
use duty_asks::{Asked, Stop, ask_or_tell, indices_of};
use duty_turns::Held;
use edge_kit::{Items, PubKey, Sink};
use node_calls::{Answer, Ask, Node};
use node_fallback::Nodes;
use std::alloc::Global;

/// Asks for the liveness of the keys that miss an epoch, and notes what was answered.
pub(crate) fn watch_epoch<K: DeskCalls, N: Node + Drop, O: Sink>(
    alloc: Global,
    now: u64,
    epoch: u64,
    listed: &[(PubKey, KeyStanding)],
    held: &Held,
    desk: &mut K,
    nodes: &mut Nodes<N>,
    out: &mut O,
) -> Result<(), Stop>
    requires ready { K.ready desk.old }
    requires moment { now ≤ moment_limit }
    ensures ready { K.ready desk.new }
    ensures runs { (start : Option ℕ) (lanes : List (Seat K)) (s : Standing) → IsHeld held.now s → Carries Fits (Does K.leads start) (epoch_plan now listed.now epoch s)
        (house desk.old lanes (nodes_seen N.told N.faults nodes.old) (sink_seen O.held O.faults out.old))
        (house desk.new lanes (nodes_seen N.told N.faults nodes.new) (sink_seen O.held O.faults out.new)) (done_value s result) }
{
    let Ok(keys) = missing_keys(alloc, epoch, listed) else {
        return Err(Stop::OutOfMemory);
    };
    let missing = keys.as_slice();
    let Ok(indices) = indices_of(alloc, &held.indices, missing) else {
        return Err(Stop::OutOfMemory);
    };
    ask_live(alloc, now, epoch, missing, indices, held, desk, nodes, out)
}

/// The same of these keys, whose held indices these are.
fn ask_live<K: DeskCalls, N: Node + Drop, O: Sink>(
    alloc: Global,
    now: u64,
    epoch: u64,
    keys: &[PubKey],
    indices: Items<u64>,
    held: &Held,
    desk: &mut K,
    nodes: &mut Nodes<N>,
    out: &mut O,
) -> Result<(), Stop>
    requires ready { K.ready desk.old }
    requires moment { now ≤ moment_limit }
    ensures ready { K.ready desk.new }
    ensures runs { (start : Option ℕ) (lanes : List (Seat K)) (s : Standing) → IsHeld held.now s → Carries Fits (Does K.leads start) (liveness_plan epoch now keys.now indices s)
        (house desk.old lanes (nodes_seen N.told N.faults nodes.old) (sink_seen O.held O.faults out.old))
        (house desk.new lanes (nodes_seen N.told N.faults nodes.new) (sink_seen O.held O.faults out.new)) (done_value s result) }
{
    if indices.is_empty() {
        return Ok(());
    }
    let asked = ask_or_tell(
        alloc,
        held.slot,
        &Ask::Liveness { epoch, indices },
        nodes,
        out,
    );
    note_asked(alloc, now, epoch, keys, asked, held, desk)
}

/// Notes what came of the question, if anything.
fn note_asked<K: DeskCalls>(
    alloc: Global,
    now: u64,
    epoch: u64,
    keys: &[PubKey],
    asked: Asked,
    held: &Held,
    desk: &mut K,
) -> Result<(), Stop>
    requires ready { K.ready desk.old }
    requires moment { now ≤ moment_limit }
    ensures ready { K.ready desk.new }
    ensures runs { (start : Option ℕ) (lanes : List (Seat K)) (s : Standing) (nodes : List Seen) (out : SinkSeen) → IsHeld held.now s → NotedSo K.leads start (lived_plan epoch now keys.now s) s asked
        (house desk.old lanes nodes out) (house desk.new lanes nodes out) result }
{
    match asked {
        Asked::Given(answer) => note_answer(alloc, now, epoch, keys, answer, held, desk),
        Asked::Nothing => Ok(()),
        Asked::Stopped(stop) => Err(stop),
    }
}

/// Notes an answer.
fn note_answer<K: DeskCalls>(
    alloc: Global,
    now: u64,
    epoch: u64,
    keys: &[PubKey],
    answer: Answer,
    held: &Held,
    desk: &mut K,
) -> Result<(), Stop>
    requires ready { K.ready desk.old }
    requires moment { now ≤ moment_limit }
    ensures ready { K.ready desk.new }
    ensures runs { (start : Option ℕ) (lanes : List (Seat K)) (s : Standing) (nodes : List Seen) (out : SinkSeen) → IsHeld held.now s → Carries Fits (Does K.leads start) (lived_plan epoch now keys.now s (Ok answer))
        (house desk.old lanes nodes out) (house desk.new lanes nodes out) (done_value s result) }
{
    let Answer::Liveness(rows) = answer else {
        return Err(Stop::OutOfMemory);
    };
    let Ok(notes) = notes_of(alloc, &held.indices, keys, rows.as_slice()) else {
        return Err(Stop::OutOfMemory);
    };
    note_all(now, epoch, notes.as_slice(), desk)
}

/// Tells the desk of each key whether it was live in an epoch.
fn note_all<K: DeskCalls>(
    now: u64,
    epoch: u64,
    notes: &[(PubKey, bool)],
    desk: &mut K,
) -> Result<(), Stop>
    requires ready { K.ready desk.old }
    requires moment { now ≤ moment_limit }
    ensures ready { K.ready desk.new }
    ensures runs { (start : Option ℕ) (lanes : List (Seat K)) (s : Standing) (nodes : List Seen) (out : SinkSeen) → Carries Fits (Does K.leads start) (notes_plan epoch now notes.now s)
        (house desk.old lanes nodes out) (house desk.new lanes nodes out) (done_value s result) }
{
    'notes: for note in notes {
        match tell(now, epoch, note, desk) {
            Ok(()) => {}
            Err(stop) => return Err(stop),
        }
    }
    Ok(())
}

/// Tells the desk of one key.
fn tell<K: DeskCalls>(now: u64, epoch: u64, note: &(PubKey, bool), desk: &mut K) -> Result<(), Stop>
    requires ready { K.ready desk.old }
    requires moment { now ≤ moment_limit }
    ensures ready { K.ready desk.new }
    ensures noted { (start : Option ℕ) (lanes : List (Seat K)) (nodes : List Seen) (out : SinkSeen) (next : PartPlan) → NotedOn K.leads start (calls (call.Answer note.now.0 epoch note.now.1 now) (λ r. noted r next)) next
        (house desk.old lanes nodes out) (house desk.new lanes nodes out) result }
{
    let (key, live) = *note;
    let reply = desk.call(DeskCall::Answer {
        key,
        epoch,
        live,
        now,
    });
    noted_by(reply)
}

/// Whether memory ran out when the desk was told of a key. One that is not active any more is passed over.
fn noted_by(reply: DeskReply) -> Result<(), Stop>
    requires { IsNoted reply }
    ensures { result ≡ noted_by reply }
{
    match reply {
        DeskReply::Noted | DeskReply::Unknown | DeskReply::NotActive => Ok(()),
        DeskReply::OutOfMemory => Err(Stop::OutOfMemory),
        _ => unreachable!(),
    }
}
