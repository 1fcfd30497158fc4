//! The top call.
ghost use Rattle.std.specs.Prelude.{◌≡◌, ◌⊎◌, ◌≤◌, ℕ, List, [], map, string_bytes};
ghost use Rattle.edge_kit.specs.Causes.{Rose};
ghost use Rattle.record_journal.specs.TwoDisks.{EitherRose};
ghost use Rattle.keymanager_api.specs.Doors.{link_seen};
ghost use Rattle.command_line.specs.Plans.{asked_of, nothing};
ghost use Rattle.journal_commands.specs.Views.{Unwritten, output_of};
ghost use Rattle.validator_cli.specs.Endings.{Causes, IsOther, NoCommand, RunEnds, outside_of};
ghost use Rattle.validator_cli.specs.Runs.{ProgramRuns};
ghost use Rattle.validator_cli.specs.Views.{came_back, disk_view, door_view, handed_in, node_view, signer_view, sink_view, source_view, views};

use crate::ending::Ending;
use crate::rehearse::run_rehearse;
use crate::server::{is_server, run_server};
use crate::session::run_session;
use crate::usage::usage_line;
use check_sign::Events;
use command_line::{Plan, Usage, plan};
use edge_clock::Clock;
use edge_kit::{Disk, Disks, Door, Sink, Source};
use journal_commands::{run_merge, run_show};
use node_calls::Node;
use program_end::{ClosingLine, Status, close, finish};
use signer_link::Signer;
use std::alloc::{AllocError, Global};
use std::sync::Wait;
use std::thread::Threads;

/// Does what the words say, over whatever stands for the outside: the two disks of a journal, a signing service, beacon nodes,
/// a clock, a door, an input and an output.
///
/// What came of it is said by what the words ask for (`ProgramRuns`): of the validator client by `ServeRuns`, of the signing
/// proxy by `ProxyRuns`, and of all else by `CommandRuns`. Objects that a command does not use come back as they were.
///
/// The status is `Usage` only where the words are no command, and then only a fault of the output or want of memory comes in
/// its place. `ReadFault`, `WriteFault`, `DiskFault` and `DoorFault` come only where the count of faults of the input, of the
/// output, of one of the disks, or of the door rose. `OutOfMemory` comes where memory was wanted; what was done before then
/// stands.
pub fn run_validator<
    T: Threads + Wait + Sync,
    D: Disk + Send,
    S: Signer + Send + Drop,
    N: Node + Drop + Send,
    C: Clock + Drop,
    R: Door + Send,
    I: Source,
    O: Sink + Send,
>(
    rt: &T,
    alloc: Global,
    words: &[String],
    disks: Disks<D>,
    signer: S,
    nodes: Vec<N>,
    clock: C,
    door: R,
    input: &mut I,
    out: &mut O,
) -> Ending<D, S, N, R>
where
    R::Conn: Send + Drop,
    ensures runs { ProgramRuns (views (disk_view D.shows D.moment D.leaves D.faults) (signer_view S.told S.faults S.denials) (node_view N.told N.faults)
        (door_view R.coming R.finished R.lent R.faults (link_seen R.Conn.left R.Conn.held R.Conn.faults)) (source_view I.left I.faults) (sink_view O.held O.faults))
        (handed_in disks signer nodes door input.old out.old (C.start clock)) (came_back result input.new out.new) (asked_of (map string_bytes words.now)) }
    ensures usage { result.status ≡ Status.Usage → asked_of (map string_bytes words.now) ≡ nothing }
    ensures no_command { asked_of (map string_bytes words.now) ≡ nothing
        → (result.status ≡ Status.Usage) ⊎ (result.status ≡ Status.WriteFault) ⊎ (result.status ≡ Status.OutOfMemory) }
{
    match is_server(alloc, words) {
        Ok(Some(plan)) => run_server(rt, alloc, &plan, disks, signer, nodes, &clock, door, out),
        Ok(None) => run_other(alloc, words, disks, signer, nodes, door, input, out),
        Err(AllocError) => unbegun(alloc, disks, signer, nodes, door),
    }
}

/// Nothing was begun, since memory ran out.
fn unbegun<D, S, N, R>(
    alloc: Global,
    disks: Disks<D>,
    signer: S,
    nodes: Vec<N>,
    door: R,
) -> Ending<D, S, N, R>
    ensures status { result.status ≡ Status.OutOfMemory }
    ensures disks { result.disks ≡ disks }
    ensures signer { result.signer ≡ signer }
    ensures nodes { result.nodes ≡ nodes }
    ensures door { result.door ≡ door }
    ensures lanes { result.lanes.items ≡ [] }
    ensures signers { result.signers.items ≡ [] }
    ensures events { result.events.items ≡ [] }
{
    Ending {
        status: Status::OutOfMemory,
        disks,
        signer,
        nodes,
        door,
        lanes: Vec::new(alloc),
        signers: Vec::new(alloc),
        events: Events::new(),
    }
}

/// Does what words say that ask for something else than a server.
fn run_other<D: Disk, S: Signer, N, R, I: Source, O: Sink>(
    alloc: Global,
    words: &[String],
    disks: Disks<D>,
    signer: S,
    nodes: Vec<N>,
    door: R,
    input: &mut I,
    out: &mut O,
) -> Ending<D, S, N, R>
    requires { IsOther (asked_of (map string_bytes words.now)) }
    ensures ending { RunEnds D.shows D.moment D.leaves D.faults (asked_of (map string_bytes words.now)) disks result.disks
        (outside_of I.left I.faults O.held O.faults S.told S.faults S.denials input.old out.old signer) (outside_of I.left I.faults O.held O.faults S.told S.faults S.denials input.new out.new result.signer) result.events.items result.status }
    ensures causes { Causes (asked_of (map string_bytes words.now)) (I.left input.old)
        (Rose (I.faults input.old) (I.faults input.new)) (Rose (O.faults out.old) (O.faults out.new)) (EitherRose D.faults disks result.disks) result.status }
    ensures nodes { result.nodes ≡ nodes }
    ensures door { result.door ≡ door }
    ensures lanes { result.lanes.items ≡ [] }
    ensures signers { result.signers.items ≡ [] }
{
    let (status, disks, signer, events) = run_words(alloc, words, disks, signer, input, out);
    Ending {
        status,
        disks,
        signer,
        nodes,
        door,
        lanes: Vec::new(alloc),
        signers: Vec::new(alloc),
        events,
    }
}

/// Does what these words say.
fn run_words<D: Disk, S: Signer, I: Source, O: Sink>(
    alloc: Global,
    words: &[String],
    disks: Disks<D>,
    signer: S,
    input: &mut I,
    out: &mut O,
) -> (Status, Disks<D>, S, Events)
    requires { IsOther (asked_of (map string_bytes words.now)) }
    ensures ending { RunEnds D.shows D.moment D.leaves D.faults (asked_of (map string_bytes words.now)) disks result.1
        (outside_of I.left I.faults O.held O.faults S.told S.faults S.denials input.old out.old signer) (outside_of I.left I.faults O.held O.faults S.told S.faults S.denials input.new out.new result.2) result.3.items result.0 }
    ensures causes { Causes (asked_of (map string_bytes words.now)) (I.left input.old)
        (Rose (I.faults input.old) (I.faults input.new)) (Rose (O.faults out.old) (O.faults out.new)) (EitherRose D.faults disks result.1) result.0 }
{
    let planned = match plan(alloc, words) {
        Ok(Ok(planned)) => planned,
        Ok(Err(usage)) => {
            let status = refuse(alloc, &usage, out);
            return (status, disks, signer, Events::new());
        }
        Err(AllocError) => return (Status::OutOfMemory, disks, signer, Events::new()),
    };
    match &planned {
        Plan::Serve(_) | Plan::Proxy(_) => unreachable!(),
        Plan::Session { .. } => run_session(alloc, &planned, disks, signer, input, out),
        Plan::Merge { .. } => {
            let (status, disks, events) = run_merge(alloc, &planned, disks, input, out);
            (status, disks, signer, events)
        }
        Plan::Show { .. } => {
            let (status, disks, events) = run_show(alloc, &planned, disks, out);
            (status, disks, signer, events)
        }
        Plan::Rehearse { .. } => {
            let status = run_rehearse(alloc, &planned, out);
            (status, disks, signer, Events::new())
        }
        Plan::Shown(text) => {
            let status = finish(out, text.as_str());
            (status, disks, signer, Events::new())
        }
    }
}

/// Closes the output where the words are no command.
fn refuse<O: Sink>(alloc: Global, usage: &Usage, out: &mut O) -> Status
    ensures { NoCommand (output_of O.held O.faults out.old) (output_of O.held O.faults out.new) result
        ⊎ Unwritten (output_of O.held O.faults out.old) (output_of O.held O.faults out.new) result }
{
    match usage_line(alloc, usage) {
        Ok(line) => close(alloc, out, &ClosingLine::Usage(line)),
        Err(AllocError) => Status::OutOfMemory,
    }
}
