//! The validator client over its disks.
ghost use Rattle.std.specs.Prelude.{◌≡◌, ◌⊎◌, ◌≤◌, [], vec_len};
ghost use Rattle.edge_kit.specs.Causes.{Rose};
ghost use Rattle.record_journal.specs.TwoDisks.{EitherRose};
ghost use Rattle.command_line.specs.declared.serve_options.ServeOptions.{ServeOptions};
ghost use Rattle.keymanager_api.specs.Doors.{link_seen};
ghost use Rattle.serve_run.specs.Clients.{parts_seen};
ghost use Rattle.serve_run.specs.Ends.{Because, Equipped, IsServe, NotEquipped, OverJournal, ServeEnds};

use crate::lanes::{LaneEnd, make_lanes};
use crate::shared::serve_desk;
use crate::start::{Start, ask_start};
use crate::unstarted::close_unstarted;
use check_sign::{Desk, Events};
use command_line::{Plan, ServeOptions};
use desk_seat::{among_law, close_law, span_law};
use duty_safety::safe_law;
use duty_turns::{epoch_of, slot_of};
use edge_clock::Clock;
use edge_kit::{Disk, Disks, Door, Sink};
use journal_commands::close_unopened;
use node_calls::Node;
use node_fallback::Nodes;
use program_end::Status;
use signer_link::Signer;
use std::alloc::{AllocError, Global};
use std::sync::Wait;
use std::thread::Threads;

/// What a run of a client leaves, beside what it was lent.
#[derive(Drop)]
pub struct ServeEnd<D, S, N> {
    /// The least status of both loops, or why they did not begin.
    pub status: Status,
    /// The disks that were handed in.
    pub disks: Disks<D>,
    /// What the desk did, in order, as contracts speak of it; nothing where none was opened.
    pub events: Events,
    /// What each lane worked with; nothing where none were made.
    pub lanes: Vec<LaneEnd<S, N>>,
}

/// Does what the plan of a validator client says: asks the nodes for genesis and fork, makes the lanes, each with another
/// access to the signing service and to the nodes, and opens the desk of the journal on the disks at the epoch of the
/// clock's moment, 0 before genesis. Then it does the duties of as many turns as the plan has, in the lanes, and serves as
/// many connections (Keymanager API) beside them, up to the end of both.
///
/// The status is `Done` where the turns and the connections came to their numbers, or no connection comes any more. With
/// a line that closes the output it is `NoNode` where a question of the start had no answer, `GenesisDiffers` where the
/// first answer has another root than the plan or the journal has another than that, `Damaged` and
/// `InputTooLong(Limit::Keys)` where the journal is not opened, `DiskFault` only where a disk's count of faults rose, and
/// `DoorFault` only where the door's did. `WriteFault` comes only where the output's count rose, and `OutOfMemory` where
/// memory was wanted.
pub fn run_serve<
    T: Threads + Wait + Sync,
    D: Disk + Send,
    S: Signer + Send + Drop,
    N: Node + Drop + Send,
    C: Clock,
    R: Door + Send,
    O: Sink + Send,
>(
    rt: &T,
    alloc: Global,
    plan: &Plan,
    disks: Disks<D>,
    signer: &mut S,
    nodes: &mut Nodes<N>,
    clock: &C,
    door: &mut R,
    out: &mut O,
) -> ServeEnd<D, S, N>
    requires { IsServe plan.now }
    ensures ends { (options : ServeOptions) → plan.now ≡ Plan.Serve options
        → ServeEnds D.shows D.moment D.leaves D.faults (link_seen R.Conn.left R.Conn.held R.Conn.faults) (C.start clock.now) options disks result.disks
        (parts_seen S.told S.faults S.denials N.told N.faults R.coming R.finished R.faults O.held O.faults signer.old nodes.old [] door.old out.old)
        (parts_seen S.told S.faults S.denials N.told N.faults R.coming R.finished R.faults O.held O.faults signer.new nodes.new result.lanes.items door.new out.new) result.events.items result.status }
    ensures causes { Because (Rose (O.faults out.old) (O.faults out.new)) (EitherRose D.faults disks result.disks) (Rose (R.faults door.old) (R.faults door.new)) result.status }
{
    let Plan::Serve(options) = plan else {
        unreachable!()
    };
    match ask_start(&options.genesis, nodes) {
        Ok(start) => serve_from(
            rt, alloc, options, start, disks, signer, nodes, clock, door, out,
        ),
        Err(why) => {
            let status = close_unstarted(alloc, out, &options.genesis, why);
            unopened(status, disks, Vec::new(alloc))
        }
    }
}

/// No desk was opened.
fn unopened<D, S, N>(
    status: Status,
    disks: Disks<D>,
    lanes: Vec<LaneEnd<S, N>>,
) -> ServeEnd<D, S, N>
    ensures { (result.status ≡ status) × (result.disks ≡ disks) × (result.events.items ≡ []) × (result.lanes ≡ lanes) }
{
    ServeEnd {
        status,
        disks,
        events: Events::new(),
        lanes,
    }
}

/// Makes the lanes, and serves over the journal.
fn serve_from<
    T: Threads + Wait + Sync,
    D: Disk + Send,
    S: Signer + Send + Drop,
    N: Node + Drop + Send,
    C: Clock,
    R: Door + Send,
    O: Sink + Send,
>(
    rt: &T,
    alloc: Global,
    options: &ServeOptions,
    start: Start,
    disks: Disks<D>,
    signer: &mut S,
    nodes: &mut Nodes<N>,
    clock: &C,
    door: &mut R,
    out: &mut O,
) -> ServeEnd<D, S, N>
    ensures serves { NotEquipped disks result.disks
        (parts_seen S.told S.faults S.denials N.told N.faults R.coming R.finished R.faults O.held O.faults signer.old nodes.old [] door.old out.old)
        (parts_seen S.told S.faults S.denials N.told N.faults R.coming R.finished R.faults O.held O.faults signer.new nodes.new result.lanes.items door.new out.new) result.events.items result.status
        ⊎ Equipped D.shows D.moment D.leaves D.faults (link_seen R.Conn.left R.Conn.held R.Conn.faults) (C.start clock.now) options.now start disks result.disks
        (parts_seen S.told S.faults S.denials N.told N.faults R.coming R.finished R.faults O.held O.faults signer.old nodes.old [] door.old out.old)
        (parts_seen S.told S.faults S.denials N.told N.faults R.coming R.finished R.faults O.held O.faults signer.new nodes.new result.lanes.items door.new out.new) result.events.items result.status }
    ensures causes { Because (Rose (O.faults out.old) (O.faults out.new)) (EitherRose D.faults disks result.disks) (Rose (R.faults door.old) (R.faults door.new)) result.status }
{
    match make_lanes(alloc, options.lanes.get(), signer, nodes) {
        Ok(lanes) => serve_journal(
            rt, alloc, options, start, disks, lanes, signer, nodes, clock, door, out,
        ),
        Err(AllocError) => unopened(Status::OutOfMemory, disks, Vec::new(alloc)),
    }
}

/// Opens the desk of the journal, and serves over it.
fn serve_journal<
    T: Threads + Wait + Sync,
    D: Disk + Send,
    S: Signer + Send + Drop,
    N: Node + Drop + Send,
    C: Clock,
    R: Door + Send,
    O: Sink + Send,
>(
    rt: &T,
    alloc: Global,
    options: &ServeOptions,
    start: Start,
    disks: Disks<D>,
    lanes: Vec<LaneEnd<S, N>>,
    signer: &mut S,
    nodes: &mut Nodes<N>,
    clock: &C,
    door: &mut R,
    out: &mut O,
) -> ServeEnd<D, S, N>
    requires count { (1 ≤ vec_len lanes) × (vec_len lanes ≤ 64) }
    ensures serves { OverJournal D.shows D.moment D.leaves D.faults (link_seen R.Conn.left R.Conn.held R.Conn.faults) (C.start clock.now) options.now start disks result.disks
        (parts_seen S.told S.faults S.denials N.told N.faults R.coming R.finished R.faults O.held O.faults signer.old nodes.old lanes.items door.old out.old)
        (parts_seen S.told S.faults S.denials N.told N.faults R.coming R.finished R.faults O.held O.faults signer.new nodes.new result.lanes.items door.new out.new) result.events.items result.status }
    ensures causes { Because (Rose (O.faults out.old) (O.faults out.new)) (EitherRose D.faults disks result.disks) (Rose (R.faults door.old) (R.faults door.new)) result.status }
{
    let now = epoch_of(slot_of(start.genesis_time, clock.now()));
    let desk = match Desk::open(alloc, disks, options.genesis, options.watch, now) {
        Ok(desk) => desk,
        Err((fault, disks)) => {
            let status = close_unopened(alloc, out, fault);
            return unopened(status, disks, lanes);
        }
    };
    span_law::<D>();
    close_law::<D>();
    among_law();
    safe_law();
    let (status, desk, lanes) = serve_desk(
        rt, alloc, options, start, desk, lanes, signer, nodes, clock, door, out,
    );
    let (disks, events) = desk.end();
    ServeEnd {
        status,
        disks,
        events,
        lanes,
    }
}
