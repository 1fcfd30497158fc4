//! A desk that the threads of a client share.
ghost use Rattle.std.specs.Prelude.{◌≡◌, ◌+◌, ◌≤◌, [], IfOk, map, vec_capacity, vec_len};
ghost use Rattle.desk_lock.specs.Passes.{IsNew};
ghost use Rattle.desk_seat.specs.Seats.{IsDeskPass};
ghost use Rattle.keymanager_api.specs.Doors.{link_seen};
ghost use Rattle.serve_run.specs.Clients.{parts_seen};
ghost use Rattle.serve_run.specs.Ends.{ServedAs};
ghost use Rattle.serve_run.specs.Seating.{AreNew, RanBeside, lane_end};
ghost use Rattle.serve_run.specs.Serving.{connections_of, setup_of, wanted_of};

use crate::beside::{DutySide, LoopEnds, Work, run_beside};
use crate::close::close_both;
use crate::lanes::LaneEnd;
use crate::seats::{LaneOf, SeatedLane, give_passes, leave_seats, take_seats};
use crate::start::Start;
use crate::views::{connections_view_law, turns_view_law};
use check_sign::Desk;
use command_line::ServeOptions;
use desk_lock::{Pass, Shared};
use desk_seat::{LentDesk, Seated, lend, take_back};
use duty_plans::DutySetup;
use edge_clock::Clock;
use edge_kit::{Disk, Door, Sink};
use keymanager_api::Connections;
use node_calls::Node;
use node_fallback::Nodes;
use program_end::Status;
use signer_link::Signer;
use std::alloc::{AllocError, Global};
use std::mem;
use std::sync::Wait;
use std::thread::Threads;

/// Room for what is handed out and back while the desk is shared.
#[derive(Drop)]
struct Room<D: Disk, S, N> {
    given: Vec<LaneOf<D, S, N>>,
    passes: Vec<Pass<LentDesk<D>>>,
    ends: Vec<LaneEnd<S, N>>,
}

/// Room for that many lanes. The error is want of memory.
fn room_for<D: Disk, S: Drop, N: Drop>(
    alloc: Global,
    count: usize,
) -> Result<Room<D, S, N>, AllocError>
    ensures given { IfOk result (λ room. (room.given.items ≡ []) × (count ≤ vec_capacity room.given)) }
    ensures passes { IfOk result (λ room. (room.passes.items ≡ []) × (count + 2 ≤ vec_capacity room.passes)) }
    ensures ends { IfOk result (λ room. (room.ends.items ≡ []) × (count ≤ vec_capacity room.ends)) }
{
    Ok(Room {
        given: Vec::with_capacity(alloc, count)?,
        passes: Vec::with_capacity(alloc, count.saturating_add(2))?,
        ends: Vec::with_capacity(alloc, count)?,
    })
}

/// What both loops of a client are told.
fn work_of<'a, C>(
    alloc: Global,
    options: &'a ServeOptions,
    start: Start,
    clock: &'a C,
) -> Work<'a, C>
    ensures { (result.setup ≡ setup_of options.now start) × (wanted_of result.wanted ≡ connections_of options.now start) × (result.clock ≡ clock.entry) }
{
    Work {
        alloc,
        setup: DutySetup {
            genesis: options.genesis,
            genesis_time: start.genesis_time,
            fork: start.fork,
            altair: options.altair,
            watch: options.watch,
            aggregate: options.aggregate,
            slots: options.slots,
            keep_epochs: options.keep_epochs.last(),
        },
        wanted: Connections {
            token: options.token.as_str(),
            genesis_time: start.genesis_time,
            count: options.connections,
        },
        clock,
    }
}

/// Lends a desk to the duty loop, its lanes and the connections, lets them run beside each other up to the end of both
/// loops, closes the output, and takes the desk back.
pub fn serve_desk<
    T: Threads + Wait + Sync,
    D: Disk + Send,
    S: Signer + Send + Drop,
    N: Node + Drop + Send,
    C: Clock,
    R: Door + Send,
    O: Sink + Send,
>(
    rt: &T,
    alloc: Global,
    options: &ServeOptions,
    start: Start,
    desk: Desk<D>,
    lanes: Vec<LaneEnd<S, N>>,
    signer: &mut S,
    nodes: &mut Nodes<N>,
    clock: &C,
    door: &mut R,
    out: &mut O,
) -> (Status, Desk<D>, Vec<LaneEnd<S, N>>)
    requires count { (1 ≤ vec_len lanes) × (vec_len lanes ≤ 64) }
    ensures { ServedAs D.moment D.leaves D.faults (link_seen R.Conn.left R.Conn.held R.Conn.faults) (C.start clock.now) options.now start desk result.1
        (parts_seen S.told S.faults S.denials N.told N.faults R.coming R.finished R.faults O.held O.faults signer.old nodes.old lanes.items door.old out.old)
        (parts_seen S.told S.faults S.denials N.told N.faults R.coming R.finished R.faults O.held O.faults signer.new nodes.new result.2.items door.new out.new) result.0 }
{
    let count = lanes.len();
    let Ok(mut room) = room_for(alloc, count) else {
        return (Status::OutOfMemory, desk, lanes);
    };
    let Ok(seats) = Vec::with_capacity(alloc, count) else {
        return (Status::OutOfMemory, desk, lanes);
    };
    let mut owner = match lend(alloc, desk, count as u64 + 2) {
        Ok(owner) => owner,
        Err(desk) => {
            seats.destroy_empty();
            return (Status::OutOfMemory, desk, lanes);
        }
    };
    let own = owner.pass().unwrap();
    let other = owner.pass().unwrap();
    give_passes(&mut owner, lanes, &mut room.given);
    let Room {
        given,
        mut passes,
        mut ends,
    } = room;
    let work = work_of(alloc, options, start, clock);
    let loops = serve_seated(
        rt,
        &work,
        &owner.shared,
        own,
        other,
        given,
        seats,
        &mut passes,
        &mut ends,
        signer,
        nodes,
        door,
        out,
    );
    let status = close_both(alloc, out, loops);
    (status, take_back(owner, passes), ends)
}

/// Takes the seats, lets both loops run, and leaves the seats.
fn serve_seated<
    'a,
    T: Threads + Wait + Sync,
    D: Disk + Send,
    S: Signer + Send + Drop,
    N: Node + Drop + Send,
    C: Clock,
    R: Door + Send,
    O: Sink + Send,
>(
    rt: &'a T,
    work: &Work<'_, C>,
    shared: &'a Shared<LentDesk<D>>,
    own: Pass<LentDesk<D>>,
    other: Pass<LentDesk<D>>,
    given: Vec<LaneOf<D, S, N>>,
    seats: Vec<SeatedLane<'a, D, T, S, N>>,
    passes: &mut Vec<Pass<LentDesk<D>>>,
    ends: &mut Vec<LaneEnd<S, N>>,
    signer: &mut S,
    nodes: &mut Nodes<N>,
    door: &mut R,
    out: &mut O,
) -> LoopEnds
    requires own { IsDeskPass D.moment D.leaves D.faults shared.now own × IsNew 0 own }
    requires other { IsDeskPass D.moment D.leaves D.faults shared.now other × IsNew 1 other }
    requires given { AreNew D.moment D.leaves D.faults shared.now 2 (map (λ lane. lane.desk) given.items) }
    requires some { 1 ≤ vec_len given }
    requires seats { (seats.items ≡ []) × (vec_len given ≤ vec_capacity seats) }
    requires passes { (passes.old.items ≡ []) × (vec_len given + 2 ≤ vec_capacity passes.old) }
    requires ends { (ends.old.items ≡ []) × (vec_len given ≤ vec_capacity ends.old) }
    ensures { RanBeside D.moment D.leaves D.faults shared.now (link_seen R.Conn.left R.Conn.held R.Conn.faults) (C.start work.now.clock.now) work.now.setup (wanted_of work.now.wanted)
        (parts_seen S.told S.faults S.denials N.told N.faults R.coming R.finished R.faults O.held O.faults signer.old nodes.old (map lane_end given.items) door.old out.old)
        (parts_seen S.told S.faults S.denials N.told N.faults R.coming R.finished R.faults O.held O.faults signer.new nodes.new ends.new.items door.new out.new)
        result.duties result.connections passes.new.items }
{
    turns_view_law::<Seated<'a, D, T>>();
    connections_view_law::<Seated<'a, D, T>, R>();
    let mut seats = seats;
    let own = Seated::new(rt, shared, own);
    let mut other = Seated::new(rt, shared, other);
    take_seats(rt, shared, given, &mut seats);
    let side = DutySide {
        desk: own,
        lanes: seats,
        nodes: mem::replace(nodes, Nodes::new(work.alloc, Vec::new(work.alloc))),
    };
    let (loops, side) = run_beside(rt, work, side, out, &mut other, signer, door);
    let DutySide {
        desk,
        lanes,
        nodes: own_nodes,
    } = side;
    *nodes = own_nodes;
    passes.push_reserved(desk.into_pass());
    passes.push_reserved(other.into_pass());
    leave_seats(lanes, passes, ends);
    loops
}
