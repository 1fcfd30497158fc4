//! The two loops of a client, beside each other.
ghost use Rattle.std.specs.Prelude.{◌≡◌, ◌<◌, All, IfSome, IsSome, length, vec_len};
ghost use Rattle.duty_plans.specs.Seats.{nodes_seen};
ghost use Rattle.duty_turns.specs.TurnSteps.{sink_seen};
ghost use Rattle.duty_workers.specs.Working.{IsReady, lanes_seen};
ghost use Rattle.duty_work.specs.Houses.{house};
ghost use Rattle.keymanager_api.specs.Doors.{door_seen, hall, link_seen};
ghost use Rattle.keymanager_api.specs.Visits.{ServesAll};
ghost use Rattle.serve_run.specs.Serving.{DutiesRan, wanted_of};
ghost use Rattle.client_calls.specs.Seats.{signer_seen};

use crate::held::{Held, Holds};
use desk_machine::DeskCalls;
use duty_loop::{end_law, run_duties, turns_law};
use duty_plans::DutySetup;
use duty_safety::on_time_law;
use duty_turns::DutyEnd;
use duty_workers::Lane;
use edge_clock::Clock;
use edge_kit::{Door, Sink};
use keymanager_api::{Connections, ConnectionsEnd, serve_connections};
use node_calls::Node;
use node_fallback::Nodes;
use signer_link::Signer;
use std::alloc::Global;
use std::sync::Wait;
use std::thread::{Threads, join_mut};

/// What both loops are told: the duties, the connections, and the clock.
#[derive(Drop)]
pub(crate) struct Work<'a, C> {
    pub(crate) alloc: Global,
    pub(crate) setup: DutySetup,
    pub(crate) wanted: Connections<'a>,
    pub(crate) clock: &'a C,
}

/// How both loops ended.
#[derive(Clone, Copy, PartialEq, Eq, Debug)]
pub(crate) struct LoopEnds {
    pub(crate) duties: Result<(), DutyEnd>,
    pub(crate) connections: Result<(), ConnectionsEnd>,
}

/// A duty loop's own desk and nodes, and its lanes.
#[derive(Drop)]
pub(crate) struct DutySide<K, S, N> {
    pub(crate) desk: K,
    pub(crate) lanes: Vec<Lane<K, S, N>>,
    pub(crate) nodes: Nodes<N>,
}

/// Does duties in lanes, turn by turn.
fn do_turns<
    T: Threads + Wait + Sync,
    K: DeskCalls + Send,
    S: Signer + Send,
    N: Node + Drop + Send,
    C: Clock,
    O: Sink,
>(
    rt: &T,
    alloc: Global,
    setup: &DutySetup,
    clock: &C,
    desk: &mut K,
    lanes: &mut [Lane<K, S, N>],
    nodes: &mut Nodes<N>,
    out: &mut O,
) -> Result<(), DutyEnd>
    requires some { 0 < length lanes.old }
    requires ready { K.ready desk.old }
    requires lanes { All (IsReady K.ready) lanes.old }
    ensures ready { K.ready desk.new }
    ensures lanes { All (IsReady K.ready) lanes.new }
    ensures ran { DutiesRan K.leads (C.start clock.now) setup.now
        (house desk.old (lanes_seen S.told S.faults S.denials N.told N.faults lanes.old) (nodes_seen N.told N.faults nodes.old) (sink_seen O.held O.faults out.old))
        (house desk.new (lanes_seen S.told S.faults S.denials N.told N.faults lanes.new) (nodes_seen N.told N.faults nodes.new) (sink_seen O.held O.faults out.new)) result }
{
    end_law::<K>();
    on_time_law::<K>();
    turns_law::<K, Result<(), DutyEnd>>();
    run_duties(rt, alloc, setup, clock, desk, nodes, lanes, out)
}

/// Does duties turn by turn, and hands back what did them.
fn take_turns<
    T: Threads + Wait + Sync,
    K: DeskCalls + Send,
    S: Signer + Send,
    N: Node + Drop + Send,
    C: Clock,
    O: Sink,
>(
    rt: &T,
    alloc: Global,
    setup: &DutySetup,
    clock: &C,
    side: DutySide<K, S, N>,
    out: &mut O,
) -> (Result<(), DutyEnd>, DutySide<K, S, N>)
    requires some { 0 < vec_len side.lanes }
    requires ready { K.ready side.desk }
    requires lanes { All (IsReady K.ready) side.lanes.items }
    ensures ready { K.ready result.1.desk }
    ensures lanes { All (IsReady K.ready) result.1.lanes.items }
    ensures count { length result.1.lanes.items ≡ length side.lanes.items }
    ensures ran { DutiesRan K.leads (C.start clock.now) setup.now
        (house side.desk (lanes_seen S.told S.faults S.denials N.told N.faults side.lanes.items) (nodes_seen N.told N.faults side.nodes) (sink_seen O.held O.faults out.old))
        (house result.1.desk (lanes_seen S.told S.faults S.denials N.told N.faults result.1.lanes.items) (nodes_seen N.told N.faults result.1.nodes) (sink_seen O.held O.faults out.new)) result.0 }
{
    let DutySide {
        mut desk,
        mut lanes,
        mut nodes,
    } = side;
    let ended = do_turns(
        rt,
        alloc,
        setup,
        clock,
        &mut desk,
        lanes.as_mut_slice(),
        &mut nodes,
        out,
    );
    (ended, DutySide { desk, lanes, nodes })
}

/// Does duties with what is held here. Where they end by a fault the clock is halted, by which the connections beside them
/// learn that they shall end.
fn turns_of<T: Threads + Wait + Sync, A: Holds, C: Clock, O: Sink>(
    rt: &T,
    alloc: Global,
    setup: &DutySetup,
    clock: &C,
    held: &mut A,
    out: &mut O,
) -> Result<(), DutyEnd>
where
    A::Desk: Send,
    A::Service: Send,
    A::Beacon: Send,
    requires { IsSome (A.held held.old) × IfSome (A.held held.old) (λ s. (0 < vec_len s.lanes) × A.Desk.ready s.desk × All (IsReady A.Desk.ready) s.lanes.items) }
    ensures ready { IsSome (A.held held.new) × IfSome (A.held held.new) (λ t. A.Desk.ready t.desk × All (IsReady A.Desk.ready) t.lanes.items) }
    ensures ran { IfSome (A.held held.old) (λ s. IfSome (A.held held.new) (λ t. (length t.lanes.items ≡ length s.lanes.items) × DutiesRan A.Desk.leads (C.start clock.now) setup.now
        (house s.desk (lanes_seen A.Service.told A.Service.faults A.Service.denials A.Beacon.told A.Beacon.faults s.lanes.items) (nodes_seen A.Beacon.told A.Beacon.faults s.nodes) (sink_seen O.held O.faults out.old))
        (house t.desk (lanes_seen A.Service.told A.Service.faults A.Service.denials A.Beacon.told A.Beacon.faults t.lanes.items) (nodes_seen A.Beacon.told A.Beacon.faults t.nodes) (sink_seen O.held O.faults out.new)) result)) }
{
    let side = held.take();
    let (ended, side) = take_turns(rt, alloc, setup, clock, side, out);
    held.put(side);
    if ended.is_err() {
        clock.halt();
    }
    ended
}

/// Serves connections. Where they end by a fault the clock is halted, so that no further turn of the duties beside them
/// begins.
fn answer_all<K: DeskCalls, S: Signer, C: Clock, R: Door>(
    alloc: Global,
    wanted: Connections<'_>,
    clock: &C,
    desk: &mut K,
    signer: &mut S,
    door: &mut R,
) -> Result<(), ConnectionsEnd>
    requires ready { K.ready desk.old }
    ensures ready { K.ready desk.new }
    ensures serves { ServesAll K.leads (link_seen R.Conn.left R.Conn.held R.Conn.faults) (C.start clock.now) wanted.entry.token.now wanted.entry.genesis_time wanted.entry.count
        (hall desk.old (signer_seen S.told S.faults S.denials signer.old) (door_seen R.coming R.finished R.faults door.old))
        (hall desk.new (signer_seen S.told S.faults S.denials signer.new) (door_seen R.coming R.finished R.faults door.new)) result }
{
    let ended = serve_connections(alloc, wanted, clock, desk, signer, door);
    if ended.is_err() {
        clock.halt();
    }
    ended
}

/// Does duties with what is held here, and serves connections beside them, up to the end of both. Where one of them ends by
/// a fault it halts the clock, by which the other learns that it shall end.
fn join_loops<
    T: Threads + Wait + Sync,
    A: Holds + Send,
    K: DeskCalls + Send,
    S: Signer + Send,
    C: Clock,
    R: Door + Send,
    O: Sink + Send,
>(
    rt: &T,
    alloc: Global,
    setup: &DutySetup,
    wanted: Connections<'_>,
    clock: &C,
    held: &mut A,
    out: &mut O,
    other: &mut K,
    signer: &mut S,
    door: &mut R,
) -> (Result<(), DutyEnd>, Result<(), ConnectionsEnd>)
where
    A::Desk: Send,
    A::Service: Send,
    A::Beacon: Send,
    requires begins { IsSome (A.held held.old) × IfSome (A.held held.old) (λ s. (0 < vec_len s.lanes) × A.Desk.ready s.desk × All (IsReady A.Desk.ready) s.lanes.items) }
    requires ready { K.ready other.old }
    ensures held { IsSome (A.held held.new) × IfSome (A.held held.new) (λ t. A.Desk.ready t.desk × All (IsReady A.Desk.ready) t.lanes.items) }
    ensures ready { K.ready other.new }
    ensures duties { IfSome (A.held held.old) (λ s. IfSome (A.held held.new) (λ t. (length t.lanes.items ≡ length s.lanes.items) × DutiesRan A.Desk.leads (C.start clock.now) setup.now
        (house s.desk (lanes_seen A.Service.told A.Service.faults A.Service.denials A.Beacon.told A.Beacon.faults s.lanes.items) (nodes_seen A.Beacon.told A.Beacon.faults s.nodes) (sink_seen O.held O.faults out.old))
        (house t.desk (lanes_seen A.Service.told A.Service.faults A.Service.denials A.Beacon.told A.Beacon.faults t.lanes.items) (nodes_seen A.Beacon.told A.Beacon.faults t.nodes) (sink_seen O.held O.faults out.new)) result.0)) }
    ensures connections { ServesAll K.leads (link_seen R.Conn.left R.Conn.held R.Conn.faults) (C.start clock.now) wanted.entry.token.now wanted.entry.genesis_time wanted.entry.count
        (hall other.old (signer_seen S.told S.faults S.denials signer.old) (door_seen R.coming R.finished R.faults door.old))
        (hall other.new (signer_seen S.told S.faults S.denials signer.new) (door_seen R.coming R.finished R.faults door.new)) result.1 }
{
    join_mut(
        rt,
        &mut || -> Result<(), DutyEnd>
            requires { IsSome (A.held held.now) × IfSome (A.held held.now) (λ s. (0 < vec_len s.lanes) × A.Desk.ready s.desk × All (IsReady A.Desk.ready) s.lanes.items) }
            ensures { (IsSome (A.held held.exit.now) × IfSome (A.held held.exit.now) (λ t. A.Desk.ready t.desk × All (IsReady A.Desk.ready) t.lanes.items)) × IfSome (A.held held.entry.now) (λ s. IfSome (A.held held.exit.now) (λ t. (length t.lanes.items ≡ length s.lanes.items) × DutiesRan A.Desk.leads (C.start clock.entry.now) setup.entry.now
                (house s.desk (lanes_seen A.Service.told A.Service.faults A.Service.denials A.Beacon.told A.Beacon.faults s.lanes.items) (nodes_seen A.Beacon.told A.Beacon.faults s.nodes) (sink_seen O.held O.faults out.entry.now))
                (house t.desk (lanes_seen A.Service.told A.Service.faults A.Service.denials A.Beacon.told A.Beacon.faults t.lanes.items) (nodes_seen A.Beacon.told A.Beacon.faults t.nodes) (sink_seen O.held O.faults out.exit.now)) result)) }
        { turns_of(rt, alloc, setup, clock, held, out) },
        &mut || -> Result<(), ConnectionsEnd>
            requires { K.ready other.now }
            ensures { K.ready other.exit.now × ServesAll K.leads (link_seen R.Conn.left R.Conn.held R.Conn.faults) (C.start clock.entry.now) wanted.entry.token.now wanted.entry.genesis_time wanted.entry.count
                (hall other.entry.now (signer_seen S.told S.faults S.denials signer.entry.now) (door_seen R.coming R.finished R.faults door.entry.now))
                (hall other.exit.now (signer_seen S.told S.faults S.denials signer.exit.now) (door_seen R.coming R.finished R.faults door.exit.now)) result }
        { answer_all(alloc, wanted, clock, other, signer, door) },
    )
}

/// Does duties in lanes, and serves connections beside them, up to the end of both.
pub(crate) fn run_beside<
    T: Threads + Wait + Sync,
    K: DeskCalls + Send + Drop,
    S: Signer + Send + Drop,
    N: Node + Drop + Send,
    C: Clock,
    R: Door + Send,
    O: Sink + Send,
>(
    rt: &T,
    work: &Work<'_, C>,
    side: DutySide<K, S, N>,
    out: &mut O,
    other: &mut K,
    signer: &mut S,
    door: &mut R,
) -> (LoopEnds, DutySide<K, S, N>)
    requires some { 0 < vec_len side.lanes }
    requires ready { K.ready side.desk × K.ready other.old }
    requires lanes { All (IsReady K.ready) side.lanes.items }
    ensures ready { K.ready result.1.desk × K.ready other.new }
    ensures lanes { All (IsReady K.ready) result.1.lanes.items }
    ensures count { length result.1.lanes.items ≡ length side.lanes.items }
    ensures duties { DutiesRan K.leads (C.start work.now.clock.now) work.now.setup
        (house side.desk (lanes_seen S.told S.faults S.denials N.told N.faults side.lanes.items) (nodes_seen N.told N.faults side.nodes) (sink_seen O.held O.faults out.old))
        (house result.1.desk (lanes_seen S.told S.faults S.denials N.told N.faults result.1.lanes.items) (nodes_seen N.told N.faults result.1.nodes) (sink_seen O.held O.faults out.new)) result.0.duties }
    ensures connections { ServesAll K.leads (link_seen R.Conn.left R.Conn.held R.Conn.faults) (C.start work.now.clock.now) (wanted_of work.now.wanted).token (wanted_of work.now.wanted).genesis_time (wanted_of work.now.wanted).count
        (hall other.old (signer_seen S.told S.faults S.denials signer.old) (door_seen R.coming R.finished R.faults door.old))
        (hall other.new (signer_seen S.told S.faults S.denials signer.new) (door_seen R.coming R.finished R.faults door.new)) result.0.connections }
{
    let mut held = Held { side: Some(side) };
    let (duties, connections) = join_loops(
        rt,
        work.alloc,
        &work.setup,
        work.wanted,
        work.clock,
        &mut held,
        out,
        other,
        signer,
        door,
    );
    let loops = LoopEnds {
        duties,
        connections,
    };
    (loops, held.take())
}
