//! Connection after connection.
ghost use Rattle.edge_kit.specs.Doors.{IsLent};
ghost use Rattle.keymanager_api.specs.Doors.{door_seen, hall, link_seen};
ghost use Rattle.keymanager_api.specs.Handling.{Handles};
ghost use Rattle.keymanager_api.specs.Visits.{ServesAll, asks_failed};
ghost use Rattle.client_calls.specs.Seats.{signer_seen};

use crate::serve::serve_connection;
use desk_machine::{DeskCall, DeskCalls, DeskReply};
use duty_turns::{epoch_of, slot_of};
use edge_clock::Clock;
use edge_kit::{Door, Failed};
use signer_link::Signer;
use std::alloc::Global;

/// Which connections are served, and how.
#[derive(Clone, Copy)]
pub struct Connections<'a> {
    /// The token that each request must carry.
    pub token: &'a str,
    /// When the chain began, in seconds since 1970: keys are taken in at the epoch of the clock's moment.
    pub genesis_time: u64,
    /// How many connections are served.
    pub count: u64,
}

/// Why the loop ends before its number of connections, though others may come.
#[derive(Clone, Copy, PartialEq, Eq, Debug)]
pub enum ConnectionsEnd {
    /// The door failed; its count of faults rose.
    Door,
    /// The desk's disk failed.
    Disk,
}

/// Serves the connections that come in at a door, one after another, as many as are wanted or as come: the request of
/// each is answered (Keymanager API), and the connection is finished, one whose link fails as it is. Behind each the
/// desk is asked whether its disk failed.
///
/// # Errors
///
/// `ConnectionsEnd::Door` only where the door's count of faults rose; `ConnectionsEnd::Disk` where the desk says that
/// its disk failed, after the connection at which it says so.
pub fn serve_connections<K: DeskCalls, S: Signer, C: Clock, R: Door>(
    alloc: Global,
    wanted: Connections<'_>,
    clock: &C,
    desk: &mut K,
    signer: &mut S,
    door: &mut R,
) -> Result<(), ConnectionsEnd>
    requires ready { K.ready desk.old }
    ensures ready { K.ready desk.new }
    ensures serves { ServesAll K.leads (link_seen R.Conn.left R.Conn.held R.Conn.faults) (C.start clock.now) wanted.entry.token.now wanted.entry.genesis_time wanted.entry.count
        (hall desk.old (signer_seen S.told S.faults S.denials signer.old) (door_seen R.coming R.finished R.faults door.old))
        (hall desk.new (signer_seen S.told S.faults S.denials signer.new) (door_seen R.coming R.finished R.faults door.new)) result }
{
    'connections: for _connection in 0..wanted.count {
        match door.accept() {
            Ok(Some(conn)) => {
                if serve_one(alloc, wanted, clock, conn, desk, signer, door) {
                    return Err(ConnectionsEnd::Disk);
                }
            }
            Ok(None) => return Ok(()),
            Err(Failed) => return Err(ConnectionsEnd::Door),
        }
    }
    Ok(())
}

/// Serves a connection that the door gave and hands it back to the door, and answers whether the desk's disk has failed.
fn serve_one<K: DeskCalls, S: Signer, C: Clock, R: Door>(
    alloc: Global,
    wanted: Connections<'_>,
    clock: &C,
    mut conn: R::Conn,
    desk: &mut K,
    signer: &mut S,
    door: &mut R,
) -> bool
    requires ready { K.ready desk.old }
    requires lent { IsLent (R.lent door.old) }
    ensures ready { K.ready desk.new }
    ensures handles { Handles K.leads (link_seen R.Conn.left R.Conn.held R.Conn.faults) (C.start clock.now) wanted.entry.token.now wanted.entry.genesis_time conn
        (hall desk.old (signer_seen S.told S.faults S.denials signer.old) (door_seen R.coming R.finished R.faults door.old))
        (hall desk.new (signer_seen S.told S.faults S.denials signer.new) (door_seen R.coming R.finished R.faults door.new)) result }
{
    let moment = clock.now();
    let now = epoch_of(slot_of(wanted.genesis_time, moment));
    let _ = serve_connection(alloc, &mut conn, wanted.token, now, desk, signer);
    door.finish(conn);
    has_failed(desk)
}

/// Whether the desk's disk has failed, as the desk says.
pub fn has_failed<K: DeskCalls>(desk: &mut K) -> bool
    requires ready { K.ready desk.old }
    ensures ready { K.ready desk.new }
    ensures asked { K.leads desk.old (asks_failed result) desk.new }
{
    match desk.call(DeskCall::HasFailed) {
        DeskReply::HasFailed(failed) => failed,
        _ => unreachable!(),
    }
}
