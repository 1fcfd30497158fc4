//! A proxy over one desk, from first to last.
ghost use Rattle.std.specs.Prelude.{◌≡◌, ◌≤◌, [], IfOk, map, vec_capacity, vec_len};
ghost use Rattle.door_lanes.specs.Doors.{door_seen};
ghost use Rattle.keymanager_api.specs.Doors.{link_seen};
ghost use Rattle.proxy_api.specs.Attending.{terms_of};
ghost use Rattle.proxy_lanes.specs.Lanes.{ProxyRan, signers_seen};
ghost use Rattle.proxy_lanes.specs.Seating.{AreNew, RanSeated};

use crate::seats::{PlaceOf, SeatedServant, give_passes, leave_seats, take_seats};
use check_sign::Desk;
use desk_lock::{Pass, Shared};
use desk_seat::{LentDesk, lend, take_back};
use door_lanes::{LoopEnd, serve_door};
use edge_clock::Clock;
use edge_kit::{Disk, Door, Root};
use signer_link::Signer;
use std::alloc::{AllocError, Global};
use std::sync::Wait;
use std::thread::Threads;

/// Which connections a proxy serves, and how.
#[derive(Clone, Copy)]
pub struct Proxy<'a> {
    /// The token that a request of the Keymanager API must carry.
    pub token: &'a str,
    /// The root of the chain's genesis validators.
    pub genesis: Root,
    /// When the chain began, in seconds since 1970.
    pub genesis_time: u64,
    /// How many connections are served.
    pub connections: u64,
}

/// Room for what is handed out and back while the desk is shared.
#[derive(Drop)]
struct Room<D: Disk, S> {
    places: Vec<PlaceOf<D, S>>,
    passes: Vec<Pass<LentDesk<D>>>,
    signers: Vec<S>,
}

/// Room for that many lanes. The error is want of memory.
fn room_for<D: Disk, S: Drop>(alloc: Global, count: usize) -> Result<Room<D, S>, AllocError>
    ensures places { IfOk result (λ room. (room.places.items ≡ []) × (count ≤ vec_capacity room.places)) }
    ensures passes { IfOk result (λ room. (room.passes.items ≡ []) × (count ≤ vec_capacity room.passes)) }
    ensures signers { IfOk result (λ room. (room.signers.items ≡ []) × (count ≤ vec_capacity room.signers)) }
{
    Ok(Room {
        places: Vec::with_capacity(alloc, count)?,
        passes: Vec::with_capacity(alloc, count)?,
        signers: Vec::with_capacity(alloc, count)?,
    })
}

/// Has lanes, one for each signer (1 to 64), serve the connections of a door over one desk, until as many as are wanted were given
/// or the door has no other. Each lane takes a connection, serves it (`proxy_api::sign_connection`) at the epoch of the clock's
/// moment and asks the desk whether its disk failed, in a thread of its own where the system makes one. It hands the connection back
/// with its next turn at the door. Desk, signers and door come back, the signers in their order.
///
/// # Errors
///
/// In this order:
/// - `LoopEnd::Memory`: memory was wanted. Nothing was done, and desk, signers and door are as they were.
/// - `LoopEnd::Disk`: the desk said, after a connection of a lane, that its disk had failed.
/// - `LoopEnd::Door`: the door failed, and its count of faults rose.
pub fn serve_proxy<
    X: Threads + Wait + Sync,
    D: Disk + Send,
    S: Signer + Send + Drop,
    C: Clock,
    R: Door + Send,
>(
    rt: &X,
    alloc: Global,
    wanted: Proxy<'_>,
    desk: Desk<D>,
    signers: Vec<S>,
    clock: &C,
    door: R,
) -> (Result<(), LoopEnd>, Desk<D>, Vec<S>, R)
where
    R::Conn: Send + Drop,
    requires count { (1 ≤ vec_len signers) × (vec_len signers ≤ 64) }
    ensures { ProxyRan D.moment D.leaves D.faults (link_seen R.Conn.left R.Conn.held R.Conn.faults) (terms_of (C.start clock.now) wanted.entry.token.now wanted.entry.genesis wanted.entry.genesis_time) wanted.entry.connections desk result.1
        (signers_seen S.told S.faults S.denials signers.items) (signers_seen S.told S.faults S.denials result.2.items)
        (door_seen R.coming R.finished R.lent R.faults door) (door_seen R.coming R.finished R.lent R.faults result.3) result.0 }
{
    let count = signers.len();
    let Ok(room) = room_for(alloc, count) else {
        return (Err(LoopEnd::Memory), desk, signers, door);
    };
    let Ok(servants) = Vec::with_capacity(alloc, count) else {
        return (Err(LoopEnd::Memory), desk, signers, door);
    };
    let mut owner = match lend(alloc, desk, count as u64) {
        Ok(owner) => owner,
        Err(desk) => {
            servants.destroy_empty();
            return (Err(LoopEnd::Memory), desk, signers, door);
        }
    };
    let Room {
        mut places,
        mut passes,
        signers: mut left,
    } = room;
    give_passes(&mut owner, signers, &mut places);
    let (ended, door) = serve_seated(
        rt,
        alloc,
        wanted,
        clock,
        &owner.shared,
        places,
        servants,
        door,
        &mut passes,
        &mut left,
    );
    (ended, take_back(owner, passes), left, door)
}

/// Takes the seats, lets the servants serve, and leaves the seats.
fn serve_seated<
    'a,
    X: Threads + Wait + Sync,
    D: Disk + Send,
    S: Signer + Send + Drop,
    C: Clock,
    R: Door + Send,
>(
    rt: &'a X,
    alloc: Global,
    wanted: Proxy<'a>,
    clock: &'a C,
    shared: &'a Shared<LentDesk<D>>,
    places: Vec<PlaceOf<D, S>>,
    servants: Vec<SeatedServant<'a, D, X, S, C>>,
    door: R,
    passes: &mut Vec<Pass<LentDesk<D>>>,
    signers: &mut Vec<S>,
) -> (Result<(), LoopEnd>, R)
where
    R::Conn: Send + Drop,
    requires places { AreNew D.moment D.leaves D.faults shared.now 0 (map (λ place. place.pass) places.items) }
    requires count { (1 ≤ vec_len places) × (vec_len places ≤ 64) }
    requires servants { (servants.items ≡ []) × (vec_len places ≤ vec_capacity servants) }
    requires passes { (passes.old.items ≡ []) × (vec_len places ≤ vec_capacity passes.old) }
    requires signers { (signers.old.items ≡ []) × (vec_len places ≤ vec_capacity signers.old) }
    ensures { RanSeated D.moment D.leaves D.faults shared.now (link_seen R.Conn.left R.Conn.held R.Conn.faults) (terms_of (C.start clock.now) wanted.entry.token.now wanted.entry.genesis wanted.entry.genesis_time) wanted.entry.connections
        (signers_seen S.told S.faults S.denials (map (λ place. place.signer) places.items)) (signers_seen S.told S.faults S.denials signers.new.items)
        (door_seen R.coming R.finished R.lent R.faults door) (door_seen R.coming R.finished R.lent R.faults result.1) passes.new.items result.0 }
{
    let mut servants = servants;
    take_seats(rt, alloc, wanted, clock, shared, places, &mut servants);
    let (ended, door, servants) = serve_door(rt, alloc, wanted.connections, door, servants);
    leave_seats(servants, passes, signers);
    (ended, door)
}
