//! A door that lanes share, from first to last.
ghost use Rattle.std.specs.Prelude.{◌≡◌, ◌≤◌, [], All, IfErr, IfOk, None, map, vec_capacity, vec_len};
ghost use Rattle.desk_lock.specs.Sharing.{AreAllAt, given_of, opening, passes_of};
ghost use Rattle.door_lanes.specs.Doors.{MayAsk, TakeStep, counted_anew, door_seen};
ghost use Rattle.door_lanes.specs.Runs.{AreNew, RanSeated, Served, TakenBack};

use crate::counted::CountedDoor;
use crate::finish::hand_back_all;
use crate::lanes::{LoopEnd, serve_lanes};
use crate::seats::{LaneOf, SeatedLane, give_passes, leave_seats, take_seats};
use crate::serves::Serves;
use desk_lock::{Owner, Pass, Shared};
use edge_kit::Door;
use std::alloc::{AllocError, Global};
use std::sync::{Mutex, Wait};
use std::thread::Threads;

/// Room for what is handed out and back while the door is shared.
#[derive(Drop)]
struct Room<R: Door, V> {
    given: Vec<LaneOf<R, V>>,
    passes: Vec<Pass<CountedDoor<R>>>,
    kept: Vec<Option<R::Conn>>,
    servants: Vec<V>,
}

/// Room for that many lanes. The error is want of memory.
fn room_for<R: Door, V: Drop>(alloc: Global, count: usize) -> Result<Room<R, V>, AllocError>
where
    R::Conn: Drop,
    ensures given { IfOk result (λ room. (room.given.items ≡ []) × (count ≤ vec_capacity room.given)) }
    ensures passes { IfOk result (λ room. (room.passes.items ≡ []) × (count ≤ vec_capacity room.passes)) }
    ensures kept { IfOk result (λ room. (room.kept.items ≡ []) × (count ≤ vec_capacity room.kept)) }
    ensures servants { IfOk result (λ room. (room.servants.items ≡ []) × (count ≤ vec_capacity room.servants)) }
{
    Ok(Room {
        given: Vec::with_capacity(alloc, count)?,
        passes: Vec::with_capacity(alloc, count)?,
        kept: Vec::with_capacity(alloc, count)?,
        servants: Vec::with_capacity(alloc, count)?,
    })
}

/// Has lanes, one for each servant (1 to 64), serve the connections of a door until `wanted` of them were given or the
/// door has no other. Each lane takes a connection by a turn at the door and serves it, in a thread of its own where the
/// system makes one, and else one lane after another. It hands the connection back with its next turn, and takes another
/// by it, so that it never has more than one. The last ones, that were not handed back by a turn, are finished in the end,
/// lane by lane, however the lanes ended. The door and the servants come back, the servants in their order and ready for
/// other connections. Lanes take no memory of their own.
///
/// # Errors
///
/// In this order:
/// - `LoopEnd::Memory`: memory was wanted. Nothing was done, and door and servants are as they were.
/// - `LoopEnd::Disk`: a servant said after a connection that the disk of its desk had failed.
/// - `LoopEnd::Door`: the door failed, and its count of faults rose.
///
/// A lane ends by its own fault alone: the others go on to their ends.
pub fn serve_door<X: Threads + Wait + Sync, R: Door + Send, V: Serves<R::Conn> + Send + Drop>(
    rt: &X,
    alloc: Global,
    wanted: u64,
    door: R,
    servants: Vec<V>,
) -> (Result<(), LoopEnd>, R, Vec<V>)
where
    R::Conn: Send + Drop,
    requires count { (1 ≤ vec_len servants) × (vec_len servants ≤ 64) }
    requires ready { All V.ready servants.items }
    ensures served { Served V.serves wanted (door_seen R.coming R.finished R.lent R.faults door) (door_seen R.coming R.finished R.lent R.faults result.1) servants.items result.2.items result.0 }
    ensures ready { All V.ready result.2.items }
{
    let count = servants.len();
    let Ok(room) = room_for(alloc, count) else {
        return (Err(LoopEnd::Memory), door, servants);
    };
    let Ok(seats) = Vec::with_capacity(alloc, count) else {
        return (Err(LoopEnd::Memory), door, servants);
    };
    let mut owner = match lend_door(alloc, wanted, door, count as u64) {
        Ok(owner) => owner,
        Err(door) => {
            seats.destroy_empty();
            return (Err(LoopEnd::Memory), door, servants);
        }
    };
    let Room {
        mut given,
        mut passes,
        mut kept,
        servants: mut left,
    } = room;
    give_passes(&mut owner, servants, &mut given);
    let lock = Mutex::new(());
    let ended = serve_seated(
        rt,
        &lock,
        &owner.shared,
        given,
        seats,
        &mut passes,
        &mut kept,
        &mut left,
    );
    let mut door = take_door(owner, passes);
    hand_back_all(&mut door, kept);
    (ended, door, left)
}

/// Lends a door to `n` passes, 1 to 66. The error is the door as it was, where memory was wanted.
fn lend_door<R: Door>(
    alloc: Global,
    wanted: u64,
    door: R,
    n: u64,
) -> Result<Owner<CountedDoor<R>>, R>
    requires count { (1 ≤ n) × (n ≤ 66) }
    ensures ok { IfOk result (λ s. (opening s.shared ≡ counted_anew (door_seen R.coming R.finished R.lent R.faults door) wanted) × (passes_of s ≡ n) × (given_of s ≡ 0)) }
    ensures err { IfErr result (λ d. door_seen R.coming R.finished R.lent R.faults d ≡ door_seen R.coming R.finished R.lent R.faults door) }
{
    match Owner::new(alloc, CountedDoor::new(door, wanted), n) {
        Ok(owner) => Ok(owner),
        Err(counted) => Err(counted.into_door()),
    }
}

/// Takes the door back, once all passes are handed back in the order of their numbers. Takes no memory.
fn take_door<R: Door>(owner: Owner<CountedDoor<R>>, passes: Vec<Pass<CountedDoor<R>>>) -> R
    requires given { given_of owner ≡ passes_of owner }
    requires all { AreAllAt TakeStep MayAsk owner passes.items }
    ensures { TakenBack (opening owner.shared) passes.items (door_seen R.coming R.finished R.lent R.faults result) }
{
    let counted = owner.close(passes);
    counted.into_door()
}

/// Takes the seats, lets the lanes serve, and leaves the seats.
fn serve_seated<'a, X: Threads + Wait + Sync, R: Door + Send, V: Serves<R::Conn> + Send + Drop>(
    rt: &'a X,
    lock: &'a Mutex<()>,
    shared: &'a Shared<CountedDoor<R>>,
    given: Vec<LaneOf<R, V>>,
    seats: Vec<SeatedLane<'a, R, X, V>>,
    passes: &mut Vec<Pass<CountedDoor<R>>>,
    kept: &mut Vec<Option<R::Conn>>,
    servants: &mut Vec<V>,
) -> Result<(), LoopEnd>
where
    R::Conn: Send + Drop,
    requires given { AreNew shared.now 0 (map (λ lane. lane.taker) given.items) }
    requires empty { All (λ lane. lane.kept ≡ None) given.items }
    requires ready { All (λ lane. V.ready lane.servant) given.items }
    requires some { 1 ≤ vec_len given }
    requires seats { (seats.items ≡ []) × (vec_len given ≤ vec_capacity seats) }
    requires passes { (passes.old.items ≡ []) × (vec_len given ≤ vec_capacity passes.old) }
    requires kept { (kept.old.items ≡ []) × (vec_len given ≤ vec_capacity kept.old) }
    requires servants { (servants.old.items ≡ []) × (vec_len given ≤ vec_capacity servants.old) }
    ensures ran { RanSeated V.serves shared.now (map (λ lane. lane.servant) given.items) passes.new.items kept.new.items servants.new.items result }
    ensures ready { All V.ready servants.new.items }
{
    let mut seats = seats;
    take_seats(rt, lock, shared, given, &mut seats);
    let ended = serve_lanes(rt, seats.as_mut_slice());
    leave_seats(seats, passes, kept, servants);
    ended
}
