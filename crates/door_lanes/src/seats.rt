//! Lanes that take seats at a shared door, and leave them.
ghost use Rattle.std.specs.Prelude.{◌≡◌, ◌+◌, ◌≤◌, [], All, None, map, vec_capacity, vec_len};
ghost use Rattle.desk_lock.specs.Sharing.{IsSame, given_of, passes_of};
ghost use Rattle.door_lanes.specs.Seats.{IsDoorPass};
ghost use Rattle.door_lanes.specs.Runs.{AreNew};

use crate::counted::CountedDoor;
use crate::lane::{Lane, LaneEnd};
use crate::seat::DoorSeat;
use desk_lock::{Owner, Pass, Shared};
use edge_kit::Door;
use std::sync::{Mutex, Wait};

/// A lane with the pass that it is given.
pub(crate) type LaneOf<R, V> = Lane<Pass<CountedDoor<R>>, V, <R as Door>::Conn>;

/// A lane that has taken its seat.
pub(crate) type SeatedLane<'a, R, X, V> = Lane<DoorSeat<'a, R, X>, V, <R as Door>::Conn>;

/// Gives a pass to each lane, in their order.
pub(crate) fn give_passes<R: Door, V: Drop>(
    owner: &mut Owner<CountedDoor<R>>,
    servants: Vec<V>,
    lanes: &mut Vec<LaneOf<R, V>>,
)
where
    R::Conn: Drop,
    requires count { given_of owner.old + vec_len servants ≡ passes_of owner.old }
    requires none { lanes.old.items ≡ [] }
    requires room { vec_len servants ≤ vec_capacity lanes.old }
    ensures same { IsSame owner.old owner.new }
    ensures given { given_of owner.new ≡ passes_of owner.new }
    ensures servants { map (λ lane. lane.servant) lanes.new.items ≡ servants.items }
    ensures empty { All (λ lane. lane.kept ≡ None) lanes.new.items }
    ensures new { AreNew owner.new.shared (given_of owner.old) (map (λ lane. lane.taker) lanes.new.items) }
{
    'servants: for servant in servants {
        let Some(pass) = owner.pass() else {
            unreachable!()
        };
        lanes.push_reserved(new_lane(pass, servant));
    }
}

/// A lane that has done nothing yet.
fn new_lane<T, V, C>(taker: T, servant: V) -> Lane<T, V, C>
    ensures parts { (result.taker ≡ taker) × (result.servant ≡ servant) }
    ensures empty { result.kept ≡ None }
{
    Lane {
        taker,
        servant,
        kept: None,
        end: LaneEnd::Full,
    }
}

/// Lets each lane take its seat.
pub(crate) fn take_seats<'a, R: Door, X: Wait, V: Drop>(
    rt: &'a X,
    lock: &'a Mutex<()>,
    shared: &'a Shared<CountedDoor<R>>,
    lanes: Vec<LaneOf<R, V>>,
    seats: &mut Vec<SeatedLane<'a, R, X, V>>,
)
where
    R::Conn: Drop,
    requires passes { All (λ lane. IsDoorPass shared.now lane.taker) lanes.items }
    requires none { seats.old.items ≡ [] }
    requires room { vec_len lanes ≤ vec_capacity seats.old }
    ensures passes { map (λ lane. lane.taker.pass) seats.new.items ≡ map (λ lane. lane.taker) lanes.items }
    ensures servants { map (λ lane. lane.servant) seats.new.items ≡ map (λ lane. lane.servant) lanes.items }
    ensures kept { map (λ lane. lane.kept) seats.new.items ≡ map (λ lane. lane.kept) lanes.items }
    ensures shared { All (λ lane. lane.taker.shared.now ≡ shared.now) seats.new.items }
{
    'lanes: for lane in lanes {
        let Lane {
            taker,
            servant,
            kept,
            end,
        } = lane;
        seats.push_reserved(Lane {
            taker: DoorSeat::new(rt, lock, shared, taker),
            servant,
            kept,
            end,
        });
    }
}

/// Lets each lane leave its seat, and hands back its pass, what it keeps and its servant, each in the order of the lanes.
pub(crate) fn leave_seats<'a, R: Door, X: Wait, V: Drop>(
    seats: Vec<SeatedLane<'a, R, X, V>>,
    passes: &mut Vec<Pass<CountedDoor<R>>>,
    kept: &mut Vec<Option<R::Conn>>,
    servants: &mut Vec<V>,
)
where
    R::Conn: Drop,
    requires none { (passes.old.items ≡ []) × (kept.old.items ≡ []) × (servants.old.items ≡ []) }
    requires room { (vec_len seats ≤ vec_capacity passes.old) × (vec_len seats ≤ vec_capacity kept.old) × (vec_len seats ≤ vec_capacity servants.old) }
    ensures passes { passes.new.items ≡ map (λ lane. lane.taker.pass) seats.entry.items }
    ensures kept { kept.new.items ≡ map (λ lane. lane.kept) seats.entry.items }
    ensures servants { servants.new.items ≡ map (λ lane. lane.servant) seats.entry.items }
{
    'seats: for lane in seats {
        let Lane {
            taker,
            servant,
            kept: last,
            end: _,
        } = lane;
        passes.push_reserved(taker.into_pass());
        kept.push_reserved(last);
        servants.push_reserved(servant);
    }
}
