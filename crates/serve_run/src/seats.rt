//! Lanes that take seats at a shared desk, and leave them.
ghost use Rattle.std.specs.Prelude.{◌≡◌, ◌+◌, ◌≤◌, ◌++◌, [], All, map, vec_capacity, vec_len};
ghost use Rattle.desk_lock.specs.Sharing.{IsSame, given_of, passes_of};
ghost use Rattle.desk_seat.specs.Seats.{IsDeskPass};
ghost use Rattle.duty_workers.specs.Working.{IsReady};
ghost use Rattle.serve_run.specs.Seating.{AreNew, lane_end};

use crate::lanes::LaneEnd;
use desk_lock::{Owner, Pass, Shared};
use desk_seat::{LentDesk, Seated};
use duty_workers::Lane;
use edge_kit::Disk;
use std::sync::Wait;

/// A lane with the pass that it is given.
pub(crate) type LaneOf<D, S, N> = Lane<Pass<LentDesk<D>>, S, N>;

/// A lane that has taken its seat.
pub(crate) type SeatedLane<'a, D, T, S, N> = Lane<Seated<'a, D, T>, S, N>;

/// Gives a pass to each lane, in their order.
pub(crate) fn give_passes<D: Disk, S: Drop, N: Drop>(
    owner: &mut Owner<LentDesk<D>>,
    ends: Vec<LaneEnd<S, N>>,
    lanes: &mut Vec<LaneOf<D, S, N>>,
)
    requires count { given_of owner.old + vec_len ends ≡ passes_of owner.old }
    requires none { lanes.old.items ≡ [] }
    requires room { vec_len ends ≤ vec_capacity lanes.old }
    ensures same { IsSame owner.old owner.new }
    ensures given { given_of owner.new ≡ passes_of owner.new }
    ensures ends { map lane_end lanes.new.items ≡ ends.items }
    ensures new { AreNew D.moment D.leaves D.faults owner.new.shared (given_of owner.old) (map (λ lane. lane.desk) lanes.new.items) }
{
    'ends: for end in ends {
        let LaneEnd { signer, nodes } = end;
        let Some(pass) = owner.pass() else {
            unreachable!()
        };
        lanes.push_reserved(Lane::new(pass, signer, nodes));
    }
}

/// Lets each lane take its seat.
pub(crate) fn take_seats<'a, D: Disk, T: Wait, S: Drop, N: Drop>(
    rt: &'a T,
    shared: &'a Shared<LentDesk<D>>,
    lanes: Vec<LaneOf<D, S, N>>,
    seats: &mut Vec<SeatedLane<'a, D, T, S, N>>,
)
    requires passes { All (λ lane. IsDeskPass D.moment D.leaves D.faults shared.now lane.desk) lanes.items }
    requires none { seats.old.items ≡ [] }
    requires room { vec_len lanes ≤ vec_capacity seats.old }
    ensures passes { map (λ lane. lane.desk.pass) seats.new.items ≡ map (λ lane. lane.desk) lanes.items }
    ensures ends { map lane_end seats.new.items ≡ map lane_end lanes.items }
    ensures shared { All (λ lane. lane.desk.shared.now ≡ shared.now) seats.new.items }
    ensures ready { All (IsReady (λ desk. IsDeskPass D.moment D.leaves D.faults desk.shared.now desk.pass)) seats.new.items }
{
    'lanes: for lane in lanes {
        let (pass, signer, nodes) = lane.into_parts();
        seats.push_reserved(Lane::new(Seated::new(rt, shared, pass), signer, nodes));
    }
}

/// Lets each lane leave its seat, and hands its pass back, and what it worked with.
pub(crate) fn leave_seats<'a, D: Disk, T: Wait, S: Drop, N: Drop>(
    seats: Vec<SeatedLane<'a, D, T, S, N>>,
    passes: &mut Vec<Pass<LentDesk<D>>>,
    ends: &mut Vec<LaneEnd<S, N>>,
)
    requires none { ends.old.items ≡ [] }
    requires room { (vec_len passes.old + vec_len seats ≤ vec_capacity passes.old) × (vec_len seats ≤ vec_capacity ends.old) }
    ensures passes { passes.new.items ≡ passes.old.items ++ map (λ lane. lane.desk.pass) seats.entry.items }
    ensures ends { ends.new.items ≡ map lane_end seats.entry.items }
{
    'seats: for lane in seats {
        let (seat, signer, nodes) = lane.into_parts();
        passes.push_reserved(seat.into_pass());
        ends.push_reserved(LaneEnd { signer, nodes });
    }
}
