//! A lane: it takes the connections of a door, one after another, serves them and hands them back.
ghost use Rattle.std.specs.Prelude.{◌≡◌};
ghost use Rattle.door_lanes.specs.Lanes.{HasTaken, IsReady, ServesOne, Steps, Went};

use crate::counted::Taken;
use crate::serves::Serves;
use crate::takes::Takes;
use std::sync::Wait;

/// Why a lane takes no other connection.
#[derive(Clone, Copy)]
pub(crate) enum LaneEnd {
    /// As many connections were given as are wanted.
    Full,
    /// The door has no other connection.
    NoMore,
    /// The door failed: its count of faults rose.
    Door,
    /// After the last connection the disk of the desk was said to have failed.
    Disk,
}

/// What a lane takes connections with, what serves them, and the one that it served last.
#[derive(Drop)]
pub(crate) struct Lane<T, V, C> {
    /// What takes them.
    pub(crate) taker: T,
    /// What serves them.
    pub(crate) servant: V,
    /// The one that it served last, if it did not hand it back yet.
    pub(crate) kept: Option<C>,
    /// Why it ended, once it did. Before that it says nothing.
    pub(crate) end: LaneEnd,
}

/// Takes connections, serves them and hands each back with its next turn, until there is a reason to take no other, which
/// is left in the lane. Takes no memory of its own.
pub(crate) fn run_lane<R: Wait, C: Drop, T: Takes<C>, V: Serves<C>>(
    rt: &R,
    lane: &mut Lane<T, V, C>,
)
    requires ready { IsReady T.ready V.ready lane.old }
    ensures ready { IsReady T.ready V.ready lane.new }
    ensures went { Went T.leads V.serves lane.old lane.new }
{
    for _ in rt.forever() {
        if let Some(end) = step(lane) {
            lane.end = end;
            return;
        }
    }
    unreachable!()
}

/// Hands back the connection that it served last, takes another and serves it. Some: why no other is taken.
fn step<C: Drop, T: Takes<C>, V: Serves<C>>(lane: &mut Lane<T, V, C>) -> Option<LaneEnd>
    requires ready { IsReady T.ready V.ready lane.old }
    ensures ready { IsReady T.ready V.ready lane.new }
    ensures steps { Steps T.leads V.serves lane.old lane.new result }
{
    let back = lane.kept.take();
    match lane.taker.take(back) {
        Taken::Connection(connection) => serve_one(lane, connection),
        Taken::Full => Some(LaneEnd::Full),
        Taken::NoMore => Some(LaneEnd::NoMore),
        Taken::Failed => Some(LaneEnd::Door),
    }
}

/// Serves a connection that was taken, and keeps it. Some: the disk failed.
fn serve_one<C: Drop, T: Takes<C>, V: Serves<C>>(
    lane: &mut Lane<T, V, C>,
    mut connection: C,
) -> Option<LaneEnd>
    requires taken { HasTaken T.ready V.ready lane.old }
    ensures ready { IsReady T.ready V.ready lane.new }
    ensures serves { ServesOne V.serves lane.old connection lane.new result }
{
    let failed = lane.servant.serve(&mut connection);
    lane.kept = Some(connection);
    if failed {
        return Some(LaneEnd::Disk);
    }
    None
}
