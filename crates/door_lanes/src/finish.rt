//! Connections are handed back to the door.
ghost use Rattle.std.specs.Prelude.{length};
ghost use Rattle.door_lanes.specs.Doors.{AreLent, TookBack, door_seen, returned, returned_in};

use edge_kit::Door;

/// Hands a connection back to the door, if there is one. Takes no memory.
pub(crate) fn hand_back<R: Door>(door: &mut R, back: Option<R::Conn>)
    requires lent { AreLent (R.lent door.old) (length (returned back)) }
    ensures took { TookBack (door_seen R.coming R.finished R.lent R.faults door.old) (returned back) (door_seen R.coming R.finished R.lent R.faults door.new) }
{
    if let Some(connection) = back {
        door.finish(connection);
    }
}

/// Hands each of these connections back to the door, in their order. Takes no memory.
pub(crate) fn hand_back_all<R: Door>(door: &mut R, kept: Vec<Option<R::Conn>>)
where
    R::Conn: Drop,
    requires lent { AreLent (R.lent door.old) (length (returned_in kept.items)) }
    ensures took { TookBack (door_seen R.coming R.finished R.lent R.faults door.old) (returned_in kept.items) (door_seen R.coming R.finished R.lent R.faults door.new) }
{
    'kept: for back in kept {
        hand_back(door, back);
    }
}
