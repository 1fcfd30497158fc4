//! A door that counts what it gives, as a value that lanes share.
ghost use Rattle.std.specs.Prelude.{◌≡◌};
ghost use Rattle.door_lanes.specs.Doors.{NextStep, counted_anew, door_seen};

use crate::finish::hand_back;
use desk_lock::Seq;
use edge_kit::{Door, Failed};
use std::marker::Model;

/// What came of asking a door for a connection.
#[derive(Drop)]
pub enum Taken<C> {
    /// The next connection.
    Connection(C),
    /// As many as are wanted were given before; the door was not asked.
    Full,
    /// The door has no other connection, and none will come.
    NoMore,
    /// The door failed: its count of faults rose.
    Failed,
}

/// A door, how many connections it gave, and how many are wanted.
#[derive(Drop)]
pub(crate) struct CountedDoor<R: Door> {
    door: R,
    given: u64,
    wanted: u64,
}

impl<R: Door> Model for CountedDoor<R> {
    ghost use Rattle.door_lanes.specs.Doors.{CountedSeen, door_seen};

    ghost Value = { CountedSeen R.Conn };

    ghost view = { λ s. record { door = door_seen R.coming R.finished R.lent R.faults s.door; given = s.given; wanted = s.wanted } };
}

impl<R: Door> CountedDoor<R> {
    /// A door that gave no connection yet. Takes no memory.
    pub(crate) fn new(door: R, wanted: u64) -> CountedDoor<R>
        ensures { result ≡ counted_anew (door_seen R.coming R.finished R.lent R.faults door) wanted }
    {
        CountedDoor {
            door,
            given: 0,
            wanted,
        }
    }

    /// The next connection, where fewer were given than are wanted. It may wait until one comes.
    fn next(&mut self) -> Taken<R::Conn>
        ensures { NextStep self.old result self.new }
    {
        if self.given >= self.wanted {
            return Taken::Full;
        }
        match self.door.accept() {
            Ok(Some(connection)) => {
                self.given += 1;
                Taken::Connection(connection)
            }
            Ok(None) => Taken::NoMore,
            Err(Failed) => Taken::Failed,
        }
    }

    /// The door itself. Takes no memory.
    pub(crate) fn into_door(self) -> R
        ensures { door_seen R.coming R.finished R.lent R.faults result ≡ self.door }
    {
        let CountedDoor {
            door,
            given: _,
            wanted: _,
        } = self;
        door
    }
}

impl<R: Door> Seq for CountedDoor<R> {
    ghost use Rattle.door_lanes.specs.Doors.{CanAsk, MayAsk, TakeStep};
    ghost use Rattle.door_lanes.specs.DoorLaws.{door_admits};

    /// The connection that is handed back, if there is one.
    type Call = Option<R::Conn>;

    type Reply = Taken<R::Conn>;

    ghost begins = { λ d. Unit {0} };

    ghost steps = { TakeStep };

    ghost may = { MayAsk };

    ghost can = { CanAsk };

    /// Takes back the connection that is handed back, and then gives the next. It may wait until one comes.
    fn apply(&mut self, call: Option<R::Conn>) -> Taken<R::Conn> {
        hand_back(&mut self.door, call);
        self.next()
    }

    ghost admits = { λ s t log by call begun legal ok. door_admits s t log by call legal ok };
}
