//! A seat at a shared door.
ghost use Rattle.std.specs.Prelude.{◌≡◌, [], ◌∷◌, length, refl};
ghost use Rattle.std.proofs.Common.{◌∙◌};
ghost use Rattle.door_lanes.specs.Doors.{connection_in, returned};
ghost use Rattle.door_lanes.specs.Seats.{IsDoorPass, IsUsedPass, Grows};
ghost use Rattle.door_lanes.specs.SeatLaws.{grows_none, grows_more};

use crate::counted::{CountedDoor, Taken};
use crate::takes::Takes;
use desk_lock::{Pass, Shared};
use edge_kit::Door;
use std::sync::{Mutex, Wait};

/// A seat at a shared door: a pass that takes connections by turns. Each turn is taken under the lock, so that who waits
/// for it sleeps until it is free, however long the one before waits for a connection.
#[derive(Drop)]
pub(crate) struct DoorSeat<'a, R: Door, W: Wait> {
    lock: &'a Mutex<()>,
    shared: &'a Shared<CountedDoor<R>>,
    pass: Pass<CountedDoor<R>>,
    rt: &'a W,
}

impl<'a, R: Door, W: Wait> Takes<R::Conn> for DoorSeat<'a, R, W> {
    ghost ready = { λ s n. IsUsedPass s.shared.now s.pass n };

    ghost leads = { λ s xs t. (t.shared ≡ s.shared) × Grows s.pass xs t.pass };

    /// One turn. It waits while another has the lock, and until a connection comes. Takes no memory of its own.
    fn take(&mut self, back: Option<R::Conn>) -> Taken<R::Conn>
        requires { IsUsedPass self.old.shared.now self.old.pass (length (returned back)) }
        ensures ready { IsUsedPass self.new.shared.now self.new.pass (length (connection_in result)) }
        ensures leads { (self.new.shared ≡ self.old.shared) × Grows self.old.pass ((back, result) ∷ []) self.new.pass }
    {
        let _held = self.lock.lock(self.rt);
        self.shared.turn(self.rt, &mut self.pass, back)
    }

    ghost leads_none = { λ s. (refl, grows_none s.pass) };

    ghost leads_more = { λ s t u xs ys p q. (q.0 ∙ p.0, grows_more s.pass t.pass u.pass xs ys p.1 q.1) };
}

impl<'a, R: Door, W: Wait> DoorSeat<'a, R, W> {
    /// Takes a seat. Takes no memory.
    pub(crate) fn new(
        rt: &'a W,
        lock: &'a Mutex<()>,
        shared: &'a Shared<CountedDoor<R>>,
        pass: Pass<CountedDoor<R>>,
    ) -> DoorSeat<'a, R, W>
        requires { IsDoorPass shared.now pass }
        ensures { (result.shared ≡ shared.entry) × (result.pass ≡ pass) }
    {
        DoorSeat {
            lock,
            shared,
            pass,
            rt,
        }
    }

    /// Gives the pass back. Takes no memory.
    pub(crate) fn into_pass(self) -> Pass<CountedDoor<R>>
        ensures { result ≡ self.entry.pass }
    {
        let DoorSeat {
            lock: _,
            shared: _,
            pass,
            rt: _,
        } = self;
        pass
    }
}
