//! A door in memory, which tells which connections come and which it took back, and fails where it is told to.
ghost use Rattle.std.specs.Prelude.{◌≡◌, ◌+◌, ◌<◌, ◌≤◌, ℕ, [], ◌∷◌, Some, None, IfOk, OnErr, is_ok, vec_len, vec_capacity};

use crate::calls::Calls;
use crate::door::Door;
use crate::mem_link::MemLink;
use crate::traits::Failed;
use std::alloc::{AllocError, Global};

/// A door to which these connections come, in order, and then no other. Its calls of `accept` that its list names
/// (from 0) fail, and it counts it.
#[derive(Drop)]
pub struct MemDoor {
    coming: Vec<MemLink>,
    finished: Vec<MemLink>,
    lent: usize,
    calls: Calls,
    ghost room: { vec_len finished + (lent + vec_len coming) ≤ vec_capacity finished },
}

impl MemDoor {
    ghost use Rattle.edge_kit.specs.Calls.{AreNew};
    ghost use Rattle.edge_kit.specs.OnMemDoors.{door_calls, door_coming, door_finished, door_lent};

    /// A door to which these connections come, each connected; its calls of `accept` of these numbers (from 0)
    /// fail.
    pub fn new(alloc: Global, coming: Vec<MemLink>, failing: Vec<u64>) -> Result<Self, AllocError>
        ensures coming { IfOk result (λ d. door_coming d ≡ coming.items) }
        ensures finished { IfOk result (λ d. door_finished d ≡ []) }
        ensures lent { IfOk result (λ d. door_lent d ≡ 0) }
        ensures calls { IfOk result (λ d. AreNew (door_calls d) failing.items) }
    {
        let finished = Vec::with_capacity(alloc, coming.len())?;
        Ok(MemDoor {
            coming,
            finished,
            lent: 0,
            calls: Calls::new(failing),
        })
    }

    /// The connections that it took back, in order.
    pub fn into_finished(self) -> Vec<MemLink>
        ensures { result.items ≡ door_finished self }
    {
        self.finished
    }
}

impl Door for MemDoor {
    ghost use Rattle.edge_kit.specs.Calls.{IsCounted};
    ghost use Rattle.edge_kit.specs.Doors.{Accepts, LendsFor, TakesBack};
    ghost use Rattle.edge_kit.specs.Links.{Stays};
    ghost use Rattle.edge_kit.specs.OnMemDoors.{door_calls, door_coming, door_finished, door_lent, door_works};
    ghost use Rattle.edge_kit.specs.Tellings.{Tells};

    type Conn = MemLink;

    ghost coming = { λ d. Some (door_coming d) };

    ghost finished = { λ d. Some (door_finished d) };

    ghost lent = { λ d. Some (door_lent d) };

    ghost faults = { λ d. d.calls.faults };

    fn accept(&mut self) -> Result<Option<MemLink>, Failed>
        ensures accepts { IfOk result (Accepts (Some (door_coming self.old)) (Some (door_coming self.new))) }
        ensures coming { OnErr result (Stays (Some (door_coming self.old)) (Some (door_coming self.new))) }
        ensures finished { Stays (Some (door_finished self.old)) (Some (door_finished self.new)) }
        ensures lent { LendsFor (Some (door_lent self.old)) (Some (door_lent self.new)) result }
        ensures works { is_ok result ≡ door_works self.old }
        ensures counted { IsCounted (door_calls self.old) (door_calls self.new) result }
    {
        if self.calls.begin() {
            return Err(self.calls.fail());
        }
        if self.coming.is_empty() {
            return Ok(None);
        }
        let first = self.coming.remove(0);
        self.lent += 1;
        Ok(Some(first))
    }

    fn finish(&mut self, conn: MemLink)
        requires { 0 < door_lent self.old }
        ensures finished { Tells (Some (door_finished self.old)) (Some (door_finished self.new)) (conn ∷ []) }
        ensures coming { Stays (Some (door_coming self.old)) (Some (door_coming self.new)) }
        ensures lent { TakesBack (Some (door_lent self.old)) (Some (door_lent self.new)) }
        ensures calls { door_calls self.new ≡ door_calls self.old }
    {
        self.lent -= 1;
        let _ = self.finished.push(conn);
    }
}
