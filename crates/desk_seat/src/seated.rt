//! A seat at a shared desk.
ghost use Rattle.std.specs.Prelude.{◌≡◌, ◌∷◌, [], ◌++◌, List, refl};
ghost use Rattle.std.proofs.Common.{◌∙◌};
ghost use Rattle.desk_machine.specs.Grants.{IsGrantFor};
ghost use Rattle.desk_machine.specs.Given.{MayMake};
ghost use Rattle.desk_machine.specs.Kinds.{IsKind};
ghost use Rattle.desk_machine.specs.Making.{ClosesIdle, IsBusy};
ghost use Rattle.desk_machine.specs.declared.call.DeskCall.{DeskCall};
ghost use Rattle.desk_machine.specs.declared.call.DeskCall.TheVariants.{FinishClose};
ghost use Rattle.desk_machine.specs.declared.call.DeskReply.{DeskReply};
ghost use Rattle.desk_lock.specs.Passes.{made};
ghost use Rattle.desk_seat.specs.Seats.{IsDeskPass, Grows};
ghost use Rattle.desk_seat.specs.SeatLaws.{grows_none, grows_more, grows_admits};

use crate::lent_desk::LentDesk;
use desk_lock::{Pass, Shared};
use desk_machine::{DeskCall, DeskCalls, DeskReply};
use edge_kit::{Disk, PubKey};
use std::sync::Wait;
use std::sync::atomic::AtomicU64;
use std::time::Duration;

/// How many microseconds a close sleeps between two of its turns.
const PAUSE_MICROS: u64 = 500;

/// A seat at a shared desk: a pass that takes the desk's calls by turns. What was made of it are the pass's own calls,
/// each answered as the desk answers it at its place in the history of all passes.
#[derive(Drop)]
pub struct Seated<'a, D: Disk, W: Wait> {
    shared: &'a Shared<LentDesk<D>>,
    pass: Pass<LentDesk<D>>,
    rt: &'a W,
}

impl<'a, D: Disk, W: Wait> DeskCalls for Seated<'a, D, W> {
    ghost ready = { λ s. IsDeskPass D.moment D.leaves D.faults s.shared.now s.pass };

    ghost allows = { λ s c. MayMake (made s.pass) c };

    ghost leads = { λ s xs t. (t.shared ≡ s.shared) × Grows s.pass xs t.pass };

    /// One turn. It waits while another pass has the desk.
    fn call(&mut self, call: DeskCall) -> DeskReply {
        self.shared.turn(self.rt, &mut self.pass, call)
    }

    /// As `close_by_turns`.
    fn close_idle(&mut self, key: &PubKey) -> DeskReply {
        self.close_by_turns(key)
    }

    ghost leads_none = { λ d. (refl, grows_none d.pass) };

    ghost leads_more = { λ d e f xs ys p q. (q.0 ∙ p.0, grows_more d.pass e.pass f.pass xs ys p.1 q.1) };

    ghost free = { λ d c h. grows_admits d.pass d.pass [] c (grows_none d.pass) h };

    ghost admits = { λ d e made c p h. grows_admits d.pass e.pass made c p.1 h };
}

impl<'a, D: Disk, W: Wait> Seated<'a, D, W> {
    /// Takes a seat. Takes no memory.
    pub fn new(
        rt: &'a W,
        shared: &'a Shared<LentDesk<D>>,
        pass: Pass<LentDesk<D>>,
    ) -> Seated<'a, D, W>
        requires { IsDeskPass D.moment D.leaves D.faults shared.now pass }
        ensures { (result.shared ≡ shared.entry) × (result.pass ≡ pass) }
    {
        Seated { shared, pass, rt }
    }

    /// Closes a key by turns, until none of its grants is open: it waits while others have some in hand, and is never
    /// answered that grants are open.
    pub fn close_by_turns(&mut self, key: &PubKey) -> DeskReply
        requires ready { IsDeskPass D.moment D.leaves D.faults self.old.shared.now self.old.pass }
        ensures ready { IsDeskPass D.moment D.leaves D.faults self.new.shared.now self.new.pass }
        ensures made { (made : List (DeskCall × DeskReply)) × ClosesIdle (FinishClose key.now) result made × (self.new.shared ≡ self.old.shared) × Grows self.old.pass made self.new.pass }
        ensures kind { IsKind (FinishClose key.now) result }
        ensures idle { IsBusy result → ⊥ }
    {
        for _ in self.rt.forever() {
            match DeskCalls::call(self, DeskCall::FinishClose { key: *key }) {
                DeskReply::Busy { grants: _ } => pause(self.rt),
                reply => return reply,
            }
        }
        unreachable!()
    }

    /// Gives the pass back. Takes no memory.
    pub fn into_pass(self) -> Pass<LentDesk<D>>
        ensures { result ≡ self.entry.pass }
    {
        let Seated {
            shared: _,
            pass,
            rt: _,
        } = self;
        pass
    }
}

/// Sleeps a while, so that others make their turns. No thread knows the word, so none wakes it.
fn pause<W: Wait>(rt: &W) {
    AtomicU64::new(0).park_timeout(rt, 0, Duration::from_micros(PAUSE_MICROS));
}
