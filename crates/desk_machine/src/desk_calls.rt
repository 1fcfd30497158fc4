//! Anything that takes the desk's calls, as the desk itself does.
ghost use Rattle.std.specs.Prelude.{List, [], ◌∷◌, ◌++◌};
ghost use Rattle.desk_machine.specs.Given.{MayMake};
ghost use Rattle.desk_machine.specs.Grants.{IsGrantFor};
ghost use Rattle.desk_machine.specs.Kinds.{IsKind};
ghost use Rattle.desk_machine.specs.Making.{ClosesIdle, MaySettle};
ghost use Rattle.desk_machine.specs.declared.call.DeskCall.{DeskCall};
ghost use Rattle.desk_machine.specs.declared.call.DeskCall.TheVariants.{FinishClose};
ghost use Rattle.desk_machine.specs.declared.call.DeskReply.{DeskReply};

use crate::call::{DeskCall, DeskReply};
use edge_kit::PubKey;

/// Takes the desk's calls. What was made of it is a list of calls with their replies: at a desk a run of its
/// machine.
pub trait DeskCalls {
    /// It can take calls.
    ghost ready: { Self → Type 0 };

    /// It can take this one.
    ghost allows: { Self → DeskCall → Type 0 };

    /// These calls, with these replies, lead from the one to the other.
    ghost leads: { Self → List (DeskCall × DeskReply) → Self → Type 0 };

    /// One call.
    fn call(&mut self, call: DeskCall) -> DeskReply
        requires ready { ready self.old }
        requires allows { allows self.old call }
        ensures ready { ready self.new }
        ensures leads { leads self.old ((call, result) ∷ []) self.new }
        ensures granted { IsGrantFor call result }
        ensures kind { IsKind call result }
        ensures settles { MaySettle (λ c. allows self.new c) result };

    /// Closes a key, where none of its grants is open: calls to finish the closing, of which each but the last was
    /// answered that grants are open, and the reply to the last.
    fn close_idle(&mut self, key: &PubKey) -> DeskReply
        requires ready { ready self.old }
        ensures ready { ready self.new }
        ensures made { (made : List (DeskCall × DeskReply)) × ClosesIdle (FinishClose key.now) result made × leads self.old made self.new }
        ensures kind { IsKind (FinishClose key.now) result };

    /// No call leads anywhere else.
    ghost leads_none: { (d : Self) → leads d [] d };

    /// What leads on after what led there leads all the way.
    ghost leads_more: { (d e f : Self) (xs ys : List (DeskCall × DeskReply)) → leads d xs e → leads e ys f → leads d (xs ++ ys) f };

    /// A call that spends no grant may be made at any time.
    ghost free: { (d : Self) (c : DeskCall) → MayMake [] c → allows d c };

    /// What these calls allow may be called after them: they gave the grants that it spends, and left them open.
    ghost admits: { (d e : Self) (made : List (DeskCall × DeskReply)) (c : DeskCall) → leads d made e → MayMake made c → allows e c };
}
