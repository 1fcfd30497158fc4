//! What holds of each history of a shared desk, whatever its passes do. It begins with any desk.
ghost use Rattle.std.specs.Prelude.{◌≡◌, ℕ, List, [], ◌∷◌, ◌++◌, Contains};
ghost use Rattle.edge_kit.specs.declared.bytes.PubKey.{PubKey};
ghost use Rattle.slash_defs.specs.declared.book.Book.{Book};
ghost use Rattle.desk_machine.specs.Given.{MayMake};
ghost use Rattle.desk_machine.specs.declared.open_grant.OpenGrant.{OpenGrant};
ghost use Rattle.desk_machine.specs.declared.call.Outcome.{Outcome};
ghost use Rattle.desk_machine.specs.declared.call.DeskCall.{DeskCall};
ghost use Rattle.desk_machine.specs.declared.call.DeskCall.TheVariants.{FinishClose, Settle};
ghost use Rattle.desk_machine.specs.declared.call.DeskReply.{DeskReply};
ghost use Rattle.desk_machine.specs.declared.call.DeskReply.TheVariants.{Closed, Granted};
ghost use Rattle.check_sign.specs.Contents.{Seen};
ghost use Rattle.desk_lock.specs.Histories.{Legal, entry, own};
ghost use Rattle.desk_seat.specs.Steps.{DeskStep};
ghost use Rattle.desk_seat.specs.Turns.{calls_of};
ghost use Rattle.desk_seat.specs.Spans.{History, NoneInHand, Spans};

use edge_kit::Disk;

/// While a pass has a grant, the grant's key is not closed, whatever other passes do. Where among a pass's own calls
/// one was given a grant and a later one settled it, these two are turns of the history in this order, and by no turn
/// between them was that key closed.
pub fn span_law<D: Disk>()
    ensures { (opened closed : Seen D) (log : History) (k : ℕ) (xs ys zs : List (DeskCall × DeskReply)) (c : DeskCall) (r : DeskReply) (grant : OpenGrant) (o : Outcome)
        → Legal (DeskStep D.moment D.leaves D.faults) MayMake [] opened log closed → own k log ≡ xs ++ (c, Granted grant) ∷ (ys ++ (Settle grant o, r) ∷ zs)
        → Spans log k grant o }
{}

/// A key is closed only once each grant of it that any pass was given before is settled.
pub fn close_law<D: Disk>()
    ensures { (opened closed : Seen D) (log before later : History) (n : ℕ) (key : PubKey) (book : Book)
        → Legal (DeskStep D.moment D.leaves D.faults) MayMake [] opened log closed → log ≡ before ++ entry n (FinishClose key) (Closed book) ∷ later
        → NoneInHand before key }
{}

/// Each call of a pass, with its reply, is among those of the history.
pub fn among_law()
    ensures { (log : History) (k : ℕ) (x : DeskCall × DeskReply) → Contains (own k log) x → Contains (calls_of log) x }
{}
