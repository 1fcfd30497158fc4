//! What can be shared.
ghost use Rattle.std.specs.Prelude.{List, [], ◌∷◌, ℕ};
ghost use Rattle.desk_lock.specs.declared.types.Entry.{Entry};
ghost use Rattle.desk_lock.specs.Histories.{Legal, own};

/// A value that takes calls one at a time, and may be shared by threads that make them in turn.
pub trait Seq {
    /// What is called.
    type Call;

    /// What is answered.
    type Reply;

    /// The value may begin a history.
    ghost begins: { Self → Type 0 };

    /// What a call does: of the value before, the call, its reply and the value after.
    ghost steps: { Self → Self.Call → Self.Reply → Self → Type 0 };

    /// Whether a caller may make a call, by its own earlier calls with their replies.
    ghost may: { List (Self.Call × Self.Reply) → Self.Call → Type 0 };

    /// Whether the value can take a call.
    ghost can: { Self → Self.Call → Type 0 };

    /// Takes a call. It waits for nobody, and want of memory is one of its replies.
    fn apply(&mut self, call: Self::Call) -> Self::Reply
        requires { can self.old call }
        ensures { steps self.old call result self.new };

    /// After a legal history, in which each caller made only calls that it may make, the value can take whichever call
    /// a caller may make next.
    ghost admits: { (s t : Self) (log : List (Entry Self.Call Self.Reply)) (by : ℕ) (call : Self.Call) → begins s → Legal steps may [] s log t → may (own by log) call → can t call };
}
