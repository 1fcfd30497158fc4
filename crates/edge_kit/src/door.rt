//! Connections that come in, by their meaning.
ghost use Rattle.std.specs.Prelude.{◌≡◌, ℕ, List, [], ◌∷◌, IfOk, OnErr};
ghost use Rattle.std.specs.declared.option.Option.{Option};
ghost use Rattle.edge_kit.specs.Causes.{HasCause};
ghost use Rattle.edge_kit.specs.Doors.{Accepts, IsLent, LendsFor, TakesBack};
ghost use Rattle.edge_kit.specs.Links.{Stays};
ghost use Rattle.edge_kit.specs.Tellings.{Tells};

use crate::link::Link;
use crate::traits::Failed;

/// Connections that come in, one behind another.
pub trait Door {
    /// A connection, which is connected where it is accepted.
    type Conn: Link;

    /// The connections that still come in, in order, where it tells.
    ghost coming: { Self → Option (List Self.Conn) };

    /// The connections that it took back, in order, where it tells.
    ghost finished: { Self → Option (List Self.Conn) };

    /// How many connections it has given and not taken back, where it tells.
    ghost lent: { Self → Option ℕ };

    /// How often it failed. Never falls.
    ghost faults: { Self → ℕ };

    /// Waits for the next connection. None where no further one comes. `Failed` only where the count of faults
    /// rose.
    fn accept(&mut self) -> Result<Option<Self::Conn>, Failed>
        ensures accepts { IfOk result (Accepts (coming self.old) (coming self.new)) }
        ensures coming { OnErr result (Stays (coming self.old) (coming self.new)) }
        ensures finished { Stays (finished self.old) (finished self.new) }
        ensures lent { LendsFor (lent self.old) (lent self.new) result }
        ensures cause { HasCause (faults self.old) (faults self.new) result };

    /// Takes back a connection that it gave. Takes no memory.
    fn finish(&mut self, conn: Self::Conn)
        requires { IsLent (lent self.old) }
        ensures finished { Tells (finished self.old) (finished self.new) (conn ∷ []) }
        ensures coming { Stays (coming self.old) (coming self.new) }
        ensures lent { TakesBack (lent self.old) (lent self.new) }
        ensures faults { faults self.new ≡ faults self.old };
}
