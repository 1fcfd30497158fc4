//! A two-way stream of bytes, by its meaning.
ghost use Rattle.std.specs.Prelude.{◌≡◌, ℕ, List, ◌<◌, length, IfOk, OnOk};
ghost use Rattle.std.specs.declared.option.Option.{Option};
ghost use Rattle.std.specs.Io.{ReadsAtMost, WritesAtMost};
ghost use Rattle.std.specs.Io.KnownBytes.{ReadConsumes, WriteAppends};
ghost use Rattle.edge_kit.specs.Causes.{HasCause};
ghost use Rattle.edge_kit.specs.Links.{Stays, Opens};

use crate::traits::Failed;
use std::alloc::{AllocError, Global};

/// One two-way stream of bytes at a time.
pub trait Link {
    /// The bytes that the peer still sends over this connection, where it tells.
    ghost left: { Self → Option (List ℕ) };

    /// What the peer sends over each later connection, in order, where it tells.
    ghost coming: { Self → Option (List (List ℕ)) };

    /// The bytes that were sent, over all connections, where it tells.
    ghost held: { Self → Option (List ℕ) };

    /// How often it failed. Never falls.
    ghost faults: { Self → ℕ };

    /// Begins the next connection. `Failed` only where the count of faults rose.
    fn connect(&mut self) -> Result<(), Failed>
        ensures opens { OnOk result (Opens (coming self.old) (left self.new) (coming self.new)) }
        ensures held { Stays (held self.old) (held self.new) }
        ensures cause { HasCause (faults self.old) (faults self.new) result };

    /// Takes some bytes of the front of the piece and answers how many, at least one where the piece isn't
    /// empty. `Failed` only where the count of faults rose; no byte is taken then. Takes no memory.
    fn send(&mut self, piece: &[u8]) -> Result<usize, Failed>
        ensures bound { WritesAtMost result piece.now }
        ensures some { IfOk result (λ n. 0 < length piece.now → 0 < n) }
        ensures bytes { WriteAppends (held self.old) (held self.new) result piece.now }
        ensures left { Stays (left self.old) (left self.new) }
        ensures coming { Stays (coming self.old) (coming self.new) }
        ensures cause { HasCause (faults self.old) (faults self.new) result };

    /// Reads some bytes into the front of the buffer and answers how many. 0 for a buffer that isn't empty
    /// is the end. `Failed` only where the count of faults rose; no byte is taken then. Takes no memory.
    fn recv(&mut self, buf: &mut [u8]) -> Result<usize, Failed>
        ensures bound { ReadsAtMost result buf.new }
        ensures bytes { ReadConsumes (left self.old) (left self.new) result buf.new }
        ensures held { Stays (held self.old) (held self.new) }
        ensures coming { Stays (coming self.old) (coming self.new) }
        ensures cause { HasCause (faults self.old) (faults self.new) result };

    /// Ends the connection. `Failed` only where the count of faults rose. Takes no memory.
    fn hang_up(&mut self) -> Result<(), Failed>
        ensures held { Stays (held self.old) (held self.new) }
        ensures coming { Stays (coming self.old) (coming self.new) }
        ensures cause { HasCause (faults self.old) (faults self.new) result };

    /// Another access to the same peer, with a count of faults of its own at 0. Where this one tells, it begins
    /// with what this one holds. The error is want of memory.
    fn twin(&self, alloc: Global) -> Result<Self, AllocError>
    where
        Self: Sized,
        ensures left { IfOk result (λ t. Stays (left self.now) (left t)) }
        ensures coming { IfOk result (λ t. Stays (coming self.now) (coming t)) }
        ensures held { IfOk result (λ t. Stays (held self.now) (held t)) }
        ensures faults { IfOk result (λ t. faults t ≡ 0) };
}
