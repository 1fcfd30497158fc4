//! A beacon node, by its meaning.
ghost use Rattle.std.specs.Prelude.{◌≡◌, ◌≤◌, ℕ, List, true, Err, IfOk};
ghost use Rattle.std.specs.declared.option.Option.{Option};
ghost use Rattle.edge_kit.specs.Causes.{Rose};
ghost use Rattle.edge_kit.specs.Tellings.{Tells};
ghost use Rattle.node_calls.specs.Asking.{posted, told_ask, told_post};
ghost use Rattle.node_calls.specs.Fitting.{fits};
ghost use Rattle.node_calls.specs.declared.told.NodeCall.{NodeCall};

use crate::answer::{Answer, NodeFault};
use crate::ask::Ask;
use crate::post::Post;
use slash_defs::Granted;
use std::alloc::{AllocError, Global};

/// A beacon node. It may tell each call with its reply; its faults are counted. After `OutOfMemory` nothing is
/// told.
pub trait Node {
    /// The calls so far with their replies, where it tells.
    ghost told: { Self → Option (List NodeCall) };

    /// How often it failed. Never falls.
    ghost faults: { Self → ℕ };

    /// Asks. An answer fits its question: it has its name, and duties are within the bounds of the epoch that
    /// was asked for. `Fault` only where the count of faults rose.
    fn ask(&mut self, ask: &Ask) -> Result<Answer, NodeFault>
        ensures told { Tells (told self.old) (told self.new) (told_ask ask.now result) }
        ensures fits { IfOk result (λ answer. fits ask.now answer ≡ true) }
        ensures later { faults self.old ≤ faults self.new }
        ensures fault { result ≡ Err NodeFault.Fault → Rose (faults self.old) (faults self.new) };

    /// Hands over what was signed under a grant. `Fault` only where the count of faults rose. Under `OutOfMemory`
    /// it may have been handed over and is not told: the grant counts as sent.
    fn post<G: Granted>(&mut self, grant: &G, post: &Post) -> Result<(), NodeFault>
        ensures told { Tells (told self.old) (told self.new) (told_post (posted (G.granted_key grant.now) (G.granted_message grant.now) post.now) result) }
        ensures later { faults self.old ≤ faults self.new }
        ensures fault { result ≡ Err NodeFault.Fault → Rose (faults self.old) (faults self.new) };

    /// Another access to the same node, with a count of faults of its own at 0. Where this one tells, it begins
    /// with what this one told. The error is want of memory.
    fn twin(&self, alloc: Global) -> Result<Self, AllocError>
    where
        Self: Sized,
        ensures told { IfOk result (λ t. told t ≡ told self.now) }
        ensures faults { IfOk result (λ t. faults t ≡ 0) };
}
