//! Who shares a value: gives the passes, and takes them back at the end.
ghost use Rattle.std.specs.Prelude.{IfOk, IfErr, IfSome, IfNone, None, ◌≡◌, ℕ, ◌+◌, ◌≤◌, [], length};
ghost use Rattle.desk_lock.specs.Passes.{AreAll, Closes, TookIn, giver, IsNew};

use crate::rule::{Board, Gives, Looks, Place, TakesIn};
use crate::seq::Seq;
use crate::shared::{Pass, Shared};
use crate::types::Held;
use crate::wide::Single;
use atomic_table::{Refused, Table};
use std::alloc::Global;
use std::snapshot::Snapshot;

/// A shared value, which threads borrow, and the right to give its passes. The right stays with one thread.
#[derive(Drop)]
pub struct Owner<S: Seq> {
    /// What threads make their turns at.
    pub shared: Shared<S>,
    root: Place<S>,
    passes: u64,
    given: u64,
    ghost root_is: { (root.table_id ≡ shared.table.shared.table_id) × (root.me ≡ (giver shared.table.shared.key.value given, [])) },
    ghost in_range: { given ≤ passes },
}

impl<S: Seq> Owner<S> {
    ghost use Rattle.desk_lock.specs.Sharing.{opening, passes_of, given_of, IsSame, IsPassAt, AreAllAt};

    /// Shares a value among `n` passes, 1 to 66, of which none is given yet.
    ///
    /// # Errors
    ///
    /// The value, where memory was wanted.
    pub fn new(alloc: Global, value: S, n: u64) -> Result<Owner<S>, S>
        requires count { (1 ≤ n) × (n ≤ 66) }
        requires begins { S.begins value }
        ensures ok { IfOk result (λ s. (opening s.shared ≡ value) × (passes_of s ≡ n) × (given_of s ≡ 0)) }
        ensures err { IfErr result (λ v. v ≡ value) }
    {
        let key = Snapshot::of(&value);
        let held = Held {
            state: value,
            call: None,
            reply: None,
        };
        let Ok(mut slots) = Vec::with_capacity(alloc, 1) else {
            return Err(held.into_state());
        };
        slots.push_reserved(held);
        match Table::new(alloc, &[0, 0], slots, &key) {
            Ok((table, root)) => Ok(Owner {
                shared: Single { table },
                root,
                passes: n,
                given: 0,
            }),
            Err(Refused { mut slots }) => {
                let held = slots.pop().unwrap();
                slots.destroy_empty();
                Err(held.into_state())
            }
        }
    }

    /// The next pass, which has seen nothing and made no call; `None` exactly after the last. Takes no memory.
    pub fn pass(&mut self) -> Option<Pass<S>>
        ensures some { IfSome result (λ p. IsPassAt S.steps S.may self.new.shared p × IsNew (given_of self.old) p × (given_of self.new ≡ given_of self.old + 1)) }
        ensures none { IfNone result ((given_of self.new ≡ given_of self.old) × (given_of self.old ≡ passes_of self.old)) }
        ensures last { given_of self.old ≡ passes_of self.old → result ≡ None }
        ensures same { IsSame self.old self.new }
    {
        if self.given == self.passes {
            return None;
        }
        let shared = &self.shared;
        let table = &shared.table;
        let pass = table.shared.split_seat::<Gives>(&mut self.root);
        self.given += 1;
        Some(pass)
    }

    /// Gives the value back, once all passes were given and are handed back in the order of their numbers: the value
    /// behind one legal history, in which the calls of each pass are exactly its own. Takes no memory.
    pub fn close(self, passes: Vec<Pass<S>>) -> S
        requires given { given_of self ≡ passes_of self }
        requires all { AreAllAt S.steps S.may self passes.items }
        ensures { Closes S.steps S.may (opening self.shared) passes.items result }
    {
        let Owner {
            shared,
            root,
            passes: _,
            given: _,
        } = self;
        let Single { table } = shared;
        let root = take_in(&table, root, passes);
        let mut closed = table.close_with(root);
        let held = closed.take(0);
        closed.free();
        held.into_state()
    }
}

/// Takes in all passes.
fn take_in<S: Seq>(table: &Board<S>, mut root: Place<S>, passes: Vec<Pass<S>>) -> Place<S>
    requires sized { table.now.shared.table_id.words ≡ 2 }
    requires root { (root.table_id ≡ table.now.shared.table_id) × TookIn (length passes.items) [] root }
    requires all { AreAll S.steps S.may table.now.shared.table_id table.now.shared.key.value (length passes.items) passes.items }
    ensures { (result.table_id ≡ table.now.shared.table_id) × TookIn (length passes.items) passes.items result }
{
    for pass in passes {
        table.shared.join_seat::<TakesIn>(&mut root, pass);
        table.shared.load::<Looks>(&mut root, 1);
    }
    root
}
