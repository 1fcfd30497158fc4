//! The open grants of a desk.
ghost use Rattle.std.specs.Prelude.{◌≡◌, ◌+◌, ◌<◌, ◌≤◌, ◌-◌, ◌^◌, ◌++◌, ◌∷◌, [], ℕ, IfSome, IfNone, OnOk, OnErr, Contains, length, remove};
ghost use Rattle.std.specs.BTreeMap.{is_at};
ghost use Rattle.record_join.specs.Keys.{key_cmp};
ghost use Rattle.desk_machine.specs.Grants.{AreNumbered, open_grants, without};
ghost use Rattle.desk_machine.specs.declared.open_grant.OpenGrant.{OpenGrant};

use crate::grant::Grant;
use crate::open_grant::OpenGrant;
use edge_kit::PubKey;
use slash_defs::Message;
use std::alloc::{AllocError, Global};
use std::marker::Model;

/// The grants that are open, in the order in which they were given, and the number of the next one. Each
/// number is given once.
#[derive(Drop)]
pub struct OpenGrants {
    grants: Vec<OpenGrant>,
    next: u64,
}

impl Model for OpenGrants {
    ghost use Rattle.std.specs.Prelude.{◌-◌, vec_len, vec_capacity};
    ghost use Rattle.desk_machine.specs.Grants.{Ledger, AreNumbered};

    ghost Value = { Ledger };

    ghost view = { λ g. record { grants = g.grants.items; next = g.next; room = vec_capacity g.grants - vec_len g.grants } };

    ghost invariant = { λ g. AreNumbered g.grants.items g.next };
}

impl OpenGrants {
    /// No grant was given yet. Takes no memory.
    pub fn new(alloc: Global) -> Self
        ensures grants { result.grants ≡ [] }
        ensures next { result.next ≡ 0 }
    {
        OpenGrants {
            grants: Vec::new(alloc),
            next: 0,
        }
    }

    /// The open grants, in the order in which they were given.
    pub fn as_slice(&self) -> &[OpenGrant]
        ensures grants { result.now ≡ self.now.grants }
        ensures numbered { AreNumbered self.now.grants self.now.next }
    {
        self.grants.as_slice()
    }

    /// How many grants are open.
    pub fn len(&self) -> usize
        ensures { result ≡ length self.now.grants }
    {
        self.grants.len()
    }

    /// The number of the next grant.
    pub fn next(&self) -> u64
        ensures { result ≡ self.now.next }
    {
        self.next
    }

    /// How many of the open grants are of this key. Takes no memory.
    pub fn count_of(&self, key: &PubKey) -> usize
        ensures { result ≡ open_grants self.now.grants key.now }
    {
        self.grants.iter().filter(|grant| is_of(grant, key)).count()
    }

    /// Makes room for one more grant.
    ///
    /// # Errors
    ///
    /// `AllocError` where memory was wanted.
    pub fn reserve(&mut self) -> Result<(), AllocError>
        ensures grants { self.new.grants ≡ self.old.grants }
        ensures next { self.new.next ≡ self.old.next }
        ensures room { OnOk result (0 < self.new.room) }
        ensures err { OnErr result (self.old.room ≡ 0) }
    {
        self.grants.reserve(1)
    }

    /// Gives a grant of the next number, which is open from now on. Takes no memory.
    pub fn give(&mut self, key: PubKey, message: Option<Message>) -> Grant
        requires room { 0 < self.old.room }
        requires next { self.old.next < 2 ^ 64 - 1 }
        ensures grant { result ≡ record { number = self.old.next; key = key; message = message } }
        ensures grants { self.new.grants ≡ self.old.grants ++ result ∷ [] }
        ensures next { self.new.next ≡ self.old.next + 1 }
    {
        let given = OpenGrant {
            number: self.next,
            key,
            message,
        };
        let _ = self.grants.push(given);
        self.next += 1;
        Grant::of(&given)
    }

    /// Spends a grant that is open here, and gives its number. Takes no memory.
    pub fn settle(&mut self, grant: Grant) -> u64
        requires { Contains self.old.grants grant }
        ensures number { result ≡ grant.number }
        ensures grants { self.new.grants ≡ without self.old.grants grant.number }
        ensures len { length self.new.grants + 1 ≡ length self.old.grants }
        ensures next { self.new.next ≡ self.old.next }
    {
        let number = grant.spend();
        close_one(&mut self.grants, number);
        number
    }
}

/// Takes the grant of this number out, which is there.
fn close_one(grants: &mut Vec<OpenGrant>, number: u64)
    requires { (g : OpenGrant) × Contains grants.old.items g × (g.number ≡ number) }
    ensures kept { grants.new.items ≡ without grants.old.items number }
    ensures len { length grants.new.items + 1 ≡ length grants.old.items }
{
    if let Some(place) = place_of(grants.as_slice(), number) {
        let _ = grants.remove(place);
    }
}

/// Where the grant of this number stands.
fn place_of(grants: &[OpenGrant], number: u64) -> Option<usize>
    ensures found { IfSome result (λ i. (i < length grants.now) × (without grants.now number ≡ remove grants.now i)) }
    ensures none { IfNone result ((g : OpenGrant) → Contains grants.now g → g.number ≡ number → ⊥) }
{
    for (i, grant) in grants.iter().enumerate() {
        if grant.number == number {
            return Some(i);
        }
    }
    None
}

/// Whether the grant is of this key.
fn is_of(grant: &OpenGrant, key: &PubKey) -> bool
    ensures { result ≡ is_at (key_cmp key.now) grant.now.key }
{
    *key == grant.key
}
