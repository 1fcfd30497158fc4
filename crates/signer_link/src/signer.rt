//! The service that signs, by its meaning.
ghost use Rattle.std.specs.Prelude.{◌≡◌, ℕ, List, ◌≤◌, IsSome, IfOk, IfSome};
ghost use Rattle.std.specs.declared.option.Option.{Option};
ghost use Rattle.edge_kit.specs.Causes.{Rose};
ghost use Rattle.edge_kit.specs.Tellings.{Tells};
ghost use Rattle.signer_link.specs.Signing.{asked, imported, plainly_asked, told_delete, told_import, told_plain, told_sign};
ghost use Rattle.signer_link.specs.Outcomes.{CountsDenial, delete_denied, import_denied, sign_denied};
ghost use Rattle.signer_link.specs.declared.reply.Told.{Told};

use crate::reply::{DeleteReply, ImportReply, SignReply};
use crate::request::{PlainRequest, SignRequest};
use edge_kit::PubKey;
use slash_defs::Granted;
use std::alloc::{AllocError, Global};

/// The service that signs. It may tell each call with its answer; its faults and its denials are counted.
/// After `OutOfMemory` nothing is told.
pub trait Signer {
    /// The calls so far with their answers, where it tells.
    ghost told: { Self → Option (List Told) };

    /// How often it failed. Never falls.
    ghost faults: { Self → ℕ };

    /// How often it refused. Never falls, and rises only with `Denied` and `Refused`.
    ghost denials: { Self → ℕ };

    /// Has the root of the grant's message signed by the grant's key. `Fault` only where the count of faults
    /// rose, `Denied` only where the count of denials did.
    fn sign<G: Granted>(&mut self, request: &SignRequest, grant: &G) -> SignReply
        requires { IsSome (G.granted_message grant.now) }
        ensures told { IfSome (G.granted_message grant.now) (λ message. Tells (told self.old) (told self.new)
            (told_sign (asked (G.granted_key grant.now) message request.now) result)) }
        ensures later { faults self.old ≤ faults self.new }
        ensures fault { result ≡ SignReply.Fault → Rose (faults self.old) (faults self.new) }
        ensures denials { denials self.old ≤ denials self.new }
        ensures denied { CountsDenial (sign_denied result) (denials self.old) (denials self.new) };

    /// Has what is no block and no vote signed by the grant's key, under its own domain, never under a
    /// proposer's or an attester's. `Fault` and `Denied` as for `sign`.
    fn sign_plain<G: Granted>(&mut self, request: &PlainRequest, grant: &G) -> SignReply
        ensures told { Tells (told self.old) (told self.new) (told_plain (plainly_asked (G.granted_key grant.now) request.now) result) }
        ensures later { faults self.old ≤ faults self.new }
        ensures fault { result ≡ SignReply.Fault → Rose (faults self.old) (faults self.new) }
        ensures denials { denials self.old ≤ denials self.new }
        ensures denied { CountsDenial (sign_denied result) (denials self.old) (denials self.new) };

    /// Has the service take a key in, from the text of its keystore (EIP-2335) and the password.
    /// `Fault` only where the count of faults rose, `Refused` only where the count of denials did.
    fn import(&mut self, key: &PubKey, keystore: &str, password: &str) -> ImportReply
        ensures told { Tells (told self.old) (told self.new) (told_import (imported key.now keystore.now password.now) result) }
        ensures later { faults self.old ≤ faults self.new }
        ensures fault { result ≡ ImportReply.Fault → Rose (faults self.old) (faults self.new) }
        ensures denials { denials self.old ≤ denials self.new }
        ensures denied { CountsDenial (import_denied result) (denials self.old) (denials self.new) };

    /// Has the service give a key up. `Fault` and `Refused` as for `import`.
    fn delete(&mut self, key: &PubKey) -> DeleteReply
        ensures told { Tells (told self.old) (told self.new) (told_delete key.now result) }
        ensures later { faults self.old ≤ faults self.new }
        ensures fault { result ≡ DeleteReply.Fault → Rose (faults self.old) (faults self.new) }
        ensures denials { denials self.old ≤ denials self.new }
        ensures denied { CountsDenial (delete_denied result) (denials self.old) (denials self.new) };

    /// Another access to the same service, with counts of faults and of denials of its own at 0. Where this one
    /// tells, it begins with what this one told. The error is want of memory.
    fn twin(&self, alloc: Global) -> Result<Self, AllocError>
    where
        Self: Sized,
        ensures told { IfOk result (λ t. told t ≡ told self.now) }
        ensures faults { IfOk result (λ t. faults t ≡ 0) }
        ensures denials { IfOk result (λ t. denials t ≡ 0) };
}
