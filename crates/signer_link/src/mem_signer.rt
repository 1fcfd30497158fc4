//! A signer in memory, which tells.
ghost use Rattle.std.specs.Prelude.{◌≡◌, ◌≤◌, ◌++◌, ◌∷◌, [], true, Some, None, IsSome, IfOk, IfSome, false};
ghost use Rattle.edge_kit.specs.Causes.{Rose};
ghost use Rattle.edge_kit.specs.Tellings.{Tells};
ghost use Rattle.signer_link.specs.Outcomes.{CountsDenial, delete_denied, delete_failed, delete_given, import_denied, import_failed, import_given, sign_denied, sign_failed, sign_given};
ghost use Rattle.signer_link.specs.Plain.{is_aggregate, plain_root};
ghost use Rattle.signer_link.specs.Signing.{asked, has_block, imported, plainly_asked, told_delete, told_import, told_plain, told_sign};
ghost use Rattle.signer_link.specs.InMemory.{FailsNext, IsCounted, IsFull, Lacks, MemDeletes, MemImports, MemSigns, lacking_deleted, lacking_imported, lacking_without, mem_signature, sign_found};
ghost use Rattle.slash_defs.specs.Signing.{signing_root_of};

use crate::keeping::{calls_copy, import_call, keep};
use crate::reply::{DeleteReply, ImportReply, SignReply, Told};
use crate::request::{ImportCall, PlainCall, PlainRequest, SignCall, SignRequest};
use crate::signer::Signer;
use edge_kit::{PubKey, Root, Sig, count_fault};
use slash_defs::{Granted, Message};
use std::alloc::{AllocError, Global};

/// Holds every key but the lacking ones, and fails at the calls that its list names (from 0). It lacks a key
/// from its `delete` on, and holds it again from its `import` on, whatever the keystore. It never denies. Its
/// signature is the key's 48 bytes, the root's 32 and 16 zeros, which is no BLS signature.
#[derive(Drop)]
pub struct MemSigner {
    alloc: Global,
    lacking: Vec<PubKey>,
    failing: Vec<u64>,
    told: Vec<Told>,
    calls: u64,
    faults: u64,
}

/// What a call finds.
#[derive(Clone, Copy, PartialEq, Eq, Debug)]
enum Found {
    /// The call is one that is to fail.
    Fault,
    /// The key is lacking.
    Lacking,
    /// The key is held.
    Held,
}

impl MemSigner {
    ghost use Rattle.signer_link.specs.InMemory.{Finds, found_failed};

    /// A signer that lacks these keys, and whose calls of these numbers (from 0) fail.
    pub fn new(alloc: Global, lacking: Vec<PubKey>, failing: Vec<u64>) -> Self
        ensures told { result.told.items ≡ [] }
        ensures lacking { result.lacking.items ≡ lacking.items }
        ensures failing { result.failing.items ≡ failing.items }
        ensures none_counted { (result.calls ≡ 0) × (result.faults ≡ 0) }
        ensures none_failing { failing.items ≡ [] → FailsNext result → ⊥ }
    {
        MemSigner {
            alloc,
            lacking,
            failing,
            told: Vec::new(alloc),
            calls: 0,
            faults: 0,
        }
    }

    /// Begins a call for a key: it is counted, and a fault beside it.
    fn begin(&mut self, key: &PubKey) -> Found
        ensures found { Finds self.old key.now result }
        ensures counted { IsCounted self.old self.new true (found_failed result) }
        ensures told { self.new.told ≡ self.old.told }
        ensures lacking { self.new.lacking ≡ self.old.lacking }
        ensures fault { result ≡ Found.Fault → Rose self.old.faults self.new.faults }
    {
        let call = self.calls;
        self.calls = call.saturating_add(1);
        if self.failing.contains(&call) {
            let _ = count_fault(&mut self.faults);
            return Found::Fault;
        }
        if self.lacking.contains(key) {
            return Found::Lacking;
        }
        Found::Held
    }

    /// Signs a message, and keeps the call.
    fn sign_message(&mut self, request: &SignRequest, key: PubKey, message: Message) -> SignReply
        ensures told { self.new.told.items ≡ self.old.told.items ++ told_sign (asked key message request.now) result }
        ensures fault { result ≡ SignReply.Fault → Rose self.old.faults self.new.faults }
        ensures reply { MemSigns self.old (has_block request.now.object) key (signing_root_of message).0 result }
        ensures lacking { self.new.lacking.items ≡ self.old.lacking.items }
        ensures counted { IsCounted self.old self.new (sign_given result) (sign_failed result) }
        ensures denied { sign_denied result ≡ false }
    {
        let Ok(request) = request.copy(self.alloc) else {
            return SignReply::OutOfMemory;
        };
        if self.told.reserve(1).is_err() {
            return SignReply::OutOfMemory;
        }
        let found = self.begin(&key);
        let root = *message.signing_root();
        let call = SignCall {
            key,
            message,
            request,
        };
        keep(&mut self.told, Told::Sign(call, signed(found, &key, &root)));
        signed(found, &key, &root)
    }

    /// Signs what is no message, and keeps the call.
    fn sign_other(&mut self, request: &PlainRequest, key: PubKey) -> SignReply
        ensures told { self.new.told.items ≡ self.old.told.items ++ told_plain (plainly_asked key request.now) result }
        ensures fault { result ≡ SignReply.Fault → Rose self.old.faults self.new.faults }
        ensures reply { MemSigns self.old (is_aggregate request.now.object) key (plain_root request.now) result }
        ensures lacking { self.new.lacking.items ≡ self.old.lacking.items }
        ensures counted { IsCounted self.old self.new (sign_given result) (sign_failed result) }
        ensures denied { sign_denied result ≡ false }
    {
        let Ok(copy) = request.copy(self.alloc) else {
            return SignReply::OutOfMemory;
        };
        if self.told.reserve(1).is_err() {
            return SignReply::OutOfMemory;
        }
        let found = self.begin(&key);
        let root = request.signing_root();
        let call = PlainCall { key, request: copy };
        keep(
            &mut self.told,
            Told::Plain(call, signed(found, &key, &root)),
        );
        signed(found, &key, &root)
    }

    /// Takes a key in, and keeps the call.
    fn take_in(&mut self, call: ImportCall) -> ImportReply
        ensures told { self.new.told.items ≡ self.old.told.items ++ told_import call result }
        ensures fault { result ≡ ImportReply.Fault → Rose self.old.faults self.new.faults }
        ensures reply { MemImports self.old call.key result }
        ensures lacking { self.new.lacking.items ≡ lacking_imported call.key result self.old.lacking.items }
        ensures counted { IsCounted self.old self.new (import_given result) (import_failed result) }
        ensures denied { import_denied result ≡ false }
    {
        if self.told.reserve(1).is_err() {
            return ImportReply::OutOfMemory;
        }
        let key = call.key;
        match self.begin(&key) {
            Found::Fault => {
                keep(&mut self.told, Told::Import(call, ImportReply::Fault));
                ImportReply::Fault
            }
            Found::Lacking => {
                take_out(&mut self.lacking, &key);
                keep(&mut self.told, Told::Import(call, ImportReply::Imported));
                ImportReply::Imported
            }
            Found::Held => {
                keep(&mut self.told, Told::Import(call, ImportReply::Duplicate));
                ImportReply::Duplicate
            }
        }
    }

    /// Gives a key up, and keeps the call.
    fn give_up(&mut self, key: PubKey) -> DeleteReply
        ensures told { self.new.told.items ≡ self.old.told.items ++ told_delete key result }
        ensures fault { result ≡ DeleteReply.Fault → Rose self.old.faults self.new.faults }
        ensures reply { MemDeletes self.old key result }
        ensures lacking { self.new.lacking.items ≡ lacking_deleted key result self.old.lacking.items }
        ensures counted { IsCounted self.old self.new (delete_given result) (delete_failed result) }
        ensures denied { delete_denied result ≡ false }
    {
        if self.told.reserve(1).is_err() || self.lacking.reserve(1).is_err() {
            return DeleteReply::OutOfMemory;
        }
        match self.begin(&key) {
            Found::Fault => {
                keep(&mut self.told, Told::Delete(key, DeleteReply::Fault));
                DeleteReply::Fault
            }
            Found::Lacking => {
                keep(&mut self.told, Told::Delete(key, DeleteReply::NotFound));
                DeleteReply::NotFound
            }
            Found::Held => {
                let _ = self.lacking.push(key);
                keep(&mut self.told, Told::Delete(key, DeleteReply::Deleted));
                DeleteReply::Deleted
            }
        }
    }
}

impl Signer for MemSigner {
    ghost told = { λ s. Some s.told.items };

    ghost faults = { λ s. s.faults };

    ghost denials = { λ _. 0 };

    fn sign<G: Granted>(&mut self, request: &SignRequest, grant: &G) -> SignReply
        requires { IsSome (G.granted_message grant.now) }
        ensures told { IfSome (G.granted_message grant.now) (λ message. Tells (Some self.old.told.items) (Some self.new.told.items)
            (told_sign (asked (G.granted_key grant.now) message request.now) result)) }
        ensures later { self.old.faults ≤ self.new.faults }
        ensures fault { result ≡ SignReply.Fault → Rose self.old.faults self.new.faults }
        ensures denials { 0 ≤ 0 }
        ensures denied { CountsDenial (sign_denied result) 0 0 }
        ensures reply { IfSome (G.granted_message grant.now) (λ message. MemSigns self.old (has_block request.now.object) (G.granted_key grant.now) (signing_root_of message).0 result) }
        ensures lacking { self.new.lacking.items ≡ self.old.lacking.items }
        ensures counted { IsCounted self.old self.new (sign_given result) (sign_failed result) }
    {
        let key = *grant.key();
        match grant.what() {
            Some(message) => self.sign_message(request, key, *message),
            None => SignReply::OutOfMemory,
        }
    }

    fn sign_plain<G: Granted>(&mut self, request: &PlainRequest, grant: &G) -> SignReply
        ensures told { Tells (Some self.old.told.items) (Some self.new.told.items) (told_plain (plainly_asked (G.granted_key grant.now) request.now) result) }
        ensures later { self.old.faults ≤ self.new.faults }
        ensures fault { result ≡ SignReply.Fault → Rose self.old.faults self.new.faults }
        ensures denials { 0 ≤ 0 }
        ensures denied { CountsDenial (sign_denied result) 0 0 }
        ensures reply { MemSigns self.old (is_aggregate request.now.object) (G.granted_key grant.now) (plain_root request.now) result }
        ensures lacking { self.new.lacking.items ≡ self.old.lacking.items }
        ensures counted { IsCounted self.old self.new (sign_given result) (sign_failed result) }
    {
        self.sign_other(request, *grant.key())
    }

    fn import(&mut self, key: &PubKey, keystore: &str, password: &str) -> ImportReply
        ensures told { Tells (Some self.old.told.items) (Some self.new.told.items) (told_import (imported key.now keystore.now password.now) result) }
        ensures later { self.old.faults ≤ self.new.faults }
        ensures fault { result ≡ ImportReply.Fault → Rose self.old.faults self.new.faults }
        ensures denials { 0 ≤ 0 }
        ensures denied { CountsDenial (import_denied result) 0 0 }
        ensures reply { MemImports self.old key.now result }
        ensures lacking { self.new.lacking.items ≡ lacking_imported key.now result self.old.lacking.items }
        ensures counted { IsCounted self.old self.new (import_given result) (import_failed result) }
    {
        match import_call(self.alloc, *key, keystore, password) {
            Ok(call) => self.take_in(call),
            Err(AllocError) => ImportReply::OutOfMemory,
        }
    }

    fn delete(&mut self, key: &PubKey) -> DeleteReply
        ensures told { Tells (Some self.old.told.items) (Some self.new.told.items) (told_delete key.now result) }
        ensures later { self.old.faults ≤ self.new.faults }
        ensures fault { result ≡ DeleteReply.Fault → Rose self.old.faults self.new.faults }
        ensures denials { 0 ≤ 0 }
        ensures denied { CountsDenial (delete_denied result) 0 0 }
        ensures reply { MemDeletes self.old key.now result }
        ensures lacking { self.new.lacking.items ≡ lacking_deleted key.now result self.old.lacking.items }
        ensures counted { IsCounted self.old self.new (delete_given result) (delete_failed result) }
    {
        self.give_up(*key)
    }

    /// Another access to the same keys: it lacks the same ones, and tells the same calls. The same calls of it fail,
    /// counted anew from 0.
    fn twin(&self, alloc: Global) -> Result<Self, AllocError>
        ensures told { IfOk result (λ t. t.told.items ≡ self.now.told.items) }
        ensures lacking { IfOk result (λ t. t.lacking.items ≡ self.now.lacking.items) }
        ensures failing { IfOk result (λ t. t.failing.items ≡ self.now.failing.items) }
        ensures calls { IfOk result (λ t. t.calls ≡ 0) }
        ensures faults { IfOk result (λ t. t.faults ≡ 0) }
    {
        Ok(MemSigner {
            alloc,
            lacking: Vec::from_slice(alloc, self.lacking.as_slice())?,
            failing: Vec::from_slice(alloc, self.failing.as_slice())?,
            told: calls_copy(alloc, self.told.as_slice())?,
            calls: 0,
            faults: 0,
        })
    }
}

/// The reply of what a call found.
fn signed(found: Found, key: &PubKey, root: &Root) -> SignReply
    ensures { result ≡ sign_found found key.now root.now.0 }
{
    match found {
        Found::Fault => SignReply::Fault,
        Found::Lacking => SignReply::NoKey(None),
        Found::Held => SignReply::Signed(signature(key, root)),
    }
}

/// The signature in memory.
fn signature(key: &PubKey, root: &Root) -> Sig
    ensures { result ≡ mem_signature key.now root.now.0 }
{
    let mut bytes = [0u8; 96];
    bytes[48..80].copy_from_slice(&root.0);
    bytes[..48].copy_from_slice(&key.0);
    Sig(bytes)
}

/// Takes a key out of the lacking ones.
fn take_out(lacking: &mut Vec<PubKey>, key: &PubKey)
    ensures { lacking.new.items ≡ lacking_without key.now lacking.old.items }
{
    lacking.retain(|k| k != key);
}
