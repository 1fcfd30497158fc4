//! Web3Signer as the service that signs.
ghost use Rattle.std.specs.Prelude.{◌≡◌, ◌≤◌, [], None, Some, IsSome, IfOk, IfSome, option_map};
ghost use Rattle.edge_kit.specs.Causes.{Rose};
ghost use Rattle.edge_kit.specs.Links.{Stays};
ghost use Rattle.edge_kit.specs.Tellings.{Tells};
ghost use Rattle.signer_link.specs.Keeping.{kept};
ghost use Rattle.signer_link.specs.Outcomes.{CountsDenial, delete_denied, import_denied, sign_denied};
ghost use Rattle.signer_link.specs.Signing.{asked, imported, plainly_asked, told_delete, told_import, told_plain, told_sign};
ghost use Rattle.web3_signer.specs.Web3 as web3;
ghost use Rattle.web3_signer.specs.Web3Calls.{AsksToDelete, AsksToImport, AsksToSign};

use crate::replies::{delete_reply, import_reply, sign_reply};
use crate::requests::{delete_body, import_body, plain_body, sign_body, sign_path};
use edge_kit::{Link, PubKey, count_fault};
use http::Method;
use http_call::call;
use service_url::ServiceUrl;
use signer_link::keeping::{
    kept_copy, make_room, plain_call, sign_call, tell_delete, tell_import, tell_plain, tell_sign,
};
use signer_link::{DeleteReply, ImportReply, PlainRequest, SignReply, SignRequest, Signer, Told};
use slash_defs::{Granted, Message};
use std::alloc::{AllocError, Global};

/// The path of the keystores calls.
const KEYSTORES: &str = "/eth/v1/keystores";

/// A Web3Signer that is called over a link, one connection a call. Signatures are asked for by the Web3Signer
/// API, keys go in and out by the Keymanager API. Its faults are its link's. It tells its calls where it was
/// made to.
#[derive(Drop)]
pub struct Web3Signer<L: Link + Drop> {
    link: L,
    url: ServiceUrl,
    denials: u64,
    told: Option<Vec<Told>>,
}

impl<L: Link + Drop> Web3Signer<L> {
    /// The Web3Signer at an address, over a link to its host and port. No call was refused yet. It tells none.
    pub fn new(link: L, url: ServiceUrl) -> Self
        ensures link { result.link ≡ link }
        ensures url { result.url ≡ url }
        ensures denials { result.denials ≡ 0 }
        ensures told { kept result.told ≡ None }
    {
        Web3Signer {
            link,
            url,
            denials: 0,
            told: None,
        }
    }

    /// A client of the same kind that tells each call with its answer, which it keeps: a list that grows with each call.
    pub fn telling(link: L, url: ServiceUrl) -> Self
        ensures link { result.link ≡ link }
        ensures url { result.url ≡ url }
        ensures denials { result.denials ≡ 0 }
        ensures told { kept result.told ≡ Some [] }
    {
        let told = Some(Vec::new(url.allocator()));
        Web3Signer {
            link,
            url,
            denials: 0,
            told,
        }
    }

    /// The calls so far with their answers, where it tells them.
    pub fn told(&self) -> Option<&[Told]>
        ensures { option_map (λ calls. calls.now) result ≡ kept self.now.told }
    {
        match &self.told {
            Some(calls) => Some(calls.as_slice()),
            None => None,
        }
    }

    /// The link, given back.
    pub fn into_link(self) -> L
        ensures { result ≡ self.link }
    {
        self.link
    }

    /// Asks for the signature of a message.
    fn sign_message(&mut self, request: &SignRequest, key: &PubKey, message: &Message) -> SignReply
        ensures asks { AsksToSign self.old.url key.now (web3.sign_body request.now message.now) (L.held self.old.link) (L.held self.new.link)
            (L.coming self.old.link) (L.coming self.new.link) (L.faults self.old.link) (L.faults self.new.link) result }
        ensures told { Tells (kept self.old.told) (kept self.new.told) (told_sign (asked key.now message.now request.now) result) }
        ensures denials { self.old.denials ≤ self.new.denials }
        ensures denied { CountsDenial (sign_denied result) self.old.denials self.new.denials }
        ensures url { self.new.url ≡ self.old.url }
    {
        let alloc = self.url.allocator();
        let body = match sign_body(alloc, request, message) {
            Ok(body) => body,
            Err(_) => return SignReply::OutOfMemory,
        };
        let call = match sign_call(alloc, &self.told, key, message, request) {
            Ok(call) => call,
            Err(_) => return SignReply::OutOfMemory,
        };
        if make_room(&mut self.told).is_err() {
            return SignReply::OutOfMemory;
        }
        let answer = self.ask_to_sign(key, body);
        let answer = tell_sign(alloc, &mut self.told, call, answer);
        count_denied(&mut self.denials, matches!(&answer, SignReply::Denied(_)));
        answer
    }

    /// Asks for another signature.
    fn sign_other(&mut self, request: &PlainRequest, key: &PubKey) -> SignReply
        ensures asks { AsksToSign self.old.url key.now (web3.plain_body request.now) (L.held self.old.link) (L.held self.new.link)
            (L.coming self.old.link) (L.coming self.new.link) (L.faults self.old.link) (L.faults self.new.link) result }
        ensures told { Tells (kept self.old.told) (kept self.new.told) (told_plain (plainly_asked key.now request.now) result) }
        ensures denials { self.old.denials ≤ self.new.denials }
        ensures denied { CountsDenial (sign_denied result) self.old.denials self.new.denials }
        ensures url { self.new.url ≡ self.old.url }
    {
        let alloc = self.url.allocator();
        let body = match plain_body(alloc, request) {
            Ok(body) => body,
            Err(_) => return SignReply::OutOfMemory,
        };
        let call = match plain_call(alloc, &self.told, key, request) {
            Ok(call) => call,
            Err(_) => return SignReply::OutOfMemory,
        };
        if make_room(&mut self.told).is_err() {
            return SignReply::OutOfMemory;
        }
        let answer = self.ask_to_sign(key, body);
        let answer = tell_plain(alloc, &mut self.told, call, answer);
        count_denied(&mut self.denials, matches!(&answer, SignReply::Denied(_)));
        answer
    }

    /// Asks for a signature by a key, with this body. The call is not told, and no denial is counted.
    fn ask_to_sign(&mut self, key: &PubKey, body: Vec<u8>) -> SignReply
        ensures asks { AsksToSign self.old.url key.now body.items (L.held self.old.link) (L.held self.new.link)
            (L.coming self.old.link) (L.coming self.new.link) (L.faults self.old.link) (L.faults self.new.link) result }
        ensures told { self.new.told ≡ self.old.told }
        ensures denials { self.new.denials ≡ self.old.denials }
        ensures url { self.new.url ≡ self.old.url }
    {
        let alloc = self.url.allocator();
        let path = match sign_path(alloc, key) {
            Ok(path) => path,
            Err(_) => return SignReply::OutOfMemory,
        };
        let response = call(
            alloc,
            &mut self.link,
            &self.url,
            Method::POST,
            path.as_str(),
            body,
        );
        sign_reply(alloc, response)
    }
}

impl<L: Link + Drop> Signer for Web3Signer<L> {
    ghost told = { λ s. kept s.told };

    ghost faults = { λ s. L.faults s.link };

    ghost denials = { λ s. s.denials };

    /// Has the root of the grant's message signed by the grant's key (Web3Signer API, `eth2/sign`).
    ///
    /// `Signed` where the service answers 200 and 96 bytes as `0x` hex, as a text or in the member `signature` of
    /// an object. `NoKey` at 404, `Denied` at any other status. `BadAnswer` with the whole body where another
    /// body comes with 200, and with an empty one where what comes is no response. `Fault` where the link failed.
    /// What it keeps of the call is copied before the service is asked.
    fn sign<G: Granted>(&mut self, request: &SignRequest, grant: &G) -> SignReply
        requires { IsSome (G.granted_message grant.now) }
        ensures told { IfSome (G.granted_message grant.now) (λ message. Tells (kept self.old.told) (kept self.new.told) (told_sign (asked (G.granted_key grant.now) message request.now) result)) }
        ensures later { L.faults self.old.link ≤ L.faults self.new.link }
        ensures fault { result ≡ SignReply.Fault → Rose (L.faults self.old.link) (L.faults self.new.link) }
        ensures denials { self.old.denials ≤ self.new.denials }
        ensures denied { CountsDenial (sign_denied result) self.old.denials self.new.denials }
        ensures asks { IfSome (G.granted_message grant.now) (λ message. AsksToSign self.old.url (G.granted_key grant.now) (web3.sign_body request.now message)
            (L.held self.old.link) (L.held self.new.link) (L.coming self.old.link) (L.coming self.new.link) (L.faults self.old.link) (L.faults self.new.link) result) }
        ensures url { self.new.url ≡ self.old.url }
    {
        match grant.what() {
            Some(message) => self.sign_message(request, grant.key(), message),
            None => unreachable!(),
        }
    }

    /// Has what is no block and no vote signed by the grant's key, similarly.
    fn sign_plain<G: Granted>(&mut self, request: &PlainRequest, grant: &G) -> SignReply
        ensures told { Tells (kept self.old.told) (kept self.new.told) (told_plain (plainly_asked (G.granted_key grant.now) request.now) result) }
        ensures later { L.faults self.old.link ≤ L.faults self.new.link }
        ensures fault { result ≡ SignReply.Fault → Rose (L.faults self.old.link) (L.faults self.new.link) }
        ensures denials { self.old.denials ≤ self.new.denials }
        ensures denied { CountsDenial (sign_denied result) self.old.denials self.new.denials }
        ensures asks { AsksToSign self.old.url (G.granted_key grant.now) (web3.plain_body request.now) (L.held self.old.link) (L.held self.new.link)
            (L.coming self.old.link) (L.coming self.new.link) (L.faults self.old.link) (L.faults self.new.link) result }
        ensures url { self.new.url ≡ self.old.url }
    {
        self.sign_other(request, grant.key())
    }

    /// Has the service take a key in, from the text of its keystore and the password (Keymanager API,
    /// `POST /eth/v1/keystores`).
    ///
    /// `Imported`, `Duplicate` and `Refused` as the status of the one key in the answer says, `Refused` with the
    /// message next to it; at another HTTP status than 200 with `status` and its number. `BadAnswer` and `Fault`
    /// as for `sign`.
    fn import(&mut self, key: &PubKey, keystore: &str, password: &str) -> ImportReply
        ensures told { Tells (kept self.old.told) (kept self.new.told) (told_import (imported key.now keystore.now password.now) result) }
        ensures later { L.faults self.old.link ≤ L.faults self.new.link }
        ensures fault { result ≡ ImportReply.Fault → Rose (L.faults self.old.link) (L.faults self.new.link) }
        ensures denials { self.old.denials ≤ self.new.denials }
        ensures denied { CountsDenial (import_denied result) self.old.denials self.new.denials }
        ensures asks { AsksToImport self.old.url keystore.now password.now (L.held self.old.link) (L.held self.new.link)
            (L.coming self.old.link) (L.coming self.new.link) (L.faults self.old.link) (L.faults self.new.link) result }
        ensures url { self.new.url ≡ self.old.url }
    {
        let alloc = self.url.allocator();
        let body = match import_body(alloc, keystore, password) {
            Ok(body) => body,
            Err(_) => return ImportReply::OutOfMemory,
        };
        if make_room(&mut self.told).is_err() {
            return ImportReply::OutOfMemory;
        }
        let response = call(
            alloc,
            &mut self.link,
            &self.url,
            Method::POST,
            KEYSTORES,
            body,
        );
        let answer = import_reply(alloc, response);
        let answer = tell_import(alloc, &mut self.told, key, keystore, password, answer);
        count_denied(
            &mut self.denials,
            matches!(&answer, ImportReply::Refused(_)),
        );
        answer
    }

    /// Has the service give a key up (Keymanager API, `DELETE /eth/v1/keystores`), whose export is not used.
    /// The answers are read as for `import`.
    fn delete(&mut self, key: &PubKey) -> DeleteReply
        ensures told { Tells (kept self.old.told) (kept self.new.told) (told_delete key.now result) }
        ensures later { L.faults self.old.link ≤ L.faults self.new.link }
        ensures fault { result ≡ DeleteReply.Fault → Rose (L.faults self.old.link) (L.faults self.new.link) }
        ensures denials { self.old.denials ≤ self.new.denials }
        ensures denied { CountsDenial (delete_denied result) self.old.denials self.new.denials }
        ensures asks { AsksToDelete self.old.url key.now (L.held self.old.link) (L.held self.new.link)
            (L.coming self.old.link) (L.coming self.new.link) (L.faults self.old.link) (L.faults self.new.link) result }
        ensures url { self.new.url ≡ self.old.url }
    {
        let alloc = self.url.allocator();
        let body = match delete_body(alloc, key) {
            Ok(body) => body,
            Err(_) => return DeleteReply::OutOfMemory,
        };
        if make_room(&mut self.told).is_err() {
            return DeleteReply::OutOfMemory;
        }
        let response = call(
            alloc,
            &mut self.link,
            &self.url,
            Method::DELETE,
            KEYSTORES,
            body,
        );
        let answer = delete_reply(alloc, response);
        let answer = tell_delete(alloc, &mut self.told, key, answer);
        count_denied(
            &mut self.denials,
            matches!(&answer, DeleteReply::Refused(_)),
        );
        answer
    }

    /// The Web3Signer at the same address, over the link's twin. No call was refused yet. It tells where this one
    /// does, and begins with what this one told.
    fn twin(&self, alloc: Global) -> Result<Self, AllocError>
        ensures told { IfOk result (λ t. kept t.told ≡ kept self.now.told) }
        ensures faults { IfOk result (λ t. L.faults t.link ≡ 0) }
        ensures denials { IfOk result (λ t. t.denials ≡ 0) }
        ensures url { IfOk result (λ t. t.url ≡ self.now.url) }
        ensures left { IfOk result (λ t. Stays (L.left self.now.link) (L.left t.link)) }
        ensures coming { IfOk result (λ t. Stays (L.coming self.now.link) (L.coming t.link)) }
        ensures held { IfOk result (λ t. Stays (L.held self.now.link) (L.held t.link)) }
    {
        Ok(Web3Signer {
            link: self.link.twin(alloc)?,
            url: self.url.copy(alloc)?,
            denials: 0,
            told: kept_copy(alloc, &self.told)?,
        })
    }
}

/// Counts a denial, if it is one.
fn count_denied(denials: &mut u64, is_denied: bool)
    ensures denied { CountsDenial is_denied denials.old denials.new }
    ensures later { denials.old ≤ denials.new }
{
    if is_denied {
        let _ = count_fault(denials);
    }
}
