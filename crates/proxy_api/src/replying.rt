//! The reply to a request for a signature, and the end of its grant.
ghost use Rattle.std.specs.Prelude.{◌≡◌, ◌<◌, ◌≤◌, ◌∷◌, [], IfOk, length};
ghost use Rattle.http.specs.StatusCode.{IsStatusCode};
ghost use Rattle.edge_kit.specs.Links.{Stays};
ghost use Rattle.desk_machine.specs.Making.{MaySettle};
ghost use Rattle.client_calls.specs.Seats.{SignerSeen, at_seat};
ghost use Rattle.keymanager_routes.specs.Replies.{reply_text};
ghost use Rattle.sign_proxy.specs.Signing.{CanSettle, HasStatus};
ghost use Rattle.proxy_api.specs.Forms.{plain_text, signed_text};
ghost use Rattle.proxy_api.specs.Signing.{RepliesTo, SendsRest, SendsUnder, SettlesSigned};

use crate::form::Form;
use desk_machine::{DeskCall, DeskCalls, DeskReply, Grant, Outcome};
use edge_kit::{Failed, Link, MemLink, Sig, hex_text};
use http_wire::write_response;
use keymanager_api::{Served, drop_link, finish, outcome, response_of, send_all};
use keymanager_routes::Reply;
use sign_proxy::{SignEnd, signature_reply};
use std::alloc::{AllocError, Global};

/// Room for what is sent before a body: more than the status line and the fields take.
const HEAD_ROOM: usize = 512;

/// What a response with a text begins with, up to its length.
const PLAIN_FRONT: &str =
    "HTTP/1.1 200 OK\r\nContent-Type: text/plain; charset=utf-8\r\nContent-Length: ";

/// What stands between its length and its text.
const PLAIN_END: &str = "\r\nConnection: close\r\n\r\n";

/// Sends the reply to a request for a signature that ended so, and hangs up. A grant is settled as sent once a byte of the reply
/// with its signature was sent, and the rest of it goes out after that; else as dropped.
pub(crate) fn reply_signed<L: Link, K: DeskCalls>(
    alloc: Global,
    link: &mut L,
    form: Form,
    ended: SignEnd,
    desk: &mut K,
) -> Served
    requires ready { K.ready desk.old }
    requires settles { CanSettle K.allows desk.old ended }
    requires status { HasStatus ended }
    ensures ready { K.ready desk.new }
    ensures replies { (s : SignerSeen) → RepliesTo form K.leads (L.held link.old) (L.held link.new) (L.faults link.old) (L.faults link.new) ended (at_seat desk.old s) (at_seat desk.new s) result }
    ensures coming { Stays (L.coming link.old) (L.coming link.new) }
    ensures later { L.faults link.old ≤ L.faults link.new }
{
    match ended {
        SignEnd::Refused(reply) => finish(alloc, link, Ok(reply)),
        SignEnd::OutOfMemory => finish(alloc, link, Err(AllocError)),
        SignEnd::Signed { signature, grant } => {
            reply_under(alloc, link, form, &signature, grant, desk)
        }
    }
}

/// Sends the reply with the signature of a grant, settles the grant, and hangs up.
fn reply_under<L: Link, K: DeskCalls>(
    alloc: Global,
    link: &mut L,
    form: Form,
    signature: &Sig,
    grant: Grant,
    desk: &mut K,
) -> Served
    requires ready { K.ready desk.old }
    requires settles { MaySettle (λ c. K.allows desk.old c) (DeskReply.Granted grant) }
    ensures ready { K.ready desk.new }
    ensures settles { (s : SignerSeen) → SettlesSigned K.leads (L.held link.old) (L.held link.new) (L.faults link.old) (L.faults link.new) (signed_text form signature.now) grant (at_seat desk.old s) (at_seat desk.new s) result }
    ensures coming { Stays (L.coming link.old) (L.coming link.new) }
    ensures later { L.faults link.old ≤ L.faults link.new }
{
    match signed_text(alloc, form, signature) {
        Ok(text) => send_under(link, text.as_slice(), grant, desk),
        Err(AllocError) => {
            settle(grant, Outcome::Dropped, desk);
            finish(alloc, link, Err(AllocError))
        }
    }
}

/// The bytes of the reply with a signature. The error is want of memory.
fn signed_text(alloc: Global, form: Form, signature: &Sig) -> Result<Vec<u8>, AllocError>
    ensures text { IfOk result (λ text. text.items ≡ signed_text form signature.now) }
    ensures some { IfOk result (λ text. 0 < length text.items) }
{
    match form {
        Form::Json => text_of(alloc, signature_reply(alloc, signature)?),
        Form::Text => plain_text(alloc, hex_text(alloc, &signature.0)?.as_str()),
    }
}

/// The bytes of a response with a text. The error is want of memory.
fn plain_text(alloc: Global, body: &str) -> Result<Vec<u8>, AllocError>
    ensures { IfOk result (λ text. text.items ≡ plain_text body.now) }
{
    let length = body.len().to_string(alloc)?;
    let mut text = String::from_str(alloc, PLAIN_FRONT)?;
    text.push_str(length.as_str())?;
    text.push_str(PLAIN_END)?;
    text.push_str(body)?;
    Ok(text.into_bytes())
}

/// The bytes of a reply. The error is want of memory.
fn text_of(alloc: Global, reply: Reply) -> Result<Vec<u8>, AllocError>
    requires { IsStatusCode reply.status }
    ensures { IfOk result (λ text. text.items ≡ reply_text reply) }
{
    let room = reply.body.len().saturating_add(HEAD_ROOM);
    let response = response_of(alloc, reply);
    let mut spelled = MemLink::new(alloc, Vec::new(alloc), room, Vec::new(alloc))?;
    match write_response(alloc, &mut spelled, &response) {
        Ok(()) => Ok(spelled.into_sent()),
        Err(_) => Err(AllocError),
    }
}

/// Sends these bytes, at least one, of a reply of status 200 with the signature of a grant; settles the grant once a byte was
/// sent; and hangs up.
fn send_under<L: Link, K: DeskCalls>(
    link: &mut L,
    text: &[u8],
    grant: Grant,
    desk: &mut K,
) -> Served
    requires ready { K.ready desk.old }
    requires settles { MaySettle (λ c. K.allows desk.old c) (DeskReply.Granted grant) }
    requires some { 0 < length text.now }
    ensures ready { K.ready desk.new }
    ensures sends { SendsUnder K.leads (L.held link.old) (L.held link.new) (L.faults link.old) (L.faults link.new) 200 text.now grant desk.old desk.new result }
    ensures coming { Stays (L.coming link.old) (L.coming link.new) }
    ensures later { L.faults link.old ≤ L.faults link.new }
{
    match link.send(text) {
        Ok(count) => {
            settle(grant, Outcome::Sent, desk);
            send_rest(link, 200, &text[count..])
        }
        Err(Failed) => {
            settle(grant, Outcome::Dropped, desk);
            drop_link(link)
        }
    }
}

/// Sends what is left of a reply of this status, and hangs up.
pub(crate) fn send_rest<L: Link>(link: &mut L, status: u16, rest: &[u8]) -> Served
    ensures sends { SendsRest (L.held link.old) (L.held link.new) (L.faults link.old) (L.faults link.new) status rest.now result }
    ensures coming { Stays (L.coming link.old) (L.coming link.new) }
    ensures later { L.faults link.old ≤ L.faults link.new }
{
    match send_all(link, rest) {
        Ok(()) => {
            let ended = link.hang_up();
            outcome(Ok(status), ended)
        }
        Err(Failed) => drop_link(link),
    }
}

/// Settles a grant.
fn settle<K: DeskCalls>(grant: Grant, outcome: Outcome, desk: &mut K)
    requires ready { K.ready desk.old }
    requires settles { MaySettle (λ c. K.allows desk.old c) (DeskReply.Granted grant) }
    ensures ready { K.ready desk.new }
    ensures leads { K.leads desk.old ((DeskCall.Settle grant outcome, DeskReply.Settled) ∷ []) desk.new }
{
    match desk.call(DeskCall::Settle { grant, outcome }) {
        DeskReply::Settled => (),
        _ => unreachable!(),
    }
}
