//! A connection of the proxy.
ghost use Rattle.std.specs.Prelude.{◌≡◌, ◌≤◌, ℕ, List, [], Ok, unwrap_or};
ghost use Rattle.edge_kit.specs.Links.{Stays};
ghost use Rattle.desk_machine.specs.Machine.{moment_limit};
ghost use Rattle.client_calls.specs.Seats.{at_seat, signer_seen};
ghost use Rattle.keymanager_api.specs.Doors.{link_seen};
ghost use Rattle.keymanager_api.specs.Serving.{LinkSeen, ReadsHead};
ghost use Rattle.proxy_api.specs.Routes.{identifier_of, wanted_for};
ghost use Rattle.proxy_api.specs.Signing.{BySigning, DoesWanted, SignServes};

use crate::form::form_of;
use crate::listing::{list_public, say_serving};
use crate::replying::reply_signed;
use crate::route::{Wanted, identifier_of, read_wanted};
use desk_machine::DeskCalls;
use edge_kit::{Failed, Link, Root};
use http_wire::{Request, read_request_body, read_request_head};
use keymanager_api::{Served, ask_for_body, drop_link, finish, finish_faulty, reply_behind};
use keymanager_routes::Stop;
use sign_proxy::sign_reply;
use signer_link::Signer;
use std::alloc::{AllocError, Global};

/// Serves a connected link: reads the head of one request; where it fails a check, refuses it from that alone; else reads the body,
/// and where the sender waits for that asks for it first; answers the request at an epoch, sends the reply and hangs up. What is no
/// request has its reply as well.
///
/// A request for a signature (`POST` of `/api/v1/eth2/sign/` and the public key after it) is answered by `sign_proxy::sign_reply`, for the
/// chain with this root of its genesis validators; no token is looked at. A signature is replied as the object with it where a
/// field `Accept` names `application/json`, and else as a text. Its grant is settled as sent where a
/// byte of the reply with it was sent, else as dropped. `GET` of `/api/v1/eth2/publicKeys` lists the active keys, and that of
/// `/upcheck` says `OK`, as a text, to anyone. Another method at one of these three is refused with status 405. Any other
/// request is one of the Keymanager API, answered as `keymanager_api::answer` does where this token is wanted.
///
/// Where memory runs out, in reading, in what is done or in writing, the reply is status 503, from a constant text. The first
/// few of the calls to be made are done then, each whole, and the grant of a signature is settled as dropped.
pub fn sign_connection<L: Link, K: DeskCalls, S: Signer>(
    alloc: Global,
    link: &mut L,
    token: &str,
    genesis: &Root,
    now: u64,
    desk: &mut K,
    signer: &mut S,
) -> Served
    requires ready { K.ready desk.old }
    requires moment { now ≤ moment_limit }
    ensures ready { K.ready desk.new }
    ensures serves { SignServes K.leads token.now genesis.now now
        (link_seen L.left L.held L.faults link.old) (link_seen L.left L.held L.faults link.new)
        (at_seat desk.old (signer_seen S.told S.faults S.denials signer.old)) (at_seat desk.new (signer_seen S.told S.faults S.denials signer.new)) result }
    ensures coming { Stays (L.coming link.old) (L.coming link.new) }
    ensures later { L.faults link.old ≤ L.faults link.new }
{
    match read_request_head(alloc, link) {
        Ok(head) => serve_head(alloc, link, head, token, genesis, now, desk, signer),
        Err(fault) => finish_faulty(alloc, link, fault),
    }
}

/// Serves a link of which this head was read: refuses it, or reads on.
fn serve_head<L: Link, K: DeskCalls, S: Signer>(
    alloc: Global,
    link: &mut L,
    head: Request,
    token: &str,
    genesis: &Root,
    now: u64,
    desk: &mut K,
    signer: &mut S,
) -> Served
    requires ready { K.ready desk.old }
    requires moment { now ≤ moment_limit }
    requires empty { head.body.items ≡ [] }
    ensures ready { K.ready desk.new }
    ensures serves { (before : LinkSeen) → ReadsHead head before (link_seen L.left L.held L.faults link.old)
        → SignServes K.leads token.now genesis.now now before (link_seen L.left L.held L.faults link.new)
        (at_seat desk.old (signer_seen S.told S.faults S.denials signer.old)) (at_seat desk.new (signer_seen S.told S.faults S.denials signer.new)) result }
    ensures coming { Stays (L.coming link.old) (L.coming link.new) }
    ensures later { L.faults link.old ≤ L.faults link.new }
{
    match read_wanted(alloc, &head, token.as_bytes()) {
        Ok(wanted) => serve_body(alloc, link, head, wanted, genesis, now, desk, signer),
        Err(Stop::Refused(refusal)) => finish(alloc, link, refusal.reply(alloc)),
        Err(Stop::Memory) => finish(alloc, link, Err(AllocError)),
    }
}

/// Serves a link of which a head was read that passes its checks and wants this: reads on after it.
fn serve_body<L: Link, K: DeskCalls, S: Signer>(
    alloc: Global,
    link: &mut L,
    head: Request,
    wanted: Wanted,
    genesis: &Root,
    now: u64,
    desk: &mut K,
    signer: &mut S,
) -> Served
    requires ready { K.ready desk.old }
    requires moment { now ≤ moment_limit }
    requires empty { head.body.items ≡ [] }
    ensures ready { K.ready desk.new }
    ensures serves { (token : List ℕ) (before : LinkSeen) → ReadsHead head before (link_seen L.left L.held L.faults link.old) → wanted_for token head ≡ Ok wanted
        → SignServes K.leads token genesis.now now before (link_seen L.left L.held L.faults link.new)
        (at_seat desk.old (signer_seen S.told S.faults S.denials signer.old)) (at_seat desk.new (signer_seen S.told S.faults S.denials signer.new)) result }
    ensures coming { Stays (L.coming link.old) (L.coming link.new) }
    ensures later { L.faults link.old ≤ L.faults link.new }
{
    match ask_for_body(link, &head) {
        Ok(()) => {}
        Err(Failed) => return drop_link(link),
    }
    match read_request_body(alloc, link, head) {
        Ok(request) => do_wanted(alloc, link, &request, wanted, genesis, now, desk, signer),
        Err(fault) => finish_faulty(alloc, link, fault),
    }
}

/// Does what a request wants, sends the reply and hangs up.
fn do_wanted<L: Link, K: DeskCalls, S: Signer>(
    alloc: Global,
    link: &mut L,
    request: &Request,
    wanted: Wanted,
    genesis: &Root,
    now: u64,
    desk: &mut K,
    signer: &mut S,
) -> Served
    requires ready { K.ready desk.old }
    requires moment { now ≤ moment_limit }
    ensures ready { K.ready desk.new }
    ensures does { (counted : ℕ) → counted ≤ L.faults link.old → DoesWanted K.leads genesis.now now request.now (Ok wanted) (L.held link.old) (L.held link.new) counted (L.faults link.new)
        (at_seat desk.old (signer_seen S.told S.faults S.denials signer.old)) (at_seat desk.new (signer_seen S.told S.faults S.denials signer.new)) result }
    ensures coming { Stays (L.coming link.old) (L.coming link.new) }
    ensures later { L.faults link.old ≤ L.faults link.new }
{
    match wanted {
        Wanted::Keys(action) => {
            let reply = reply_behind(alloc, action, request, now, desk, signer);
            finish(alloc, link, reply)
        }
        Wanted::Signature => sign_wanted(alloc, link, request, genesis, now, desk, signer),
        Wanted::PublicKeys => {
            let reply = list_public(alloc, desk);
            finish(alloc, link, reply)
        }
        Wanted::Upcheck => say_serving(link),
    }
}

/// Answers a request for a signature.
fn sign_wanted<L: Link, K: DeskCalls, S: Signer>(
    alloc: Global,
    link: &mut L,
    request: &Request,
    genesis: &Root,
    now: u64,
    desk: &mut K,
    signer: &mut S,
) -> Served
    requires ready { K.ready desk.old }
    requires moment { now ≤ moment_limit }
    ensures ready { K.ready desk.new }
    ensures does { (counted : ℕ) → counted ≤ L.faults link.old → BySigning K.leads genesis.now now request.now (L.held link.old) (L.held link.new) counted (L.faults link.new)
        (at_seat desk.old (signer_seen S.told S.faults S.denials signer.old)) (at_seat desk.new (signer_seen S.told S.faults S.denials signer.new)) result }
    ensures coming { Stays (L.coming link.old) (L.coming link.new) }
    ensures later { L.faults link.old ≤ L.faults link.new }
{
    let identifier = identifier_of(request.target.as_slice()).unwrap_or("");
    let body = request.body.as_slice();
    let form = form_of(request.fields.as_slice());
    let ended = sign_reply(alloc, identifier, genesis, body, now, desk, signer);
    reply_signed(alloc, link, form, ended, desk)
}
