//! A connection that is served.
ghost use Rattle.std.specs.Prelude.{◌≡◌, ◌≤◌, ℕ, List, [], true, IfOk, OnErr, OnOk};
ghost use Rattle.std.specs.Result.{result_ok};
ghost use Rattle.http.specs.StatusCode.{IsStatusCode};
ghost use Rattle.edge_kit.specs.Causes.{HasCause};
ghost use Rattle.edge_kit.specs.Links.{Stays};
ghost use Rattle.http_wire.specs.Expects.{continue_text, expects_continue};
ghost use Rattle.http_wire.specs.Listening.{AppendsFront, OnlySpeaks};
ghost use Rattle.keymanager_routes.specs.Checks.{action_for};
ghost use Rattle.desk_machine.specs.Machine.{moment_limit};
ghost use Rattle.client_calls.specs.Seats.{at_seat, signer_seen};
ghost use Rattle.call_plans.specs.Plans.{Done};
ghost use Rattle.keymanager_api.specs.Plans.{faulty_plan};
ghost use Rattle.keymanager_api.specs.Readings.{Asks};
ghost use Rattle.keymanager_api.specs.Serving.{EndsFaulty, LinkSeen, ReadsHead, Sends, Serves, served_by};

use crate::answering::reply_behind;
use crate::send::{is_link, send_reply};
use desk_machine::DeskCalls;
use edge_kit::{Failed, Items, Link};
use http_wire::{
    Request, WireFault, expects_continue, read_request_body, read_request_head, write_continue,
};
use keymanager_routes::{Action, Refusal, Reply, Stop, read_action};
use signer_link::Signer;
use std::alloc::{AllocError, Global};

/// What became of a connection.
#[derive(Clone, Copy, PartialEq, Eq, Debug)]
pub enum Served {
    /// A reply of this status was sent, whole, and the connection was ended.
    Replied { status: u16 },
    /// The link failed; its count of faults rose. Maybe a front of the reply was sent.
    Dropped,
}

/// Serves a connected link: reads the head of one request; where it fails a check, refuses it from that alone; else
/// reads the body, and where the sender waits for that asks for it first (`http_wire::expects_continue`); answers the
/// request at an epoch as `answer` does, sends the reply and hangs up. What is no request has its reply as well. Where
/// memory runs out, in reading, in what is done or in writing, the reply is status 503, from a constant text; in what is
/// done the first few calls are done then, each whole.
pub fn serve_connection<L: Link, K: DeskCalls, S: Signer>(
    alloc: Global,
    link: &mut L,
    token: &str,
    now: u64,
    desk: &mut K,
    signer: &mut S,
) -> Served
    requires ready { K.ready desk.old }
    requires moment { now ≤ moment_limit }
    ensures ready { K.ready desk.new }
    ensures serves { Serves K.leads token.now now
        (record { left = L.left link.old; held = L.held link.old; faults = L.faults link.old })
        (record { left = L.left link.new; held = L.held link.new; faults = L.faults link.new })
        (at_seat desk.old (signer_seen S.told S.faults S.denials signer.old))
        (at_seat desk.new (signer_seen S.told S.faults S.denials signer.new)) result }
    ensures coming { Stays (L.coming link.old) (L.coming link.new) }
    ensures later { L.faults link.old ≤ L.faults link.new }
{
    match read_request_head(alloc, link) {
        Ok(head) => serve_head(alloc, link, head, token, now, desk, signer),
        Err(fault) => finish_faulty(alloc, link, fault),
    }
}

/// Serves a link of which this head was read: refuses it, or reads on.
fn serve_head<L: Link, K: DeskCalls, S: Signer>(
    alloc: Global,
    link: &mut L,
    head: Request,
    token: &str,
    now: u64,
    desk: &mut K,
    signer: &mut S,
) -> Served
    requires ready { K.ready desk.old }
    requires moment { now ≤ moment_limit }
    requires empty { head.body.items ≡ [] }
    ensures ready { K.ready desk.new }
    ensures serves { (before : LinkSeen) → ReadsHead head before (record { left = L.left link.old; held = L.held link.old; faults = L.faults link.old })
        → Serves K.leads token.now now before
        (record { left = L.left link.new; held = L.held link.new; faults = L.faults link.new })
        (at_seat desk.old (signer_seen S.told S.faults S.denials signer.old))
        (at_seat desk.new (signer_seen S.told S.faults S.denials signer.new)) result }
    ensures coming { Stays (L.coming link.old) (L.coming link.new) }
    ensures later { L.faults link.old ≤ L.faults link.new }
{
    match read_action(alloc, &head, token.as_bytes()) {
        Ok(action) => serve_body(alloc, link, head, action, now, desk, signer),
        Err(Stop::Refused(refusal)) => finish(alloc, link, refusal.reply(alloc)),
        Err(Stop::Memory) => finish(alloc, link, Err(AllocError)),
    }
}

/// Serves a link of which a head was read that passes its checks and asks for this: reads on after it.
fn serve_body<L: Link, K: DeskCalls, S: Signer>(
    alloc: Global,
    link: &mut L,
    head: Request,
    action: Action,
    now: u64,
    desk: &mut K,
    signer: &mut S,
) -> Served
    requires ready { K.ready desk.old }
    requires moment { now ≤ moment_limit }
    requires empty { head.body.items ≡ [] }
    ensures ready { K.ready desk.new }
    ensures serves { (token : List ℕ) (before : LinkSeen) → ReadsHead head before (record { left = L.left link.old; held = L.held link.old; faults = L.faults link.old }) → action_for token head ≡ Ok action
        → Serves K.leads token now before
        (record { left = L.left link.new; held = L.held link.new; faults = L.faults link.new })
        (at_seat desk.old (signer_seen S.told S.faults S.denials signer.old))
        (at_seat desk.new (signer_seen S.told S.faults S.denials signer.new)) result }
    ensures coming { Stays (L.coming link.old) (L.coming link.new) }
    ensures later { L.faults link.old ≤ L.faults link.new }
{
    match ask_for_body(link, &head) {
        Ok(()) => {}
        Err(Failed) => return drop_link(link),
    }
    match read_request_body(alloc, link, head) {
        Ok(request) => {
            let reply = reply_behind(alloc, action, &request, now, desk, signer);
            finish(alloc, link, reply)
        }
        Err(fault) => finish_faulty(alloc, link, fault),
    }
}

/// Asks for the body after a head where its sender waits for that. `Failed` only where the link's count of faults rose; a
/// front of what asks for it was sent then.
pub fn ask_for_body<L: Link>(link: &mut L, head: &Request) -> Result<(), Failed>
    ensures ok { OnOk result (Asks (expects_continue head.now) (L.held link.old) (L.held link.new)) }
    ensures err { OnErr result ((expects_continue head.now ≡ true) × AppendsFront (L.held link.old) (L.held link.new) continue_text) }
    ensures cause { HasCause (L.faults link.old) (L.faults link.new) result }
    ensures speaks { OnlySpeaks (L.left link.old) (L.left link.new) (L.coming link.old) (L.coming link.new) (L.faults link.old) (L.faults link.new) }
{
    if !expects_continue(head) {
        return Ok(());
    }
    write_continue(link)
}

/// Ends a connection of which no request was read: hangs up where the link failed, else sends the reply of the fault.
pub fn finish_faulty<L: Link>(alloc: Global, link: &mut L, fault: WireFault) -> Served
    ensures ends { EndsFaulty fault (L.held link.old) (L.held link.new) (L.faults link.old) (L.faults link.new) result }
    ensures coming { Stays (L.coming link.old) (L.coming link.new) }
    ensures later { L.faults link.old ≤ L.faults link.new }
{
    if is_link(&fault) {
        return drop_link(link);
    }
    let reply = fault_reply(alloc, fault);
    finish(alloc, link, reply)
}

/// The reply to what is no request.
fn fault_reply(alloc: Global, fault: WireFault) -> Result<Reply, AllocError>
    ensures plan { IfOk result (λ r. faulty_plan fault ≡ Done r) }
    ensures status { IfOk result (λ r. IsStatusCode r.status) }
{
    match fault {
        WireFault::BadHead => Refusal::BadHead.reply(alloc),
        WireFault::Encoded(value) => Refusal::Encoded(Items::from_vec(value)).reply(alloc),
        WireFault::TooLong(_) => Refusal::BodyTooLong.reply(alloc),
        WireFault::BadBody => Refusal::BadBody.reply(alloc),
        WireFault::Link | WireFault::OutOfMemory => Err(AllocError),
    }
}

/// Ends a connection with this reply, or where there is none the one of status 503 that says that memory ran out: sends it, and
/// hangs up.
pub fn finish<L: Link>(alloc: Global, link: &mut L, reply: Result<Reply, AllocError>) -> Served
    requires status { IfOk reply (λ r. IsStatusCode r.status) }
    ensures sends { Sends (L.held link.old) (L.held link.new) (L.faults link.old) (L.faults link.new) (result_ok reply) result }
    ensures coming { Stays (L.coming link.old) (L.coming link.new) }
    ensures later { L.faults link.old ≤ L.faults link.new }
{
    let sent = send_reply(alloc, link, reply);
    let ended = link.hang_up();
    outcome(sent, ended)
}

/// What became of a connection, of which the reply was sent so and the end was such.
pub fn outcome(sent: Result<u16, Failed>, ended: Result<(), Failed>) -> Served
    ensures { result ≡ served_by sent ended }
{
    match (sent, ended) {
        (Ok(status), Ok(())) => Served::Replied { status },
        _ => Served::Dropped,
    }
}

/// Hangs up after the link failed.
pub fn drop_link<L: Link>(link: &mut L) -> Served
    ensures dropped { result ≡ Served.Dropped }
    ensures held { Stays (L.held link.old) (L.held link.new) }
    ensures coming { Stays (L.coming link.old) (L.coming link.new) }
    ensures later { L.faults link.old ≤ L.faults link.new }
{
    let _ = link.hang_up();
    Served::Dropped
}
