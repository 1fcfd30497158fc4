//! The answer to a request.
ghost use Rattle.std.specs.Prelude.{◌≡◌, ◌≤◌, ℕ, IfOk, option_map};
ghost use Rattle.std.specs.Result.{result_ok};
ghost use Rattle.http.specs.StatusCode.{IsStatusCode};
ghost use Rattle.desk_machine.specs.Machine.{moment_limit};
ghost use Rattle.client_calls.specs.Seats.{SignerSeen, Ran, at_seat, signer_seen};
ghost use Rattle.keymanager_bodies.specs.Asking.{IsListedOnce, ListsOnce, body_asks};
ghost use Rattle.keymanager_api.specs.Plans.{answer_plan, asked_plan, checked_plan};
ghost use Rattle.keymanager_api.specs.Serving.{IsBare, reply_in};

use custody_format::Keystores;
use desk_machine::DeskCalls;
use edge_kit::PubKey;
use http_wire::{Request, Response};
use key_custody::{delete_keys, import_keys, list_keys};
use keymanager_bodies::{Asked, asked_in, deletion_reply, import_reply, listed_reply, read_asked};
use keymanager_routes::{Action, Reply};
use signer_link::Signer;
use slash_defs::File;
use std::alloc::{AllocError, Global};

/// Answers a request at an epoch, where this token is wanted (Keymanager API): `GET`, `POST` and `DELETE` of
/// `/eth/v1/keystores` list the active keys, take keys in and give keys up. A request that fails a check is
/// refused, and nothing is called. The response has no field next to those that each has.
///
/// # Errors
///
/// `AllocError` where memory was wanted. The first few calls are done, each whole.
pub fn answer<K: DeskCalls, S: Signer>(
    alloc: Global,
    request: &Request,
    token: &str,
    now: u64,
    desk: &mut K,
    signer: &mut S,
) -> Result<Response, AllocError>
    requires ready { K.ready desk.old }
    requires moment { now ≤ moment_limit }
    ensures ready { K.ready desk.new }
    ensures bare { IfOk result IsBare }
    ensures runs { Ran K.leads (answer_plan token.now now request.now)
        (at_seat desk.old (signer_seen S.told S.faults S.denials signer.old))
        (at_seat desk.new (signer_seen S.told S.faults S.denials signer.new)) (option_map reply_in (result_ok result)) }
{
    match reply_to(alloc, request, token, now, desk, signer) {
        Ok(reply) => Ok(response_of(alloc, reply)),
        Err(AllocError) => Err(AllocError),
    }
}

/// The response that a reply is. Takes no memory.
pub fn response_of(alloc: Global, reply: Reply) -> Response
    requires { IsStatusCode reply.status }
    ensures bare { IsBare result }
    ensures same { reply_in result ≡ reply }
{
    Response {
        status: reply.status,
        fields: Vec::new(alloc),
        body: reply.body.into_vec(),
    }
}

/// The reply to a request.
pub(crate) fn reply_to<K: DeskCalls, S: Signer>(
    alloc: Global,
    request: &Request,
    token: &str,
    now: u64,
    desk: &mut K,
    signer: &mut S,
) -> Result<Reply, AllocError>
    requires ready { K.ready desk.old }
    requires moment { now ≤ moment_limit }
    ensures ready { K.ready desk.new }
    ensures status { IfOk result (λ r. IsStatusCode r.status) }
    ensures runs { Ran K.leads (answer_plan token.now now request.now)
        (at_seat desk.old (signer_seen S.told S.faults S.denials signer.old))
        (at_seat desk.new (signer_seen S.told S.faults S.denials signer.new)) (result_ok result) }
{
    match read_asked(alloc, request, token.as_bytes()) {
        Ok(Ok(asked)) => do_asked(alloc, asked, now, desk, signer),
        Ok(Err(refusal)) => refusal.reply(alloc),
        Err(AllocError) => Err(AllocError),
    }
}

/// The reply to a request whose head passes the checks and asks for this, at an epoch. The error is want of memory; the first few
/// calls are done then, each whole.
pub fn reply_behind<K: DeskCalls, S: Signer>(
    alloc: Global,
    action: Action,
    request: &Request,
    now: u64,
    desk: &mut K,
    signer: &mut S,
) -> Result<Reply, AllocError>
    requires ready { K.ready desk.old }
    requires moment { now ≤ moment_limit }
    ensures ready { K.ready desk.new }
    ensures status { IfOk result (λ r. IsStatusCode r.status) }
    ensures runs { Ran K.leads (checked_plan now (body_asks action request.now.body.items))
        (at_seat desk.old (signer_seen S.told S.faults S.denials signer.old))
        (at_seat desk.new (signer_seen S.told S.faults S.denials signer.new)) (result_ok result) }
{
    match asked_in(alloc, action, request.body.as_slice()) {
        Ok(Ok(asked)) => do_asked(alloc, asked, now, desk, signer),
        Ok(Err(refusal)) => refusal.reply(alloc),
        Err(AllocError) => Err(AllocError),
    }
}

/// Does what is asked for.
fn do_asked<K: DeskCalls, S: Signer>(
    alloc: Global,
    asked: Asked,
    now: u64,
    desk: &mut K,
    signer: &mut S,
) -> Result<Reply, AllocError>
    requires ready { K.ready desk.old }
    requires moment { now ≤ moment_limit }
    requires once { ListsOnce asked }
    ensures ready { K.ready desk.new }
    ensures status { IfOk result (λ r. IsStatusCode r.status) }
    ensures runs { Ran K.leads (asked_plan now asked)
        (at_seat desk.old (signer_seen S.told S.faults S.denials signer.old))
        (at_seat desk.new (signer_seen S.told S.faults S.denials signer.new)) (result_ok result) }
{
    match asked {
        Asked::List => do_list(alloc, desk),
        Asked::Import { file, keystores } => {
            do_import(alloc, file, &keystores, now, desk, signer)
        }
        Asked::Delete { keys } => do_delete(alloc, keys.as_slice(), desk, signer),
    }
}

fn do_list<K: DeskCalls>(alloc: Global, desk: &mut K) -> Result<Reply, AllocError>
    requires ready { K.ready desk.old }
    ensures ready { K.ready desk.new }
    ensures status { IfOk result (λ r. IsStatusCode r.status) }
    ensures runs { (now : ℕ) (s : SignerSeen) → Ran K.leads (asked_plan now Asked.List) (at_seat desk.old s) (at_seat desk.new s) (result_ok result) }
{
    match list_keys(alloc, desk) {
        Ok(keys) => listed_reply(alloc, keys.as_slice()),
        Err(AllocError) => Err(AllocError),
    }
}

fn do_import<K: DeskCalls, S: Signer>(
    alloc: Global,
    file: Option<File>,
    keystores: &Keystores,
    now: u64,
    desk: &mut K,
    signer: &mut S,
) -> Result<Reply, AllocError>
    requires ready { K.ready desk.old }
    requires moment { now ≤ moment_limit }
    requires once { IsListedOnce file }
    ensures ready { K.ready desk.new }
    ensures status { IfOk result (λ r. IsStatusCode r.status) }
    ensures runs { Ran K.leads (asked_plan now (Asked.Import file keystores.now))
        (at_seat desk.old (signer_seen S.told S.faults S.denials signer.old))
        (at_seat desk.new (signer_seen S.told S.faults S.denials signer.new)) (result_ok result) }
{
    let (texts, passwords) = keystores.texts();
    match import_keys(alloc, file, texts, passwords, now, desk, signer) {
        Ok(ending) => import_reply(alloc, &ending),
        Err(AllocError) => Err(AllocError),
    }
}

fn do_delete<K: DeskCalls, S: Signer>(
    alloc: Global,
    keys: &[PubKey],
    desk: &mut K,
    signer: &mut S,
) -> Result<Reply, AllocError>
    requires ready { K.ready desk.old }
    ensures ready { K.ready desk.new }
    ensures status { IfOk result (λ r. IsStatusCode r.status) }
    ensures runs { (now : ℕ) → Ran K.leads (asked_plan now (Asked.Delete keys.now))
        (at_seat desk.old (signer_seen S.told S.faults S.denials signer.old))
        (at_seat desk.new (signer_seen S.told S.faults S.denials signer.new)) (result_ok result) }
{
    match delete_keys(alloc, keys, desk, signer) {
        Ok(deletion) => deletion_reply(alloc, &deletion),
        Err(AllocError) => Err(AllocError),
    }
}
