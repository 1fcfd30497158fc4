//! A request for a signature.
ghost use Rattle.std.specs.Prelude.{◌≡◌, ◌≤◌, ◌∷◌, [], Ok, IsSome, None, Some};
ghost use Rattle.desk_machine.specs.Machine.{moment_limit};
ghost use Rattle.desk_machine.specs.Making.{MaySettle};
ghost use Rattle.client_calls.specs.Seats.{SignerSeen, at_seat, signer_seen};
ghost use Rattle.signing_requests.specs.Objects.{wanted_of};
ghost use Rattle.signing_requests.specs.Refusals.{refusal_reply};
ghost use Rattle.sign_proxy.specs.Plans.{answered, message_in, signing_plan, signs, signs_plain, wanted_plan};
ghost use Rattle.sign_proxy.specs.Signing.{Answers, CanSettle, Ends, EndsUnsigned, GrantedFor, HasStatus};

use crate::replies::{without_grant, without_signature};
use desk_machine::{DeskCall, DeskCalls, DeskReply, Grant, Outcome};
use edge_kit::{PubKey, Root, Sig};
use keymanager_routes::Reply;
use signer_link::{PlainRequest, SignReply, SignRequest, Signer};
use signing_requests::{SigningRefusal, SigningRequest, SigningStop, Wanted, read_signing_request};
use slash_defs::Message;
use std::alloc::Global;

/// How a request for a signature ended.
pub enum SignEnd {
    /// It was not signed: its reply. No grant of it is open.
    Refused(Reply),
    /// It was signed: the signature, and the grant that it was signed under. The grant is open: whoever sends the reply, of
    /// status 200, settles it, as sent where a byte of the reply was sent, else as dropped.
    Signed { signature: Sig, grant: Grant },
    /// Memory ran out, at any point. The desk may have kept the message, and the service may have signed it; no grant of it is
    /// open.
    OutOfMemory,
}

/// Answers a request for a signature by the key that a target's identifier names, at an epoch, for the chain with this root of its
/// genesis validators (Web3Signer API, `eth2/sign`). The request is read by `read_signing_request`. Of a block or a vote the desk is
/// asked whether it may be signed, and keeps it before it is signed; of anything else it is asked for leave. Only then the signer
/// is asked, under the grant. Without a signature the grant is settled as dropped. The epoch is at most the desk's limit of
/// moments.
///
/// What comes of it is the signature, or a reply with a message, which says why there is none: 400
/// where the request fails a check, and then nothing was called; 404 where the desk does not keep the key, or it is not
/// active; 412 where the key is being closed, its watch does not let it sign, or its past forbids the message; 500 where the
/// desk has no room or its disk failed; and of a signer that gave no signature 404 where it lacks the key, 412 where it
/// refused, and 502 where it failed or answered something else. In the last three cases the desk keeps a message that it
/// granted.
pub fn sign_reply<K: DeskCalls, S: Signer>(
    alloc: Global,
    identifier: &str,
    genesis: &Root,
    body: &[u8],
    now: u64,
    desk: &mut K,
    signer: &mut S,
) -> SignEnd
    requires ready { K.ready desk.old }
    requires moment { now ≤ moment_limit }
    ensures ready { K.ready desk.new }
    ensures settles { CanSettle K.allows desk.new result }
    ensures status { HasStatus result }
    ensures answers { Answers K.leads identifier.now genesis.now body.now now
        (at_seat desk.old (signer_seen S.told S.faults S.denials signer.old))
        (at_seat desk.new (signer_seen S.told S.faults S.denials signer.new)) result }
{
    match read_signing_request(alloc, identifier, genesis, body) {
        Ok(asked) => sign_asked(alloc, asked, now, desk, signer),
        Err(SigningStop::Refused(refusal)) => refuse(alloc, &refusal),
        Err(SigningStop::Memory) => SignEnd::OutOfMemory,
    }
}

/// Refuses a request, and calls nothing.
fn refuse(alloc: Global, refusal: &SigningRefusal) -> SignEnd
    ensures unsigned { EndsUnsigned (Some (refusal_reply refusal.now)) result }
    ensures status { HasStatus result }
{
    match refusal.reply(alloc) {
        Ok(reply) => SignEnd::Refused(reply),
        Err(_) => SignEnd::OutOfMemory,
    }
}

/// Does what a request asks for.
fn sign_asked<K: DeskCalls, S: Signer>(
    alloc: Global,
    asked: SigningRequest,
    now: u64,
    desk: &mut K,
    signer: &mut S,
) -> SignEnd
    requires ready { K.ready desk.old }
    requires moment { now ≤ moment_limit }
    ensures ready { K.ready desk.new }
    ensures settles { CanSettle K.allows desk.new result }
    ensures status { HasStatus result }
    ensures granted { GrantedFor asked.key (message_in (wanted_of asked.domains asked.object)) result }
    ensures ends { Ends K.leads (signing_plan now (Ok asked))
        (at_seat desk.old (signer_seen S.told S.faults S.denials signer.old))
        (at_seat desk.new (signer_seen S.told S.faults S.denials signer.new)) result }
{
    let key = asked.key;
    match asked.wanted() {
        Wanted::Propose { message, request } => {
            propose(alloc, key, message, &request, now, desk, signer)
        }
        Wanted::Allow(request) => allow(alloc, key, &request, now, desk, signer),
    }
}

/// Proposes a block or a vote, and has it signed under the grant of that.
fn propose<K: DeskCalls, S: Signer>(
    alloc: Global,
    key: PubKey,
    message: Message,
    request: &SignRequest,
    now: u64,
    desk: &mut K,
    signer: &mut S,
) -> SignEnd
    requires ready { K.ready desk.old }
    requires moment { now ≤ moment_limit }
    ensures ready { K.ready desk.new }
    ensures settles { CanSettle K.allows desk.new result }
    ensures status { HasStatus result }
    ensures granted { GrantedFor key (Some message) result }
    ensures ends { Ends K.leads (wanted_plan key now (Wanted.Propose message request.now))
        (at_seat desk.old (signer_seen S.told S.faults S.denials signer.old))
        (at_seat desk.new (signer_seen S.told S.faults S.denials signer.new)) result }
{
    match desk.call(DeskCall::Propose { key, message, now }) {
        DeskReply::Granted(grant) => sign(alloc, request, grant, desk, signer),
        reply => without_grant(alloc, reply),
    }
}

/// Has the message of a grant signed.
fn sign<K: DeskCalls, S: Signer>(
    alloc: Global,
    request: &SignRequest,
    grant: Grant,
    desk: &mut K,
    signer: &mut S,
) -> SignEnd
    requires ready { K.ready desk.old }
    requires message { IsSome grant.message }
    requires settles { MaySettle (λ c. K.allows desk.old c) (DeskReply.Granted grant) }
    ensures ready { K.ready desk.new }
    ensures settles { CanSettle K.allows desk.new result }
    ensures status { HasStatus result }
    ensures granted { GrantedFor grant.key grant.message result }
    ensures ends { Ends K.leads (signs request.now grant)
        (at_seat desk.old (signer_seen S.told S.faults S.denials signer.old))
        (at_seat desk.new (signer_seen S.told S.faults S.denials signer.new)) result }
{
    let reply = signer.sign(request, &grant);
    end_signing(alloc, reply, grant, desk)
}

/// Asks for leave, and has what is no block and no vote signed under the grant of that.
fn allow<K: DeskCalls, S: Signer>(
    alloc: Global,
    key: PubKey,
    request: &PlainRequest,
    now: u64,
    desk: &mut K,
    signer: &mut S,
) -> SignEnd
    requires ready { K.ready desk.old }
    requires moment { now ≤ moment_limit }
    ensures ready { K.ready desk.new }
    ensures settles { CanSettle K.allows desk.new result }
    ensures status { HasStatus result }
    ensures granted { GrantedFor key None result }
    ensures ends { Ends K.leads (wanted_plan key now (Wanted.Allow request.now))
        (at_seat desk.old (signer_seen S.told S.faults S.denials signer.old))
        (at_seat desk.new (signer_seen S.told S.faults S.denials signer.new)) result }
{
    match desk.call(DeskCall::Allow { key, now }) {
        DeskReply::Granted(grant) => sign_plain(alloc, request, grant, desk, signer),
        reply => without_grant(alloc, reply),
    }
}

/// Has this signed under a grant.
fn sign_plain<K: DeskCalls, S: Signer>(
    alloc: Global,
    request: &PlainRequest,
    grant: Grant,
    desk: &mut K,
    signer: &mut S,
) -> SignEnd
    requires ready { K.ready desk.old }
    requires settles { MaySettle (λ c. K.allows desk.old c) (DeskReply.Granted grant) }
    ensures ready { K.ready desk.new }
    ensures settles { CanSettle K.allows desk.new result }
    ensures status { HasStatus result }
    ensures granted { GrantedFor grant.key grant.message result }
    ensures ends { Ends K.leads (signs_plain request.now grant)
        (at_seat desk.old (signer_seen S.told S.faults S.denials signer.old))
        (at_seat desk.new (signer_seen S.told S.faults S.denials signer.new)) result }
{
    let reply = signer.sign_plain(request, &grant);
    end_signing(alloc, reply, grant, desk)
}

/// Ends a request by the signer's answer under its grant.
fn end_signing<K: DeskCalls>(alloc: Global, reply: SignReply, grant: Grant, desk: &mut K) -> SignEnd
    requires ready { K.ready desk.old }
    requires settles { MaySettle (λ c. K.allows desk.old c) (DeskReply.Granted grant) }
    ensures ready { K.ready desk.new }
    ensures settles { CanSettle K.allows desk.new result }
    ensures status { HasStatus result }
    ensures granted { GrantedFor grant.key grant.message result }
    ensures ends { (s : SignerSeen) → Ends K.leads (answered grant reply) (at_seat desk.old s) (at_seat desk.new s) result }
{
    match reply {
        SignReply::Signed(signature) => SignEnd::Signed { signature, grant },
        reply => {
            drop_grant(grant, desk);
            without_signature(alloc, &reply)
        }
    }
}

/// Settles a grant as dropped: nothing is sent under it.
fn drop_grant<K: DeskCalls>(grant: Grant, desk: &mut K)
    requires ready { K.ready desk.old }
    requires settles { MaySettle (λ c. K.allows desk.old c) (DeskReply.Granted grant) }
    ensures ready { K.ready desk.new }
    ensures leads { K.leads desk.old ((DeskCall.Settle grant Outcome.Dropped, DeskReply.Settled) ∷ []) desk.new }
{
    let outcome = Outcome::Dropped;
    match desk.call(DeskCall::Settle { grant, outcome }) {
        DeskReply::Settled => (),
        _ => unreachable!(),
    }
}
