//! The replies to requests that are not signed, and to those that are.
ghost use Rattle.std.specs.Prelude.{◌≡◌, IfOk, Some, option_map};
ghost use Rattle.http.specs.StatusCode.{IsStatusCode};
ghost use Rattle.serde_json.specs.View.{view};
ghost use Rattle.keymanager_routes.specs.Replies.{message_reply};
ghost use Rattle.sign_proxy.specs.Kinds.{IsRefusal};
ghost use Rattle.sign_proxy.specs.Replies.{desk_reply, signature_data, signature_reply, signer_reply, verdict_word, worded};
ghost use Rattle.sign_proxy.specs.Signing.{EndsUnsigned, HasStatus};

use crate::signing::SignEnd;
use desk_machine::DeskReply;
use edge_kit::{Items, Sig};
use json_members::Object;
use keymanager_routes::Reply;
use protect_record::Verdict;
use serde_json::Value;
use signer_link::SignReply;
use std::alloc::{AllocError, Global};

/// The end where the desk gave no grant.
pub(crate) fn without_grant(alloc: Global, reply: DeskReply) -> SignEnd
    requires { IsRefusal reply }
    ensures unsigned { EndsUnsigned (desk_reply reply) result }
    ensures status { HasStatus result }
{
    match reply {
        DeskReply::Unknown => with_message(alloc, 404, "unknown"),
        DeskReply::NotActive => with_message(alloc, 404, "not_active"),
        DeskReply::Closing => with_message(alloc, 412, "closing"),
        DeskReply::Live { epoch: _ } => with_message(alloc, 412, "live"),
        DeskReply::Watching {
            first: _,
            second: _,
        } => with_message(alloc, 412, "watching"),
        DeskReply::Refused(verdict) => with_verdict(alloc, &verdict),
        DeskReply::Full { size: _, wanted: _ } => with_message(alloc, 500, "full"),
        DeskReply::Disk => with_message(alloc, 500, "disk"),
        DeskReply::OutOfMemory => SignEnd::OutOfMemory,
        _ => unreachable!(),
    }
}

/// Refused by the past of a key.
fn with_verdict(alloc: Global, verdict: &Verdict) -> SignEnd
    ensures unsigned { EndsUnsigned (worded 412 (verdict_word verdict.now)) result }
    ensures status { HasStatus result }
{
    match verdict_word(verdict) {
        Some(word) => with_message(alloc, 412, word),
        None => SignEnd::OutOfMemory,
    }
}

/// Why a key's past forbids a message, in a word; none of a message that passes.
fn verdict_word(verdict: &Verdict) -> Option<&'static str>
    ensures { option_map (λ word. word.now) result ≡ verdict_word verdict.now }
{
    match verdict {
        Verdict::Pass => None,
        Verdict::SlotBelow(_) => Some("slot_below"),
        Verdict::DoubleBlock(_) => Some("double_block"),
        Verdict::SourceBelow(_) => Some("source_below"),
        Verdict::TargetBelow(_) => Some("target_below"),
        Verdict::DoubleVote(_) => Some("double_vote"),
        Verdict::Surrounds(_) => Some("surrounds"),
        Verdict::Surrounded(_) => Some("surrounded"),
    }
}

/// The end where the signing service gave no signature.
pub(crate) fn without_signature(alloc: Global, reply: &SignReply) -> SignEnd
    ensures unsigned { EndsUnsigned (signer_reply reply.now) result }
    ensures status { HasStatus result }
{
    match reply {
        SignReply::NoKey(_) => with_message(alloc, 404, "signer: no_key"),
        SignReply::Denied(status) => denied(alloc, *status),
        SignReply::Fault => with_message(alloc, 502, "signer: fault"),
        SignReply::BadAnswer(_) => with_message(alloc, 502, "signer: bad_answer"),
        SignReply::Signed(_) | SignReply::OutOfMemory => SignEnd::OutOfMemory,
    }
}

/// The service refused with this HTTP status.
fn denied(alloc: Global, status: u16) -> SignEnd
    ensures unsigned { EndsUnsigned (signer_reply (SignReply.Denied status)) result }
    ensures status { HasStatus result }
{
    let Ok(digits) = status.to_string(alloc) else {
        return SignEnd::OutOfMemory;
    };
    match Reply::of_word(alloc, 412, "signer: denied ", digits.as_str()) {
        Ok(reply) => SignEnd::Refused(reply),
        Err(_) => SignEnd::OutOfMemory,
    }
}

/// The reply of this status with a message.
pub(crate) fn with_message(alloc: Global, status: u16, text: &str) -> SignEnd
    requires { IsStatusCode status }
    ensures unsigned { EndsUnsigned (Some (message_reply status text.now)) result }
    ensures status { HasStatus result }
{
    match Reply::of_message(alloc, status, text) {
        Ok(reply) => SignEnd::Refused(reply),
        Err(_) => SignEnd::OutOfMemory,
    }
}

/// The reply with a signature, status 200: the object with it. The error is want of memory.
pub fn signature_reply(alloc: Global, signature: &Sig) -> Result<Reply, AllocError>
    ensures { IfOk result (λ r. r ≡ signature_reply signature.now) }
{
    let text = signature_value(alloc, signature)?.to_string(alloc)?;
    Ok(Reply {
        status: 200,
        body: Items::from_vec(text.into_bytes()),
    })
}

fn signature_value(alloc: Global, signature: &Sig) -> Result<Value, AllocError>
    ensures { IfOk result (λ v. view v ≡ signature_data signature.now) }
{
    let object = Object::new(alloc).with_hex(alloc, "signature", &signature.0)?;
    Ok(object.value())
}
