//! Requests for a signature, each with its reply, and connections of the signing proxy.
ghost use Rattle.desk_machine.specs.Making.{MaySettle};

use crate::Outcome;
use crate::exchanges::served_words;
use crate::exhausted::Exhausted;
use crate::links::{client, counted};
use crate::stage::{Chosen, NOW, NotedDesk, Stage, TOKEN};
use desk_machine::{DeskCall, DeskCalls, DeskReply, Grant, Outcome as Settling};
use edge_kit::{Link, Root, Sig, read_hex};
use keymanager_api::Served;
use keymanager_routes::Reply;
use proxy_api::sign_connection;
use sign_proxy::{SignEnd, sign_reply, signature_reply};
use signer_link::Signer;
use std::alloc::{AllocError, Global};

/// A reply in words: its status and its body.
fn reply_words(alloc: Global, reply: &Reply) -> Outcome {
    let status = reply.status;
    let body = counted(alloc, reply.body.as_slice())?;
    Ok(Some(format!(in alloc; "status {status}, {body}")?))
}

/// A signature in words: the status and the body of the reply with it, as an object.
fn signature_words(alloc: Global, signature: &Sig) -> Outcome {
    let reply = signature_reply(alloc, signature)?;
    reply_words(alloc, &reply)
}

/// Settles the grant of a signature as sent.
fn send<K: DeskCalls>(desk: &mut K, grant: Grant)
    requires ready { K.ready desk.old }
    requires settles { MaySettle (K.allows desk.old) (DeskReply.Granted grant) }
{
    let outcome = Settling::Sent;
    match desk.call(DeskCall::Settle { grant, outcome }) {
        DeskReply::Settled => (),
        _ => unreachable!(),
    }
}

/// The root of the genesis validators that words begin with, as in `genesis=0x..`, and the words after it.
fn named_chain(words: &str) -> Option<(Root, &str)> {
    let (first, rest) = words.split_once(' ')?;
    let digits = first.strip_prefix("genesis=")?;
    Some((Root(read_hex::<32>(digits)?), rest))
}

/// Answers a request for a signature at a desk and a signer, and settles the grant that it gives as sent.
fn answer<K: DeskCalls, S: Signer>(
    alloc: Global,
    chain: &Root,
    identifier: &str,
    body: &[u8],
    desk: &mut K,
    signer: &mut S,
) -> Outcome
    requires ready { K.ready desk.old }
{
    match sign_reply(alloc, identifier, chain, body, NOW, desk, signer) {
        SignEnd::Refused(reply) => reply_words(alloc, &reply),
        SignEnd::Signed { signature, grant } => {
            send(desk, grant);
            signature_words(alloc, &signature)
        }
        SignEnd::OutOfMemory => Ok(Some(String::from_str(alloc, "no memory")?)),
    }
}

/// Answers a request for a signature by what the first word names, over the signer that is chosen, for the chain that a word
/// before that names, or else the one whose root is of zeros.
pub(crate) fn sign(alloc: Global, arguments: &str, stage: &mut Stage) -> Outcome {
    let Some(desk) = &mut stage.desk else {
        return Ok(None);
    };
    let (chain, words) = named_chain(arguments).unwrap_or((Root([0; 32]), arguments));
    let (identifier, body) = words.split_once(' ').unwrap_or((words, ""));
    let body = body.as_bytes();
    match &mut stage.signer {
        Chosen::Memory(signer) => answer(alloc, &chain, identifier, body, desk, signer),
        Chosen::Service(signer) => answer(alloc, &chain, identifier, body, desk, signer),
        Chosen::Exhausted => answer(alloc, &chain, identifier, body, desk, &mut Exhausted),
    }
}

/// Serves a connection of the proxy over a desk and the signer that is chosen.
fn proxied<L: Link>(
    alloc: Global,
    link: &mut L,
    desk: &mut NotedDesk,
    signer: &mut Chosen,
) -> Served {
    let chain = &Root([0; 32]);
    match signer {
        Chosen::Memory(signer) => sign_connection(alloc, link, TOKEN, chain, NOW, desk, signer),
        Chosen::Service(signer) => sign_connection(alloc, link, TOKEN, chain, NOW, desk, signer),
        Chosen::Exhausted => {
            sign_connection(alloc, link, TOKEN, chain, NOW, desk, &mut Exhausted)
        }
    }
}

/// Serves the connection of a client at the proxy.
pub(crate) fn pass(alloc: Global, arguments: &str, stage: &mut Stage) -> Outcome {
    let Some(desk) = &mut stage.desk else {
        return Ok(None);
    };
    let Some(mut link) = client(alloc, "say", arguments)? else {
        return Ok(None);
    };
    let served = proxied(alloc, &mut link, desk, &mut stage.signer);
    served_words(alloc, served, link)
}
