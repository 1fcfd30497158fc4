//! Lines of a session, and the requests that they are.
use crate::reading::{bytes, push_digits, push_ended};
use edge_kit::Root;
use session_format::{Answer, Member, Op, Request, SessionChain, read_request};
use sign_roots::{Domains, Fork};
use signer_link::SignObject;
use slash_defs::Message;
use std::alloc::{AllocError, Global};

/// A chain whose version changes at epoch 10, and whose blocks are Altair's from epoch 2 on.
fn chain() -> SessionChain {
    let fork = Fork {
        previous_version: [0, 0, 0, 1],
        current_version: [0, 0, 0, 2],
        epoch: 10,
    };
    SessionChain {
        domains: Domains::new(fork, Root([0xcc; 32])),
        altair: Some(2),
    }
}

/// Appends the request that a line is, or the member that it is refused for and the answer.
pub(crate) fn push_request_of(alloc: Global, text: &str, out: &mut String) -> Option<()> {
    let line = bytes(alloc, text)?;
    match &read_request(alloc, &chain(), line.as_slice()).ok()? {
        Ok(request) => push_request(out, request).ok(),
        Err(member) => push_refusal(alloc, out, *member).ok(),
    }
}

/// Appends the name of a member, and the answer that names it.
fn push_refusal(alloc: Global, out: &mut String, member: Member) -> Result<(), AllocError> {
    writeln!(out, "no {}", member.name())?;
    let answer = Answer::BadRequest(member);
    let line = answer.line(alloc)?;
    push_ended(out, line.as_str())
}

/// Appends a request in words.
fn push_request(out: &mut String, request: &Request) -> Result<(), AllocError> {
    push_op(out, &request.op)?;
    match request.epoch {
        Some(epoch) => write!(out, " at {epoch}"),
        None => Ok(()),
    }
}

/// Appends what a request asks for.
fn push_op(out: &mut String, op: &Op) -> Result<(), AllocError> {
    match op {
        Op::Merge { file } => write!(out, "merge {}", file.books.len()),
        Op::BadFile { fault } => write!(out, "{fault}"),
        Op::Activate { .. } => out.push_str("activate"),
        Op::Import { file, keystores } => {
            let (keystores, _passwords) = keystores.texts();
            let merged = if file.is_some() { " and a file" } else { "" };
            write!(out, "import {}{merged}", keystores.len())
        }
        Op::Delete { keys } => write!(out, "delete {}", keys.len()),
        Op::List => out.push_str("list"),
        Op::Propose {
            message,
            object,
            ..
        } => push_proposal(out, message, object.as_ref()),
        Op::Export { keys: Some(keys) } => write!(out, "export {}", keys.len()),
        Op::Export { keys: None } => out.push_str("export all"),
        Op::Prune { .. } => out.push_str("prune"),
        Op::Live { of, is_live, .. } => write!(out, "live {of} {is_live}"),
        Op::Compact => out.push_str("compact"),
    }
}

/// Appends a message, and the kind of the object that it is of.
fn push_proposal(
    out: &mut String,
    message: &Message,
    object: Option<&SignObject>,
) -> Result<(), AllocError> {
    match message {
        Message::Block { slot, .. } => write!(out, "block {slot} ")?,
        Message::Vote { source, target, .. } => write!(out, "vote {source} {target} ")?,
    }
    push_digits(out, &message.signing_root().0)?;
    out.push_str(object_words(object))
}

/// The kind of an object.
fn object_words(object: Option<&SignObject>) -> &'static str {
    match object {
        None => "",
        Some(SignObject::Header { .. }) => " header",
        Some(SignObject::Block(_)) => " whole block",
        Some(SignObject::Attestation(_)) => " attestation",
    }
}
