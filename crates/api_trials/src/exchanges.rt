//! Requests, each with its reply.
use crate::Outcome;
use crate::links::{client, counted, metered_client};
use crate::stage::{Chosen, NOW, Stage, TOKEN, serve};
use edge_kit::MemLink;
use http_wire::{Request, Response, read_request};
use keymanager_api::{Served, answer};
use std::alloc::{AllocError, Global};

/// What became of a connection, and what was sent over it.
pub(crate) fn served_words(alloc: Global, served: Served, link: MemLink) -> Outcome {
    let sent = link.into_sent();
    let words = counted(alloc, sent.as_slice())?;
    Ok(Some(format!(in alloc; "{served:?}, {words}")?))
}

/// Serves the connection of a client.
pub(crate) fn exchange(
    alloc: Global,
    subject: &str,
    arguments: &str,
    stage: &mut Stage,
) -> Outcome {
    let Some(desk) = &mut stage.desk else {
        return Ok(None);
    };
    let Some(mut link) = client(alloc, subject, arguments)? else {
        return Ok(None);
    };
    let served = serve(alloc, &mut link, desk, &mut stage.signer);
    served_words(alloc, served, link)
}

/// Serves the connection of a client, and tells how many of the bytes that it says were read.
pub(crate) fn heard(alloc: Global, arguments: &str, stage: &mut Stage) -> Outcome {
    let Some(desk) = &mut stage.desk else {
        return Ok(None);
    };
    let Some(mut link) = metered_client(alloc, arguments)? else {
        return Ok(None);
    };
    let served = serve(alloc, &mut link, desk, &mut stage.signer);
    let read = format!(in alloc; "{} of {} bytes read", link.read, link.said)?;
    let words = served_words(alloc, served, link.link)?;
    with_read(alloc, read.as_str(), words)
}

/// What became of a connection, after how much was read of it.
fn with_read(alloc: Global, read: &str, words: Option<String>) -> Outcome {
    match words {
        Some(words) => Ok(Some(format!(in alloc; "{read}, {words}")?)),
        None => Ok(None),
    }
}

/// The request that a client says, if it says one.
fn request_in(alloc: Global, arguments: &str) -> Result<Option<Request>, AllocError> {
    let Some(mut link) = client(alloc, "say", arguments)? else {
        return Ok(None);
    };
    match read_request(alloc, &mut link) {
        Ok(request) => Ok(Some(request)),
        Err(_) => Ok(None),
    }
}

/// A response in words: its status, how many fields it has, and its body.
fn response_words(alloc: Global, response: &Response) -> Outcome {
    let status = response.status;
    let fields = response.fields.len();
    let body = counted(alloc, response.body.as_slice())?;
    Ok(Some(format!(in alloc; "status {status}, {fields} fields, {body}")?))
}

/// Answers a request over the signer in memory, and over no link.
pub(crate) fn answer_without_link(alloc: Global, arguments: &str, stage: &mut Stage) -> Outcome {
    let (Some(desk), Chosen::Memory(signer)) = (&mut stage.desk, &mut stage.signer) else {
        return Ok(None);
    };
    let Some(request) = request_in(alloc, arguments)? else {
        return Ok(None);
    };
    let response = answer(alloc, &request, TOKEN, NOW, desk, signer)?;
    response_words(alloc, &response)
}
