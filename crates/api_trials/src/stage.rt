//! The desk and the signer, which stay from line to line.
use crate::Outcome;
use crate::exhausted::Exhausted;
use crate::links::{bytes_of, counted, failing_of, number_of};
use check_sign::Desk;
use edge_kit::{Disks, Link, MemDisk, MemLink, Root};
use keymanager_api::{Served, serve_connection};
use service_url::ServiceUrl;
use signer_link::MemSigner;
use std::alloc::{AllocError, Global};
use std::mem;
use test_texts::{Notes, Noting, words_of};
use web3_signer::Web3Signer;

/// The token that is wanted.
pub(crate) const TOKEN: &str = "TOKEN";

/// The epoch of each request.
pub(crate) const NOW: u64 = 7;

/// The signer that is chosen.
#[derive(Drop)]
pub(crate) enum Chosen {
    /// One in memory, which holds every key.
    Memory(MemSigner),
    /// A signing service over a link in memory.
    Service(Web3Signer<MemLink>),
    /// One that is out of memory.
    Exhausted,
}

/// A desk over disks in memory, and what it did.
pub(crate) type NotedDesk = Noting<Desk<MemDisk>>;

/// What requests are served over.
#[derive(Drop)]
pub(crate) struct Stage {
    pub(crate) desk: Option<NotedDesk>,
    pub(crate) signer: Chosen,
}

/// An empty disk that stops at a call, if one is given.
fn disk(alloc: Global, stop: Option<u64>) -> Result<MemDisk, AllocError> {
    MemDisk::new(alloc, Vec::new(alloc), Vec::new(alloc), stop)
}

/// A desk that keeps no key, whose first disk stops at a call, if one is given; none where it does not open.
fn desk_of(alloc: Global, stop: Option<u64>) -> Result<Option<NotedDesk>, AllocError> {
    let first = disk(alloc, stop)?;
    let second = disk(alloc, None)?;
    match Desk::open(alloc, Disks { first, second }, Root([0; 32]), false, 0) {
        Ok(desk) => Ok(Some(Noting {
            desk,
            notes: Notes::new(alloc, 0),
        })),
        Err(_) => Ok(None),
    }
}

/// Opens a new desk.
pub(crate) fn open_desk(alloc: Global, options: &str, stage: &mut Stage) -> Outcome {
    stage.desk = desk_of(alloc, number_of(options, "stops"))?;
    let is_open = stage.desk.is_some();
    Ok(Some(format!(in alloc; "open: {is_open}")?))
}

/// A signing service that says these responses, one over each connection.
fn service_of(alloc: Global, responses: &str) -> Result<Option<Chosen>, AllocError> {
    let Some(url) = ServiceUrl::read(alloc, "http://signer:9000")? else {
        return Ok(None);
    };
    let link = service_link(alloc, responses)?;
    Ok(Some(Chosen::Service(Web3Signer::new(link, url))))
}

/// The link to such a service.
fn service_link(alloc: Global, responses: &str) -> Result<MemLink, AllocError> {
    let mut conversations = Vec::new(alloc);
    for response in responses.split(" ; ") {
        conversations.push(bytes_of(alloc, response)?)?;
    }
    MemLink::new(alloc, conversations, 65_536, Vec::new(alloc))
}

/// A signer in memory, whose call under `fails` fails.
fn memory_of(alloc: Global, options: &str) -> Result<Option<Chosen>, AllocError> {
    let failing = failing_of(alloc, options)?;
    let signer = MemSigner::new(alloc, Vec::new(alloc), failing);
    Ok(Some(Chosen::Memory(signer)))
}

/// The signer that words name.
fn signer_of(alloc: Global, kind: &str, rest: &str) -> Result<Option<Chosen>, AllocError> {
    match kind {
        "memory" => memory_of(alloc, rest),
        "service" => service_of(alloc, rest),
        "exhausted" => Ok(Some(Chosen::Exhausted)),
        _ => Ok(None),
    }
}

/// Chooses a signer, a new one.
pub(crate) fn choose_signer(alloc: Global, arguments: &str, stage: &mut Stage) -> Outcome {
    let (kind, rest) = arguments.split_once(' ').unwrap_or((arguments, ""));
    match signer_of(alloc, kind, rest)? {
        Some(signer) => {
            stage.signer = signer;
            Ok(Some(String::from_str(alloc, "chosen")?))
        }
        None => Ok(None),
    }
}

/// Serves a connection over a desk and the signer that is chosen.
pub(crate) fn serve<L: Link>(
    alloc: Global,
    link: &mut L,
    desk: &mut NotedDesk,
    signer: &mut Chosen,
) -> Served {
    match signer {
        Chosen::Memory(signer) => serve_connection(alloc, link, TOKEN, NOW, desk, signer),
        Chosen::Service(signer) => serve_connection(alloc, link, TOKEN, NOW, desk, signer),
        Chosen::Exhausted => serve_connection(alloc, link, TOKEN, NOW, desk, &mut Exhausted),
    }
}

/// Whether the desk has failed, and what it did, with its moments.
fn desk_words(alloc: Global, stage: &Stage) -> Outcome {
    let Some(Noting { desk, notes }) = &stage.desk else {
        return Ok(None);
    };
    let failed = desk.failed();
    let count = notes.events().len();
    let events = words_of(alloc, notes.events())?;
    Ok(Some(format!(in alloc; "failed: {failed}, events: {count}\n{events}")?))
}

/// Ends the desk, and says how many calls its first disk had.
fn disk_words(alloc: Global, stage: &mut Stage) -> Outcome {
    let Some(Noting { desk, notes: _ }) = stage.desk.take() else {
        return Ok(None);
    };
    let (disks, _) = desk.end();
    let calls = disks.first.calls();
    Ok(Some(format!(in alloc; "{calls} calls")?))
}

/// Ends the signing service, and says all that it was sent.
fn service_words(alloc: Global, stage: &mut Stage) -> Outcome {
    let Chosen::Service(service) = mem::replace(&mut stage.signer, Chosen::Exhausted) else {
        return Ok(None);
    };
    let sent = service.into_link().into_sent();
    Ok(Some(counted(alloc, sent.as_slice())?))
}

/// Looks at what was left.
pub(crate) fn look(alloc: Global, at: &str, stage: &mut Stage) -> Outcome {
    match at {
        "desk" => desk_words(alloc, stage),
        "disk" => disk_words(alloc, stage),
        "service" => service_words(alloc, stage),
        _ => Ok(None),
    }
}
