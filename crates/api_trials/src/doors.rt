//! Connections that come in at a door in memory.
use crate::Outcome;
use crate::links::{client, counted, failing_of, number_of};
use crate::stage::{Chosen, NotedDesk, Stage, TOKEN};
use edge_clock::MemClock;
use edge_kit::{Door, Failed, Link, MemDoor, MemLink};
use keymanager_api::{Connections, ConnectionsEnd, serve_connections};
use signer_link::MemSigner;
use std::alloc::{AllocError, Global};

/// When the chain began.
const GENESIS_TIME: u64 = 1000;

/// A moment of epoch 7, which begins 2688 seconds after genesis.
const MOMENT: u64 = 3700;

/// The links of these clients.
fn clients(alloc: Global, arguments: &str) -> Result<Option<Vec<MemLink>>, AllocError> {
    let mut links = Vec::new(alloc);
    for words in arguments.split(" ; ") {
        match client(alloc, "say", words)? {
            Some(link) => links.push(link)?,
            None => return Ok(None),
        }
    }
    Ok(Some(links))
}

/// A door with its options, to which these clients come.
fn door_of(alloc: Global, options: &str, callers: &str) -> Result<Option<MemDoor>, AllocError> {
    let Some(coming) = clients(alloc, callers)? else {
        return Ok(None);
    };
    let failing = failing_of(alloc, options)?;
    Ok(Some(MemDoor::new(alloc, coming, failing)?))
}

/// Serves that many connections at epoch 7, and gives how the loop ended.
fn serve_all(
    alloc: Global,
    count: u64,
    desk: &mut NotedDesk,
    signer: &mut MemSigner,
    door: &mut MemDoor,
) -> Result<(), ConnectionsEnd> {
    let wanted = Connections {
        token: TOKEN,
        genesis_time: GENESIS_TIME,
        count,
    };
    let clock = MemClock::new(MOMENT, Vec::new(alloc));
    serve_connections(alloc, wanted, &clock, desk, signer, door)
}

/// Adds what was sent over a connection that a door took back.
fn push_sent(alloc: Global, words: &mut String, link: MemLink) -> Result<(), AllocError> {
    let sent = link.into_sent();
    let counted = counted(alloc, sent.as_slice())?;
    let shown = counted.trim_end();
    write!(words, "\nfinished, {shown}")
}

/// What was said of a door, and what was sent over each connection that it took back.
fn with_finished(alloc: Global, said: String, door: MemDoor) -> Outcome {
    let mut words = said;
    for link in door.into_finished() {
        push_sent(alloc, &mut words, link)?;
    }
    Ok(Some(words))
}

/// Serves the connections that come in at a door over the signer in memory.
pub(crate) fn serve_door(alloc: Global, arguments: &str, stage: &mut Stage) -> Outcome {
    let (Some(desk), Chosen::Memory(signer)) = (&mut stage.desk, &mut stage.signer) else {
        return Ok(None);
    };
    let (options, callers) = arguments.split_once(" ; ").unwrap_or((arguments, ""));
    let Some(mut door) = door_of(alloc, options, callers)? else {
        return Ok(None);
    };
    let count = number_of(options, "count").unwrap_or(0);
    let ended = serve_all(alloc, count, desk, signer, &mut door);
    let said = format!(in alloc; "{ended:?}")?;
    with_finished(alloc, said, door)
}

/// What a call of a door gave. A connection that it gave is sent `ab`, while the door is asked for one more, and is
/// given back.
fn accept_once(alloc: Global, door: &mut MemDoor) -> Result<String, AllocError> {
    match door.accept() {
        Ok(Some(mut link)) => {
            let is_last = matches!(door.accept(), Ok(None));
            let sent = link.send(b"ab");
            door.finish(link);
            format!(in alloc; "a connection, the last: {is_last}, sent of 2: {sent:?}")
        }
        Ok(None) => String::from_str(alloc, "no connection"),
        Err(Failed) => String::from_str(alloc, "failed"),
    }
}

/// Asks a door twice for a connection.
pub(crate) fn accept_twice(alloc: Global, arguments: &str) -> Outcome {
    let (options, callers) = arguments.split_once(" ; ").unwrap_or((arguments, ""));
    let Some(mut door) = door_of(alloc, options, callers)? else {
        return Ok(None);
    };
    let first = accept_once(alloc, &mut door)?;
    let second = accept_once(alloc, &mut door)?;
    let said = format!(in alloc; "{first}\n{second}")?;
    with_finished(alloc, said, door)
}
