//! The notation of bytes, and links in memory.
ghost use Rattle.std.specs.Prelude.{None};

use edge_kit::{Failed, Link, MemLink};
use std::alloc::{AllocError, Global};

/// Room for each reply, where a line names none.
const ROOM: u64 = 65_536;

/// The number that a text gives under a name, as in `count=2`, if it gives one.
pub(crate) fn number_of(options: &str, name: &str) -> Option<u64> {
    for word in options.split(' ') {
        match word.split_once('=') {
            Some((key, number)) if key == name => return number.parse().ok(),
            _ => {}
        }
    }
    None
}

/// The calls that fail: the one under `fails`, if there is one.
pub(crate) fn failing_of(alloc: Global, options: &str) -> Result<Vec<u64>, AllocError> {
    match number_of(options, "fails") {
        Some(call) => Ok(vec![in alloc; call]?),
        None => Ok(Vec::new(alloc)),
    }
}

/// The bytes that a text is: each `|` ends a line, and each `^` is the byte 255, which no text has.
pub(crate) fn bytes_of(alloc: Global, text: &str) -> Result<Vec<u8>, AllocError> {
    let mut bytes = text.replace(alloc, '|', "\r\n")?.into_bytes();
    for byte in bytes.iter_mut() {
        if *byte == b'^' {
            *byte = 255;
        }
    }
    Ok(bytes)
}

/// Bytes in the same notation, after their count; in hex where they are no text.
pub(crate) fn counted(alloc: Global, bytes: &[u8]) -> Result<String, AllocError> {
    let text = match str::from_utf8(bytes) {
        Ok(text) => text.replace(alloc, "\r\n", "|")?,
        Err(_) => hex::encode(alloc, bytes)?,
    };
    let count = bytes.len();
    format!(in alloc; "{count} bytes\n{text}")
}

/// A text, with what stands between two `~` in it that many times.
fn repeated(alloc: Global, text: &str, times: usize) -> Result<String, AllocError> {
    let Some((before, rest)) = text.split_once('~') else {
        return String::from_str(alloc, text);
    };
    let (piece, after) = rest.split_once('~').unwrap_or((rest, ""));
    let pieces = piece.repeat(alloc, times)?;
    format!(in alloc; "{before}{pieces}{after}")
}

/// A request of the keystores with the token: a method and, after a space, a body.
fn request_of(alloc: Global, text: &str, times: usize) -> Result<Vec<u8>, AllocError> {
    let (method, body) = text.split_once(' ').unwrap_or((text, ""));
    let body = repeated(alloc, body, times)?;
    let length = body.len();
    let request = format!(in alloc;
        "{method} /eth/v1/keystores HTTP/1.1\r\nAuthorization: Bearer TOKEN\r\nContent-Length: {length}\r\n\r\n{body}"
    )?;
    Ok(request.into_bytes())
}

/// What a client says: a request by its method and its body for `ask`, else bytes; for `heard` some of them repeated.
fn said(alloc: Global, subject: &str, options: &str, text: &str) -> Result<Vec<u8>, AllocError> {
    let times = number_of(options, "times").unwrap_or(1) as usize;
    match subject {
        "ask" => request_of(alloc, text, times),
        "heard" => bytes_of(alloc, repeated(alloc, text, times)?.as_str()),
        _ => bytes_of(alloc, text),
    }
}

/// A connected link on which the client says these bytes, with the room for bytes sent and the failing call that the
/// options name. Its call 0 connected it.
fn link_of(alloc: Global, options: &str, bytes: Vec<u8>) -> Result<MemLink, AllocError> {
    let conversations = vec![in alloc; bytes]?;
    let room = number_of(options, "room").unwrap_or(ROOM);
    let failing = failing_of(alloc, options)?;
    let mut link = MemLink::new(alloc, conversations, room as usize, failing)?;
    let _ = link.connect();
    Ok(link)
}

/// The link of a client: its options and, after `>`, what it says.
pub(crate) fn client(
    alloc: Global,
    subject: &str,
    arguments: &str,
) -> Result<Option<MemLink>, AllocError> {
    let Some((options, text)) = arguments.split_once('>') else {
        return Ok(None);
    };
    let bytes = said(alloc, subject, options, text.trim_start())?;
    Ok(Some(link_of(alloc, options, bytes)?))
}

/// A link in memory, with how many bytes its client says and how many of them were read. It tells nothing.
#[derive(Drop)]
pub(crate) struct Metered {
    pub(crate) link: MemLink,
    pub(crate) said: usize,
    pub(crate) read: usize,
}

impl Link for Metered {
    ghost use Rattle.edge_kit.specs.OnMemLinks.{link_calls};

    ghost left = { λ _. None };

    ghost coming = { λ _. None };

    ghost held = { λ _. None };

    ghost faults = { λ s. (link_calls s.link).faults };

    fn connect(&mut self) -> Result<(), Failed> {
        self.link.connect()
    }

    fn send(&mut self, piece: &[u8]) -> Result<usize, Failed> {
        self.link.send(piece)
    }

    fn recv(&mut self, buf: &mut [u8]) -> Result<usize, Failed> {
        let count = self.link.recv(buf)?;
        self.read = self.read.saturating_add(count);
        Ok(count)
    }

    fn hang_up(&mut self) -> Result<(), Failed> {
        self.link.hang_up()
    }

    fn twin(&self, alloc: Global) -> Result<Self, AllocError> {
        Ok(Metered {
            link: self.link.twin(alloc)?,
            said: self.said,
            read: self.read,
        })
    }
}

/// The link of a client that says bytes, with how many it says.
pub(crate) fn metered_client(
    alloc: Global,
    arguments: &str,
) -> Result<Option<Metered>, AllocError> {
    let Some((options, text)) = arguments.split_once('>') else {
        return Ok(None);
    };
    let bytes = said(alloc, "heard", options, text.trim_start())?;
    let said = bytes.len();
    let link = link_of(alloc, options, bytes)?;
    Ok(Some(Metered {
        link,
        said,
        read: 0,
    }))
}
