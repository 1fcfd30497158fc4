//! HTTP messages that a peer says in pieces.
ghost use Rattle.std.specs.Prelude.{None};

use crate::reading::{Stop, text_of};
use edge_kit::{Failed, Link};
use http_wire::{Request, Response, WireFault, read_request, read_response};
use std::alloc::{AllocError, Global};

/// A link whose peer says these bytes, that many of them in a first piece, and then in pieces of at most that many. It tells
/// nothing.
#[derive(Drop)]
struct CutLink<'a> {
    bytes: &'a [u8],
    first: usize,
    others: usize,
}

impl<'a> Link for CutLink<'a> {
    ghost left = { λ _. None };

    ghost coming = { λ _. None };

    ghost held = { λ _. None };

    ghost faults = { λ _. 0 };

    fn connect(&mut self) -> Result<(), Failed> {
        Ok(())
    }

    fn send(&mut self, piece: &[u8]) -> Result<usize, Failed> {
        Ok(piece.len())
    }

    fn recv(&mut self, buf: &mut [u8]) -> Result<usize, Failed> {
        let most = if self.first > 0 {
            self.first
        } else {
            self.others
        };
        let count = most.min(buf.len()).min(self.bytes.len());
        buf[..count].copy_from_slice(&self.bytes[..count]);
        self.bytes = &self.bytes[count..];
        self.first = self.first.saturating_sub(count);
        Ok(count)
    }

    fn hang_up(&mut self) -> Result<(), Failed> {
        Ok(())
    }

    fn twin(&self, _alloc: Global) -> Result<Self, AllocError> {
        Ok(CutLink {
            bytes: self.bytes,
            first: self.first,
            others: self.others,
        })
    }
}

/// The status and the body of a response.
pub fn response_words(alloc: Global, response: &Response) -> Result<String, AllocError> {
    let status = response.status;
    let body = String::from_utf8_lossy(alloc, response.body.as_slice())?;
    let body = body.as_str();
    format!(in alloc; "{status} {body:?}")
}

/// The body of a request.
fn request_words(alloc: Global, request: &Request) -> Result<String, AllocError> {
    let body = String::from_utf8_lossy(alloc, request.body.as_slice())?;
    let body = body.as_str();
    format!(in alloc; "{body:?}")
}

/// What is read of the message of this kind that a peer says.
pub fn read_message<L: Link>(alloc: Global, kind: &str, link: &mut L) -> Result<String, WireFault> {
    if kind == "request" {
        let request = read_request(alloc, link)?;
        Ok(request_words(alloc, &request)?)
    } else {
        let response = read_response(alloc, link)?;
        Ok(response_words(alloc, &response)?)
    }
}

/// What is read of the message that bytes begin with, which come so, and how many are left; or why none is.
fn read_cut(alloc: Global, kind: &str, mut link: CutLink<'_>) -> Result<String, Stop> {
    match read_message(alloc, kind, &mut link) {
        Ok(words) => {
            let words = words.as_str();
            let left = link.bytes.len();
            Ok(format!(in alloc; "{words}, {left} left")?)
        }
        Err(fault) => Ok(format!(in alloc; "{fault:?}")?),
    }
}

/// The first way to cut bytes by which something else than this is read, or that there is none.
fn first_that_differs(
    alloc: Global,
    kind: &str,
    bytes: &[u8],
    whole: &str,
) -> Result<String, Stop> {
    for first in 0..bytes.len() {
        let others = if first == 0 { 1 } else { usize::MAX };
        let words = read_cut(
            alloc,
            kind,
            CutLink {
                bytes,
                first,
                others,
            },
        )?;
        if words.as_str() != whole {
            let words = words.as_str();
            return Ok(format!(in alloc; "cut after {first}: {words}")?);
        }
    }
    let count = bytes.len();
    Ok(format!(in alloc;
        "the same byte by byte and cut in two after each but the last of {count} bytes"
    )?)
}

/// What is read of the message that a text begins with, and whether the same is read however it is cut.
pub fn read_however_cut(alloc: Global, kind: &str, words: &str) -> Result<String, Stop> {
    let text = text_of(alloc, words)?;
    let link = CutLink {
        bytes: text.as_bytes(),
        first: 0,
        others: usize::MAX,
    };
    let whole = read_cut(alloc, kind, link)?;
    let whole = whole.as_str();
    let differs = first_that_differs(alloc, kind, text.as_bytes(), whole)?;
    let differs = differs.as_str();
    Ok(format!(in alloc; "{whole}\n{differs}")?)
}
