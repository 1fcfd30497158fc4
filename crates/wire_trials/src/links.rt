//! Links in memory.
use crate::messages::{read_message, response_words};
use crate::reading::{Stop, first_part, service_of, shown, text_of};
use crate::scenes::Scene;
use edge_kit::{Link, MemLink};
use http::Method;
use http_call::call;
use http_wire::{Field, Request, Response, WireFault, write_request, write_response};
use std::alloc::Global;

/// How many bytes can be sent.
const ROOM: usize = 4000;

/// The bytes of a response of this status and this body.
fn response_bytes(alloc: Global, words: &str) -> Result<Vec<u8>, Stop> {
    let (status, body) = first_part(words, " ");
    let body = text_of(alloc, body)?;
    let len = body.len();
    let body = body.as_str();
    let text = format!(in alloc; "HTTP/1.1 {status} X\r\nContent-Length: {len}\r\n\r\n{body}")?;
    Ok(text.into_bytes())
}

/// What a peer says: nothing, a text, or a response.
fn said(alloc: Global, setting: &str) -> Result<Vec<u8>, Stop> {
    match first_part(setting, " ") {
        ("silent", "") => Ok(Vec::new(alloc)),
        ("says", words) => Ok(text_of(alloc, words)?.into_bytes()),
        ("answers", words) => response_bytes(alloc, words),
        _ => Err(Stop::Unread),
    }
}

/// A link whose peer says this, and whose calls of these numbers fail.
pub fn link(alloc: Global, setting: &str, failing: &[u64]) -> Result<MemLink, Stop> {
    let said = said(alloc, setting)?;
    let conversations = vec![in alloc; said]?;
    let failing = Vec::from_slice(alloc, failing)?;
    Ok(MemLink::new(alloc, conversations, ROOM, failing)?)
}

/// What was sent over a link.
pub fn sent(alloc: Global, link: MemLink) -> Result<String, Stop> {
    let sent = link.into_sent();
    shown(alloc, sent.as_slice())
}

/// Reads into room for one byte.
fn receive(alloc: Global, link: &mut MemLink) -> Result<String, Stop> {
    let mut byte = [0];
    let count = link.recv(&mut byte);
    let text = char::from(byte[0]);
    Ok(format!(in alloc; "{count:?} {text:?}")?)
}

/// Writes a request of this target and this body.
fn write_one_request(alloc: Global, link: &mut MemLink, words: &str) -> Result<String, Stop> {
    let (target, body) = first_part(words, " ");
    let request = Request {
        method: Method::POST,
        target: Vec::from_slice(alloc, target.as_bytes())?,
        fields: Vec::new(alloc),
        body: Vec::from_slice(alloc, body.as_bytes())?,
    };
    let written = write_request(alloc, link, &request);
    Ok(format!(in alloc; "{written:?}")?)
}

/// The field of this name and this value.
fn field(alloc: Global, words: &str) -> Result<Field, Stop> {
    let (name, value) = first_part(words, " ");
    Ok(Field {
        name: Vec::from_slice(alloc, name.as_bytes())?,
        value: Vec::from_slice(alloc, value.as_bytes())?,
    })
}

/// Writes a response of status 401 with this field, and with an empty object as its body.
fn write_one_response(alloc: Global, link: &mut MemLink, words: &str) -> Result<String, Stop> {
    let field = field(alloc, words)?;
    let response = Response {
        status: 401,
        fields: vec![in alloc; field]?,
        body: Vec::from_slice(alloc, b"{}")?,
    };
    let written = write_response(alloc, link, &response);
    Ok(format!(in alloc; "{written:?}")?)
}

/// What the service at an address answers to a call for this path with this body.
fn call_service(alloc: Global, link: &mut MemLink, words: &str) -> Result<String, Stop> {
    let (url, rest) = first_part(words, " ");
    let (path, body) = first_part(rest, " ");
    let service = service_of(alloc, url)?;
    let body = Vec::from_slice(alloc, body.as_bytes())?;
    match call(alloc, link, &service, Method::POST, path, body) {
        Ok(response) => Ok(response_words(alloc, &response)?),
        Err(fault) => Ok(format!(in alloc; "{fault:?}")?),
    }
}

/// What is read of the message of this kind that a peer says, or why none is.
fn read_one(alloc: Global, kind: &str, link: &mut MemLink) -> Result<String, Stop> {
    match read_message(alloc, kind, link) {
        Ok(words) => Ok(words),
        Err(fault) => Ok(format!(in alloc; "{fault:?}")?),
    }
}

impl Scene for MemLink {
    fn call(&mut self, alloc: Global, name: &str, arguments: &str) -> Result<String, Stop> {
        match name {
            "connect" => Ok(format!(in alloc; "{:?}", self.connect())?),
            "receive" => receive(alloc, self),
            "read" => read_one(alloc, arguments, self),
            "write-request" => write_one_request(alloc, self, arguments),
            "write-response" => write_one_response(alloc, self, arguments),
            "call" => call_service(alloc, self, arguments),
            "sent" => sent(alloc, self.twin(alloc)?),
            _ => Err(Stop::Unread),
        }
    }

    fn another(&self, alloc: Global) -> Result<Self, Stop> {
        Ok(self.twin(alloc)?)
    }
}
