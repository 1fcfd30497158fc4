//! Messages that are written.
ghost use Rattle.std.specs.Prelude.{◌≡◌, ◌≢◌, ◌≤◌, ◌++◌, [], ℕ, List, length, take, decimal, unwrap_or, IfOk, IfErr, OnOk, OnErr};
ghost use Rattle.std.specs.Io.KnownBytes.{Appends};
ghost use Rattle.edge_kit.specs.Causes.{HasCause, Rose};
ghost use Rattle.edge_kit.specs.Links.{Stays};
ghost use Rattle.http.specs.StatusCode.{IsStatusCode, reason_phrase};
ghost use Rattle.http_wire.specs.Listening.{OnlySpeaks, AppendsFront};
ghost use Rattle.http_wire.specs.Parts.{parts, parts_of};
ghost use Rattle.http_wire.specs.Spellings.{print_pair, print_pairs, sized_fields, body_fields, request_line, request_fields, status_line, phrase_end, response_fields, spelled_request_head, spelled_request, spelled_response_head, spelled_response};

use crate::field::Field;
use crate::message::{Request, Response, WireFault};
use edge_kit::{Failed, Link};
use http::{Method, StatusCode};
use std::alloc::{AllocError, Global};

/// The longest body that is sent in one piece with its head: 4,096 bytes.
const SHORT_BODY: usize = 4_096;

/// Writes the one spelling of a request, a short one in one piece. `Link` only where the link's count of faults rose; a front
/// of the spelling was sent then, and not all of it. After want of memory nothing was.
pub fn write_request<L: Link>(
    alloc: Global,
    link: &mut L,
    request: &Request,
) -> Result<(), WireFault>
    ensures ok { OnOk result (Appends (L.held link.old) (L.held link.new) (spelled_request request.now)) }
    ensures fault { result ≡ Err WireFault.Link → AppendsFront (L.held link.old) (L.held link.new) (spelled_request request.now) × Rose (L.faults link.old) (L.faults link.new) }
    ensures memory { result ≡ Err WireFault.OutOfMemory → Appends (L.held link.old) (L.held link.new) [] }
    ensures only { IfErr result (λ f. (f ≢ WireFault.Link → f ≡ WireFault.OutOfMemory)) }
    ensures speaks { OnlySpeaks (L.left link.old) (L.left link.new) (L.coming link.old) (L.coming link.new) (L.faults link.old) (L.faults link.new) }
{
    let head = match request_head(alloc, request) {
        Ok(head) => head,
        Err(_) => return Err(WireFault::OutOfMemory),
    };
    match send_together(link, head, request.body.as_slice()) {
        Ok(()) => Ok(()),
        Err(Failed) => Err(WireFault::Link),
    }
}

/// Writes the one spelling of a response, its head first, then its body. The failures are those of [`write_request`].
pub fn write_response<L: Link>(
    alloc: Global,
    link: &mut L,
    response: &Response,
) -> Result<(), WireFault>
    requires { IsStatusCode response.now.status }
    ensures ok { OnOk result (Appends (L.held link.old) (L.held link.new) (spelled_response response.now)) }
    ensures fault { result ≡ Err WireFault.Link → AppendsFront (L.held link.old) (L.held link.new) (spelled_response response.now) × Rose (L.faults link.old) (L.faults link.new) }
    ensures memory { result ≡ Err WireFault.OutOfMemory → Appends (L.held link.old) (L.held link.new) [] }
    ensures only { IfErr result (λ f. (f ≢ WireFault.Link → f ≡ WireFault.OutOfMemory)) }
    ensures speaks { OnlySpeaks (L.left link.old) (L.left link.new) (L.coming link.old) (L.coming link.new) (L.faults link.old) (L.faults link.new) }
{
    let head = match response_head(alloc, response) {
        Ok(head) => head,
        Err(_) => return Err(WireFault::OutOfMemory),
    };
    match send_both(link, head.as_slice(), response.body.as_slice()) {
        Ok(()) => Ok(()),
        Err(Failed) => Err(WireFault::Link),
    }
}

/// Sends a head and a body: a short body in one piece with its head, so that the peer is woken once, where there is memory for
/// that. `Failed` only where the link's count of faults rose; a front of both was sent then, and not all.
fn send_together<L: Link>(link: &mut L, mut head: Vec<u8>, body: &[u8]) -> Result<(), Failed>
    ensures ok { OnOk result (Appends (L.held link.old) (L.held link.new) (head.items ++ body.now)) }
    ensures err { OnErr result (AppendsFront (L.held link.old) (L.held link.new) (head.items ++ body.now)) }
    ensures cause { HasCause (L.faults link.old) (L.faults link.new) result }
    ensures speaks { OnlySpeaks (L.left link.old) (L.left link.new) (L.coming link.old) (L.coming link.new) (L.faults link.old) (L.faults link.new) }
{
    if body.len() > SHORT_BODY || head.extend_from_slice(body).is_err() {
        return send_both(link, head.as_slice(), body);
    }
    send_all(link, head.as_slice())
}

/// Sends a head and a body, without a copy of the body. `Failed` only where the link's count of faults rose; a
/// front of both was sent then, and not all.
fn send_both<L: Link>(link: &mut L, head: &[u8], body: &[u8]) -> Result<(), Failed>
    ensures ok { OnOk result (Appends (L.held link.old) (L.held link.new) (head.now ++ body.now)) }
    ensures err { OnErr result (AppendsFront (L.held link.old) (L.held link.new) (head.now ++ body.now)) }
    ensures cause { HasCause (L.faults link.old) (L.faults link.new) result }
    ensures speaks { OnlySpeaks (L.left link.old) (L.left link.new) (L.coming link.old) (L.coming link.new) (L.faults link.old) (L.faults link.new) }
{
    match send_all(link, head) {
        Ok(()) => {}
        Err(Failed) => return Err(Failed),
    }
    match send_all(link, body) {
        Ok(()) => Ok(()),
        Err(Failed) => Err(Failed),
    }
}

/// Sends all the bytes. `Failed` only where the link's count of faults rose; a front of the bytes was sent
/// then, and not all.
pub(crate) fn send_all<L: Link>(link: &mut L, bytes: &[u8]) -> Result<(), Failed>
    ensures ok { OnOk result (Appends (L.held link.old) (L.held link.new) bytes.now) }
    ensures err { OnErr result (AppendsFront (L.held link.old) (L.held link.new) bytes.now) }
    ensures cause { HasCause (L.faults link.old) (L.faults link.new) result }
    ensures speaks { OnlySpeaks (L.left link.old) (L.left link.new) (L.coming link.old) (L.coming link.new) (L.faults link.old) (L.faults link.new) }
{
    let mut at = 0;
    'pieces: while at < bytes.len() {
        match link.send(&bytes[at..]) {
            Ok(count) => at += count,
            Err(Failed) => return Err(Failed),
        }
    }
    Ok(())
}

/// The bytes of a request before its body.
fn request_head(alloc: Global, request: &Request) -> Result<Vec<u8>, AllocError>
    ensures { IfOk result (λ text. text.items ≡ spelled_request_head request.now) }
{
    let mut text = Vec::new(alloc);
    push_request_head(alloc, &mut text, request)?;
    Ok(text)
}

/// Adds the bytes of a request before its body.
fn push_request_head(alloc: Global, text: &mut Vec<u8>, request: &Request) -> Result<(), AllocError>
    ensures { OnOk result (text.new.items ≡ text.old.items ++ spelled_request_head request.now) }
{
    push_request_line(text, &request.method, request.target.as_slice())?;
    push_fields(text, request.fields.as_slice())?;
    push_request_fields(alloc, text, request.body.len())?;
    Ok(())
}

/// Adds the first line of a request.
fn push_request_line(text: &mut Vec<u8>, method: &Method, target: &[u8]) -> Result<(), AllocError>
    ensures { OnOk result (text.new.items ≡ text.old.items ++ request_line method.now target.now) }
{
    text.extend_from_slice(method.as_str().as_bytes())?;
    text.extend_from_slice(b" ")?;
    text.extend_from_slice(target)?;
    text.extend_from_slice(b" HTTP/1.1\r\n")?;
    Ok(())
}

/// Adds the fixed fields of a request, and the empty line after them.
fn push_request_fields(alloc: Global, text: &mut Vec<u8>, len: usize) -> Result<(), AllocError>
    ensures { OnOk result (text.new.items ≡ text.old.items ++ request_fields len) }
{
    text.extend_from_slice(b"Accept: application/json\r\nConnection: close\r\n")?;
    push_body_fields(alloc, text, len)?;
    text.extend_from_slice(b"\r\n")?;
    Ok(())
}

/// The bytes of a response before its body.
fn response_head(alloc: Global, response: &Response) -> Result<Vec<u8>, AllocError>
    requires { IsStatusCode response.now.status }
    ensures { IfOk result (λ text. text.items ≡ spelled_response_head response.now) }
{
    let mut text = Vec::new(alloc);
    push_response_head(alloc, &mut text, response)?;
    Ok(text)
}

/// Adds the bytes of a response before its body.
fn push_response_head(
    alloc: Global,
    text: &mut Vec<u8>,
    response: &Response,
) -> Result<(), AllocError>
    requires { IsStatusCode response.now.status }
    ensures { OnOk result (text.new.items ≡ text.old.items ++ spelled_response_head response.now) }
{
    push_status_line(alloc, text, response.status)?;
    push_fields(text, response.fields.as_slice())?;
    push_response_fields(alloc, text, response.body.len())?;
    Ok(())
}

/// Adds the first line of a response.
fn push_status_line(alloc: Global, text: &mut Vec<u8>, status: u16) -> Result<(), AllocError>
    requires { IsStatusCode status }
    ensures { OnOk result (text.new.items ≡ text.old.items ++ status_line status) }
{
    text.extend_from_slice(b"HTTP/1.1 ")?;
    push_number(alloc, text, u64::from(status))?;
    push_phrase(text, status)
}

/// Adds the phrase of a status between a space and the end of its line.
fn push_phrase(text: &mut Vec<u8>, status: u16) -> Result<(), AllocError>
    requires { IsStatusCode status }
    ensures { OnOk result (text.new.items ≡ text.old.items ++ phrase_end status) }
{
    text.extend_from_slice(b" ")?;
    text.extend_from_slice(phrase_of(status).as_bytes())?;
    text.extend_from_slice(b"\r\n")?;
    Ok(())
}

/// Adds the fixed fields of a response, and the empty line after them.
fn push_response_fields(alloc: Global, text: &mut Vec<u8>, len: usize) -> Result<(), AllocError>
    ensures { OnOk result (text.new.items ≡ text.old.items ++ response_fields len) }
{
    text.extend_from_slice(b"Content-Type: application/json\r\nContent-Length: ")?;
    push_number(alloc, text, len as u64)?;
    text.extend_from_slice(b"\r\nConnection: close\r\n\r\n")?;
    Ok(())
}

/// The phrase of a status.
fn phrase_of(status: u16) -> &'static str
    requires { IsStatusCode status }
    ensures { result.now ≡ unwrap_or (reason_phrase status) [] }
{
    match StatusCode::from_u16(status) {
        Ok(code) => code.canonical_reason().unwrap_or(""),
        Err(_) => unreachable!(),
    }
}

/// Adds the digits of a number.
fn push_number(alloc: Global, text: &mut Vec<u8>, number: u64) -> Result<(), AllocError>
    ensures { OnOk result (text.new.items ≡ text.old.items ++ decimal number) }
{
    let digits = format!(in alloc; "{number}")?;
    text.extend_from_slice(digits.as_bytes())
}

/// Adds the fields that frame a body, if there is one.
fn push_body_fields(alloc: Global, text: &mut Vec<u8>, len: usize) -> Result<(), AllocError>
    ensures { OnOk result (text.new.items ≡ text.old.items ++ body_fields len) }
{
    if len == 0 {
        return Ok(());
    }
    push_sized_fields(alloc, text, len)?;
    Ok(())
}

/// Adds the fields that frame a body that isn't empty.
fn push_sized_fields(alloc: Global, text: &mut Vec<u8>, len: usize) -> Result<(), AllocError>
    ensures { OnOk result (text.new.items ≡ text.old.items ++ sized_fields len) }
{
    text.extend_from_slice(b"Content-Type: application/json\r\nContent-Length: ")?;
    push_number(alloc, text, len as u64)?;
    text.extend_from_slice(b"\r\n")?;
    Ok(())
}

/// Adds field lines.
fn push_fields(text: &mut Vec<u8>, fields: &[Field]) -> Result<(), AllocError>
    ensures { OnOk result (text.new.items ≡ text.old.items ++ print_pairs (parts_of fields.now)) }
{
    for field in fields {
        push_field(text, field)?;
    }
    Ok(())
}

/// Adds a field line.
fn push_field(text: &mut Vec<u8>, field: &Field) -> Result<(), AllocError>
    ensures { OnOk result (text.new.items ≡ text.old.items ++ print_pair (parts field.now)) }
{
    text.extend_from_slice(field.name.as_slice())?;
    text.extend_from_slice(b": ")?;
    text.extend_from_slice(field.value.as_slice())?;
    text.extend_from_slice(b"\r\n")
}
