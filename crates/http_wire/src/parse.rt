//! The parts of a head that was read.
ghost use Rattle.std.specs.Prelude.{◌≡◌, ◌≤◌, [], All, IfOk, length, map};
ghost use Rattle.httparse.specs.Grammar.{RequestHead, ResponseHead};
ghost use Rattle.httparse.specs.Spans.{IsWithin, IsHeaderWithin, header_bytes, span_bytes};
ghost use Rattle.http_wire.specs.Heads.{IsRequestText, IsResponseText, SpellsRequestHead, SpellsResponseHead};
ghost use Rattle.http_wire.specs.Parts.{parts, parts_of};
ghost use Rattle.http_wire.specs.Messages.{HasRequestHead, HasResponseHead};

use crate::field::Field;
use crate::message::{Request, Response};
use http::Method;
use httparse::Status;
use httparse::spans::{EMPTY_HEADER_SPAN, HeaderSpan, RequestSpans, parse_request, parse_response};
use std::alloc::{AllocError, Global};

/// The fields that spans cover.
fn fields_of(alloc: Global, text: &[u8], spans: &[HeaderSpan]) -> Result<Vec<Field>, AllocError>
    requires { All (IsHeaderWithin (length text.now)) spans.now }
    ensures { IfOk result (λ fields. parts_of fields.items ≡ map (header_bytes text.now) spans.now) }
{
    let mut fields = Vec::new(alloc);
    for span in spans {
        fields.push(field_of(alloc, text, span)?)?;
    }
    Ok(fields)
}

/// The field that spans cover.
fn field_of(alloc: Global, text: &[u8], span: &HeaderSpan) -> Result<Field, AllocError>
    requires { IsHeaderWithin (length text.now) span.now }
    ensures { IfOk result (λ field. parts field ≡ header_bytes text.now span.now) }
{
    Ok(Field {
        name: Vec::from_slice(alloc, span.name.of(text))?,
        value: Vec::from_slice(alloc, span.value.of(text))?,
    })
}

/// The method that a token writes. Only want of memory refuses it.
fn method_of(alloc: Global, token: &[u8]) -> Result<Method, AllocError>
    ensures { IfOk result (λ method. method ≡ token.now) }
{
    match Method::from_bytes(alloc, token) {
        Ok(method) => Ok(method),
        Err(_) => Err(AllocError),
    }
}

/// The request without its body that a head begins.
pub(crate) fn request_of(alloc: Global, text: &[u8]) -> Result<Request, AllocError>
    requires { IsRequestText text.now }
    ensures head { IfOk result (λ r. (h : RequestHead) × SpellsRequestHead text.now h × HasRequestHead h r) }
    ensures body { IfOk result (λ r. r.body.items ≡ []) }
{
    let mut spans = [EMPTY_HEADER_SPAN; 64];
    match parse_request(text, &mut spans) {
        Ok(Status::Complete(head)) => request_at(alloc, text, head, &spans[..head.headers]),
        Ok(Status::Partial) => unreachable!(),
        Err(_) => unreachable!(),
    }
}

/// The request without its body that spans cover.
fn request_at(
    alloc: Global,
    text: &[u8],
    head: RequestSpans,
    spans: &[HeaderSpan],
) -> Result<Request, AllocError>
    requires method { IsWithin (length text.now) head.method }
    requires path { IsWithin (length text.now) head.path }
    requires fields { All (IsHeaderWithin (length text.now)) spans.now }
    ensures method { IfOk result (λ r. r.method ≡ span_bytes text.now head.method) }
    ensures target { IfOk result (λ r. r.target.items ≡ span_bytes text.now head.path) }
    ensures fields { IfOk result (λ r. parts_of r.fields.items ≡ map (header_bytes text.now) spans.now) }
    ensures body { IfOk result (λ r. r.body.items ≡ []) }
{
    Ok(Request {
        method: method_of(alloc, head.method.of(text))?,
        target: Vec::from_slice(alloc, head.path.of(text))?,
        fields: fields_of(alloc, text, spans)?,
        body: Vec::new(alloc),
    })
}

/// The response without its body that a head begins.
pub(crate) fn response_of(alloc: Global, text: &[u8]) -> Result<Response, AllocError>
    requires { IsResponseText text.now }
    ensures head { IfOk result (λ r. (h : ResponseHead) × SpellsResponseHead text.now h × HasResponseHead h r) }
    ensures body { IfOk result (λ r. r.body.items ≡ []) }
{
    let mut spans = [EMPTY_HEADER_SPAN; 64];
    match parse_response(text, &mut spans) {
        Ok(Status::Complete(head)) => Ok(Response {
            status: head.code,
            fields: fields_of(alloc, text, &spans[..head.headers])?,
            body: Vec::new(alloc),
        }),
        Ok(Status::Partial) => unreachable!(),
        Err(_) => unreachable!(),
    }
}
