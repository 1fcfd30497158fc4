//! Messages that are read.
ghost use Rattle.std.specs.Prelude.{◌≡◌, ◌≤◌, [], ℕ, List, IfOk, length};
ghost use Rattle.edge_kit.specs.Causes.{Rose};
ghost use Rattle.http_wire.specs.Listening.{OnlyListens};
ghost use Rattle.http_wire.specs.Steps.{Took, TookAtMost};
ghost use Rattle.http_wire.specs.Bounds.{chunked_limit, request_limit};
ghost use Rattle.http_wire.specs.Heads.{head_limit};
ghost use Rattle.http_wire.specs.Messages.{RequestStep};
ghost use Rattle.http_wire.specs.Plain.{RequestBodyStep, RequestHeadStep};

use crate::front::read_form;
use crate::heads::RequestText;
use crate::limits::HEAD_LIMIT;
use crate::message::{Request, WireFault};
use crate::parse::request_of;
use crate::plain::read_plain_body;
use crate::stop::Stop;
use edge_kit::Link;
use std::alloc::Global;

/// Reads one request, and no byte after it. However `recv` cuts the bytes, the answer is what they spell.
///
/// # Errors
///
/// `BadHead` where no head within the limits comes; then those of `read_request_body`. After an error a front of the
/// message is taken.
pub fn read_request<L: Link>(alloc: Global, link: &mut L) -> Result<Request, WireFault>
    ensures step { Took (L.left link.old) (L.left link.new) (RequestStep (L.left link.new) result) }
    ensures bound { TookAtMost (L.left link.old) (L.left link.new) request_limit }
    ensures fault { result ≡ Err WireFault.Link → Rose (L.faults link.old) (L.faults link.new) }
    ensures listens { OnlyListens (L.held link.old) (L.held link.new) (L.coming link.old) (L.coming link.new) (L.faults link.old) (L.faults link.new) }
{
    match read_request_head(alloc, link) {
        Ok(head) => read_request_body(alloc, link, head),
        Err(fault) => Err(fault),
    }
}

/// Reads the head of one request, and no byte after it: the request with an empty body. `read_request_body` reads on
/// from there.
///
/// # Errors
///
/// `BadHead` where no head within the limits comes; `Link` only where the link's count of faults rose; `OutOfMemory`.
/// After an error a front of the head is taken.
pub fn read_request_head<L: Link>(alloc: Global, link: &mut L) -> Result<Request, WireFault>
    ensures step { Took (L.left link.old) (L.left link.new) (RequestHeadStep (L.left link.new) result) }
    ensures bound { TookAtMost (L.left link.old) (L.left link.new) head_limit }
    ensures body { IfOk result (λ r. r.body.items ≡ []) }
    ensures fault { result ≡ Err WireFault.Link → Rose (L.faults link.old) (L.faults link.new) }
    ensures listens { OnlyListens (L.held link.old) (L.held link.new) (L.coming link.old) (L.coming link.new) (L.faults link.old) (L.faults link.new) }
{
    let text = match read_form::<RequestText, L>(alloc, link, HEAD_LIMIT) {
        Ok(text) => text,
        Err(Stop::Stuck) => return Err(WireFault::BadHead),
        Err(Stop::Link) => return Err(WireFault::Link),
        Err(Stop::Memory) => return Err(WireFault::OutOfMemory),
    };
    match request_of(alloc, text.as_slice()) {
        Ok(request) => Ok(request),
        Err(_) => Err(WireFault::OutOfMemory),
    }
}

/// Reads the body after the head that `read_request_head` read, and no byte after it: the request of both.
///
/// # Errors
///
/// `Encoded` where the body is in a coding; `BadBody` where the fields of the head frame it in no one way, or no such
/// body comes; `TooLong` where it passes the limit; `Link` only where the link's count of faults rose; `OutOfMemory`.
/// After an error a front of the body is taken.
pub fn read_request_body<L: Link>(
    alloc: Global,
    link: &mut L,
    head: Request,
) -> Result<Request, WireFault>
    requires { head.body.items ≡ [] }
    ensures step { Took (L.left link.old) (L.left link.new) (RequestBodyStep head (L.left link.new) result) }
    ensures bound { TookAtMost (L.left link.old) (L.left link.new) chunked_limit }
    ensures fault { result ≡ Err WireFault.Link → Rose (L.faults link.old) (L.faults link.new) }
    ensures listens { OnlyListens (L.held link.old) (L.held link.new) (L.coming link.old) (L.coming link.new) (L.faults link.old) (L.faults link.new) }
{
    let mut request = head;
    match read_plain_body(
        alloc,
        link,
        request.fields.as_slice(),
        false,
        &mut request.body,
    ) {
        Ok(()) => Ok(request),
        Err(fault) => Err(fault),
    }
}
