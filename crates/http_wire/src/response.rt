//! Responses that are read.
ghost use Rattle.std.specs.Prelude.{◌≡◌, ◌≤◌, ◌*◌, [], ℕ, List, IfOk, length};
ghost use Rattle.std.specs.Io.KnownBytes.{Consumes};
ghost use Rattle.edge_kit.specs.Causes.{Rose};
ghost use Rattle.http_wire.specs.Listening.{OnlyListens};
ghost use Rattle.http_wire.specs.Steps.{Took, TookAtMost};
ghost use Rattle.http_wire.specs.Bounds.{response_limit};
ghost use Rattle.http_wire.specs.Heads.{head_limit};
ghost use Rattle.http_wire.specs.Messages.{FinalHeadStep, ResponseStep, is_interim};

use crate::front::read_form;
use crate::heads::ResponseText;
use crate::limits::HEAD_LIMIT;
use crate::message::{Response, WireFault};
use crate::parse::response_of;
use crate::plain::read_plain_body;
use crate::stop::Stop;
use edge_kit::Link;
use std::alloc::Global;

/// Whether a status is one of 100 to 199.
fn is_passed_over(status: u16) -> bool
    ensures { result ≡ is_interim status }
{
    100 <= status && status < 200
}

/// Reads the head of a response, past at most 8 interim ones.
fn read_final_head<L: Link>(alloc: Global, link: &mut L) -> Result<Response, WireFault>
    ensures step { Took (L.left link.old) (L.left link.new) (FinalHeadStep (L.left link.new) result) }
    ensures bound { TookAtMost (L.left link.old) (L.left link.new) (9 * head_limit) }
    ensures body { IfOk result (λ r. r.body.items ≡ []) }
    ensures fault { result ≡ Err WireFault.Link → Rose (L.faults link.old) (L.faults link.new) }
    ensures listens { OnlyListens (L.held link.old) (L.held link.new) (L.coming link.old) (L.coming link.new) (L.faults link.old) (L.faults link.new) }
{
    'heads: for _ in 0..9u8 {
        let text = match read_form::<ResponseText, L>(alloc, link, HEAD_LIMIT) {
            Ok(text) => text,
            Err(Stop::Stuck) => return Err(WireFault::BadHead),
            Err(Stop::Link) => return Err(WireFault::Link),
            Err(Stop::Memory) => return Err(WireFault::OutOfMemory),
        };
        let response = match response_of(alloc, text.as_slice()) {
            Ok(response) => response,
            Err(_) => return Err(WireFault::OutOfMemory),
        };
        if !is_passed_over(response.status) {
            return Ok(response);
        }
    }
    Err(WireFault::BadHead)
}

/// Reads one response, past at most 8 interim ones, and no byte after it. However `recv` cuts the bytes, the
/// answer is what they spell. Refused as a request is, and as `BadHead` where a ninth interim one comes; a
/// body of which no field speaks goes to the end of the link.
pub fn read_response<L: Link>(alloc: Global, link: &mut L) -> Result<Response, WireFault>
    ensures step { Took (L.left link.old) (L.left link.new) (ResponseStep (L.left link.new) result) }
    ensures bound { TookAtMost (L.left link.old) (L.left link.new) response_limit }
    ensures fault { result ≡ Err WireFault.Link → Rose (L.faults link.old) (L.faults link.new) }
    ensures listens { OnlyListens (L.held link.old) (L.held link.new) (L.coming link.old) (L.coming link.new) (L.faults link.old) (L.faults link.new) }
{
    let mut response = match read_final_head(alloc, link) {
        Ok(response) => response,
        Err(fault) => return Err(fault),
    };
    match read_plain_body(
        alloc,
        link,
        response.fields.as_slice(),
        true,
        &mut response.body,
    ) {
        Ok(()) => Ok(response),
        Err(fault) => Err(fault),
    }
}
