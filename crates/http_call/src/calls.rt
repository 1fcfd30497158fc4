//! One call: connect, ask, read the answer, hang up.
ghost use Rattle.std.specs.Prelude.{◌≡◌, ◌≤◌, ◌⊎◌, ℕ, List};
ghost use Rattle.edge_kit.specs.Causes.{Rose};
ghost use Rattle.edge_kit.specs.Links.{Stays};
ghost use Rattle.http_wire.specs.Messages.{ResponseStep};
ghost use Rattle.http_wire.specs.Spellings.{spelled_request};
ghost use Rattle.http_wire.specs.Steps.{Took};
ghost use Rattle.http_call.specs.Calls.{IsCall, Sends, called_text};

use crate::request::request_to;
use edge_kit::{Failed, Link};
use http::Method;
use http_wire::{Request, Response, WireFault, read_response, write_request};
use service_url::ServiceUrl;
use std::alloc::Global;

/// Connects, sends one request, reads its response and hangs up. The target is the service's path and then this
/// one, in visible ASCII. After `Ok` the whole request was sent (RFC 9112), and the response is what the peer
/// says first over that connection.
///
/// `BadHead`, `BadBody`, `TooLong` and `Encoded` where the peer's answer to the whole request is no response
/// within the limits, as `http_wire::read_response` says. `Link` where connecting, sending, reading or hanging
/// up failed, and only where the link's count of faults rose. `OutOfMemory` for want of memory. Under these two
/// a front of the request was sent: none of it, some, or all.
pub fn call<L: Link>(
    alloc: Global,
    link: &mut L,
    service: &ServiceUrl,
    method: Method,
    path: &str,
    body: Vec<u8>,
) -> Result<Response, WireFault>
    ensures { IsCall (called_text service.now method path.now body.items) (L.held link.old) (L.held link.new)
        (L.coming link.old) (L.coming link.new) (L.faults link.old) (L.faults link.new) result }
{
    let request = match request_to(alloc, service, method, path, body) {
        Ok(request) => request,
        Err(_) => return Err(WireFault::OutOfMemory),
    };
    match link.connect() {
        Ok(()) => {}
        Err(Failed) => return Err(WireFault::Link),
    }
    let answer = exchange(alloc, link, &request);
    end(link, answer)
}

/// Sends a request and reads its response, over a connection that stands.
fn exchange<L: Link>(alloc: Global, link: &mut L, request: &Request) -> Result<Response, WireFault>
    ensures sent { Sends (spelled_request request.now) (L.held link.old) (L.held link.new) result }
    ensures step { Took (L.left link.old) (L.left link.new) (ResponseStep (L.left link.new) result) }
    ensures coming { Stays (L.coming link.old) (L.coming link.new) }
    ensures later { L.faults link.old ≤ L.faults link.new }
    ensures fault { result ≡ Err WireFault.Link → Rose (L.faults link.old) (L.faults link.new) }
{
    match write_request(alloc, link, request) {
        Ok(()) => {}
        Err(fault) => return Err(fault),
    }
    match read_response(alloc, link) {
        Ok(response) => Ok(response),
        Err(fault) => Err(fault),
    }
}

/// Hangs up, and hands on the answer. Where that fails the answer is `Link`, but want of memory stays.
fn end<L: Link>(link: &mut L, answer: Result<Response, WireFault>) -> Result<Response, WireFault>
    ensures answer { (result ≡ answer) ⊎ ((result ≡ Err WireFault.Link) × Rose (L.faults link.old) (L.faults link.new)) }
    ensures held { Stays (L.held link.old) (L.held link.new) }
    ensures coming { Stays (L.coming link.old) (L.coming link.new) }
    ensures later { L.faults link.old ≤ L.faults link.new }
{
    match link.hang_up() {
        Ok(()) => answer,
        Err(Failed) => match answer {
            Err(WireFault::OutOfMemory) => Err(WireFault::OutOfMemory),
            _ => Err(WireFault::Link),
        },
    }
}
