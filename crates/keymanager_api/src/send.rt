//! Sending a reply over a link.
ghost use Rattle.std.specs.Prelude.{◌≡◌, ◌↔◌, IfOk, IsTrue, OnOk, OnErr, Some, None};
ghost use Rattle.std.specs.Io.KnownBytes.{Appends};
ghost use Rattle.std.specs.Result.{result_ok};
ghost use Rattle.http.specs.StatusCode.{IsStatusCode};
ghost use Rattle.edge_kit.specs.Causes.{HasCause};
ghost use Rattle.http_wire.specs.Listening.{OnlySpeaks};
ghost use Rattle.keymanager_api.specs.Serving.{AppendsSome, SendsWhole};

use crate::answering::response_of;
use edge_kit::{Failed, Link};
use http_wire::{WireFault, write_response};
use keymanager_routes::Reply;
use std::alloc::{AllocError, Global};

/// The whole reply where memory ran out. No memory is left to write it with.
const MEMORY_REPLY: &str =
    "HTTP/1.1 503 Service Unavailable\r\nContent-Type: application/json\r\nContent-Length: 27\r\nConnection: close\r\n\r\n{\"message\":\"out of memory\"}";

/// Sends a reply, or where there is none the one that says that memory ran out, and gives the status of what was
/// sent. That one is also sent where memory runs out now. `Failed` only where the link's count of faults rose; a
/// front of a reply was sent then.
pub(crate) fn send_reply<L: Link>(
    alloc: Global,
    link: &mut L,
    reply: Result<Reply, AllocError>,
) -> Result<u16, Failed>
    requires status { IfOk reply (λ r. IsStatusCode r.status) }
    ensures sends { SendsWhole (L.held link.old) (L.held link.new) (result_ok reply) result }
    ensures cause { HasCause (L.faults link.old) (L.faults link.new) result }
    ensures speaks { OnlySpeaks (L.left link.old) (L.left link.new) (L.coming link.old) (L.coming link.new) (L.faults link.old) (L.faults link.new) }
{
    match reply {
        Ok(reply) => send_own(alloc, link, reply),
        Err(AllocError) => send_memory(link),
    }
}

fn send_own<L: Link>(alloc: Global, link: &mut L, reply: Reply) -> Result<u16, Failed>
    requires status { IsStatusCode reply.status }
    ensures sends { SendsWhole (L.held link.old) (L.held link.new) (Some reply) result }
    ensures cause { HasCause (L.faults link.old) (L.faults link.new) result }
    ensures speaks { OnlySpeaks (L.left link.old) (L.left link.new) (L.coming link.old) (L.coming link.new) (L.faults link.old) (L.faults link.new) }
{
    let response = response_of(alloc, reply);
    match write_response(alloc, link, &response) {
        Ok(()) => Ok(response.status),
        Err(fault) => {
            if is_link(&fault) {
                return Err(Failed);
            }
            send_memory(link)
        }
    }
}

/// Whether the fault is that of the link.
pub(crate) fn is_link(fault: &WireFault) -> bool
    ensures { IsTrue result ↔ (fault.now ≡ WireFault.Link) }
{
    matches!(fault, WireFault::Link)
}

/// Says that memory ran out.
fn send_memory<L: Link>(link: &mut L) -> Result<u16, Failed>
    ensures sends { SendsWhole (L.held link.old) (L.held link.new) None result }
    ensures cause { HasCause (L.faults link.old) (L.faults link.new) result }
    ensures speaks { OnlySpeaks (L.left link.old) (L.left link.new) (L.coming link.old) (L.coming link.new) (L.faults link.old) (L.faults link.new) }
{
    match send_all(link, MEMORY_REPLY.as_bytes()) {
        Ok(()) => Ok(503),
        Err(Failed) => Err(Failed),
    }
}

/// Sends all the bytes. `Failed` only where the link's count of faults rose; a front of the bytes was sent then.
pub fn send_all<L: Link>(link: &mut L, bytes: &[u8]) -> Result<(), Failed>
    ensures ok { OnOk result (Appends (L.held link.old) (L.held link.new) bytes.now) }
    ensures err { OnErr result (AppendsSome (L.held link.old) (L.held link.new) bytes.now) }
    ensures cause { HasCause (L.faults link.old) (L.faults link.new) result }
    ensures speaks { OnlySpeaks (L.left link.old) (L.left link.new) (L.coming link.old) (L.coming link.new) (L.faults link.old) (L.faults link.new) }
{
    let mut at = 0;
    'pieces: while at < bytes.len() {
        match link.send(&bytes[at..]) {
            Ok(count) => at += count,
            Err(Failed) => return Err(Failed),
        }
    }
    Ok(())
}
