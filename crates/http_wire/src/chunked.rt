//! A body in chunks.
ghost use Rattle.std.specs.Prelude.{◌≡◌, ◌≤◌, ◌+◌, ◌*◌, ◌-◌, [], ℕ, List, length, true, IfOk, OnOk, OnErr};
ghost use Rattle.httparse.specs.Ascii.{crlf_bytes};
ghost use Rattle.std.specs.Io.KnownBytes.{Consumes, IsAtEnd};
ghost use Rattle.edge_kit.specs.Causes.{Rose};
ghost use Rattle.http_wire.specs.Listening.{OnlyListens};
ghost use Rattle.http_wire.specs.Fronts.{Within, StopsWithin};
ghost use Rattle.http_wire.specs.Heads.{IsChunkText, IsTrailerText, IsCrlfText, head_limit};
ghost use Rattle.http_wire.specs.Framings.{body_limit};
ghost use Rattle.http_wire.specs.Bounds.{chunked_limit};
ghost use Rattle.http_wire.specs.Chunks.{SaysSize};
ghost use Rattle.http_wire.specs.Steps.{Took, TookAtMost, ChunkStep, BodyStep};
ghost use Rattle.http_wire.specs.declared.framing.Framing.TheVariants as framings;

use crate::front::read_form;
use crate::heads::{ChunkText, CrlfText, TrailerText};
use crate::limits::{BODY_LIMIT, HEAD_LIMIT};
use crate::message::WireFault;
use crate::sized::read_sized;
use crate::stop::Stop;
use edge_kit::Link;
use httparse::{Status, parse_chunk_size};
use std::alloc::Global;

/// The size that a line says.
fn size_of(line: &[u8]) -> u64
    requires { Within IsChunkText head_limit line.now }
    ensures { SaysSize line.now result }
{
    match parse_chunk_size(line) {
        Ok(Status::Complete((_, size))) => size,
        Ok(Status::Partial) => unreachable!(),
        Err(_) => unreachable!(),
    }
}

/// Reads the line of a chunk, and gives the size that it says.
fn read_size<L: Link>(alloc: Global, link: &mut L) -> Result<u64, Stop>
    ensures size { IfOk result (λ size. Took (L.left link.old) (L.left link.new) (λ line. SaysSize line size)) }
    ensures stuck { result ≡ Err Stop.Stuck → Took (L.left link.old) (L.left link.new) (λ taken. StopsWithin IsChunkText head_limit taken (L.left link.new)) }
    ensures bound { TookAtMost (L.left link.old) (L.left link.new) head_limit }
    ensures fault { result ≡ Err Stop.Link → Rose (L.faults link.old) (L.faults link.new) }
    ensures listens { OnlyListens (L.held link.old) (L.held link.new) (L.coming link.old) (L.coming link.new) (L.faults link.old) (L.faults link.new) }
{
    match read_form::<ChunkText, L>(alloc, link, HEAD_LIMIT) {
        Ok(line) => Ok(size_of(line.as_slice())),
        Err(stop) => Err(stop),
    }
}

/// Reads the fields after the last chunk, and drops them.
fn read_trailer<L: Link>(alloc: Global, link: &mut L) -> Result<(), Stop>
    ensures ok { OnOk result (Took (L.left link.old) (L.left link.new) (Within IsTrailerText head_limit)) }
    ensures stuck { result ≡ Err Stop.Stuck → Took (L.left link.old) (L.left link.new) (λ taken. StopsWithin IsTrailerText head_limit taken (L.left link.new)) }
    ensures bound { TookAtMost (L.left link.old) (L.left link.new) head_limit }
    ensures fault { result ≡ Err Stop.Link → Rose (L.faults link.old) (L.faults link.new) }
    ensures listens { OnlyListens (L.held link.old) (L.held link.new) (L.coming link.old) (L.coming link.new) (L.faults link.old) (L.faults link.new) }
{
    match read_form::<TrailerText, L>(alloc, link, HEAD_LIMIT) {
        Ok(_) => Ok(()),
        Err(stop) => Err(stop),
    }
}

/// Reads the CR LF after a chunk.
fn read_end<L: Link>(alloc: Global, link: &mut L) -> Result<(), Stop>
    ensures ok { OnOk result (Consumes (L.left link.old) (L.left link.new) crlf_bytes) }
    ensures stuck { result ≡ Err Stop.Stuck → Took (L.left link.old) (L.left link.new) (λ taken. StopsWithin IsCrlfText 2 taken (L.left link.new)) }
    ensures bound { TookAtMost (L.left link.old) (L.left link.new) 2 }
    ensures fault { result ≡ Err Stop.Link → Rose (L.faults link.old) (L.faults link.new) }
    ensures listens { OnlyListens (L.held link.old) (L.held link.new) (L.coming link.old) (L.coming link.new) (L.faults link.old) (L.faults link.new) }
{
    match read_form::<CrlfText, L>(alloc, link, 2) {
        Ok(_) => Ok(()),
        Err(stop) => Err(stop),
    }
}

/// Reads one chunk to the end of the body, or what ends the chunks; then the answer is false.
fn read_chunk<L: Link>(alloc: Global, link: &mut L, body: &mut Vec<u8>) -> Result<bool, WireFault>
    requires { length body.old.items ≤ body_limit }
    ensures step { Took (L.left link.old) (L.left link.new) (ChunkStep (L.left link.new) body.old.items body.new.items result) }
    ensures bound { TookAtMost (L.left link.old) (L.left link.new) (2 * head_limit + (body_limit - length body.old.items)) }
    ensures fault { result ≡ Err WireFault.Link → Rose (L.faults link.old) (L.faults link.new) }
    ensures listens { OnlyListens (L.held link.old) (L.held link.new) (L.coming link.old) (L.coming link.new) (L.faults link.old) (L.faults link.new) }
{
    let size = match read_size(alloc, link) {
        Ok(size) => size,
        Err(Stop::Stuck) => return Err(WireFault::BadBody),
        Err(Stop::Link) => return Err(WireFault::Link),
        Err(Stop::Memory) => return Err(WireFault::OutOfMemory),
    };
    if size == 0 {
        match read_trailer(alloc, link) {
            Ok(()) => return Ok(false),
            Err(Stop::Stuck) => return Err(WireFault::BadBody),
            Err(Stop::Link) => return Err(WireFault::Link),
            Err(Stop::Memory) => return Err(WireFault::OutOfMemory),
        }
    }
    if size > BODY_LIMIT - body.len() as u64 {
        return Err(WireFault::TooLong(BODY_LIMIT));
    }
    match read_sized(link, size, body) {
        Ok(()) => {}
        Err(Stop::Stuck) => return Err(WireFault::BadBody),
        Err(Stop::Link) => return Err(WireFault::Link),
        Err(Stop::Memory) => return Err(WireFault::OutOfMemory),
    }
    match read_end(alloc, link) {
        Ok(()) => return Ok(true),
        Err(Stop::Stuck) => return Err(WireFault::BadBody),
        Err(Stop::Link) => return Err(WireFault::Link),
        Err(Stop::Memory) => return Err(WireFault::OutOfMemory),
    }
}

/// Reads a body in chunks.
pub(crate) fn read_chunked<L: Link>(
    alloc: Global,
    link: &mut L,
    body: &mut Vec<u8>,
) -> Result<(), WireFault>
    requires { body.old.items ≡ [] }
    ensures step { Took (L.left link.old) (L.left link.new) (BodyStep true framings.Chunked (L.left link.new) result body.new.items) }
    ensures bound { TookAtMost (L.left link.old) (L.left link.new) chunked_limit }
    ensures fault { result ≡ Err WireFault.Link → Rose (L.faults link.old) (L.faults link.new) }
    ensures listens { OnlyListens (L.held link.old) (L.held link.new) (L.coming link.old) (L.coming link.new) (L.faults link.old) (L.faults link.new) }
{
    'chunks: for _ in 0..BODY_LIMIT + 1 {
        match read_chunk(alloc, link, body) {
            Ok(true) => {}
            Ok(false) => return Ok(()),
            Err(fault) => return Err(fault),
        }
    }
    unreachable!()
}
