//! The body after a head.
ghost use Rattle.std.specs.Prelude.{◌≡◌, ◌≤◌, ◌+◌, [], ℕ, List, length, OnErr, Bool, false, true};
ghost use Rattle.std.specs.Io.KnownBytes.{Consumes, IsAtEnd};
ghost use Rattle.edge_kit.specs.Causes.{Rose};
ghost use Rattle.http_wire.specs.Listening.{OnlyListens};
ghost use Rattle.http_wire.specs.Framings.{body_limit};
ghost use Rattle.http_wire.specs.Bounds.{piece_limit, framed_limit};
ghost use Rattle.http_wire.specs.Steps.{Took, TookAtMost, BodyStep};
ghost use Rattle.http_wire.specs.declared.framing.Framing.TheVariants as framings;

use crate::chunked::read_chunked;
use crate::framing::Framing;
use crate::limits::{BODY_LIMIT, PIECE};
use crate::message::WireFault;
use crate::sized::read_sized;
use crate::stop::Stop;
use edge_kit::{Failed, Link};
use std::alloc::Global;

/// Reads a body that goes to the end of the link.
fn read_rest<L: Link>(link: &mut L, body: &mut Vec<u8>) -> Result<(), WireFault>
    requires { body.old.items ≡ [] }
    ensures step { Took (L.left link.old) (L.left link.new) (BodyStep true framings.Unsaid (L.left link.new) result body.new.items) }
    ensures bound { TookAtMost (L.left link.old) (L.left link.new) (body_limit + piece_limit) }
    ensures fault { result ≡ Err WireFault.Link → Rose (L.faults link.old) (L.faults link.new) }
    ensures listens { OnlyListens (L.held link.old) (L.held link.new) (L.coming link.old) (L.coming link.new) (L.faults link.old) (L.faults link.new) }
{
    let mut piece = [0u8; PIECE];
    'pieces: while body.len() as u64 <= BODY_LIMIT {
        let count = match link.recv(&mut piece) {
            Ok(count) => count,
            Err(Failed) => return Err(WireFault::Link),
        };
        if count == 0 {
            return Ok(());
        }
        body.extend_from_slice(&piece[..count])?;
    }
    Err(WireFault::TooLong(BODY_LIMIT))
}

/// Reads a body of so many bytes.
fn read_whole<L: Link>(link: &mut L, size: u64, body: &mut Vec<u8>) -> Result<(), WireFault>
    requires { body.old.items ≡ [] }
    ensures step { (to_end : Bool) → Took (L.left link.old) (L.left link.new) (BodyStep to_end (framings.Sized size) (L.left link.new) result body.new.items) }
    ensures bound { TookAtMost (L.left link.old) (L.left link.new) body_limit }
    ensures fault { result ≡ Err WireFault.Link → Rose (L.faults link.old) (L.faults link.new) }
    ensures listens { OnlyListens (L.held link.old) (L.held link.new) (L.coming link.old) (L.coming link.new) (L.faults link.old) (L.faults link.new) }
{
    if size > BODY_LIMIT {
        return Err(WireFault::TooLong(BODY_LIMIT));
    }
    match read_sized(link, size, body) {
        Ok(()) => Ok(()),
        Err(Stop::Stuck) => Err(WireFault::BadBody),
        Err(Stop::Link) => Err(WireFault::Link),
        Err(Stop::Memory) => Err(WireFault::OutOfMemory),
    }
}

/// Reads the body that the framing says. Where no field speaks of it, it goes to the end, or there is none.
pub(crate) fn read_body<L: Link>(
    alloc: Global,
    link: &mut L,
    framing: Framing,
    to_end: bool,
    body: &mut Vec<u8>,
) -> Result<(), WireFault>
    requires { body.old.items ≡ [] }
    ensures step { Took (L.left link.old) (L.left link.new) (BodyStep to_end framing (L.left link.new) result body.new.items) }
    ensures bound { TookAtMost (L.left link.old) (L.left link.new) (framed_limit framing) }
    ensures fault { result ≡ Err WireFault.Link → Rose (L.faults link.old) (L.faults link.new) }
    ensures listens { OnlyListens (L.held link.old) (L.held link.new) (L.coming link.old) (L.coming link.new) (L.faults link.old) (L.faults link.new) }
{
    match framing {
        Framing::Sized(size) => read_whole(link, size, body),
        Framing::Chunked => read_chunked(alloc, link, body),
        Framing::Unsaid if to_end => read_rest(link, body),
        Framing::Unsaid => Ok(()),
        Framing::Bad => Err(WireFault::BadBody),
    }
}
