//! The body after a head, which is read in no other coding.
ghost use Rattle.std.specs.Prelude.{◌≡◌, [], List};
ghost use Rattle.edge_kit.specs.Causes.{Rose};
ghost use Rattle.http_wire.specs.Listening.{OnlyListens};
ghost use Rattle.http_wire.specs.Bounds.{chunked_limit};
ghost use Rattle.http_wire.specs.Parts.{parts_of};
ghost use Rattle.http_wire.specs.Steps.{Took, TookAtMost};
ghost use Rattle.http_wire.specs.Plain.{PlainStep};

use crate::body::read_body;
use crate::encoded::encoded;
use crate::field::Field;
use crate::framing::{encoding, read_framing};
use crate::message::WireFault;
use edge_kit::Link;
use std::alloc::Global;

/// Reads the body that the fields of a head frame. One in another coding is refused, and nothing of it taken.
pub(crate) fn read_plain_body<L: Link>(
    alloc: Global,
    link: &mut L,
    fields: &[Field],
    to_end: bool,
    body: &mut Vec<u8>,
) -> Result<(), WireFault>
    requires { body.old.items ≡ [] }
    ensures step { Took (L.left link.old) (L.left link.new) (PlainStep to_end (parts_of fields.now) (L.left link.new) result body.new.items) }
    ensures bound { TookAtMost (L.left link.old) (L.left link.new) chunked_limit }
    ensures fault { result ≡ Err WireFault.Link → Rose (L.faults link.old) (L.faults link.new) }
    ensures listens { OnlyListens (L.held link.old) (L.held link.new) (L.coming link.old) (L.coming link.new) (L.faults link.old) (L.faults link.new) }
{
    match encoding(fields) {
        Some(field) => Err(encoded(alloc, field)),
        None => read_body(alloc, link, read_framing(fields), to_end, body),
    }
}
