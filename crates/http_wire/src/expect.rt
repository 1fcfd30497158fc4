//! The interim response that a sender waits for before it sends a body (RFC 9110, section 10.1.1).
ghost use Rattle.std.specs.Prelude.{◌≡◌, OnErr, OnOk};
ghost use Rattle.std.specs.List.{list_any};
ghost use Rattle.std.specs.Io.KnownBytes.{Appends};
ghost use Rattle.edge_kit.specs.Causes.{HasCause};
ghost use Rattle.http_wire.specs.Expects.{continue_text, expects_continue, has_body, is_expecting, is_to_come};
ghost use Rattle.http_wire.specs.Listening.{AppendsFront, OnlySpeaks};
ghost use Rattle.http_wire.specs.Parts.{parts, parts_of};

use crate::field::Field;
use crate::framing::{Framing, encoding, read_framing};
use crate::limits::BODY_LIMIT;
use crate::message::Request;
use crate::write::send_all;
use edge_kit::{Failed, Link};

/// The response.
const CONTINUE: &str = "HTTP/1.1 100 Continue\r\n\r\n";

/// Whether the sender of a request with this head waits for a response of status 100 before it sends the body: a field
/// `Expect` says `100-continue`, in letters of any case, and a body follows that is read. None is where the fields say
/// that there is none, or where they alone show that it is refused.
pub fn expects_continue(head: &Request) -> bool
    ensures { result ≡ expects_continue head.now }
{
    let fields = head.fields.as_slice();
    is_any_expecting(fields) && has_body(fields)
}

/// Whether a field asks for the response.
fn is_any_expecting(fields: &[Field]) -> bool
    ensures { result ≡ list_any (λ f. is_expecting (parts f)) fields.now }
{
    fields.iter().any(|field| is_expecting(field))
}

/// Whether this field does.
fn is_expecting(field: &Field) -> bool
    ensures { result ≡ is_expecting (parts field.now) }
{
    field.name.eq_ignore_ascii_case(b"expect") && field.value.eq_ignore_ascii_case(b"100-continue")
}

/// Whether a body follows that is read.
fn has_body(fields: &[Field]) -> bool
    ensures { result ≡ has_body (parts_of fields.now) }
{
    match encoding(fields) {
        Some(_encoded) => false,
        None => is_to_come(read_framing(fields)),
    }
}

/// Whether a body that is framed so has bytes that are read.
fn is_to_come(framing: Framing) -> bool
    ensures { result ≡ is_to_come framing }
{
    match framing {
        Framing::Sized(size) => 0 < size && size <= BODY_LIMIT,
        Framing::Chunked => true,
        Framing::Unsaid | Framing::Bad => false,
    }
}

/// Writes the response of status 100, which asks for the body. Takes no memory.
///
/// # Errors
///
/// `Failed` only where the link's count of faults rose; a front of the response was sent then, and not all of it.
pub fn write_continue<L: Link>(link: &mut L) -> Result<(), Failed>
    ensures ok { OnOk result (Appends (L.held link.old) (L.held link.new) continue_text) }
    ensures err { OnErr result (AppendsFront (L.held link.old) (L.held link.new) continue_text) }
    ensures cause { HasCause (L.faults link.old) (L.faults link.new) result }
    ensures speaks { OnlySpeaks (L.left link.old) (L.left link.new) (L.coming link.old) (L.coming link.new) (L.faults link.old) (L.faults link.new) }
{
    send_all(link, CONTINUE.as_bytes())
}
