//! A form that ends in LF, read from the front of a link byte by byte, so that no byte after it is taken.
ghost use Rattle.std.specs.Prelude.{◌≡◌, ◌≤◌, ◌&&◌, ℕ, List, true, length, IfOk, OnErr};
ghost use Rattle.std.specs.Io.KnownBytes.{Consumes, IsAtEnd};
ghost use Rattle.edge_kit.specs.Causes.{Rose};
ghost use Rattle.http_wire.specs.Fronts.{Within, StopsWithin, EndsInLf, HasNoFront, HasText, is_line_byte};
ghost use Rattle.http_wire.specs.Looks.{LooksRight};
ghost use Rattle.http_wire.specs.Listening.{OnlyListens};
ghost use Rattle.http_wire.specs.Steps.{TookAtMost};

use crate::listen::next_byte;
use crate::stop::Stop;
use edge_kit::{Failed, Link};
use std::alloc::Global;

/// What a look at bytes sees.
#[derive(Clone, Copy, PartialEq, Eq, Debug)]
pub(crate) enum Looked {
    /// A front of the bytes is a whole form.
    Whole,
    /// No front is one yet.
    Partial,
    /// No front will be one.
    Never,
}

/// A form of bytes.
pub(crate) trait Form {
    /// The bytes are one whole form.
    ghost is_form: { List ℕ → Type 0 };

    /// Whether the bytes begin with a form, or may.
    fn look(bytes: &[u8]) -> Looked
        ensures { LooksRight is_form bytes.now result };

    /// Whether each form has a byte other than CR and LF, so that empty lines alone need no look.
    fn has_text() -> bool
        ensures { result ≡ true → (text : List ℕ) → is_form text → HasText text };

    /// A form ends in LF.
    ghost ends: { (text : List ℕ) → is_form text → EndsInLf text };
}

/// Whether so far only CR and LF came, of a form that has text.
fn is_still_blank(is_blank: bool, byte: u8) -> bool
    ensures { result ≡ is_blank && is_line_byte byte }
{
    is_blank && (byte == b'\r' || byte == b'\n')
}

/// What a look sees. It is spared where no front of the bytes is a form.
fn look_at<F: Form>(is_blank: bool, bytes: &[u8]) -> Looked
    requires { is_blank ≡ true → HasNoFront F.is_form bytes.now }
    ensures { LooksRight F.is_form bytes.now result }
{
    if is_blank {
        return Looked::Partial;
    }
    F::look(bytes)
}

/// Reads a form of at most so many bytes, and no byte after it. `Stuck` exactly where no front of what is
/// left of the link is one. Never are more bytes taken than the limit.
pub(crate) fn read_form<F: Form, L: Link>(
    alloc: Global,
    link: &mut L,
    limit: usize,
) -> Result<Vec<u8>, Stop>
    ensures form { IfOk result (λ text. Consumes (L.left link.old) (L.left link.new) text.items × Within F.is_form limit text.items) }
    ensures stuck { result ≡ Err Stop.Stuck → (taken : List ℕ) × Consumes (L.left link.old) (L.left link.new) taken × StopsWithin F.is_form limit taken (L.left link.new) }
    ensures bound { TookAtMost (L.left link.old) (L.left link.new) limit }
    ensures fault { result ≡ Err Stop.Link → Rose (L.faults link.old) (L.faults link.new) }
    ensures listens { OnlyListens (L.held link.old) (L.held link.new) (L.coming link.old) (L.coming link.new) (L.faults link.old) (L.faults link.new) }
{
    let mut text = Vec::new(alloc);
    let mut is_blank = F::has_text();
    'bytes: for _ in 0..limit {
        let byte = match next_byte(link) {
            Ok(Some(byte)) => byte,
            Ok(None) => return Err(Stop::Stuck),
            Err(Failed) => return Err(Stop::Link),
        };
        text.push(byte)?;
        is_blank = is_still_blank(is_blank, byte);
        if byte == b'\n' {
            match look_at::<F>(is_blank, text.as_slice()) {
                Looked::Whole => return Ok(text),
                Looked::Partial => {}
                Looked::Never => return Err(Stop::Stuck),
            }
        }
    }
    Err(Stop::Stuck)
}
