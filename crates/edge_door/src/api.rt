//! Which interface a request calls, for reports of it.
use crate::callers::Callers;
use std::fmt;
use std::fmt::{Display, Formatter};

/// What the targets of the signing interface begin with, but for the one that is whole.
const SIGNING: &[u8] = b"/api/v1/eth2/";

/// The target of the question whether anyone is there.
const UPCHECK: &[u8] = b"/upcheck";

/// An interface that is served at a door.
#[derive(Clone, Copy)]
pub(crate) enum Api {
    /// That to the keys.
    Keymanager,
    /// That of a signing service.
    Signing,
}

impl Api {
    // That which a request calls of which this has come in, where these call at the door.
    pub(crate) fn of(callers: Callers, arrived: &[u8]) -> Self {
        let path = path_in(arrived.trim_ascii_start());
        if callers.has_validator_clients() && (path == UPCHECK || path.starts_with(SIGNING)) {
            Api::Signing
        } else {
            Api::Keymanager
        }
    }

    // Whether it is that of a signing service.
    pub(crate) fn is_signing(self) -> bool {
        matches!(self, Api::Signing)
    }
}

impl Display for Api {
    fn fmt<W: fmt::Write>(&self, f: &mut Formatter<W>) -> fmt::Result {
        let name = match self {
            Api::Keymanager => "Keymanager API",
            Api::Signing => "Signing API",
        };
        write!(f, "{name}")
    }
}

// The path in the first line of a request, after the method: up to a blank, a query or the line's end.
fn path_in(request: &[u8]) -> &[u8] {
    let Some(blank) = request.iter().position(|byte| *byte == b' ') else {
        return &[];
    };
    let target = request.get(blank.saturating_add(1)..).unwrap_or(&[]);
    before_any(target, b" ?\r\n")
}

// The bytes before the first that is one of these; all where none is.
pub(crate) fn before_any<'a>(bytes: &'a [u8], ends: &[u8]) -> &'a [u8] {
    match bytes.iter().position(|byte| ends.contains(byte)) {
        Some(end) => bytes.get(..end).unwrap_or(bytes),
        None => bytes,
    }
}
