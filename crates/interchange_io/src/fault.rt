//! Why an interchange file is refused.
ghost use Rattle.std.specs.Prelude.{◌≡◌, string_bytes};

use crate::member::Member;
use std::alloc::{AllocError, AllocFailed};
use std::fmt;
use std::marker::Model;

/// The text of a format version, as it came, which contracts see as its bytes.
#[derive(Drop)]
pub struct VersionText {
    text: String,
}

impl Model for VersionText {
    ghost use Rattle.std.specs.Prelude.{ℕ, List, string_bytes};

    ghost Value = { List ℕ };

    ghost view = { λ v. string_bytes v.text };
}

impl VersionText {
    /// The text of a string.
    pub fn new(text: String) -> Self
        ensures { result ≡ string_bytes text }
    {
        VersionText { text }
    }

    /// The text, lent.
    pub fn as_str(&self) -> &str
        ensures { result.now ≡ self.now }
    {
        self.text.as_str()
    }
}

impl fmt::Debug for VersionText {
    fn fmt<W: fmt::Write>(&self, f: &mut fmt::Formatter<W>) -> fmt::Result {
        write!(f, "{:?}", self.text.as_str())
    }
}

/// Why an interchange file is refused: the first cause in the order of the file.
#[derive(Debug, Drop)]
pub enum ReadFault {
    /// The file has more bytes than the limit; how many.
    TooLong(usize),
    /// The bytes are no UTF-8.
    NotUtf8,
    /// The text is no JSON value, or nests deeper than one is read.
    Json,
    /// The member is absent or of another kind than the format has there. An element of another kind
    /// counts to its list.
    Missing(Member),
    /// The format version is another than 5; its text.
    Version(VersionText),
    /// The member's text is no decimal number of 1 to 20 digits below 2^64.
    BadNumber(Member),
    /// The member's text is not `0x` and the hex digits of its length.
    BadHex(Member),
}

impl fmt::Display for ReadFault {
    fn fmt<W: fmt::Write>(&self, f: &mut fmt::Formatter<W>) -> fmt::Result {
        match self {
            ReadFault::TooLong(len) => write!(f, "the file has {len} bytes, more than are read"),
            ReadFault::NotUtf8 => f.write_str("the file is no UTF-8 text"),
            ReadFault::Json => f.write_str("the file is no JSON value"),
            ReadFault::Missing(member) => {
                write!(f, "`{}` is missing or of another kind", member.name())
            }
            ReadFault::Version(text) => {
                write!(f, "the format version is `{}`, not `5`", text.as_str())
            }
            ReadFault::BadNumber(member) => write!(f, "`{}` is no number", member.name()),
            ReadFault::BadHex(member) => {
                write!(
                    f,
                    "`{}` has not the hex digits of its length",
                    member.name()
                )
            }
        }
    }
}

impl std::error::Error for ReadFault {}

/// Why reading stopped: the file is refused, or memory ran out.
#[derive(Drop)]
pub(crate) enum Stop {
    Memory,
    Fault(ReadFault),
}

impl From<AllocError> for Stop {
    ghost use Rattle.std.specs.Prelude.{◌≡◌};
    ghost use Rattle.interchange_io.specs.declared.fault.Stop.TheVariants.{Memory};

    ghost from_gives = { λ _ s. s ≡ Memory };

    fn from(_error: AllocError) -> Stop {
        Stop::Memory
    }
}

impl<T: Drop> From<AllocFailed<T>> for Stop {
    ghost use Rattle.std.specs.Prelude.{◌≡◌};
    ghost use Rattle.interchange_io.specs.declared.fault.Stop.TheVariants.{Memory};

    ghost from_gives = { λ _ s. s ≡ Memory };

    fn from(_error: AllocFailed<T>) -> Stop {
        Stop::Memory
    }
}

impl From<ReadFault> for Stop {
    ghost use Rattle.std.specs.Prelude.{◌≡◌};
    ghost use Rattle.interchange_io.specs.declared.fault.Stop.TheVariants.{Fault};

    ghost from_gives = { λ fault s. s ≡ Fault fault };

    fn from(fault: ReadFault) -> Stop {
        Stop::Fault(fault)
    }
}
