//! Why JSON has no reading as a container.
ghost use Rattle.std.specs.Prelude.{◌≡◌};
ghost use Rattle.phase0_types.specs.declared.fault.ReadFault.TheVariants.{Missing, BadNumber, BadHex, TooLong};
ghost use Rattle.phase0_types.specs.Faults.{fault_at};

use crate::member::Member;
use thiserror::Error;

/// The first fault of a value, in the order of its fields.
#[derive(Clone, Copy, PartialEq, Eq, Debug, Error)]
pub enum ReadFault {
    /// The value itself is no object.
    #[error("json")]
    Json,
    /// A member is absent or of another kind of JSON, or an element of its list is.
    #[error("missing {}", .0.name())]
    Missing(Member),
    /// A text is not a decimal number of 64 bits.
    #[error("bad number {}", .0.name())]
    BadNumber(Member),
    /// A text is not `0x` and the hex digits of so many bytes.
    #[error("bad hex {}", .0.name())]
    BadHex(Member),
    /// A list is above its limit, or a vector is of another length.
    #[error("too long {}", .0.name())]
    TooLong(Member),
}

/// The fault of a value that is absent or of another kind of JSON.
pub fn missing(place: Option<Member>) -> ReadFault
    ensures { result ≡ fault_at Missing place }
{
    place.map_or(ReadFault::Json, ReadFault::Missing)
}

/// The fault of a text that is no number.
pub fn bad_number(place: Option<Member>) -> ReadFault
    ensures { result ≡ fault_at BadNumber place }
{
    place.map_or(ReadFault::Json, ReadFault::BadNumber)
}

/// The fault of a text that is no bytes.
pub fn bad_hex(place: Option<Member>) -> ReadFault
    ensures { result ≡ fault_at BadHex place }
{
    place.map_or(ReadFault::Json, ReadFault::BadHex)
}

/// The fault of a list of a length that its type does not have.
pub fn too_long(place: Option<Member>) -> ReadFault
    ensures { result ≡ fault_at TooLong place }
{
    place.map_or(ReadFault::Json, ReadFault::TooLong)
}
