//! Requests and responses, and why one is not read or not written.
ghost use Rattle.std.specs.Prelude.{◌≡◌};

use crate::field::Field;
use http::Method;
use std::alloc::{AllocError, AllocFailed};

/// A request. Its target is visible ASCII or UTF-8.
#[derive(Drop, Debug)]
pub struct Request {
    pub method: Method,
    pub target: Vec<u8>,
    pub fields: Vec<Field>,
    pub body: Vec<u8>,
}

/// A response.
#[derive(Drop, Debug)]
pub struct Response {
    pub status: u16,
    pub fields: Vec<Field>,
    pub body: Vec<u8>,
}

/// Why a message is not read or not written.
#[derive(Drop, Debug)]
pub enum WireFault {
    /// What came is no head within the limits and will not become one, or is a ninth interim response.
    BadHead,
    /// The fields give the body no one length, or what came is no such body.
    BadBody,
    /// The body has more bytes than this limit.
    TooLong(u64),
    /// The body is in this coding, other than identity.
    Encoded(Vec<u8>),
    /// The link failed; its count of faults rose.
    Link,
    /// Memory ran out.
    OutOfMemory,
}

impl From<AllocError> for WireFault {
    ghost use Rattle.http_wire.specs.declared.message.WireFault.TheVariants.{OutOfMemory};

    ghost from_gives = { λ _ e. e ≡ OutOfMemory };

    fn from(_error: AllocError) -> WireFault {
        WireFault::OutOfMemory
    }
}

impl<T: Drop> From<AllocFailed<T>> for WireFault {
    ghost use Rattle.http_wire.specs.declared.message.WireFault.TheVariants.{OutOfMemory};

    ghost from_gives = { λ _ e. e ≡ OutOfMemory };

    fn from(_error: AllocFailed<T>) -> WireFault {
        WireFault::OutOfMemory
    }
}
