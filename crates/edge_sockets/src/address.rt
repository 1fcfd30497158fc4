//! A host and a port.
use std::fmt;
use std::fmt::{Display, Formatter};

/// An address or a name of a host, and a port.
#[derive(Drop)]
pub struct Address<'a> {
    /// The address or the name.
    pub host: &'a str,
    /// The port.
    pub port: u16,
}

impl Display for Address<'_> {
    fn fmt<W: fmt::Write>(&self, f: &mut Formatter<W>) -> fmt::Result {
        write!(f, "{}:{}", self.host, self.port)
    }
}
