//! Where a server listens.
ghost use Rattle.std.specs.Prelude.{◌≡◌, [], ◌∷◌, MatchOption};
ghost use Rattle.std.specs.List.{slice_split};
ghost use Rattle.command_line.specs.Serving.{host_at, ipv4_of, is_dot, listen_at, octet_at, port_at};

use crate::fork_text::split_at_colon;
use edge_kit::read_quoted;
use std::fmt;

/// The host and the port that a server listens at. It is written as the words of a command line write it, as
/// `127.0.0.1:5062`.
#[derive(Clone, Copy, PartialEq, Eq, Debug)]
pub struct ListenAddress {
    /// The host.
    pub host: ListenHost,
    /// The port.
    pub port: u16,
}

/// A host that a server listens at. It is written as `localhost`, or as four decimals joined by dots.
#[derive(Clone, Copy, PartialEq, Eq, Debug)]
pub enum ListenHost {
    /// The host of the name `localhost`.
    Localhost,
    /// An address of IPv4 (RFC 791), its first byte first.
    Ipv4([u8; 4]),
}

impl fmt::Display for ListenHost {
    fn fmt<W: fmt::Write>(&self, f: &mut fmt::Formatter<W>) -> fmt::Result {
        match self {
            ListenHost::Localhost => write!(f, "localhost"),
            ListenHost::Ipv4([first, second, third, fourth]) => {
                write!(f, "{first}.{second}.{third}.{fourth}")
            }
        }
    }
}

impl fmt::Display for ListenAddress {
    fn fmt<W: fmt::Write>(&self, f: &mut fmt::Formatter<W>) -> fmt::Result {
        let host = self.host;
        let port = self.port;
        write!(f, "{host}:{port}")
    }
}

/// The address that a text writes: a host, `:` and a port of at most 65535, in decimal.
pub(crate) fn read_listen(text: &str) -> Option<ListenAddress>
    ensures { result ≡ listen_at text.now }
{
    let (host, port) = split_at_colon(text)?;
    let host = read_host(host)?;
    let port = read_port(port)?;
    Some(ListenAddress { host, port })
}

/// The host that a text writes: `localhost`, or four octets joined by dots.
fn read_host(text: &str) -> Option<ListenHost>
    ensures { result ≡ host_at text.now }
{
    if text == "localhost" {
        return Some(ListenHost::Localhost);
    }
    read_ipv4(text).map(ListenHost::Ipv4)
}

/// The address of IPv4 that four octets joined by dots write.
fn read_ipv4(text: &str) -> Option<[u8; 4]>
    ensures { result ≡ ipv4_of (slice_split is_dot text.now) }
{
    let (first, rest) = split_at_dot(text)?;
    let (second, rest) = split_at_dot(rest)?;
    let (third, fourth) = split_at_dot(rest)?;
    read_octets(first, second, third, fourth)
}

/// What stands before the first `.`, and what stands after it.
fn split_at_dot(text: &str) -> Option<(&str, &str)>
    ensures { MatchOption result (slice_split is_dot text.now ≡ text.now ∷ [])
        (λ p. slice_split is_dot text.now ≡ p.0.now ∷ slice_split is_dot p.1.now) }
{
    text.split_once('.')
}

/// The address of these four octets.
fn read_octets(first: &str, second: &str, third: &str, fourth: &str) -> Option<[u8; 4]>
    ensures { result ≡ ipv4_of (first.now ∷ second.now ∷ third.now ∷ fourth.now ∷ []) }
{
    let first = read_octet(first)?;
    let second = read_octet(second)?;
    let third = read_octet(third)?;
    let fourth = read_octet(fourth)?;
    Some([first, second, third, fourth])
}

/// The octet that a decimal of at most 255 writes.
fn read_octet(text: &str) -> Option<u8>
    ensures { result ≡ octet_at text.now }
{
    let number = read_quoted(text)?;
    u8::try_from(number).ok()
}

/// The port that a decimal of at most 65535 writes.
fn read_port(text: &str) -> Option<u16>
    ensures { result ≡ port_at text.now }
{
    let number = read_quoted(text)?;
    u16::try_from(number).ok()
}
