//! The version of a beacon node.

use crate::links::link_to;
use edge_sockets::Visible;
use http::Method;
use http_call::call;
use json_members::{json_of, text_in};
use service_url::ServiceUrl;
use std::alloc::{AllocError, Global};
use std::fmt;
use std::fmt::{Display, Formatter};
use std::io::Eprint;
use std::net::Net;
use std::rt::Clock;

/// What a beacon node says of its version (Beacon API, `getNodeVersion`).
#[derive(Drop)]
pub(crate) enum NodeVersion {
    /// This.
    Known(String),
    /// It answers, and names none.
    Unknown,
    /// It does not answer.
    Silent,
}

impl Display for NodeVersion {
    fn fmt<W: fmt::Write>(&self, f: &mut Formatter<W>) -> fmt::Result {
        match self {
            NodeVersion::Known(version) => { write!(f, "{}", Visible::front(version.as_bytes())) }
            NodeVersion::Unknown => write!(f, "of no known version"),
            NodeVersion::Silent => write!(f, "does not answer"),
        }
    }
}

/// Asks a node once for its version, which may take that many seconds.
///
/// # Errors
///
/// `AllocError` where memory was wanted.
pub(crate) fn node_version<R: Net + Eprint + Clock>(
    rt: &R,
    alloc: Global,
    service: &ServiceUrl,
    seconds: u64,
) -> Result<NodeVersion, AllocError> {
    let mut link = link_to(rt, alloc, service, seconds)?;
    let path = "/eth/v1/node/version";
    match call(
        alloc,
        &mut link,
        service,
        Method::GET,
        path,
        Vec::new(alloc),
    ) {
        Ok(response) => version_in(alloc, response.body.as_slice()),
        Err(_) => Ok(NodeVersion::Silent),
    }
}

/// The version that a body has.
fn version_in(alloc: Global, body: &[u8]) -> Result<NodeVersion, AllocError> {
    let Some(value) = json_of(alloc, body)? else {
        return Ok(NodeVersion::Unknown);
    };
    let Some(version) = value.get("data").and_then(|data| text_in(data, "version")) else {
        return Ok(NodeVersion::Unknown);
    };
    Ok(NodeVersion::Known(String::from_str(alloc, version)?))
}
