//! Links to the services, each with how long an exchange over it may last.
ghost use Rattle.std.specs.Prelude.{◌≡◌, IfOk, string_bytes, unwrap_or};
ghost use Rattle.service_url.specs.Services.{dial_host_of};

use edge_sockets::{LongRequests, Peers, TcpLink};
use edge_system::Reports;
use service_url::ServiceUrl;
use std::alloc::{AllocError, Global};
use std::io::Eprint;
use std::net::Net;
use std::rt::Clock;
use std::sync::Arc;
use std::time::Duration;

/// How many seconds an exchange with a beacon node may last at least in which a block is made or handed in.
const BLOCK_SECONDS: u64 = 4;

/// How many seconds an exchange with the signing service may last.
const SIGNER_SECONDS: u64 = 3;

/// How many seconds one may last in which it takes a keystore in or gives one up.
const KEYSTORE_SECONDS: u64 = 10;

/// A link to a service, which is not yet connected, and whose exchanges may last that many seconds.
pub(crate) fn link_to<'a, R: Net + Eprint + Clock>(
    rt: &'a R,
    alloc: Global,
    service: &ServiceUrl,
    seconds: u64,
) -> Result<TcpLink<&'a R>, AllocError>
    ensures host { IfOk result (λ link. string_bytes link.host ≡ dial_host_of service.now) }
    ensures port { IfOk result (λ link. link.port ≡ unwrap_or service.now.port 80) }
{
    let host = String::from_str(alloc, service.dial_host())?;
    let mut link = TcpLink::new(alloc, rt, host, service.port());
    link.set_limit(Duration::from_secs(seconds));
    Ok(link)
}

/// A link to a beacon node, that of this place among the nodes. It is set aside after an exchange that passed its limit,
/// where there are others to ask.
pub fn node_link<'a, R: Net + Eprint + Clock>(
    rt: &'a R,
    alloc: Global,
    service: &ServiceUrl,
    seconds: u64,
    peers: &Arc<Peers, Global>,
    index: usize,
    reports: Reports,
) -> Result<TcpLink<&'a R>, AllocError>
    ensures host { IfOk result (λ link. string_bytes link.host ≡ dial_host_of service.now) }
    ensures port { IfOk result (λ link. link.port ≡ unwrap_or service.now.port 80) }
{
    let mut link = link_to(rt, alloc, service, seconds)?;
    link.set_reports(reports);
    link.set_long_limit(
        LongRequests::Blocks,
        Duration::from_secs(seconds.max(BLOCK_SECONDS)),
    );
    link.set_aside_among(Arc::try_clone(peers)?, index);
    Ok(link)
}

/// A link to the signing service.
pub fn link_to_signer<'a, R: Net + Eprint + Clock>(
    rt: &'a R,
    alloc: Global,
    service: &ServiceUrl,
) -> Result<TcpLink<&'a R>, AllocError>
    ensures host { IfOk result (λ link. string_bytes link.host ≡ dial_host_of service.now) }
    ensures port { IfOk result (λ link. link.port ≡ unwrap_or service.now.port 80) }
{
    let mut link = link_to(rt, alloc, service, SIGNER_SECONDS)?;
    link.set_long_limit(
        LongRequests::Keystores,
        Duration::from_secs(KEYSTORE_SECONDS),
    );
    Ok(link)
}
