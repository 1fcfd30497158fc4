//! The chain that a beacon node is of.

use crate::links::link_to;
use beacon_node::BeaconNode;
use edge_kit::Root;
use node_calls::{Answer, Ask, Node};
use service_url::ServiceUrl;
use std::alloc::{AllocError, Global};
use std::io::Eprint;
use std::net::Net;
use std::rt::Clock;

/// When a chain began, a second since 1970, and the root of its first validators (Beacon API, `getGenesis`).
#[derive(Clone, Copy)]
pub(crate) struct Genesis {
    pub(crate) time: u64,
    pub(crate) root: Root,
}

/// Asks a node once for the genesis of its chain, which may take that many seconds; None where it gives none.
///
/// # Errors
///
/// `AllocError` where memory was wanted.
pub(crate) fn node_genesis<R: Net + Eprint + Clock>(
    rt: &R,
    alloc: Global,
    service: &ServiceUrl,
    seconds: u64,
) -> Result<Option<Genesis>, AllocError> {
    let link = link_to(rt, alloc, service, seconds)?;
    let mut node = BeaconNode::new(link, service.copy(alloc)?);
    match node.ask(&Ask::Genesis) {
        Ok(
            Answer::Genesis {
                genesis_time,
                genesis_validators_root,
            },
        ) => Ok(Some(Genesis {
            time: genesis_time,
            root: genesis_validators_root,
        })),
        _ => Ok(None),
    }
}
