//! What lanes work with beside their desks.
ghost use Rattle.std.specs.Prelude.{◌≡◌, IfOk, All, vec_len};
ghost use Rattle.serve_run.specs.Equipping.{IsMadeOf};

use node_calls::Node;
use node_fallback::Nodes;
use signer_link::Signer;
use std::alloc::{AllocError, Global};

/// The signing service and the beacon nodes of a lane.
#[derive(Drop)]
pub struct LaneEnd<S, N> {
    /// Another access to the signing service.
    pub signer: S,
    /// Other accesses to the beacon nodes, in their order.
    pub nodes: Nodes<N>,
}

/// So many lanes, each with another access to this service and these nodes. The error is want of memory.
pub fn make_lanes<S: Signer + Drop, N: Node + Drop>(
    alloc: Global,
    count: u64,
    signer: &S,
    nodes: &Nodes<N>,
) -> Result<Vec<LaneEnd<S, N>>, AllocError>
    ensures count { IfOk result (λ lanes. vec_len lanes ≡ count) }
    ensures each { IfOk result (λ lanes. All (IsMadeOf S.told S.faults S.denials N.told N.faults signer.now nodes.now) lanes.items) }
{
    let mut lanes = Vec::new(alloc);
    'lanes: for _lane in 0..count {
        lanes.push(make_lane(alloc, signer, nodes)?)?;
    }
    Ok(lanes)
}

/// A lane with another access to this service and these nodes. The error is want of memory.
fn make_lane<S: Signer + Drop, N: Node + Drop>(
    alloc: Global,
    signer: &S,
    nodes: &Nodes<N>,
) -> Result<LaneEnd<S, N>, AllocError>
    ensures { IfOk result (λ lane. IsMadeOf S.told S.faults S.denials N.told N.faults signer.now nodes.now lane) }
{
    Ok(LaneEnd {
        signer: signer.twin(alloc)?,
        nodes: nodes.twin(alloc)?,
    })
}
