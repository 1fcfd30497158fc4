//! What a run leaves.
use check_sign::Events;
use edge_kit::Disks;
use program_end::Status;
use serve_run::LaneEnd;

/// The status, the objects that were handed in, and what the desk did, as contracts speak of it. `lanes` has the signing
/// service and the nodes of each lane of the validator client, other accesses to those that were handed in; it is empty where
/// none were made. `signers` has the signing service of each lane of the signing proxy in the same way. `events` is empty where no
/// desk was opened.
#[derive(Drop)]
pub struct Ending<D, S, N, R> {
    pub status: Status,
    pub disks: Disks<D>,
    pub signer: S,
    pub nodes: Vec<N>,
    pub door: R,
    pub lanes: Vec<LaneEnd<S, N>>,
    pub signers: Vec<S>,
    pub events: Events,
}
