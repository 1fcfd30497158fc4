//! What the duties of a run share.
use edge_kit::Root;
use phase0_types::Fork;

/// What the duties of a run share.
#[derive(Clone, Copy, PartialEq, Eq, Debug)]
pub struct DutySetup {
    /// The root of the chain's genesis validators.
    pub genesis: Root,
    /// When the chain began, in seconds since 1970.
    pub genesis_time: u64,
    /// The chain's fork at the start. It stands until a node gives another.
    pub fork: Fork,
    /// From which epoch on blocks are Altair's (consensus-specs, `ALTAIR_FORK_EPOCH`); `None`: never.
    pub altair: Option<u64>,
    /// Whether keys are watched before they sign.
    pub watch: bool,
    /// Whether validators that are chosen to aggregate the votes of their committee do so (consensus-specs, "Attestation
    /// aggregation").
    pub aggregate: bool,
    /// How many turns are taken, one for each slot that is reached.
    pub slots: u64,
    /// Of how many epochs before the one of a turn all is kept that a key signed; of what is older the newest stands
    /// for the rest. `None`: all is kept.
    pub keep_epochs: Option<u64>,
}
