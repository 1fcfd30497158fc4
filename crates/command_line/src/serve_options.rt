//! The options of a server.
use crate::kept_epochs::KeptEpochs;
use crate::lane_count::LaneCount;
use crate::listen_address::ListenAddress;
use crate::node_timeout::NodeTimeout;
use crate::path_text::PathText;
use crate::token_text::TokenText;
use edge_kit::{Items, Root};
use service_url::ServiceUrl;
use std::fmt;

/// The options of a server. `{:?}` writes no token.
#[derive(Drop)]
pub struct ServeOptions {
    /// The genesis validators root of the chain.
    pub genesis: Root,
    /// The path of the journal that keeps what is signed.
    pub journal: PathText,
    /// The address of the signing service.
    pub signer: ServiceUrl,
    /// Where requests of the Keymanager API are answered.
    pub listen: ListenAddress,
    /// The token that they must carry.
    pub token: TokenText,
    /// From which epoch on blocks have the Altair body (consensus-specs, `ALTAIR_FORK_EPOCH`); `None`: never.
    pub altair: Option<u64>,
    /// Whether a key that becomes active signs only once it was told not live in the two epochs after.
    pub watch: bool,
    /// Whether validators that are chosen to aggregate the votes of their committee do so.
    pub aggregate: bool,
    /// After how many slots the duties end.
    pub slots: u64,
    /// After how many connections the Keymanager API ends.
    pub connections: u64,
    /// In how many lanes duties are done at the same time.
    pub lanes: LaneCount,
    /// Of how many epochs before the one at hand everything that was signed is kept.
    pub keep_epochs: KeptEpochs,
    /// How long a question to a node may take.
    pub timeout: NodeTimeout,
    /// Whether standard error has lines of faults alone.
    pub quiet: bool,
    /// The addresses of the beacon nodes, in the order of the words, at least one.
    pub nodes: Items<ServiceUrl>,
}

impl fmt::Debug for ServeOptions {
    fn fmt<W: fmt::Write>(&self, f: &mut fmt::Formatter<W>) -> fmt::Result {
        f.debug_struct("ServeOptions")
            .field("genesis", &self.genesis)
            .field("journal", &self.journal)
            .field("signer", &self.signer)
            .field("listen", &self.listen)
            .field("token", &self.token)
            .field("altair", &self.altair)
            .field("watch", &self.watch)
            .field("aggregate", &self.aggregate)
            .field("slots", &self.slots)
            .field("connections", &self.connections)
            .field("lanes", &self.lanes)
            .field("keep_epochs", &self.keep_epochs)
            .field("timeout", &self.timeout)
            .field("quiet", &self.quiet)
            .field("nodes", &self.nodes.as_slice())
            .finish()
    }
}

/// What a server signs for, where it keeps that, and who signs.
#[derive(Drop)]
pub(crate) struct SigningOptions {
    pub(crate) genesis: Root,
    pub(crate) journal: PathText,
    pub(crate) signer: ServiceUrl,
}

/// Where a server answers the Keymanager API, and the token that it wants.
#[derive(Drop)]
pub(crate) struct DoorOptions {
    pub(crate) listen: ListenAddress,
    pub(crate) token: TokenText,
}

/// From which epoch on blocks have the Altair body, after how many slots and connections a server ends, and in how many
/// lanes it does its duties.
#[derive(Clone, Copy)]
pub(crate) struct EndOptions {
    pub(crate) altair: Option<u64>,
    pub(crate) slots: u64,
    pub(crate) connections: u64,
    pub(crate) lanes: LaneCount,
}

/// Whether a server aggregates votes, what it keeps of what was signed, how long it waits for a node, and whether it reports
/// only faults.
#[derive(Clone, Copy)]
pub(crate) struct WorkOptions {
    pub(crate) aggregate: bool,
    pub(crate) keep_epochs: KeptEpochs,
    pub(crate) timeout: NodeTimeout,
    pub(crate) quiet: bool,
}
