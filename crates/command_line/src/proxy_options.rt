//! The options of a signing proxy.
use crate::lane_count::LaneCount;
use crate::listen_address::ListenAddress;
use crate::path_text::PathText;
use crate::token_text::TokenText;
use edge_kit::Root;
use service_url::ServiceUrl;
use std::fmt;

/// The options of a signing proxy. `{:?}` writes no token.
#[derive(Drop)]
pub struct ProxyOptions {
    /// The genesis validators root of the chain.
    pub genesis: Root,
    /// The path of the journal that keeps what is signed.
    pub journal: PathText,
    /// The address of the signing service.
    pub signer: ServiceUrl,
    /// When the chain began, in seconds since 1970.
    pub genesis_time: u64,
    /// Where requests for signatures, and those of the Keymanager API, are answered.
    pub listen: ListenAddress,
    /// The token that requests of the Keymanager API need. Requests for signatures need none.
    pub token: TokenText,
    /// After how many connections, of all lanes, it ends.
    pub connections: u64,
    /// In how many lanes connections are served at the same time.
    pub lanes: LaneCount,
    /// Whether standard error has only lines of faults.
    pub quiet: bool,
}

impl fmt::Debug for ProxyOptions {
    fn fmt<W: fmt::Write>(&self, f: &mut fmt::Formatter<W>) -> fmt::Result {
        f.debug_struct("ProxyOptions")
            .field("genesis", &self.genesis)
            .field("journal", &self.journal)
            .field("signer", &self.signer)
            .field("genesis_time", &self.genesis_time)
            .field("listen", &self.listen)
            .field("token", &self.token)
            .field("connections", &self.connections)
            .field("lanes", &self.lanes)
            .field("quiet", &self.quiet)
            .finish()
    }
}

/// How many connections a proxy serves, and in how many lanes.
#[derive(Clone, Copy)]
pub(crate) struct LaneOptions {
    pub(crate) connections: u64,
    pub(crate) lanes: LaneCount,
}
