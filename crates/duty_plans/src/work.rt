//! What the duties of a slot share.
use edge_kit::Root;
use sign_roots::Domains;

/// What the duties of a slot share.
#[derive(Clone, Copy, PartialEq, Eq, Debug)]
pub struct SlotWork {
    /// The root of the chain's genesis validators, which goes with each signing request.
    pub genesis: Root,
    /// The chain, by its fork and genesis root, under whose domains is signed.
    pub domains: Domains,
    /// From which epoch on blocks are Altair's (consensus-specs, `ALTAIR_FORK_EPOCH`); `None`: never.
    pub altair: Option<u64>,
    /// The slot, counted from genesis.
    pub slot: u64,
    /// The moment for the desk, an epoch.
    pub moment: u64,
}
