//! The chain that a session's requests are for.
use sign_roots::Domains;

/// The chain that a session's requests are for.
#[derive(Clone, Copy, PartialEq, Eq, Debug)]
pub struct SessionChain {
    /// The domains under which is signed.
    pub domains: Domains,
    /// From which epoch on blocks are Altair's (consensus-specs, `ALTAIR_FORK_EPOCH`); `None`: never.
    pub altair: Option<u64>,
}
