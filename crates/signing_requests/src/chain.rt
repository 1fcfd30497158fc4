//! The chain and the fork that an object is signed under.
ghost use Rattle.std.specs.Prelude.{◌≡◌};
ghost use Rattle.signing_requests.specs.Networks.{always, exit_domains, exit_fork, is_root, network_of, signing_domains};
ghost use Rattle.signing_requests.specs.Objects.{said};
ghost use Rattle.signing_requests.specs.Requests.{is_of_another};

use crate::request::SigningObject;
use edge_kit::{Root, read_hex};
use phase0_types::Fork;
use sign_roots::Domains;
use signer_link::PlainObject;

/// The root of mainnet's genesis validators.
const MAINNET: &str = "0x4b363db94e286120d76eb905340fdd4e54bfe9f06bf33ff6cf5ad27f511bfe95";

/// And of Hoodi's.
const HOODI: &str = "0x212f13fc4df078b6cb7db228f1c8307566dcecf900867401a92023d7ba99cb5f";

/// And of Sepolia's.
const SEPOLIA: &str = "0xd8ea171f3c94aea21ebc42a1ed61052acf3f9209c00e4efbaaddac09ed9b8078";

/// What is known of the forks of a chain (consensus-specs, `configs`).
#[derive(Clone, Copy, PartialEq, Eq, Debug)]
pub(crate) struct Network {
    /// `GENESIS_FORK_VERSION`, of 4 bytes.
    pub genesis_fork_version: [u8; 4],
    /// `CAPELLA_FORK_VERSION`, of 4 bytes.
    pub capella_fork_version: [u8; 4],
    /// `DENEB_FORK_EPOCH`.
    pub deneb_fork_epoch: u64,
}

/// The chain that a request is of.
#[derive(Clone, Copy, PartialEq, Eq, Debug)]
pub(crate) enum Chain {
    /// The chain and the fork that it names.
    Named(Domains),
    /// None: it is signed under this version, that at genesis.
    AtGenesis([u8; 4]),
}

impl Chain {
    /// Whether it has another root of its genesis validators.
    pub(crate) fn is_of_another(&self, genesis: &Root) -> bool
        ensures { result ≡ is_of_another genesis.now self.now }
    {
        match self {
            Chain::Named(domains) => domains.genesis.0.as_slice() != genesis.0.as_slice(),
            Chain::AtGenesis(_) => false,
        }
    }

    /// The chain and the fork that the object is signed under. An exit is signed under Capella's version once the fork is
    /// Deneb's or a later one, where the network is known (EIP-7044).
    pub(crate) fn signing_domains(self, object: &SigningObject) -> Domains
        ensures { result ≡ signing_domains self (said object.now) }
    {
        match (self, object) {
            (Chain::AtGenesis(version), _) => Domains::new(always(version, 0), Root([0; 32])),
            (Chain::Named(domains), SigningObject::Plain(PlainObject::VoluntaryExit(_))) => {
                exit_domains(domains)
            }
            (Chain::Named(domains), _) => domains,
        }
    }
}

/// The chain and the fork that an exit is signed under.
fn exit_domains(domains: Domains) -> Domains
    ensures { result ≡ exit_domains domains }
{
    let network = network_of(&domains.genesis);
    Domains::new(exit_fork(domains.fork, network), domains.genesis)
}

fn exit_fork(fork: Fork, network: Option<Network>) -> Fork
    ensures { result ≡ exit_fork fork network }
{
    match network {
        Some(network) if fork.epoch >= network.deneb_fork_epoch => {
            always(network.capella_fork_version, fork.epoch)
        }
        _ => fork,
    }
}

/// One version in all epochs.
fn always(version: [u8; 4], epoch: u64) -> Fork
    ensures { result ≡ always version epoch }
{
    Fork {
        previous_version: version,
        current_version: version,
        epoch,
    }
}

/// The network with this root of its genesis validators, if it is known.
pub(crate) fn network_of(genesis: &Root) -> Option<Network>
    ensures { result ≡ network_of genesis.now }
{
    if is_root(MAINNET, genesis) {
        Some(Network {
            genesis_fork_version: [0, 0, 0, 0],
            capella_fork_version: [3, 0, 0, 0],
            deneb_fork_epoch: 269_568,
        })
    } else if is_root(HOODI, genesis) {
        Some(Network {
            genesis_fork_version: [0x10, 0, 0x09, 0x10],
            capella_fork_version: [0x40, 0, 0x09, 0x10],
            deneb_fork_epoch: 0,
        })
    } else if is_root(SEPOLIA, genesis) {
        Some(Network {
            genesis_fork_version: [0x90, 0, 0, 0x69],
            capella_fork_version: [0x90, 0, 0, 0x72],
            deneb_fork_epoch: 132_608,
        })
    } else {
        None
    }
}

/// Whether the text is that of the root.
fn is_root(text: &str, root: &Root) -> bool
    ensures { result ≡ is_root text.now root.now }
{
    match read_hex::<32>(text) {
        Some(bytes) => bytes.as_slice() == root.0.as_slice(),
        None => false,
    }
}
