//! The versions of a block, and which one a slot's block has.
ghost use Rattle.std.specs.Prelude.{◌≡◌};
ghost use Rattle.altair_blocks.specs.Versions.{version_at, version_name, version_named};

/// How many slots an epoch has (consensus-specs, `SLOTS_PER_EPOCH`).
const SLOTS_PER_EPOCH: u64 = 32;

/// The fork whose container a whole block is (Beacon API, `ConsensusVersion`), as far as this program reads them.
#[derive(Clone, Copy, PartialEq, Eq, Debug)]
pub enum ConsensusVersion {
    /// The first fork, `phase0`.
    Phase0,
    /// The second fork, `altair`.
    Altair,
}

impl ConsensusVersion {
    /// Its name in the Beacon API's JSON.
    pub fn name(self) -> &'static str
        ensures { result.now ≡ version_name self }
    {
        match self {
            ConsensusVersion::Phase0 => "phase0",
            ConsensusVersion::Altair => "altair",
        }
    }

    /// The version that a name means, if it is one.
    pub fn named(name: &str) -> Option<ConsensusVersion>
        ensures { result ≡ version_named name.now }
    {
        match name {
            "phase0" => Some(ConsensusVersion::Phase0),
            "altair" => Some(ConsensusVersion::Altair),
            _ => None,
        }
    }
}

/// The version of the block of this slot, where blocks are Altair's from this epoch on (consensus-specs,
/// `ALTAIR_FORK_EPOCH`), or never. Takes no memory.
pub fn version_at(altair: Option<u64>, slot: u64) -> ConsensusVersion
    ensures { result ≡ version_at altair slot }
{
    match altair {
        Some(epoch) if epoch <= slot / SLOTS_PER_EPOCH => ConsensusVersion::Altair,
        _ => ConsensusVersion::Phase0,
    }
}
