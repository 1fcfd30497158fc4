//! The versions of a block.
ghost use Rattle.std.specs.Prelude.{◌≡◌};
ghost use Rattle.signer_link.specs.Versions.{block_version, is_from_electra, version_name, version_named, version_of};

use altair_blocks::ConsensusVersion;

/// The fork whose container a block or an aggregate is, as far as this program knows them (Web3Signer: `version` of a
/// `beacon_block` and of an `aggregate_and_proof`). A header has the same form and the same root in each of them.
#[derive(Clone, Copy, PartialEq, Eq, Debug)]
pub enum BlockVersion {
    Phase0,
    Altair,
    Bellatrix,
    Capella,
    Deneb,
    Electra,
    Fulu,
}

impl BlockVersion {
    /// Its name in a request. Takes no memory.
    pub fn name(self) -> &'static str
        ensures { result.now ≡ version_name self }
    {
        match self {
            BlockVersion::Phase0 => "PHASE0",
            BlockVersion::Altair => "ALTAIR",
            BlockVersion::Bellatrix => "BELLATRIX",
            BlockVersion::Capella => "CAPELLA",
            BlockVersion::Deneb => "DENEB",
            BlockVersion::Electra => "ELECTRA",
            BlockVersion::Fulu => "FULU",
        }
    }

    /// The version that a name means, if it is one.
    pub fn named(name: &str) -> Option<BlockVersion>
        ensures { result ≡ version_named name.now }
    {
        match name {
            "PHASE0" => Some(BlockVersion::Phase0),
            "ALTAIR" => Some(BlockVersion::Altair),
            "BELLATRIX" => Some(BlockVersion::Bellatrix),
            "CAPELLA" => Some(BlockVersion::Capella),
            "DENEB" => Some(BlockVersion::Deneb),
            "ELECTRA" => Some(BlockVersion::Electra),
            "FULU" => Some(BlockVersion::Fulu),
            _ => None,
        }
    }

    /// The version that a request names; the newest one, `FULU`, for every other name.
    pub fn of_name(name: &str) -> BlockVersion
        ensures { result ≡ version_of name.now }
    {
        BlockVersion::named(name).unwrap_or(BlockVersion::Fulu)
    }

    /// The version of a whole block.
    pub fn of_block(version: ConsensusVersion) -> BlockVersion
        ensures { result ≡ block_version version }
    {
        match version {
            ConsensusVersion::Phase0 => BlockVersion::Phase0,
            ConsensusVersion::Altair => BlockVersion::Altair,
        }
    }

    /// Whether an aggregate has the container of Electra: from Electra on.
    pub fn is_from_electra(self) -> bool
        ensures { result ≡ is_from_electra self }
    {
        matches!(self, BlockVersion::Electra | BlockVersion::Fulu)
    }
}
