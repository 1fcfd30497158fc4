//! Whole blocks of any version.
ghost use Rattle.std.specs.Prelude.{◌≡◌, Ok, IfOk};
ghost use Rattle.serde_json.specs.View.{view};
ghost use Rattle.phase0_types.specs.Containers.{beacon_block_header};
ghost use Rattle.phase0_types.specs.Faults.{read_as};
ghost use Rattle.phase0_types.specs.Headers.{beacon_block_header_value};
ghost use Rattle.phase0_types.specs.Roots.{root_of};
ghost use Rattle.altair_blocks.specs.AnyBlocks.{block_value, header_of, read_block, root_of_block, slot_of, version_of, write_block, write_signed};

use crate::block::AltairBlock;
use crate::version::ConsensusVersion;
use edge_kit::Root;
use json_members::Object;
use phase0_blocks::{BeaconBlock, Signed};
use phase0_types::{BeaconBlockHeader, Member, ReadResult, Shaped};
use serde_json::Value;
use std::alloc::{AllocError, Global};

/// A whole block, by its version.
#[derive(Drop, Debug)]
pub enum AnyBlock {
    /// A block of phase 0.
    Phase0(BeaconBlock),
    /// A block of Altair.
    Altair(AltairBlock),
}

impl AnyBlock {
    /// The fork whose container it is. Takes no memory.
    pub fn version(&self) -> ConsensusVersion
        ensures { result ≡ version_of self.now }
    {
        match self {
            AnyBlock::Phase0(_) => ConsensusVersion::Phase0,
            AnyBlock::Altair(_) => ConsensusVersion::Altair,
        }
    }

    /// Its slot, counted from genesis. Takes no memory.
    pub fn slot(&self) -> u64
        ensures { result ≡ slot_of self.now }
    {
        match self {
            AnyBlock::Phase0(block) => block.slot,
            AnyBlock::Altair(block) => block.slot,
        }
    }

    /// Its hash tree root, that of the container of its version. Takes no memory.
    pub fn root(&self) -> Root
        ensures { result.0 ≡ root_of_block (block_value self.now) }
    {
        match self {
            AnyBlock::Phase0(block) => block.root(),
            AnyBlock::Altair(block) => block.root(),
        }
    }

    /// Its header, with the body's root in place of the body. The two have one root. Takes no memory.
    pub fn header(&self) -> BeaconBlockHeader
        ensures slot { result.slot ≡ slot_of self.now }
        ensures header { result ≡ header_of self.now }
        ensures same_root { root_of beacon_block_header (beacon_block_header_value result)
            ≡ root_of_block (block_value self.now) }
    {
        match self {
            AnyBlock::Phase0(block) => block.header(),
            AnyBlock::Altair(block) => block.header(),
        }
    }

    /// The block of this version that a JSON document writes, or its first fault in the order of the fields (Beacon API). The
    /// error is want of memory.
    pub fn read_value(
        alloc: Global,
        version: ConsensusVersion,
        json: &Value,
    ) -> ReadResult<AnyBlock>
        ensures { IfOk result (λ read. read_as block_value read ≡ read_block version (view json.now)) }
    {
        match version {
            ConsensusVersion::Phase0 => match BeaconBlock::read_value(alloc, json)? {
                Ok(block) => Ok(Ok(AnyBlock::Phase0(block))),
                Err(fault) => Ok(Err(fault)),
            },
            ConsensusVersion::Altair => match AltairBlock::read_value(alloc, json)? {
                Ok(block) => Ok(Ok(AnyBlock::Altair(block))),
                Err(fault) => Ok(Err(fault)),
            },
        }
    }

    /// The JSON that writes it, without its version. Of that version it is read as the same value. The error is want of memory.
    pub fn to_value(&self, alloc: Global) -> Result<Value, AllocError>
        ensures written { IfOk result (λ json. view json ≡ write_block (block_value self.now)) }
        ensures reads_back { IfOk result
            (λ json. read_block (version_of self.now) (view json) ≡ Ok (block_value self.now)) }
    {
        match self {
            AnyBlock::Phase0(block) => block.to_value(alloc),
            AnyBlock::Altair(block) => block.to_value(alloc),
        }
    }
}

/// The JSON that writes a block with its signature, without its version (Beacon API, `SignedBeaconBlock`). The error is want of
/// memory.
#[tactic(auto, unfolding(phase0_types::specs::Writing::write, phase0_types::specs::Containers::signed, crate::specs::AnyBlocks::write_signed))]
pub fn signed_to_value(alloc: Global, signed: &Signed<AnyBlock>) -> Result<Value, AllocError>
    ensures { IfOk result (λ json. view json ≡ write_signed (block_value signed.now.message) signed.now.signature) }
{
    let message = signed.message.to_value(alloc)?;
    let object = Object::new(alloc)
        .with_hex(alloc, Member::Signature.name(), &signed.signature.0)?
        .with_value(alloc, Member::Message.name(), message)?;
    Ok(object.value())
}
