//! What a file says of itself.
ghost use Rattle.std.specs.Prelude.{◌≡◌, ◌<◌, length, Some, OnOk};
ghost use Rattle.serde_json.specs.Data.{object};
ghost use Rattle.json_walk.specs.Walk.{value_at, members_at};
ghost use Rattle.interchange_io.specs.Halts.{ReadsOrHalts};
ghost use Rattle.interchange_io.specs.Found.{metadata_from, metadata_at};
ghost use Rattle.interchange_io.specs.Parts.{PutsOrHalts, metadata_with};

use crate::fault::ReadFault;
use crate::halt::Halt;
use crate::member::Member;
use crate::texts::{read_root, read_version};
use edge_kit::Root;
use json::Reader;
use json_walk::{Entered, enter_object, skip};
use std::alloc::Global;

/// What was found of the metadata so far.
#[derive(Drop)]
struct MetadataParts {
    version: Result<(), ReadFault>,
    genesis: Result<Root, ReadFault>,
}

fn metadata_of_parts(parts: MetadataParts) -> Result<Root, ReadFault>
    ensures { result ≡ metadata_from parts.version parts.genesis }
{
    let MetadataParts { version, genesis } = parts;
    match version {
        Ok(()) => genesis,
        Err(fault) => Err(fault),
    }
}

/// The next value, that of the metadata's member of this name.
fn read_metadata_member(
    alloc: Global,
    reader: &mut Reader<'_>,
    depth: usize,
    name: &str,
    parts: &mut MetadataParts,
) -> Result<(), Halt>
    ensures value { PutsOrHalts result parts.new (metadata_with parts.old name.now) (value_at depth reader.old) reader.new }
    ensures shorter { OnOk result (length reader.new < length reader.old) }
{
    match name {
        "interchange_format_version" => parts.version = read_version(alloc, reader, depth)?,
        "genesis_validators_root" => {
            parts.genesis = read_root(reader, depth, Member::GenesisValidatorsRoot)?;
        }
        _ => skip(reader, depth)?,
    }
    Ok(())
}

fn read_metadata_members(
    alloc: Global,
    reader: &mut Reader<'_>,
    depth: usize,
) -> Result<Result<Root, ReadFault>, Halt>
    ensures value { ReadsOrHalts result (λ ms. metadata_at (Some (object ms))) (members_at depth reader.old) reader.new }
    ensures shorter { OnOk result (length reader.new < length reader.old) }
{
    let mut parts = MetadataParts {
        version: Err(ReadFault::Missing(Member::InterchangeFormatVersion)),
        genesis: Err(ReadFault::Missing(Member::GenesisValidatorsRoot)),
    };
    'members: while let Some(name) = reader.next_key()? {
        read_metadata_member(alloc, reader, depth, name, &mut parts)?;
    }
    Ok(metadata_of_parts(parts))
}

/// The next value, the metadata, of which the genesis validators root is kept.
pub(crate) fn read_metadata(
    alloc: Global,
    reader: &mut Reader<'_>,
    depth: usize,
) -> Result<Result<Root, ReadFault>, Halt>
    ensures value { ReadsOrHalts result (λ d. metadata_at (Some d)) (value_at depth reader.old) reader.new }
    ensures shorter { OnOk result (length reader.new < length reader.old) }
{
    match enter_object(reader, depth)? {
        Entered::Inside => read_metadata_members(alloc, reader, depth - 1),
        Entered::Null => Ok(Err(ReadFault::Missing(Member::Metadata))),
        Entered::Other => Ok(Err(ReadFault::Missing(Member::Metadata))),
    }
}
