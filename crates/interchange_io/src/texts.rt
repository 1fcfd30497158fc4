//! Texts of a file, and what they stand for.
ghost use Rattle.std.specs.Prelude.{◌≡◌, ◌<◌, length, Some, OnOk};
ghost use Rattle.json_walk.specs.Walk.{Reads, value_at};
ghost use Rattle.interchange_io.specs.Halts.{ReadsOrHalts};
ghost use Rattle.interchange_io.specs.Reading.{root_of, signing_root_of};
ghost use Rattle.interchange_io.specs.Found.{number_at, root_at, key_at, version_at};

use crate::fault::{ReadFault, VersionText};
use crate::halt::Halt;
use crate::member::Member;
use edge_kit::{PubKey, Root, read_hex, read_quoted};
use json::{Invalid, Reader};
use json_walk::read_text_or_null;
use std::alloc::Global;

/// The next value, a slot or an epoch.
pub(crate) fn read_number(
    reader: &mut Reader<'_>,
    depth: usize,
    member: Member,
) -> Result<Result<u64, ReadFault>, Invalid>
    ensures value { Reads result (λ d. number_at member (Some d)) (value_at depth reader.old) reader.new }
    ensures shorter { OnOk result (length reader.new < length reader.old) }
{
    match read_text_or_null(reader, depth)? {
        Some(Some(text)) => Ok(read_quoted(text).ok_or(ReadFault::BadNumber(member))),
        _ => Ok(Err(ReadFault::Missing(member))),
    }
}

/// The next value, a root.
pub(crate) fn read_root(
    reader: &mut Reader<'_>,
    depth: usize,
    member: Member,
) -> Result<Result<Root, ReadFault>, Invalid>
    ensures value { Reads result (λ d. root_at member (Some d)) (value_at depth reader.old) reader.new }
    ensures shorter { OnOk result (length reader.new < length reader.old) }
{
    match read_text_or_null(reader, depth)? {
        Some(Some(text)) => Ok(root_of(text, member)),
        _ => Ok(Err(ReadFault::Missing(member))),
    }
}

fn root_of(text: &str, member: Member) -> Result<Root, ReadFault>
    ensures { result ≡ root_of member text.now }
{
    read_hex::<32>(text)
        .map(Root)
        .ok_or(ReadFault::BadHex(member))
}

/// The next value, a signing root, and none of null.
pub(crate) fn read_signing_root(
    reader: &mut Reader<'_>,
    depth: usize,
) -> Result<Result<Option<Root>, ReadFault>, Invalid>
    ensures value { Reads result (λ d. signing_root_of (Some d)) (value_at depth reader.old) reader.new }
    ensures shorter { OnOk result (length reader.new < length reader.old) }
{
    match read_text_or_null(reader, depth)? {
        Some(Some(text)) => match root_of(text, Member::SigningRoot) {
            Ok(root) => Ok(Ok(Some(root))),
            Err(fault) => Ok(Err(fault)),
        },
        Some(None) => Ok(Err(ReadFault::Missing(Member::SigningRoot))),
        None => Ok(Ok(None)),
    }
}

/// The next value, a public key.
pub(crate) fn read_pubkey(
    reader: &mut Reader<'_>,
    depth: usize,
) -> Result<Result<PubKey, ReadFault>, Invalid>
    ensures value { Reads result (λ d. key_at (Some d)) (value_at depth reader.old) reader.new }
    ensures shorter { OnOk result (length reader.new < length reader.old) }
{
    match read_text_or_null(reader, depth)? {
        Some(Some(text)) => Ok(
            read_hex::<48>(text)
                .map(PubKey)
                .ok_or(ReadFault::BadHex(Member::Pubkey)),
        ),
        _ => Ok(Err(ReadFault::Missing(Member::Pubkey))),
    }
}

/// The next value, the format version.
pub(crate) fn read_version(
    alloc: Global,
    reader: &mut Reader<'_>,
    depth: usize,
) -> Result<Result<(), ReadFault>, Halt>
    ensures value { ReadsOrHalts result (λ d. version_at (Some d)) (value_at depth reader.old) reader.new }
    ensures shorter { OnOk result (length reader.new < length reader.old) }
{
    match read_text_or_null(reader, depth)? {
        Some(Some(text)) => if text == "5" {
            Ok(Ok(()))
        } else {
            let version = VersionText::new(String::from_str(alloc, text)?);
            Ok(Err(ReadFault::Version(version)))
        },
        _ => Ok(Err(ReadFault::Missing(Member::InterchangeFormatVersion))),
    }
}
