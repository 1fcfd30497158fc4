//! Reading an interchange file, in one pass over its text.
ghost use Rattle.std.specs.Prelude.{◌≡◌, ◌<◌, length, IfOk, OnOk};
ghost use Rattle.serde_json.specs.Data.{object};
ghost use Rattle.serde_json.specs.Read.{read};
ghost use Rattle.json_walk.specs.Walk.{value_at, members_at};
ghost use Rattle.interchange_io.specs.Halts.{ReadsOrHalts};
ghost use Rattle.interchange_io.specs.Steps.{Gives};
ghost use Rattle.interchange_io.specs.Reading.{file_in, of_data, of_text, file_of};
ghost use Rattle.interchange_io.specs.Found.{file_from};
ghost use Rattle.interchange_io.specs.Parts.{PutsOrHalts, file_with};

use crate::books::read_data;
use crate::fault::{ReadFault, Stop};
use crate::halt::Halt;
use crate::member::Member;
use crate::metadata::read_metadata;
use edge_kit::{Items, PubKey, Root};
use json::{Reader, Scratch};
use json_walk::{Entered, enter_object, skip};
use slash_defs::{Book, File};
use std::alloc::{AllocError, Global};

/// The most bytes that an interchange file may have.
pub const FILE_LIMIT: usize = 268_435_456;

/// How deep arrays and objects may nest.
const MAX_DEPTH: usize = 127;

/// The file that the bytes are (EIP-3076, format version 5), or the first refusal in the order of the
/// file. A key that is listed more than once stands at its first place with its lists one after another.
/// The error is want of memory.
pub fn read(alloc: Global, bytes: &[u8]) -> Result<Result<File, ReadFault>, AllocError>
    ensures { IfOk result (λ read. read ≡ file_of bytes.now) }
{
    if bytes.len() > FILE_LIMIT {
        return Ok(Err(ReadFault::TooLong(bytes.len())));
    }
    match read_text(alloc, bytes) {
        Ok(file) => Ok(Ok(file)),
        Err(Stop::Fault(fault)) => Ok(Err(fault)),
        Err(Stop::Memory) => Err(AllocError),
    }
}

fn read_text(alloc: Global, bytes: &[u8]) -> Result<File, Stop>
    ensures { Gives result (of_text bytes.now) }
{
    let Ok(text) = simdutf8::basic::from_utf8(bytes) else {
        return Err(Stop::Fault(ReadFault::NotUtf8));
    };
    file_of_text(alloc, text)
}

/// The file that a text is.
fn file_of_text(alloc: Global, text: &str) -> Result<File, Stop>
    ensures { Gives result (of_data (read text.now)) }
{
    let mut scratch = Scratch::new(alloc);
    let Ok(mut reader) = Reader::new(text, &mut scratch) else {
        return Err(Stop::Memory);
    };
    match read_file(alloc, &mut reader, MAX_DEPTH) {
        Ok(file) => if reader.next().is_some() {
            Err(Stop::Fault(ReadFault::Json))
        } else {
            stop_of(file)
        },
        Err(Halt::Memory) => Err(Stop::Memory),
        Err(Halt::Json) => Err(Stop::Fault(ReadFault::Json)),
    }
}

fn stop_of(file: Result<File, ReadFault>) -> Result<File, Stop>
    ensures { Gives result file }
{
    match file {
        Ok(file) => Ok(file),
        Err(fault) => Err(Stop::Fault(fault)),
    }
}

/// What was found of a file so far.
#[derive(Drop)]
struct FileParts {
    metadata: Result<Root, ReadFault>,
    books: Result<Items<(PubKey, Book)>, ReadFault>,
}

/// The next value, that of the file's member of this name.
fn read_file_member(
    alloc: Global,
    reader: &mut Reader<'_>,
    depth: usize,
    name: &str,
    parts: &mut FileParts,
) -> Result<(), Halt>
    ensures value { PutsOrHalts result parts.new (file_with parts.old name.now) (value_at depth reader.old) reader.new }
    ensures shorter { OnOk result (length reader.new < length reader.old) }
{
    match name {
        "metadata" => parts.metadata = read_metadata(alloc, reader, depth)?,
        "data" => parts.books = read_data(alloc, reader, depth)?,
        _ => skip(reader, depth)?,
    }
    Ok(())
}

fn read_file_members(
    alloc: Global,
    reader: &mut Reader<'_>,
    depth: usize,
) -> Result<Result<File, ReadFault>, Halt>
    ensures value { ReadsOrHalts result (λ ms. file_in (object ms)) (members_at depth reader.old) reader.new }
    ensures shorter { OnOk result (length reader.new < length reader.old) }
{
    let mut parts = FileParts {
        metadata: Err(ReadFault::Missing(Member::Metadata)),
        books: Err(ReadFault::Missing(Member::Data)),
    };
    'members: while let Some(name) = reader.next_key()? {
        read_file_member(alloc, reader, depth, name, &mut parts)?;
    }
    Ok(file_of_parts(parts))
}

fn read_file(
    alloc: Global,
    reader: &mut Reader<'_>,
    depth: usize,
) -> Result<Result<File, ReadFault>, Halt>
    ensures value { ReadsOrHalts result file_in (value_at depth reader.old) reader.new }
    ensures shorter { OnOk result (length reader.new < length reader.old) }
{
    match enter_object(reader, depth)? {
        Entered::Inside => read_file_members(alloc, reader, depth - 1),
        Entered::Null => Ok(Err(ReadFault::Missing(Member::File))),
        Entered::Other => Ok(Err(ReadFault::Missing(Member::File))),
    }
}

fn file_of_parts(parts: FileParts) -> Result<File, ReadFault>
    ensures { result ≡ file_from parts.metadata parts.books }
{
    let FileParts { metadata, books } = parts;
    match metadata {
        Ok(genesis) => match books {
            Ok(books) => Ok(File { genesis, books }),
            Err(fault) => Err(fault),
        },
        Err(fault) => Err(fault),
    }
}
