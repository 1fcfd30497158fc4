//! Lines that close an output, and faults of interchange files.
use crate::words::{byte_of, number_of, root_of};
use edge_kit::MemSink;
use interchange_io::{Member, ReadFault, VersionText};
use program_end::{ClosingLine, FileRefusal, Limit, Status, close, finish};
use record_journal::Place;
use std::alloc::Global;
use trial_lines::push_lossy;

/// The members of an interchange file.
const MEMBERS: [Member; 12] = [
    Member::File,
    Member::Metadata,
    Member::InterchangeFormatVersion,
    Member::GenesisValidatorsRoot,
    Member::Data,
    Member::Pubkey,
    Member::SignedBlocks,
    Member::Slot,
    Member::SigningRoot,
    Member::SignedAttestations,
    Member::SourceEpoch,
    Member::TargetEpoch,
];

/// What stands before the first bar of words, and what stands behind it.
fn parted(words: &str) -> (&str, &str) {
    words.split_once('|').unwrap_or((words, ""))
}

/// The member of this name.
fn member_of(name: &str) -> Option<Member> {
    for member in MEMBERS {
        if member.name() == name {
            return Some(member);
        }
    }
    None
}

/// The fault of a file's member that a name says.
fn member_fault(name: &str, member: Member) -> Option<ReadFault> {
    match name {
        "missing" => Some(ReadFault::Missing(member)),
        "bad-number" => Some(ReadFault::BadNumber(member)),
        "bad-hex" => Some(ReadFault::BadHex(member)),
        _ => None,
    }
}

/// The fault of a file that words name.
fn fault_of(alloc: Global, words: &str) -> Option<ReadFault> {
    let (name, rest) = parted(words);
    match name {
        "not-utf8" => Some(ReadFault::NotUtf8),
        "json" => Some(ReadFault::Json),
        "too-long" => Some(ReadFault::TooLong(number_of(rest)? as usize)),
        "version" => {
            let text = String::from_str(alloc, rest).ok()?;
            Some(ReadFault::Version(VersionText::new(text)))
        }
        _ => member_fault(name, member_of(rest)?),
    }
}

/// The refusal of a file for what it would add to these two numbers.
fn refusal_by_numbers(name: &str, first: u64, second: u64) -> Option<FileRefusal> {
    match name {
        "too-many-keys" => Some(FileRefusal::TooManyKeys {
            have: first,
            new: second,
        }),
        "full" => Some(FileRefusal::Full {
            size: first,
            wanted: second,
        }),
        _ => None,
    }
}

/// The refusal of a file that words name.
fn refusal_of(alloc: Global, words: &str) -> Option<FileRefusal> {
    let (name, rest) = parted(words);
    let (first, second) = parted(rest);
    match (number_of(first), number_of(second)) {
        (Some(first), Some(second)) => refusal_by_numbers(name, first, second),
        _ => Some(FileRefusal::Read(fault_of(alloc, words)?)),
    }
}

/// The limit of this name.
fn limit_of(name: &str) -> Option<Limit> {
    match name {
        "line" => Some(Limit::Line),
        "input" => Some(Limit::Input),
        "file" => Some(Limit::File),
        "keys" => Some(Limit::Keys),
        _ => None,
    }
}

/// The damage of a file at a place, where a byte stands or the end.
fn damage_of(words: &str) -> Option<ClosingLine> {
    let (file, rest) = parted(words);
    let (offset, byte) = parted(rest);
    let file = if file == "first" {
        Place::First
    } else {
        Place::Second
    };
    let (offset, byte) = (number_of(offset)?, byte_of(byte));
    Some(ClosingLine::Damaged { file, offset, byte })
}

/// The two chains of a genesis that differs.
fn differing_of(words: &str) -> Option<ClosingLine> {
    let (kept, given) = parted(words);
    Some(ClosingLine::GenesisDiffers {
        kept: root_of(kept)?,
        given: root_of(given)?,
    })
}

/// The line with this text that closes an output.
fn line_with_text(alloc: Global, name: &str, text: &str) -> Option<ClosingLine> {
    let text = String::from_str(alloc, text).ok()?;
    match name {
        "no-node" => Some(ClosingLine::NoNode(text)),
        "usage" => Some(ClosingLine::Usage(text)),
        _ => None,
    }
}

/// The line that words name, which closes an output.
fn line_of(alloc: Global, words: &str) -> Option<ClosingLine> {
    let (name, rest) = parted(words);
    match name {
        "file-refused" => Some(ClosingLine::FileRefused(refusal_of(alloc, rest)?)),
        "read-fault" => Some(ClosingLine::ReadFault),
        "disk-fault" => Some(ClosingLine::DiskFault),
        "door-fault" => Some(ClosingLine::DoorFault),
        "input-too-long" => Some(ClosingLine::TooLong(limit_of(rest)?)),
        "damaged" => damage_of(rest),
        "genesis-differs" => differing_of(rest),
        _ => line_with_text(alloc, name, rest),
    }
}

/// Puts a status to a text, and what an output then holds.
fn push_ended(alloc: Global, text: &mut String, status: Status, out: MemSink) -> Option<()> {
    let held = out.into_bytes();
    writeln!(text, "status {}", status.code()).ok()?;
    push_lossy(alloc, text, held.as_slice()).ok()
}

/// An output of this room.
fn sink_of(alloc: Global, room: usize) -> Option<MemSink> {
    MemSink::new(alloc, room, Vec::new(alloc)).ok()
}

/// Puts what closing an output with a line comes to to a text.
fn push_closed(alloc: Global, text: &mut String, words: &str) -> Option<()> {
    let line = line_of(alloc, words)?;
    let mut out = sink_of(alloc, 256)?;
    let status = close(alloc, &mut out, &line);
    push_ended(alloc, text, status, out)
}

/// Puts what finishing an output of this room with a line comes to to a text.
fn push_finished(alloc: Global, text: &mut String, words: &str) -> Option<()> {
    let (room, line) = parted(words);
    let line = format!(in alloc; "{line}\n").ok()?;
    let mut out = sink_of(alloc, number_of(room)? as usize)?;
    let status = finish(&mut out, line.as_str());
    push_ended(alloc, text, status, out)
}

/// Puts what comes of words to a text, which stand with bars between: of a line that closes an output, of one that an output of
/// some room is finished with, or the text of a fault.
pub fn play(alloc: Global, subject: &str, words: &str, text: &mut String) -> Option<()> {
    match subject {
        "closing" => push_closed(alloc, text, words),
        "finish" => push_finished(alloc, text, words),
        _ => write!(text, "{}", fault_of(alloc, words)?).ok(),
    }
}
