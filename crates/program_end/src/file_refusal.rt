//! Why the file that was to be merged is refused.
ghost use Rattle.std.specs.Prelude.{◌≡◌, ◌++◌, IfOk, string_bytes};
ghost use Rattle.program_end.specs.Closing.{fault_words, refusal_words};

use interchange_io::ReadFault;
use std::alloc::{AllocError, Global};

/// Why the file that was to be merged is refused.
#[derive(Drop)]
pub enum FileRefusal {
    /// The text is no interchange file.
    Read(ReadFault),
    /// There would be too many keys: how many are kept, and how many the file adds.
    TooManyKeys { have: u64, new: u64 },
    /// The journal has no room: its size in bytes, and how many more were wanted.
    Full { size: u64, wanted: u64 },
}

impl FileRefusal {
    /// The reason, and its members.
    pub(crate) fn text(&self, alloc: Global) -> Result<String, AllocError>
        ensures { IfOk result (λ text. string_bytes text ≡ refusal_words self.now) }
    {
        match self {
            FileRefusal::Read(fault) => fault_text(alloc, fault),
            FileRefusal::TooManyKeys { have, new } => too_many_keys(alloc, *have, *new),
            FileRefusal::Full { size, wanted } => full(alloc, *size, *wanted),
        }
    }
}

fn too_many_keys(alloc: Global, have: u64, new: u64) -> Result<String, AllocError>
    ensures { IfOk result (λ text. string_bytes text ≡ refusal_words (FileRefusal.TooManyKeys have new)) }
{
    format!(in alloc; "too_many_keys have {have} new {new}")
}

fn full(alloc: Global, size: u64, wanted: u64) -> Result<String, AllocError>
    ensures { IfOk result (λ text. string_bytes text ≡ refusal_words (FileRefusal.Full size wanted)) }
{
    format!(in alloc; "full size {size} wanted {wanted}")
}

/// Why a text is no interchange file: the reason, and its member.
fn fault_text(alloc: Global, fault: &ReadFault) -> Result<String, AllocError>
    ensures { IfOk result (λ text. string_bytes text ≡ fault_words fault.now) }
{
    match fault {
        ReadFault::TooLong(len) => too_long(alloc, *len),
        ReadFault::NotUtf8 => String::from_str(alloc, "not_utf8"),
        ReadFault::Json => String::from_str(alloc, "json"),
        ReadFault::Missing(member) => joined(alloc, "missing member ", member.name()),
        ReadFault::Version(text) => joined(alloc, "version text ", text.as_str()),
        ReadFault::BadNumber(member) => joined(alloc, "bad_number member ", member.name()),
        ReadFault::BadHex(member) => joined(alloc, "bad_hex member ", member.name()),
    }
}

fn too_long(alloc: Global, len: usize) -> Result<String, AllocError>
    ensures { IfOk result (λ text. string_bytes text ≡ fault_words (ReadFault.TooLong len)) }
{
    format!(in alloc; "too_long len {len}")
}

/// A text after a word.
fn joined(alloc: Global, word: &str, text: &str) -> Result<String, AllocError>
    ensures { IfOk result (λ all. string_bytes all ≡ word.now ++ text.now) }
{
    format!(in alloc; "{word}{text}")
}
