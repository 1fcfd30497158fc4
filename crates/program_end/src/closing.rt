//! The line that closes an output where a command did not end well.
ghost use Rattle.std.specs.Prelude.{◌≡◌, ◌++◌, IfOk, IfSome, IfNone, string_bytes, codes};
ghost use Rattle.program_end.specs.Closing.{TakesMemory, byte_words, closing_status, closing_text, closing_words};

use crate::file_refusal::FileRefusal;
use crate::limit::Limit;
use crate::status::Status;
use edge_kit::{Root, hex_text};
use record_journal::Place;
use std::alloc::{AllocError, Global};

/// The line that closes an output where a command did not end well.
#[derive(Drop)]
pub enum ClosingLine {
    /// The input failed.
    ReadFault,
    /// A disk failed.
    DiskFault,
    /// The input passed a limit.
    TooLong(Limit),
    /// A file of the journal is none from a place on.
    Damaged {
        /// Which file.
        file: Place,
        /// The place, in bytes from its start.
        offset: u64,
        /// The byte there; none at its end.
        byte: Option<u8>,
    },
    /// Two parts are of different chains: the genesis validators root that the journal, or this client, has, and
    /// the one that was given in the words, by the file or by the node.
    GenesisDiffers {
        kept: Root,
        given: Root,
    },
    /// No beacon node gave what is needed to begin: the cause at each, in the order of the nodes, joined by `, `.
    NoNode(String),
    /// The door failed.
    DoorFault,
    /// The file that was to be merged is refused.
    FileRefused(FileRefusal),
    /// The words are no command, as this line says.
    Usage(String),
}

impl ClosingLine {
    /// The status of a program whose output the line closes.
    pub fn status(&self) -> Status
        ensures { result ≡ closing_status self.now }
    {
        match self {
            ClosingLine::ReadFault => Status::ReadFault,
            ClosingLine::DiskFault => Status::DiskFault,
            ClosingLine::TooLong(limit) => Status::InputTooLong(*limit),
            ClosingLine::Damaged { .. } => Status::Damaged,
            ClosingLine::GenesisDiffers { .. } => Status::GenesisDiffers,
            ClosingLine::NoNode(_) => Status::NoNode,
            ClosingLine::DoorFault => Status::DoorFault,
            ClosingLine::FileRefused(_) => Status::FileRefused,
            ClosingLine::Usage(_) => Status::Usage,
        }
    }

    /// The bytes of a line that takes memory: `validator: `, what went wrong, and a newline. Numbers are
    /// decimal, roots `0x` and lower-case hex digits, and a byte two of these; names and texts stand as they
    /// came. The error is want of memory.
    #[tactic(auto, unfolding(crate::specs::Closing::closing_text))]
    pub(crate) fn text(&self, alloc: Global) -> Result<String, AllocError>
        requires { TakesMemory self.now }
        ensures { IfOk result (λ text. string_bytes text ≡ closing_text self.now) }
    {
        let words = self.words(alloc)?;
        let words = words.as_str();
        format!(in alloc; "validator: {words}\n")
    }

    /// What went wrong.
    fn words(&self, alloc: Global) -> Result<String, AllocError>
        requires { TakesMemory self.now }
        ensures { IfOk result (λ text. string_bytes text ≡ closing_words self.now) }
    {
        match self {
            ClosingLine::ReadFault => unreachable!(),
            ClosingLine::DiskFault => unreachable!(),
            ClosingLine::TooLong(_) => unreachable!(),
            ClosingLine::DoorFault => unreachable!(),
            ClosingLine::Damaged { file, offset, byte } => damaged(alloc, *file, *offset, *byte),
            ClosingLine::GenesisDiffers { kept, given } => genesis_differs(alloc, kept, given),
            ClosingLine::NoNode(causes) => no_node(alloc, causes.as_str()),
            ClosingLine::FileRefused(refusal) => file_refused(alloc, refusal),
            ClosingLine::Usage(line) => line.clone(),
        }
    }

    /// The bytes of a line that takes no memory: of a fault of the input, the disk or the door, or of a limit.
    #[tactic(auto, unfolding(crate::specs::Closing::closing_text))]
    pub(crate) fn constant(&self) -> Option<&'static str>
        ensures text { IfSome result (λ text. text.now ≡ closing_text self.now) }
        ensures none { IfNone result (TakesMemory self.now) }
    {
        match self {
            ClosingLine::ReadFault => Some("validator: read fault\n"),
            ClosingLine::DiskFault => Some("validator: disk fault\n"),
            ClosingLine::TooLong(limit) => Some(too_long_line(*limit)),
            ClosingLine::Damaged { .. } => None,
            ClosingLine::GenesisDiffers { .. } => None,
            ClosingLine::NoNode(_) => None,
            ClosingLine::DoorFault => Some("validator: door fault\n"),
            ClosingLine::FileRefused(_) => None,
            ClosingLine::Usage(_) => None,
        }
    }
}

/// The line of a limit.
#[tactic(auto, unfolding(crate::specs::Closing::closing_text))]
fn too_long_line(limit: Limit) -> &'static str
    ensures { result.now ≡ closing_text (ClosingLine.TooLong limit) }
{
    match limit {
        Limit::Line => "validator: input too long: limit 16777216\n",
        Limit::Input => "validator: input too long: limit 18446744073709551615\n",
        Limit::File => "validator: input too long: limit 268435456\n",
        Limit::Keys => "validator: input too long: limit 65536\n",
    }
}

fn damaged(alloc: Global, file: Place, offset: u64, byte: Option<u8>) -> Result<String, AllocError>
    ensures { IfOk result (λ text. string_bytes text ≡ closing_words (ClosingLine.Damaged file offset byte)) }
{
    let byte = byte_text(alloc, byte)?;
    let byte = byte.as_str();
    match file {
        Place::First => format!(in alloc; "damaged at {offset}: {byte}"),
        Place::Second => format!(in alloc; "damaged in b at {offset}: {byte}"),
    }
}

/// The digits of a byte, and `end` where there is none.
fn byte_text(alloc: Global, byte: Option<u8>) -> Result<String, AllocError>
    ensures { IfOk result (λ text. string_bytes text ≡ byte_words byte) }
{
    match byte {
        Some(byte) => hex::encode(alloc, [byte]),
        None => String::from_str(alloc, "end"),
    }
}

fn genesis_differs(alloc: Global, kept: &Root, given: &Root) -> Result<String, AllocError>
    ensures { IfOk result (λ text. string_bytes text
        ≡ closing_words (ClosingLine.GenesisDiffers kept.now given.now)) }
{
    let kept = hex_text(alloc, &kept.0)?;
    let given = hex_text(alloc, &given.0)?;
    let kept = kept.as_str();
    let given = given.as_str();
    format!(in alloc; "genesis differs: kept {kept}, given {given}")
}

fn no_node(alloc: Global, causes: &str) -> Result<String, AllocError>
    ensures { IfOk result (λ text. string_bytes text ≡ codes "no node: " ++ causes.now) }
{
    format!(in alloc; "no node: {causes}")
}

fn file_refused(alloc: Global, refusal: &FileRefusal) -> Result<String, AllocError>
    ensures { IfOk result (λ text. string_bytes text ≡ closing_words (ClosingLine.FileRefused refusal.now)) }
{
    let reason = refusal.text(alloc)?;
    let reason = reason.as_str();
    format!(in alloc; "file refused: {reason}")
}
