//! Bytes written whole, and the end of an output.
ghost use Rattle.std.specs.Prelude.{◌≡◌, ◌≤◌, ◌<◌, ℕ, length, take, OnErr, OnOk};
ghost use Rattle.std.specs.Io.KnownBytes.{Appends};
ghost use Rattle.edge_kit.specs.Causes.{HasCause};
ghost use Rattle.program_end.specs.Endings.{Closes, EndsWith};

use crate::closing::ClosingLine;
use crate::status::Status;
use edge_kit::{Failed, Sink};
use std::alloc::{AllocError, Global};

/// Writes all the bytes. `Failed` only where the sink's count of faults rose; a front of the bytes was
/// written then, not all of them.
pub fn write_all<O: Sink>(out: &mut O, bytes: &[u8]) -> Result<(), Failed>
    ensures ok { OnOk result (Appends (O.held out.old) (O.held out.new) bytes.now) }
    ensures err { OnErr result ((n : ℕ) × (n < length bytes.now) × Appends (O.held out.old) (O.held out.new) (take n bytes.now)) }
    ensures cause { HasCause (O.faults out.old) (O.faults out.new) result }
{
    let mut at = 0;
    'pieces: while at < bytes.len() {
        match out.write(&bytes[at..]) {
            Ok(count) => at += count,
            Err(Failed) => return Err(Failed),
        }
    }
    Ok(())
}

/// Closes the output by the line, and gives its status: `WriteFault` in its place where the sink's count of
/// faults rose, and a front of the line was written; `OutOfMemory` where nothing was written, which does not
/// come for a fault of the input, the disk or the door, nor for a limit.
pub fn close<O: Sink>(alloc: Global, out: &mut O, line: &ClosingLine) -> Status
    ensures closes { Closes line.now (O.held out.old) (O.held out.new) (O.faults out.old) (O.faults out.new) result }
    ensures later { O.faults out.old ≤ O.faults out.new }
{
    let status = line.status();
    if let Some(text) = line.constant() {
        return write_last(out, status, text);
    }
    match line.text(alloc) {
        Ok(text) => write_last(out, status, text.as_str()),
        Err(AllocError) => Status::OutOfMemory,
    }
}

/// Writes the text of a command that is done, and gives `Done`, or `WriteFault` where the sink's count of
/// faults rose, and a front of the text was written.
pub fn finish<O: Sink>(out: &mut O, text: &str) -> Status
    ensures ends { EndsWith Status.Done text.now (O.held out.old) (O.held out.new) (O.faults out.old) (O.faults out.new) result }
    ensures later { O.faults out.old ≤ O.faults out.new }
{
    write_last(out, Status::Done, text)
}

/// Writes the last text of an output, and gives the status.
fn write_last<O: Sink>(out: &mut O, status: Status, text: &str) -> Status
    ensures ends { EndsWith status text.now (O.held out.old) (O.held out.new) (O.faults out.old) (O.faults out.new) result }
    ensures later { O.faults out.old ≤ O.faults out.new }
{
    match write_all(out, text.as_bytes()) {
        Ok(()) => status,
        Err(Failed) => Status::WriteFault,
    }
}
