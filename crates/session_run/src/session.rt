//! A session from its input to its output.
ghost use Rattle.std.specs.Prelude.{◌≡◌, ◌≢◌, ◌≤◌, None};
ghost use Rattle.desk_machine.specs.Machine.{moment_limit};
ghost use Rattle.program_end.specs.declared.limit.Limit.{Limit};
ghost use Rattle.session_run.specs.Ends.{Ends};
ghost use Rattle.session_run.specs.Exits.{ServesLine, UnreadCloses, UnservedCloses};
ghost use Rattle.session_run.specs.Inputs.{WithinLimits};

use crate::bench::Bench;
use crate::lines::Lines;
use crate::next::{LineFault, Next};
use edge_kit::{Disk, Failed, Sink, Source};
use program_end::{ClosingLine, Limit, Status, close, write_all};
use session_format::{SessionChain, read_request};
use signer_link::Signer;
use std::alloc::Global;

/// Why a line is not served to its end.
#[derive(Clone, Copy, PartialEq, Eq, Debug)]
pub(crate) enum Unserved {
    /// Memory ran out; nothing was written.
    Memory,
    /// The output failed.
    Write,
    /// The disk failed; the line is answered.
    Disk,
}

/// Serves the lines of an input, each answer as soon as it is known, and closes the output where the status
/// has a line. The bench goes on from where it is.
///
/// The status is `Done` where the input was read to its end; `ReadFault` and `InputTooLong` where reading
/// stopped; `DiskFault` where the disk failed, at the last line that was served; `WriteFault` where the output
/// failed; and `OutOfMemory` where memory was wanted: what a line asks may be done then and not answered.
pub fn serve_lines<D: Disk, S: Signer, I: Source, O: Sink>(
    alloc: Global,
    chain: &SessionChain,
    bench: &mut Bench<D, S>,
    input: &mut I,
    out: &mut O,
) -> Status
    requires up { bench.old.desk.contents.torn ≡ None }
    ensures ends { Ends D.moment D.leaves D.faults chain.now bench.old bench.new
        (record { left = I.left input.old; held = O.held out.old; reads_failed = I.faults input.old; writes_failed = O.faults out.old })
        (record { left = I.left input.new; held = O.held out.new; reads_failed = I.faults input.new; writes_failed = O.faults out.new })
        result }
    ensures within { WithinLimits (I.left input.old) → (l : Limit) → result ≢ Status.InputTooLong l }
{
    let Ok(mut lines) = Lines::new(alloc) else {
        return Status::OutOfMemory;
    };
    let mut latest = 0;
    'lines: for _ in 0..u64::MAX {
        match lines.next(alloc, input) {
            Ok(Next::Line(line)) => {
                match serve_line(alloc, chain, bench, out, latest, line.as_slice()) {
                    Ok(now) => latest = now,
                    Err(fault) => return close_unserved(alloc, out, fault),
                }
            }
            Ok(Next::Last(line)) => {
                if line.is_empty() {
                    return Status::Done;
                }
                match serve_line(alloc, chain, bench, out, latest, line.as_slice()) {
                    Ok(_) => return Status::Done,
                    Err(fault) => return close_unserved(alloc, out, fault),
                }
            }
            Err(fault) => return close_unread(alloc, out, fault),
        }
    }
    close_unread(alloc, out, LineFault::TooLong(Limit::Input))
}

/// Closes the output after a line that was not served to its end.
fn close_unserved<O: Sink>(alloc: Global, out: &mut O, fault: Unserved) -> Status
    ensures closes { UnservedCloses fault (O.held out.old) (O.held out.new) (O.faults out.old) (O.faults out.new) result }
{
    match fault {
        Unserved::Memory => Status::OutOfMemory,
        Unserved::Write => Status::WriteFault,
        Unserved::Disk => close(alloc, out, &ClosingLine::DiskFault),
    }
}

/// Closes the output after a fault of reading.
fn close_unread<O: Sink>(alloc: Global, out: &mut O, fault: LineFault) -> Status
    ensures closes { UnreadCloses fault (O.held out.old) (O.held out.new) (O.faults out.old) (O.faults out.new) result }
{
    match fault {
        LineFault::Memory => Status::OutOfMemory,
        LineFault::Read => close(alloc, out, &ClosingLine::ReadFault),
        LineFault::TooLong(limit) => close(alloc, out, &ClosingLine::TooLong(limit)),
    }
}

/// Serves one line and writes its answer in one piece. Gives the latest moment.
fn serve_line<D: Disk, S: Signer, O: Sink>(
    alloc: Global,
    chain: &SessionChain,
    bench: &mut Bench<D, S>,
    out: &mut O,
    latest: u64,
    line: &[u8],
) -> Result<u64, Unserved>
    requires latest { latest ≤ moment_limit }
    ensures serves { ServesLine D.moment D.leaves D.faults chain.now latest line.now bench.old bench.new (O.held out.old) (O.held out.new) (O.faults out.old) (O.faults out.new) result }
    ensures later { O.faults out.old ≤ O.faults out.new }
{
    let Ok(read) = read_request(alloc, chain, line) else {
        return Err(Unserved::Memory);
    };
    let Ok((text, now)) = bench.answer(alloc, chain, latest, read) else {
        return Err(Unserved::Memory);
    };
    match write_all(out, text.as_bytes()) {
        Ok(()) if bench.failed() => Err(Unserved::Disk),
        Ok(()) => Ok(now),
        Err(Failed) => Err(Unserved::Write),
    }
}
