//! The output of a command whose journal is not opened.
ghost use Rattle.std.specs.Prelude.{◌≡◌, ◌≤◌};
ghost use Rattle.journal_commands.specs.Openings.{open_line};
ghost use Rattle.journal_commands.specs.Views.{ClosedBy, output_of};

use check_sign::OpenFault;
use edge_kit::Sink;
use program_end::{ClosingLine, Limit, Status, close};
use record_journal::OpenFault as JournalFault;
use std::alloc::Global;

/// The line of a journal that is not opened; none where memory ran out.
fn line_of(fault: OpenFault) -> Option<ClosingLine>
    ensures { result ≡ open_line fault }
{
    match fault {
        OpenFault::Journal(JournalFault::Disk) => Some(ClosingLine::DiskFault),
        OpenFault::Journal(JournalFault::OutOfMemory) => None,
        OpenFault::Journal(JournalFault::Damaged { file, offset, byte }) => {
            Some(ClosingLine::Damaged { file, offset, byte })
        }
        OpenFault::Journal(JournalFault::Genesis { kept, given }) => {
            Some(ClosingLine::GenesisDiffers { kept, given })
        }
        OpenFault::TooManyKeys { .. } => Some(ClosingLine::TooLong(Limit::Keys)),
    }
}

/// Closes the output of a journal that is not opened, by the line of the fault, and gives the line's status, or
/// `WriteFault` in its place where the output's count of faults rose and a front of the line was written.
/// Where memory runs out nothing is written, and the status is `OutOfMemory`; a fault of the disk and too many
/// keys are told without memory.
pub fn close_unopened<O: Sink>(alloc: Global, out: &mut O, fault: OpenFault) -> Status
    ensures tells { ClosedBy (open_line fault) (output_of O.held O.faults out.old) (output_of O.held O.faults out.new) result }
    ensures later { O.faults out.old ≤ O.faults out.new }
{
    match line_of(fault) {
        Some(line) => close(alloc, out, &line),
        None => Status::OutOfMemory,
    }
}
