//! How the output ends.
ghost use Rattle.std.specs.Prelude.{◌≤◌};
ghost use Rattle.journal_commands.specs.Views.{output_of};
ghost use Rattle.proxy_run.specs.Ends.{ClosesLanes};

use edge_kit::Sink;
use program_end::{ClosingLine, Status, close};
use proxy_lanes::LoopEnd;
use std::alloc::Global;

/// Closes the output after the lanes, by the line that says why they ended, if a disk or the door failed.
pub(crate) fn close_lanes<O: Sink>(alloc: Global, out: &mut O, ended: Result<(), LoopEnd>) -> Status
    ensures closes { ClosesLanes ended (output_of O.held O.faults out.old) (output_of O.held O.faults out.new) result }
    ensures later { O.faults out.old ≤ O.faults out.new }
{
    match ended {
        Ok(()) => Status::Done,
        Err(LoopEnd::Door) => close(alloc, out, &ClosingLine::DoorFault),
        Err(LoopEnd::Disk) => close(alloc, out, &ClosingLine::DiskFault),
        Err(LoopEnd::Memory) => Status::OutOfMemory,
    }
}
