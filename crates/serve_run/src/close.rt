//! How the output ends.
ghost use Rattle.std.specs.Prelude.{◌≡◌, ◌≤◌, ◌++◌, IfOk, OnOk, flat_map, string_bytes};
ghost use Rattle.journal_commands.specs.Views.{output_of};
ghost use Rattle.serve_run.specs.Serving.{ClosesBoth, ClosesConnections, ClosesMemory};

use crate::beside::LoopEnds;
use duty_turns::DutyEnd;
use edge_kit::Sink;
use keymanager_api::ConnectionsEnd;
use program_end::{ClosingLine, Status, close};
use std::alloc::Global;

/// Closes the output after both loops: where both ended by a fault, as the lesser status says.
pub(crate) fn close_both<O: Sink>(alloc: Global, out: &mut O, loops: LoopEnds) -> Status
    ensures closes { ClosesBoth loops.duties loops.connections (output_of O.held O.faults out.old) (output_of O.held O.faults out.new) result }
    ensures later { O.faults out.old ≤ O.faults out.new }
{
    match loops.duties {
        Ok(()) => close_connections(alloc, out, loops.connections),
        Err(DutyEnd::Disk) => close(alloc, out, &ClosingLine::DiskFault),
        Err(DutyEnd::Write) => Status::WriteFault,
        Err(DutyEnd::OutOfMemory) => close_memory(alloc, out, loops.connections),
    }
}

/// Closes the output where the duties came to their number of turns.
fn close_connections<O: Sink>(
    alloc: Global,
    out: &mut O,
    ended: Result<(), ConnectionsEnd>,
) -> Status
    ensures closes { ClosesConnections ended (output_of O.held O.faults out.old) (output_of O.held O.faults out.new) result }
    ensures later { O.faults out.old ≤ O.faults out.new }
{
    match ended {
        Ok(()) => Status::Done,
        Err(ConnectionsEnd::Door) => close(alloc, out, &ClosingLine::DoorFault),
        Err(ConnectionsEnd::Disk) => close(alloc, out, &ClosingLine::DiskFault),
    }
}

/// Closes the output where memory ran out in the duties.
fn close_memory<O: Sink>(alloc: Global, out: &mut O, ended: Result<(), ConnectionsEnd>) -> Status
    ensures closes { ClosesMemory ended (output_of O.held O.faults out.old) (output_of O.held O.faults out.new) result }
    ensures later { O.faults out.old ≤ O.faults out.new }
{
    match ended {
        Err(ConnectionsEnd::Disk) => close(alloc, out, &ClosingLine::DiskFault),
        Ok(()) | Err(ConnectionsEnd::Door) => Status::OutOfMemory,
    }
}
