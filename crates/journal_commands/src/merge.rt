//! The input is merged into a journal.
ghost use Rattle.std.specs.Prelude.{◌≡◌, ◌⊎◌, ◌≤◌, ℕ, List, length};
ghost use Rattle.edge_kit.specs.Causes.{Rose};
ghost use Rattle.record_journal.specs.TwoDisks.{EitherRose};
ghost use Rattle.edge_kit.specs.declared.bytes.Root.{Root};
ghost use Rattle.interchange_io.specs.Reading.{file_limit};
ghost use Rattle.record_join.specs.BooksPasts.{EachOnce};
ghost use Rattle.desk_machine.specs.declared.call.DeskCall.{DeskCall};
ghost use Rattle.desk_machine.specs.declared.call.DeskReply.{DeskReply};
ghost use Rattle.check_sign.specs.Calls.{IsCallOf};
ghost use Rattle.journal_commands.specs.Views.{ClosedBy, EndsBy, Unwritten, output_of, view_of};
ghost use Rattle.journal_commands.specs.Merging.{DeskMergeEnds, IsMerge, IsMergeComplete, MergeEnds, ReplyEnds, merged_text, unread_line};
ghost use Rattle.journal_commands.specs.Whole.{WithinLimit};

use crate::unopened::close_unopened;
use crate::whole::{WholeFault, read_whole};
use check_sign::{Desk, DeskReply, Events, Outcome};
use command_line::Plan;
use edge_kit::{Disk, Disks, Sink, Source};
use interchange_io::{files_list_once, read};
use program_end::{ClosingLine, FILE_LIMIT, FileRefusal, Limit, Status, close, finish};
use slash_defs::File;
use std::alloc::{AllocError, Global};

/// Does what a merge's plan says: merges the interchange file (EIP-3076) on the input into the journal on the
/// first disk, and writes `merged K` and a newline, K the number of its keys. A journal is begun where there
/// is none. The disks come back, with what the desk did. Whatever moment the program is killed at, the journal
/// opens to what was kept before or after the merge.
///
/// The status is `Done`, or, with a line that closes the output: `DiskFault`, `Damaged`, `GenesisDiffers` and
/// `InputTooLong(Limit::Keys)` where the journal is not opened, and nothing was read then; `ReadFault` where
/// the input failed; `InputTooLong(Limit::File)` where it has more than 268,435,456 bytes, whatever they are;
/// `FileRefused` where it is no interchange file, has too many keys, or does not fit into the journal;
/// `GenesisDiffers` where it is of another chain; and `DiskFault` where the disk failed. `WriteFault` comes where
/// the output failed, and `OutOfMemory` where memory was wanted: the file may be merged then.
pub fn run_merge<D: Disk, I: Source, O: Sink>(
    alloc: Global,
    plan: &Plan,
    disks: Disks<D>,
    input: &mut I,
    out: &mut O,
) -> (Status, Disks<D>, Events)
    requires { IsMerge plan.now }
    ensures ends { (genesis : Root) (journal : List ℕ) → plan.now ≡ Plan.Merge genesis journal → MergeEnds D.shows D.moment D.leaves D.faults genesis disks result.1
        (view_of I.left I.faults O.held O.faults input.old out.old) (view_of I.left I.faults O.held O.faults input.new out.new) result.2.items result.0 }
    ensures read_fault { result.0 ≡ Status.ReadFault → Rose (I.faults input.old) (I.faults input.new) }
    ensures write_fault { result.0 ≡ Status.WriteFault → Rose (O.faults out.old) (O.faults out.new) }
    ensures disk_fault { result.0 ≡ Status.DiskFault → EitherRose D.faults disks result.1 }
    ensures complete { WithinLimit file_limit (I.left input.old)
        → ¬ (Rose (I.faults input.old) (I.faults input.new)) → ¬ (Rose (O.faults out.old) (O.faults out.new)) → ¬ (EitherRose D.faults disks result.1)
        → IsMergeComplete result.0 }
{
    let Plan::Merge { genesis, .. } = plan else {
        unreachable!()
    };
    let mut desk = match Desk::open(alloc, disks, *genesis, false, 0) {
        Ok(desk) => desk,
        Err((fault, disks)) => {
            let status = close_unopened(alloc, out, fault);
            return (status, disks, Events::new());
        }
    };
    let status = merge_input(alloc, &mut desk, input, out);
    let (disks, events) = desk.end();
    (status, disks, events)
}

/// Merges the input into a desk: its length is looked at first, then whether it is a file.
fn merge_input<D: Disk, I: Source, O: Sink>(
    alloc: Global,
    desk: &mut Desk<D>,
    input: &mut I,
    out: &mut O,
) -> Status
    ensures ends { DeskMergeEnds D.moment D.leaves D.faults
        (view_of I.left I.faults O.held O.faults input.old out.old) (view_of I.left I.faults O.held O.faults input.new out.new) desk.old desk.new result }
{
    let bytes = match read_whole(alloc, input, FILE_LIMIT) {
        Ok(bytes) => bytes,
        Err(fault) => return close_unread(alloc, out, fault),
    };
    match read(alloc, bytes.as_slice()) {
        Ok(Ok(file)) => {
            files_list_once();
            merge_file(alloc, desk, file, out)
        }
        Ok(Err(fault)) => {
            let line = ClosingLine::FileRefused(FileRefusal::Read(fault));
            close(alloc, out, &line)
        }
        Err(AllocError) => Status::OutOfMemory,
    }
}

/// Closes the output of an input that was not read to its end.
fn close_unread<O: Sink>(alloc: Global, out: &mut O, fault: WholeFault) -> Status
    ensures closes { ClosedBy (unread_line fault) (output_of O.held O.faults out.old) (output_of O.held O.faults out.new) result }
{
    match fault {
        WholeFault::Read => close(alloc, out, &ClosingLine::ReadFault),
        WholeFault::TooLong => close(alloc, out, &ClosingLine::TooLong(Limit::File)),
        WholeFault::OutOfMemory => Status::OutOfMemory,
    }
}

/// Merges a file into a desk, and ends the output by its reply.
fn merge_file<D: Disk, O: Sink>(
    alloc: Global,
    desk: &mut Desk<D>,
    file: File,
    out: &mut O,
) -> Status
    requires { EachOnce file.books }
    ensures called { (reply : DeskReply) × IsCallOf D.moment D.leaves D.faults desk.old desk.new (DeskCall.Merge file) reply
        × ReplyEnds (length file.books) reply (output_of O.held O.faults out.old) (output_of O.held O.faults out.new) result }
{
    let count = file.books.len() as u64;
    match desk.merge(file) {
        DeskReply::Merged { keys: _ } => close_merged(alloc, out, count),
        DeskReply::GenesisDiffers { kept, given } => {
            close(alloc, out, &ClosingLine::GenesisDiffers { kept, given })
        }
        DeskReply::TooManyKeys { have, new } => {
            let line = ClosingLine::FileRefused(FileRefusal::TooManyKeys { have, new });
            close(alloc, out, &line)
        }
        DeskReply::Full { size, wanted } => {
            let line = ClosingLine::FileRefused(FileRefusal::Full { size, wanted });
            close(alloc, out, &line)
        }
        DeskReply::Disk => close(alloc, out, &ClosingLine::DiskFault),
        DeskReply::OutOfMemory => Status::OutOfMemory,
        DeskReply::Granted(grant) => {
            desk.settle(grant, Outcome::Dropped);
            unreachable!()
        }
        DeskReply::Active
        | DeskReply::Already
        | DeskReply::Noted
        | DeskReply::Settled
        | DeskReply::CloseBegun
        | DeskReply::AlreadyClosing
        | DeskReply::Unknown
        | DeskReply::NotActive
        | DeskReply::LastGeneration
        | DeskReply::Closing => unreachable!(),
        DeskReply::Live { .. } | DeskReply::Watching { .. } => unreachable!(),
        DeskReply::Busy { .. } | DeskReply::Compacted { .. } => unreachable!(),
        DeskReply::Closed(_) => unreachable!(),
        DeskReply::Exported(_) => unreachable!(),
        DeskReply::Pruned(_) | DeskReply::Recorded | DeskReply::Unfit => unreachable!(),
        DeskReply::Keys(_) => unreachable!(),
        DeskReply::HasFailed(_) | DeskReply::NotClosing(_) => unreachable!(),
        DeskReply::Size { size: _, weight: _ } => unreachable!(),
        DeskReply::Refused(_) => unreachable!(),
    }
}

/// Writes that a file of that many keys is merged.
fn close_merged<O: Sink>(alloc: Global, out: &mut O, count: u64) -> Status
    ensures { EndsBy Status.Done (merged_text count) (output_of O.held O.faults out.old) (output_of O.held O.faults out.new) result
        ⊎ Unwritten (output_of O.held O.faults out.old) (output_of O.held O.faults out.new) result }
{
    match format!(in alloc; "merged {count}\n") {
        Ok(text) => finish(out, text.as_str()),
        Err(AllocError) => Status::OutOfMemory,
    }
}
