//! The keys of a journal, a line each.
ghost use Rattle.std.specs.Prelude.{◌≡◌, ◌≢◌, ◌≤◌, ℕ, List, OnOk, OnErr, length, take};
ghost use Rattle.std.specs.Io.KnownBytes.{Appends};
ghost use Rattle.edge_kit.specs.Causes.{Rose};
ghost use Rattle.record_journal.specs.TwoDisks.{EitherRose};
ghost use Rattle.edge_kit.specs.declared.bytes.Root.{Root};
ghost use Rattle.record_join.specs.Keys.{kept_of};
ghost use Rattle.journal_commands.specs.Views.{output_of};
ghost use Rattle.journal_commands.specs.Showing.{DeskShowEnds, IsShow, IsShowComplete, ShowEnds, kept_text, listed_text};

use crate::showing::key_line;
use crate::unopened::close_unopened;
use check_sign::{Desk, DeskReply, Events, KeyStanding, KeyState, Outcome};
use command_line::Plan;
use edge_kit::{Disk, Disks, Failed, PubKey, Sink};
use program_end::{Status, write_all};
use std::alloc::Global;

/// Why not all lines are written.
#[derive(Clone, Copy, PartialEq, Eq, Debug)]
enum Unshown {
    /// Memory ran out.
    Memory,
    /// The output failed.
    Write,
}

/// Does what a showing's plan says: writes one line (`key_line`) for each key that the journal names, in key order, each as soon as it is made. A journal is begun where there is none. The disks
/// come back, with what the desk did: nothing.
///
/// The status is `Done`; `DiskFault`, `Damaged`, `GenesisDiffers` and `InputTooLong(Limit::Keys)`, with a line
/// that closes the output, where the journal is not opened; `WriteFault` where the output failed; and
/// `OutOfMemory` where memory was wanted.
pub fn run_show<D: Disk, O: Sink>(
    alloc: Global,
    plan: &Plan,
    disks: Disks<D>,
    out: &mut O,
) -> (Status, Disks<D>, Events)
    requires { IsShow plan.now }
    ensures ends { (genesis : Root) (journal : List ℕ) → plan.now ≡ Plan.Show genesis journal → ShowEnds D.shows D.moment D.leaves D.faults genesis disks result.1
        (output_of O.held O.faults out.old) (output_of O.held O.faults out.new) result.2.items result.0 }
    ensures read_fault { result.0 ≢ Status.ReadFault }
    ensures write_fault { result.0 ≡ Status.WriteFault → Rose (O.faults out.old) (O.faults out.new) }
    ensures disk_fault { result.0 ≡ Status.DiskFault → EitherRose D.faults disks result.1 }
    ensures complete { ¬ (Rose (O.faults out.old) (O.faults out.new)) → ¬ (EitherRose D.faults disks result.1) → IsShowComplete result.0 }
{
    let Plan::Show { genesis, .. } = plan else {
        unreachable!()
    };
    let mut desk = match Desk::open(alloc, disks, *genesis, false, 0) {
        Ok(desk) => desk,
        Err((fault, disks)) => {
            let status = close_unopened(alloc, out, fault);
            return (status, disks, Events::new());
        }
    };
    let status = show_desk(alloc, &mut desk, out);
    let (disks, events) = desk.end();
    (status, disks, events)
}

/// Writes the keys of a desk.
fn show_desk<D: Disk, O: Sink>(alloc: Global, desk: &mut Desk<D>, out: &mut O) -> Status
    ensures ends { DeskShowEnds D.moment D.leaves D.faults (output_of O.held O.faults out.old) (output_of O.held O.faults out.new) desk.old desk.new result }
{
    let listed = match desk.keys() {
        DeskReply::Keys(listed) => listed,
        DeskReply::OutOfMemory => return Status::OutOfMemory,
        DeskReply::Granted(grant) => {
            desk.settle(grant, Outcome::Dropped);
            unreachable!()
        }
        DeskReply::Active
        | DeskReply::Already
        | DeskReply::Noted
        | DeskReply::Settled
        | DeskReply::CloseBegun
        | DeskReply::AlreadyClosing
        | DeskReply::Unknown
        | DeskReply::NotActive
        | DeskReply::Closing
        | DeskReply::LastGeneration
        | DeskReply::Disk => unreachable!(),
        DeskReply::Merged { keys: _ } => unreachable!(),
        DeskReply::GenesisDiffers { kept: _, given: _ } => unreachable!(),
        DeskReply::Live { epoch: _ } | DeskReply::Busy { grants: _ } => unreachable!(),
        DeskReply::Watching { .. } | DeskReply::Compacted { .. } => unreachable!(),
        DeskReply::TooManyKeys { have: _, new: _ } => unreachable!(),
        DeskReply::Full { size: _, wanted: _ } => unreachable!(),
        DeskReply::Closed(_) => unreachable!(),
        DeskReply::Exported(_) => unreachable!(),
        DeskReply::Pruned(_) | DeskReply::Recorded | DeskReply::Unfit => unreachable!(),
        DeskReply::HasFailed(_) | DeskReply::NotClosing(_) => unreachable!(),
        DeskReply::Size { size: _, weight: _ } => unreachable!(),
        DeskReply::Refused(_) => unreachable!(),
    };
    match show_keys(alloc, desk, listed.as_slice(), out) {
        Ok(()) => Status::Done,
        Err(Unshown::Memory) => Status::OutOfMemory,
        Err(Unshown::Write) => Status::WriteFault,
    }
}

/// Writes the lines of these keys by how they stand.
fn show_keys<D: Disk, O: Sink>(
    alloc: Global,
    desk: &Desk<D>,
    listed: &[(PubKey, KeyStanding)],
    out: &mut O,
) -> Result<(), Unshown>
    ensures shown { OnOk result (Appends (O.held out.old) (O.held out.new) (listed_text desk.now.contents.keys listed.now)) }
    ensures part { OnErr result ((n : ℕ) × Appends (O.held out.old) (O.held out.new) (take n (listed_text desk.now.contents.keys listed.now))) }
    ensures write { result ≡ Err Unshown.Write → Rose (O.faults out.old) (O.faults out.new) }
    ensures later { O.faults out.old ≤ O.faults out.new }
{
    'keys: for one in listed {
        show_key(alloc, desk, &one.0, one.1.state(), out)?;
    }
    Ok(())
}

/// Writes the line of what is kept of a key.
fn show_key<D: Disk, O: Sink>(
    alloc: Global,
    desk: &Desk<D>,
    key: &PubKey,
    state: KeyState,
    out: &mut O,
) -> Result<(), Unshown>
    ensures shown { OnOk result (Appends (O.held out.old) (O.held out.new) (kept_text key.now state (kept_of desk.now.contents.keys key.now))) }
    ensures part { OnErr result ((n : ℕ) × (n ≤ length (kept_text key.now state (kept_of desk.now.contents.keys key.now)))
        × Appends (O.held out.old) (O.held out.new) (take n (kept_text key.now state (kept_of desk.now.contents.keys key.now)))) }
    ensures write { result ≡ Err Unshown.Write → Rose (O.faults out.old) (O.faults out.new) }
    ensures later { O.faults out.old ≤ O.faults out.new }
{
    let Some(kept) = desk.kept(key) else {
        return Ok(());
    };
    let Ok(text) = key_line(alloc, key, state, kept) else {
        return Err(Unshown::Memory);
    };
    match write_all(out, text.as_bytes()) {
        Ok(()) => Ok(()),
        Err(Failed) => Err(Unshown::Write),
    }
}
