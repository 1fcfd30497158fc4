//! The opening of a desk.
ghost use Rattle.std.specs.Prelude.{◌≡◌, ◌≤◌, IfOk, IfErr};
ghost use Rattle.desk_machine.specs.Machine.{moment_limit};
ghost use Rattle.check_sign.specs.Opening.{Opening, OpeningRefused, open_fault_of};

use crate::desk::Desk;
use desk_machine::{Events, OpenGrants, Watches};
use edge_kit::{Disk, Disks, Root};
use record_codec::JournalVersion;
use record_journal::Journal;
use record_replay::{ReplayFault, Replayed, replay};
use std::alloc::Global;

/// Why a desk is not opened.
#[derive(Clone, Copy, PartialEq, Eq, Debug)]
pub enum OpenFault {
    /// The journal's own.
    Journal(record_journal::OpenFault),
    /// The journal names more than 65,536 keys: none is kept, and that many would be.
    TooManyKeys {
        /// How many keys are kept: none.
        have: u64,
        /// How many different keys the journal names.
        new: u64,
    },
}

impl<D: Disk> Desk<D> {
    /// Opens the desk of a journal over two disks, for the chain with this root of genesis validators, at an
    /// epoch. A journal is begun on the first disk where there is none. A key that was being closed is active again, and no
    /// grant is open. Where `watch` is true, keys are watched before they sign: each active key from this epoch
    /// on, as one that becomes active later is from then on. An `Err` gives the disks back.
    ///
    /// # Errors
    ///
    /// The journal's own (`Disk` only where a disk's count of faults rose in this call), and `TooManyKeys`
    /// exactly where the journal names more than 65,536 keys.
    pub fn open(
        alloc: Global,
        disks: Disks<D>,
        genesis: Root,
        watch: bool,
        now: u64,
    ) -> Result<Desk<D>, (OpenFault, Disks<D>)>
        requires moment { now ≤ moment_limit }
        ensures opened { IfOk result (λ d. Opening D.shows D.moment D.leaves D.faults disks genesis watch now d) }
        ensures refused { IfErr result (λ e. OpeningRefused D.shows D.moment D.leaves D.faults disks genesis e.0 e.1) }
    {
        let (journal, reader) = match Journal::open(alloc, disks, genesis) {
            Ok(opened) => opened,
            Err((fault, disks)) => return Err((OpenFault::Journal(fault), disks)),
        };
        let Replayed {
            books,
            states,
            watches: _,
        } = match replay(alloc, JournalVersion::One, reader) {
            Ok(replayed) => replayed,
            Err(fault) => {
                let disks = journal.end();
                return Err((replay_fault(fault), disks));
            }
        };
        Ok(Desk {
            alloc,
            genesis,
            watches: Watches::new(alloc, watch, now),
            journal,
            books,
            states,
            grants: OpenGrants::new(alloc),
            latest: now,
            events: Events::new(),
        })
    }
}

/// The fault of opening where the payloads are not replayed.
fn replay_fault(fault: ReplayFault) -> OpenFault
    ensures { result ≡ open_fault_of fault }
{
    match fault {
        ReplayFault::TooManyKeys { have, new } => OpenFault::TooManyKeys { have, new },
        ReplayFault::OutOfMemory => OpenFault::Journal(record_journal::OpenFault::OutOfMemory),
    }
}
