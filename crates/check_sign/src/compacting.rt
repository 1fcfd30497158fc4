//! The journal is compacted: what the desk keeps is written into the file that isn't current.
ghost use Rattle.std.specs.Prelude.{◌≡◌, ◌<◌, ◌≤◌, ◌++◌, List, None, IsSome, length, map, IfErr, IfOk, OnOk};
ghost use Rattle.journal_frames.specs.Frames.{generation_of};
ghost use Rattle.desk_machine.specs.Machine.{last_generation};
ghost use Rattle.std.specs.List.{AllByRecursion};
ghost use Rattle.record_codec.specs.Spelling.{IsBatch, IsOf};
ghost use Rattle.record_codec.specs.declared.version.JournalVersion.TheVariants.{One};
ghost use Rattle.record_codec.specs.declared.item.JournalItem.{JournalItem};
ghost use Rattle.record_journal.specs.TwoDisks.{EitherRose};
ghost use Rattle.check_sign.specs.Contents.{disks_in};
ghost use Rattle.check_sign.specs.Calls.{IsOwn, IsStep, Counted, WritesOne};
ghost use Rattle.check_sign.specs.DeskBatches.{AreSpelled, desk_batches};
ghost use Rattle.check_sign.specs.Writing.{KeepsJournal, journal_of};
ghost use Rattle.desk_machine.specs.declared.call.DeskCall.TheVariants as DeskCall;

use crate::desk::Desk;
use crate::marking::state_of;
use desk_machine::{DeskReply, Event};
use desk_parts::note;
use edge_kit::{Disk, PubKey};
use journal_frames::journal_law;
use key_snapshot::{batches_law, snapshot_batches};
use record_codec::{JournalItem, encode};
use record_join::Books;
use record_journal::{CompactFault, pair_law};
use record_replay::KeyState;
use std::alloc::{AllocError, Global};
use std::collections::BTreeMap;

impl<D: Disk> Desk<D> {
    /// Writes what is kept after the next generation into the file that isn't current, and makes it current.
    pub(crate) fn compact_journal(&mut self) -> DeskReply
        ensures machine { IsStep self.old.contents (DeskCall.Compact) result self.new.contents }
        ensures counted { Counted self.old.contents (DeskCall.Compact) result self.new.contents }
        ensures own { IsOwn self.old.contents (DeskCall.Compact) result self.new.contents }
        ensures rose { result ≡ DeskReply.Disk → self.old.contents.torn ≡ None → EitherRose D.faults (disks_in self.old) (disks_in self.new) }
        ensures keeps { KeepsJournal D.moment D.leaves D.faults (journal_of self.old) (journal_of self.new) }
        ensures disks { WritesOne (DeskCall.Compact) result self.old self.new }
    {
        pair_law();
        match self.may_compact() {
            Ok(()) => {}
            Err(bar) => return bar,
        }
        let Ok(snapshot) = snapshot_payloads(self.alloc, &self.books, &self.states) else {
            return DeskReply::OutOfMemory;
        };
        match self.journal.compact(self.alloc, snapshot) {
            Ok((before, after)) => {
                note(
                    &mut self.events,
                    Event::Compacted { before, after },
                    self.latest,
                );
                DeskReply::Compacted { before, after }
            }
            Err(CompactFault::Disk) => DeskReply::Disk,
            Err(CompactFault::LastGeneration) => DeskReply::LastGeneration,
            Err(CompactFault::OutOfMemory) => DeskReply::OutOfMemory,
            Err(CompactFault::Full { size, wanted }) => DeskReply::Full { size, wanted },
        }
    }

    /// Whether the journal may be compacted. The `Err` is the first of what bars it: the disk failed, or the
    /// generation is the last.
    fn may_compact(&self) -> Result<(), DeskReply>
        ensures machine { IfErr result (λ r. IsStep self.now.contents (DeskCall.Compact) r self.now.contents) }
        ensures counted { IfErr result (λ r. Counted self.now.contents (DeskCall.Compact) r self.now.contents) }
        ensures own { IfErr result (λ r. IsOwn self.now.contents (DeskCall.Compact) r self.now.contents) }
        ensures disks { IfErr result (λ r. WritesOne (DeskCall.Compact) r self.now self.now) }
        ensures failed { IfErr result (λ r. r ≡ DeskReply.Disk → IsSome self.now.contents.torn) }
        ensures up { OnOk result (self.now.contents.torn ≡ None) }
        ensures less { OnOk result (generation_of self.now.contents.payloads < last_generation) }
    {
        if self.journal.failed() {
            return Err(DeskReply::Disk);
        }
        if self.journal.generation() == u64::MAX {
            return Err(DeskReply::LastGeneration);
        }
        Ok(())
    }
}

/// The payloads that bring back each kept key, in key order.
fn snapshot_payloads(
    alloc: Global,
    books: &Books,
    states: &BTreeMap<PubKey, KeyState>,
) -> Result<Vec<Vec<u8>>, AllocError>
    ensures { IfOk result (λ payloads. AreSpelled (map (λ v. v.items) payloads.items) (desk_batches states.now.entries books.now)) }
{
    batches_law();
    let mut payloads = Vec::new(alloc);
    'keys: for (key, record) in books.iter() {
        let batches = snapshot_batches(alloc, key, state_of(states, key), record)?;
        push_spelled(&mut payloads, alloc, &batches)?;
    }
    Ok(payloads)
}

/// Adds the payload of each batch.
fn push_spelled(
    payloads: &mut Vec<Vec<u8>>,
    alloc: Global,
    batches: &[Vec<JournalItem>],
) -> Result<(), AllocError>
    requires batches { AllByRecursion IsBatch (map (λ v. v.items) batches.now) }
    requires versions { AllByRecursion (AllByRecursion (IsOf One)) (map (λ v. v.items) batches.now) }
    requires short { AllByRecursion (λ batch. length batch ≤ 4096) (map (λ v. v.items) batches.now) }
    ensures { OnOk result ((before : List (List JournalItem)) → AreSpelled (map (λ v. v.items) payloads.old.items) before
        → AreSpelled (map (λ v. v.items) payloads.new.items) (before ++ map (λ v. v.items) batches.now)) }
{
    journal_law();
    'batches: for batch in batches {
        let payload = encode(alloc, batch)?;
        payloads.push(payload)?;
    }
    Ok(())
}
