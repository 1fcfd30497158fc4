//! Messages of several keys that are kept by one batch.
ghost use Rattle.std.specs.Prelude.{◌≡◌, ◌≤◌, List, Contains, None, Ok, IfErr, IfOk, OnErr, OnOk};
ghost use Rattle.edge_kit.specs.declared.bytes.PubKey.{PubKey};
ghost use Rattle.edge_kit.specs.declared.bytes.Root.{Root};
ghost use Rattle.slash_defs.specs.declared.message.Message.{Message};
ghost use Rattle.protect_record.specs.Pasts.{Past};
ghost use Rattle.record_join.specs.BooksPasts.{AreNew, BooksStand, EachOnce, with_messages};
ghost use Rattle.record_join.specs.Taking.{AreNewIn};
ghost use Rattle.record_journal.specs.TwoDisks.{EitherRose};
ghost use Rattle.record_replay.specs.Batches.{message_items};
ghost use Rattle.desk_machine.specs.Machine.{IsUp, MaySign, moment_limit};
ghost use Rattle.desk_machine.specs.States.{State};
ghost use Rattle.check_sign.specs.Calls.{AreTakenIn, IsOwn, IsStep, Counted, MaySignHere};
ghost use Rattle.check_sign.specs.Contents.{disks_in};
ghost use Rattle.check_sign.specs.Refusing.{BarsOne, IsUnable, IsUnkept};
ghost use Rattle.check_sign.specs.Standing.{DeskStands};
ghost use Rattle.check_sign.specs.Writing.{HoldsJournal, Moved, Wrote, journal_of};
ghost use Rattle.desk_machine.specs.declared.call.DeskCall.TheVariants as DeskCall;

use crate::desk::Desk;
use crate::writing::{refusal, write_messages};
use desk_machine::{DeskReply, Proposals};
use desk_parts::note_record;
use edge_kit::Disk;
use record_join::{Books, JudgedAll};
use record_journal::Journal;
use std::alloc::Global;

impl<D: Disk> Desk<D> {
    /// Keeps messages of keys that may sign, each of which its key's past lets pass and does not have yet, once they are
    /// on the disk.
    pub(crate) fn record_messages(&mut self, proposals: Proposals, now: u64) -> DeskReply
        requires once { EachOnce proposals }
        requires now { now ≤ moment_limit }
        ensures machine { IsStep self.old.contents (DeskCall.Record proposals now) result self.new.contents }
        ensures counted { Counted self.old.contents (DeskCall.Record proposals now) result self.new.contents }
        ensures own { IsOwn self.old.contents (DeskCall.Record proposals now) result self.new.contents }
        ensures rose { result ≡ DeskReply.Disk → self.old.contents.torn ≡ None → EitherRose D.faults (disks_in self.old) (disks_in self.new) }
        ensures moved { Moved D.moment D.leaves D.faults (journal_of self.old) (journal_of self.new) }
    {
        self.latest = self.latest.max(now);
        match self.may_sign_all(&proposals) {
            Ok(()) => {}
            Err(bar) => return bar,
        }
        match keep_messages(&mut self.journal, self.alloc, &mut self.books, &proposals) {
            Ok(()) => {}
            Err(told) => return told,
        }
        note_record(&mut self.events, proposals, self.latest);
        DeskReply::Recorded
    }

    /// Whether each of these keys may sign now. The `Err` says that the disk failed, or that one of them may not.
    fn may_sign_all(&self, proposals: &Proposals) -> Result<(), DeskReply>
        ensures may { IfOk result (λ _. (state : State) → DeskStands self.now.contents state → IsUp state × ((one : PubKey × Message) → Contains proposals.now one → MaySign state one.0)) }
        ensures own { OnOk result ((one : PubKey × Message) → Contains proposals.now one → MaySignHere self.now.contents one.0) }
        ensures up { OnOk result (self.now.contents.torn ≡ None) }
        ensures barred { IfErr result (λ r. (state : State) → DeskStands self.now.contents state → BarsOne state proposals.now r) }
        ensures bar { IfErr result (λ r. IsUnable self.now.contents.torn r) }
    {
        if self.journal.failed() {
            return Err(DeskReply::Disk);
        }
        'keys: for one in proposals.as_slice() {
            let Ok(()) = self.is_free(&one.0) else {
                return Err(DeskReply::Unfit);
            };
        }
        Ok(())
    }
}

/// Takes messages of different keys in, once they are on the disk. The `Err` says why not; the records then keep what
/// they kept.
fn keep_messages<D: Disk>(
    journal: &mut Journal<D>,
    alloc: Global,
    books: &mut Books,
    proposals: &Proposals,
) -> Result<(), DeskReply>
    requires once { EachOnce proposals.now }
    requires up { journal.old.torn ≡ None }
    requires held { (g : Root) × HoldsJournal D.moment D.leaves g journal.old }
    ensures wrote { OnOk result (Wrote D.faults journal.old (message_items proposals.now) journal.new (Ok tt)) }
    ensures own { OnOk result (AreNewIn books.old proposals.now) }
    ensures taken_in { OnOk result (AreTakenIn books.old proposals.now books.new) }
    ensures new { OnOk result ((pasts : List (PubKey × Past)) → BooksStand books.old pasts → AreNew pasts proposals.now) }
    ensures taken { OnOk result ((pasts : List (PubKey × Past)) → BooksStand books.old pasts → BooksStand books.new (with_messages pasts proposals.now)) }
    ensures unkept { IfErr result (IsUnkept D.faults journal.old books.old proposals.now journal.new) }
    ensures stands { OnErr result ((pasts : List (PubKey × Past)) → BooksStand books.old pasts → BooksStand books.new pasts) }
    ensures moved { Moved D.moment D.leaves D.faults journal.old journal.new }
    ensures holds { (g : Root) → HoldsJournal D.moment D.leaves g journal.old → HoldsJournal D.moment D.leaves g journal.new }
{
    let listed = proposals.as_slice();
    match books.judge_all(listed) {
        JudgedAll::Ready => {}
        JudgedAll::Unfit => return Err(DeskReply::Unfit),
        JudgedAll::NoRoom => return Err(DeskReply::OutOfMemory),
    }
    if let Err(fault) = write_messages(journal, alloc, listed) {
        return Err(refusal(fault));
    }
    books.add_all(listed);
    Ok(())
}
