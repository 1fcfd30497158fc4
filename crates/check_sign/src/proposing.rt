//! Proposals of active keys.
ghost use Rattle.std.specs.Prelude.{◌≡◌, ◌≤◌, ◌<◌, ◌-◌, ◌^◌, ◌↔◌, List, [], ◌∷◌, None, Some, IsTrue, IsSomeAnd, IfErr, IfOk, OnErr, OnOk, if◌then◌else◌};
ghost use Rattle.edge_kit.specs.declared.bytes.Root.{Root};
ghost use Rattle.protect_record.specs.Parts.{SameParts};
ghost use Rattle.protect_record.specs.Passing.{Passes};
ghost use Rattle.protect_record.specs.Pasts.{Past};
ghost use Rattle.protect_record.specs.Verdicts.{IsVerdict};
ghost use Rattle.protect_record.specs.declared.verdict.Verdict.TheVariants as verdict;
ghost use Rattle.record_join.specs.BooksPasts.{BooksStand, own_grown};
ghost use Rattle.record_join.specs.KeyByKey.{Takes, TakesMessage};
ghost use Rattle.record_join.specs.Keys.{EachKey, kept_of};
ghost use Rattle.record_join.specs.Repeats.{IsKeptIn, repeats};
ghost use Rattle.record_join.specs.Taking.{IsReadyFor};
ghost use Rattle.record_journal.specs.TwoDisks.{EitherRose};
ghost use Rattle.record_replay.specs.Batches.{message_item};
ghost use Rattle.check_sign.specs.Contents.{disks_in};
ghost use Rattle.desk_machine.specs.Machine.{moment_limit};
ghost use Rattle.desk_machine.specs.Written.{proposal_items};
ghost use Rattle.check_sign.specs.Calls.{IsStep, IsOwn, Counted};
ghost use Rattle.check_sign.specs.Refusing.{Forbids, MayForbid, WroteOrTold};
ghost use Rattle.check_sign.specs.Writing.{HoldsJournal, Moved, journal_of};
ghost use Rattle.desk_machine.specs.declared.call.DeskCall.TheVariants as DeskCall;

use crate::desk::Desk;
use crate::writing::{refusal, write_message};
use desk_machine::{DeskReply, OpenGrants};
use desk_parts::{give, make_room};
use edge_kit::{Disk, PubKey};
use record_join::{Books, Judged};
use record_journal::Journal;
use slash_defs::Message;
use std::alloc::Global;

impl<D: Disk> Desk<D> {
    /// Grants a proposal of a key that may sign and whose past lets it pass, once it is on the disk.
    pub(crate) fn propose_message(&mut self, key: PubKey, message: Message, now: u64) -> DeskReply
        requires { now ≤ moment_limit }
        ensures machine { IsStep self.old.contents (DeskCall.Propose key message now) result self.new.contents }
        ensures counted { Counted self.old.contents (DeskCall.Propose key message now) result self.new.contents }
        ensures own { IsOwn self.old.contents (DeskCall.Propose key message now) result self.new.contents }
        ensures rose { result ≡ DeskReply.Disk → self.old.contents.torn ≡ None → EitherRose D.faults (disks_in self.old) (disks_in self.new) }
        ensures moved { Moved D.moment D.leaves D.faults (journal_of self.old) (journal_of self.new) }
    {
        self.latest = self.latest.max(now);
        match self.may_sign(&key) {
            Ok(()) => {}
            Err(bar) => return bar,
        }
        let repeat = match pass_message(&mut self.books, &mut self.grants, &key, &message) {
            Ok(repeat) => repeat,
            Err(bar) => return bar,
        };
        match record_message(
            &mut self.journal,
            self.alloc,
            &mut self.books,
            key,
            &message,
            repeat,
        ) {
            Ok(()) => {}
            Err(told) => return told,
        }
        let latest = self.latest;
        let grant = give(&mut self.events, &mut self.grants, key, message, latest);
        DeskReply::Granted(grant)
    }
}

/// Has the past of a key judge a message, with room for it and for its grant. The `Ok` says whether the past has it
/// already. The `Err` is the first of what forbids it: no past is kept of the key, its past, or want of memory.
fn pass_message(
    books: &mut Books,
    grants: &mut OpenGrants,
    key: &PubKey,
    message: &Message,
) -> Result<bool, DeskReply>
    ensures passes { IfOk result (λ repeat. (pasts : List (PubKey × Past)) → BooksStand books.old pasts → IsSomeAnd (kept_of pasts key.now) (λ past. Passes past message.now × (repeat ≡ repeats past message.now))) }
    ensures by_record { IfOk result (λ repeat. IsSomeAnd (kept_of books.old key.now) (λ parts. IsVerdict parts message.now verdict.Pass × (IsTrue repeat ↔ IsKeptIn parts message.now))) }
    ensures ready { OnOk result (IsReadyFor books.new key.now message.now) }
    ensures forbidden { IfErr result (λ r. (pasts : List (PubKey × Past)) → BooksStand books.old pasts → Forbids pasts key.now message.now r) }
    ensures may_forbid { IfErr result (λ r. MayForbid r) }
    ensures kept { (pasts : List (PubKey × Past)) → BooksStand books.old pasts → BooksStand books.new pasts }
    ensures same { EachKey SameParts books.old books.new }
    ensures grants { grants.new.grants ≡ grants.old.grants }
    ensures next { grants.new.next ≡ grants.old.next }
    ensures room { OnOk result ((grants.new.next < 2 ^ 64 - 1) × (0 < grants.new.room)) }
{
    let has_room = make_room(grants);
    match books.judge(key, message, has_room) {
        Judged::Unknown => Err(DeskReply::Unknown),
        Judged::Refused(verdict) => Err(DeskReply::Refused(verdict)),
        Judged::NoRoom => Err(DeskReply::OutOfMemory),
        Judged::Ready { repeat } => Ok(repeat),
    }
}

/// Has the record of a key take in a message that passed, once it is on the disk. A repeat writes nothing. The `Err`
/// names the fault; the records are then as before.
fn record_message<D: Disk>(
    journal: &mut Journal<D>,
    alloc: Global,
    books: &mut Books,
    key: PubKey,
    message: &Message,
    repeat: bool,
) -> Result<(), DeskReply>
    requires up { journal.old.torn ≡ None }
    requires held { (g : Root) × HoldsJournal D.moment D.leaves g journal.old }
    requires ready { IsReadyFor books.old key message.now }
    ensures wrote { (past : Past) → repeat ≡ repeats past message.now → WroteOrTold D.faults journal.old (proposal_items (Some past) key message.now) journal.new result }
    ensures wrote_own { WroteOrTold D.faults journal.old (if repeat then [] else message_item key message.now ∷ []) journal.new result }
    ensures moved { Moved D.moment D.leaves D.faults journal.old journal.new }
    ensures holds { (g : Root) → HoldsJournal D.moment D.leaves g journal.old → HoldsJournal D.moment D.leaves g journal.new }
    ensures takes { OnOk result (Takes TakesMessage books.old books.new key message.now) }
    ensures stands { OnOk result ((pasts : List (PubKey × Past)) → BooksStand books.old pasts → BooksStand books.new (own_grown pasts key message.now)) }
    ensures kept { OnErr result (books.new ≡ books.old) }
{
    if let Err(fault) = write_message(journal, alloc, key, message, repeat) {
        return Err(refusal(fault));
    }
    books.add(&key, message);
    Ok(())
}
