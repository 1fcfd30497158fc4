//! The calls of the desk, one by one.
ghost use Rattle.std.specs.Prelude.{◌≡◌, ◌≤◌, Contains, is_some};
ghost use Rattle.record_join.specs.BooksPasts.{EachOnce};
ghost use Rattle.desk_machine.specs.Machine.{moment_limit};
ghost use Rattle.record_journal.specs.Journals.{journal_size};
ghost use Rattle.check_sign.specs.Calls.{IsCallOf};

use crate::desk::Desk;
use desk_machine::{DeskCall, DeskReply, Grant, Keys, Outcome, Proposals};
use edge_kit::{Disk, PubKey};
use slash_defs::{File, Message};

impl<D: Disk> Desk<D> {
    /// Merges a file, and keeps each of its keys. Refused by `Disk` where the disk failed, by `GenesisDiffers`
    /// exactly where the file is of another chain, by `TooManyKeys` exactly where more than 65,536 keys would be
    /// kept, and by `OutOfMemory`, `Full` and `Disk` in this order.
    pub fn merge(&mut self, file: File) -> DeskReply
        requires { EachOnce file.books }
        ensures { IsCallOf D.moment D.leaves D.faults self.old self.new (DeskCall.Merge file) result }
    {
        self.call(DeskCall::Merge { file })
    }

    /// Makes a key active at an epoch: `Active`, or `Already` where it was. Refused by `Disk` where the disk
    /// failed, by `Closing`, by `TooManyKeys` exactly where 65,536 keys are kept and this is another, and by
    /// `OutOfMemory`, `Full` and `Disk` in this order.
    pub fn activate(&mut self, key: PubKey, now: u64) -> DeskReply
        requires { now ≤ moment_limit }
        ensures { IsCallOf D.moment D.leaves D.faults self.old self.new (DeskCall.Activate key now) result }
    {
        self.call(DeskCall::Activate { key, now })
    }

    /// Grants a proposal exactly where the key is active, its watch allows it and its past lets it pass, once the
    /// message is on the disk; a repeat writes nothing. Refused by `Disk` where the disk failed, by `Unknown`
    /// exactly where no past is kept, by `NotActive` and `Closing` exactly in these states, by `Live` and
    /// `Watching` as the key's watch stands, by the first verdict that holds, and by `OutOfMemory`, `Full` and
    /// `Disk` in this order. The grant has to be spent by `settle`.
    pub fn propose(&mut self, key: PubKey, message: Message, now: u64) -> DeskReply
        requires { now ≤ moment_limit }
        ensures { IsCallOf D.moment D.leaves D.faults self.old self.new (DeskCall.Propose key message now) result }
    {
        self.call(DeskCall::Propose { key, message, now })
    }

    /// Keeps messages of different keys by one batch and without a grant, exactly where each key is active, its
    /// watch allows it, and its past lets the message pass and does not have it yet. A proposal of any of them is a
    /// repeat after that, and writes nothing. Refused by `Disk` where the disk failed, by `Unfit`, and by
    /// `OutOfMemory`, `Full` and `Disk`; a torn write leaves all of them or none.
    pub fn record(&mut self, proposals: Proposals, now: u64) -> DeskReply
        requires once { EachOnce proposals }
        requires now { now ≤ moment_limit }
        ensures { IsCallOf D.moment D.leaves D.faults self.old self.new (DeskCall.Record proposals now) result }
    {
        self.call(DeskCall::Record { proposals, now })
    }

    /// Grants leave to sign what is no block and no vote, exactly where the key is active and its watch allows it.
    /// Nothing is recorded. Refused by `Disk` where the disk failed, by `Unknown`, `NotActive`, `Closing`, `Live`
    /// and `Watching` as a proposal is, and by `OutOfMemory`. The grant has to be spent by `settle`.
    pub fn allow(&mut self, key: PubKey, now: u64) -> DeskReply
        requires { now ≤ moment_limit }
        ensures { IsCallOf D.moment D.leaves D.faults self.old self.new (DeskCall.Allow key now) result }
    {
        self.call(DeskCall::Allow { key, now })
    }

    /// Takes in what beacon nodes tell of a key that is active or being closed: whether it was seen live in an
    /// epoch. Refused by `Unknown` exactly where no past is kept, by `NotActive`, and by `OutOfMemory`.
    pub fn answer(&mut self, key: PubKey, epoch: u64, live: bool, now: u64) -> DeskReply
        requires { now ≤ moment_limit }
        ensures { IsCallOf D.moment D.leaves D.faults self.old self.new (DeskCall.Answer key epoch live now) result }
    {
        self.call(DeskCall::Answer {
            key,
            epoch,
            live,
            now,
        })
    }

    /// Spends a grant that is open at this desk: `Sent` wherever sending was begun, else `Dropped`. Takes no
    /// memory.
    pub fn settle(&mut self, grant: Grant, outcome: Outcome)
        requires { Contains self.old.contents.grants grant }
        ensures { IsCallOf D.moment D.leaves D.faults self.old self.new (DeskCall.Settle grant outcome) DeskReply.Settled }
    {
        self.settle_grant(grant, outcome);
    }

    /// Begins to close an active key: no more is granted for it. It is not kept on the disk. Refused by `Unknown`
    /// exactly where no past is kept, and by `NotActive`. Takes no memory.
    pub fn begin_close(&mut self, key: PubKey) -> DeskReply
        ensures { IsCallOf D.moment D.leaves D.faults self.old self.new (DeskCall.BeginClose key) result }
    {
        self.call(DeskCall::BeginClose { key })
    }

    /// Closes a key that is being closed, and gives what is handed over of it. Refused by `Disk` where the disk
    /// failed, by `Unknown`, by `NotClosing` with its state, by `Busy` exactly where grants of the key are open,
    /// and by `OutOfMemory`, `Full` and `Disk` in this order.
    pub fn finish_close(&mut self, key: PubKey) -> DeskReply
        ensures { IsCallOf D.moment D.leaves D.faults self.old self.new (DeskCall.FinishClose key) result }
    {
        self.call(DeskCall::FinishClose { key })
    }

    /// The interchange file (EIP-3076) of those of the keys that are kept, in key order, each once. What it
    /// does not refuse, the key's past lets pass. Refused by `OutOfMemory` alone.
    pub fn export(&mut self, keys: Keys) -> DeskReply
        ensures { IsCallOf D.moment D.leaves D.faults self.old self.new (DeskCall.Export keys) result }
    {
        self.call(DeskCall::Export { keys })
    }

    /// Prunes the record of a key, and gives the book that it gained. No more passes than before. Refused by
    /// `Disk` where the disk failed, by `Unknown` exactly where no past is kept, and by `OutOfMemory`, `Full` and
    /// `Disk` in this order.
    pub fn prune(&mut self, key: PubKey) -> DeskReply
        ensures { IsCallOf D.moment D.leaves D.faults self.old self.new (DeskCall.Prune key) result }
    {
        self.call(DeskCall::Prune { key })
    }

    /// The kept keys in order, each with how it stands. Refused by `OutOfMemory` alone.
    pub fn keys(&mut self) -> DeskReply
        ensures { IsCallOf D.moment D.leaves D.faults self.old self.new (DeskCall.Keys) result }
    {
        self.call(DeskCall::Keys)
    }

    /// Compacts the journal: writes what is kept after the next generation into the file that isn't current, and
    /// makes it current. Tells the sizes in bytes of the file that was current and of the one that is now. At each
    /// moment a stop leaves what is kept. Refused by `Disk` where the disk failed, by `LastGeneration` exactly where
    /// the current file has the generation 2^64 - 1, and by `OutOfMemory`, `Full` with a size of 0 exactly where the
    /// file would have more than 2^40 bytes, and `Disk` in this order.
    pub fn compact(&mut self) -> DeskReply
        ensures { IsCallOf D.moment D.leaves D.faults self.old self.new (DeskCall.Compact) result }
    {
        self.call(DeskCall::Compact)
    }

    /// The size in bytes of the journal's current file, up to and with its closed gate. Takes no memory.
    pub fn size(&self) -> u64
        ensures size { result ≡ self.now.contents.size }
        ensures payloads { result ≡ journal_size self.now.contents.payloads }
    {
        self.journal.size()
    }

    /// Whether the disk has failed since the desk was opened. Takes no memory.
    pub fn failed(&self) -> bool
        ensures { result ≡ is_some self.now.contents.torn }
    {
        self.journal.failed()
    }
}
