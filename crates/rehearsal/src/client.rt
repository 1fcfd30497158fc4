//! A client of a rehearsal: a desk over disks in memory, and a signer in memory.
ghost use Rattle.std.specs.Prelude.{◌≡◌, ◌≤◌, ◌+◌, ◌-◌, ◌^◌, ◌++◌, ◌∷◌, [], ℕ, Some, Contains, IsSome, IfOk, OnOk, if◌then◌else◌, length, min, nat_le, option_map};
ghost use Rattle.desk_machine.specs.Machine.{moment_limit};
ghost use Rattle.desk_machine.specs.declared.call.Outcome.TheVariants as outcome;
ghost use Rattle.desk_machine.specs.declared.call.DeskCall.TheVariants as call;
ghost use Rattle.desk_machine.specs.declared.call.DeskReply.TheVariants as reply;
ghost use Rattle.world_law.specs.Worlds.Event.{Call, Send};
ghost use Rattle.rehearsal.specs.Draws.{genesis};
ghost use Rattle.rehearsal.specs.Clients.{Asks, GivesUp, GoesBy, OpensBy, Proposes, Restarts, TakesIn};

use crate::acts::root_at;
use crate::told::{Told, Voted, read};
use check_sign::{Desk, DeskReply, Grant, Outcome};
use edge_kit::{Crash, Disks, Items, MemDisk, PubKey, Root};
use phase0_types::Fork;
use signer_link::{MemSigner, SignReply, SignRequest, Signer};
use slash_defs::{Book, File, Message};
use std::alloc::{AllocError, Global};

/// The number, from 0 on, of the last call that the opening of a desk makes of its first disk, where the journal is begun,
/// by the bytes of the first file: it syncs, asks for the length, and reads; of a file of more than 4,096 bytes it reads
/// the head before.
fn last_opening_call(bytes: usize) -> u64
    ensures { result ≡ (if nat_le bytes 4096 then 2 else 3) }
{
    if bytes <= 4096 { 2 } else { 3 }
}

/// The number of the call at which the first disk stops that is to stop at the call of this number, from 1 on, after the
/// opening of a desk.
fn stop_after(first: &[u8], disk_call: Option<u64>) -> Option<u64>
    ensures { result ≡ option_map (λ n. min (2 ^ 64 - 1) ((if nat_le (length first.now) 4096 then 2 else 3) + n)) disk_call }
{
    match disk_call {
        Some(call) => Some(last_opening_call(first.len()).saturating_add(call)),
        None => None,
    }
}

/// The genesis root of the one chain.
fn genesis() -> Root
    ensures { result ≡ genesis }
{
    root_at(0)
}

/// Opens a desk, at an epoch, over disks of these bytes, of which the first stops at a call.
fn open(
    alloc: Global,
    first: Vec<u8>,
    second: Vec<u8>,
    stop: Option<u64>,
    now: u64,
) -> Result<Desk<MemDisk>, AllocError>
    requires { now ≤ moment_limit }
    ensures { IfOk result (λ desk. OpensBy (first.items, second.items) now desk.contents) }
{
    let disks = Disks {
        first: MemDisk::new(alloc, first, Vec::new(alloc), stop)?,
        second: MemDisk::new(alloc, second, Vec::new(alloc), None)?,
    };
    match Desk::open(alloc, disks, genesis(), false, now) {
        Ok(desk) => Ok(desk),
        Err(_) => Err(AllocError),
    }
}

/// Stops a desk: of the bytes that are not synced the crash makes what it does. Then it is opened again, at an epoch,
/// over disks of which the first stops at the call of this number, from 1 on, after the opening, if one is given. The
/// error is want of memory, also where it ran out at a disk before.
fn restart(
    alloc: Global,
    desk: Desk<MemDisk>,
    crash: Crash,
    disk_call: Option<u64>,
    now: u64,
) -> Result<Desk<MemDisk>, AllocError>
    requires { now ≤ moment_limit }
    ensures { IfOk result (λ new. desk.contents.genesis ≡ genesis → Restarts now desk.contents new.contents) }
{
    let (disks, _events) = desk.end();
    if disks.first.lacks() > 0 || disks.second.lacks() > 0 {
        return Err(AllocError);
    }
    let first = disks.first.image(alloc, crash)?;
    let second = disks.second.image(alloc, crash)?;
    let stop = stop_after(first.as_slice(), disk_call);
    open(alloc, first, second, stop, now)
}

/// A client: its desk, and the service that signs for it.
#[derive(Drop)]
pub(crate) struct Client {
    desk: Desk<MemDisk>,
    signer: MemSigner,
}

impl Client {
    /// A client that has done nothing, at epoch 0.
    pub(crate) fn new(alloc: Global) -> Result<Client, AllocError>
        ensures { IfOk result (λ client. OpensBy ([], []) 0 client.desk.contents) }
    {
        Ok(Client {
            desk: open(alloc, Vec::new(alloc), Vec::new(alloc), None, 0)?,
            signer: MemSigner::new(alloc, Vec::new(alloc), Vec::new(alloc)),
        })
    }

    /// Stops the client, and starts it again, over disks of which the first stops at the call of this number, from 1 on, after
    /// the opening, if one is given.
    pub(crate) fn restart(
        self,
        alloc: Global,
        crash: Crash,
        disk_call: Option<u64>,
        now: u64,
    ) -> Result<Client, AllocError>
        requires { now ≤ moment_limit }
        ensures { IfOk result (λ new. self.desk.contents.genesis ≡ genesis → Restarts now self.desk.contents new.desk.contents) }
    {
        Ok(Client {
            desk: restart(alloc, self.desk, crash, disk_call, now)?,
            signer: self.signer,
        })
    }

    /// Makes a key active.
    pub(crate) fn activate(&mut self, key: PubKey, now: u64) -> Result<(), AllocError>
        requires { now ≤ moment_limit }
        ensures { OnOk result (Asks (call.Activate key now) self.old.desk.contents self.new.desk.contents) }
    {
        let _ = read(self.desk.activate(key, now))?;
        Ok(())
    }

    /// Prunes the record of a key.
    pub(crate) fn prune(&mut self, key: PubKey) -> Result<(), AllocError>
        ensures { OnOk result (Asks (call.Prune key) self.old.desk.contents self.new.desk.contents) }
    {
        let _ = read(self.desk.prune(key))?;
        Ok(())
    }

    /// Proposes a message, and where it is granted has it signed and sends it: it is put after the others.
    pub(crate) fn propose(
        &mut self,
        key: PubKey,
        message: Message,
        now: u64,
        sent: &mut Vec<(PubKey, Message)>,
    ) -> Result<Voted, AllocError>
        requires { now ≤ moment_limit }
        ensures { IfOk result (λ voted. Proposes key message now self.old.desk.contents self.new.desk.contents sent.old.items sent.new.items voted) }
    {
        match self.desk.propose(key, message, now) {
            DeskReply::Granted(grant) => {
                self.send(grant, key, message, sent)?;
                Ok(Voted::Sent)
            }
            DeskReply::Disk => Ok(Voted::Torn),
            reply => {
                let _ = read(reply)?;
                Ok(Voted::Refused)
            }
        }
    }

    /// Has a granted message signed, sends it, and settles the grant.
    fn send(
        &mut self,
        grant: Grant,
        key: PubKey,
        message: Message,
        sent: &mut Vec<(PubKey, Message)>,
    ) -> Result<(), AllocError>
        requires is_open { Contains self.old.desk.contents.grants grant }
        requires key { grant.key ≡ key }
        requires message { grant.message ≡ Some message }
        ensures sent { OnOk result (sent.new.items ≡ sent.old.items ++ (key, message) ∷ []) }
        ensures goes { OnOk result ((client : ℕ) → GoesBy (Send client grant message ∷ Call client (call.Settle grant outcome.Sent) reply.Settled ∷ []) self.old.desk.contents self.new.desk.contents) }
    {
        if self.signs(&grant) && sent.push((key, message)).is_ok() {
            self.desk.settle(grant, Outcome::Sent);
            return Ok(());
        }
        self.desk.settle(grant, Outcome::Dropped);
        Err(AllocError)
    }

    /// Whether the signer gives a signature under a grant.
    fn signs(&mut self, grant: &Grant) -> bool
        requires { IsSome grant.now.message }
        ensures { self.new.desk ≡ self.old.desk }
    {
        let request = SignRequest {
            fork: Fork {
                previous_version: [0; 4],
                current_version: [0; 4],
                epoch: 0,
            },
            genesis: genesis(),
            object: None,
        };
        matches!(self.signer.sign(&request, grant), SignReply::Signed(_))
    }

    /// Closes a key, and hands out its book.
    pub(crate) fn give_up(&mut self, key: PubKey) -> Result<Option<Book>, AllocError>
        ensures { IfOk result (λ given. GivesUp key self.old.desk.contents self.new.desk.contents given) }
    {
        let _ = read(self.desk.begin_close(key))?;
        let Told::Closed(book) = read(self.desk.finish_close(key))? else {
            return Ok(None);
        };
        Ok(Some(book))
    }

    /// Merges a book of a key, and makes the key active.
    pub(crate) fn take_in(
        &mut self,
        alloc: Global,
        key: PubKey,
        book: Book,
        now: u64,
    ) -> Result<(), AllocError>
        requires { now ≤ moment_limit }
        ensures { OnOk result (TakesIn key book now self.old.desk.contents self.new.desk.contents) }
    {
        let mut books = Vec::new(alloc);
        let Ok(()) = books.push((key, book)) else {
            return Err(AllocError);
        };
        let file = File {
            genesis: genesis(),
            books: Items::from_vec(books),
        };
        let Told::Merged = read(self.desk.merge(file))? else {
            return Ok(());
        };
        self.activate(key, now)
    }
}
