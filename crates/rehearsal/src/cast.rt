//! Several clients beside one another.
ghost use Rattle.std.specs.Prelude.{◌≡◌, ◌≤◌, ◌<◌, ◌^◌, ℕ, [], length, IfOk, OnOk};
ghost use Rattle.edge_kit.specs.declared.bytes.PubKey.{PubKey};
ghost use Rattle.desk_machine.specs.Machine.{moment_limit};
ghost use Rattle.desk_machine.specs.declared.call.DeskCall.TheVariants as call;
ghost use Rattle.rehearsal.specs.Stages.{Calls, PlaysAt, Restarted, Stands, Votes};
ghost use Rattle.rehearsal.specs.Rehearsals.{empty};
ghost use Rattle.rehearsal.specs.declared.acts.Act.TheVariants as Act;

use crate::acts::Act;
use crate::client::Client;
use crate::told::Voted;
use edge_kit::{Crash, PubKey};
use slash_defs::Message;
use std::alloc::{AllocError, Global};

/// The clients, and what they sent, in order.
#[derive(Drop)]
pub(crate) struct Cast {
    pub(crate) alloc: Global,
    pub(crate) clients: Vec<Client>,
    pub(crate) sent: Vec<(PubKey, Message)>,
    pub(crate) refused: u64,
}

impl Cast {
    /// So many clients that have done nothing.
    pub(crate) fn new(alloc: Global, count: u64) -> Result<Cast, AllocError>
        ensures count { IfOk result (λ cast. length cast.clients.items ≡ count) }
        ensures stands { IfOk result (λ cast. Stands cast.clients.items empty) }
        ensures none { IfOk result (λ cast. (cast.sent.items ≡ []) × (cast.refused ≡ 0)) }
    {
        let mut clients = Vec::new(alloc);
        'clients: for _made in 0..count {
            let client = Client::new(alloc)?;
            if clients.push(client).is_err() {
                return Err(AllocError);
            }
        }
        Ok(Cast {
            alloc,
            clients,
            sent: Vec::new(alloc),
            refused: 0,
        })
    }

    /// Makes a key active at a client.
    pub(crate) fn activate(
        &mut self,
        client: usize,
        key: PubKey,
        now: u64,
    ) -> Result<(), AllocError>
        requires client { client < length self.old.clients.items }
        requires moment { now ≤ moment_limit }
        ensures { OnOk result (Calls self.old self.new client (call.Activate key now)) }
    {
        self.clients[client].activate(key, now)
    }

    /// Proposes a message of a key at a client.
    fn vote(
        &mut self,
        client: usize,
        key: PubKey,
        message: Message,
        now: u64,
    ) -> Result<Voted, AllocError>
        requires client { client < length self.old.clients.items }
        requires moment { now ≤ moment_limit }
        requires room { self.old.refused < 2 ^ 32 }
        ensures { IfOk result (λ voted. Votes self.old self.new client key message now voted) }
    {
        let voted = self.clients[client].propose(key, message, now, &mut self.sent)?;
        self.refused += voted.refusals();
        Ok(voted)
    }

    /// Stops a client, and starts it again, over disks of which the first stops at the call of this number, from 1 on, after the
    /// opening, if one is given.
    fn restart(
        &mut self,
        client: usize,
        crash: Crash,
        disk_call: Option<u64>,
        now: u64,
    ) -> Result<(), AllocError>
        requires client { client < length self.old.clients.items }
        requires moment { now ≤ moment_limit }
        ensures { OnOk result (Restarted self.old self.new client now) }
    {
        let started = self
            .clients
            .remove(client)
            .restart(self.alloc, crash, disk_call, now)?;
        if self.clients.insert(client, started).is_err() {
            return Err(AllocError);
        }
        Ok(())
    }

    /// Does an act with a key at the client that has it, and tells which client has it afterwards.
    pub(crate) fn play(
        &mut self,
        client: usize,
        key: PubKey,
        act: Act,
        now: u64,
    ) -> Result<usize, AllocError>
        requires client { client < length self.old.clients.items }
        requires moment { now ≤ moment_limit }
        requires room { self.old.refused < 2 ^ 32 }
        requires to { (to : _) → act ≡ Act.HandOver to → to < length self.old.clients.items }
        requires disk { (m : _) (disk_call : _) (crash : _) → act ≡ Act.StopWithin m disk_call crash → disk_call < 2 ^ 32 }
        ensures { IfOk result (λ holder. PlaysAt self.old self.new client key now act holder) }
    {
        match act {
            Act::Propose(message) => self.propose(client, key, message, now),
            Act::HandOver { to } => self.hand_over(client, key, to as usize, now),
            Act::Stop => self.stop(client, now),
            Act::StopWithin {
                message,
                disk_call,
                crash,
            } => self.stop_within(client, key, now, message, disk_call, crash),
            Act::Prune => self.prune(client, key),
        }
    }

    /// A block or a vote is proposed.
    fn propose(
        &mut self,
        client: usize,
        key: PubKey,
        message: Message,
        now: u64,
    ) -> Result<usize, AllocError>
        requires client { client < length self.old.clients.items }
        requires moment { now ≤ moment_limit }
        requires room { self.old.refused < 2 ^ 32 }
        ensures { IfOk result (λ holder. PlaysAt self.old self.new client key now (Act.Propose message) holder) }
    {
        match self.vote(client, key, message, now)? {
            Voted::Sent => Ok(client),
            Voted::Refused => Ok(client),
            Voted::Torn => Err(AllocError),
        }
    }

    /// The key is closed, and handed over to a client.
    fn hand_over(
        &mut self,
        client: usize,
        key: PubKey,
        to: usize,
        now: u64,
    ) -> Result<usize, AllocError>
        requires client { client < length self.old.clients.items }
        requires to { to < length self.old.clients.items }
        requires moment { now ≤ moment_limit }
        ensures { IfOk result (λ holder. PlaysAt self.old self.new client key now (Act.HandOver to) holder) }
    {
        let Some(book) = self.clients[client].give_up(key)? else {
            return Ok(client);
        };
        self.clients[to].take_in(self.alloc, key, book, now)?;
        Ok(to)
    }

    /// The client stops between calls of its desk, and starts again.
    fn stop(&mut self, client: usize, now: u64) -> Result<usize, AllocError>
        requires client { client < length self.old.clients.items }
        requires moment { now ≤ moment_limit }
        ensures { IfOk result (λ holder. (key : PubKey) → PlaysAt self.old self.new client key now Act.Stop holder) }
    {
        self.restart(client, Crash::Before, None, now)?;
        Ok(client)
    }

    /// The client stops in the proposal of a message, at a call of its disk.
    fn stop_within(
        &mut self,
        client: usize,
        key: PubKey,
        now: u64,
        message: Message,
        disk_call: u64,
        crash: Crash,
    ) -> Result<usize, AllocError>
        requires client { client < length self.old.clients.items }
        requires moment { now ≤ moment_limit }
        requires room { self.old.refused < 2 ^ 32 }
        requires disk { disk_call < 2 ^ 32 }
        ensures { IfOk result (λ holder. PlaysAt self.old self.new client key now (Act.StopWithin message disk_call crash) holder) }
    {
        self.restart(client, Crash::Before, Some(disk_call), now)?;
        let _voted = self.vote(client, key, message, now)?;
        self.restart(client, crash, None, now)?;
        Ok(client)
    }

    /// The record of the key is pruned.
    fn prune(&mut self, client: usize, key: PubKey) -> Result<usize, AllocError>
        requires client { client < length self.old.clients.items }
        ensures { IfOk result (λ holder. (now : ℕ) → PlaysAt self.old self.new client key now Act.Prune holder) }
    {
        self.clients[client].prune(key)?;
        Ok(client)
    }
}
