//! A two-way stream in memory, which tells what its peer says and what was sent, and fails where it is told to.
ghost use Rattle.std.specs.Prelude.{◌≡◌, ◌++◌, ◌<◌, ◌≤◌, ◌-◌, Some, [], IfOk, OnOk, OnErr, is_ok, length, min, map, vec_len, vec_capacity};

use crate::calls::Calls;
use crate::link::Link;
use crate::traits::Failed;
use std::alloc::{AllocError, Global};

/// A stream whose peer says these bytes over each connection, in order, with room for so many bytes sent.
/// It fails at the calls that its list names (from 0), and where a piece that isn't empty finds no room
/// left, and counts it. Past the last connection the peer says nothing.
#[derive(Drop)]
pub struct MemLink {
    conversations: Vec<Vec<u8>>,
    current: Vec<u8>,
    at: usize,
    sent: Vec<u8>,
    room: usize,
    calls: Calls,
    ghost held_within: { vec_len sent ≤ room },
    ghost reserved: { room ≤ vec_capacity sent },
}

impl MemLink {
    ghost use Rattle.edge_kit.specs.Calls.{AreNew};
    ghost use Rattle.edge_kit.specs.OnMemLinks.{link_left, link_coming, link_held, whole_room, link_calls};

    /// A stream that is not yet connected. Its peer says these bytes over each connection, in order; it has
    /// room for so many bytes sent; its calls of these numbers (from 0) fail.
    pub fn new(
        alloc: Global,
        conversations: Vec<Vec<u8>>,
        room: usize,
        failing: Vec<u64>,
    ) -> Result<Self, AllocError>
        ensures left { IfOk result (λ s. link_left s ≡ []) }
        ensures coming { IfOk result (λ s. link_coming s ≡ map (λ v. v.items) conversations.items) }
        ensures held { IfOk result (λ s. link_held s ≡ []) }
        ensures room { IfOk result (λ s. whole_room s ≡ room) }
        ensures calls { IfOk result (λ s. AreNew (link_calls s) failing.items) }
    {
        Ok(MemLink {
            conversations,
            current: Vec::new(alloc),
            at: 0,
            sent: Vec::with_capacity(alloc, room)?,
            room,
            calls: Calls::new(failing),
        })
    }

    /// The bytes that were sent.
    pub fn into_sent(self) -> Vec<u8>
        ensures { result.items ≡ link_held self }
    {
        self.sent
    }
}

impl Link for MemLink {
    ghost use Rattle.std.specs.Io.{ReadsAtMost, WritesAtMost};
    ghost use Rattle.std.specs.Io.KnownBytes.{ReadConsumes, WriteAppends};
    ghost use Rattle.edge_kit.specs.Calls.{AreNew};
    ghost use Rattle.edge_kit.specs.Links.{Stays, Begins};
    ghost use Rattle.edge_kit.specs.OnMemLinks.{link_left, link_coming, link_held, link_room, link_works, send_works, whole_room, link_calls, HoldsSame, IsCalled};

    ghost left = { λ s. Some (link_left s) };

    ghost coming = { λ s. Some (link_coming s) };

    ghost held = { λ s. Some (link_held s) };

    ghost faults = { λ s. s.calls.faults };

    fn connect(&mut self) -> Result<(), Failed>
        ensures opens { OnOk result (Begins (link_coming self.old) (link_left self.new) (link_coming self.new)) }
        ensures held { Stays (Some (link_held self.old)) (Some (link_held self.new)) }
        ensures same { OnErr result (HoldsSame self.old self.new) }
        ensures works { is_ok result ≡ link_works self.old }
        ensures called { IsCalled self.old self.new result }
    {
        if self.calls.begin() {
            return Err(self.calls.fail());
        }
        self.at = 0;
        if self.conversations.is_empty() {
            self.current.clear();
        } else {
            self.current = self.conversations.remove(0);
        }
        Ok(())
    }

    fn send(&mut self, piece: &[u8]) -> Result<usize, Failed>
        ensures bound { WritesAtMost result piece.now }
        ensures some { IfOk result (λ n. 0 < length piece.now → 0 < n) }
        ensures bytes { WriteAppends (Some (link_held self.old)) (Some (link_held self.new)) result piece.now }
        ensures left { Stays (Some (link_left self.old)) (Some (link_left self.new)) }
        ensures coming { Stays (Some (link_coming self.old)) (Some (link_coming self.new)) }
        ensures full { IfOk result (λ n. n ≡ min (length piece.now) (link_room self.old)) }
        ensures works { is_ok result ≡ send_works self.old (length piece.now) }
        ensures called { IsCalled self.old self.new result }
    {
        if self.calls.begin() {
            return Err(self.calls.fail());
        }
        let count = piece.len().min(self.room - self.sent.len());
        if count == 0 && !piece.is_empty() {
            return Err(self.calls.fail());
        }
        let _ = self.sent.extend_from_slice(&piece[..count]);
        Ok(count)
    }

    fn recv(&mut self, buf: &mut [u8]) -> Result<usize, Failed>
        ensures bound { ReadsAtMost result buf.new }
        ensures bytes { ReadConsumes (Some (link_left self.old)) (Some (link_left self.new)) result buf.new }
        ensures held { Stays (Some (link_held self.old)) (Some (link_held self.new)) }
        ensures coming { Stays (Some (link_coming self.old)) (Some (link_coming self.new)) }
        ensures full { IfOk result (λ n. n ≡ min (length buf.old) (length (link_left self.old))) }
        ensures works { is_ok result ≡ link_works self.old }
        ensures called { IsCalled self.old self.new result }
    {
        if self.calls.begin() {
            return Err(self.calls.fail());
        }
        let rest = self.current.as_slice();
        if self.at >= rest.len() {
            return Ok(0);
        }
        let rest = &rest[self.at..];
        let count = rest.len().min(buf.len());
        buf[..count].copy_from_slice(&rest[..count]);
        self.at += count;
        Ok(count)
    }

    fn hang_up(&mut self) -> Result<(), Failed>
        ensures left { OnOk result (link_left self.new ≡ []) }
        ensures held { Stays (Some (link_held self.old)) (Some (link_held self.new)) }
        ensures coming { Stays (Some (link_coming self.old)) (Some (link_coming self.new)) }
        ensures same { OnErr result (HoldsSame self.old self.new) }
        ensures works { is_ok result ≡ link_works self.old }
        ensures called { IsCalled self.old self.new result }
    {
        if self.calls.begin() {
            return Err(self.calls.fail());
        }
        self.current.clear();
        self.at = 0;
        Ok(())
    }

    /// Another link to the same peer: it has the same bytes left, coming and held, and the same room. The same
    /// calls of it fail, counted anew from 0.
    fn twin(&self, alloc: Global) -> Result<Self, AllocError>
        ensures left { IfOk result (λ t. link_left t ≡ link_left self.now) }
        ensures coming { IfOk result (λ t. link_coming t ≡ link_coming self.now) }
        ensures held { IfOk result (λ t. link_held t ≡ link_held self.now) }
        ensures room { IfOk result (λ t. whole_room t ≡ whole_room self.now) }
        ensures calls { IfOk result (λ t. AreNew (link_calls t) (link_calls self.now).failing.items) }
        ensures faults { IfOk result (λ t. t.calls.faults ≡ 0) }
    {
        let mut sent = Vec::with_capacity(alloc, self.room)?;
        sent.extend_from_slice(self.sent.as_slice())?;
        Ok(MemLink {
            conversations: conversations_copy(alloc, self.conversations.as_slice())?,
            current: Vec::from_slice(alloc, self.current.as_slice())?,
            at: self.at,
            sent,
            room: self.room,
            calls: self.calls.anew(alloc)?,
        })
    }
}

/// The same bytes again, conversation by conversation. The error is want of memory.
fn conversations_copy(alloc: Global, conversations: &[Vec<u8>]) -> Result<Vec<Vec<u8>>, AllocError>
    ensures { IfOk result (λ copies. map (λ v. v.items) copies.items ≡ map (λ v. v.items) conversations.now) }
{
    let mut copies = Vec::with_capacity(alloc, conversations.len())?;
    'conversations: for conversation in conversations {
        copies.push(Vec::from_slice(alloc, conversation.as_slice())?)?;
    }
    Ok(copies)
}
