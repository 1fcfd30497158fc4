//! A node in memory, which tells.
ghost use Rattle.std.specs.Prelude.{◌≡◌, ◌≤◌, ◌<◌, ◌++◌, ◌∷◌, [], true, false, Some, Err, IfOk, OnOk, vec_len, vec_capacity};
ghost use Rattle.edge_kit.specs.Causes.{Rose};
ghost use Rattle.edge_kit.specs.Tellings.{Tells};
ghost use Rattle.node_calls.specs.Asking.{posted, told_ask, told_post};
ghost use Rattle.node_calls.specs.Fitting.{fits};
ghost use Rattle.node_calls.specs.InMemory.{FailsNext, IsCounted, MemAsks, MemPosts, is_failed, is_made, next_reply, takes_answer};

use crate::answer::{Answer, NodeFault};
use crate::ask::Ask;
use crate::copies::{answers_copy, calls_copy};
use crate::node::Node;
use crate::post::Post;
use crate::told::{NodeCall, PostCall};
use edge_kit::{Items, PubKey, count_fault};
use slash_defs::{Granted, Message};
use std::alloc::{AllocError, Global};

/// Answers each question by the next answer of its list, where that fits, and else by `Unreadable` with no
/// bytes; takes each post; fails at the calls that its other list names (from 0), which use up no answer. It
/// never answers a status.
#[derive(Drop)]
pub struct MemNode {
    alloc: Global,
    answers: Vec<Answer>,
    failing: Vec<u64>,
    told: Vec<NodeCall>,
    given: usize,
    calls: u64,
    faults: u64,
}

/// What a question is told and answered with.
#[derive(Drop)]
struct Prepared {
    asked: Ask,
    reply: Result<Answer, NodeFault>,
    told: Result<Answer, NodeFault>,
}

impl MemNode {
    /// A node with these answers, whose calls of these numbers (from 0) fail.
    pub fn new(alloc: Global, answers: Vec<Answer>, failing: Vec<u64>) -> Self
        ensures told { result.told.items ≡ [] }
        ensures answers { result.answers.items ≡ answers.items }
        ensures failing { result.failing.items ≡ failing.items }
        ensures none_counted { (result.calls ≡ 0) × (result.faults ≡ 0) × (result.given ≡ 0) }
        ensures none_failing { failing.items ≡ [] → FailsNext result → ⊥ }
    {
        MemNode {
            alloc,
            answers,
            failing,
            told: Vec::new(alloc),
            given: 0,
            calls: 0,
            faults: 0,
        }
    }

    /// The calls so far with their replies.
    pub fn told(&self) -> &[NodeCall]
        ensures { result.now ≡ self.now.told.items }
    {
        self.told.as_slice()
    }

    /// Begins a call: it is counted, and a fault beside it where it is to fail. Whether it fails.
    fn begin(&mut self) -> bool
        ensures fails { result ≡ true → FailsNext self.old }
        ensures goes { result ≡ false → FailsNext self.old → ⊥ }
        ensures counted { IsCounted self.old self.new true result false }
        ensures told { self.new.told ≡ self.old.told }
        ensures fault { result ≡ true → Rose self.old.faults self.new.faults }
        ensures later { self.old.faults ≤ self.new.faults }
    {
        let call = self.calls;
        self.calls = call.saturating_add(1);
        if self.failing.contains(&call) {
            let _ = count_fault(&mut self.faults);
            return true;
        }
        false
    }

    /// The reply by the next answer. The error is want of memory.
    fn next_reply(&self, ask: &Ask) -> Result<Result<Answer, NodeFault>, AllocError>
        ensures { IfOk result (λ reply. reply ≡ next_reply self.now ask.now) }
    {
        let Some(answer) = self.answers.get(self.given) else {
            return Ok(Err(NodeFault::Unreadable(Items::new(self.alloc))));
        };
        if !answer.fits(self.alloc, ask)? {
            return Ok(Err(NodeFault::Unreadable(Items::new(self.alloc))));
        }
        Ok(Ok(answer.copy(self.alloc)?))
    }

    /// Takes the memory that the reply to a question needs.
    fn prepared(&mut self, ask: &Ask) -> Result<Prepared, AllocError>
        ensures asked { IfOk result (λ p. p.asked ≡ ask.now) }
        ensures reply { IfOk result (λ p. p.reply ≡ next_reply self.old ask.now) }
        ensures told { IfOk result (λ p. p.told ≡ next_reply self.old ask.now) }
        ensures room { OnOk result (vec_len self.new.told < vec_capacity self.new.told) }
        ensures same { self.new.told.items ≡ self.old.told.items }
        ensures counted { IsCounted self.old self.new false false false }
    {
        self.told.reserve(1)?;
        Ok(Prepared {
            asked: ask.copy(self.alloc)?,
            reply: self.next_reply(ask)?,
            told: self.next_reply(ask)?,
        })
    }

    /// Gives the reply to a question, or fails.
    fn give(&mut self, prepared: Prepared) -> Result<Answer, NodeFault>
        requires room { vec_len self.old.told < vec_capacity self.old.told }
        requires replied { prepared.reply ≡ next_reply self.old prepared.asked }
        requires tells { prepared.told ≡ next_reply self.old prepared.asked }
        ensures told { self.new.told.items ≡ self.old.told.items ++ told_ask prepared.asked result }
        ensures fits { IfOk result (λ answer. fits prepared.asked answer ≡ true) }
        ensures reply { MemAsks self.old prepared.asked result }
        ensures counted { IsCounted self.old self.new (is_made result) (is_failed result) (takes_answer result) }
        ensures fault { result ≡ Err NodeFault.Fault → Rose self.old.faults self.new.faults }
        ensures later { self.old.faults ≤ self.new.faults }
    {
        if self.begin() {
            keep(
                &mut self.told,
                NodeCall::Asked(prepared.asked, Err(NodeFault::Fault)),
            );
            return Err(NodeFault::Fault);
        }
        self.given = self.given.saturating_add(1);
        keep(
            &mut self.told,
            NodeCall::Asked(prepared.asked, prepared.told),
        );
        prepared.reply
    }

    /// Takes a post, or fails.
    fn take(&mut self, key: PubKey, message: Option<Message>, post: &Post) -> Result<(), NodeFault>
        ensures told { self.new.told.items ≡ self.old.told.items ++ told_post (posted key message post.now) result }
        ensures reply { MemPosts self.old result }
        ensures counted { IsCounted self.old self.new (is_made result) (is_failed result) false }
        ensures fault { result ≡ Err NodeFault.Fault → Rose self.old.faults self.new.faults }
        ensures later { self.old.faults ≤ self.new.faults }
    {
        let Ok(post) = post.copy(self.alloc) else {
            return Err(NodeFault::OutOfMemory);
        };
        if self.told.reserve(1).is_err() {
            return Err(NodeFault::OutOfMemory);
        }
        let call = PostCall { key, message, post };
        if self.begin() {
            keep(
                &mut self.told,
                NodeCall::Posted(call, Err(NodeFault::Fault)),
            );
            return Err(NodeFault::Fault);
        }
        keep(&mut self.told, NodeCall::Posted(call, Ok(())));
        Ok(())
    }
}

impl Node for MemNode {
    ghost told = { λ s. Some s.told.items };

    ghost faults = { λ s. s.faults };

    /// Answers by the next answer of the list. What this call leaves is exact.
    fn ask(&mut self, ask: &Ask) -> Result<Answer, NodeFault>
        ensures told { Tells (Some self.old.told.items) (Some self.new.told.items) (told_ask ask.now result) }
        ensures fits { IfOk result (λ answer. fits ask.now answer ≡ true) }
        ensures later { self.old.faults ≤ self.new.faults }
        ensures fault { result ≡ Err NodeFault.Fault → Rose self.old.faults self.new.faults }
        ensures reply { MemAsks self.old ask.now result }
        ensures counted { IsCounted self.old self.new (is_made result) (is_failed result) (takes_answer result) }
    {
        match self.prepared(ask) {
            Ok(prepared) => self.give(prepared),
            Err(AllocError) => Err(NodeFault::OutOfMemory),
        }
    }

    /// Takes the post.
    fn post<G: Granted>(&mut self, grant: &G, post: &Post) -> Result<(), NodeFault>
        ensures told { Tells (Some self.old.told.items) (Some self.new.told.items) (told_post (posted (G.granted_key grant.now) (G.granted_message grant.now) post.now) result) }
        ensures later { self.old.faults ≤ self.new.faults }
        ensures fault { result ≡ Err NodeFault.Fault → Rose self.old.faults self.new.faults }
        ensures reply { MemPosts self.old result }
        ensures counted { IsCounted self.old self.new (is_made result) (is_failed result) false }
    {
        let key = *grant.key();
        let message = grant.what().copied();
        self.take(key, message, post)
    }

    /// Another access to the same node: it has the same answers and as many of them given, and tells the same calls.
    /// The same calls of it fail, counted anew from 0.
    fn twin(&self, alloc: Global) -> Result<Self, AllocError>
        ensures told { IfOk result (λ t. t.told.items ≡ self.now.told.items) }
        ensures answers { IfOk result (λ t. t.answers.items ≡ self.now.answers.items) }
        ensures given { IfOk result (λ t. t.given ≡ self.now.given) }
        ensures failing { IfOk result (λ t. t.failing.items ≡ self.now.failing.items) }
        ensures calls { IfOk result (λ t. t.calls ≡ 0) }
        ensures faults { IfOk result (λ t. t.faults ≡ 0) }
    {
        Ok(MemNode {
            alloc,
            answers: answers_copy(alloc, self.answers.as_slice())?,
            failing: Vec::from_slice(alloc, self.failing.as_slice())?,
            told: calls_copy(alloc, self.told.as_slice())?,
            given: self.given,
            calls: 0,
            faults: 0,
        })
    }
}

/// Keeps a call where there is room.
fn keep(told: &mut Vec<NodeCall>, call: NodeCall)
    requires { vec_len told.old < vec_capacity told.old }
    ensures { told.new.items ≡ told.old.items ++ call ∷ [] }
{
    told.push_reserved(call);
}
