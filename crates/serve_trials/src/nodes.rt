//! A beacon node of a play.
ghost use Rattle.std.specs.Prelude.{◌≡◌, ◌≤◌, true, IfOk, IfSome};
ghost use Rattle.edge_kit.specs.Causes.{Rose};
ghost use Rattle.node_calls.specs.Fitting.{fits};

use crate::meetings::{Flags, Step};
use crate::said::{Said, answer_to};
use edge_kit::{Items, count_fault};
use node_calls::{Answer, Ask, Node, NodeFault, Post};
use slash_defs::Granted;
use std::alloc::{AllocError, Global};

/// Answers each question by what it says of the chain, whatever it was asked before, and takes each post, so that it says
/// the same in each lane. It notes that a vote was posted, and tells nothing. A twin of it is one of a lane.
#[derive(Drop)]
pub struct ChainNode<'a> {
    pub alloc: Global,
    pub said: &'a Said,
    pub flags: &'a Flags,
    pub is_of_lane: bool,
    pub calls: u64,
    pub faults: u64,
}

impl<'a> ChainNode<'a> {
    /// Begins a call: it is counted, and a fault next to it where it is to fail. Whether it fails.
    fn begin(&mut self) -> bool
        ensures later { self.old.faults ≤ self.new.faults }
        ensures fault { result ≡ true → Rose self.old.faults self.new.faults }
    {
        let call = self.calls;
        self.calls = call.saturating_add(1);
        if self.said.fails(self.is_of_lane, call) {
            let _ = count_fault(&mut self.faults);
            return true;
        }
        false
    }

    /// What it says, where that fits the question.
    fn fitting(&self, ask: &Ask) -> Result<Option<Answer>, AllocError>
        ensures { IfOk result (λ given. IfSome given (λ answer. fits ask.now answer ≡ true)) }
    {
        let Some(answer) = answer_to(self.alloc, self.said, ask)? else {
            return Ok(None);
        };
        if !answer.fits(self.alloc, ask)? {
            return Ok(None);
        }
        Ok(Some(answer))
    }
}

impl<'a> Node for ChainNode<'a> {
    ghost use Rattle.std.specs.Prelude.{None};

    ghost told = { λ _. None };

    ghost faults = { λ node. node.faults };

    /// Answers by what it says; what does not fit the question can't be read, and has no bytes.
    fn ask(&mut self, ask: &Ask) -> Result<Answer, NodeFault> {
        if self.begin() {
            return Err(NodeFault::Fault);
        }
        match self.fitting(ask) {
            Ok(Some(answer)) => Ok(answer),
            Ok(None) => Err(NodeFault::Unreadable(Items::new(self.alloc))),
            Err(AllocError) => Err(NodeFault::OutOfMemory),
        }
    }

    fn post<G: Granted>(&mut self, _grant: &G, post: &Post) -> Result<(), NodeFault> {
        if self.begin() {
            return Err(NodeFault::Fault);
        }
        if let Post::Vote(_) = post {
            self.flags.come(Step::Post);
        }
        Ok(())
    }

    /// One that says the same, and was not called yet.
    fn twin(&self, alloc: Global) -> Result<Self, AllocError> {
        Ok(ChainNode {
            alloc,
            said: self.said,
            flags: self.flags,
            is_of_lane: true,
            calls: 0,
            faults: 0,
        })
    }
}
