//! Several nodes in order.
ghost use Rattle.std.specs.Prelude.{◌≡◌, [], true, false, IfOk, OnOk, OnErr, slice_get, unwrap_or};
ghost use Rattle.node_calls.specs.Asking.{posted, told_ask, told_post};
ghost use Rattle.node_calls.specs.Fitting.{fits};
ghost use Rattle.node_fallback.specs.InOrder.{Tries};
ghost use Rattle.node_fallback.specs.Refreshing.{AreAskedFirst, AreFlagged, WithReplies};
ghost use Rattle.node_fallback.specs.Seen.{seen_of};
ghost use Rattle.node_fallback.specs.Twins.{AreTwins, EachTwin};

use crate::no_node::NoAnswer;
use crate::one_node::{Refused, ask_syncing, keep, try_ask, try_post};
use edge_kit::Items;
use node_calls::{Answer, Ask, Node, Post};
use slash_defs::Granted;
use std::alloc::{AllocError, Global};

/// Several beacon nodes, in the order in which they are tried. The first that gives something is taken; one that
/// was syncing when they were last refreshed is passed over.
#[derive(Drop)]
pub struct Nodes<N> {
    alloc: Global,
    nodes: Vec<N>,
    syncing: Vec<bool>,
}

impl<N: Node + Drop> Nodes<N> {
    /// These nodes, none of which is taken to be syncing. Takes no memory.
    pub fn new(alloc: Global, nodes: Vec<N>) -> Self
        ensures nodes { result.nodes ≡ nodes }
        ensures syncing { result.syncing.items ≡ [] }
    {
        Nodes {
            alloc,
            nodes,
            syncing: Vec::new(alloc),
        }
    }

    /// The nodes, given back.
    pub fn into_nodes(self) -> Vec<N>
        ensures { result ≡ self.nodes }
    {
        self.nodes
    }

    /// Each node's twin, in the order of the nodes, with the same ones taken to be syncing. The error is want of
    /// memory, at any of them.
    pub fn twin(&self, alloc: Global) -> Result<Nodes<N>, AllocError>
        ensures { IfOk result (λ t. AreTwins N.told N.faults self.now.nodes.items self.now.syncing.items t.nodes.items t.syncing.items) }
    {
        Ok(Nodes {
            alloc,
            nodes: twins_of(alloc, self.nodes.as_slice())?,
            syncing: Vec::from_slice(alloc, self.syncing.as_slice())?,
        })
    }

    /// Whether the node at this place was syncing when the nodes were last refreshed.
    fn is_syncing(&self, place: usize) -> bool
        ensures { result ≡ unwrap_or (slice_get self.now.syncing.items place) false }
    {
        self.syncing.get(place).copied().unwrap_or(false)
    }

    /// Asks each node in order whether it is syncing (Beacon API, `getSyncingStatus`), and
    /// notes it. One that gives no answer counts as one that is not. The error is want of memory: the first few
    /// nodes were asked, and what was noted before stays.
    pub fn refresh(&mut self) -> Result<(), AllocError>
        ensures flagged { OnOk result (WithReplies (λ replies. AreFlagged (seen_of N.told N.faults self.old.nodes.items self.old.syncing.items) replies (seen_of N.told N.faults self.new.nodes.items self.new.syncing.items))) }
        ensures asked { OnErr result (WithReplies (λ replies. AreAskedFirst (seen_of N.told N.faults self.old.nodes.items self.old.syncing.items) replies (seen_of N.told N.faults self.new.nodes.items self.new.syncing.items))) }
    {
        let mut flags = Vec::with_capacity(self.alloc, self.nodes.len())?;
        'nodes: for place in 0..self.nodes.len() {
            let is_syncing = ask_syncing(&mut self.nodes[place])?;
            flags.push(is_syncing)?;
        }
        self.syncing = flags;
        Ok(())
    }

    /// The first readable answer, in the order of the nodes. `NoNode` exactly where each of them refused in this
    /// call, or was passed over; `OutOfMemory` where memory ran out at a node or before the first.
    pub fn ask(&mut self, ask: &Ask) -> Result<Answer, NoAnswer>
        ensures tries { Tries (told_ask ask.now) (seen_of N.told N.faults self.old.nodes.items self.old.syncing.items) (seen_of N.told N.faults self.new.nodes.items self.new.syncing.items) result }
        ensures fits { IfOk result (λ answer. fits ask.now answer ≡ true) }
    {
        let Ok(mut causes) = Vec::with_capacity(self.alloc, self.nodes.len()) else {
            return Err(NoAnswer::OutOfMemory);
        };
        'nodes: for place in 0..self.nodes.len() {
            let syncing = self.is_syncing(place);
            match try_ask(&mut self.nodes[place], syncing, ask) {
                Ok(answer) => return Ok(answer),
                Err(Refused::OutOfMemory) => return Err(NoAnswer::OutOfMemory),
                Err(Refused::Because(cause)) => keep(&mut causes, cause),
            }
        }
        Err(NoAnswer::NoNode(Items::from_vec(causes)))
    }

    /// Hands what was signed under a grant to the first node that takes it, in the order of the nodes. `NoNode`
    /// exactly where each of them refused in this call, or was passed over; `OutOfMemory` where memory ran out at a
    /// node, which may have taken it, or before the first.
    pub fn post<G: Granted>(&mut self, grant: &G, post: &Post) -> Result<(), NoAnswer>
        ensures tries { Tries (told_post (posted (G.granted_key grant.now) (G.granted_message grant.now) post.now)) (seen_of N.told N.faults self.old.nodes.items self.old.syncing.items) (seen_of N.told N.faults self.new.nodes.items self.new.syncing.items) result }
    {
        let Ok(mut causes) = Vec::with_capacity(self.alloc, self.nodes.len()) else {
            return Err(NoAnswer::OutOfMemory);
        };
        'nodes: for place in 0..self.nodes.len() {
            let syncing = self.is_syncing(place);
            match try_post(&mut self.nodes[place], syncing, grant, post) {
                Ok(()) => return Ok(()),
                Err(Refused::OutOfMemory) => return Err(NoAnswer::OutOfMemory),
                Err(Refused::Because(cause)) => keep(&mut causes, cause),
            }
        }
        Err(NoAnswer::NoNode(Items::from_vec(causes)))
    }
}

/// Each node's twin, in order.
fn twins_of<N: Node + Drop>(alloc: Global, nodes: &[N]) -> Result<Vec<N>, AllocError>
    ensures { IfOk result (λ twins. EachTwin N.told N.faults nodes.now twins.items) }
{
    let mut twins = Vec::with_capacity(alloc, nodes.len())?;
    'nodes: for node in nodes {
        let twin = node.twin(alloc)?;
        twins.push(twin)?;
    }
    Ok(twins)
}
