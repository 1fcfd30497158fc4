//! One node's turn.
ghost use Rattle.std.specs.Prelude.{◌≡◌, ◌+◌, ◌<◌, ◌≤◌, ◌∷◌, ◌++◌, [], true, IfOk, vec_len, vec_capacity};
ghost use Rattle.node_calls.specs.Asking.{posted, told_ask, told_post};
ghost use Rattle.node_calls.specs.Fitting.{fits};
ghost use Rattle.node_fallback.specs.Turns.{IsHeard, IsTurn, place_seen};

use crate::no_node::Cause;
use node_calls::{Answer, Ask, Node, NodeFault, Post};
use slash_defs::Granted;
use std::alloc::AllocError;

/// Why one node gave nothing, or that memory ran out at it.
#[derive(Drop)]
pub(crate) enum Refused {
    /// The node gave nothing; the next one has its turn.
    Because(Cause),
    /// Memory ran out.
    OutOfMemory,
}

impl From<NodeFault> for Refused {
    ghost use Rattle.node_fallback.specs.Turns.{refusal};

    ghost from_gives = { λ fault refused. refused ≡ refusal fault };

    fn from(fault: NodeFault) -> Refused {
        match fault {
            NodeFault::Fault => Refused::Because(Cause::Fault),
            NodeFault::Status(status) => Refused::Because(Cause::Status(status)),
            NodeFault::Unreadable(body) => Refused::Because(Cause::Unreadable(body)),
            NodeFault::OutOfMemory => Refused::OutOfMemory,
        }
    }
}

/// Asks one node, unless it is syncing.
pub(crate) fn try_ask<N: Node>(node: &mut N, syncing: bool, ask: &Ask) -> Result<Answer, Refused>
    ensures turn { IsTurn (told_ask ask.now) (place_seen N.told N.faults node.old syncing) (place_seen N.told N.faults node.new syncing) result }
    ensures fits { IfOk result (λ answer. fits ask.now answer ≡ true) }
{
    if syncing {
        return Err(Refused::Because(Cause::Syncing));
    }
    Ok(node.ask(ask)?)
}

/// Hands what was signed to one node, unless it is syncing.
pub(crate) fn try_post<N: Node, G: Granted>(
    node: &mut N,
    syncing: bool,
    grant: &G,
    post: &Post,
) -> Result<(), Refused>
    ensures { IsTurn (told_post (posted (G.granted_key grant.now) (G.granted_message grant.now) post.now)) (place_seen N.told N.faults node.old syncing) (place_seen N.told N.faults node.new syncing) result }
{
    if syncing {
        return Err(Refused::Because(Cause::Syncing));
    }
    Ok(node.post(grant, post)?)
}

/// Asks one node whether it is syncing; one that gives no answer is not. The error is want of
/// memory.
pub(crate) fn ask_syncing<N: Node>(node: &mut N) -> Result<bool, AllocError>
    ensures { IsHeard N.told N.faults node.old node.new result }
{
    match node.ask(&Ask::Syncing) {
        Ok(Answer::Syncing { is_syncing }) => Ok(is_syncing),
        Err(NodeFault::OutOfMemory) => Err(AllocError),
        Ok(_) | Err(_) => Ok(false),
    }
}

/// Keeps a cause where there is room.
pub(crate) fn keep(causes: &mut Vec<Cause>, cause: Cause)
    requires { vec_len causes.old < vec_capacity causes.old }
    ensures items { causes.new.items ≡ causes.old.items ++ cause ∷ [] }
    ensures len { vec_len causes.new ≡ vec_len causes.old + 1 }
    ensures room { vec_capacity causes.old ≤ vec_capacity causes.new }
{
    let _ = causes.push(cause);
}
