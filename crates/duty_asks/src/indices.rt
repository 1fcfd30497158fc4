//! The indices of validators.
ghost use Rattle.std.specs.Prelude.{◌≡◌, IfOk, OnOk, length};
ghost use Rattle.record_join.specs.Keys.{kept_of};
ghost use Rattle.duty_plans.specs.Seats.{nodes_seen};
ghost use Rattle.duty_turns.specs.Standing.{Standing, indices_of, with_indices};
ghost use Rattle.duty_turns.specs.Turns.{ask_plan, by_32, index_plan, to_renew};
ghost use Rattle.duty_turns.specs.TurnSteps.{sink_seen};
ghost use Rattle.duty_asks.specs.Found.{with_index};
ghost use Rattle.duty_asks.specs.Placed.{HoldsPlaced};
ghost use Rattle.duty_asks.specs.Quiet.{Parts, outside};
ghost use Rattle.node_calls.specs.declared.ask.Ask.TheVariants.{Validators};

use crate::ask::{Stop, ask_or_tell};
use crate::take::take_indices;
use duty_turns::Held;
use edge_kit::{Items, PubKey, Sink};
use node_calls::{Ask, Node};
use node_fallback::Nodes;
use std::alloc::{AllocError, Global};
use std::collections::BTreeMap;

/// How many keys are asked for at once.
const KEYS_PER_QUESTION: usize = 32;

/// The held indices of these keys, in their order. The error is want of memory.
pub fn indices_of(
    alloc: Global,
    indices: &BTreeMap<PubKey, u64>,
    keys: &[PubKey],
) -> Result<Items<u64>, AllocError>
    ensures { IfOk result (λ found. found ≡ indices_of indices.now.entries keys.now) }
{
    let mut found = Vec::new(alloc);
    'keys: for key in keys {
        let Ok(()) = push_index(&mut found, index_of(indices, key)) else {
            return Err(AllocError);
        };
    }
    Ok(Items::from_vec(found))
}

/// Puts an index, if there is one, after others. The error is want of memory.
fn push_index(found: &mut Vec<u64>, index: Option<u64>) -> Result<(), AllocError>
    ensures { OnOk result (found.new.items ≡ with_index found.old.items index) }
{
    if let Some(index) = index {
        found.push(index)?;
    }
    Ok(())
}

fn index_of(indices: &BTreeMap<PubKey, u64>, key: &PubKey) -> Option<u64>
    ensures { result ≡ kept_of indices.now.entries key.now }
{
    indices.get(key).copied()
}

/// Asks for the indices of keys, 32 at once and the rest in the last question.
pub(crate) fn ask_indices<N: Node + Drop, O: Sink>(
    alloc: Global,
    keys: &[PubKey],
    held: &mut Held,
    nodes: &mut Nodes<N>,
    out: &mut O,
) -> Result<(), Stop>
    ensures { (s : Standing) → HoldsPlaced held.old s → Parts (HoldsPlaced held.new) (index_plan (by_32 (length keys.now) keys.now) s)
        (outside (nodes_seen N.told N.faults nodes.old) (sink_seen O.held O.faults out.old))
        (outside (nodes_seen N.told N.faults nodes.new) (sink_seen O.held O.faults out.new)) result }
{
    let mut left = keys;
    'questions: while !left.is_empty() {
        let (asked, rest) = left.split_at(left.len().min(KEYS_PER_QUESTION));
        match ask_some(alloc, asked, held, nodes, out) {
            Ok(()) => {}
            Err(stop) => return Err(stop),
        }
        left = rest;
    }
    Ok(())
}

/// Asks for the indices of these keys.
fn ask_some<N: Node + Drop, O: Sink>(
    alloc: Global,
    keys: &[PubKey],
    held: &mut Held,
    nodes: &mut Nodes<N>,
    out: &mut O,
) -> Result<(), Stop>
    ensures { (s : Standing) → HoldsPlaced held.old s → Parts (HoldsPlaced held.new) (ask_plan (Validators keys.now) with_indices (to_renew s) s)
        (outside (nodes_seen N.told N.faults nodes.old) (sink_seen O.held O.faults out.old))
        (outside (nodes_seen N.told N.faults nodes.new) (sink_seen O.held O.faults out.new)) result }
{
    let Ok(keys) = copied(alloc, keys) else {
        return Err(Stop::OutOfMemory);
    };
    let asked = ask_or_tell(alloc, held.slot, &Ask::Validators { keys }, nodes, out);
    take_indices(held, asked)
}

/// The same keys. The error is want of memory.
fn copied(alloc: Global, keys: &[PubKey]) -> Result<Items<PubKey>, AllocError>
    ensures { IfOk result (λ copy. copy ≡ keys.now) }
{
    Ok(Items::from_vec(keys.to_vec(alloc)?))
}
