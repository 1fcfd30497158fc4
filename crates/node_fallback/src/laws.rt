//! What it means that nodes were tried in order.
ghost use Rattle.std.specs.Prelude.{◌≡◌, ℕ, List, Ok, Err};
ghost use Rattle.std.specs.declared.result.Result.{Result};
ghost use Rattle.node_calls.specs.declared.answer.NodeFault.{NodeFault};
ghost use Rattle.node_calls.specs.declared.told.NodeCall.{NodeCall};
ghost use Rattle.node_fallback.specs.declared.no_node.Cause.{Cause};
ghost use Rattle.node_fallback.specs.declared.no_node.NoAnswer.{NoAnswer};
ghost use Rattle.node_fallback.specs.FirstAnswer.{ComesFrom, NamesEach};
ghost use Rattle.node_fallback.specs.InOrder.{TriedInOrder};
ghost use Rattle.node_fallback.specs.Seen.{Seen};

/// An answer of nodes that were tried in order is what one node gave and tells, which was not syncing: each node in
/// front of it gave nothing, being syncing or telling its refusal, and those after it were not touched. Where no node
/// gave anything there is one cause a node, which is what the node tells, and a node is named as syncing exactly
/// where it was flagged so.
pub fn first_answer_law<A>()
    ensures answer { (told : Result A NodeFault → List NodeCall) (old new : List Seen) (value : A)
        → TriedInOrder told old new (Ok value) → (place : ℕ) × ComesFrom told old new value place }
    ensures none { (told : Result A NodeFault → List NodeCall) (old new : List Seen) (causes : List Cause)
        → TriedInOrder told old new (Err (NoAnswer.NoNode causes)) → NamesEach told causes old new }
{}
