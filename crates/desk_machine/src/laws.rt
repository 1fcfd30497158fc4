//! What holds of the machine, whatever it is asked.
ghost use Rattle.std.specs.Prelude.{ℕ, ◌^◌, ◌<◌, ◌≤◌, List};
ghost use Rattle.std.specs.List.{AllByRecursion};
ghost use Rattle.record_replay.specs.Pruning.{record_of};
ghost use Rattle.key_snapshot.specs.Weights.{IsSized};
ghost use Rattle.desk_machine.specs.Snapshots.{snapshot_size, weight_of};
ghost use Rattle.desk_machine.specs.States.{State};
ghost use Rattle.desk_machine.specs.Grants.{AreNumbered, IsNumbered, grants_after, next_after};
ghost use Rattle.desk_machine.specs.declared.open_grant.OpenGrant.{OpenGrant};
ghost use Rattle.desk_machine.specs.Machine.{Reply};
ghost use Rattle.desk_machine.specs.Kinds.{IsKind};
ghost use Rattle.desk_machine.specs.declared.call.DeskCall.{DeskCall};
ghost use Rattle.desk_machine.specs.declared.call.DeskReply.{DeskReply};

use key_snapshot::weighing_law;

/// A reply that the machine may give is of a kind that its call has; and the numbers of open grants stay below the
/// next one, each given once.
pub fn machine_laws()
    ensures numbered { (grants : List OpenGrant) (next : ℕ) (c : DeskCall) (r : DeskReply) → IsNumbered next c r → AreNumbered grants next → AreNumbered (grants_after grants c r) (next_after next c r) }
    ensures kinds { (state : State) (c : DeskCall) (r : DeskReply) → Reply state c r → IsKind c r }
{}

/// The file that a compaction writes of a state has no more bytes than the state's weight, unless it has 2^64 or more.
pub fn snapshot_law()
    ensures { (state : State) → AllByRecursion (λ kept. IsSized kept.0 (record_of kept.1)) state.keys → snapshot_size state < 2 ^ 64 → snapshot_size state ≤ weight_of state }
{
    weighing_law();
}
