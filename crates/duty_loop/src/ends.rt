//! What holds of turns that end before their number, whatever takes the desk's calls.
ghost use Rattle.std.specs.Prelude.{◌≤◌, ℕ, List, Option, Some, Result, Err};
ghost use Rattle.edge_kit.specs.Causes.{Rose};
ghost use Rattle.call_plans.specs.Paths.{Path};
ghost use Rattle.call_plans.specs.Plans.{Follows};
ghost use Rattle.duty_plans.specs.declared.setup.DutySetup.{DutySetup};
ghost use Rattle.duty_turns.specs.declared.held.DutyEnd.TheVariants as end;
ghost use Rattle.duty_turns.specs.Standing.{Standing};
ghost use Rattle.duty_turns.specs.TurnSteps.{Does, Fits, House, TurnStep};
ghost use Rattle.duty_turns.specs.Turns.{turns_plan};
ghost use Rattle.duty_loop.specs.Guarding.{loop_steps};
ghost use Rattle.duty_loop.specs.Ends.{EndAtFailedDisk};

use desk_machine::DeskCalls;

/// Why the turns of duties end before their number. Where they end since the output failed, its count of faults rose
/// in them, and no step makes that count fall. Where they end since the desk's disk failed, the last of the loop's own
/// calls asked its desk just that, and the desk said so. They never give that memory ran out: there they stop with no
/// value. `K` takes the desk's calls.
pub fn end_law<K: DeskCalls>()
    ensures write { (start : Option ℕ) (setup : DutySetup) (n : ℕ) (s : Standing) (a b : House K) (steps : List TurnStep) → Path (Does K.leads start) a steps b
        → Follows Fits (turns_plan setup n s) steps (Some (Err end.Write)) → Rose a.out.faults b.out.faults }
    ensures disk { (setup : DutySetup) (n : ℕ) (s : Standing) (steps : List TurnStep) → Follows Fits (turns_plan setup n s) steps (Some (Err end.Disk))
        → EndAtFailedDisk (loop_steps steps) }
    ensures no_memory { (setup : DutySetup) (n : ℕ) (s : Standing) (steps : List TurnStep) → Follows Fits (turns_plan setup n s) steps (Some (Err end.OutOfMemory)) → ⊥ }
    ensures later { (start : Option ℕ) (a b : House K) (steps : List TurnStep) → Path (Does K.leads start) a steps b → a.out.faults ≤ b.out.faults }
{}
