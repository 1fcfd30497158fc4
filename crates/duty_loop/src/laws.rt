//! What holds of turns, whatever takes the desk's calls.
ghost use Rattle.std.specs.Prelude.{◌≡◌, ℕ, List, Option, true};
ghost use Rattle.edge_kit.specs.declared.bytes.PubKey.{PubKey};
ghost use Rattle.call_plans.specs.Paths.{Path};
ghost use Rattle.call_plans.specs.Plans.{Follows};
ghost use Rattle.duty_schedule.specs.Answers.{TakenAnswer};
ghost use Rattle.duty_schedule.specs.Due.{IsDue};
ghost use Rattle.duty_schedule.specs.declared.rows.Duty.{Duty};
ghost use Rattle.duty_turns.specs.TurnSteps.{Does, Fits, House, TurnPlan, TurnStep};
ghost use Rattle.duty_asks.specs.Placed as asked;
ghost use Rattle.duty_workers.specs.Places as workers;
ghost use Rattle.duty_loop.specs.Guarding.{Guarded, IsFree};

use desk_machine::DeskCalls;

/// Whatever turns are carried out, with no grant in hand before and after. In the loop's own calls, and in those of each
/// lane: each post lies between the entry of its grant and the settling of it as sent, the desk of that lane not being
/// called between them; each message that was posted is one that this desk gave leave for. `K` takes a desk's calls, `X`
/// is what the turns give.
pub fn turns_law<K: DeskCalls, X>()
    ensures guarded { (start : Option ℕ) (plan : TurnPlan X) (a b : House K) (steps : List TurnStep) (v : Option X) → IsFree a → IsFree b
        → Path (Does K.leads start) a steps b → Follows Fits plan steps v → Guarded K.leads a b steps }
{}

/// What is due is of the rows of the answers that were taken: where each vote duty of theirs has its place in its
/// committee, so has each that is due.
pub fn due_law()
    ensures places { (answers : List TakenAnswer) (slot : ℕ) (active : List PubKey) (duties : List Duty) → IsDue answers slot active duties
        → asked.are_placed answers ≡ true → workers.are_placed duties ≡ true }
{}
