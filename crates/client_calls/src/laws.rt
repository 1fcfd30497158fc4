//! What holds of steps, whatever takes the desk's calls.
ghost use Rattle.std.specs.declared.option.Option.{Option};
ghost use Rattle.call_plans.specs.Paths.{Carries};
ghost use Rattle.client_calls.specs.Seats.{Does, Ran, Seat};
ghost use Rattle.client_calls.specs.Steps.{ClientPlan, Fits};

use desk_machine::DeskCalls;

/// A plan that was carried out step by step, each step leading from one state of the desk and the signer to the
/// next, ran as a whole: all calls of the desk lead from the first to the last, and the signer told all that it
/// was asked. `K` takes the desk's calls, `X` is what the plan gives.
pub fn seat_law<K: DeskCalls, X>()
    ensures ran { (plan : ClientPlan X) (a b : Seat K) (v : Option X) → Carries Fits (Does K.leads) plan a b v → Ran K.leads plan a b v }
{}
