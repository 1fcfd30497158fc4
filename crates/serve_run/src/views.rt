//! What holds of turns and connections, whatever the desk is seen as.
ghost use Rattle.std.specs.Prelude.{ℕ, List, Option, Result};
ghost use Rattle.duty_plans.specs.declared.setup.DutySetup.{DutySetup};
ghost use Rattle.duty_turns.specs.declared.held.DutyEnd.{DutyEnd};
ghost use Rattle.duty_turns.specs.TurnSteps.{House};
ghost use Rattle.duty_work.specs.Houses.{RunsFrom};
ghost use Rattle.keymanager_api.specs.Serving.{LinkSeen};
ghost use Rattle.keymanager_api.specs.Doors.{Hall};
ghost use Rattle.keymanager_api.specs.Visits.{ServesAll};
ghost use Rattle.keymanager_api.specs.declared.connections.ConnectionsEnd.{ConnectionsEnd};
ghost use Rattle.serve_run.specs.Views.{Calls, IsView, SeesSame, VisitsSame, hall_by, house_by};

use desk_machine::DeskCalls;
use edge_kit::Door;

/// Turns that were carried out at a desk were carried out over the calls that it is seen as, from the same moment on and
/// by the same steps, if these grow by the calls that lead from one desk to another. `K` takes the desk's calls.
pub fn turns_view_law<K: DeskCalls>()
    ensures { (view : K → Calls) → IsView K.leads view
        → (start : Option ℕ) (setup : DutySetup) (a b : House K) (value : Option (Result (Unit {0}) DutyEnd)) → (runs : RunsFrom K.leads start setup a b value)
        → SeesSame start setup (house_by view a) (house_by view b) value runs.now runs.runs.steps }
{}

/// Connections that were served at a desk were served over the calls that it is seen as, by the same visits, if these
/// grow by the calls that lead from one desk to another. `K` takes the desk's calls, and `R` is the door.
pub fn connections_view_law<K: DeskCalls, R: Door>()
    ensures { (view : K → Calls) → IsView K.leads view
        → (see : R.Conn → LinkSeen) (start : Option ℕ) (token : List ℕ) (genesis_time wanted : ℕ) (a b : Hall K R.Conn) (result : Result (Unit {0}) ConnectionsEnd)
        → (serves : ServesAll K.leads see start token genesis_time wanted a b result)
        → VisitsSame see start token genesis_time wanted (hall_by view a) (hall_by view b) result serves.visits }
{}
