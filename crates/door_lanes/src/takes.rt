//! What takes connections.
ghost use Rattle.std.specs.Prelude.{ℕ, List, [], ◌∷◌, ◌++◌, length};
ghost use Rattle.door_lanes.specs.Doors.{Asked, connection_in, returned};

use crate::counted::Taken;

/// Takes connections of a door that others may share, and hands them back.
pub(crate) trait Takes<C> {
    /// It may take a connection. This is the number of those that it was given and did not hand back yet: one, or none.
    ghost ready: { Self → ℕ → Type 0 };

    /// Its own calls, one after another, handed these back and had these answers.
    ghost leads: { Self → List (Asked C) → Self → Type 0 };

    /// Hands back the connection that it was given last, if it was given one, and then takes the next. It may wait until
    /// one comes.
    fn take(&mut self, back: Option<C>) -> Taken<C>
        requires { ready self.old (length (returned back)) }
        ensures ready { ready self.new (length (connection_in result)) }
        ensures leads { leads self.old ((back, result) ∷ []) self.new };

    ghost leads_none: { (s : Self) → leads s [] s };

    ghost leads_more: { (s t u : Self) (xs ys : List (Asked C)) → leads s xs t → leads t ys u → leads s (xs ++ ys) u };
}
