//! What the state of a watch means.
ghost use Rattle.std.specs.Prelude.{◌≡◌, ◌↔◌, ◌≢◌, ◌≤◌, ◌⊎◌, ◌+◌, ◌++◌, ◌∷◌, [], ℕ, List, Some, IsTrue, false, true, length};
ghost use Rattle.doppel_watch.specs.declared.watch.WatchState.{WatchState};
ghost use Rattle.doppel_watch.specs.Watching.{IsSeenSilent, Telling, is_same, kept, latest, was_live, watch_state};
ghost use Rattle.doppel_watch.specs.declared.watch.WatchState.TheVariants as state;

/// At first both watched epochs are missing. A key is allowed exactly where it was told live in neither, and not live
/// of each once it was over. Once the key was told live in one of them the state is live,
/// whatever is told later, and the first is named wherever it was told so of it. What is told not live of an
/// epoch that is not over, and what is told of another epoch, leaves the state as it was.
pub fn watch_law()
    ensures begin { (s : ℕ) → watch_state s [] ≡ state.Missing (s + 1) (Some (s + 2)) }
    ensures allowed { (s : ℕ) (ts : List Telling) → (watch_state s ts ≡ state.Allowed) ↔ IsSeenSilent s ts }
    ensures first_live { (s : ℕ) (ts later : List Telling) → IsTrue (was_live (s + 1) ts)
        → watch_state s (ts ++ later) ≡ state.Live (s + 1) }
    ensures second_live { (s : ℕ) (ts later : List Telling) → IsTrue (was_live (s + 2) ts)
        → (watch_state s (ts ++ later) ≡ state.Live (s + 1)) ⊎ (watch_state s (ts ++ later) ≡ state.Live (s + 2)) }
    ensures not_over { (s : ℕ) (ts : List Telling) (t : Telling) → t.live ≡ false → latest s (ts ++ t ∷ []) ≤ t.epoch
        → watch_state s (ts ++ t ∷ []) ≡ watch_state s ts }
    ensures not_watched { (s : ℕ) (ts : List Telling) (t : Telling) → t.epoch ≢ s + 1 → t.epoch ≢ s + 2
        → watch_state s (ts ++ t ∷ []) ≡ watch_state s ts }
{}

/// What changed the state of a watch is enough to go on from: a watch that begins where another began, and is told just
/// what changed the other's state, has the same state, and goes on as the other whatever is told then, where the first
/// of it is told at a moment not below the latest one that the other has seen. It also keeps the same, then and later.
/// At most four tellings change a state. Two states are the same exactly where the test says so.
pub fn kept_law()
    ensures same { (s : ℕ) (ts : List Telling) → watch_state s (kept s ts) ≡ watch_state s ts }
    ensures same_later { (s : ℕ) (ts later : List Telling) (t : Telling) → latest s ts ≤ t.moment
        → watch_state s (kept s ts ++ t ∷ later) ≡ watch_state s (ts ++ t ∷ later) }
    ensures again { (s : ℕ) (ts : List Telling) → kept s (kept s ts) ≡ kept s ts }
    ensures again_later { (s : ℕ) (ts later : List Telling) (t : Telling) → latest s ts ≤ t.moment
        → kept s (kept s ts ++ t ∷ later) ≡ kept s (ts ++ t ∷ later) }
    ensures few { (s : ℕ) (ts : List Telling) → length (kept s ts) ≤ 4 }
    ensures decides { (a b : WatchState) → (is_same a b ≡ true) ↔ (a ≡ b) }
{}
