//! The watch of one key.
ghost use Rattle.std.specs.Prelude.{◌≡◌, ◌≢◌, ◌≤◌, ◌++◌, ◌∷◌, [], ℕ, List, true, false};
ghost use Rattle.doppel_watch.specs.Moments.{moment_limit};

use crate::kept::{KeptAnswer, KeptAnswers};
use crate::liveness::Liveness;

/// The greatest moment, an epoch: that of the greatest slot, (2^64 - 1) / 32.
pub const MOMENT_LIMIT: u64 = 576_460_752_303_423_487;

/// The doppelganger watch of one validator key: a key that becomes active at an epoch is watched for the two
/// epochs after it before it may sign. It stands for the start and for all that was told of the key since, and keeps
/// the few answers that changed its state. Moments are epochs. Nothing takes memory.
#[derive(Clone, Copy, PartialEq, Eq, Debug)]
pub struct Watch {
    start: u64,
    latest: u64,
    first: Liveness,
    second: Liveness,
    kept: KeptAnswers,
    ghost in_range: { start ≤ moment_limit },
    ghost seen_in_range: { latest ≤ moment_limit },
}

/// How a watch stands.
#[derive(Clone, Copy, PartialEq, Eq, Debug)]
pub enum WatchState {
    /// For both watched epochs the key was told not live, each once it was over, and never live: it may sign.
    Allowed,
    /// The watched epochs for which no answer counted yet, the lesser first.
    Missing { first: u64, second: Option<u64> },
    /// The key was told live in this watched epoch, the lesser one where it was told so in both: it may not sign.
    Live(u64),
}

// Whether two states are the same.
fn are_same(before: WatchState, after: WatchState) -> bool
    ensures same { result ≡ true → before ≡ after }
    ensures other { result ≡ false → before ≢ after }
{
    before == after
}

impl Watch {
    ghost use Rattle.doppel_watch.specs.Watching.{Stands, IsNoted, Telling, watch_state, kept, tellings_of};

    /// The watch of a key that becomes active at this epoch, of which nothing was told yet. The two epochs after
    /// it are watched.
    pub fn start(epoch: u64) -> Watch
        requires { epoch ≤ moment_limit }
        ensures { Stands result epoch [] }
    {
        Watch {
            start: epoch,
            latest: epoch,
            first: Liveness::Unknown,
            second: Liveness::Unknown,
            kept: KeptAnswers::none(),
        }
    }

    /// Takes in what was told of the key at a moment (an element of the Beacon API's `getLiveness`): whether it
    /// was live in an epoch. A moment earlier than one already seen counts as the latest seen. Live for a watched
    /// epoch always counts and stays; not live counts only where the moment is greater than the epoch. Other
    /// epochs are ignored.
    pub fn answer(&mut self, epoch: u64, live: bool, now: u64)
        requires { now ≤ moment_limit }
        ensures { (s : ℕ) (ts : List Telling) → Stands self.old s ts
            → Stands self.new s (ts ++ record { epoch = epoch; live = live; moment = now } ∷ []) }
    {
        let before = self.noted_state();
        self.note(epoch, live, now);
        if !are_same(before, self.noted_state()) {
            self.kept.push(KeptAnswer {
                epoch,
                live,
                moment: self.latest,
            });
        }
    }

    // Notes what was told of the watched epochs.
    fn note(&mut self, epoch: u64, live: bool, now: u64)
        requires { now ≤ moment_limit }
        ensures noted { (s : ℕ) (ts : List Telling) → IsNoted self.old s ts
            → IsNoted self.new s (ts ++ record { epoch = epoch; live = live; moment = now } ∷ []) }
        ensures kept { self.new.kept ≡ self.old.kept }
    {
        self.latest = self.latest.max(now);
        let is_over = epoch < self.latest;
        if epoch == self.start + 1 {
            self.first = self.first.after(live, is_over);
        } else if epoch == self.start + 2 {
            self.second = self.second.after(live, is_over);
        }
    }

    /// How the watch stands at a moment. It follows from what was told alone: a later moment changes nothing.
    pub fn state(&self, now: u64) -> WatchState
        requires { now ≤ moment_limit }
        ensures { (s : ℕ) (ts : List Telling) → Stands self.now s ts → result ≡ watch_state s ts }
    {
        let _ = now;
        self.noted_state()
    }

    /// The epoch at which it began.
    pub fn e0(&self) -> u64
        ensures start { (s : ℕ) (ts : List Telling) → Stands self.now s ts → result ≡ s }
        ensures in_range { result ≤ moment_limit }
    {
        self.start
    }

    /// The answers that changed its state, in order, each with its moment as it counts. A watch that begins at `e0` and
    /// is told just these has the same state, and goes on as this one (`kept_law`).
    pub fn kept_answers(&self) -> KeptAnswers
        ensures { (s : ℕ) (ts : List Telling) → Stands self.now s ts → tellings_of result ≡ kept s ts }
    {
        self.kept
    }

    // How the watch stands, by its notes.
    fn noted_state(&self) -> WatchState
        ensures { (s : ℕ) (ts : List Telling) → IsNoted self.now s ts → result ≡ watch_state s ts }
    {
        let first = self.start + 1;
        let second = self.start + 2;
        match (self.first, self.second) {
            (Liveness::Live, _) => WatchState::Live(first),
            (_, Liveness::Live) => WatchState::Live(second),
            (Liveness::Unknown, Liveness::Unknown) => WatchState::Missing {
                first,
                second: Some(second),
            },
            (Liveness::Unknown, Liveness::NotLive) => WatchState::Missing {
                first,
                second: None,
            },
            (Liveness::NotLive, Liveness::Unknown) => WatchState::Missing {
                first: second,
                second: None,
            },
            (Liveness::NotLive, Liveness::NotLive) => WatchState::Allowed,
        }
    }
}
