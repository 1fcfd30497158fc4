//! What is noted of one epoch.
ghost use Rattle.std.specs.Prelude.{◌≡◌, ◌||◌, ◌&&◌, not, Bool};
ghost use Rattle.doppel_watch.specs.Notes.{liveness};

/// What is noted of a key in an epoch.
#[derive(Clone, Copy, PartialEq, Eq, Debug)]
pub(crate) enum Liveness {
    /// No answer counted so far.
    Unknown,
    /// The key was told not live once the epoch was over, and never live.
    NotLive,
    /// The key was told live.
    Live,
}

impl Liveness {
    /// What is noted after one more answer. Live always counts and stays; not live counts only where the epoch
    /// is over.
    pub(crate) fn after(self, live: bool, is_over: bool) -> Liveness
        ensures { (was_live was_absent : Bool) → self ≡ liveness was_live was_absent
            → result ≡ liveness (was_live || live) (was_absent || (not live && is_over)) }
    {
        match self {
            Liveness::Live => Liveness::Live,
            Liveness::Unknown | Liveness::NotLive if live => Liveness::Live,
            Liveness::Unknown if is_over => Liveness::NotLive,
            noted => noted,
        }
    }
}
