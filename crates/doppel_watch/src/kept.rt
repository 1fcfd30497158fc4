//! The answers that a watch keeps.
ghost use Rattle.std.specs.Prelude.{◌≡◌, ◌≤◌, ◌<◌, ◌++◌, ◌∷◌, [], length, map};
ghost use Rattle.doppel_watch.specs.Moments.{moment_limit};

/// What was told of a key at a moment: whether it was live in an epoch.
#[derive(Clone, Copy, PartialEq, Eq, Debug)]
pub struct KeptAnswer {
    /// The epoch of which it was told.
    pub epoch: u64,
    /// Whether the key was live in it.
    pub live: bool,
    /// The moment, an epoch, as it counts: the greatest of the watch's start and the moments up to it.
    pub moment: u64,
    ghost in_range: { moment ≤ moment_limit },
}

/// The answers that changed the state of a watch, in order: at most four.
#[derive(Clone, Copy, PartialEq, Eq, Debug)]
pub struct KeptAnswers {
    answers: [KeptAnswer; 4],
    count: usize,
    ghost in_range: { count ≤ 4 },
}

impl KeptAnswers {
    ghost use Rattle.doppel_watch.specs.Watching.{telling_of, tellings_of};

    // No answers.
    pub(crate) fn none() -> KeptAnswers
        ensures { tellings_of result ≡ [] }
    {
        let unused = KeptAnswer {
            epoch: 0,
            live: false,
            moment: 0,
        };
        KeptAnswers {
            answers: [unused; 4],
            count: 0,
        }
    }

    // One answer more, where there are fewer than four.
    pub(crate) fn push(&mut self, answer: KeptAnswer)
        ensures { length (tellings_of self.old) < 4 → tellings_of self.new ≡ tellings_of self.old ++ telling_of answer ∷ [] }
    {
        if self.count < 4 {
            self.answers[self.count] = answer;
            self.count += 1;
        }
    }

    /// The answers in order, the first told first. Takes no memory.
    pub fn as_slice(&self) -> &[KeptAnswer]
        ensures { map telling_of result.now ≡ tellings_of self.now }
    {
        &self.answers[..self.count]
    }
}
