//! A counter.
ghost use Rattle.std.specs.Prelude.{◌≡◌};
ghost use Rattle.thread_tests.specs.Counting.{Steps, May};

use desk_lock::Seq;

/// A sum that wraps.
#[derive(Drop)]
pub struct Counter {
    pub total: u64,
}

impl Seq for Counter {
    type Call = u64;

    type Reply = u64;

    ghost begins = { λ c. c.total ≡ 0 };

    ghost steps = { Steps };

    ghost may = { May };

    ghost can = { λ c k. Unit {0} };

    fn apply(&mut self, call: u64) -> u64 {
        let was = self.total;
        self.total = was.wrapping_add(call);
        was
    }

    ghost admits = { λ s t log by call begun legal ok. tt };
}
