//! Two threads, a turn each.
ghost use Rattle.std.specs.Prelude.{◌≡◌, ℕ, [], ◌∷◌, ◌+◌, ◌%◌, ◌^◌, IfSome};
ghost use Rattle.desk_lock.specs.Passes.{made, number};
ghost use Rattle.thread_tests.specs.Counting.{IsPass};

use crate::counter::Counter;
use desk_lock::{Owner, Pass, Shared};
use std::alloc::Global;
use std::sync::Wait;
use std::thread::{Threads, join};

// One turn in a thread of its own.
fn serve<R: Wait>(
    rt: &R,
    shared: &Shared<Counter>,
    mut pass: Pass<Counter>,
    call: u64,
) -> Pass<Counter>
    requires pass { IsPass shared.now pass }
    requires fresh { made pass ≡ [] }
    ensures pass { IsPass shared.now result }
    ensures number { number result ≡ number pass }
    ensures made { (r : ℕ) × (made result ≡ (call, r) ∷ []) }
{
    let _was = shared.turn(rt, &mut pass, call);
    pass
}

/// Two threads add a number each.
pub fn add_both<R: Threads + Wait + Sync>(rt: &R, alloc: Global, a: u64, b: u64) -> Option<u64>
    ensures { IfSome result (λ n. n ≡ (a + b) % 2 ^ 64) }
{
    let mut passes = Vec::with_capacity(alloc, 2).ok()?;
    let mut owner = Owner::new(alloc, Counter { total: 0 }, 2).ok()?;
    let one = owner.pass()?;
    let two = owner.pass()?;
    let desk = &owner.shared;
    let (one, two) = join(
        rt,
        move || -> Pass<Counter>
            requires { IsPass desk.now one × (made one ≡ []) × (number one ≡ 0) }
            ensures { IsPass desk.entry.now result × (number result ≡ 0) × ((r : ℕ) × (made result ≡ (a, r) ∷ [])) }
        { serve(rt, desk, one, a) },
        move || -> Pass<Counter>
            requires { IsPass desk.now two × (made two ≡ []) × (number two ≡ 1) }
            ensures { IsPass desk.entry.now result × (number result ≡ 1) × ((r : ℕ) × (made result ≡ (b, r) ∷ [])) }
        { serve(rt, desk, two, b) },
    );
    passes.push_reserved(one);
    passes.push_reserved(two);
    let counter = owner.close(passes);
    Some(counter.total)
}
