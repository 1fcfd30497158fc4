//! The answers of one kind that are held.
ghost use Rattle.std.specs.Prelude.{◌≡◌, ◌≢◌, ℕ, ◌+◌, ◌^◌, ◌<◌, ◌≤◌, nat_le, ◌&&◌, Some, option_copied};
ghost use Rattle.duty_schedule.specs.Answers.{outcome_of};
ghost use Rattle.duty_schedule.specs.Due.{rows_of};
ghost use Rattle.duty_schedule.specs.Holding.{MovesOn, held_at, next_held, rests_on};

use crate::answer::DutyAnswer;
use crate::rows::Taken;

/// The answers of one kind that are held: at most one of the newest epoch, and one of the epoch before it.
#[derive(Drop)]
pub(crate) struct HeldAnswers<T> {
    newest: Option<DutyAnswer<T>>,
    previous: Option<DutyAnswer<T>>,
}

impl<T> HeldAnswers<T> {
    /// None.
    pub(crate) fn new() -> Self
        ensures { (newest epoch : ℕ) → held_at result newest epoch ≡ None }
    {
        HeldAnswers {
            newest: None,
            previous: None,
        }
    }

    /// What is held of an epoch.
    #[tactic(auto, unfolding(crate::specs::Holding::held_at))]
    fn at(&self, newest: u64, epoch: u64) -> Option<&DutyAnswer<T>>
        requires { epoch + 1 < 2 ^ 64 }
        ensures { option_copied result ≡ held_at self.now newest epoch }
    {
        if epoch == newest {
            self.newest.as_ref()
        } else if epoch + 1 == newest {
            self.previous.as_ref()
        } else {
            None
        }
    }

    /// The rows of what is held of an epoch.
    pub(crate) fn rows(&self, newest: u64, epoch: u64) -> &[T]
        requires { epoch + 1 < 2 ^ 64 }
        ensures { result.now ≡ rows_of (held_at self.now newest epoch) }
    {
        match self.at(newest, epoch) {
            Some(answer) => answer.rows.as_slice(),
            None => &[],
        }
    }
}

impl<T: Drop> HeldAnswers<T> {
    /// Goes from one newest epoch to a later one, and drops what is held of epochs that are then no longer kept.
    pub(crate) fn move_on(&mut self, newest: u64, later: u64)
        requires { newest ≤ later }
        ensures { MovesOn self.old newest self.new later }
    {
        match later - newest {
            0 => {}
            1 => self.previous = self.newest.take(),
            _ => {
                self.newest = None;
                self.previous = None;
            }
        }
    }

    /// Takes an answer, which is dropped where its epoch is not kept.
    pub(crate) fn take(&mut self, newest: u64, epoch: u64, answer: DutyAnswer<T>) -> Taken
        requires { epoch ≤ newest }
        ensures own { newest ≤ epoch + 1 → held_at self.new newest epoch ≡ Some (next_held (held_at self.old newest epoch) answer) }
        ensures others { (other : ℕ) → other ≢ epoch → held_at self.new newest other ≡ held_at self.old newest other }
        ensures taken { result ≡ outcome_of (nat_le newest (epoch + 1) && rests_on (held_at self.old newest epoch) answer.basis) }
    {
        match newest - epoch {
            0 => hold(&mut self.newest, answer),
            1 => hold(&mut self.previous, answer),
            _ => Taken::Replaced,
        }
    }
}

/// Holds an answer, unless one is held that rests on the same.
fn hold<T: Drop>(held: &mut Option<DutyAnswer<T>>, answer: DutyAnswer<T>) -> Taken
    ensures held { held.new ≡ Some (next_held held.old answer) }
    ensures taken { result ≡ outcome_of (rests_on held.old answer.basis) }
{
    if let Some(kept) = held
        && kept.basis.is_same(&answer.basis)
    {
        return Taken::Kept;
    }
    *held = Some(answer);
    Taken::Replaced
}
