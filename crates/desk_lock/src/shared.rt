//! The shared value.
ghost use Rattle.std.specs.Prelude.{IfOk, IfErr, IfSome, IfNone, None, ◌≡◌, ℕ, ◌+◌, ◌<◌, ◌≤◌, ◌^◌, [], ◌∷◌, length};
ghost use Rattle.atomic_table.specs.Table.{Me};
ghost use Rattle.desk_lock.specs.declared.types.Held.{Held};
ghost use Rattle.desk_lock.specs.Locks.{Takes};
ghost use Rattle.desk_lock.specs.Histories.{StartsWith};
ghost use Rattle.desk_lock.specs.Passes.{AreAll, Closes, SeesMore, TookIn, giver, IsNew, IsHolding, IsPassOf, Turned, Applied, seen, made, number};

use crate::rule::{Advances, Counts, Looks, Meets, OneHistory, Place, PutsBack, Shows, Tries};
use crate::seq::Seq;
use crate::types::{Held, View};
use crate::wide::Single;
use std::snapshot::Snapshot;
use std::sync::Wait;
use std::time::Duration;

/// After how many milliseconds a pass that waits looks again, though nobody woke it.
const NAP_MILLIS: u64 = 20;

/// What one thread makes its turns with: it knows a beginning of the history and its own calls.
pub type Pass<S> = Place<S>;

/// A value that threads share. It is lent to them by reference.
pub type Shared<S> = Single<
    Held<S, <S as Seq>::Call, <S as Seq>::Reply>,
    View<S, <S as Seq>::Call, <S as Seq>::Reply>,
    Snapshot<S>,
    OneHistory<S>,
>;

impl<S: Seq> Shared<S> {
    ghost use Rattle.desk_lock.specs.Sharing.{opening, IsPassAt};

    /// Takes the value out of its slot. It sleeps while another pass has it: until it is woken, and not long.
    fn take<W: Wait>(&self, rt: &W, pass: &mut Pass<S>)
        requires { IsPassAt S.steps S.may self.now pass.old }
        ensures seat { (pass.new.table_id ≡ pass.old.table_id) × (pass.new.id ≡ pass.old.id) }
        ensures taken { Takes S.begins S.steps S.may pass.old.me pass.new.me }
    {
        for _ in rt.forever() {
            if self.table.shared.swap::<Tries<S>>(pass, 0, 1) == 0 {
                return;
            }
            self.table
                .shared
                .park_timeout(rt, 0, 1, Duration::from_millis(NAP_MILLIS));
        }
        unreachable!()
    }

    /// Applies a call to the value in hand, and notes it.
    fn apply(&self, pass: &mut Pass<S>, call: S::Call) -> S::Reply
        requires table { pass.old.table_id ≡ self.now.table.shared.table_id }
        requires held { (h : Held S S.Call S.Reply) × (pass.old.me.1 ≡ (0, h) ∷ []) × S.can h.state call }
        ensures seat { (pass.new.table_id ≡ pass.old.table_id) × (pass.new.id ≡ pass.old.id) }
        ensures applied { Applied S.steps pass.old.me call result pass.new.me }
    {
        let held = pass.slot_mut(&self.table.shared, 0);
        let asked = Snapshot::of(&call);
        let reply = held.state.apply(call);
        held.call = Some(asked);
        held.reply = Some(Snapshot::of(&reply));
        reply
    }

    /// Waits for good where the history has no room for one more turn.
    fn find_room<W: Wait>(&self, rt: &W, pass: &mut Pass<S>)
        requires table { pass.old.table_id ≡ self.now.table.shared.table_id }
        requires holds { IsHolding pass.old }
        ensures same { (pass.new.table_id ≡ pass.old.table_id) × (pass.new.id ≡ pass.old.id) × (pass.new.me ≡ pass.old.me) }
        ensures room { length (seen pass.old) + 1 < 2 ^ 64 }
    {
        if self.table.shared.load::<Counts>(pass, 1) < u64::MAX {
            return;
        }
        for _ in rt.forever() {
            self.table.shared.park(rt, 1, u32::MAX);
        }
        unreachable!()
    }

    /// One turn: the call is applied to the value, whose reply this is, and stands in the history behind all that
    /// this pass had seen. It waits while another pass has the value, and for good after 18446744073709551615 turns.
    /// Takes no memory of its own.
    pub fn turn<W: Wait>(&self, rt: &W, pass: &mut Pass<S>, call: S::Call) -> S::Reply
        requires pass { IsPassAt S.steps S.may self.now pass.old }
        requires may { S.may (made pass.old) call }
        ensures pass { IsPassAt S.steps S.may self.now pass.new }
        ensures turned { Turned S.steps S.may (opening self.now) pass.old call result pass.new }
    {
        self.take(rt, pass);
        self.find_room(rt, pass);
        let reply = self.apply(pass, call);
        self.table.shared.fetch_add::<Advances>(pass, 1, 1);
        self.table.shared.store::<PutsBack>(pass, 0, 0);
        self.table.shared.wake_one(0);
        reply
    }

    /// Lets one pass see what another has seen.
    fn inform(&self, one: &mut Pass<S>, other: &mut Pass<S>)
        requires one { IsPassAt S.steps S.may self.now one.old }
        requires other { IsPassAt S.steps S.may self.now other.old }
        ensures one { IsPassAt S.steps S.may self.now one.new }
        ensures more { SeesMore one.old one.new × StartsWith (seen one.new) (seen other.old) }
        ensures other { (other.new.table_id ≡ other.old.table_id) × (other.new.me ≡ other.old.me) }
    {
        let shown = self.table.shared.split_seat::<Shows>(other);
        self.table.shared.join_seat::<Meets>(one, shown);
        self.table.shared.load::<Looks>(one, 1);
    }

    /// Lets each of two passes see what the other has seen. Takes no memory.
    pub fn meet(&self, one: &mut Pass<S>, other: &mut Pass<S>)
        requires one { IsPassAt S.steps S.may self.now one.old }
        requires other { IsPassAt S.steps S.may self.now other.old }
        ensures one { IsPassAt S.steps S.may self.now one.new }
        ensures other { IsPassAt S.steps S.may self.now other.new }
        ensures one_sees { SeesMore one.old one.new × StartsWith (seen one.new) (seen other.old) }
        ensures other_sees { SeesMore other.old other.new × StartsWith (seen other.new) (seen one.old) }
    {
        self.inform(one, other);
        self.inform(other, one);
    }
}
