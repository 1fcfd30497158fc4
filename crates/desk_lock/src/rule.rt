//! The rule of the table, and its steps: the value is taken out and put back, the history is counted, looked at and
//! made one longer, a pass is given and taken in, and what one has seen is shown to another.
ghost use Rattle.desk_lock.specs.Locks.{Kept, root, nobody, gives, given, watcher, informed, took_in, tries, counts, looks, advances, puts_back};

use crate::seq::Seq;
use crate::types::{Held, View};
use atomic_table::{Join, Play, Seat, Split, Table, TableRule};
use std::alloc::Global;
use std::marker::PhantomData;
use std::snapshot::Snapshot;

/// The rule: all turns stand in one legal history, which leads to the value.
pub struct OneHistory<S> {
    of: PhantomData<S>,
}

impl<S: Seq> TableRule<Held<S, S::Call, S::Reply>, View<S, S::Call, S::Reply>, Snapshot<S>>
    for OneHistory<S> {
    ghost holds = { Kept S.begins S.steps S.may };

    ghost first = { λ key. root key.value };
}

/// Exchanges the word of the lock: the value comes out of its slot, or is out already.
pub struct Tries<S> {
    of: PhantomData<S>,
}

impl<S: Seq> Play<Held<S, S::Call, S::Reply>, View<S, S::Call, S::Reply>> for Tries<S> {
    ghost then = { tries S.begins S.steps S.may };
}

/// Reads the length of the history while the value is out.
pub struct Counts;

impl<S, C, R> Play<Held<S, C, R>, View<S, C, R>> for Counts {
    ghost then = { counts };
}

/// Reads the length of the history; of what was seen and what was told the longer one stays.
pub struct Looks;

impl<S, C, R> Play<Held<S, C, R>, View<S, C, R>> for Looks {
    ghost then = { looks };
}

/// Makes the history one longer while the value is out: by what was noted in the slot.
pub struct Advances;

impl<S, C, R> Play<Held<S, C, R>, View<S, C, R>> for Advances {
    ghost then = { advances };
}

/// Puts the value back into its slot.
pub struct PutsBack;

impl<S, C, R> Play<Held<S, C, R>, View<S, C, R>> for PutsBack {
    ghost then = { puts_back };
}

/// Gives one more pass.
pub struct Gives;

impl<S, C, R> Split<View<S, C, R>> for Gives {
    ghost left = { gives };

    ghost right = { given };
}

/// Shows what a pass has seen.
pub struct Shows;

impl<S, C, R> Split<View<S, C, R>> for Shows {
    ghost left = { λ v. v };

    ghost right = { watcher };
}

/// Tells a pass what another has seen.
pub struct Meets;

impl<S, C, R> Join<View<S, C, R>> for Meets {
    ghost both = { informed };

    ghost spent = { nobody };
}

/// Takes a pass in, with its calls.
pub struct TakesIn;

impl<S, C, R> Join<View<S, C, R>> for TakesIn {
    ghost both = { took_in };

    ghost spent = { nobody };
}

/// A seat at the table.
pub type Place<S> = Seat<
    Held<S, <S as Seq>::Call, <S as Seq>::Reply>,
    View<S, <S as Seq>::Call, <S as Seq>::Reply>,
>;

/// The table: a word for the lock, one for the length of the history, and a slot for the value.
pub type Board<S> = Table<
    Held<S, <S as Seq>::Call, <S as Seq>::Reply>,
    View<S, <S as Seq>::Call, <S as Seq>::Reply>,
    Snapshot<S>,
    OneHistory<S>,
    Global,
>;
