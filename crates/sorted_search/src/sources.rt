//! The bounds of the sources of votes in file order.
ghost use Rattle.std.specs.Prelude.{◌≡◌, ◌≤◌, ◌<◌, [], OnOk, length, vec_capacity};
ghost use Rattle.std.specs.List.{remove};
ghost use Rattle.sorted_search.specs.Sources.{AreGreatest, AreLeast};

use crate::raising::{lower_before, raise_from};
use crate::sparing::reserve_sparingly;
use slash_defs::VoteEntry;
use std::alloc::{AllocError, Global};
use std::marker::Model;

/// Of votes in file order, the greatest source up to each place and the least source from each place on.
#[derive(Drop)]
pub struct SourceBounds {
    greatest: Vec<u64>,
    least: Vec<u64>,
}

impl Model for SourceBounds {
    ghost use Rattle.std.specs.Prelude.{min, vec_capacity};
    ghost use Rattle.sorted_search.specs.Sources.{Bounds};

    ghost Value = { Bounds };

    ghost view = { λ b. record {
      greatest = b.greatest.items;
      least = b.least.items;
      capacity = min (vec_capacity b.greatest) (vec_capacity b.least);
    } };
}

impl SourceBounds {
    /// Those of no vote. Takes no memory.
    pub fn new(alloc: Global) -> Self
        ensures greatest { result.greatest ≡ [] }
        ensures least { result.least ≡ [] }
    {
        SourceBounds {
            greatest: Vec::new(alloc),
            least: Vec::new(alloc),
        }
    }

    /// Reserves room for that many votes in all.
    pub fn reserve(&mut self, wanted: usize) -> Result<(), AllocError>
        ensures room { OnOk result (wanted ≤ self.new.capacity) }
        ensures greatest { self.new.greatest ≡ self.old.greatest }
        ensures least { self.new.least ≡ self.old.least }
        ensures capacity { self.old.capacity ≤ self.new.capacity }
    {
        let more = wanted.saturating_sub(self.greatest.len());
        reserve_sparingly(&mut self.greatest, more)?;
        let more = wanted.saturating_sub(self.least.len());
        reserve_sparingly(&mut self.least, more)
    }

    /// The greatest source up to each place.
    pub fn greatest(&self) -> &[u64]
        ensures { result.now ≡ self.now.greatest }
    {
        self.greatest.as_slice()
    }

    /// The least source from each place on.
    pub fn least(&self) -> &[u64]
        ensures { result.now ≡ self.now.least }
    {
        self.least.as_slice()
    }

    /// Makes them those of these votes, in the room that was reserved.
    pub fn rebuild(&mut self, votes: &[VoteEntry])
        requires { length votes.now ≤ self.old.capacity }
        ensures greatest { AreGreatest votes.now self.new.greatest }
        ensures least { AreLeast votes.now self.new.least }
        ensures capacity { self.old.capacity ≤ self.new.capacity }
    {
        fill_greatest(&mut self.greatest, votes);
        fill_least(&mut self.least, votes);
    }

    /// Makes them those of these votes, where they were those of the votes without the one at a place, in the
    /// room that was reserved. It goes on from the place only as long as bounds change.
    pub fn insert(&mut self, place: usize, votes: &[VoteEntry])
        requires within { place < length votes.now }
        requires greatest { AreGreatest (remove votes.now place) self.old.greatest }
        requires least { AreLeast (remove votes.now place) self.old.least }
        requires room { length votes.now ≤ self.old.capacity }
        ensures greatest { AreGreatest votes.now self.new.greatest }
        ensures least { AreLeast votes.now self.new.least }
        ensures capacity { self.old.capacity ≤ self.new.capacity }
    {
        insert_greatest(&mut self.greatest, place, votes);
        insert_least(&mut self.least, place, votes);
    }
}

/// Puts the greatest source up to a place into a list, and raises those behind it that are less.
fn insert_greatest(list: &mut Vec<u64>, place: usize, votes: &[VoteEntry])
    requires within { place < length votes.now }
    requires without { AreGreatest (remove votes.now place) list.old.items }
    requires room { length votes.now ≤ vec_capacity list.old }
    ensures greatest { AreGreatest votes.now list.new.items }
    ensures capacity { vec_capacity list.old ≤ vec_capacity list.new }
{
    let source = votes[place].source;
    let before = if place == 0 { 0 } else { list[place - 1] };
    raise_from(list, place, source);
    let _ = list.insert(place, source.max(before));
}

/// Puts the least source from a place on into a list, and lowers those before it that are greater.
fn insert_least(list: &mut Vec<u64>, place: usize, votes: &[VoteEntry])
    requires within { place < length votes.now }
    requires without { AreLeast (remove votes.now place) list.old.items }
    requires room { length votes.now ≤ vec_capacity list.old }
    ensures least { AreLeast votes.now list.new.items }
    ensures capacity { vec_capacity list.old ≤ vec_capacity list.new }
{
    let source = votes[place].source;
    let behind = if place == list.len() {
        u64::MAX
    } else {
        list[place]
    };
    lower_before(list, place, source);
    let _ = list.insert(place, source.min(behind));
}

/// Makes a list of the greatest source up to each place, in the room that was reserved.
fn fill_greatest(list: &mut Vec<u64>, votes: &[VoteEntry])
    requires { length votes.now ≤ vec_capacity list.old }
    ensures greatest { AreGreatest votes.now list.new.items }
    ensures capacity { vec_capacity list.old ≤ vec_capacity list.new }
{
    list.clear();
    let mut greatest = 0;
    for entry in votes {
        greatest = entry.source.max(greatest);
        let _ = list.push(greatest);
    }
}

/// Makes a list of the least source from each place on, in the room that was reserved.
fn fill_least(list: &mut Vec<u64>, votes: &[VoteEntry])
    requires { length votes.now ≤ vec_capacity list.old }
    ensures least { AreLeast votes.now list.new.items }
    ensures capacity { vec_capacity list.old ≤ vec_capacity list.new }
{
    let _ = list.resize(votes.len(), 0);
    let mut least = u64::MAX;
    let mut at = votes.len();
    while at > 0 {
        at -= 1;
        least = votes[at].source.min(least);
        list[at] = least;
    }
}
