//! Lists and vectors as values of their shapes.
ghost use Rattle.std.specs.Prelude.{◌≡◌, ◌≤◌, ℕ, List, length, map, Ok, IfOk, OnOk, All};
ghost use Rattle.serde_json.specs.View.{view, items_view, items_of};
ghost use Rattle.ssz_roots.specs.Trees.{merkle_root, root_chunks};
ghost use Rattle.phase0_types.specs.Faults.{read_as};
ghost use Rattle.phase0_types.specs.Fitting.{Fits};
ghost use Rattle.phase0_types.specs.Names.{bytes_names, list_names, uint64_list_names, vector_names};
ghost use Rattle.phase0_types.specs.Reading.{each_item, read_at};
ghost use Rattle.phase0_types.specs.Roots.{root_of};
ghost use Rattle.phase0_types.specs.Shapes.{byte_vector, list, uint64_list, vector};
ghost use Rattle.phase0_types.specs.Writing.{write};

use crate::fault::{ReadFault, missing, too_long};
use crate::list::BoundedList;
use crate::member::Member;
use crate::shaped::{Container, ReadResult, Shaped};
use edge_kit::Root;
use serde_json::Value;
use ssz_roots::{Chunks, chunks_root, mix_length, numbers_root};
use std::alloc::{AllocError, Global};

#[tactic(auto, unfolding(crate::specs::Roots::root_of, crate::specs::Reading::read_at, crate::specs::Writing::write, crate::specs::Fitting::Fits))]
impl<T: Container, const LIMIT: usize> Shaped for BoundedList<T, LIMIT> {
    ghost shape = { list T.shape LIMIT };

    ghost value = { λ items. map T.value items };

    fn root(&self) -> Root {
        let items = self.as_slice();
        mix_length(items_root(items, LIMIT), items.len() as u64)
    }

    fn read_at(alloc: Global, place: Option<Member>, json: &Value) -> ReadResult<Self> {
        read_list(alloc, place, json)
    }

    fn to_json(&self, alloc: Global) -> Result<Value, AllocError> {
        Ok(Value::Array(items_json(alloc, self.as_slice())?))
    }

    ghost names = { list_names T.shape LIMIT T.names };
}

#[tactic(auto, unfolding(crate::specs::Roots::root_of, crate::specs::Reading::read_at, crate::specs::Writing::write, crate::specs::Fitting::Fits))]
impl<const LIMIT: usize> Shaped for BoundedList<u64, LIMIT> {
    ghost shape = { uint64_list LIMIT };

    ghost value = { λ numbers. numbers };

    fn root(&self) -> Root {
        let numbers = self.as_slice();
        mix_length(numbers_root(numbers, LIMIT as u64), numbers.len() as u64)
    }

    fn read_at(alloc: Global, place: Option<Member>, json: &Value) -> ReadResult<Self> {
        read_list(alloc, place, json)
    }

    fn to_json(&self, alloc: Global) -> Result<Value, AllocError> {
        Ok(Value::Array(items_json(alloc, self.as_slice())?))
    }

    ghost names = { uint64_list_names LIMIT };
}

#[tactic(auto, unfolding(crate::specs::Roots::root_of, crate::specs::Reading::read_at, crate::specs::Writing::write, crate::specs::Fitting::Fits))]
impl<const N: usize> Shaped for [Root; N] {
    ghost shape = { vector (byte_vector 32) N };

    ghost value = { λ roots. root_chunks roots };

    fn root(&self) -> Root {
        items_root(self.as_slice(), N)
    }

    fn read_at(alloc: Global, place: Option<Member>, json: &Value) -> ReadResult<Self> {
        let Some(array) = json.as_array() else {
            return Ok(Err(missing(place)));
        };
        if array.len() != N {
            return Ok(Err(too_long(place)));
        }
        match read_items::<Root>(alloc, place, array.as_slice())? {
            Ok(items) => Ok(Ok(roots_of(items.as_slice()))),
            Err(fault) => Ok(Err(fault)),
        }
    }

    fn to_json(&self, alloc: Global) -> Result<Value, AllocError> {
        Ok(Value::Array(items_json(alloc, self.as_slice())?))
    }

    ghost names = { vector_names (byte_vector 32) N (bytes_names 32) };
}

/// The roots as an array.
fn roots_of<const N: usize>(items: &[Root]) -> [Root; N]
    requires { length items.now ≡ N }
    ensures { result ≡ items.now }
{
    let mut roots = [Root([0; 32]); N];
    roots.copy_from_slice(items);
    roots
}

/// The list that stands at a place, whose length is looked at before its elements.
#[tactic(auto, unfolding(crate::specs::Reading::read_at))]
fn read_list<T: Shaped, const LIMIT: usize>(
    alloc: Global,
    place: Option<Member>,
    json: &Value,
) -> ReadResult<BoundedList<T, LIMIT>>
    ensures { IfOk result (λ read. read_as (λ items. map T.value items) read
        ≡ read_at (list T.shape LIMIT) place (view json.now)) }
{
    let Some(array) = json.as_array() else {
        return Ok(Err(missing(place)));
    };
    if array.len() > LIMIT {
        return Ok(Err(too_long(place)));
    }
    match read_items(alloc, place, array.as_slice())? {
        Ok(items) => Ok(bounded(place, items)),
        Err(fault) => Ok(Err(fault)),
    }
}

/// The list of values, which are no more than its limit.
fn bounded<T: Drop, const LIMIT: usize>(
    place: Option<Member>,
    items: Vec<T>,
) -> Result<BoundedList<T, LIMIT>, ReadFault>
    requires { length items.items ≤ LIMIT }
    ensures { result ≡ Ok items.items }
{
    match BoundedList::try_new(items) {
        Ok(list) => Ok(list),
        Err(_) => Err(too_long(place)),
    }
}

/// The roots of values, each made when it is asked for.
#[derive(Drop)]
struct ItemChunks<'a, T>(&'a [T]);

impl<T: Shaped> Chunks for ItemChunks<'_, T> {
    ghost chunks = { λ items. map (root_of T.shape) (map T.value items.0.now) };

    fn count(&self) -> usize {
        self.0.len()
    }

    fn chunk(&self, index: usize) -> Root {
        self.0[index].root()
    }
}

/// The root of the tree over at most `limit` values; no length is mixed in.
fn items_root<T: Shaped>(items: &[T], limit: usize) -> Root
    requires { length items.now ≤ limit }
    ensures { result.0 ≡ merkle_root limit (map (root_of T.shape) (map T.value items.now)) }
{
    let chunks = ItemChunks(items);
    chunks_root(&chunks, limit as u64)
}

/// The values of an array's elements, or the first fault.
fn read_items<T: Shaped>(
    alloc: Global,
    place: Option<Member>,
    items: &[Value],
) -> ReadResult<Vec<T>>
    ensures read { IfOk result (λ read. read_as (λ list. map T.value list.items) read
        ≡ each_item (read_at T.shape place) (items_view items.now)) }
    ensures count { IfOk result (λ read. IfOk read (λ list. length list.items ≡ length items.now)) }
{
    let mut list = Vec::with_capacity(alloc, items.len())?;
    'items: for item in items {
        match T::read_at(alloc, place, item)? {
            Ok(value) => list.push(value)?,
            Err(fault) => return Ok(Err(fault)),
        }
    }
    Ok(Ok(list))
}

/// The array of the JSON of each value.
fn items_json<T: Shaped>(alloc: Global, items: &[T]) -> Result<Vec<Value>, AllocError>
    ensures written { IfOk result
        (λ list. items_view list.items ≡ items_of (map (write T.shape) (map T.value items.now))) }
    ensures fit { OnOk result (All (Fits T.shape) (map T.value items.now)) }
{
    let mut list = Vec::with_capacity(alloc, items.len())?;
    'items: for item in items {
        list.push(item.to_json(alloc)?)?;
    }
    Ok(list)
}
