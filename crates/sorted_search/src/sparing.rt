//! Room for more elements of a list, with little of it empty.
ghost use Rattle.std.specs.Prelude.{◌≡◌, ◌+◌, ◌/◌, ◌≤◌, ◌<◌, max, min, OnOk, OnErr, IsOk, vec_len, vec_capacity};

use std::alloc::AllocError;

/// Makes room for that many more elements. Where room is lacking, the list grows to the length that is wanted and as much
/// more as it has elements, but by 63 at most, or by a sixty-fourth of its length where that is more. So little of it stays
/// empty, lists of all lengths leave places of equal sizes for each other, and elements that are added one at a time are
/// moved a fixed number of times each on average, where they are many.
///
/// # Errors
///
/// `AllocError` where memory was wanted. The list is as it was.
pub fn reserve_sparingly<T>(list: &mut Vec<T>, more: usize) -> Result<(), AllocError>
    ensures items { list.new.items ≡ list.old.items }
    ensures len { vec_len list.new ≡ vec_len list.old }
    ensures ok { OnOk result (vec_len list.new + more ≤ vec_capacity list.new) }
    ensures capacity { vec_capacity list.old ≤ vec_capacity list.new }
    ensures succeeds { vec_len list.old + more ≤ vec_capacity list.old → IsOk result }
    ensures enough { vec_len list.old + more ≤ vec_capacity list.old → vec_capacity list.new ≡ vec_capacity list.old }
    ensures grown { OnOk result (vec_capacity list.old < vec_len list.old + more
        → vec_capacity list.new ≡ vec_len list.old + (more + max (vec_len list.old / 64) (min (vec_len list.old) 63))) }
    ensures err { OnErr result (vec_capacity list.new ≡ vec_capacity list.old) }
{
    let len = list.len();
    if more <= list.capacity() - len {
        return Ok(());
    }
    let wanted = more.checked_add(spare_of(len)).ok_or(AllocError)?;
    list.reserve_exact(wanted)
}

/// How many elements more than are wanted a list of that length has room for once it grew.
fn spare_of(len: usize) -> usize
    ensures { result ≡ max (len / 64) (min len 63) }
{
    (len / 64).max(len.min(63))
}
