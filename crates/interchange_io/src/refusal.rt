//! What is left of a list once one of its elements is refused.
ghost use Rattle.std.specs.Prelude.{◌≡◌, ◌<◌, length, Err, OnOk};
ghost use Rattle.json_walk.specs.Walk.{items_at};
ghost use Rattle.interchange_io.specs.Halts.{ReadsOrHalts};

use crate::fault::ReadFault;
use crate::halt::Halt;
use json::Reader;
use json_walk::skip_items;

/// Passes over the items of an array, from one on, and its closing bracket, where an item before them was refused.
pub(crate) fn refuse_items<T: Drop>(
    reader: &mut Reader<'_>,
    depth: usize,
    fault: ReadFault,
) -> Result<Result<T, ReadFault>, Halt>
    ensures value { ReadsOrHalts result (λ _. Err fault) (items_at depth (length reader.old) reader.old) reader.new }
    ensures shorter { OnOk result (length reader.new < length reader.old) }
{
    skip_items(reader, depth)?;
    Ok(Err(fault))
}
