//! The desk lent to several passes, and taken back.
ghost use Rattle.std.specs.Prelude.{◌≡◌, ◌≤◌, IfOk, IfErr};
ghost use Rattle.desk_lock.specs.Sharing.{opening, passes_of, given_of, AreAllAt};
ghost use Rattle.desk_machine.specs.Given.{MayMake};
ghost use Rattle.desk_seat.specs.Steps.{DeskStep};
ghost use Rattle.desk_seat.specs.Turns.{Served};

use crate::lent_desk::LentDesk;
use check_sign::Desk;
use desk_lock::{Owner, Pass};
use edge_kit::Disk;
use std::alloc::Global;

/// Lends a desk to `n` passes, 1 to 66.
///
/// # Errors
///
/// The desk as it was, where memory was wanted.
pub fn lend<D: Disk>(alloc: Global, desk: Desk<D>, n: u64) -> Result<Owner<LentDesk<D>>, Desk<D>>
    requires count { (1 ≤ n) × (n ≤ 66) }
    ensures ok { IfOk result (λ s. (opening s.shared ≡ desk) × (passes_of s ≡ n) × (given_of s ≡ 0)) }
    ensures err { IfErr result (λ d. d ≡ desk) }
{
    match Owner::new(alloc, LentDesk::new(desk), n) {
        Ok(owner) => Ok(owner),
        Err(lent) => Err(lent.into_desk()),
    }
}

/// Takes the desk back, once all passes are handed back in the order of their numbers: as one history of their calls
/// left it. Takes no memory.
pub fn take_back<D: Disk>(owner: Owner<LentDesk<D>>, passes: Vec<Pass<LentDesk<D>>>) -> Desk<D>
    requires given { given_of owner ≡ passes_of owner }
    requires all { AreAllAt (DeskStep D.moment D.leaves D.faults) MayMake owner passes.items }
    ensures { Served D.moment D.leaves D.faults (opening owner.shared) passes.items result }
{
    owner.close(passes).into_desk()
}
