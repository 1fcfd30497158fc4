//! The desk as one that takes the desk's calls.
ghost use Rattle.std.specs.Prelude.{[], refl};
ghost use Rattle.desk_machine.specs.Machine.{MayCall};
ghost use Rattle.check_sign.specs.Paths.{Path};
ghost use Rattle.check_sign.specs.PathLaws.{path_admits, path_more};

use crate::desk::Desk;
use desk_machine::{DeskCall, DeskCalls, DeskReply};
use edge_kit::{Disk, PubKey};

impl<D: Disk> DeskCalls for Desk<D> {
    ghost ready = { λ d. Unit {0} };

    ghost allows = { λ d c. MayCall d.contents.grants c };

    ghost leads = { λ d xs e. Path D.moment D.leaves D.faults d xs e };

    fn call(&mut self, call: DeskCall) -> DeskReply {
        Desk::call(self, call)
    }

    fn close_idle(&mut self, key: &PubKey) -> DeskReply {
        DeskCalls::call(self, DeskCall::FinishClose { key: *key })
    }

    ghost leads_none = { λ d. refl };

    ghost leads_more = { λ d e f xs ys p q. path_more D.moment D.leaves D.faults d e f xs ys p q };

    ghost free = { λ d c h. path_admits D.moment D.leaves D.faults d d [] c refl h };

    ghost admits = { λ d e made c p h. path_admits D.moment D.leaves D.faults d e made c p h };
}
