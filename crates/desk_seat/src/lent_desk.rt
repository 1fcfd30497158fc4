//! The desk as a value that is shared.
ghost use Rattle.std.specs.Prelude.{◌≡◌};

use check_sign::Desk;
use desk_lock::Seq;
use desk_machine::{DeskCall, DeskReply};
use edge_kit::Disk;
use std::marker::Model;

/// A desk that is lent to passes.
#[derive(Drop)]
pub struct LentDesk<D: Disk> {
    desk: Desk<D>,
}

impl<D: Disk> Model for LentDesk<D> {
    ghost use Rattle.check_sign.specs.Contents.{Seen};

    ghost Value = { Seen D };

    ghost view = { λ d. d.desk };
}

impl<D: Disk> LentDesk<D> {
    /// The desk, to be lent. Takes no memory.
    pub fn new(desk: Desk<D>) -> LentDesk<D>
        ensures { result ≡ desk }
    {
        LentDesk { desk }
    }

    /// The desk itself. Takes no memory.
    pub fn into_desk(self) -> Desk<D>
        ensures { result ≡ self }
    {
        let LentDesk { desk } = self;
        desk
    }
}

impl<D: Disk> Seq for LentDesk<D> {
    ghost use Rattle.desk_machine.specs.Machine.{MayCall};
    ghost use Rattle.desk_machine.specs.Given.{MayMake};
    ghost use Rattle.desk_seat.specs.Steps.{DeskStep};
    ghost use Rattle.desk_seat.specs.FairLaws.{admitted};

    type Call = DeskCall;

    type Reply = DeskReply;

    ghost begins = { λ d. Unit {0} };

    ghost steps = { DeskStep D.moment D.leaves D.faults };

    ghost may = { MayMake };

    ghost can = { λ d c. MayCall d.contents.grants c };

    fn apply(&mut self, call: DeskCall) -> DeskReply {
        self.desk.call(call)
    }

    ghost admits = { λ s t log by call begun legal ok. admitted D.moment D.leaves D.faults s t log by call legal ok };
}
