//! What does the duties of a client, as a loop beside it holds it.
use crate::beside::DutySide;
use desk_machine::DeskCalls;
use node_calls::Node;
use signer_link::Signer;

/// A place that has a duty loop's desk and nodes and its lanes, or had them.
pub(crate) trait Holds {
    ghost use Rattle.std.specs.Prelude.{◌≡◌, IsSome};
    ghost use Rattle.std.specs.declared.option.Option.{Option};
    ghost use Rattle.std.specs.declared.option.Option.TheVariants.{Some};
    ghost use Rattle.serve_run.specs.declared.beside.DutySide.{DutySide};

    /// Takes the desk's calls.
    type Desk: DeskCalls;

    /// Signs.
    type Service: Signer;

    /// Gives duties, and takes what was signed.
    type Beacon: Node + Drop;

    /// What it has.
    ghost held: { Self → Option (DutySide Self.Desk Self.Service Self.Beacon) };

    /// Takes out what it has.
    fn take(&mut self) -> DutySide<Self::Desk, Self::Service, Self::Beacon>
        requires { IsSome (held self.old) }
        ensures { held self.old ≡ Some result };

    /// Puts this in.
    fn put(&mut self, side: DutySide<Self::Desk, Self::Service, Self::Beacon>)
        ensures { held self.new ≡ Some side };
}

/// Such a place.
#[derive(Drop)]
pub(crate) struct Held<K, S, N> {
    pub(crate) side: Option<DutySide<K, S, N>>,
}

impl<K: DeskCalls + Drop, S: Signer + Drop, N: Node + Drop> Holds for Held<K, S, N> {
    type Desk = K;

    type Service = S;

    type Beacon = N;

    ghost use Rattle.std.specs.Prelude.{◌≡◌, IsSome, Some};

    ghost held = { λ h. h.side };

    fn take(&mut self) -> DutySide<K, S, N>
        requires { IsSome self.old.side }
        ensures { self.old.side ≡ Some result }
    {
        match self.side.take() {
            Some(side) => side,
            None => unreachable!(),
        }
    }

    fn put(&mut self, side: DutySide<K, S, N>)
        ensures { self.new.side ≡ Some side }
    {
        self.side = Some(side);
    }
}
