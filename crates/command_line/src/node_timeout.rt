//! How long a question to a node may take.
ghost use Rattle.std.specs.Prelude.{◌≡◌, ◌≤◌};
ghost use Rattle.command_line.specs.Serving.{timeout_at};

use edge_kit::read_quoted;
use std::marker::Model;

/// How many seconds a question to a node may take from the connection to the end of the answer, which contracts see as
/// that number: 1 to 60.
#[derive(Clone, Copy, Debug)]
pub struct NodeTimeout {
    seconds: u64,
}

impl Model for NodeTimeout {
    ghost use Rattle.std.specs.Prelude.{ℕ, ◌≤◌};

    ghost Value = { ℕ };

    ghost view = { λ t. t.seconds };

    ghost invariant = { λ t. (1 ≤ t.seconds) × (t.seconds ≤ 60) };

    ghost inverse = { λ n. record { seconds = n } };
}

impl NodeTimeout {
    /// Two seconds.
    pub fn two() -> Self
        ensures { result ≡ 2 }
    {
        NodeTimeout { seconds: 2 }
    }

    /// The seconds that a text writes in decimal: none where it is out of form, 0, or above 60.
    pub fn read(text: &str) -> Option<Self>
        ensures { result ≡ timeout_at text.now }
    {
        let seconds = read_quoted(text)?;
        if 1 <= seconds && seconds <= 60 {
            Some(NodeTimeout { seconds })
        } else {
            None
        }
    }

    /// How many seconds these are.
    pub fn seconds(&self) -> u64
        ensures seconds { result ≡ self.now }
        ensures some { 1 ≤ result }
        ensures few { result ≤ 60 }
    {
        self.seconds
    }
}
