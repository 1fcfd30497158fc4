//! In how many lanes duties are done.
ghost use Rattle.std.specs.Prelude.{◌≡◌, ◌≤◌};
ghost use Rattle.command_line.specs.Serving.{lanes_at};

use edge_kit::read_quoted;
use std::marker::Model;

/// In how many lanes duties are done at the same time, which contracts see as that number: 1 to 64.
#[derive(Clone, Copy, Debug)]
pub struct LaneCount {
    count: u64,
}

impl Model for LaneCount {
    ghost use Rattle.std.specs.Prelude.{ℕ, ◌≤◌};

    ghost Value = { ℕ };

    ghost view = { λ l. l.count };

    ghost invariant = { λ l. (1 ≤ l.count) × (l.count ≤ 64) };

    ghost inverse = { λ n. record { count = n } };
}

impl LaneCount {
    /// Four lanes.
    pub fn four() -> Self
        ensures { result ≡ 4 }
    {
        LaneCount { count: 4 }
    }

    /// The number of lanes that a text writes in decimal: none where it is out of form, 0, or above 64.
    pub fn read(text: &str) -> Option<Self>
        ensures { result ≡ lanes_at text.now }
    {
        let count = read_quoted(text)?;
        if 1 <= count && count <= 64 {
            Some(LaneCount { count })
        } else {
            None
        }
    }

    /// How many lanes there are.
    pub fn get(&self) -> u64
        ensures count { result ≡ self.now }
        ensures some { 1 ≤ result }
        ensures few { result ≤ 64 }
    {
        self.count
    }
}
