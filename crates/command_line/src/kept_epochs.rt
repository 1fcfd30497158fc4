//! Of how many epochs everything that was signed is kept.
ghost use Rattle.std.specs.Prelude.{◌≡◌};
ghost use Rattle.command_line.specs.Serving.{last_of, epochs_at};

use edge_kit::read_quoted;

/// Of how many epochs before the one at hand everything that a key signed is kept.
#[derive(Clone, Copy, Debug)]
pub enum KeptEpochs {
    /// Of all.
    All,
    /// Of that many: 2 or more. Of what is older the newest stands for the rest.
    Last(u64),
}

impl KeptEpochs {
    /// The last 64 epochs.
    pub fn sixty_four() -> Self
        ensures { result ≡ KeptEpochs.Last 64 }
    {
        KeptEpochs::Last(64)
    }

    /// What a text asks for: `all`, or a number of epochs in decimal. None where it is out of form, or below 2.
    pub fn read(text: &str) -> Option<Self>
        ensures { result ≡ epochs_at text.now }
    {
        if text == "all" {
            return Some(KeptEpochs::All);
        }
        let count = read_quoted(text)?;
        if 2 <= count {
            Some(KeptEpochs::Last(count))
        } else {
            None
        }
    }

    /// The number of epochs; none where all are kept.
    pub fn last(&self) -> Option<u64>
        ensures { result ≡ last_of self.now }
    {
        match *self {
            KeptEpochs::All => None,
            KeptEpochs::Last(count) => Some(count),
        }
    }
}
