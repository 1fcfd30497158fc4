//! What the words ask the program to do, and the texts that answer other words.
ghost use Rattle.std.specs.Prelude.{◌≡◌, string_bytes};

use crate::path_text::PathText;
use crate::proxy_options::ProxyOptions;
use crate::rehearsal_size::RehearsalSize;
use crate::serve_options::ServeOptions;
use edge_kit::Root;
use phase0_types::Fork;
use service_url::ServiceUrl;
use std::fmt;
use std::marker::Model;
use thiserror::Error;

/// What the words ask the program to do.
#[derive(Debug, Drop)]
pub enum Plan {
    /// A session over standard input and output, for the chain of this genesis validators root, whose
    /// signing domains are those of this fork. What it signs is kept in the journal of this path, and
    /// where there is none, for the length of the run. From the epoch of Altair on blocks have the Altair
    /// body (consensus-specs, `ALTAIR_FORK_EPOCH`), and where there is none, never. The signing service at
    /// this address signs, and where there is none, a stand-in in memory, whose signatures are no BLS
    /// signatures. With a watch, a key that becomes active signs only once it was told not live in the two
    /// epochs after.
    Session {
        genesis: Root,
        journal: Option<PathText>,
        fork: Fork,
        altair: Option<u64>,
        signer: Option<ServiceUrl>,
        watch: bool,
    },
    /// The validator client: with these options it does the duties of the active keys, turn by turn, and answers
    /// requests of the Keymanager API.
    Serve(ServeOptions),
    /// The signing proxy: with these options it answers requests for signatures of validator clients, and those of the
    /// Keymanager API.
    Proxy(ProxyOptions),
    /// The interchange file on standard input, of the chain of this genesis validators root, is merged
    /// into the journal of this path.
    Merge {
        genesis: Root,
        journal: PathText,
    },
    /// What each key of the journal of this path has is written to standard output. The journal is of the
    /// chain of this genesis validators root.
    Show {
        genesis: Root,
        journal: PathText,
    },
    /// A rehearsal of this size, drawn from this number.
    Rehearse {
        number: u64,
        size: RehearsalSize,
    },
    /// Nothing but a text, for standard output: the words ask for help or for the version.
    Shown(ShownText),
}

/// The text that `--help` or `--version` asks for, which contracts see as its bytes. It ends in a
/// newline.
#[derive(Drop)]
pub struct ShownText {
    text: String,
}

impl Model for ShownText {
    ghost use Rattle.std.specs.Prelude.{ℕ, List, string_bytes};

    ghost Value = { List ℕ };

    ghost view = { λ s. string_bytes s.text };
}

impl ShownText {
    /// The text of a string.
    pub fn new(text: String) -> Self
        ensures { result ≡ string_bytes text }
    {
        ShownText { text }
    }

    /// The text, lent.
    pub fn as_str(&self) -> &str
        ensures { result.now ≡ self.now }
    {
        self.text.as_str()
    }
}

impl fmt::Debug for ShownText {
    fn fmt<W: fmt::Write>(&self, f: &mut fmt::Formatter<W>) -> fmt::Result {
        write!(f, "{:?}", self.text.as_str())
    }
}

/// The words are no command. It holds what is told of them, which contracts see as its bytes: what is
/// wrong, the usage and where to find help, of several lines, the last of which ends in a newline.
#[derive(Drop, Error)]
#[error("{}", .text.as_str())]
pub struct Usage {
    text: String,
}

impl Model for Usage {
    ghost use Rattle.std.specs.Prelude.{ℕ, List, string_bytes};

    ghost Value = { List ℕ };

    ghost view = { λ u. string_bytes u.text };
}

impl Usage {
    /// The text of a string.
    pub fn new(text: String) -> Self
        ensures { result ≡ string_bytes text }
    {
        Usage { text }
    }

    /// The text, lent.
    pub fn as_str(&self) -> &str
        ensures { result.now ≡ self.now }
    {
        self.text.as_str()
    }
}

impl fmt::Debug for Usage {
    fn fmt<W: fmt::Write>(&self, f: &mut fmt::Formatter<W>) -> fmt::Result {
        write!(f, "{:?}", self.text.as_str())
    }
}
