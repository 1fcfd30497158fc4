//! Words that `clap` takes, and that are no command all the same.
ghost use Rattle.std.specs.Prelude.{◌≡◌, IfOk};
ghost use Rattle.command_line.specs.Plans.{nothing, taken_as};

use crate::planned::{Plan, Usage};
use std::alloc::{AllocError, Global};
use std::fmt;
use thiserror::Error;

/// A word that has a value of a form of its own.
#[derive(Clone, Copy, Debug)]
pub(crate) enum Argument {
    /// The genesis validators root of the chain.
    Genesis,
    /// The path of the journal.
    Journal,
    /// The address of the signing service.
    Signer,
    /// When the chain began.
    GenesisTime,
    /// The versions of the fork.
    Fork,
    /// From which epoch on blocks have the Altair body.
    Altair,
    /// Where a server listens.
    Listen,
    /// After how many slots the duties end.
    Slots,
    /// After how many connections a server ends.
    Connections,
    /// How many lanes there are.
    Lanes,
    /// Of how many epochs everything is kept.
    KeepEpochs,
    /// How long a question to a node may take.
    Timeout,
    /// The address of a beacon node.
    Node,
    /// The number of a rehearsal.
    Number,
    /// The clients of a rehearsal.
    Clients,
    /// The steps of a rehearsal.
    Steps,
}

impl Argument {
    // How the help has it, and what its values are.
    fn form(self) -> &'static str {
        match self {
            Argument::Genesis => "'--genesis <HEX32>': 0x and 64 hex digits are wanted",
            Argument::Journal => "'--journal <PATH>': a path is wanted",
            Argument::Signer => {
                "'--signer <URL>': a URL of scheme http with a host is wanted, without user, password, query or fragment"
            }
            Argument::GenesisTime => {
                "'--genesis-time <N>': seconds since 1970 in decimal below 2^64 are wanted"
            }
            Argument::Fork => {
                "'--fork <PREVIOUS:CURRENT:EPOCH>': two versions, each 0x and 8 hex digits, and an epoch in decimal below 2^64 are wanted, joined by :"
            }
            Argument::Altair => "'--altair <EPOCH>': a number in decimal below 2^64 is wanted",
            Argument::Listen => {
                "'--listen <ADDR:PORT>': localhost or four decimals up to 255 joined by dots, and a port up to 65535 in decimal are wanted, joined by :"
            }
            Argument::Slots => "'--slots <N>': a number in decimal below 2^64 is wanted",
            Argument::Connections => {
                "'--connections <N>': a number in decimal below 2^64 is wanted"
            }
            Argument::Lanes => "'--lanes <N>': 1 to 64 in decimal is wanted",
            Argument::KeepEpochs => {
                "'--keep-epochs <N>': all, or a number in decimal of 2 or more is wanted"
            }
            Argument::Timeout => "'--timeout <SECONDS>': 1 to 60 in decimal is wanted",
            Argument::Node => {
                "'<NODE>...': a URL of scheme http with a host is wanted, without user, password, query or fragment"
            }
            Argument::Number => "'<NUMBER>': a number in decimal below 2^64 is wanted",
            Argument::Clients => "'<CLIENTS>': 1 to 16 in decimal is wanted",
            Argument::Steps => "'<STEPS>': 0 to 20000 in decimal is wanted",
        }
    }
}

impl fmt::Display for Argument {
    fn fmt<W: fmt::Write>(&self, f: &mut fmt::Formatter<W>) -> fmt::Result {
        f.write_str(self.form())
    }
}

/// Why words that `clap` takes are no command.
#[derive(Clone, Copy, Debug, Error)]
pub(crate) enum Fault<'a> {
    /// No command is named.
    #[error("error: no command is named")]
    NoCommand,
    /// There is no command of this name.
    #[error("error: unrecognized subcommand '{0}'")]
    Command(&'a str),
    /// The value is out of the form of this word, or too large.
    #[error("error: invalid value '{1}' for {0}")]
    Value(Argument, &'a str),
    /// The value of `--token` is no token. It is reported without the value, which is a secret.
    #[error("error: invalid value for '--token <TEXT>': 1 to 256 ASCII characters from ! to ~ are wanted")]
    Token,
}

/// The answer to words with a fault.
pub(crate) fn refused(alloc: Global, fault: Fault<'_>) -> Result<Result<Plan, Usage>, AllocError>
    ensures { IfOk result (λ answer. taken_as answer ≡ nothing) }
{
    let text = format!(in alloc; "{fault}\n\nFor more information, try '--help'.\n")?;
    Ok(Err(Usage::new(text)))
}
