//! The request of a line.
use custody_format::Keystores;
use edge_kit::{Items, PubKey};
use interchange_io::ReadFault;
use signer_link::SignObject;
use slash_defs::{File, Message};

/// Keys, in the order of the line.
pub type Keys = Items<PubKey>;

/// What a line asks for.
#[derive(Drop)]
pub enum Op {
    /// To merge an interchange file (EIP-3076).
    Merge {
        file: File,
    },
    /// To merge a text that is no interchange file, for this cause. Nothing else is done, also where keys were to be
    /// taken in.
    BadFile {
        fault: ReadFault,
    },
    /// To make a key active.
    Activate {
        key: PubKey,
    },
    /// To merge the interchange file, if there is one, and to take the keys of keystores in.
    Import {
        file: Option<File>,
        keystores: Keystores,
    },
    /// To give keys up, and hand out what is kept of them.
    Delete {
        keys: Keys,
    },
    /// To list the active keys.
    List,
    /// To sign a block or a vote. The object is there where the line gave it in place of the signing root.
    Propose {
        key: PubKey,
        message: Message,
        object: Option<SignObject>,
    },
    /// To write an interchange file of these keys, or of all that are kept.
    Export {
        keys: Option<Keys>,
    },
    /// To prune the record of a key.
    Prune {
        key: PubKey,
    },
    /// To note whether a key was seen live in the epoch `of`, which may be any number of 64 bits.
    Live {
        key: PubKey,
        of: u64,
        is_live: bool,
    },
    /// To write what the desk keeps into the journal's other file, and go on in that.
    Compact,
}

/// The request of a line: what it asks for, and the moment, an epoch, where it names one.
#[derive(Drop)]
pub struct Request {
    pub op: Op,
    pub epoch: Option<u64>,
}
