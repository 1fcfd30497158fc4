//! What became of the keys of a request of the Keymanager API, key by key.
use crate::json_scan::{JsonScan, Met};
use edge_sockets::{Heard, Visible};
use edge_system::Reports;
use std::alloc::{AllocError, Global};
use std::fmt;
use std::fmt::{Display, Formatter};
use std::io::Eprint;

/// How many hex digits a key has.
const KEY_DIGITS: usize = 96;

/// How many keys of a request are held at most.
const MOST_KEYS: usize = 4096;

/// What stands before the key in the text of a keystore (EIP-2335), but for blanks.
const KEY_MARK: &[u8] = b"\"pubkey\":\"";

/// What the message of a key begins with where it has the words of the signing service.
const SERVICE_WORDS: &[u8] = b"signer: ";

/// What is reported of the messages of a reply.
#[derive(Clone, Copy)]
pub(crate) enum Messages {
    /// All that they say.
    Whole,
    /// What this program says in them, and nothing that the signing service said: that may have a part of a keystore.
    Own,
}

impl Messages {
    // Those of a reply to a request.
    pub(crate) fn of(heard: &Heard) -> Self {
        if heard.is_import() {
            Messages::Own
        } else {
            Messages::Whole
        }
    }

    // What is reported of this message.
    fn shown<'m>(&self, message: &'m [u8]) -> &'m [u8] {
        match self {
            Messages::Own if message.starts_with(SERVICE_WORDS) => own_words(message),
            Messages::Own | Messages::Whole => message,
        }
    }
}

// What this program says in a message about the signing service.
fn own_words(message: &[u8]) -> &[u8] {
    let has_own = message == b"signer: fault".as_slice()
        || message == b"signer: bad answer".as_slice();
    if has_own { message } else { b"signer" }
}

/// A key as the hex digits that a request has of it: none where it has something else.
#[derive(Drop)]
struct KeyDigits(Vec<u8>);

impl Display for KeyDigits {
    fn fmt<W: fmt::Write>(&self, f: &mut Formatter<W>) -> fmt::Result {
        let KeyDigits(digits) = self;
        if digits.len() == KEY_DIGITS {
            write!(f, "0x{}", Visible(digits.as_slice()))
        } else {
            write!(f, "a key that cannot be read")
        }
    }
}

/// Looks for the key in a text, byte by byte.
#[derive(Drop)]
struct KeySearch {
    /// How many bytes of the mark came in a row; all of them where digits come.
    marked: usize,
    digits: Vec<u8>,
}

impl KeySearch {
    // Before a text that has the key after a mark.
    fn begin(&mut self) {
        self.marked = 0;
        self.digits.clear();
    }

    // Before a text that is the key.
    fn begin_key(&mut self) {
        self.marked = KEY_MARK.len();
        self.digits.clear();
    }

    // Takes the next byte of the text.
    fn take(&mut self, byte: u8) {
        if self.marked == KEY_MARK.len() {
            self.take_digit(byte);
        } else if KEY_MARK.get(self.marked) == Some(&byte) {
            self.marked = self.marked.saturating_add(1);
            if self.marked == KEY_MARK.len() {
                self.digits.clear();
            }
        } else if !byte.is_ascii_whitespace() {
            self.marked = usize::from(byte == b'"');
        }
    }

    // Takes a byte after the mark: a digit, or `x` after a first `0`, or what ends the digits.
    fn take_digit(&mut self, byte: u8) {
        if byte == b'x' && self.digits.as_slice() == b"0".as_slice() {
            self.digits.clear();
        } else if byte.is_ascii_hexdigit() && self.digits.len() < KEY_DIGITS {
            let _ = self.digits.push(byte.to_ascii_lowercase());
        } else {
            self.marked = 0;
        }
    }
}

/// What a reply says of one key.
#[derive(Drop)]
struct Outcome {
    status: Vec<u8>,
    message: Vec<u8>,
}

impl Outcome {
    fn clear(&mut self) {
        self.status.clear();
        self.message.clear();
    }

    fn is_error(&self) -> bool {
        self.status.as_slice() == b"error".as_slice()
    }
}

/// What is reported of one key.
#[derive(Drop)]
struct Told<'a> {
    outcome: &'a Outcome,
    messages: Messages,
}

impl Display for Told<'_> {
    fn fmt<W: fmt::Write>(&self, f: &mut Formatter<W>) -> fmt::Result {
        write!(f, "{}", Visible(self.outcome.status.as_slice()))?;
        let message = self.messages.shown(self.outcome.message.as_slice());
        if !message.is_empty() {
            write!(f, ": {}", Visible(message))?;
        }
        Ok(())
    }
}

/// The keys of a request that takes keystores in or gives them up, and what its reply says of each, in the same order. Of the
/// request nothing but the keys is held.
#[derive(Drop)]
pub(crate) struct KeyOutcomes {
    alloc: Global,
    asked: JsonScan,
    answered: JsonScan,
    search: KeySearch,
    keys: Vec<KeyDigits>,
    /// Memory was wanted for a key: no later one is held.
    is_cut: bool,
    outcome: Outcome,
    /// How many keys the reply has named so far.
    told: usize,
}

impl KeyOutcomes {
    // Those of a connection over which nothing came yet. Takes no memory.
    pub(crate) fn new(alloc: Global) -> Self {
        KeyOutcomes {
            alloc,
            asked: JsonScan::new(alloc),
            answered: JsonScan::new(alloc),
            search: KeySearch {
                marked: 0,
                digits: Vec::new(alloc),
            },
            keys: Vec::new(alloc),
            is_cut: false,
            outcome: Outcome {
                status: Vec::new(alloc),
                message: Vec::new(alloc),
            },
            told: 0,
        }
    }

    // Takes one piece more of the request. What was answered before was no answer to all of it.
    pub(crate) fn ask(&mut self, piece: &[u8]) {
        self.answered.begin();
        self.told = 0;
        for byte in piece {
            let met = self.asked.take(*byte);
            self.note_asked(met);
        }
    }

    // Notes what a byte of the request brought.
    fn note_asked(&mut self, met: Met) {
        match met {
            Met::Begun if self.asked.member() == "pubkeys" => self.search.begin_key(),
            Met::Begun => self.search.begin(),
            Met::Byte(byte) if self.names_keys() => self.search.take(byte),
            Met::Text if self.names_keys() => self.keep_key(),
            _ => {}
        }
    }

    // Whether the member of the request at hand names keys.
    fn names_keys(&self) -> bool {
        matches!(self.asked.member(), "pubkeys" | "keystores")
    }

    // Keeps the key of a text that is over. Where memory is wanted for one, neither it nor a later one is kept: so each that is
    // kept stands at its place.
    fn keep_key(&mut self) {
        if !self.is_cut && self.keys.len() < MOST_KEYS {
            self.is_cut = self.push_key().is_err();
        }
    }

    fn push_key(&mut self) -> Result<(), AllocError> {
        let digits = self.search.digits.as_slice().to_vec(self.alloc)?;
        Ok(self.keys.push(KeyDigits(digits))?)
    }

    // Takes one piece more of the reply, and reports each key of which it says what became of it, with the front of its
    // message.
    pub(crate) fn answer<E: Eprint>(
        &mut self,
        handle: &E,
        reports: Reports,
        messages: Messages,
        piece: &[u8],
    ) {
        for byte in piece {
            match self.answered.take(*byte) {
                Met::Text => self.note_text(),
                Met::Object if self.answered.member() == "data" => {
                    self.report(handle, reports, messages);
                }
                _ => {}
            }
        }
    }

    // Notes a text of the reply.
    fn note_text(&mut self) {
        match self.answered.inner() {
            "status" => self.answered.swap_text(&mut self.outcome.status),
            "message" => self.answered.swap_text(&mut self.outcome.message),
            _ => {}
        }
    }

    // Reports what became of the next key, where the reply says so.
    fn report<E: Eprint>(&mut self, handle: &E, reports: Reports, messages: Messages) {
        if self.outcome.status.is_empty() {
            return;
        }
        if reports.has_news() || self.outcome.is_error() {
            self.tell(handle, messages);
        }
        self.told = self.told.saturating_add(1);
        self.outcome.clear();
    }

    fn tell<E: Eprint>(&self, handle: &E, messages: Messages) {
        let outcome = &self.outcome;
        let told = Told { outcome, messages };
        match self.keys.get(self.told) {
            Some(key) => {
                let _ = eprintln!(handle; "Keymanager API: {key}: {told}");
            }
            None => {
                let _ = eprintln!(handle; "Keymanager API: a key that is not held: {told}");
            }
        }
    }
}
