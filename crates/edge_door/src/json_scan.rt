//! The texts of a JSON body, as its bytes come over a connection.
use std::alloc::Global;
use std::mem;

/// What ends the head of an HTTP message.
const HEAD_END: &[u8] = b"\r\n\r\n";

/// How many bytes of a text are held at most.
const TEXT_BYTES: usize = 200;

/// What a byte of a body brought.
#[derive(Clone, Copy)]
pub(crate) enum Met {
    /// Nothing that counts.
    Nothing,
    /// A text that is a value began.
    Begun,
    /// This byte of a text in an array.
    Byte(u8),
    /// The end of a text that is a value.
    Text,
    /// The end of an object.
    Object,
}

/// Follows the bytes of an HTTP message whose body is one JSON object, as far as its members are arrays of texts or of plain
/// objects. It holds the front of a name, and of the text of a member of an inner object, and no other byte. Of a body that
/// is otherwise, or that comes in chunks, what it says means nothing.
#[derive(Drop)]
pub(crate) struct JsonScan {
    /// How many bytes of the end of the head came in a row; all of them in the body.
    head: usize,
    depth: usize,
    is_text: bool,
    is_escaped: bool,
    /// Whether a text of an object is a value, and no name.
    is_value: bool,
    member: Vec<u8>,
    inner: Vec<u8>,
    text: Vec<u8>,
    /// Memory was wanted for a byte of the text: no later one is held.
    is_cut: bool,
}

impl JsonScan {
    // Before the first byte of a message. Takes no memory.
    pub(crate) fn new(alloc: Global) -> Self {
        JsonScan {
            head: 0,
            depth: 0,
            is_text: false,
            is_escaped: false,
            is_value: false,
            member: Vec::new(alloc),
            inner: Vec::new(alloc),
            text: Vec::new(alloc),
            is_cut: false,
        }
    }

    // Follows another message from now on.
    pub(crate) fn begin(&mut self) {
        self.head = 0;
        self.depth = 0;
        self.is_text = false;
        self.is_escaped = false;
        self.is_value = false;
    }

    // The name of the member of the body's object at which it stands.
    pub(crate) fn member(&self) -> &str {
        text_in(self.member.as_slice())
    }

    // The name of the member of an inner object at which it stands.
    pub(crate) fn inner(&self) -> &str {
        text_in(self.inner.as_slice())
    }

    // Gives the front of the text of that member, in exchange for other bytes.
    pub(crate) fn swap_text(&mut self, place: &mut Vec<u8>) {
        mem::swap(&mut self.text, place);
    }

    // Takes the next byte of the message.
    pub(crate) fn take(&mut self, byte: u8) -> Met {
        if self.head < HEAD_END.len() {
            self.take_head(byte);
            Met::Nothing
        } else if self.is_text {
            self.take_inside(byte)
        } else {
            self.take_outside(byte)
        }
    }

    // Takes a byte of the head.
    fn take_head(&mut self, byte: u8) {
        self.head = if HEAD_END.get(self.head) == Some(&byte) {
            self.head.saturating_add(1)
        } else {
            usize::from(byte == b'\r')
        };
    }

    // Takes a byte that is outside of all texts.
    fn take_outside(&mut self, byte: u8) -> Met {
        match byte {
            b'"' => return self.begin_text(),
            b'{' | b'[' => {
                self.depth = self.depth.saturating_add(1);
                self.is_value = false;
            }
            b'}' | b']' => self.depth = self.depth.saturating_sub(1),
            b':' => self.is_value = true,
            b',' => self.is_value = false,
            _ => {}
        }
        if byte == b'}' {
            Met::Object
        } else {
            Met::Nothing
        }
    }

    fn begin_text(&mut self) -> Met {
        self.is_text = true;
        self.is_cut = false;
        self.text.clear();
        if self.is_name() {
            Met::Nothing
        } else {
            Met::Begun
        }
    }

    // Whether the text at hand is a name of the body's object, or of one in an array of it.
    fn is_name(&self) -> bool {
        !self.is_value && (self.depth == 1 || self.depth == 3)
    }

    // Takes a byte of a text.
    fn take_inside(&mut self, byte: u8) -> Met {
        if self.is_escaped {
            self.is_escaped = false;
            return self.hold(escaped(byte));
        }
        match byte {
            b'\\' => {
                self.is_escaped = true;
                Met::Nothing
            }
            b'"' => self.end_text(),
            _ => self.hold(byte),
        }
    }

    // Holds a byte of a text, where it is one that is held.
    fn hold(&mut self, byte: u8) -> Met {
        let is_held = self.is_name() || self.depth == 3;
        if is_held && !self.is_cut && self.text.len() < TEXT_BYTES {
            self.is_cut = self.text.push(byte).is_err();
        }
        if self.depth == 2 {
            Met::Byte(byte)
        } else {
            Met::Nothing
        }
    }

    fn end_text(&mut self) -> Met {
        self.is_text = false;
        if !self.is_name() {
            return Met::Text;
        }
        if self.depth == 1 {
            mem::swap(&mut self.member, &mut self.text);
        } else {
            mem::swap(&mut self.inner, &mut self.text);
        }
        Met::Nothing
    }
}

// The text that bytes are; an empty one where they are none.
fn text_in(bytes: &[u8]) -> &str {
    str::from_utf8(bytes).unwrap_or("")
}

// What an escaped byte of a text stands for, as far as it is one character.
fn escaped(byte: u8) -> u8 {
    match byte {
        b'n' | b'r' | b't' | b'b' | b'f' => b' ',
        _ => byte,
    }
}
