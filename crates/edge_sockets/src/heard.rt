//! The front of what was said in an exchange, for a report of it.
use std::alloc::Global;
use std::fmt;
use std::fmt::{Display, Formatter};

/// How many bytes of a request are held at most.
const REQUEST_BYTES: usize = 512;

/// How many bytes of an answer's first line are held at most: up to the end of its status.
const STATUS_BYTES: usize = 12;

/// What the first line of an answer begins with.
const HTTP: &[u8] = b"HTTP/";

/// How many bytes of a body are held at most, and a report has.
const BODY_BYTES: usize = 200;

/// The front of what came, without a gap.
#[derive(Drop)]
struct Front {
    bytes: Vec<u8>,
    /// How many bytes are held at most.
    most: usize,
    /// Memory was wanted for a piece: what came after it is not held.
    is_cut: bool,
}

impl Front {
    // Nothing came yet, of which that many bytes are to be held. Takes no memory.
    fn new(alloc: Global, most: usize) -> Self {
        Front {
            bytes: Vec::new(alloc),
            most,
            is_cut: false,
        }
    }

    // Nothing is held any more.
    fn clear(&mut self) {
        self.bytes.clear();
        self.is_cut = false;
    }

    // Adds the front of a piece to what is held, as far as there is room for it.
    fn hold(&mut self, piece: &[u8]) {
        let room = self.most.saturating_sub(self.bytes.len());
        let front = piece.get(..room).unwrap_or(piece);
        if !self.is_cut {
            self.is_cut = self.bytes.extend_from_slice(front).is_err();
        }
    }
}

/// How far the head of an answer has come.
#[derive(Clone, Copy)]
enum HeadPart {
    /// Into one of its lines.
    Line,
    /// To the start of a line after its first one.
    Start,
    /// Behind a CR at such a start.
    Return,
    /// Over its end: what comes is of the body.
    Over,
}

impl HeadPart {
    // How far it has come with one byte more.
    fn with(self, byte: u8) -> HeadPart {
        match (self, byte) {
            (HeadPart::Over, _) => HeadPart::Over,
            (HeadPart::Start | HeadPart::Return, b'\n') => HeadPart::Over,
            (HeadPart::Start, b'\r') => HeadPart::Return,
            (HeadPart::Line, b'\n') => HeadPart::Start,
            _ => HeadPart::Line,
        }
    }
}

/// The front of an answer's first line, and that of its body, however long its head is. A head of status 100 to 199 is none of
/// an answer: another one follows it.
#[derive(Drop)]
struct Answer {
    line: Front,
    head: HeadPart,
    body: Front,
}

impl Answer {
    // Nothing of it came yet. Takes no memory.
    fn new(alloc: Global) -> Self {
        Answer {
            line: Front::new(alloc, STATUS_BYTES),
            head: HeadPart::Line,
            body: Front::new(alloc, BODY_BYTES),
        }
    }

    // Nothing is held any more.
    fn clear(&mut self) {
        self.line.clear();
        self.head = HeadPart::Line;
        self.body.clear();
    }

    // Whether its head is over.
    fn is_over(&self) -> bool {
        matches!(self.head, HeadPart::Over)
    }

    // Whether its first line is one of HTTP, as far as it has come.
    fn is_http(&self) -> bool {
        self.line.bytes.starts_with(HTTP)
    }

    // Whether its head is one that another one follows, as far as it has come.
    fn is_interim(&self) -> bool {
        self.is_http() && matches!(self.line.bytes.get(9), Some(b'1'))
    }

    // Takes one piece more.
    fn take(&mut self, piece: &[u8]) {
        let body = self.take_head(piece);
        self.body.hold(body);
    }

    // Takes what of a piece is of the head, and gives the rest, which is of the body.
    fn take_head<'p>(&mut self, piece: &'p [u8]) -> &'p [u8] {
        'bytes: for (at, byte) in piece.iter().enumerate() {
            if self.is_over() {
                return piece.get(at..).unwrap_or(&[]);
            }
            self.take_byte(*byte);
        }
        &[]
    }

    // Takes a byte of the head.
    fn take_byte(&mut self, byte: u8) {
        self.line.hold(&[byte]);
        self.head = self.head.with(byte);
        if self.is_over() && self.is_interim() {
            self.clear();
        }
    }

    // The three digits of its status, if there are any; what is no HTTP has none.
    fn status(&self) -> Option<&[u8]> {
        if !self.is_http() || self.is_interim() {
            return None;
        }
        self.line.bytes.get(9..STATUS_BYTES)
    }
}

/// The front of a request, and of its answer, by bytes as they went over a connection.
#[derive(Drop)]
pub struct Heard {
    asked: Front,
    answered: Answer,
}

impl Heard {
    /// That of an exchange in which nothing was said yet. Takes no memory.
    pub fn new(alloc: Global) -> Self {
        Heard {
            asked: Front::new(alloc, REQUEST_BYTES),
            answered: Answer::new(alloc),
        }
    }

    /// From now on another exchange is heard.
    pub fn begin(&mut self) {
        self.asked.clear();
        self.answered.clear();
    }

    /// Holds the front of the request, of which this is one piece more. Where memory is wanted for a piece, neither it nor what
    /// comes after it is held, and empty lines before it never are. What was answered before was no answer to all of it, and is
    /// forgotten.
    pub fn ask(&mut self, piece: &[u8]) {
        self.answered.clear();
        if self.is_begun() {
            self.asked.hold(piece);
        } else {
            self.asked.hold(piece.trim_ascii_start());
        }
    }

    /// Holds the status of the answer, of which this is one piece more, and the front of its body, in the same way.
    pub fn answer(&mut self, piece: &[u8]) {
        self.answered.take(piece);
    }

    // The front of the request, from its first line on.
    fn request(&self) -> &[u8] {
        self.asked.bytes.as_slice()
    }

    /// The method and the target of the request.
    pub fn call(&self) -> Visible<'_> {
        let line = before(self.request(), b"\r\n");
        Visible(before(line, b" HTTP/"))
    }

    /// The method of the request and its target before the query, which may have what is not to be reported.
    pub fn call_without_query(&self) -> Visible<'_> {
        let Visible(call) = self.call();
        Visible(before(call, b"?"))
    }

    /// Whether a request was begun.
    pub fn is_begun(&self) -> bool {
        !self.asked.bytes.is_empty()
    }

    /// The three digits of the answer's status, if there are any. A status of 100 to 199 is that of no answer, and what is no HTTP
    /// has none.
    pub fn status(&self) -> Option<&[u8]> {
        self.answered.status()
    }

    /// The front of the answer's body.
    pub fn body(&self) -> Visible<'_> {
        Visible::front(self.answered.body.bytes.as_slice())
    }

    /// Whether the answer says that what was asked was not done.
    pub fn is_refusal(&self) -> bool {
        matches!(self.status(), Some(status) if !status.starts_with(b"2"))
    }

    /// Whether keystores were sent, or may have been, where memory was wanted for the request. What answers that may have a part
    /// of them, and is not reported.
    pub fn is_import(&self) -> bool {
        let line = before(self.request(), b"\r\n");
        self.asked.is_cut || line.starts_with(b"POST ") && !after(line, b"/keystores").is_empty()
    }

    /// Whether what was asked changes something.
    pub fn changes(&self) -> bool {
        self.request().starts_with(b"POST ") || self.request().starts_with(b"DELETE ")
    }
}

/// What became of a call: the method and the target, the answer's status, and the front of its body.
#[derive(Drop)]
pub(crate) struct Call<'a>(
    /// What was said in it.
    pub &'a Heard,
);

impl Display for Call<'_> {
    fn fmt<W: fmt::Write>(&self, f: &mut Formatter<W>) -> fmt::Result {
        let Call(heard) = self;
        let status = Visible(heard.status().unwrap_or(&[]));
        write!(f, "{}: {status} {}", heard.call(), heard.body())
    }
}

/// Bytes as text: each that is no visible ASCII and no space is written as `.`.
#[derive(Drop)]
pub struct Visible<'a>(
    /// All of them.
    pub &'a [u8],
);

impl<'a> Visible<'a> {
    /// The first 200 bytes of these.
    pub fn front(bytes: &'a [u8]) -> Self {
        Visible(bytes.get(..BODY_BYTES).unwrap_or(bytes))
    }
}

impl Display for Visible<'_> {
    fn fmt<W: fmt::Write>(&self, f: &mut Formatter<W>) -> fmt::Result {
        for byte in self.0 {
            let shown = if *byte == b' ' || byte.is_ascii_graphic() {
                char::from(*byte)
            } else {
                '.'
            };
            write!(f, "{shown}")?;
        }
        Ok(())
    }
}

// The bytes before the first place at which this part is; all where it is at none.
fn before<'a>(bytes: &'a [u8], part: &[u8]) -> &'a [u8] {
    for at in 0..bytes.len() {
        if bytes[at..].starts_with(part) {
            return &bytes[..at];
        }
    }
    bytes
}

// The bytes after the first place at which this part is; none where it is at none.
fn after<'a>(bytes: &'a [u8], part: &[u8]) -> &'a [u8] {
    let front = before(bytes, part).len();
    bytes.get(front.saturating_add(part.len())..).unwrap_or(&[])
}
