//! Whether a request that is coming in is to be served now.
use crate::api::before_any;
use crate::callers::Callers;
use crate::chunk_scan::ChunkScan;
use edge_kit::read_quoted;
use httparse::Status;
use httparse::spans::{EMPTY_HEADER_SPAN, parse_request};

/// How many bytes the head of a request has at most, and so the line of a chunk (`http_wire`).
pub(crate) const HEAD_LIMIT: usize = 65_536;

/// How many bytes the body of a request has at most (`http_wire`).
pub(crate) const BODY_LIMIT: u64 = 16_777_216;

/// How many bytes of a request are read at most: a body in chunks has more than its size. Of one that has more still nothing
/// further is waited for.
const ARRIVED_LIMIT: usize = 33_554_432;

/// What the requests of key managers that are not refused for their methods or their targets begin with (`keymanager_routes`).
const KEYSTORES: [&[u8]; 3] = [
    b"GET /eth/v1/keystores",
    b"POST /eth/v1/keystores",
    b"DELETE /eth/v1/keystores",
];

/// What those of validator clients begin with that name no key (`proxy_api`).
const QUESTIONS: [&[u8]; 2] = [b"GET /upcheck", b"GET /api/v1/eth2/publicKeys"];

/// What stands before the name of a key in a request for a signature (`proxy_api`).
const SIGN: &[u8] = b"POST /api/v1/eth2/sign/";

/// How a body is framed, by the fields of a head (`http_wire`).
#[derive(Clone, Copy)]
enum Framing {
    /// There is none.
    Unsaid,
    /// It has that many bytes (RFC 9112, `Content-Length`).
    Sized(u64),
    /// It comes in chunks (RFC 9112, `Transfer-Encoding`).
    Chunked,
    /// The fields have no one reading.
    Bad,
}

/// Who is let in with a method and a target.
#[derive(Clone, Copy)]
enum Entry {
    /// Nobody: it is refused for one of them.
    Nobody,
    /// Whoever has the token.
    Bearers,
    /// Anyone.
    Anyone,
}

/// What the head of a request says of its sender and of its body.
#[derive(Clone, Copy)]
struct Front {
    /// Where the body begins.
    end: usize,
    /// Who is let in with its method and its target.
    entry: Entry,
    /// Whether the token that it has is the one that is wanted, if it has any.
    fits: Option<bool>,
    /// It says that its sender waits to be asked for the body (RFC 9110, `Expect`).
    waits: bool,
    /// Its body is in a coding, and is not read (RFC 9110, `Content-Encoding`).
    is_encoded: bool,
    framing: Framing,
}

impl Front {
    // Whether it is refused for what it says, whatever its body.
    fn is_refused(&self) -> bool {
        !self.is_let_in() || self.is_encoded
    }

    // Whether its sender is let in.
    fn is_let_in(&self) -> bool {
        match self.entry {
            Entry::Nobody => false,
            Entry::Bearers => self.fits == Some(true),
            Entry::Anyone => true,
        }
    }

    // Whether a body follows that is read, if the head is not refused.
    fn has_body(&self) -> bool {
        match self.framing {
            Framing::Sized(length) => 0 < length && length <= BODY_LIMIT,
            Framing::Chunked => true,
            Framing::Unsaid | Framing::Bad => false,
        }
    }
}

/// What has come in of a request, as far as it was looked at.
#[derive(Drop)]
pub(crate) struct Coming {
    /// What its head says, once that is there.
    front: Option<Front>,
    chunks: ChunkScan,
}

impl Coming {
    /// Nothing has come in yet.
    pub(crate) fn new() -> Self {
        Coming {
            front: None,
            chunks: ChunkScan::new(),
        }
    }

    /// Whether the request, of which this has come in, is to be served now: it is whole, or what is missing decides nothing,
    /// since what has come in is no request, or its head does not have this token where it needs it, has a method or a target that
    /// is refused where these call, or announces no body that is read. It is called ready only where who serves it needs no
    /// byte more to answer it (`http_wire`, `keymanager_routes`, `proxy_api`), since then nothing more of it is waited for. How
    /// it is answered is judged there, by itself.
    pub(crate) fn is_ready(&mut self, arrived: &[u8], callers: Callers, token: &str) -> bool {
        let front = match self.front {
            Some(front) => front,
            None => match read_front(arrived, callers, token) {
                Some(front) => front,
                None => return is_no_head(arrived),
            },
        };
        self.front = Some(front);
        let Some(body) = arrived.get(front.end..) else {
            return true;
        };
        front.is_refused() || arrived.len() >= ARRIVED_LIMIT || self.is_whole(front, body)
    }

    /// Whether the head has come in, is not refused, and says that its sender waits to be asked for the body, of which one is
    /// read: as `http_wire::expects_continue` has it.
    pub(crate) fn waits_to_be_asked(&self) -> bool {
        match &self.front {
            Some(front) => front.waits && !front.is_refused() && front.has_body(),
            None => false,
        }
    }

    // Whether a body is there, or as much of it as is read at most.
    fn is_whole(&mut self, front: Front, body: &[u8]) -> bool {
        match front.framing {
            Framing::Unsaid | Framing::Bad => true,
            Framing::Sized(length) => {
                let arrived = u64::try_from(body.len()).unwrap_or(u64::MAX);
                arrived >= length || length > BODY_LIMIT
            }
            Framing::Chunked => self.chunks.is_over(body),
        }
    }
}

// As much of what has come in as a head has at most, and so a line of a chunk, and the fields after the last one.
pub(crate) fn front_of(arrived: &[u8]) -> &[u8] {
    arrived.get(..HEAD_LIMIT).unwrap_or(arrived)
}

// The lines whose ends are there. Of a line whose end is not there nothing is judged, as who serves the request reads on
// to the end of each (`http_wire`).
pub(crate) fn whole_lines(bytes: &[u8]) -> &[u8] {
    match bytes.iter().rposition(|byte| *byte == b'\n') {
        Some(end) => bytes.get(..end.saturating_add(1)).unwrap_or(bytes),
        None => &[],
    }
}

// What the head says of a request of which this has come in; None where it is not whole, or too long.
fn read_front(arrived: &[u8], callers: Callers, token: &str) -> Option<Front> {
    let lines = whole_lines(front_of(arrived));
    let mut spans = [EMPTY_HEADER_SPAN; 64];
    match parse_request(lines, &mut spans) {
        Ok(Status::Complete(head)) => {
            let bytes = lines.get(..head.len).unwrap_or(lines);
            Some(said_in(bytes, callers, token))
        }
        _ => None,
    }
}

// Whether what has come in, which has no whole head, never has one that is read. Empty lines alone are not judged.
fn is_no_head(arrived: &[u8]) -> bool {
    let lines = whole_lines(front_of(arrived));
    let mut spans = [EMPTY_HEADER_SPAN; 64];
    arrived.len() >= HEAD_LIMIT || has_text(lines) && parse_request(lines, &mut spans).is_err()
}

// Whether there is anything but the ends of lines.
fn has_text(lines: &[u8]) -> bool {
    lines.iter().any(|byte| *byte != b'\r' && *byte != b'\n')
}

// Who is let in with the method and the target of a head, where these call.
fn entry_of(head: &[u8], callers: Callers) -> Entry {
    let head = head.trim_ascii_start();
    if is_one_of(head, &KEYSTORES) {
        Entry::Bearers
    } else if callers.has_validator_clients() && (is_one_of(head, &QUESTIONS) || names_key(head)) {
        Entry::Anyone
    } else {
        Entry::Nobody
    }
}

// Whether a head has one of these methods and paths.
fn is_one_of(head: &[u8], known: &[&[u8]]) -> bool {
    known.iter().any(|known| {
        head.starts_with(known) && matches!(head.get(known.len()), Some(b' ' | b'?'))
    })
}

// Whether a head is of a request for a signature, which names its key in one part of the path that is text.
fn names_key(head: &[u8]) -> bool {
    if !head.starts_with(SIGN) {
        return false;
    }
    let part = before_any(head.get(SIGN.len()..).unwrap_or(&[]), b" ?");
    !part.is_empty() && !part.contains(&b'/') && str::from_utf8(part).is_ok()
}

// What a head says, where these call.
fn said_in(head: &[u8], callers: Callers, token: &str) -> Front {
    let mut front = Front {
        end: head.len(),
        entry: entry_of(head, callers),
        fits: None,
        waits: false,
        is_encoded: false,
        framing: Framing::Unsaid,
    };
    'lines: for line in head.split(|byte| *byte == b'\n') {
        note(&mut front, line, token);
    }
    front
}

// Notes what a line of a head says.
fn note(front: &mut Front, line: &[u8], token: &str) {
    let Some(colon) = line.iter().position(|byte| *byte == b':') else {
        return;
    };
    let name = line.get(..colon).unwrap_or(line);
    let value = line
        .get(colon.saturating_add(1)..)
        .unwrap_or(&[])
        .trim_ascii();
    if name.eq_ignore_ascii_case(b"authorization") {
        front.fits = front.fits.or(bears(value, token));
    } else if name.eq_ignore_ascii_case(b"content-length") {
        front.framing = sized(number_of(value), front.framing);
    } else if name.eq_ignore_ascii_case(b"transfer-encoding") {
        front.framing = coded(value.eq_ignore_ascii_case(b"chunked"), front.framing);
    } else if name.eq_ignore_ascii_case(b"content-encoding") {
        front.is_encoded |= !value.eq_ignore_ascii_case(b"identity");
    } else if name.eq_ignore_ascii_case(b"expect") {
        front.waits |= value.eq_ignore_ascii_case(b"100-continue");
    }
}

// The framing after a length of this reading.
fn sized(length: Option<u64>, framing: Framing) -> Framing {
    match (length, framing) {
        (Some(length), Framing::Unsaid) => Framing::Sized(length),
        (Some(length), Framing::Sized(earlier)) if earlier == length => framing,
        _ => Framing::Bad,
    }
}

// The framing after a transfer coding.
fn coded(is_chunked: bool, framing: Framing) -> Framing {
    match framing {
        Framing::Unsaid if is_chunked => Framing::Chunked,
        _ => Framing::Bad,
    }
}

// Whether what follows `Bearer `, in letters of any case, is this token; None where a field is not of that form.
fn bears(value: &[u8], token: &str) -> Option<bool> {
    let (scheme, given) = value.split_at_checked(7)?;
    if scheme.eq_ignore_ascii_case(b"bearer ") {
        Some(is_same_token(given, token.as_bytes()))
    } else {
        None
    }
}

// Whether two tokens are the same. Those of one length are compared to their end, wherever they differ, so that the time until
// a reply does not tell how much of a guess is right (`keymanager_routes`).
fn is_same_token(given: &[u8], token: &[u8]) -> bool {
    if given.len() != token.len() {
        return false;
    }
    let mut differing = 0;
    'bytes: for (byte, wanted) in given.iter().zip(token.iter()) {
        differing |= *byte ^ *wanted;
    }
    differing == 0
}

// The number that these 1 to 20 digits write; none where they write none.
fn number_of(digits: &[u8]) -> Option<u64> {
    read_quoted(str::from_utf8(digits).ok()?)
}
