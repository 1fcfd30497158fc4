//! The forms of a message that `httparse` reads: heads, the line before a chunk, and what follows the last.
ghost use Rattle.std.specs.Prelude.{◌≡◌};
ghost use Rattle.http_wire.specs.Heads.{IsRequestText, IsResponseText, IsChunkText, IsTrailerText, IsCrlfText};
ghost use Rattle.http_wire.specs.Looks.{LooksRight};
ghost use Rattle.http_wire.specs.Ends.{request_ends, response_ends, chunk_ends, trailer_ends, crlf_ends};

use crate::front::{Form, Looked};
use httparse::spans::{EMPTY_HEADER_SPAN, parse_headers, parse_request, parse_response};
use httparse::{Status, parse_chunk_size};

/// The head of a request, with at most 64 fields.
pub(crate) struct RequestText;

/// The head of a response, with at most 64 fields.
pub(crate) struct ResponseText;

/// The line before a chunk.
pub(crate) struct ChunkText;

/// The fields after the last chunk, at most 64, and the empty line that ends them.
pub(crate) struct TrailerText;

/// CR LF.
pub(crate) struct CrlfText;

impl Form for RequestText {
    ghost is_form = { IsRequestText };

    ghost ends = { request_ends };

    fn has_text() -> bool {
        true
    }

    fn look(bytes: &[u8]) -> Looked
        ensures { LooksRight IsRequestText bytes.now result }
    {
        let mut spans = [EMPTY_HEADER_SPAN; 64];
        match parse_request(bytes, &mut spans) {
            Ok(Status::Complete(_)) => Looked::Whole,
            Ok(Status::Partial) => Looked::Partial,
            Err(_) => Looked::Never,
        }
    }
}

impl Form for ResponseText {
    ghost is_form = { IsResponseText };

    ghost ends = { response_ends };

    fn has_text() -> bool {
        true
    }

    fn look(bytes: &[u8]) -> Looked
        ensures { LooksRight IsResponseText bytes.now result }
    {
        let mut spans = [EMPTY_HEADER_SPAN; 64];
        match parse_response(bytes, &mut spans) {
            Ok(Status::Complete(_)) => Looked::Whole,
            Ok(Status::Partial) => Looked::Partial,
            Err(_) => Looked::Never,
        }
    }
}

impl Form for ChunkText {
    ghost is_form = { IsChunkText };

    ghost ends = { chunk_ends };

    fn has_text() -> bool {
        false
    }

    fn look(bytes: &[u8]) -> Looked
        ensures { LooksRight IsChunkText bytes.now result }
    {
        match parse_chunk_size(bytes) {
            Ok(Status::Complete(_)) => Looked::Whole,
            Ok(Status::Partial) => Looked::Partial,
            Err(_) => Looked::Never,
        }
    }
}

impl Form for TrailerText {
    ghost is_form = { IsTrailerText };

    ghost ends = { trailer_ends };

    fn has_text() -> bool {
        false
    }

    fn look(bytes: &[u8]) -> Looked
        ensures { LooksRight IsTrailerText bytes.now result }
    {
        let mut spans = [EMPTY_HEADER_SPAN; 64];
        match parse_headers(bytes, &mut spans) {
            Ok(Status::Complete(_)) => Looked::Whole,
            Ok(Status::Partial) => Looked::Partial,
            Err(_) => Looked::Never,
        }
    }
}

impl Form for CrlfText {
    ghost is_form = { IsCrlfText };

    ghost ends = { crlf_ends };

    fn has_text() -> bool {
        false
    }

    fn look(bytes: &[u8]) -> Looked
        ensures { LooksRight IsCrlfText bytes.now result }
    {
        if bytes.len() >= 2 {
            if bytes[0] == b'\r' && bytes[1] == b'\n' {
                Looked::Whole
            } else {
                Looked::Never
            }
        } else if bytes.len() == 1 && bytes[0] != b'\r' {
            Looked::Never
        } else {
            Looked::Partial
        }
    }
}
