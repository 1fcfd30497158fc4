//! The lines of a source.
ghost use Rattle.std.specs.Prelude.{◌≡◌, ◌≢◌, ◌<◌, ◌≤◌, ◌^◌, ◌+◌, ◌-◌, ◌++◌, ◌∷◌, [], ℕ, List, length, take, drop, slice_index, IfOk, IfErr, IfSome, IfNone, OnErr, OnOk, min, vec_len};
ghost use Rattle.std.specs.Io.KnownBytes.{Consumes, Keeps, IsAtEnd};
ghost use Rattle.edge_kit.specs.Causes.{Rose};
ghost use Rattle.session_run.specs.Lines.{IsOneLine, IsShortLine, TakesLine, IsLast, BeginsTooLong};
ghost use Rattle.session_run.specs.Reading.{Pending, IsScanned, ReadsMore, ReadsPiece, GivesLine};
ghost use Rattle.program_end.specs.Limits.{line_limit, input_limit};
ghost use Rattle.program_end.specs.declared.limit.Limit.{Limit};

use crate::next::{LineFault, Next};
use edge_kit::{Failed, Source};
use program_end::Limit;
use std::alloc::{AllocError, Global};
use std::marker::Model;

/// How many bytes a line may have, without its newline.
const LINE_LIMIT: usize = program_end::LINE_LIMIT as usize;

/// How many bytes are asked of the source at once.
const PIECE: usize = 65_536;

/// What was read of a source and is not yet given. It is read in pieces of 65,536 bytes, and no byte is
/// looked at or moved more than a few times, however long a line is.
#[derive(Drop)]
pub struct Lines {
    ready: Vec<u8>,
    start: usize,
    scanned: usize,
    total: u64,
    piece: Vec<u8>,
}

impl Model for Lines {
    ghost use Rattle.std.specs.Prelude.{◌≡◌, ◌<◌, ◌-◌, ◌^◌, drop, length};
    ghost use Rattle.session_run.specs.Reading.{Pending, IsScanned, piece_size};

    ghost Value = { Pending };

    ghost view = { λ l. record { bytes = drop l.start l.ready.items; total = l.total } };

    ghost invariant = { λ l. IsScanned l.ready.items l.start l.scanned × (length l.piece.items ≡ piece_size) };
}

impl Lines {
    /// Nothing read yet. Takes memory for one piece.
    pub fn new(alloc: Global) -> Result<Self, AllocError>
        ensures bytes { IfOk result (λ l. l.bytes ≡ []) }
        ensures total { IfOk result (λ l. l.total ≡ 0) }
    {
        Ok(Lines {
            ready: Vec::new(alloc),
            start: 0,
            scanned: 0,
            total: 0,
            piece: vec![in alloc; 0u8; PIECE]?,
        })
    }

    /// The next line of the source, or what stands behind the last newline. After an error nothing that was
    /// read is lost: what is not yet given stays. `Read` only where the source's count of faults rose, in a
    /// line within the limit; `TooLong` exactly where the line or the input passes its limit.
    pub fn next<I: Source>(&mut self, alloc: Global, source: &mut I) -> Result<Next, LineFault>
        requires { self.old.total < input_limit }
        ensures line { IfOk result (λ next. GivesLine (I.left source.old) (I.left source.new) self.old self.new next) }
        ensures end { IfOk result (λ next. IsLast next → IsAtEnd (I.left source.new)) }
        ensures stays { OnErr result (ReadsMore (I.left source.old) (I.left source.new) self.old self.new) }
        ensures fault { result ≡ Err LineFault.Read → Rose (I.faults source.old) (I.faults source.new) × IsShortLine self.new.bytes × (self.new.total < input_limit) }
        ensures line_limit { result ≡ Err (LineFault.TooLong Limit.Line) → BeginsTooLong self.new.bytes }
        ensures input_limit { result ≡ Err (LineFault.TooLong Limit.Input) → self.new.total ≡ input_limit }
        ensures no_file { result ≡ Err (LineFault.TooLong Limit.File) → ⊥ }
        ensures no_keys { result ≡ Err (LineFault.TooLong Limit.Keys) → ⊥ }
        ensures later { I.faults source.old ≤ I.faults source.new }
    {
        'reads: for _ in 0..u64::MAX {
            if let Some(len) = self.seek() {
                if len > LINE_LIMIT {
                    return Err(LineFault::TooLong(Limit::Line));
                }
                return Ok(Next::Line(self.take_line(alloc, len)?));
            }
            if self.len() > LINE_LIMIT {
                return Err(LineFault::TooLong(Limit::Line));
            }
            match self.read_more(source) {
                Ok(0) => return Ok(Next::Last(self.take_rest(alloc)?)),
                Ok(_) => {}
                Err(fault) => return Err(fault),
            }
            if self.total == u64::MAX {
                return Err(LineFault::TooLong(Limit::Input));
            }
        }
        Err(LineFault::TooLong(Limit::Input))
    }

    /// How many bytes are not yet given.
    fn len(&self) -> usize
        ensures { result ≡ length self.now.bytes }
    {
        self.ready.len() - self.start
    }

    /// How many bytes stand before the first newline of what is not yet given.
    fn seek(&mut self) -> Option<usize>
        ensures same { self.new ≡ self.old }
        ensures found { IfSome result (λ n. (n < length self.old.bytes) × (slice_index self.old.bytes n ≡ 10) × IsOneLine (take n self.old.bytes)) }
        ensures none { IfNone result (IsOneLine self.old.bytes) }
    {
        match newline_from(self.ready.as_slice(), self.scanned) {
            Some(at) => {
                self.scanned = at;
                Some(at - self.start)
            }
            None => {
                self.scanned = self.ready.len();
                None
            }
        }
    }

    /// Gives the bytes before a newline.
    fn take_line(&mut self, alloc: Global, len: usize) -> Result<Vec<u8>, AllocError>
        requires within { len < length self.old.bytes }
        requires newline { slice_index self.old.bytes len ≡ 10 }
        ensures line { IfOk result (λ line. line.items ≡ take len self.old.bytes) }
        ensures rest { IfOk result (λ line. self.old.bytes ≡ line.items ++ 10 ∷ self.new.bytes) }
        ensures total { self.new.total ≡ self.old.total }
        ensures err { OnErr result (self.new ≡ self.old) }
    {
        let end = self.start + len;
        let line = Vec::from_slice(alloc, &self.ready[self.start..end])?;
        self.start = end + 1;
        self.scanned = end + 1;
        Ok(line)
    }

    /// Gives all that is left.
    fn take_rest(&mut self, alloc: Global) -> Result<Vec<u8>, AllocError>
        ensures rest { IfOk result (λ rest. (rest.items ≡ self.old.bytes) × (self.new.bytes ≡ [])) }
        ensures total { self.new.total ≡ self.old.total }
        ensures err { OnErr result (self.new ≡ self.old) }
    {
        let rest = Vec::from_slice(alloc, &self.ready[self.start..])?;
        self.ready.clear();
        self.start = 0;
        self.scanned = 0;
        Ok(rest)
    }

    /// Reads some bytes more. Where memory runs out nothing was read.
    fn read_more<I: Source>(&mut self, source: &mut I) -> Result<usize, LineFault>
        ensures more { ReadsPiece (I.left source.old) (I.left source.new) self.old self.new }
        ensures count { IfOk result (λ count. length self.new.bytes ≡ length self.old.bytes + count) }
        ensures end { IfOk result (λ count. count ≡ 0 → IsAtEnd (I.left source.new)) }
        ensures kept { OnErr result (self.new ≡ self.old) }
        ensures fault { result ≡ Err LineFault.Read → Rose (I.faults source.old) (I.faults source.new) }
        ensures no_limit { (limit : Limit) → result ≢ Err (LineFault.TooLong limit) }
        ensures later { I.faults source.old ≤ I.faults source.new }
    {
        compact(&mut self.ready, self.start);
        self.scanned -= self.start;
        self.start = 0;
        self.ready.reserve(PIECE)?;
        let count = match source.read(self.piece.as_mut_slice()) {
            Ok(count) => count,
            Err(Failed) => return Err(LineFault::Read),
        };
        let _ = self.ready.extend_from_slice(&self.piece[..count]);
        self.total = self.total.saturating_add(count as u64);
        Ok(count)
    }
}

/// Moves the bytes from a place on to the front, and drops those before them. Takes no memory.
fn compact(ready: &mut Vec<u8>, start: usize)
    requires { start ≤ vec_len ready.old }
    ensures rest { ready.new.items ≡ drop start ready.old.items }
    ensures len { vec_len ready.new + start ≡ vec_len ready.old }
{
    if start == 0 {
        return;
    }
    let rest = ready.len() - start;
    ready.copy_within(start.., 0);
    ready.truncate(rest);
}

/// The first newline from a place on.
fn newline_from(bytes: &[u8], from: usize) -> Option<usize>
    requires { from ≤ length bytes.now }
    ensures found { IfSome result (λ at. (from ≤ at) × (at < length bytes.now) × (slice_index bytes.now at ≡ 10) × ((k : ℕ) → from ≤ k → k < at → slice_index bytes.now k ≢ 10)) }
    ensures none { IfNone result ((k : ℕ) → from ≤ k → k < length bytes.now → slice_index bytes.now k ≢ 10) }
{
    for at in from..bytes.len() {
        if bytes[at] == b'\n' {
            return Some(at);
        }
    }
    None
}
