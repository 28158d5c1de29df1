//! Reads happenings from a text that arrives in pieces.

ghost use Rattle.std.specs.Prelude.{◌≡◌, ◌≤◌, drop, length, ◌++◌, [], Some, true, OnOk, OnErr, IfOk, IfErr, option_map};
ghost use Rattle.trace_verdict.specs.Fronts.{is_open, is_unfinished, line_left, size_limit};
ghost use Rattle.trace_verdict.specs.Readers.{capped, IsNext, ReadsNext, ReadsNone};

use crate::lines::lines_due;
use inittab_text::TEXT_LIMIT;
use std::alloc::{AllocError, Allocator};
use std::marker::Model;
use text_lines::newlines;
use trace_events::HappeningIn;
use trace_text::{LINE_LIMIT, ReadFault, first_happening, line_count};

/// A reader of the happenings of a text that arrives in pieces. It keeps the part that it has not read yet.
///
/// If the last happening is incomplete, the reader tries again once it has the number of lines that its first line
/// announces. The text of an incomplete happening may be no longer than the longest complete one.
#[derive(Drop)]
pub struct TextReader<A: Allocator> {
    alloc: A,
    bytes: Vec<u8, A>,
    /// The number of bytes already read.
    at: usize,
    /// The number of newlines in the unread bytes.
    whole: usize,
    /// A lower bound on the number of newlines in the next happening.
    due: usize,
    lines: u64,
}

impl<A: Allocator> Model for TextReader<A> {
    ghost use Rattle.std.specs.Prelude.{◌≡◌, ◌≤◌, drop, length};
    ghost use Rattle.text_lines.specs.Lines.{newlines};
    ghost use Rattle.trace_verdict.specs.Fronts.{lines_due};
    ghost use Rattle.trace_verdict.specs.Readers.{Reading};

    ghost Value = { Reading };

    ghost view = { λ r. record { over = drop r.at r.bytes.items; lines = r.lines } };

    ghost invariant = { λ r. (r.at ≤ length r.bytes.items)
        × (r.whole ≡ newlines (drop r.at r.bytes.items))
        × (r.due ≤ lines_due (drop r.at r.bytes.items)) };
}

/// Returns the bytes from position `at` on.
fn rest_of(bytes: &[u8], at: usize) -> &[u8]
    requires { at ≤ length bytes.now }
    ensures { result.now ≡ drop at bytes.now }
{
    &bytes[at..]
}

/// Removes the first `at` bytes of a text and appends the piece. If `at` is 0, the text is not copied.
fn move_on<A: Allocator + Copy>(
    alloc: A,
    bytes: &mut Vec<u8, A>,
    at: usize,
    piece: &[u8],
) -> Result<(), AllocError>
    requires { at ≤ length bytes.old.items }
    ensures ok { OnOk result (bytes.new.items ≡ drop at bytes.old.items ++ piece.now) }
    ensures err { OnErr result (bytes.new.items ≡ bytes.old.items) }
{
    if at == 0 {
        return bytes.extend_from_slice(piece);
    }
    let mut rest = Vec::from_slice(alloc, rest_of(bytes, at))?;
    rest.extend_from_slice(piece)?;
    *bytes = rest;
    Ok(())
}

/// Returns the maximum length in bytes of an incomplete happening with this number of newlines.
fn size_limit(newlines: usize) -> usize
    ensures { result ≡ size_limit newlines }
{
    match newlines {
        0 => LINE_LIMIT,
        _ => LINE_LIMIT + TEXT_LIMIT,
    }
}

impl<A: Allocator + Copy> TextReader<A> {
    /// Creates a reader without any text. This does not allocate.
    pub fn new(alloc: A) -> TextReader<A>
        ensures { result ≡ record { over = []; lines = 0 } }
    {
        TextReader {
            alloc,
            bytes: Vec::new(alloc),
            at: 0,
            whole: 0,
            due: 1,
            lines: 0,
        }
    }

    /// Returns the number of lines read.
    pub fn lines(&self) -> u64
        ensures { result ≡ self.now.lines }
    {
        self.lines
    }

    /// Returns the number of the line at which the unread part begins, or `None` if there is no unread part.
    pub fn open_line(&self) -> Option<u64>
        ensures { result ≡ option_map capped (line_left self.now.lines self.now.over) }
    {
        if self.at == self.bytes.len() {
            None
        } else {
            Some(self.lines.saturating_add(1))
        }
    }

    /// Appends the next piece to the unread text.
    pub fn feed(&mut self, piece: &[u8]) -> Result<(), AllocError>
        ensures ok { OnOk result
            (self.new ≡ record self.old { over = self.old.over ++ piece.now }) }
        ensures err { OnErr result (self.new ≡ self.old) }
    {
        move_on(self.alloc, &mut self.bytes, self.at, piece)?;
        self.at = 0;
        self.whole += newlines(piece);
        Ok(())
    }

    /// Fails if the text of the incomplete happening is already longer than a happening can be.
    fn wait(&self) -> Result<(), ReadFault>
        requires { is_unfinished self.now.over ≡ true }
        ensures unfinished { OnOk result (is_open self.now.over ≡ true) }
        ensures none { IfErr result (λ fault. ReadsNone self.now fault) }
    {
        if self.bytes.len() - self.at <= size_limit(self.whole) {
            return Ok(());
        }
        Err(ReadFault::Line(self.lines.saturating_add(1)))
    }

    /// Returns the next happening and the length of its text in bytes, or `None` if the text ends within it. This does
    /// not consume the happening.
    pub(crate) fn peek(&mut self) -> Result<Option<(HappeningIn<A>, usize)>, ReadFault>
        ensures same { self.new ≡ self.old }
        ensures next { IfOk result (λ found. IsNext self.old found) }
        ensures none { IfErr result (λ fault. ReadsNone self.old fault) }
    {
        if self.whole < self.due {
            self.wait()?;
            return Ok(None);
        }
        let rest = rest_of(&self.bytes, self.at);
        if let Some((happening, more)) = first_happening(self.alloc, rest)? {
            let size = rest.len() - more.len();
            return Ok(Some((happening, size)));
        }
        self.due = lines_due(rest);
        if self.whole < self.due {
            self.wait()?;
            return Ok(None);
        }
        Err(ReadFault::Line(self.lines.saturating_add(1)))
    }

    /// Skips the next happening, given with the length of its text.
    pub(crate) fn skip(&mut self, happening: &HappeningIn<A>, size: usize)
        requires { IsNext self.old (Some (happening.now, size)) }
        ensures { ReadsNext self.old self.new (Some happening.now) }
    {
        let lines = line_count(happening);
        self.at += size;
        self.whole -= lines as usize;
        self.due = 1;
        self.lines = self.lines.saturating_add(lines);
    }

    /// Reads the next happening, or returns `None` if the text ends within it. Fails, and reads nothing, if the unread
    /// text cannot be the beginning of a happening, whatever text follows.
    pub fn next(&mut self) -> Result<Option<HappeningIn<A>>, ReadFault>
        ensures next { IfOk result (λ found. ReadsNext self.old self.new found) }
        ensures none { IfErr result (λ fault.
            (self.new ≡ self.old) × ReadsNone self.old fault) }
    {
        let Some((happening, size)) = self.peek()? else {
            return Ok(None);
        };
        self.skip(&happening, size);
        Ok(Some(happening))
    }
}
