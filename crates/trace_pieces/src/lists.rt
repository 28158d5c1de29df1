//! The list of a trace's pieces, `TRACE.0.pieces`. Each line records a change to the trace's files.

ghost use Rattle.std.specs.Prelude.{◌≡◌, ◌∷◌, ℕ, List, [], map, string_bytes, is_some, IfOk, OnOk};
ghost use Rattle.std.specs.List.{list_any};
ghost use Rattle.text_lines.specs.Lines.{lines_of};
ghost use Rattle.trace_pieces.specs.declared.lists.ListLine.TheVariants.{Begun};
ghost use Rattle.trace_pieces.specs.Lists.{IsKept, IsOfRun, away_from, keeping, numbered, with_all};
ghost use Rattle.trace_pieces.specs.Lists.{PieceList as PieceListValue};
ghost use Rattle.trace_pieces.specs.Lists.{has_number, is_whole, lacks_front, line_after, line_at, line_text, list_of, moved_up, no_line, oldest_beyond, pieces_before, rises_to, room_for, with_line, with_lines, with_piece, with_text, without_oldest};

use std::alloc::{AllocError, Allocator, Global};
use std::marker::Model;
use text_lines::{cut, next_line, read_number};

/// A line of the list.
#[derive(Clone, Copy)]
pub enum ListLine {
    /// A run is about to truncate the trace's file. The pieces of the run will have at least this number.
    Begins(u64),
    /// The run has truncated the file.
    Begun(u64),
    /// A file of this length in bytes (the second value) was put away under this number (the first).
    Piece(u64, u64),
    /// A file of this length in bytes was renamed to a name that no piece can have.
    Gone(u64),
    /// Init is about to remove the oldest piece, which has this number.
    Taken(u64),
}

/// A piece of a run: the number in its name (0 if it has no number any more), and its length in bytes, if it is listed.
#[derive(Clone, Copy)]
pub struct Piece {
    pub number: u64,
    pub length: Option<u64>,
}

/// The pieces of the last run that a list describes.
#[derive(Drop)]
pub struct PieceList {
    /// The lowest number that the next piece can have; `None` if a user assigned a number by renaming files.
    next: Option<u64>,
    /// The pieces, oldest first.
    pieces: Vec<Piece>,
    /// Whether older pieces were removed.
    lacks_front: bool,
    /// Whether a later run announced that it would truncate the trace's file.
    is_ending: bool,
}

impl Model for PieceList {
    ghost use Rattle.std.specs.Prelude.{List};
    ghost use Rattle.trace_pieces.specs.Lists.{PieceList};

    ghost Value = { PieceList };

    ghost view = { λ list. record {
      next = list.next;
      pieces = list.pieces.items;
      lacks_front = list.lacks_front;
      is_ending = list.is_ending;
    } };
}

impl Piece {
    /// Returns whether a file of this length can be the whole piece: the list has this length for it, or no length.
    pub fn is_whole(&self, length: u64) -> bool
        ensures { result ≡ is_whole self.now length }
    {
        match self.length {
            Some(listed) => listed == length,
            None => true,
        }
    }
}

/// Returns a line of the list, with its newline. The keyword comes last, so that a truncated line is not valid.
pub fn line_text(alloc: Global, line: ListLine) -> Result<String, AllocError>
    ensures { IfOk result (λ text. string_bytes text ≡ line_text line) }
{
    match line {
        ListLine::Begins(first) => format!(in alloc; "{first} begins\n"),
        ListLine::Begun(first) => format!(in alloc; "{first} begun\n"),
        ListLine::Piece(number, length) => format!(in alloc; "{number} {length} piece\n"),
        ListLine::Gone(length) => format!(in alloc; "{length} gone\n"),
        ListLine::Taken(number) => format!(in alloc; "{number} taken\n"),
    }
}

/// Returns the line that consists of a number and these words, if that is a valid line.
fn numbered(number: u64, words: &[u8]) -> Option<ListLine>
    ensures { result ≡ line_after number words.now }
{
    if words == b"begins".as_slice() {
        return Some(ListLine::Begins(number));
    }
    if words == b"begun".as_slice() {
        return Some(ListLine::Begun(number));
    }
    if words == b"gone".as_slice() {
        return Some(ListLine::Gone(number));
    }
    if words == b"taken".as_slice() {
        return Some(ListLine::Taken(number));
    }
    let (length, word) = cut(b' ', words)?;
    if word == b"piece".as_slice() {
        return Some(ListLine::Piece(number, read_number(length)?));
    }
    None
}

/// Reads a line of the list, or returns `None` if it is not valid.
fn line_at(line: &[u8]) -> Option<ListLine>
    ensures { result ≡ line_at line.now }
{
    let (number, words) = cut(b' ', line)?;
    numbered(read_number(number)?, words)
}

/// Returns the piece, with its number raised by one if it is at least `number`.
fn moved_up(number: u64, piece: Piece) -> Piece
    ensures { result ≡ moved_up number piece }
{
    if piece.number < number {
        return piece;
    }
    Piece {
        number: piece.number.saturating_add(1),
        ..piece
    }
}

/// Raises the numbers of all pieces from `number` on by one, because a number is only reused after renaming these
/// pieces.
fn all_moved_up(alloc: Global, number: u64, pieces: &[Piece]) -> Result<Vec<Piece>, AllocError>
    ensures { IfOk result (λ moved. moved.items ≡ map (moved_up number) pieces.now) }
{
    pieces
        .iter()
        .map(|piece| moved_up(number, *piece))
        .collect(alloc)
}

/// Returns whether a text has at least one valid line of a list.
pub fn is_list(text: &[u8]) -> bool
    ensures { result ≡ list_any (λ line. is_some (line_at line)) (lines_of text.now) }
{
    let mut rest = text;
    while let Some((line, more)) = next_line(rest) {
        if line_at(line).is_some() {
            return true;
        }
        rest = more;
    }
    false
}

impl PieceList {
    /// Creates an empty list.
    pub fn new(alloc: Global) -> PieceList
        ensures { result ≡ no_line }
    {
        PieceList {
            next: None,
            pieces: Vec::new(alloc),
            lacks_front: false,
            is_ending: false,
        }
    }

    /// Returns whether there is a piece with this number.
    fn has_number(&self, number: u64) -> bool
        ensures { result ≡ has_number self.now.pieces number }
    {
        self.pieces.iter().any(|piece| piece.number == number)
    }

    /// Returns a copy of the list after one more line.
    pub fn with(&self, alloc: Global, line: ListLine) -> Result<PieceList, AllocError>
        ensures { IfOk result (λ list. list ≡ with_line self.now line) }
    {
        let mut list = PieceList {
            next: self.next,
            pieces: Vec::from_slice(alloc, &self.pieces)?,
            lacks_front: self.lacks_front,
            is_ending: self.is_ending,
        };
        list.take(alloc, line)?;
        Ok(list)
    }

    /// Updates the list for one more line.
    fn take(&mut self, alloc: Global, line: ListLine) -> Result<(), AllocError>
        ensures { OnOk result (self.new ≡ with_line self.old line) }
    {
        match line {
            ListLine::Begins(_) => self.is_ending = true,
            ListLine::Begun(first) => {
                self.next = Some(first);
                self.pieces.clear();
                self.lacks_front = false;
                self.is_ending = false;
            }
            ListLine::Piece(number, length) => {
                self.make_room(alloc, number)?;
                self.add(number, length)?;
            }
            ListLine::Gone(length) => {
                self.next = None;
                self.add(0, length)?;
            }
            ListLine::Taken(_) => self.take_oldest(),
        }
        Ok(())
    }

    /// Removes the oldest piece, and records that older pieces were removed.
    fn take_oldest(&mut self)
        ensures { self.new ≡ without_oldest self.old }
    {
        if !self.pieces.is_empty() {
            self.pieces.remove(0);
        }
        self.lacks_front = true;
    }

    /// Updates the list for the text of a line, if the line is valid.
    fn take_text(&mut self, alloc: Global, text: &[u8]) -> Result<(), AllocError>
        ensures { OnOk result (self.new ≡ with_text self.old text.now) }
    {
        match line_at(text) {
            Some(line) => self.take(alloc, line),
            None => Ok(()),
        }
    }

    /// Prepares the list for a piece with this number, by renumbering later pieces if necessary.
    fn make_room(&mut self, alloc: Global, number: u64) -> Result<(), AllocError>
        ensures { OnOk result (self.new ≡ room_for self.old number) }
    {
        if self.rises_to(number) {
            self.next = Some(number.saturating_add(1));
            return Ok(());
        }
        self.next = None;
        if self.has_number(number) {
            self.pieces = all_moved_up(alloc, number, &self.pieces)?;
        }
        Ok(())
    }

    /// Returns whether the next number is known and is at most this one.
    fn rises_to(&self, number: u64) -> bool
        ensures { result ≡ rises_to self.now.next number }
    {
        match self.next {
            Some(next) => next <= number,
            None => false,
        }
    }

    fn add(&mut self, number: u64, length: u64) -> Result<(), AllocError>
        ensures { OnOk result (self.new ≡ with_piece self.old number length) }
    {
        let length = Some(length);
        self.pieces.push(Piece { number, length })?;
        Ok(())
    }

    /// Reads the text of a list. Invalid lines are ignored.
    pub fn read(alloc: Global, text: &[u8]) -> Result<PieceList, AllocError>
        ensures { IfOk result (λ list. list ≡ list_of text.now) }
    {
        let mut list = PieceList::new(alloc);
        let mut rest = text;
        while let Some((line, more)) = next_line(rest) {
            list.take_text(alloc, line)?;
            rest = more;
        }
        Ok(list)
    }

    /// Returns the lowest number that the next piece can have, or `None` if a user assigned a number by renaming files.
    /// If a file with this number exists, it was put away but is not in the list yet.
    pub fn next_number(&self) -> Option<u64>
        ensures { result ≡ self.now.next }
    {
        self.next
    }

    /// Returns the oldest piece, if there are more than `most`.
    pub fn oldest_beyond(&self, most: u64) -> Option<Piece>
        ensures { result ≡ oldest_beyond self.now most }
    {
        if self.pieces.len() as u64 <= most {
            return None;
        }
        self.pieces.first().copied()
    }

    /// Returns whether pieces before the listed ones were removed. `is_empty` says whether the file at the trace's path
    /// is empty.
    pub fn lacks_front(&self, is_empty: bool) -> bool
        ensures { result ≡ lacks_front self.now is_empty }
    {
        self.lacks_front && !(self.is_ending && is_empty)
    }

    /// Returns the pieces that precede the file at the trace's path, oldest first.
    ///
    /// There are none if that file is empty and a later run had announced that it would truncate it. If `has_next` is
    /// set, a file with the next number exists and is the last piece.
    pub fn into_pieces(self, is_empty: bool, has_next: bool) -> Result<Vec<Piece>, AllocError>
        ensures { IfOk result (λ pieces.
            pieces.items ≡ pieces_before self is_empty has_next) }
    {
        let PieceList {
            next,
            mut pieces,
            lacks_front: _,
            is_ending,
        } = self;
        if is_ending && is_empty {
            pieces.clear();
            return Ok(pieces);
        }
        match next {
            Some(number) if has_next => {
                let length = None;
                pieces.push(Piece { number, length })?;
            }
            _ => {}
        }
        Ok(pieces)
    }
}

/// States in its contract that a list has exactly the pieces of the last run, in the order in which they were put away,
/// whatever lines precede them. The function itself does nothing.
pub fn law_of_a_list()
    ensures { (list : PieceListValue) (first : ℕ) (lengths : List ℕ)
        → IsOfRun (numbered first lengths)
        (with_all list (Begun first ∷ away_from first lengths)) }
{}

/// States in its contract that a list has the newest pieces of the run, and a mark if older ones were removed, whatever
/// lines precede them, if each time a piece is put away, the oldest pieces beyond a limit are removed. The function
/// itself does nothing.
pub fn law_of_a_list_that_keeps()
    ensures { (list : PieceListValue) (first most : ℕ) (lengths : List ℕ)
        → IsKept most (numbered first lengths)
        (keeping most (with_line list (Begun first)) first lengths) }
{}
