//! Queues of answers.

ghost use Rattle.std.specs.Prelude.{◌≡◌, ◌≤◌, ◌++◌, ◌∷◌, [], drop, length, take, min, unwrap_or, Ok, OnOk, OnErr, IfOk};
ghost use Rattle.host_calls.specs.Calls.{front_read};
ghost use Rattle.host_scripted.specs.Script.{first, left_of, taken_of};

use host_calls::{Bytes, HostFault};
use init_words::Memory;
use std::alloc::Allocator;
use std::collections::VecDeque;
use std::marker::Model;

/// Appends an item.
pub(crate) fn give<T: Drop, A: Allocator>(queue: &mut VecDeque<T, A>, item: T) -> Result<(), Memory>
    ensures ok { OnOk result (queue.new.items ≡ queue.old.items ++ item ∷ []) }
    ensures err { OnErr result (queue.new.items ≡ queue.old.items) }
{
    queue.push_back(item)?;
    Ok(())
}

/// Removes and returns the first item, or returns `empty` if there is none.
pub(crate) fn next_or<T: Drop, A: Allocator>(queue: &mut VecDeque<T, A>, empty: T) -> T
    ensures item { result ≡ unwrap_or (first queue.old.items) empty }
    ensures rest { queue.new.items ≡ drop 1 queue.old.items }
{
    match queue.pop_front() {
        Some(item) => item,
        None => empty,
    }
}

/// Copies as much of the text as fits to the front of the buffer. Returns the number of bytes.
fn copy_front(text: &[u8], buffer: &mut [u8]) -> usize
    ensures count { result ≡ min (length text.now) (length buffer.old) }
    ensures copied { take result buffer.new ≡ take (length buffer.old) text.now }
{
    let count = text.len().min(buffer.len());
    buffer[..count].copy_from_slice(&text[..count]);
    count
}

/// Copies as much of the text as fits to the buffer, beginning after the bytes of the text that were taken before.
/// Returns the number of bytes.
fn take_from(text: &[u8], taken: &mut usize, buffer: &mut [u8]) -> usize
    requires { taken.old ≤ length text.now }
    ensures within { result ≤ length buffer.old }
    ensures place { taken.new ≤ length text.now }
    ensures copied { take result buffer.new ≡ take (length buffer.old) (drop taken.old text.now) }
    ensures left { left_of taken.new (Ok text.now)
        ≡ left_of (length buffer.old) (Ok (drop taken.old text.now)) }
{
    let count = copy_front(&text[*taken..], buffer);
    *taken += count;
    count
}

/// A queue of pieces of bytes, with faults between them. Part of the first piece may have been taken already.
#[derive(Drop)]
pub(crate) struct Pieces<A: Allocator> {
    under_way: Bytes<A>,
    taken: usize,
    pieces: VecDeque<Result<Bytes<A>, HostFault>, A>,
}

impl<A: Allocator> Model for Pieces<A> {
    ghost use Rattle.std.specs.Prelude.{◌≤◌, List, length};
    ghost use Rattle.host_calls.specs.Calls.{TextRead};
    ghost use Rattle.host_scripted.specs.Script.{pieces_from};

    ghost Value = { List TextRead };

    ghost view = { λ p. pieces_from p.taken p.under_way p.pieces.items };

    ghost invariant = { λ p. p.taken ≤ length p.under_way };
}

impl<A: Allocator + Copy> Pieces<A> {
    /// Creates an empty queue. This does not allocate.
    pub(crate) fn new(alloc: A) -> Pieces<A>
        ensures { result ≡ [] }
    {
        Pieces {
            under_way: Bytes::new(alloc),
            taken: 0,
            pieces: VecDeque::new(alloc),
        }
    }
}

impl<A: Allocator> Pieces<A> {
    /// Appends a piece.
    pub(crate) fn give(&mut self, piece: Result<Bytes<A>, HostFault>) -> Result<(), Memory>
        ensures ok { OnOk result (self.new ≡ self.old ++ piece ∷ []) }
        ensures err { OnErr result (self.new ≡ self.old) }
    {
        give(&mut self.pieces, piece)
    }
}

impl<A: Allocator + Copy> Pieces<A> {
    /// Takes as much of the first piece as fits in the buffer. The rest becomes the first piece.
    pub(crate) fn take(&mut self, buffer: &mut [u8]) -> Result<usize, HostFault>
        ensures within { IfOk result (λ count. count ≤ length buffer.old) }
        ensures taken { front_read result buffer.new
            ≡ taken_of (length buffer.old) (unwrap_or (first self.old) (Ok [])) }
        ensures left { self.new
            ≡ left_of (length buffer.old) (unwrap_or (first self.old) (Ok [])) ++ drop 1 self.old }
    {
        if self.taken < self.under_way.as_slice().len() {
            return Ok(take_from(self.under_way.as_slice(), &mut self.taken, buffer));
        }
        let nothing = Bytes::new(*self.pieces.allocator());
        match next_or(&mut self.pieces, Ok(nothing)) {
            Ok(piece) => {
                self.under_way = piece;
                self.taken = 0;
                Ok(take_from(self.under_way.as_slice(), &mut self.taken, buffer))
            }
            Err(fault) => Err(fault),
        }
    }
}
