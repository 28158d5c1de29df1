//! The calls that init makes to its host, and their answers.

ghost use Rattle.std.specs.Prelude.{◌≡◌, [], IfOk};

use crate::parts::PartList;
use init_words::{Answer, Id, Memory, SignalKind};
use inittab_text::Table;
use std::alloc::{Allocator, Global};
use std::marker::Model;
use thiserror::Error;
use trace_events::Happening;

/// The reply of a host to an order.
#[derive(Clone, Copy, PartialEq, Eq)]
pub enum Reply {
    /// The answer to the order.
    Now(Answer),
    /// The answer will be returned by a later call of `late`.
    Later,
}

/// The reason why a host could not carry out a call.
#[derive(Clone, Copy, Debug, PartialEq, Eq, Error)]
pub enum HostFault {
    /// A file, the clock or the output failed.
    #[error("a device failed")]
    Device,
    /// Memory allocation failed.
    #[error("out of memory")]
    Memory,
}

/// A text that owns its memory.
#[derive(Drop)]
pub struct Bytes<A: Allocator = Global> {
    text: Vec<u8, A>,
}

impl<A: Allocator> Model for Bytes<A> {
    ghost use Rattle.std.specs.Prelude.{ℕ, List};

    ghost Value = { List ℕ };

    ghost view = { λ bytes. bytes.text.items };
}

impl<A: Allocator> Bytes<A> {
    /// Creates an empty text. This allocates no memory.
    pub fn new(alloc: A) -> Bytes<A>
        ensures { result ≡ [] }
    {
        Bytes {
            text: Vec::new(alloc),
        }
    }

    /// Copies the text.
    pub fn copy_of(alloc: A, text: &[u8]) -> Result<Bytes<A>, Memory>
        ensures { IfOk result (λ bytes. bytes ≡ text.now) }
    {
        Ok(Bytes {
            text: Vec::from_slice(alloc, text)?,
        })
    }

    /// Returns the bytes of the text.
    pub fn as_slice(&self) -> &[u8]
        ensures { result.now ≡ self.now }
    {
        self.text.as_slice()
    }
}

/// A call to a host, with its arguments and its answer. `B` is the type of a text, `T` of a table, `P` of the files of
/// a table.
#[derive(Drop)]
pub enum Call<B = Bytes, T = Table, P = PartList> {
    /// Start a child for the id with this command.
    Start(Id, B, Reply),
    /// Look whether the child of the id has ended.
    Look(Id, Reply),
    /// Send this signal to the child of the id.
    Signal(Id, SignalKind, Reply),
    /// Return an answer to an earlier order, if one has come.
    Late(Option<(Id, Answer)>),
    /// Read the clock, in seconds.
    Clock(Result<u64, HostFault>),
    /// Read bytes of requests into a buffer of this length.
    TakeBytes(usize, Result<B, HostFault>),
    /// Read the files of the inittab.
    ReadTables(Result<P, HostFault>),
    /// Carry this text of init's state to a new init, and return what that init receives.
    Carry(B, Result<B, HostFault>),
    /// Announce this happening.
    Announce(Happening<T>),
    /// Pause.
    Pause,
}

/// A call whose texts, table and files are in memory of this allocator.
pub type CallIn<A> = Call<Bytes<A>, Table<A>, PartList<A>>;
