//! An entry of inittab(5): id, runlevels, action, process.

ghost use Rattle.std.specs.Prelude.{◌≡◌, ◌≤◌, length};
ghost use Rattle.init_words.specs.Levels.{names};
ghost use Rattle.init_words.specs.Entries.{without_plus, starts_of, lives_of, waited_of};

use crate::actions::Act;
use crate::ids::Id;
use crate::levels::{Letter, Level, Mark, names};
use crate::stages::Stage;
use arrayvec::ArrayVec;
use std::alloc::AllocError;

/// The maximum number of characters that an entry keeps of its runlevels field.
pub const MARK_LIMIT: usize = 11;

/// The maximum length of a process field in bytes, including a leading `+` (inittab(5)).
pub const PROCESS_LIMIT: usize = 127;

/// A line of inittab(5), `id:runlevels:action:process`.
#[derive(Drop)]
pub struct Entry {
    pub id: Id,
    /// The characters of the runlevels field that have a meaning, in their order.
    pub levels: ArrayVec<Mark, MARK_LIMIT>,
    pub act: Act,
    /// The process field as written, at most 127 bytes. A leading `+` asks for no accounting in utmp and wtmp.
    pub process: ArrayVec<u8, PROCESS_LIMIT>,
}

impl Entry {
    ghost use Rattle.init_words.specs.Entries.{command_of};

    /// Returns the command line to run: the process field without a leading `+`.
    pub fn command(&self) -> &[u8]
        ensures { result.now ≡ command_of self.now }
    {
        without_plus(self.process.as_slice())
    }

    /// Returns whether the entry names the level.
    pub fn names_level(&self, level: Level) -> bool
        ensures { result ≡ names (Mark.At level) self.now.levels.items }
    {
        names(self.levels.as_slice(), Mark::At(level))
    }

    /// Returns whether the entry names the letter.
    pub fn names_letter(&self, letter: Letter) -> bool
        ensures { result ≡ names (Mark.OnCall letter) self.now.levels.items }
    {
        names(self.levels.as_slice(), Mark::OnCall(letter))
    }
}

impl Clone for Entry {
    ghost use Rattle.std.specs.Prelude.{◌≡◌, ⊤};

    ghost is_clone = { λ entry copy. copy ≡ entry };

    ghost is_infallible = { λ entry. ⊤ };

    fn clone(&self) -> Result<Entry, AllocError> {
        Ok(Entry {
            id: self.id,
            levels: kept(self.levels.as_slice()),
            act: self.act,
            process: kept(self.process.as_slice()),
        })
    }
}

/// Copies the items into a vector of fixed capacity.
fn kept<T: Copy + Default, const N: usize>(items: &[T]) -> ArrayVec<T, N>
    requires { length items.now ≤ N }
    ensures { result.items ≡ items.now }
{
    let mut field = ArrayVec::new();
    if field.try_extend_from_slice(items).is_err() {
        unreachable!()
    }
    field
}

/// Returns a process field without its leading `+`, if it has one (inittab(5)).
pub fn without_plus(process: &[u8]) -> &[u8]
    ensures { result.now ≡ without_plus process.now }
{
    match process {
        [b'+', command @ ..] => command,
        _ => process,
    }
}

/// Returns whether the entry is started in the stage (inittab(5)).
pub fn starts(entry: &Entry, stage: Stage) -> bool
    ensures { result ≡ starts_of entry.now stage }
{
    entry.act.starts(entry.levels.as_slice(), stage)
}

/// Returns whether a child of the entry may keep running in the stage; if not, it is stopped (init(8)).
pub fn lives(entry: &Entry, stage: Stage) -> bool
    ensures { result ≡ lives_of entry.now stage }
{
    entry.act.lives(entry.levels.as_slice(), stage)
}

/// Returns whether init waits for the entry's process to end before it starts later entries (inittab(5)).
pub fn waited(entry: &Entry) -> bool
    ensures { result ≡ waited_of entry.now }
{
    entry.act.is_waited()
}
