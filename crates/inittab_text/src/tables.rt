//! A table: the entries of an inittab in order, with lookup by id.

ghost use Rattle.std.specs.Prelude.{◌≡◌, ℕ, List, None, length, slice_get, option_copied, OnOk, OnErr, ◌++◌, [], ◌∷◌};
ghost use Rattle.init_words.specs.declared.entries.Entry.{Entry};
ghost use Rattle.inittab_text.specs.Tables.{first_level, default_of};

use indexmap::IndexMap;
use init_words::{Act, Entry, Id, Level, Mark, Memory};
use std::alloc::{AllocError, Allocator, Global};
use std::fmt;
use std::hash::{BuildHasherDefault, FoldHasher};
use std::marker::Model;

/// The maximum number of entries in a table.
pub const ENTRY_LIMIT: usize = 4_096;

/// The entries of an inittab(5), in the order of their lines, with no id twice.
#[derive(Drop)]
pub struct Table<A: Allocator = Global> {
    entries: IndexMap<Id, Entry, BuildHasherDefault<FoldHasher>, A>,
}

impl<A: Allocator> Model for Table<A> {
    ghost use Rattle.std.specs.Prelude.{◌≡◌, List, true};
    ghost use Rattle.indexmap.specs.IndexMap.{keys, values};
    ghost use Rattle.init_words.specs.declared.entries.Entry.{Entry};
    ghost use Rattle.inittab_text.specs.Tables.{ids_of};
    ghost use Rattle.inittab_text.specs.Written.{is_table};

    ghost Value = { List Entry };

    ghost view = { λ t. values t.entries };

    ghost invariant = { λ t. (keys t.entries ≡ ids_of (values t.entries))
        × (is_table (values t.entries) ≡ true) };
}

impl<A: Allocator> fmt::Debug for Table<A> {
    fn fmt<W: fmt::Write>(&self, f: &mut fmt::Formatter<W>) -> fmt::Result {
        write!(f, "Table of {} entries", self.len())
    }
}

impl<A: Allocator + Copy> Table<A> {
    /// Creates an empty table. This allocates no memory.
    pub fn new(alloc: A) -> Table<A>
        ensures { result ≡ [] }
    {
        Table {
            entries: IndexMap::new(alloc),
        }
    }
}

impl<A: Allocator> Table<A> {
    ghost use Rattle.inittab_text.specs.Tables.{entry_of, is_distinct, default_of, default_level_of};
    ghost use Rattle.inittab_text.specs.Written.{is_written, is_table};
    ghost use Rattle.std.specs.Prelude.{true, ◌<◌, Some, IfOk};

    /// Returns the number of entries, at most 4,096. Each is one that reading can produce, and no id occurs twice.
    pub fn len(&self) -> usize
        ensures value { result ≡ length self.now }
        ensures table { is_table self.now ≡ true }
        ensures distinct { is_distinct self.now ≡ true }
    {
        self.entries.len()
    }

    /// Returns the entries in the order of their lines, with no id twice.
    pub fn entries(&self) -> &[Entry]
        ensures value { result.now ≡ self.now }
        ensures table { is_table self.now ≡ true }
        ensures distinct { is_distinct self.now ≡ true }
    {
        self.entries.values().as_slice()
    }

    /// Returns the entry at a position, counted from 0.
    pub fn at(&self, position: usize) -> Option<&Entry>
        ensures { option_copied result ≡ slice_get self.now position }
    {
        let (_, entry) = self.entries.get_index(position)?;
        Some(entry)
    }

    /// Returns a copy of the table, allocated with `alloc`.
    pub fn copy<B: Allocator + Copy>(&self, alloc: B) -> Result<Table<B>, Memory>
        ensures { IfOk result (λ copy. copy ≡ self.now) }
    {
        let mut copy = Table::new(alloc);
        for position in 0..self.len() {
            let entry = self.entry(position).clone()?;
            copy.push(entry)?;
        }
        Ok(copy)
    }

    /// Returns the entry with this id.
    pub fn get(&self, id: &Id) -> Option<&Entry>
        ensures value { option_copied result ≡ entry_of id.now self.now }
    {
        self.entries.get(id)
    }

    /// Returns the default runlevel: the first runlevel of the first initdefault entry that has one (inittab(5)).
    pub fn default_level(&self) -> Option<Level>
        ensures { result ≡ default_level_of self.now }
    {
        for position in 0..self.len() {
            if let Some(level) = default_of(self.entry(position)) {
                return Some(level);
            }
        }
        None
    }

    /// Returns the entry at a position less than the length.
    pub(crate) fn entry(&self, position: usize) -> &Entry
        requires { position < length self.now }
        ensures { slice_get self.now position ≡ Some result.now }
    {
        let Some(entry) = self.at(position) else {
            unreachable!()
        };
        entry
    }

    /// Appends an entry.
    pub(crate) fn push(&mut self, entry: Entry) -> Result<(), Memory>
        requires new { entry_of entry.id self.old ≡ None }
        requires written { is_written entry ≡ true }
        requires room { length self.old < ENTRY_LIMIT }
        ensures ok { OnOk result (self.new ≡ self.old ++ entry ∷ []) }
        ensures err { OnErr result (self.new ≡ self.old) }
    {
        self.entries.insert(entry.id, entry)?;
        Ok(())
    }
}

/// Returns the first runlevel among the marks.
fn first_level(marks: &[Mark]) -> Option<Level>
    ensures { result ≡ first_level marks.now }
{
    for mark in marks {
        if let Mark::At(level) = mark {
            return Some(*level);
        }
    }
    None
}

/// Returns the runlevel that an entry names as the default, if it is an initdefault entry.
fn default_of(entry: &Entry) -> Option<Level>
    ensures { result ≡ default_of entry.now }
{
    if entry.act != Act::Initdefault {
        return None;
    }
    first_level(entry.levels.as_slice())
}
