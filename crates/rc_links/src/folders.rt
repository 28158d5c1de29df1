//! The current and the planned contents of a runlevel's folder, and changes to it.

ghost use Rattle.std.specs.Prelude.{◌≡◌};
ghost use Rattle.rc_links.specs.Folders.{change_of, folder_text};

use crate::folder_entries::FolderEntry;
use init_words::Level;
use std::alloc::{Allocator, Global};
use std::marker::Model;

/// The folder of a runlevel.
#[derive(Drop)]
pub struct Folder<A: Allocator = Global> {
    level: Level,
    planned: Vec<FolderEntry<A>, A>,
    held: Vec<FolderEntry<A>, A>,
}

impl<A: Allocator> Model for Folder<A> {
    ghost use Rattle.rc_links.specs.FolderText.{FolderText};

    ghost Value = { FolderText };

    ghost view = { λ f. record {
      level = f.level;
      planned = f.planned.items;
      held = f.held.items;
    } };
}

impl<A: Allocator> Folder<A> {
    /// Creates the folder of a runlevel, given the links that the plan puts in it and the entries that it holds.
    pub fn new(
        level: Level,
        planned: Vec<FolderEntry<A>, A>,
        held: Vec<FolderEntry<A>, A>,
    ) -> Folder<A>
        ensures { result ≡ folder_text level planned.items held.items }
    {
        Folder {
            level,
            planned,
            held,
        }
    }

    /// Returns the runlevel.
    pub fn level(&self) -> Level
        ensures { result ≡ self.now.level }
    {
        self.level
    }

    /// Returns the links that the plan has in the folder.
    pub fn planned(&self) -> &[FolderEntry<A>]
        ensures { result.now ≡ self.now.planned }
    {
        self.planned.as_slice()
    }

    /// Returns the entries that the folder holds.
    pub fn held(&self) -> &[FolderEntry<A>]
        ensures { result.now ≡ self.now.held }
    {
        self.held.as_slice()
    }
}

/// The action of a change: remove or create an entry.
#[derive(Clone, Copy, PartialEq, Eq, Debug)]
pub enum LinkAction {
    /// Remove it.
    Remove,
    /// Create it.
    Make,
}

/// A change to a runlevel's folder.
#[derive(Drop)]
pub struct LinkChange<A: Allocator = Global> {
    act: LinkAction,
    level: Level,
    entry: FolderEntry<A>,
}

impl<A: Allocator> Model for LinkChange<A> {
    ghost use Rattle.rc_links.specs.ChangeText.{ChangeText};

    ghost Value = { ChangeText };

    ghost view = { λ c. record { act = c.act; level = c.level; entry = c.entry } };
}

impl<A: Allocator> LinkChange<A> {
    /// Creates a change to the folder of a runlevel.
    pub(crate) fn new(act: LinkAction, level: Level, entry: FolderEntry<A>) -> LinkChange<A>
        ensures { result ≡ change_of act level entry }
    {
        LinkChange { act, level, entry }
    }

    /// Returns the action.
    pub fn act(&self) -> LinkAction
        ensures { result ≡ self.now.act }
    {
        self.act
    }

    /// Returns the runlevel of the folder.
    pub fn level(&self) -> Level
        ensures { result ≡ self.now.level }
    {
        self.level
    }

    /// Returns the entry.
    pub fn entry(&self) -> &FolderEntry<A>
        ensures { result.now ≡ self.now.entry }
    {
        &self.entry
    }
}
