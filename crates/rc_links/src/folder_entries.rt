//! The entries of a folder, and the targets of symbolic links.

ghost use Rattle.std.specs.Prelude.{◌≡◌, IfOk};
ghost use Rattle.rc_links.specs.Entries.{same_entry, entry_of};

use std::alloc::{AllocError, Allocator, Global};
use std::marker::Model;

/// An entry of a folder: its name, and its target if it is a symbolic link.
#[derive(Drop)]
pub struct FolderEntry<A: Allocator = Global> {
    name: Vec<u8, A>,
    leads: Vec<u8, A>,
}

impl<A: Allocator> Model for FolderEntry<A> {
    ghost use Rattle.rc_links.specs.EntryText.{EntryText};

    ghost Value = { EntryText };

    ghost view = { λ e. record { name = e.name.items; leads = e.leads.items } };
}

impl<A: Allocator> FolderEntry<A> {
    /// Creates an entry with this name and target. The target is empty if it is not a symbolic link.
    pub fn new(name: Vec<u8, A>, leads: Vec<u8, A>) -> FolderEntry<A>
        ensures { result ≡ entry_of name.items leads.items }
    {
        FolderEntry { name, leads }
    }

    /// Returns the name.
    pub fn name(&self) -> &[u8]
        ensures { result.now ≡ self.now.name }
    {
        self.name.as_slice()
    }

    /// Returns the target, which is empty if the entry is not a symbolic link.
    pub fn leads(&self) -> &[u8]
        ensures { result.now ≡ self.now.leads }
    {
        self.leads.as_slice()
    }
}

impl<A: Allocator + Copy> FolderEntry<A> {
    /// Copies the entry.
    pub fn copy(&self, alloc: A) -> Result<FolderEntry<A>, AllocError>
        ensures { IfOk result (λ copied. copied ≡ self.now) }
    {
        let name = Vec::from_slice(alloc, self.name())?;
        let leads = Vec::from_slice(alloc, self.leads())?;
        Ok(FolderEntry { name, leads })
    }
}

/// Reports whether two entries have the same name and the same target.
pub fn is_same<A: Allocator>(one: &FolderEntry<A>, other: &FolderEntry<A>) -> bool
    ensures { result ≡ same_entry one.now other.now }
{
    one.name() == other.name() && one.leads() == other.leads()
}
