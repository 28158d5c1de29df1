//! The versions of the state text, and the limits of version 1.

ghost use Rattle.std.specs.Prelude.{◌≡◌};
ghost use Rattle.core_text.specs.Versions.{id_limit, entry_limit};

use init_words::ID_LIMIT;
use inittab_text::ENTRY_LIMIT;

/// The maximum length in bytes of an id in version 1.
pub const OLD_ID_LIMIT: usize = 4;

/// The maximum number of entries of a table in version 1.
pub const OLD_ENTRY_LIMIT: usize = 512;

/// The versions of the state text.
#[derive(Clone, Copy)]
pub enum Version {
    /// Version 1 has lower limits on ids and tables, and does not record how a child ended.
    V1,
    /// Version 2, the version that init writes.
    V2,
}

impl Version {
    /// Returns the maximum length in bytes of an id.
    pub fn id_limit(self) -> usize
        ensures { result ≡ id_limit self }
    {
        match self {
            Version::V1 => OLD_ID_LIMIT,
            Version::V2 => ID_LIMIT,
        }
    }

    /// Returns the maximum number of entries of a table.
    pub fn entry_limit(self) -> usize
        ensures { result ≡ entry_limit self }
    {
        match self {
            Version::V1 => OLD_ENTRY_LIMIT,
            Version::V2 => ENTRY_LIMIT,
        }
    }
}
