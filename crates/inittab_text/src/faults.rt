//! The faults of a line, a file or a whole inittab, and their messages.

use init_words::Memory;
use std::alloc::AllocFailed;
use std::error::Error;
use std::fmt;

/// The reason why a line of inittab(5) is skipped: the first check that it fails, in this order.
#[derive(Clone, Copy, Debug, PartialEq, Eq)]
pub enum LineKind {
    /// The line has fewer than three colons.
    Fields,
    /// The id is not 1 to 8 bytes from 33 to 126, or begins with `#`.
    Id,
    /// The runlevels field is longer than 11 bytes.
    Levels,
    /// The action is not one of the words of inittab(5), in lower case.
    Action,
    /// The process is longer than 127 bytes, including a leading `+`.
    Length,
    /// The process has only blanks and tabs, apart from a leading `+`.
    Empty,
    /// The line is not UTF-8, or has a NUL byte.
    Text,
    /// An earlier entry has the same id.
    Twice,
    /// The table already has 4,096 entries.
    Many,
}

/// A skipped line.
#[derive(Clone, Copy, Debug, PartialEq, Eq)]
pub struct LineFault {
    /// The number of the line, from 1.
    pub line: u32,
    /// The first check that the line fails.
    pub kind: LineKind,
}

/// A skipped line of an inittab that consists of several parts.
#[derive(Clone, Copy, Debug, PartialEq, Eq)]
pub struct PartFault {
    /// The number of the part, from 0.
    pub part: u32,
    /// The number of the line in its part, from 1.
    pub line: u32,
    /// The first check that the line fails.
    pub kind: LineKind,
}

/// The reason why a table could not be read.
#[derive(Clone, Copy, Debug, PartialEq, Eq)]
pub enum TableFault {
    /// The text, or all parts together, are longer than 1,048,576 bytes.
    TooLong,
    /// Memory allocation failed.
    Memory,
    /// There are more than 256 parts.
    Parts,
}

impl fmt::Display for LineKind {
    ghost use Rattle.std.specs.Prelude.{Some};
    ghost use Rattle.inittab_text.specs.Faults.{kind_text};

    ghost output = { λ kind. Some (kind_text kind) };

    fn fmt<W: fmt::Write>(&self, f: &mut fmt::Formatter<W>) -> fmt::Result {
        f.write_str(match self {
            LineKind::Fields => "too few fields",
            LineKind::Id => "bad id",
            LineKind::Levels => "runlevels too long",
            LineKind::Action => "unknown action",
            LineKind::Length => "process too long",
            LineKind::Empty => "no process",
            LineKind::Text => "bad text",
            LineKind::Twice => "duplicate id",
            LineKind::Many => "too many entries",
        })
    }
}

impl fmt::Display for LineFault {
    ghost use Rattle.std.specs.Prelude.{Some};
    ghost use Rattle.inittab_text.specs.Faults.{line_fault_text};

    ghost output = { λ fault. Some (line_fault_text fault) };

    fn fmt<W: fmt::Write>(&self, f: &mut fmt::Formatter<W>) -> fmt::Result {
        let line = self.line;
        let kind = self.kind;
        write!(f, "inittab line {line}: {kind}")
    }
}

impl fmt::Display for PartFault {
    ghost use Rattle.std.specs.Prelude.{Some};
    ghost use Rattle.inittab_text.specs.Faults.{part_fault_text};

    ghost output = { λ fault. Some (part_fault_text fault) };

    fn fmt<W: fmt::Write>(&self, f: &mut fmt::Formatter<W>) -> fmt::Result {
        let part = self.part;
        let line = self.line;
        let kind = self.kind;
        write!(f, "inittab part {part} line {line}: {kind}")
    }
}

impl fmt::Display for TableFault {
    ghost use Rattle.std.specs.Prelude.{Some};
    ghost use Rattle.inittab_text.specs.Faults.{table_fault_text};

    ghost output = { λ fault. Some (table_fault_text fault) };

    fn fmt<W: fmt::Write>(&self, f: &mut fmt::Formatter<W>) -> fmt::Result {
        f.write_str(match self {
            TableFault::TooLong => "inittab is longer than 1048576 bytes",
            TableFault::Memory => "out of memory",
            TableFault::Parts => "inittab has more than 256 files",
        })
    }
}

impl Error for LineKind {}

impl Error for LineFault {}

impl Error for PartFault {}

impl Error for TableFault {}

impl From<Memory> for TableFault {
    ghost use Rattle.std.specs.Prelude.{◌≡◌};
    ghost use Rattle.inittab_text.specs.declared.faults.TableFault.TheVariants as table_fault;

    ghost from_gives = { λ _ fault. fault ≡ table_fault.Memory };

    fn from(_error: Memory) -> TableFault {
        TableFault::Memory
    }
}

impl<T: Drop> From<AllocFailed<T>> for TableFault {
    ghost use Rattle.std.specs.Prelude.{◌≡◌};
    ghost use Rattle.inittab_text.specs.declared.faults.TableFault.TheVariants as table_fault;

    ghost from_gives = { λ _ fault. fault ≡ table_fault.Memory };

    fn from(_error: AllocFailed<T>) -> TableFault {
        TableFault::Memory
    }
}
