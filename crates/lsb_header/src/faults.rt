//! The faults of a header, and their messages.

use crate::keywords::Keyword;
use init_words::Memory;
use std::alloc::AllocFailed;
use std::error::Error;
use std::fmt;

/// The reason why a header was rejected. The variants are in the order of the checks; the first check that fails
/// determines the fault.
#[derive(Clone, Copy, Debug, PartialEq, Eq)]
pub enum HeaderFault {
    /// No line is `### BEGIN INIT INFO`.
    NoBegin,
    /// No line after it is `### END INIT INFO`.
    NoEnd,
    /// The line with this number, counted from 1, has none of the forms of a header line, or is not UTF-8.
    BadLine(usize),
    /// A keyword occurs twice.
    Twice(Keyword),
    /// Provides is missing, or has no names.
    NoProvides,
    /// Out of memory.
    Memory,
}

impl fmt::Display for HeaderFault {
    ghost use Rattle.std.specs.Prelude.{Some};
    ghost use Rattle.lsb_header.specs.Faults.{fault_text};

    ghost output = { λ fault. Some (fault_text fault) };

    fn fmt<W: fmt::Write>(&self, f: &mut fmt::Formatter<W>) -> fmt::Result {
        match self {
            HeaderFault::NoBegin => f.write_str("no line \"### BEGIN INIT INFO\""),
            HeaderFault::NoEnd => {
                f.write_str("no line \"### END INIT INFO\" after \"### BEGIN INIT INFO\"")
            }
            HeaderFault::BadLine(number) => write!(
                f,
                "line {number}: neither \"# Keyword: words\" nor \"#  text\" in UTF-8"
            ),
            HeaderFault::Twice(keyword) => write!(f, "{keyword} appears twice"),
            HeaderFault::NoProvides => f.write_str("no name after \"# Provides:\""),
            HeaderFault::Memory => f.write_str("out of memory"),
        }
    }
}

impl Error for HeaderFault {}

impl From<Memory> for HeaderFault {
    ghost use Rattle.std.specs.Prelude.{◌≡◌};
    ghost use Rattle.lsb_header.specs.declared.faults.HeaderFault.TheVariants as fault;

    ghost from_gives = { λ _ given. given ≡ fault.Memory };

    fn from(_error: Memory) -> HeaderFault {
        HeaderFault::Memory
    }
}

impl<T: Drop> From<AllocFailed<T>> for HeaderFault {
    ghost use Rattle.std.specs.Prelude.{◌≡◌};
    ghost use Rattle.lsb_header.specs.declared.faults.HeaderFault.TheVariants as fault;

    ghost from_gives = { λ _ given. given ≡ fault.Memory };

    fn from(_error: AllocFailed<T>) -> HeaderFault {
        HeaderFault::Memory
    }
}
