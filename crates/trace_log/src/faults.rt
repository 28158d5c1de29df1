//! The error of a log that could not record a happening.

use init_words::Memory;
use std::error::Error;
use std::{fmt, io};

/// The reason why a log could not record a happening.
#[derive(Clone, Copy, Debug, PartialEq, Eq)]
pub enum LogFault {
    /// The writer failed, or wrote no byte.
    Device,
    /// Memory allocation failed.
    Memory,
}

impl fmt::Display for LogFault {
    ghost use Rattle.std.specs.Prelude.{Some};
    ghost use Rattle.trace_log.specs.Faults.{fault_text};

    ghost output = { λ fault. Some (fault_text fault) };

    fn fmt<W: fmt::Write>(&self, f: &mut fmt::Formatter<W>) -> fmt::Result {
        f.write_str(match self {
            LogFault::Device => "the log could not be written",
            LogFault::Memory => "out of memory",
        })
    }
}

impl Error for LogFault {}

impl From<Memory> for LogFault {
    ghost use Rattle.std.specs.Prelude.{◌≡◌};
    ghost use Rattle.trace_log.specs.declared.faults.LogFault.TheVariants.{Memory};

    ghost from_gives = { λ _ fault. fault ≡ Memory };

    fn from(_error: Memory) -> LogFault {
        LogFault::Memory
    }
}

impl From<io::Error> for LogFault {
    ghost use Rattle.std.specs.Prelude.{◌≡◌};
    ghost use Rattle.trace_log.specs.declared.faults.LogFault.TheVariants.{Device};

    ghost from_gives = { λ _ fault. fault ≡ Device };

    fn from(_error: io::Error) -> LogFault {
        LogFault::Device
    }
}
