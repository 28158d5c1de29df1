//! The faults that prevent init from handing over or taking over a state.

use init_words::Memory;
use std::alloc::AllocError;
use thiserror::Error;

/// The reason why init's state was not handed over or taken over.
#[derive(Clone, Copy, Debug, PartialEq, Eq, Error)]
pub enum StateFault {
    /// The text does not end with a newline, or its last line does not begin with `end `.
    #[error("the text is truncated")]
    Cut,
    /// The first line names no known version.
    #[error("the text has an unknown version")]
    Version,
    /// The line of this number, counted from 1, is invalid or in the wrong place.
    #[error("line {0} is wrong, or in the wrong place")]
    Line(u64),
    /// The text represents a state of another generation.
    #[error("the text has another generation")]
    Generation,
    /// No init can reach the state in the text.
    #[error("no init can reach this state")]
    Unfit,
    /// The generation number is at its maximum.
    #[error("no generation number is left")]
    Worn,
    /// Memory allocation failed.
    #[error("out of memory")]
    Memory,
}

impl From<Memory> for StateFault {
    ghost use Rattle.std.specs.Prelude.{◌≡◌};
    ghost use Rattle.core_text.specs.declared.state_fault.StateFault.TheVariants.{Memory};

    ghost from_gives = { λ _ over. over ≡ Memory };

    fn from(_error: Memory) -> StateFault {
        StateFault::Memory
    }
}

impl From<AllocError> for StateFault {
    ghost use Rattle.std.specs.Prelude.{◌≡◌};
    ghost use Rattle.core_text.specs.declared.state_fault.StateFault.TheVariants.{Memory};

    ghost from_gives = { λ _ over. over ≡ Memory };

    fn from(_error: AllocError) -> StateFault {
        StateFault::Memory
    }
}
