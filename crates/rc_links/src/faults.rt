//! The reasons why init scripts have no plan, and their messages.

use init_words::Memory;
use std::alloc::{AllocFailed, Allocator, Global};
use std::error::Error;
use std::fmt;

/// The reason why scripts have no plan. The variants are in the order of the checks; the first check that fails
/// determines the fault.
#[derive(Drop)]
#[derive_where(Debug, PartialEq, Eq)]
pub enum PlanFault<A: Allocator = Global> {
    /// A script provides a name that an earlier script also provides, or has the same name as an earlier script.
    DoubleProvide(String<A>),
    /// A script requires this name, and no script provides it.
    Missing(String<A>),
    /// Each script with one of these names needs the next, and the last needs the first, which is the earliest.
    Cycle(Vec<String<A>, A>),
    /// A number would be greater than 99.
    TooDeep,
    /// Out of memory.
    Memory,
}

impl<A: Allocator> fmt::Display for PlanFault<A> {
    ghost use Rattle.std.specs.Prelude.{Some};
    ghost use Rattle.rc_links.specs.FaultTexts.{fault_text};

    ghost output = { λ fault. Some (fault_text fault) };

    fn fmt<W: fmt::Write>(&self, f: &mut fmt::Formatter<W>) -> fmt::Result {
        match self {
            PlanFault::DoubleProvide(name) => write!(f, "provided twice: {name}"),
            PlanFault::Missing(name) => write!(f, "missing: {name}"),
            PlanFault::Cycle(names) => {
                f.write_str("cycle:")?;
                for name in names {
                    write!(f, " {name}")?;
                }
                Ok(())
            }
            PlanFault::TooDeep => f.write_str("too deep"),
            PlanFault::Memory => f.write_str("out of memory"),
        }
    }
}

impl<A: Allocator> Error for PlanFault<A> {}

impl<A: Allocator> From<Memory> for PlanFault<A> {
    ghost use Rattle.std.specs.Prelude.{◌≡◌};
    ghost use Rattle.rc_links.specs.declared.faults.PlanFault.TheVariants as fault;

    ghost from_gives = { λ _ given. given ≡ fault.Memory };

    fn from(_error: Memory) -> PlanFault<A> {
        PlanFault::Memory
    }
}

impl<T: Drop, A: Allocator> From<AllocFailed<T>> for PlanFault<A> {
    ghost use Rattle.std.specs.Prelude.{◌≡◌};
    ghost use Rattle.rc_links.specs.declared.faults.PlanFault.TheVariants as fault;

    ghost from_gives = { λ _ given. given ≡ fault.Memory };

    fn from(_error: AllocFailed<T>) -> PlanFault<A> {
        PlanFault::Memory
    }
}
