//! A plan: each script with its start and stop numbers.

ghost use Rattle.std.specs.Prelude.{◌≡◌, option_map, IfOk};
ghost use Rattle.rc_links.specs.Plans.{planned_named};

use init_words::Level;
use std::alloc::{AllocError, Allocator, Global};
use std::marker::Model;

/// A script with its numbers.
#[derive(Drop)]
pub(crate) struct Planned<A: Allocator> {
    /// The name of its file.
    pub(crate) name: String<A>,
    /// Its start number.
    pub(crate) start: u8,
    /// Its stop number.
    pub(crate) stop: u8,
    /// The runlevels in which it is started.
    pub(crate) starts: Vec<Level, A>,
    /// The runlevels in which it is stopped.
    pub(crate) stops: Vec<Level, A>,
}

impl<A: Allocator> Model for Planned<A> {
    ghost use Rattle.std.specs.Prelude.{string_bytes};
    ghost use Rattle.rc_links.specs.PlannedText.{PlannedText};

    ghost Value = { PlannedText };

    ghost view = { λ s. record {
      name = string_bytes s.name;
      start = s.start;
      stop = s.stop;
      starts = s.starts.items;
      stops = s.stops.items;
    } };
}

impl<A: Allocator + Copy> Planned<A> {
    /// Copies the script.
    pub(crate) fn copy(&self, alloc: A) -> Result<Planned<A>, AllocError>
        ensures { IfOk result (λ copied. copied ≡ self.now) }
    {
        Ok(Planned {
            name: String::from_str(alloc, self.name.as_str())?,
            start: self.start,
            stop: self.stop,
            starts: Vec::from_slice(alloc, self.starts.as_slice())?,
            stops: Vec::from_slice(alloc, self.stops.as_slice())?,
        })
    }
}

/// The least numbers of some scripts, and the runlevels in which they are started and stopped.
#[derive(Drop)]
pub struct Plan<A: Allocator = Global> {
    /// The scripts, in the order in which they were given.
    pub(crate) scripts: Vec<Planned<A>, A>,
}

impl<A: Allocator> Model for Plan<A> {
    ghost use Rattle.std.specs.Prelude.{List};
    ghost use Rattle.rc_links.specs.PlannedText.{PlannedText};

    ghost Value = { List PlannedText };

    ghost view = { λ p. p.scripts.items };
}

impl<A: Allocator> Plan<A> {
    /// Returns the start number of the script with this name, 1 to 99, or `None` if the plan has no such script.
    pub fn start_number(&self, name: &str) -> Option<u8>
        ensures { result ≡ option_map (λ s. s.start) (planned_named name.now self.now) }
    {
        Some(self.script_named(name)?.start)
    }

    /// Returns the stop number of the script with this name, 1 to 99, or `None` if the plan has no such script.
    pub fn stop_number(&self, name: &str) -> Option<u8>
        ensures { result ≡ option_map (λ s. s.stop) (planned_named name.now self.now) }
    {
        Some(self.script_named(name)?.stop)
    }

    fn script_named(&self, name: &str) -> Option<&Planned<A>>
        ensures { option_map (λ s. s.now) result ≡ planned_named name.now self.now }
    {
        self.scripts
            .iter()
            .find(|script| script.name.as_str() == name)
    }
}
