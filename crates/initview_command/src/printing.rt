//! Writes lines to an output as text.

use initview_lines::{Line, LineSink, SinkFault, Zone, words_of};
use jiff::Error;
use jiff::tz::{SystemTimeZone, TimeZoneDatabase};
use libc::net::{POLLERR, poll};
use libc::types::pollfd;
use program_io::write_text;
use std::alloc::Global;
use std::io;
use std::io::{ErrorKind, Write};
use std::rt::{Env, Files};

/// The time zone of the system, and the known zones.
#[derive(Drop)]
struct SystemZone {
    zone: SystemTimeZone,
    known: TimeZoneDatabase,
}

impl SystemZone {
    /// Reads the zone that TZ names, or else `/etc/localtime`. Returns `None` if neither exists, which means UTC.
    fn read<R: Env + Files + AllocGlobal + Clone + Drop>(
        rt: &R,
    ) -> Result<Option<SystemZone>, Error> {
        let zone = match SystemTimeZone::read(rt) {
            Ok(zone) => zone,
            Err(Error::Io(ErrorKind::NotFound)) => return Ok(None),
            Err(error) => return Err(error),
        };
        let known = TimeZoneDatabase::new(rt.alloc());
        if zone.time_zone(&known).is_ok() {
            return Ok(Some(SystemZone { zone, known }));
        }
        let known = TimeZoneDatabase::from_env(rt)?;
        let _ = zone.time_zone(&known)?;
        Ok(Some(SystemZone { zone, known }))
    }

    /// Returns the zone that was read.
    fn zone(&self) -> Zone<'_> {
        match self.zone.time_zone(&self.known) {
            Ok(zone) => Zone::Local(zone),
            Err(_) => Zone::Utc,
        }
    }
}

/// An output that writes lines as text, in UTC or in the time zone of the system. Contracts do not know what it has
/// written.
#[derive(Drop)]
pub struct Printed<'a, R, W: Write + Drop> {
    rt: &'a R,
    out: W,
    is_unread: bool,
    is_local: bool,
    zone: Option<SystemZone>,
}

impl<'a, R, W: Write + Drop> Printed<'a, R, W> {
    /// Creates an output that writes to `out`, with times in UTC.
    pub fn on(rt: &'a R, out: W) -> Printed<'a, R, W> {
        Printed {
            rt,
            out,
            is_unread: false,
            is_local: false,
            zone: None,
        }
    }
}

/// Writes a text and flushes the output.
fn write_whole<W: Write>(out: &mut W, text: &[u8]) -> io::Result<()> {
    write_text(out, text)?;
    out.flush()
}

/// Reports whether standard output is a pipe whose reader is gone. A terminal that hung up has POLLHUP in addition to
/// POLLERR.
fn is_pipe_without_reader() -> bool {
    let mut asked = [pollfd {
        fd: 1,
        events: 0,
        revents: 0,
    }];
    poll(&mut asked, 0) > 0 && asked[0].revents == POLLERR
}

impl<R: Env + Files + AllocGlobal + Clone + Drop, W: Write + Drop> LineSink for Printed<'_, R, W> {
    ghost use Rattle.std.specs.Prelude.{None};

    ghost said = { λ printed. record {
      lines = None;
      unread = printed.is_unread;
      local = printed.is_local;
    } };

    fn say(&mut self, alloc: Global, lines: Vec<Line>) -> Result<(), SinkFault> {
        let zone = match &self.zone {
            Some(zone) => zone.zone(),
            None => Zone::Utc,
        };
        let Ok(text) = words_of(alloc, zone, &lines) else {
            return Err(SinkFault::Memory);
        };
        match write_whole(&mut self.out, &text) {
            Ok(()) => Ok(()),
            Err(error) => {
                self.is_unread = error.kind() == ErrorKind::BrokenPipe;
                Err(SinkFault::Unwritten)
            }
        }
    }

    /// Reports whether the reader of the output is gone, as shown by a failed write or the state of standard output.
    fn is_unread(&mut self) -> bool {
        self.is_unread = self.is_unread || is_pipe_without_reader();
        self.is_unread
    }

    fn use_local_times(&mut self) -> Result<(), Error> {
        self.zone = SystemZone::read(self.rt)?;
        self.is_local = true;
        Ok(())
    }
}
