//! Destinations for the reports of a program.

ghost use Rattle.std.specs.Prelude.{List, ℕ, [], Option, flat_map, unwrap_or};
ghost use Rattle.program_io.specs.Reports.{AppendsReport, ReportList};
ghost use Rattle.program_io.specs.Writing.{AppendsPrefix};

use crate::noted::{Noted, Reads};
use crate::writing::{write_text, write_texts};
use std::fmt::Display;
use std::io::Write;
use std::marker::{Model, PhantomData};

/// Receives the reports of a program, as standard error does.
///
/// A contract sees the reports that it received and, if known, the bytes that were written.
pub trait Reporter {
    /// The reports, newest first.
    ghost reports: { Self → ReportList };

    /// The bytes that were written, if they are known.
    ghost written: { Self → Option (List ℕ) };

    /// Writes a report, or as much of it as the destination accepts.
    fn report(&mut self, text: &[u8])
        ensures reported { AppendsReport (reports self.old) (reports self.new) text.now }
        ensures part { AppendsPrefix (written self.old) (written self.new) text.now };

    /// Writes a report whose text is given in pieces.
    fn report_texts(&mut self, texts: &[&str])
        ensures reported { AppendsReport (reports self.old) (reports self.new)
            (flat_map (λ text. text.now) texts.now) }
        ensures part { AppendsPrefix (written self.old) (written self.new)
            (flat_map (λ text. text.now) texts.now) };

    /// Writes a formatted report, as `writeln!` passes it. It is recorded as an empty report if its text is not known.
    fn write_fmt<D: Display + Drop>(&mut self, text: D)
        ensures { AppendsReport (reports self.old) (reports self.new)
            (unwrap_or (D.output text) []) };
}

/// A list of reports, newest first. It only serves as the type of a `Noted` value; no list is ever created.
pub struct ReportList {
    marker: PhantomData<()>,
}

impl Model for ReportList {
    ghost use Rattle.std.specs.Prelude.{List, ℕ, []};

    ghost Value = { List (List ℕ) };

    ghost view = { λ _. [] };
}

/// Creates the empty list of reports.
struct Empty;

impl Reads<(), ReportList> for Empty {
    ghost use Rattle.std.specs.Prelude.{[]};

    ghost value = { λ _. [] };
}

/// Adds a report to the list.
struct Whole;

impl<'a> Reads<(&'a Noted<ReportList>, &'a [u8]), ReportList> for Whole {
    ghost use Rattle.std.specs.Prelude.{◌∷◌};

    ghost value = { λ added. added.1.now ∷ added.0.now.value };
}

/// Adds a report, whose text is given in pieces, to the list.
struct Pieces;

impl<'a> Reads<(&'a Noted<ReportList>, &'a [&'a str]), ReportList> for Pieces {
    ghost use Rattle.std.specs.Prelude.{◌∷◌, flat_map};

    ghost value = { λ added. flat_map (λ text. text.now) added.1.now ∷ added.0.now.value };
}

/// Adds a report, whose text is given formatted, to the list.
struct Formatted;

impl<'a, D: Display> Reads<(&'a Noted<ReportList>, &'a D), ReportList> for Formatted {
    ghost use Rattle.std.specs.Prelude.{◌∷◌, [], unwrap_or};

    ghost value = { λ added. unwrap_or (D.output added.1.now) [] ∷ added.0.now.value };
}

/// A reporter that writes to a writer.
#[derive(Drop)]
pub struct Reports<W: Drop> {
    to: W,
    handed: Noted<ReportList>,
}

impl<W: Drop> Reports<W> {
    /// Returns a reporter that has received no report yet.
    pub fn to(writer: W) -> Reports<W> {
        Reports {
            to: writer,
            handed: Noted::of::<(), Empty>(&()),
        }
    }

    /// Returns the writer that receives the reports.
    pub fn writer(&self) -> &W {
        &self.to
    }
}

impl<W: Write + Drop> Reporter for Reports<W> {
    ghost reports = { λ reports. reports.handed.value };

    ghost written = { λ reports. W.contents reports.to };

    fn report(&mut self, text: &[u8]) {
        let _ = write_text(&mut self.to, text);
        self.handed = Noted::of::<_, Whole>(&(&self.handed, text));
    }

    fn report_texts(&mut self, texts: &[&str]) {
        let _ = write_texts(&mut self.to, texts);
        self.handed = Noted::of::<_, Pieces>(&(&self.handed, texts));
    }

    fn write_fmt<D: Display + Drop>(&mut self, text: D) {
        self.handed = Noted::of::<_, Formatted>(&(&self.handed, &text));
        let _ = self.to.write_fmt(text);
    }
}
