//! The `diff --trace` command: the changes to the running children if init reads another inittab.

ghost use Rattle.std.specs.Prelude.{◌≡◌, ◌∷◌, List, OnOk};
ghost use Rattle.initview_command.specs.Words.{NewTable, Event, Viewed, gone_on, reloaded, with_request};
ghost use Rattle.initview_command.specs.Asking.{path_texts};
ghost use Rattle.initview_command.specs.Reloading.{reload_with};
ghost use Rattle.initview_command.specs.Showing.{answer_value};
ghost use Rattle.initview_command.specs.Tables.{NoneOf};
ghost use Rattle.initview_command.specs.WithFiles.{ShowsWithFiles};

use crate::asking::Paths;
use crate::growing::LiveTraces;
use crate::showing::{Answer, Query, Remarks, TraceOutcome, stop_status, trace_answer};
use crate::tables::{old_and_new, read_files};
use crate::telling::Refusal;
use init_words::{Level, Memory};
use initctl_frame::HeardRequest;
use inittab_text::Table;
use initview_lines::reload_lines;
use program_io::Texts;
use std::alloc::Global;
use trace_events::{Happening, HappeningIn};
use trace_view::ObservedTrace;

/// A query for the changes to the running children if init reads the new inittab in place of the old one and goes to
/// the level.
#[derive(Drop)]
struct Reload {
    old: Table,
    new: Table,
    level: Option<Level>,
}

/// Passes the view a request for a level, if one is given.
fn ask(text: &mut ObservedTrace<()>, level: Option<Level>) -> Result<(), Memory>
    ensures { OnOk result ((past : List Event) → Viewed text.old.viewing.viewing past
        → Viewed text.new.viewing.viewing (with_request level past)) }
{
    let Some(level) = level else {
        return Ok(());
    };
    let grace = text.view().grace();
    let happening: HappeningIn<Global> = Happening::Got(HeardRequest::Level(level, grace));
    let _lawful = text.show(&happening)?;
    Ok(())
}

/// Passes the view the next stage on the way to a requested level, if there is one.
fn go_on(text: &mut ObservedTrace<()>) -> Result<(), Memory>
    ensures { OnOk result ((past : List Event) → Viewed text.old.viewing.viewing past
        → Viewed text.new.viewing.viewing (gone_on past)) }
{
    let Some((stage, grace)) = text.view().next_stage() else {
        return Ok(());
    };
    let happening: HappeningIn<Global> = Happening::Enter(stage, grace);
    let _lawful = text.show(&happening)?;
    Ok(())
}

fn show_table(alloc: Global, text: &mut ObservedTrace<()>, table: &Table) -> Result<(), Memory>
    ensures { OnOk result ((past : List Event) → Viewed text.old.viewing.viewing past
        → Viewed text.new.viewing.viewing (NewTable table.now ∷ past)) }
{
    let happening = Happening::NewTable(table.copy(alloc)?);
    let _lawful = text.show(&happening)?;
    Ok(())
}

/// Passes the view a new inittab and, if a level is given or was requested, the next stage on the way to it. Neither
/// can break a law.
fn read_anew(
    alloc: Global,
    text: &mut ObservedTrace<()>,
    table: &Table,
    level: Option<Level>,
) -> Result<(), Memory>
    ensures { OnOk result ((past : List Event) → Viewed text.old.viewing.viewing past
        → Viewed text.new.viewing.viewing (reloaded table.now level past)) }
{
    ask(text, level)?;
    show_table(alloc, text, table)?;
    go_on(text)?;
    Ok(())
}

impl Query for Reload {
    ghost use Rattle.initview_command.specs.Reloading.{reload_answer};

    type Seen = ();

    ghost gives = { λ asked path writer stop past.
        reload_answer asked.old asked.new asked.level stop past };

    fn answer(
        self,
        alloc: Global,
        text: &mut ObservedTrace<()>,
        shown: &TraceOutcome,
    ) -> Result<Answer, Memory> {
        read_anew(alloc, text, &self.new, self.level)?;
        let lines = reload_lines(alloc, &self.old, text.view())?;
        Ok((lines, stop_status(shown.stop)))
    }
}

/// Returns the changes to the running children if init reads the second file in place of the first, and goes to the
/// level.
pub(crate) fn reload_answer<'a, T: Texts, G: LiveTraces>(
    texts: &T,
    growing: &G,
    alloc: Global,
    paths: &Paths<'_, 'a>,
    level: Option<Level>,
    remarks: &mut Remarks,
) -> Result<Answer, Refusal<'a>>
    ensures { ShowsWithFiles (T.text_at texts.now) (G.writer_at growing.now)
        (path_texts paths.now) (λ files writer. reload_with level files) NoneOf
        (answer_value result) }
{
    let mut files = read_files(texts, growing, alloc, paths)?;
    let (old, new) = old_and_new(alloc, &mut files, remarks)?;
    let reload = Reload { old, new, level };
    trace_answer(texts, growing, alloc, paths.path, reload, remarks)
}
