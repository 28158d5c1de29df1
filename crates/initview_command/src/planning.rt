//! The `plan --trace` command: the plan of an inittab, and the times that its critical path took in a trace.

ghost use Rattle.std.specs.Prelude.{◌≡◌, List, IfOk};
ghost use Rattle.initview_command.specs.Words.{Event, marks_of};
ghost use Rattle.initview_command.specs.Asking.{path_texts};
ghost use Rattle.initview_command.specs.Planning.{timing_said, timing_with};
ghost use Rattle.initview_command.specs.Showing.{answer_value};
ghost use Rattle.initview_command.specs.Tables.{AreNone};
ghost use Rattle.initview_command.specs.WithFiles.{ShowsWithFiles};

use crate::asking::Paths;
use crate::growing::LiveTraces;
use crate::showing::{Answer, Query, Remarks, TraceOutcome, stop_status, trace_answer};
use crate::tables::{level_asked, plan_of, read_files, table_in};
use crate::telling::Refusal;
use init_words::{Level, Memory};
use inittab_text::Table;
use initview_lines::{Line, add_path_times};
use initview_timeline::{Marks, TimelineMark};
use program_io::Texts;
use std::alloc::Global;
use trace_view::ObservedTrace;

/// A query for the plan of an inittab, and the times of its critical path.
#[derive(Drop)]
struct Timing {
    table: Table,
    level: Option<Level>,
}

/// Returns the plan followed by the times, which come from the marks of the trace.
fn timed_plan(
    alloc: Global,
    level: Option<Level>,
    table: &Table,
    marks: &[TimelineMark],
) -> Result<Vec<Line>, Memory>
    ensures { IfOk result (λ lines. (past : List Event) → marks.now ≡ marks_of past
        → lines.items ≡ timing_said level table.now past) }
{
    let mut lines = plan_of(alloc, level, table)?;
    add_path_times(&mut lines, alloc, level_asked(level, table), table, marks)?;
    Ok(lines)
}

impl Query for Timing {
    ghost use Rattle.initview_command.specs.Planning.{timing_answer};

    type Seen = Marks;

    ghost gives = { λ asked path writer stop past.
        timing_answer asked.level asked.table stop past };

    fn answer(
        self,
        alloc: Global,
        text: &mut ObservedTrace<Marks>,
        shown: &TraceOutcome,
    ) -> Result<Answer, Memory> {
        let lines = timed_plan(alloc, self.level, &self.table, text.seen().as_slice())?;
        Ok((lines, stop_status(shown.stop)))
    }
}

/// Returns the plan of the inittab in the files, and the times of its critical path in the trace.
pub(crate) fn timing_answer<'a, T: Texts, G: LiveTraces>(
    texts: &T,
    growing: &G,
    alloc: Global,
    paths: &Paths<'_, 'a>,
    level: Option<Level>,
    remarks: &mut Remarks,
) -> Result<Answer, Refusal<'a>>
    ensures { ShowsWithFiles (T.text_at texts.now) (G.writer_at growing.now)
        (path_texts paths.now) (λ files writer. timing_with level files) AreNone
        (answer_value result) }
{
    let files = read_files(texts, growing, alloc, paths)?;
    let table = table_in(alloc, &files, remarks)?;
    let timing = Timing { table, level };
    trace_answer(texts, growing, alloc, paths.path, timing, remarks)
}
