//! The `why` command: the reason why an entry is not started next.

ghost use Rattle.std.specs.Prelude.{◌≡◌, List, IfOk, IfErr};
ghost use Rattle.initview_command.specs.Words.{Event, Viewed};
ghost use Rattle.initview_command.specs.Asking.{path_texts};
ghost use Rattle.initview_command.specs.Explaining.{explained_with, explanation, files_lines};
ghost use Rattle.initview_command.specs.Showing.{answer_value};
ghost use Rattle.initview_command.specs.Tables.{AreNone, FailsWith};
ghost use Rattle.initview_command.specs.WithFiles.{ShowsWithFiles};

use crate::asking::Paths;
use crate::growing::LiveTraces;
use crate::presence::{show_present, tell_writer};
use crate::showing::{Answer, Query, Remarks, TraceOutcome, stop_status, trace_answer};
use crate::tables::read_files;
use crate::telling::Refusal;
use init_words::{Id, Memory, Part};
use inittab_text::TableFault;
use initview_lines::{Chain, Line, chain_of, id_lines, why_lines};
use program_io::Texts;
use std::alloc::{AllocError, Global};
use trace_view::{LastLines, ObservedTrace, TraceView};

/// A query for the reason why an id is not started, and additional lines that follow the answer.
#[derive(Drop)]
struct Reason {
    id: Id,
    told: Vec<Line>,
}

/// Returns the current reason, with the lines of the trace that explain it, and the additional lines.
fn explanation(
    alloc: Global,
    path: &str,
    told: &mut Vec<Line>,
    view: &TraceView,
    chain: &Chain,
) -> Result<Vec<Line>, AllocError>
    ensures { IfOk result (λ lines. (now : List Event) → Viewed view.now now
        → lines.items ≡ explanation path.now chain.now told.old.items now) }
{
    let mut lines = why_lines(alloc, view, path.as_bytes(), chain)?;
    lines.append(told)?;
    Ok(lines)
}

impl Query for Reason {
    ghost use Rattle.initview_command.specs.Explaining.{explained};

    type Seen = LastLines;

    ghost gives = { λ asked path writer stop past.
        explained path asked.id asked.told.items writer stop past };

    fn remark(&self, _view: &TraceView, shown: &TraceOutcome, remarks: &mut Remarks) {
        tell_writer(shown, remarks);
    }

    fn answer(
        self,
        alloc: Global,
        text: &mut ObservedTrace<LastLines>,
        shown: &TraceOutcome,
    ) -> Result<Answer, Memory> {
        let Reason { id, mut told } = self;
        let chain = chain_of(text.view(), text.seen(), id);
        show_present(text, shown.writer, shown.stop)?;
        let lines = explanation(alloc, shown.path, &mut told, text.view(), &chain)?;
        Ok((lines, stop_status(shown.stop)))
    }
}

/// Returns the lines about the id's entries in an inittab, if one is given.
fn files_lines(alloc: Global, files: &[Part], id: &Id) -> Result<Vec<Line>, TableFault>
    ensures told { IfOk result (λ lines. lines.items ≡ files_lines id.now files.now) }
    ensures fault { IfErr result (FailsWith (AreNone files.now)) }
{
    if files.is_empty() {
        return Ok(Vec::new(alloc));
    }
    match id_lines(alloc, files, id) {
        Ok(lines) => Ok(lines),
        Err(TableFault::Memory) => Err(TableFault::Memory),
        Err(TableFault::TooLong) => Err(TableFault::TooLong),
        Err(TableFault::Parts) => Err(TableFault::Parts),
    }
}

/// Returns the reason why the id is not started next, and the lines of the id in the files.
pub(crate) fn why_answer<'a, T: Texts, G: LiveTraces>(
    texts: &T,
    growing: &G,
    alloc: Global,
    paths: &Paths<'_, 'a>,
    id: Id,
    remarks: &mut Remarks,
) -> Result<Answer, Refusal<'a>>
    ensures { ShowsWithFiles (T.text_at texts.now) (G.writer_at growing.now)
        (path_texts paths.now) (explained_with paths.now.path.now id) AreNone
        (answer_value result) }
{
    let files = read_files(texts, growing, alloc, paths)?;
    let told = files_lines(alloc, &files, &id)?;
    let reason = Reason { id, told };
    trace_answer(texts, growing, alloc, paths.path, reason, remarks)
}
