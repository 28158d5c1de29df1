//! Answers queries about a trace, and writes answers.

ghost use Rattle.std.specs.Prelude.{◌≡◌, ◌<◌, ◌^◌, List, ℕ, [], length, Option, IfOk, IfErr};
ghost use Rattle.initview_command.specs.Words.{DEVICE_FAULT, Event, IsTextAt, Viewed, ViewEnd};
ghost use Rattle.trace_view.specs.SeenTexts.{HasSeenText};
ghost use Rattle.initview_lines.specs.declared.lines.Line.{Line};
ghost use Rattle.initview_command.specs.declared.growing.Writer.{Writer};
ghost use Rattle.initview_command.specs.Refusals.{refusal_status};
ghost use Rattle.initview_command.specs.Showing.{Shows, Writes, WritesAnswer, answer_lines, answer_value, is_within, lsb_status, running_status, status_by, stop_status};

use crate::asking::TraceQuery;
use crate::growing::{LiveTraces, Writer};
use crate::presence::{show_present, tell_writer};
use crate::telling::{Refusal, report_no_answer, report_unsaid};
use init_words::Memory;
use initview_lines::{Line, LineSink, is_starting, left_lines, row_line, status_lines};
use program_io::{DEVICE_FAULT, DONE, PieceTaker, REFUSED, Reporter, Reports, Texts, UNLAWFUL};
use std::alloc::{AllocError, Global};
use trace_view::{ObservedTrace, Row, TraceObserver, TraceView, ViewEnd};

/// The result of reading a trace: its path, its writer, and the reason why the view ended, if it did.
#[derive(Clone, Copy)]
pub(crate) struct TraceOutcome<'a> {
    pub(crate) path: &'a str,
    pub(crate) writer: Writer,
    pub(crate) stop: Option<ViewEnd>,
}

/// Remarks, which are reported before the answer.
pub(crate) type Remarks = Reports<Vec<u8>>;

/// The lines of an answer, and the exit status.
pub(crate) type Answer = (Vec<Line>, u8);

/// A query about a trace.
pub(crate) trait Query: Drop {
    /// The observer that sees the happenings for the query.
    type Seen: TraceObserver<Global> + Drop;

    /// The lines and the exit status, given the path of the trace, its writer, the reason why the view ended, if it
    /// did, and its past.
    ghost gives: { Self → List ℕ → Writer → Option ViewEnd → List Event → List Line × ℕ };

    /// Adds remarks about the trace that are not part of the answer.
    fn remark(&self, _view: &TraceView, _shown: &TraceOutcome, _remarks: &mut Remarks) {}

    /// Returns the lines of the answer, and the exit status.
    fn answer(
        self,
        alloc: Global,
        text: &mut ObservedTrace<Self::Seen>,
        shown: &TraceOutcome,
    ) -> Result<Answer, Memory>
        ensures { IfOk result (λ given. (past : List Event) → Viewed text.old.viewing.viewing past
            → Self.Seen.has_seen text.old.seen past
            → (given.0.items
            ≡ (gives self shown.now.path.now shown.now.writer shown.now.stop past).0)
            × (given.1
            ≡ (gives self shown.now.path.now shown.now.writer shown.now.stop past).1)) };
}

/// The text of a trace that is read in pieces.
#[derive(Drop)]
struct FileText<S: TraceObserver<Global> + Drop> {
    text: ObservedTrace<S>,
    begun: bool,
    /// The program that unpacks the text, if it is compressed.
    unpacker: Option<&'static str>,
}

/// Returns the program that unpacks a text whose first piece is this one, if the text is compressed.
pub(crate) fn unpacker(piece: &[u8]) -> Option<&'static str> {
    match piece {
        [0x1f, 0x8b, ..] => Some("zcat"),
        [0x28, 0xb5, 0x2f, 0xfd, ..] => Some("zstdcat"),
        [0xfd, b'7', b'z', b'X', b'Z', 0, ..] => Some("xzcat"),
        _ => None,
    }
}

/// Allocates a text of which nothing has been read. It is on the heap because functions with such a text in their frame
/// are expensive to prove.
fn file_text<S: TraceObserver<Global> + Drop>(alloc: Global) -> Result<Box<FileText<S>>, Memory>
    ensures { IfOk result (λ file. HasSeenText S.has_seen file.value.text []) }
{
    let file = FileText {
        text: ObservedTrace::new(alloc),
        begun: false,
        unpacker: None,
    };
    Ok(Box::new(alloc, file)?)
}

impl<S: TraceObserver<Global> + Drop> PieceTaker for FileText<S> {
    ghost use Rattle.trace_view.specs.SeenTexts.{HasSeenText};

    ghost has_taken = { λ file text. HasSeenText S.has_seen file.text text };

    fn take_piece(&mut self, piece: &[u8]) -> Result<(), AllocError> {
        if !self.begun {
            self.begun = true;
            self.unpacker = unpacker(piece);
        }
        match self.text.take(piece) {
            Ok(()) => Ok(()),
            Err(Memory) => Err(AllocError),
        }
    }
}

/// Returns the exit status for a running child: 0, or 4 (unknown) if no init writes the trace.
fn running_status(writer: Writer) -> u8
    ensures { result ≡ running_status writer }
{
    match writer {
        Writer::Nobody => DEVICE_FAULT,
        Writer::Unknown => DONE,
        Writer::Init(_) => DONE,
    }
}

/// Returns the exit status that the LSB defines for `status`: `running_status` for an id with a child, 3 for an id
/// without a child, and 4 for an id that the trace does not know.
fn lsb_status(writer: Writer, row: &Row) -> u8
    ensures { result ≡ lsb_status writer row.now }
{
    if row.child.is_some() {
        running_status(writer)
    } else if row.act.is_some() {
        3
    } else {
        4
    }
}

/// Returns the exit status for a trace that was read to its end, or for which the view ended for this reason.
pub(crate) fn stop_status(stop: Option<ViewEnd>) -> u8
    ensures { result ≡ stop_status stop }
{
    match stop {
        None => DONE,
        Some(ViewEnd::Breach(_, _)) => UNLAWFUL,
        Some(ViewEnd::Torn(_)) => REFUSED,
        Some(ViewEnd::Within) => REFUSED,
    }
}

/// Returns the exit status of an answer. For a single id, it is 4 (unknown) if the trace was not read to its end.
fn status_of(view: &TraceView, question: &TraceQuery, writer: Writer, stop: Option<ViewEnd>) -> u8
    ensures { (past : List Event) → Viewed view.now past
        → result ≡ status_by question.now writer stop past }
{
    match question {
        TraceQuery::Row(id, _) => match stop {
            None => lsb_status(writer, &view.row(id)),
            Some(_) => DEVICE_FAULT,
        },
        TraceQuery::Status(_) => stop_status(stop),
        TraceQuery::Left(_) => stop_status(stop),
    }
}

/// Returns the lines that answer a question.
fn answer_lines(
    alloc: Global,
    view: &TraceView,
    question: &TraceQuery,
) -> Result<Vec<Line>, AllocError>
    ensures { IfOk result (λ lines. (past : List Event) → Viewed view.now past
        → lines.items ≡ answer_lines question.now past) }
{
    match question {
        TraceQuery::Status(shape) => status_lines(alloc, view, *shape),
        TraceQuery::Row(id, shape) => row_line(alloc, view, id, *shape),
        TraceQuery::Left(shape) => left_lines(alloc, view, *shape),
    }
}

/// Adds a remark with advice for each open start.
fn tell_starts(view: &TraceView, path: &str, remarks: &mut Remarks) {
    for entry in view.table().entries() {
        if is_starting(view, &entry.id) {
            let id = entry.id.as_str();
            writeln!(
                remarks,
                "initview: {path}: {id}: the outcome of its last start is unknown: a child whose \
                 number is not here may be running; look for it in the session of init with ps -e \
                 -o sid,pid,args"
            );
        }
    }
}

impl Query for TraceQuery {
    ghost use Rattle.initview_command.specs.Showing.{answer_by};

    type Seen = ();

    ghost gives = { λ question path writer stop past. answer_by question writer stop past };

    fn remark(&self, view: &TraceView, shown: &TraceOutcome, remarks: &mut Remarks) {
        tell_writer(shown, remarks);
        if let TraceQuery::Left(_) = self {
            tell_starts(view, shown.path, remarks);
        }
    }

    fn answer(
        self,
        alloc: Global,
        text: &mut ObservedTrace<()>,
        shown: &TraceOutcome,
    ) -> Result<Answer, Memory> {
        show_present(text, shown.writer, shown.stop)?;
        let lines = answer_lines(alloc, text.view(), &self)?;
        let status = status_of(text.view(), &self, shown.writer, shown.stop);
        Ok((lines, status))
    }
}

/// Reads the trace at a path.
fn read_trace<'a, T: Texts, S: TraceObserver<Global> + Drop>(
    texts: &T,
    alloc: Global,
    path: &'a str,
) -> Result<Box<FileText<S>>, Refusal<'a>>
    ensures text { IfOk result (λ file. (text : List ℕ) × (length text < 2 ^ 64)
        × IsTextAt (T.text_at texts.now) path.now text
        × HasSeenText S.has_seen file.value.text text) }
    ensures refused { IfErr result (λ refusal. refusal_status refusal ≡ DEVICE_FAULT) }
{
    let mut file = file_text(alloc)?;
    match texts.read_pieces(path, &mut *file) {
        Ok(()) => match file.unpacker {
            None => Ok(file),
            Some(unpacker) => Err(Refusal::Packed(path, unpacker)),
        },
        Err(error) => Err(Refusal::Unread(path, error)),
    }
}

/// Reports whether the text begins in the middle of a run.
fn is_within(stop: Option<ViewEnd>) -> bool
    ensures { result ≡ is_within stop }
{
    match stop {
        Some(ViewEnd::Within) => true,
        _ => false,
    }
}

/// Answers a query about the trace at a path, unless it begins in the middle of a run.
pub(crate) fn trace_answer<'a, T: Texts, G: LiveTraces, Q: Query>(
    texts: &T,
    growing: &G,
    alloc: Global,
    path: &'a str,
    query: Q,
    remarks: &mut Remarks,
) -> Result<Answer, Refusal<'a>>
    ensures { Shows (T.text_at texts.now) (G.writer_at growing.now) path.now
        (Q.gives query path.now) (answer_value result) }
{
    let mut file = read_trace::<T, Q::Seen>(texts, alloc, path)?;
    let (stop, unfinished) = file.text.end();
    let writer = growing.writer(path);
    tell_stop(path, stop, unfinished, remarks);
    if is_within(stop) {
        return Err(Refusal::Within);
    }
    let shown = TraceOutcome { path, writer, stop };
    query.remark(file.text.view(), &shown, remarks);
    Ok(query.answer(alloc, &mut file.text, &shown)?)
}

/// Reports the remarks, writes an answer, and returns the exit status.
pub(crate) fn write<S: LineSink, E: Reporter>(
    alloc: Global,
    answer: Result<Answer, Refusal>,
    remarks: &Remarks,
    out: &mut S,
    err: &mut E,
) -> u8
    ensures { WritesAnswer (answer_value answer.entry) result (S.said out.old) (S.said out.new) }
{
    err.report(remarks.writer());
    match answer {
        Ok((lines, status)) => say_lines(alloc, lines, status, out, err),
        Err(refusal) => report_no_answer(&refusal, err),
    }
}

/// Writes lines and returns the exit status, which is `status` if all are written.
pub(crate) fn say_lines<S: LineSink, E: Reporter>(
    alloc: Global,
    lines: Vec<Line>,
    status: u8,
    out: &mut S,
    err: &mut E,
) -> u8
    ensures { Writes lines.items status result (S.said out.old) (S.said out.new) }
{
    match out.say(alloc, lines) {
        Ok(()) => status,
        Err(fault) => report_unsaid(fault, out, err),
    }
}

/// Reports the line up to which a trace is shown, if that is not the whole trace.
pub(crate) fn tell_stop<E: Reporter>(
    path: &str,
    stop: Option<ViewEnd>,
    unfinished: Option<u64>,
    err: &mut E,
) {
    match stop {
        Some(ViewEnd::Breach(law, line)) => {
            let why = law.words();
            writeln!(
                err,
                "initview: {path}:{line}: {why}; shown up to the line before it"
            );
        }
        Some(ViewEnd::Torn(line)) => {
            writeln!(
                err,
                "initview: {path}:{line}: not a line of a trace; shown up to the line before it"
            );
        }
        Some(ViewEnd::Within) => {
            writeln!(
                err,
                "initview: {path} begins within a run; show it together with the pieces before it"
            );
        }
        None => {
            if let Some(line) = unfinished {
                writeln!(
                    err,
                    "initview: {path}:{line}: the happening is incomplete; shown up to the line before it"
                );
            }
        }
    }
}
