//! A line of an answer: its content, not its wording. Times and durations are in seconds.

ghost use Rattle.std.specs.Prelude.{◌≡◌, ◌∷◌, [], IfOk};
ghost use Rattle.initview_lines.specs.declared.lines.Line.TheVariants as line;

use crate::changes::Change;
use crate::happenings::News;
use crate::texts::Bytes;
use crate::times::TimeTaken;
use init_words::{Act, ChildNumber, Id, Level, Stage};
use inittab_lint::Warning;
use inittab_text::LineKind;
use initview_timeline::Timeline;
use std::alloc::{AllocError, Global};
use trace_view::{Row, Why, Wish};

/// The format for the states of init and its entries.
#[derive(Clone, Copy)]
pub enum RowFormat {
    /// Lines in columns.
    Lines,
    /// A JSON object per line.
    Json,
}

/// The rows of a timeline that are drawn.
#[derive(Clone, Copy)]
pub enum WhichRows {
    All,
    /// Rows with faults.
    Faulty,
}

/// The state of init.
#[derive(Clone, Copy)]
pub struct Head {
    /// The stage in force.
    pub stage: Option<Stage>,
    /// Whether the stage is a level that was announced settled, and no table has been read since.
    pub settled: bool,
    /// Whether the stage is a level that could be announced settled at this moment.
    pub complete: bool,
    pub time: u64,
    /// The time from SIGTERM to SIGKILL.
    pub grace: u64,
    /// The level that was requested but has not been entered yet.
    pub goal: Option<Level>,
    /// The pending request that init carries out first.
    pub wish: Option<Wish>,
}

/// The progress of stopping a child.
#[derive(Clone, Copy)]
pub struct Stopping {
    /// The time since init learned that SIGTERM was sent.
    pub term: u64,
    /// The time until SIGKILL is sent.
    pub kill: u64,
}

/// The state of an id, with its times.
#[derive(Clone, Copy)]
pub struct IdRow {
    pub id: Id,
    pub row: Row,
    /// The time since its child was born.
    pub runs: Option<u64>,
    pub stopping: Option<Stopping>,
    /// The time until its hold ends.
    pub held: Option<u64>,
    /// The time since its child last ended.
    pub ended: Option<u64>,
}

/// The reason why an id is not started next, in a stage.
#[derive(Drop)]
pub struct Reason {
    pub at: IdRow,
    pub stage: Option<Stage>,
    /// The id whose child must end first and is being stopped; otherwise the same id.
    pub stopped: IdRow,
    /// The name of the trace, and the number of its line that explains the reason, if any and if the reason still
    /// holds.
    pub trace: Bytes,
    pub line: Option<u64>,
}

/// A message about a file of an inittab, or about one of its lines. Lines are counted from 1.
#[derive(Drop)]
pub enum FileLine {
    /// Init ignores the line: the first check that it fails, the faulty id or action, and the action that was probably
    /// meant.
    LeftOut(u32, LineKind, Bytes, Option<Act>),
    /// The line does not do what it seems to do.
    Warning(usize, Warning),
    /// The line's program, with this name, is in none of the folders that were searched.
    Missing(usize, Bytes),
    /// The line itself, whose entry is in the table.
    Kept(usize, Bytes),
    /// Some lines have no id.
    Nameless,
    /// No entry starts in the default level, or no default level is set.
    Default(Option<Level>),
    /// No line has the id.
    NoLine(Id),
}

/// A line of an answer, or any other text.
#[derive(Drop)]
pub enum Line {
    /// The state of init.
    Head(RowFormat, Head),
    /// The state of an id.
    Row(RowFormat, IdRow),
    /// The id has an unreaped child with this number; or, without a number, a start of the id is open.
    Left(RowFormat, Id, Option<ChildNumber>),
    /// The reason why an id is not started next.
    Why(Reason),
    /// Advice about an entry with this action that is not started next, in a stage.
    Advice(Option<Stage>, Option<Act>, Why),
    /// A heading for lines about this stage.
    Stage(Option<Stage>),
    /// The change to an id: its new action, the change, and the number of its child.
    Change(Id, Option<Act>, Change, Option<ChildNumber>),
    /// An entry that init starts, and whether init waits for it to end.
    Start(Id, Act, bool),
    /// A heading for the critical path.
    CriticalPath,
    /// An entry of the critical path, and the entry whose end it waits for.
    OnPath(Id, Act, Option<Id>),
    /// The level that is reached, and the last entry whose end it waits for.
    Reached(Level, Option<Id>),
    /// A heading for the times that the entries of the critical path took in a trace.
    PathTimes,
    /// The time that an entry of the critical path took.
    TimeTaken(Id, Act, TimeTaken),
    /// The total time of the critical path to the level.
    Whole(Level, u64),
    /// A message about the file with this name.
    File(Bytes, FileLine),
    /// A message about a happening, with its time.
    Happened(u64, News),
    /// Rows of a timeline, in lines with this number of columns.
    Chart(u64, WhichRows, Timeline),
    /// Rows of a timeline, as a picture.
    Svg(WhichRows, Timeline),
    /// Any text.
    Text(Bytes),
}

/// Returns an answer that consists of a text.
pub fn text_line(alloc: Global, text: Vec<u8>) -> Result<Vec<Line>, AllocError>
    ensures { IfOk result (λ lines. lines.items ≡ line.Text text.items ∷ []) }
{
    let mut lines = Vec::new(alloc);
    lines.push(Line::Text(Bytes::of(text)))?;
    Ok(lines)
}
