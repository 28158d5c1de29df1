//! The `follow` command: writes messages about a trace while it grows.

ghost use Rattle.std.specs.Prelude.{◌≡◌, ◌^◌, ◌<◌, ◌≤◌, ◌-◌, ◌++◌, [], List, ℕ, length, Option, Some, None, option_map, IfOk, OnOk, OnErr, true, false};
ghost use Rattle.initview_command.specs.Words.{PIECE_LIMIT, WritesNothing};
ghost use Rattle.initview_command.specs.Showing.{EndsUnwritten};
ghost use Rattle.initview_lines.specs.declared.lines.Line.{Line};
ghost use Rattle.initview_command.specs.Following.{AreLinesOf, Follows, FollowsAll, FollowsPart, HasLines, HasWritten, IsAllOf, IsFor, Start, WritesAll, WritesPart, begins_run, judges};
ghost use Rattle.initview_command.specs.Taking.{FirstReader, HasFollowed, HasKept, MayKeep, there_limit};

use crate::growing::{LiveTrace, LiveTraces};
use crate::showing::{stop_status, tell_stop};
use crate::telling::{report_unread, report_unsaid};
use init_words::Memory;
use initview_lines::{Line, LineSink, PartView, SinkFault, take_lines};
use program_io::{PIECE_LIMIT, PIECES_LIMIT, Reporter};
use std::alloc::Global;
use std::io;
use std::io::{ErrorKind, Read};
use trace_view::{TextView, ViewEnd};

/// The reason why a trace could not be followed to its end.
#[derive(Drop)]
enum FollowFault {
    Unread(io::Error),
    Unsaid(SinkFault),
}

impl From<io::Error> for FollowFault {
    fn from(error: io::Error) -> FollowFault {
        match error.kind() {
            ErrorKind::BrokenPipe => FollowFault::Unsaid(SinkFault::Unwritten),
            _ => FollowFault::Unread(error),
        }
    }
}

impl From<Memory> for FollowFault {
    fn from(_memory: Memory) -> FollowFault {
        FollowFault::Unsaid(SinkFault::Memory)
    }
}

impl From<SinkFault> for FollowFault {
    fn from(fault: SinkFault) -> FollowFault {
        FollowFault::Unsaid(fault)
    }
}

/// Reports the reason and returns the exit status.
fn report_fault<S: LineSink, E: Reporter>(
    path: &str,
    fault: &FollowFault,
    out: &mut S,
    err: &mut E,
) -> u8
    ensures ends { EndsUnwritten result (S.said out.new) }
    ensures said { WritesNothing (S.said out.old) (S.said out.new) }
{
    match fault {
        FollowFault::Unread(error) => report_unread(path, error, err),
        FollowFault::Unsaid(fault) => report_unsaid(*fault, out, err),
    }
}

/// The reason why a view of a trace ended, and the number of the line at which an incomplete happening begins.
type End = (Option<ViewEnd>, Option<u64>);

/// The reader of a followed trace: one for a whole run, which checks the laws, or one for a text that begins in
/// mid-run.
#[derive(Drop)]
enum Reader {
    Run(TextView),
    Part(PartView),
}

/// Allocates a reader of a run. It is on the heap because functions with a reader in their frame are expensive to
/// prove.
fn run_reader(alloc: Global) -> Result<Box<Reader>, Memory>
    ensures { IfOk result (λ reader. (judges reader.value ≡ true)
        × HasLines reader.value [] []) }
{
    Ok(Box::new(alloc, Reader::Run(TextView::new(alloc)))?)
}

/// Allocates a reader of a text that begins in the middle of a run.
fn part_reader(alloc: Global) -> Result<Box<Reader>, Memory>
    ensures { IfOk result (λ reader. (judges reader.value ≡ false)
        × HasLines reader.value [] []) }
{
    Ok(Box::new(alloc, Reader::Part(PartView::new(alloc)))?)
}

/// Reports whether the text is the beginning of a run.
fn begins_run(text: &[u8]) -> bool
    ensures { result ≡ begins_run text.now }
{
    match text {
        [] => true,
        [byte, ..] => *byte == b'u',
    }
}

/// Allocates the reader for a text that begins with `first`.
fn reader_of(alloc: Global, first: &[u8]) -> Result<Box<Reader>, Memory>
    ensures { IfOk result (λ reader. (judges reader.value ≡ begins_run first.now)
        × HasLines reader.value [] []) }
{
    if begins_run(first) {
        run_reader(alloc)
    } else {
        part_reader(alloc)
    }
}

/// Passes the next piece of the text to a reader, and adds the lines for the piece.
fn take_piece(reader: &mut Reader, piece: &[u8], lines: &mut Vec<Line>) -> Result<(), Memory>
    ensures same { OnOk result (judges reader.new ≡ judges reader.old) }
    ensures lines { OnOk result ((past_lines : List Line) (text : List ℕ)
        → length (text ++ piece.now) < 2 ^ 64
        → HasLines reader.old (past_lines ++ lines.old.items) text
        → HasLines reader.new (past_lines ++ lines.new.items) (text ++ piece.now)) }
{
    match reader {
        Reader::Run(view) => take_lines(view, piece, lines),
        Reader::Part(view) => view.take(piece, lines),
    }
}

/// Returns the reason why the reader ended, if it did, and the line of an incomplete happening, if there is one.
fn end_of(reader: &Reader) -> End
    ensures { (past_lines : List Line) (text : List ℕ) → length text < 2 ^ 64
        → HasLines reader.now past_lines text
        → AreLinesOf (judges reader.now) text result.0 result.1 past_lines }
{
    match reader {
        Reader::Run(view) => {
            let (_, stop, line) = view.answer();
            (stop, line)
        }
        Reader::Part(view) => view.end(),
    }
}

/// Passes the next piece of the text to a reader, and writes the lines for the piece.
fn write_piece<S: LineSink>(
    reader: &mut Reader,
    alloc: Global,
    piece: &[u8],
    out: &mut S,
) -> Result<(), FollowFault>
    ensures ok { OnOk result ((start : Start) (text : List ℕ)
        → length (text ++ piece.now) < 2 ^ 64
        → HasWritten start reader.old text (S.said out.old)
        → HasWritten start reader.new (text ++ piece.now) (S.said out.new)) }
    ensures err { OnErr result ((start : Start) (text : List ℕ)
        → length (text ++ piece.now) < 2 ^ 64
        → HasWritten start reader.old text (S.said out.old)
        → WritesPart start (Some (text ++ piece.now)) (S.said out.new)) }
{
    let mut lines = Vec::new(alloc);
    take_piece(reader, piece, &mut lines)?;
    out.say(alloc, lines)?;
    Ok(())
}

/// Writes the lines for the rest of a text, each immediately, until the text or the reader ends. Fails with
/// `FileTooLarge` after 4,294,967,296 reads.
fn write_lines<R: Read, S: LineSink>(
    from: &mut R,
    reader: &mut Reader,
    alloc: Global,
    out: &mut S,
) -> Result<End, FollowFault>
    ensures ok { IfOk result (λ end. (start : Start) (input : Option (List ℕ))
        → HasFollowed start input reader.old (R.remaining from.old) (S.said out.old)
        → WritesAll start input end.0 end.1 (S.said out.new)) }
    ensures err { OnErr result ((start : Start) (input : Option (List ℕ))
        → HasFollowed start input reader.old (R.remaining from.old) (S.said out.old)
        → WritesPart start input (S.said out.new)) }
{
    let mut piece = [0; PIECE_LIMIT];
    for _ in 0..PIECES_LIMIT {
        let end = end_of(reader);
        if end.0.is_some() {
            return Ok(end);
        }
        let taken = from.read(&mut piece)?;
        if taken == 0 {
            return Ok(end);
        }
        write_piece(reader, alloc, &piece[..taken], out)?;
    }
    Err(FollowFault::Unread(io::Error::from(ErrorKind::FileTooLarge)))
}

/// Passes the next piece of the text to a reader, and appends the lines for the piece to `lines`.
fn add_piece(
    reader: &mut Reader,
    alloc: Global,
    piece: &[u8],
    lines: &mut Vec<Line>,
) -> Result<(), Memory>
    ensures same { OnOk result (judges reader.new ≡ judges reader.old) }
    ensures lines { OnOk result ((more : List Line)
        × (lines.new.items ≡ lines.old.items ++ more)
        × ((past_lines : List Line) (text : List ℕ) → length (text ++ piece.now) < 2 ^ 64
        → HasLines reader.old past_lines text
        → HasLines reader.new (past_lines ++ more) (text ++ piece.now))) }
{
    let mut more = Vec::new(alloc);
    take_piece(reader, piece, &mut more)?;
    lines.append(&mut more)?;
    Ok(())
}

/// Removes all lines except the last `count`.
fn keep_last(lines: &mut Vec<Line>, count: usize) -> Result<(), Memory>
    ensures { OnOk result ((front : List Line) × (lines.old.items ≡ front ++ lines.new.items)
        × (length front ≡ length lines.old.items - count)) }
{
    let before = lines.len().saturating_sub(count);
    let last = lines.split_off(before)?;
    *lines = last;
    Ok(())
}

/// Reads the existing part of a text, and keeps the last lines for it.
fn take_there<R: LiveTrace>(
    from: &mut R,
    reader: &mut Reader,
    alloc: Global,
    count: usize,
    lines: &mut Vec<Line>,
) -> Result<(), FollowFault>
    ensures { OnOk result ((input : Option (List ℕ))
        → MayKeep PIECE_LIMIT count input reader.old lines.old.items (R.remaining from.old)
        → HasKept there_limit count input reader.new lines.new.items
        (R.remaining from.new)) }
{
    let mut piece = [0; PIECE_LIMIT];
    for _ in 0..PIECES_LIMIT {
        keep_last(lines, count)?;
        if end_of(reader).0.is_some() {
            return Ok(());
        }
        let taken = from.read_there(&mut piece)?;
        if taken == 0 {
            return Ok(());
        }
        add_piece(reader, alloc, &piece[..taken], lines)?;
    }
    Err(FollowFault::Unread(io::Error::from(ErrorKind::FileTooLarge)))
}

/// Allocates the reader for a text, and adds the lines for its first piece. Returns `None` if the text is empty.
fn first_reader<R: Read>(
    from: &mut R,
    alloc: Global,
    lines: &mut Vec<Line>,
) -> Result<Option<Box<Reader>>, FollowFault>
    requires { lines.old.items ≡ [] }
    ensures { IfOk result (λ reader. FirstReader
        (option_map (λ reader. reader.value) reader) (R.remaining from.old) (R.remaining from.new)
        lines.new.items) }
{
    let mut piece = [0; PIECE_LIMIT];
    let taken = from.read(&mut piece)?;
    if taken == 0 {
        return Ok(None);
    }
    let first = &piece[..taken];
    let mut reader = reader_of(alloc, first)?;
    take_piece(&mut reader, first, lines)?;
    Ok(Some(reader))
}

/// Reports that a text begins in the middle of a run.
fn tell_part<E: Reporter>(path: &str, reader: &Reader, err: &mut E) {
    if let Reader::Part(_) = reader {
        writeln!(
            err,
            "initview: {path} begins within a run; it is shown but not judged"
        );
    }
}

/// Writes the last lines for the existing part of a text, and all later lines.
fn follow_last<R: LiveTrace, S: LineSink, E: Reporter>(
    from: &mut R,
    alloc: Global,
    path: &str,
    count: usize,
    out: &mut S,
    err: &mut E,
) -> Result<End, FollowFault>
    ensures ok { IfOk result (λ end. FollowsAll (Some count) (R.remaining from.old) end.0 end.1
        (S.said out.old) (S.said out.new)) }
    ensures err { OnErr result (FollowsPart (Some count) (R.remaining from.old)
        (S.said out.old) (S.said out.new)) }
{
    let mut lines = Vec::new(alloc);
    let Some(mut reader) = first_reader(from, alloc, &mut lines)? else {
        return Ok((None, None));
    };
    tell_part(path, &reader, err);
    take_there(from, &mut reader, alloc, count, &mut lines)?;
    out.say(alloc, lines)?;
    write_lines(from, &mut reader, alloc, out)
}

/// Writes all lines for a text.
fn follow_all<R: Read, S: LineSink>(
    from: &mut R,
    alloc: Global,
    out: &mut S,
) -> Result<End, FollowFault>
    ensures ok { IfOk result (λ end. FollowsAll None (R.remaining from.old) end.0 end.1
        (S.said out.old) (S.said out.new)) }
    ensures err { OnErr result (FollowsPart None (R.remaining from.old)
        (S.said out.old) (S.said out.new)) }
{
    let mut reader = run_reader(alloc)?;
    write_lines(from, &mut reader, alloc, out)
}

/// Writes all lines for a text, or only the last lines for its existing part and all later ones.
fn follow<R: LiveTrace, S: LineSink, E: Reporter>(
    from: &mut R,
    alloc: Global,
    path: &str,
    last: Option<usize>,
    out: &mut S,
    err: &mut E,
) -> Result<End, FollowFault>
    ensures ok { IfOk result (λ end. FollowsAll last (R.remaining from.old) end.0 end.1
        (S.said out.old) (S.said out.new)) }
    ensures err { OnErr result (FollowsPart last (R.remaining from.old) (S.said out.old)
        (S.said out.new)) }
{
    match last {
        None => follow_all(from, alloc, out),
        Some(count) => follow_last(from, alloc, path, count, out, err),
    }
}

/// Writes the lines for a text as `follow` does, and returns the exit status.
fn follow_text<R: LiveTrace, S: LineSink, E: Reporter>(
    from: &mut R,
    alloc: Global,
    path: &str,
    last: Option<usize>,
    out: &mut S,
    err: &mut E,
) -> u8
    ensures { Follows last (R.remaining from.old) result (S.said out.old) (S.said out.new) }
{
    match follow(from, alloc, path, last, out, err) {
        Ok((stop, line)) => {
            tell_stop(path, stop, line, err);
            stop_status(stop)
        }
        Err(fault) => report_fault(path, &fault, out, err),
    }
}

/// Follows the trace at a path, from the last lines of its existing part on if their number is given, and returns the
/// exit status.
pub(crate) fn follow_file<G: LiveTraces, S: LineSink, E: Reporter>(
    growing: &G,
    alloc: Global,
    path: &str,
    last: Option<usize>,
    out: &mut S,
    err: &mut E,
) -> u8
    ensures { Follows last (G.text_at growing.now path.now) result (S.said out.old)
        (S.said out.new) }
{
    match growing.open(alloc, path) {
        Ok(mut text) => follow_text(&mut text, alloc, path, last, out, err),
        Err(error) => report_unread(path, &error, err),
    }
}
