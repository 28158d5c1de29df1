//! The wording of lines. `tools/rows/initview` tests it; no contract mentions it.

use crate::changes::Change;
use crate::chart::add_chart;
use crate::clocks::Zone;
use crate::happenings::News;
use crate::json;
use crate::lines::{FileLine, Head, IdRow, Line, Reason, RowFormat};
use crate::phrases::{Value, fill};
use crate::svg::add_svg;
use crate::times::TimeTaken;
use crate::words::put;
use init_words::{Act, ChildNumber, Id, Letter, Level, OrderKind, PowerKind, Stage};
use initctl_frame::{Cause, HeardRequest};
use inittab_lint::Warning;
use inittab_text::LineKind;
use respawn_limit::{HOLD, STARTS, WINDOW};
use std::alloc::{AllocError, Global};
use trace_events::Handed;
use trace_view::Why;

/// Returns the text of lines. Times are in the given zone, except those in JSON, which are in UTC.
pub fn words_of(alloc: Global, zone: Zone, lines: &[Line]) -> Result<Vec<u8>, AllocError> {
    let mut text = Vec::new(alloc);
    for line in lines {
        add_line(&mut text, alloc, zone, line)?;
    }
    Ok(text)
}

fn add_line(text: &mut Vec<u8>, alloc: Global, zone: Zone, line: &Line) -> Result<(), AllocError> {
    match line {
        Line::Head(RowFormat::Lines, head) => add_head(text, zone, head),
        Line::Head(RowFormat::Json, head) => json::add_head(text, head),
        Line::Row(RowFormat::Lines, at) => add_row(text, at),
        Line::Row(RowFormat::Json, at) => json::add_row(text, at),
        Line::Left(RowFormat::Lines, id, number) => add_left(text, id, *number),
        Line::Left(RowFormat::Json, id, number) => json::add_left(text, id, *number),
        Line::Why(reason) => add_reason(text, reason),
        Line::Advice(stage, act, why) => {
            let advice = advice_of(*stage, *act, *why);
            fill(text, b"  @\n", &[Value::Text(advice)])
        }
        Line::Stage(stage) => fill(text, b"@\n", &[Value::Stage(*stage)]),
        Line::Change(id, act, change, child) => add_change(text, id, *act, *change, *child),
        Line::Start(id, act, waits) => add_start(text, id, *act, *waits),
        Line::CriticalPath => put(text, b"critical path\n"),
        Line::OnPath(id, act, before) => add_on_path(text, id, *act, before),
        Line::Reached(level, before) => add_reached(text, *level, before),
        Line::PathTimes => put(text, b"critical path in the trace\n"),
        Line::TimeTaken(id, act, took) => add_took(text, id, *act, *took),
        Line::Whole(level, seconds) => {
            let level = [b'l', b'e', b'v', b'e', b'l', b' ', level.code()];
            let columns = [Value::Padded(23, &level), Value::Number(*seconds)];
            fill(text, b"@@ s\n", &columns)
        }
        Line::File(name, told) => {
            put(text, name.as_slice())?;
            add_file_line(text, alloc, told)?;
            put(text, b"\n")
        }
        Line::Happened(time, news) => add_happened(text, zone, *time, news),
        Line::Chart(width, which, timeline) => {
            add_chart(text, alloc, zone, *width, *which, timeline)
        }
        Line::Svg(which, timeline) => add_svg(text, zone, *which, timeline),
        Line::Text(bytes) => put(text, bytes.as_slice()),
    }
}

/// Adds a message about a file, after its name.
fn add_file_line(text: &mut Vec<u8>, alloc: Global, told: &FileLine) -> Result<(), AllocError> {
    match told {
        FileLine::LeftOut(line, kind, field, meant) => {
            let kind = *kind;
            let reason = format!(in alloc; "{kind}")?;
            let position = Value::Number(u64::from(*line));
            fill(text, b":@: @", &[position, Value::Text(reason.as_bytes())])?;
            add_hint(text, kind, field.as_slice(), *meant)
        }
        FileLine::Warning(line, kind) => fill(
            text,
            b":@: warning: @",
            &[Value::Number(*line as u64), Value::Text(kind.words())],
        ),
        FileLine::Missing(line, program) => fill(
            text,
            b":@: warning: its program @ @",
            &[
                Value::Number(*line as u64),
                Value::Shown(program.as_slice()),
                Value::Text(Warning::Missing.words()),
            ],
        ),
        FileLine::Kept(line, bytes) => fill(
            text,
            b":@: @",
            &[Value::Number(*line as u64), Value::Shown(bytes.as_slice())],
        ),
        FileLine::Nameless => put(
            text,
            b": lines begin without an id, as in BusyBox's inittab; write one before the first colon",
        ),
        FileLine::Default(Some(_)) => put(
            text,
            b": warning: no entry starts in the initdefault level",
        ),
        FileLine::Default(None) => put(
            text,
            b": warning: no initdefault names a level; init goes to S",
        ),
        FileLine::NoLine(id) => fill(text, b": no line has the id @", &[Value::Id(*id)]),
    }
}

/// Adds a hint after the check that a line fails.
fn add_hint(
    text: &mut Vec<u8>,
    kind: LineKind,
    field: &[u8],
    meant: Option<Act>,
) -> Result<(), AllocError> {
    let field = Value::Line(field);
    match (kind, meant) {
        (LineKind::Fields, _) => put(text, b": a line is id:runlevels:action:process"),
        (LineKind::Id, _) => fill(text, b" @: 1 to 8 characters, the first not #", &[field]),
        (LineKind::Levels, _) => put(text, b": at most 11 characters"),
        (LineKind::Action, Some(act)) => {
            fill(
                text,
                b" @; did you mean @?",
                &[field, Value::Text(act.word())],
            )
        }
        (LineKind::Action, None) => fill(text, b" @", &[field]),
        (LineKind::Length, _) => put(text, b": at most 127 bytes; write a script"),
        (LineKind::Empty, _) => Ok(()),
        (LineKind::Text, _) => put(text, b": it is not UTF-8, or contains a NUL"),
        (LineKind::Twice, _) => fill(text, b" @: only its first line counts", &[field]),
        (LineKind::Many, _) => put(text, b": at most 4096"),
    }
}

fn add_took(text: &mut Vec<u8>, id: &Id, act: Act, took: TimeTaken) -> Result<(), AllocError> {
    add_columns(text, id, Some(act))?;
    match took {
        TimeTaken::NotStarted => put(text, b"was not started\n"),
        TimeTaken::RunsStill => put(text, b"still running\n"),
        TimeTaken::Seconds(seconds) => fill(text, b"@ s\n", &[Value::Number(seconds)]),
        TimeTaken::Longest(seconds) => fill(text, b"@ s, the longest\n", &[Value::Number(seconds)]),
    }
}

/// Returns the name of an action, or a dash.
fn act_words(act: Option<Act>) -> &'static [u8] {
    match act {
        Some(act) => act.word(),
        None => b"-",
    }
}

/// Adds an id and an action, each in its column.
fn add_columns(text: &mut Vec<u8>, id: &Id, act: Option<Act>) -> Result<(), AllocError> {
    fill(
        text,
        b"@@",
        &[
            Value::Padded(9, id.as_bytes()),
            Value::Padded(14, act_words(act)),
        ],
    )
}

fn add_head(text: &mut Vec<u8>, zone: Zone, head: &Head) -> Result<(), AllocError> {
    let settled: &[u8] = match (head.settled, head.complete) {
        (true, true) => b", settled",
        (true, false) => b", settled, not complete",
        (false, _) => b"",
    };
    fill(
        text,
        b"@@, clock @, @ s from TERM to KILL\n",
        &[
            Value::Stage(head.stage),
            Value::Text(settled),
            Value::Clock(zone, head.time),
            Value::Number(head.grace),
        ],
    )?;
    if let Some(level) = head.goal {
        fill(text, b"@ is requested\n", &[Value::Level(level)])?;
    }
    match head.wish {
        Some(wish) => fill(text, b"a request is pending: @\n", &[Value::Wish(wish)]),
        None => Ok(()),
    }
}

fn add_row(text: &mut Vec<u8>, at: &IdRow) -> Result<(), AllocError> {
    add_columns(text, &at.id, at.row.act)?;
    match at.row.child {
        Some(number) => add_child(text, at, number)?,
        None => add_waits(text, at)?,
    }
    put(text, b"\n")
}

pub(crate) fn child_state(excluded: bool) -> &'static [u8] {
    if excluded { b"stopping" } else { b"running" }
}

fn add_child(text: &mut Vec<u8>, at: &IdRow, number: ChildNumber) -> Result<(), AllocError> {
    let state = child_state(at.row.excluded);
    fill(
        text,
        b"@pid @",
        &[Value::Padded(12, state), Value::Pid(number.0)],
    )?;
    add_births(text, at)?;
    add_stopping(text, at)
}

/// Adds how long a child has been running, and its number among the children of its id.
fn add_births(text: &mut Vec<u8>, at: &IdRow) -> Result<(), AllocError> {
    match (at.runs, at.row.births) {
        (Some(seconds), Some(births)) => fill(
            text,
            b", @ s, start @",
            &[Value::Number(seconds), Value::Number(births.count)],
        ),
        _ => Ok(()),
    }
}

/// Adds the progress of stopping a child.
fn add_stopping(text: &mut Vec<u8>, at: &IdRow) -> Result<(), AllocError> {
    match at.stopping {
        Some(stopping) => fill(
            text,
            b", TERM @ s ago, KILL in @ s",
            &[Value::Number(stopping.term), Value::Number(stopping.kill)],
        ),
        None if at.row.excluded => put(text, b", no TERM yet"),
        None => Ok(()),
    }
}

/// Returns the state of an id without a child, in a word or two.
pub(crate) fn state_word(why: Why) -> &'static [u8] {
    match why {
        Why::NoEntry => b"no entry",
        Why::NeverStarts => b"never",
        Why::NoStage => b"not yet",
        Why::RanBefore | Why::WasStarted => b"done",
        Why::StageOver | Why::OtherStage => b"not here",
        Why::StageOwed(_) | Why::EarlierOwed(_) => b"waiting",
        Why::ExcludedKept(_) | Why::WishStands(_) => b"waiting",
        Why::OrderOpen(OrderKind::Start) => b"starting",
        Why::ChildKept(_) | Why::OrderOpen(_) => b"ended",
        Why::NotCalled => b"not called",
        Why::Held(_) => b"held",
        Why::WindowFull => b"held next",
        Why::Nothing => b"due",
    }
}

fn add_waits(text: &mut Vec<u8>, at: &IdRow) -> Result<(), AllocError> {
    fill(text, b"@", &[Value::Padded(12, state_word(at.row.why))])?;
    add_waited(text, at)?;
    add_last(text, at)
}

/// Adds the words for what an id is waiting for: an entry, a child, a request, or the end of its hold.
fn add_waited(text: &mut Vec<u8>, at: &IdRow) -> Result<(), AllocError> {
    match at.row.why {
        Why::EarlierOwed(id) | Why::StageOwed(id) => { fill(text, b"for @; ", &[Value::Id(id)]) }
        Why::ExcludedKept(child) => fill(
            text,
            b"for @ (pid @) to end; ",
            &[Value::Id(child.id), Value::Pid(child.number.0)],
        ),
        Why::WishStands(_) => put(text, b"for a request; "),
        Why::Held(_) => fill(text, b"@ s more; ", &[Value::Known(at.held)]),
        _ => Ok(()),
    }
}

/// Adds the last end of an id, and the time since then.
fn add_last(text: &mut Vec<u8>, at: &IdRow) -> Result<(), AllocError> {
    match (at.ended, at.row.last) {
        (Some(seconds), Some(ending)) => fill(
            text,
            b"@, @ s ago",
            &[Value::Status(ending.status), Value::Number(seconds)],
        ),
        _ => put(text, b"never ran"),
    }
}

fn add_left(text: &mut Vec<u8>, id: &Id, number: Option<ChildNumber>) -> Result<(), AllocError> {
    match number {
        Some(number) => fill(text, b"@ @\n", &[Value::Id(*id), Value::Pid(number.0)]),
        None => fill(text, b"@ ?\n", &[Value::Id(*id)]),
    }
}

fn add_reason(text: &mut Vec<u8>, reason: &Reason) -> Result<(), AllocError> {
    fill(text, b"@: ", &[Value::Id(reason.at.id)])?;
    add_why(text, reason)?;
    add_stopping(text, &reason.stopped)?;
    match reason.line {
        Some(line) => fill(
            text,
            b" (@:@)\n",
            &[Value::Text(reason.trace.as_slice()), Value::Number(line)],
        ),
        None => put(text, b"\n"),
    }
}

fn add_why(text: &mut Vec<u8>, reason: &Reason) -> Result<(), AllocError> {
    let row = &reason.at.row;
    match row.why {
        Why::NoEntry => put(text, b"the table in force has no such entry"),
        Why::NeverStarts => fill(
            text,
            b"its action, @, starts nothing",
            &[Value::Text(act_words(row.act))],
        ),
        Why::NoStage => put(text, b"no stage has begun"),
        Why::RanBefore => fill(
            text,
            b"it ran once, before @",
            &[Value::Stage(reason.stage)],
        ),
        Why::StageOver => put(text, b"its action starts it only before the first level"),
        Why::StageOwed(id) => fill(text, b"init is waiting for @", &[Value::Id(id)]),
        Why::OtherStage => fill(
            text,
            b"it doesn't start in @",
            &[Value::Stage(reason.stage)],
        ),
        Why::ChildKept(number) => add_kept(text, &reason.at, number),
        Why::OrderOpen(ask) => put(text, order_words(ask)),
        Why::NotCalled => put(
            text,
            b"nothing has called it since the level or the table changed",
        ),
        Why::WasStarted => {
            put(
                text,
                b"it has already been started since the level or its line changed: ",
            )?;
            add_last(text, &reason.at)
        }
        Why::EarlierOwed(id) => fill(
            text,
            b"init is waiting for @, which comes before it",
            &[Value::Id(id)],
        ),
        Why::ExcludedKept(child) => fill(
            text,
            b"@ (pid @) may not run in @, and must exit first",
            &[
                Value::Id(child.id),
                Value::Pid(child.number.0),
                Value::Stage(reason.stage),
            ],
        ),
        Why::WishStands(wish) => fill(
            text,
            b"a request is carried out first: @",
            &[Value::Wish(wish)],
        ),
        Why::Held(_) => fill(
            text,
            b"it is held for @ s more: it was started ten times in two minutes",
            &[Value::Known(reason.at.held)],
        ),
        Why::WindowFull => put(
            text,
            b"it was started ten times in two minutes and is held next",
        ),
        Why::Nothing => put(text, b"nothing holds it back: its start is due"),
    }
}

/// Adds the state of a kept child: it is running, or init has not learned of its end yet.
fn add_kept(text: &mut Vec<u8>, at: &IdRow, number: ChildNumber) -> Result<(), AllocError> {
    let number = [Value::Pid(number.0)];
    if at.row.child.is_none() {
        return fill(
            text,
            b"its child @ has ended, but init has not been told yet",
            &number,
        );
    }
    fill(text, b"its child is running: pid @", &number)?;
    add_births(text, at)
}

fn order_words(ask: OrderKind) -> &'static [u8] {
    match ask {
        OrderKind::Start => b"it is being started",
        OrderKind::Look => b"init is checking whether its child has ended",
        OrderKind::Term => b"TERM is being sent to its child",
        OrderKind::Kill => b"KILL is being sent to its child",
    }
}

/// Returns the advice for a reason.
fn advice_of(stage: Option<Stage>, act: Option<Act>, why: Why) -> &'static [u8] {
    match why {
        Why::NoEntry => b"add its line to the inittab, or correct it, and run telinit q",
        Why::NeverStarts => b"give its line another action, and run telinit q",
        Why::NoStage => b"wait for stage sysinit",
        Why::RanBefore | Why::StageOver => b"run it by hand, or reboot",
        Why::OtherStage => other_advice(stage, act),
        Why::ChildKept(_) => kept_advice(act),
        Why::OrderOpen(_) => b"wait for the answer",
        Why::NotCalled => call_advice(),
        Why::WasStarted => again_advice(act),
        Why::StageOwed(_) | Why::EarlierOwed(_) | Why::ExcludedKept(_) => {
            b"wait: init sends TERM, then KILL when the grace is over"
        }
        Why::Held(_) => b"find out why its children exit so soon; telinit q ends the hold",
        Why::WindowFull => b"find out why its children exit so soon",
        Why::WishStands(_) | Why::Nothing => b"wait for init's next turn",
    }
}

/// Returns the advice about an entry of another stage. If its action ignores levels, a change of level starts it.
fn other_advice(stage: Option<Stage>, act: Option<Act>) -> &'static [u8] {
    match (stage, act) {
        (Some(Stage::Run(_)), Some(act)) if act.ignores_levels() => b"go to another level",
        (Some(Stage::Run(_)), _) => {
            b"go to a level that its line names, or add this level to its line and run telinit q"
        }
        _ => b"wait for the first level",
    }
}

/// Returns the advice about a running child, which init may be waiting for.
fn kept_advice(act: Option<Act>) -> &'static [u8] {
    match act {
        Some(act) if act.is_waited() => b"wait until it exits, or kill it",
        _ => b"kill the child to have it restarted, if its action does that",
    }
}

fn call_advice() -> &'static [u8] {
    b"start it with telinit a, b or c, or with telinit --power, depending on its action"
}

/// Returns the advice about an entry that was already started, with or without a call.
fn again_advice(act: Option<Act>) -> &'static [u8] {
    match act {
        Some(act) if !act.is_wanted(true, true, false) => call_advice(),
        _ => b"go to another level and back to start it again",
    }
}

fn change_words(change: Change) -> &'static [u8] {
    match change {
        Change::Keep => b"keep",
        Change::NextStart => b"changed at its next start",
        Change::Stop => b"stop",
        Change::StopStart => b"stop and start",
        Change::Start => b"start",
        Change::NotAgain => b"not again",
        Change::NotHere => b"not here",
    }
}

fn add_change(
    text: &mut Vec<u8>,
    id: &Id,
    act: Option<Act>,
    change: Change,
    child: Option<ChildNumber>,
) -> Result<(), AllocError> {
    let words = Value::Text(change_words(change));
    add_columns(text, id, act)?;
    match child {
        Some(number) => fill(text, b"@  @\n", &[words, Value::Pid(number.0)]),
        None => fill(text, b"@\n", &[words]),
    }
}

fn add_start(text: &mut Vec<u8>, id: &Id, act: Act, waits: bool) -> Result<(), AllocError> {
    add_columns(text, id, Some(act))?;
    if waits {
        put(text, b"init waits until it exits\n")
    } else {
        put(text, b"init does not wait\n")
    }
}

/// Returns the id of the entry whose end the next one waits for, if any.
fn id_or_nothing(before: &Option<Id>) -> Value<'_> {
    match before {
        Some(id) => Value::Id(*id),
        None => Value::Text(b"nothing"),
    }
}

fn add_on_path(
    text: &mut Vec<u8>,
    id: &Id,
    act: Act,
    before: &Option<Id>,
) -> Result<(), AllocError> {
    add_columns(text, id, Some(act))?;
    fill(text, b"waits for @\n", &[id_or_nothing(before)])
}

fn add_reached(text: &mut Vec<u8>, level: Level, before: &Option<Id>) -> Result<(), AllocError> {
    fill(
        text,
        b"@                waits for @\n",
        &[Value::Level(level), id_or_nothing(before)],
    )
}

fn add_happened(text: &mut Vec<u8>, zone: Zone, time: u64, news: &News) -> Result<(), AllocError> {
    fill(text, b"@ ", &[Value::Clock(zone, time)])?;
    add_news(text, news)?;
    put(text, b"\n")
}

fn add_news(text: &mut Vec<u8>, news: &News) -> Result<(), AllocError> {
    match news {
        News::Table(count) => {
            let entries: &[u8] = if *count == 1 { b"entry" } else { b"entries" };
            fill(
                text,
                b"inittab read: @ @",
                &[Value::Number(*count as u64), Value::Text(entries)],
            )
        }
        News::NotRead => put(text, b"inittab could not be read again"),
        News::Entered(stage) => fill(text, b"entering @", &[Value::Stage(Some(*stage))]),
        News::Settled(level) => fill(text, b"@ settled", &[Value::Level(*level)]),
        News::Called(letter) => fill(text, b"calling the entries of @", &[code_of(*letter)]),
        News::Power(kind) => fill(
            text,
            b"@: calling the entries for it",
            &[Value::Text(power_words(*kind))],
        ),
        News::Held(id) => fill(
            text,
            b"@ held for @ s: started @ times in @ s",
            &[
                Value::Id(*id),
                Value::Number(HOLD),
                Value::Number(STARTS as u64),
                Value::Number(WINDOW),
            ],
        ),
        News::Born(id, number) => fill(
            text,
            b"@ started, @",
            &[Value::Id(*id), Value::Pid(number.0)],
        ),
        News::NotBorn(id) => fill(text, b"@ could not be started", &[Value::Id(*id)]),
        News::Ended(id, number, status) => fill(
            text,
            b"@ ended, @: @",
            &[
                Value::Id(*id),
                Value::Pid(number.0),
                Value::Status(Some(*status)),
            ],
        ),
        News::NotSeen(id) => fill(text, b"@ could not be checked", &[Value::Id(*id)]),
        News::Sent(id, order, child) => add_signal(text, b"@ sent to @", id, *order, *child),
        News::NotSent(id, order, child) => {
            add_signal(text, b"@ could not be sent to @", id, *order, *child)
        }
        News::Got(request) => add_request(text, request),
        News::Handed(how) => add_handed(text, *how),
    }
}

fn code_of(letter: Letter) -> Value<'static> {
    Value::Byte(letter.code())
}

fn power_words(kind: PowerKind) -> &'static [u8] {
    match kind {
        PowerKind::Fail => b"the power is failing",
        PowerKind::FailNow => b"the battery is almost empty",
        PowerKind::Ok => b"the power is back",
    }
}

fn signal_word(order: Option<OrderKind>) -> &'static [u8] {
    match order {
        Some(OrderKind::Term) => b"TERM",
        Some(OrderKind::Kill) => b"KILL",
        _ => b"a signal",
    }
}

/// Adds a phrase about a signal, with the id and number of the child.
fn add_signal(
    text: &mut Vec<u8>,
    phrase: &[u8],
    id: &Id,
    order: Option<OrderKind>,
    child: Option<ChildNumber>,
) -> Result<(), AllocError> {
    let word = Value::Text(signal_word(order));
    fill(text, phrase, &[word, Value::Id(*id)])?;
    match child {
        Some(number) => fill(text, b", @", &[Value::Pid(number.0)]),
        None => Ok(()),
    }
}

fn cause_words(cause: Cause) -> &'static [u8] {
    match cause {
        Cause::Magic => b"no magic number",
        Cause::Unknown => b"an unknown command",
        Cause::LeftOut => b"a command that init does not support",
        Cause::Character => b"an invalid runlevel character",
    }
}

fn add_request(text: &mut Vec<u8>, request: &HeardRequest) -> Result<(), AllocError> {
    match request {
        HeardRequest::Level(level, grace) => fill(
            text,
            b"request: @, @ s from TERM to KILL",
            &[Value::Level(*level), Value::Number(u64::from(*grace))],
        ),
        HeardRequest::Call(letter) => fill(
            text,
            b"request: call the entries of @",
            &[code_of(*letter)],
        ),
        HeardRequest::Reload => put(text, b"request: read inittab again"),
        HeardRequest::Reexec => put(text, b"request: re-execute init"),
        HeardRequest::Power(kind) => {
            fill(text, b"request: @", &[Value::Text(power_words(*kind))])
        }
        HeardRequest::Nothing(why) => fill(
            text,
            b"request skipped: it has @",
            &[Value::Text(cause_words(*why))],
        ),
    }
}

fn add_handed(text: &mut Vec<u8>, how: Handed) -> Result<(), AllocError> {
    match how {
        Handed::Whole => put(text, b"init re-executed itself"),
        Handed::Cut(bytes) => fill(
            text,
            b"init could not re-execute itself: only @ bytes of its state were read back",
            &[Value::Number(bytes)],
        ),
        Handed::Older(generation) => fill(
            text,
            b"init could not re-execute itself: the state of generation @ was read back",
            &[Value::Number(generation)],
        ),
        Handed::Failed => put(
            text,
            b"init could not re-execute itself: its state was not handed over",
        ),
    }
}
