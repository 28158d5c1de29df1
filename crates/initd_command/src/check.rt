//! Carries out `initd check`, which judges the file of a trace.

ghost use Rattle.std.specs.Prelude.{◌≡◌, [], option_map, string_bytes, IfOk};
ghost use Rattle.initd_command.specs.Words.{check_of};
ghost use Rattle.initd_command.specs.Endings.{Ending, Reports, ReportsJudged, ReportsOpenLine, ReportsWithin, status_of, left_message, torn_message, unfinished_message, within_message};
ghost use Rattle.initd_command.specs.Runs.{judged_at};
ghost use Rattle.initd_command.specs.Turned.{ReportsText};
ghost use Rattle.initd_command.specs.Verdicts.{EndsBreach, EndsCheck, EndsFound, EndsLawful, EndsTold, IsJudge, breach_message, cut_at, judged_of, verdict_of, verdict_text, within_of};

use crate::lines::front_line;
use crate::reports::{report, report_bytes, report_cannot, report_made, report_memory, tell};
use init_words::Memory;
use initd_options::CheckWords;
use itoa::Buffer;
use program_io::{DEVICE_FAULT, DONE, PieceTaker, REFUSED, Reporter, Texts, UNLAWFUL};
use std::alloc::{AllocError, Global};
use std::fs::File;
use std::io;
use std::io::Write;
use std::rt::Files;
use trace_pieces::PiecedFiles;
use trace_verdict::{Breach, Finding, TextJudge};

/// The report about a trace in addition to the verdict: its path, if it begins within a run; the line at which its
/// last happening begins, if that is incomplete; and the number of its complete happenings.
#[derive(Clone, Copy)]
struct JudgedTrace<'a> {
    within: Option<&'a str>,
    open_line: Option<u64>,
    count: u64,
}

/// The judge of a trace whose text is read in pieces. It keeps the first byte of the text, and also the path and the
/// runtime, to report that the text is compressed.
#[derive(Drop)]
struct FileJudge<'a, R> {
    judge: TextJudge,
    first: Option<u8>,
    path: &'a str,
    rt: &'a R,
}

/// Returns the program that decompresses a text with this beginning, if the text is compressed.
fn unpacker(piece: &[u8]) -> Option<&'static str> {
    match piece {
        [0x1f, 0x8b, ..] => Some("zcat"),
        [0x28, 0xb5, 0x2f, 0xfd, ..] => Some("zstdcat"),
        [0xfd, b'7', b'z', b'X', b'Z', 0, ..] => Some("xzcat"),
        _ => None,
    }
}

/// Reports that the text at a path is compressed, if its beginning shows that.
fn tell_packed<R: Eprint>(rt: &R, path: &str, piece: &[u8]) {
    if let Some(unpacker) = unpacker(piece) {
        let _ = eprintln!(rt; "initd: {path} is compressed; use {unpacker} {path} | initd check -");
    }
}

impl<R: Eprint> PieceTaker for FileJudge<'_, R> {
    ghost use Rattle.initd_command.specs.Verdicts.{IsJudge};

    ghost has_taken = { λ file text. IsJudge file.judge file.first text };

    fn take_piece(&mut self, piece: &[u8]) -> Result<(), AllocError> {
        if self.first.is_none() {
            tell_packed(self.rt, self.path, piece);
        }
        self.first = self.first.or(piece.first().copied());
        match self.judge.take(piece) {
            Ok(()) => Ok(()),
            Err(Memory) => Err(AllocError),
        }
    }
}

/// Returns a judge that has received no text yet. It is on the heap, because proving a function with a judge in its
/// stack frame is expensive.
fn file_judge<'a, R>(
    rt: &'a R,
    alloc: Global,
    path: &'a str,
) -> Result<Box<FileJudge<'a, R>>, AllocError>
    ensures { IfOk result (λ file. IsJudge file.value.judge file.value.first []) }
{
    let judge = FileJudge {
        judge: TextJudge::new(alloc),
        first: None,
        path,
        rt,
    };
    Ok(Box::new(alloc, judge)?)
}

/// Reads a trace and judges it. With `--pieces`, the earlier pieces of the trace, which were put away, are read before
/// it.
pub(crate) fn check_files<R: Files<File = File> + Eprint, T: Texts, W: Write, E: Reporter>(
    rt: &R,
    texts: &T,
    alloc: Global,
    options: &CheckWords,
    out: &mut W,
    err: &mut E,
) -> u8
    ensures { (ending : Ending) × (result ≡ status_of ending)
        × EndsCheck (judged_at (T.text_at texts.now) (check_of options.now))
        (check_of options.now) ending
        (W.contents out.old) (W.contents out.new)
        × Reports ending (E.reports err.old) (E.reports err.new) }
{
    if options.pieces {
        let pieces = PiecedFiles::new(rt, alloc, "initd", false);
        return check_file(rt, &pieces, alloc, options, out, err);
    }
    check_file(rt, texts, alloc, options, out, err)
}

/// Reads a trace and judges it.
fn check_file<R: Eprint, T: Texts, W: Write, E: Reporter>(
    rt: &R,
    texts: &T,
    alloc: Global,
    options: &CheckWords,
    out: &mut W,
    err: &mut E,
) -> u8
    ensures { (ending : Ending) × (result ≡ status_of ending)
        × EndsCheck (T.text_at texts.now) (check_of options.now) ending
        (W.contents out.old) (W.contents out.new)
        × Reports ending (E.reports err.old) (E.reports err.new) }
{
    let path = options.trace.as_str();
    match file_judge(rt, alloc, path) {
        Ok(mut file) => judge_text(texts, alloc, options, &mut file, out, err),
        Err(error) => report_cannot(alloc, "read", path, &io::Error::from(error), err),
    }
}

/// Passes a trace to a judge that has received no text yet, and writes and reports the judge's finding.
fn judge_text<R: Eprint, T: Texts, W: Write, E: Reporter>(
    texts: &T,
    alloc: Global,
    options: &CheckWords,
    file: &mut FileJudge<'_, R>,
    out: &mut W,
    err: &mut E,
) -> u8
    requires { IsJudge file.old.judge file.old.first [] }
    ensures { (ending : Ending) × (result ≡ status_of ending)
        × EndsCheck (T.text_at texts.now) (check_of options.now) ending
        (W.contents out.old) (W.contents out.new)
        × Reports ending (E.reports err.old) (E.reports err.new) }
{
    let path = options.trace.as_str();
    match texts.read_pieces(path, file) {
        Ok(()) => {
            let (finding, open_line, count) = file.judge.answer();
            let within = within_of(path, file.first, count);
            let judged = JudgedTrace {
                within,
                open_line,
                count,
            };
            tell_text(alloc, options.growing, finding, judged, out, err)
        }
        Err(error) => report_cannot(alloc, "read", path, &error, err),
    }
}

/// Returns the path of a text that begins within a run: its first happening is not a table.
fn within_of(path: &str, first: Option<u8>, count: u64) -> Option<&str>
    ensures { option_map (λ path. path.now) result ≡ within_of path.now first count }
{
    match first {
        Some(byte) if byte != b'u' && count > 0 => Some(path),
        _ => None,
    }
}

/// Returns the line at which the last happening is incomplete, unless the trace is growing.
fn cut_at(growing: bool, open_line: Option<u64>) -> Option<u64>
    ensures { result ≡ cut_at growing open_line }
{
    if growing { None } else { open_line }
}

/// Writes and reports the judge's finding on a text, or reports that the text is incomplete.
fn tell_text<W: Write, E: Reporter>(
    alloc: Global,
    growing: bool,
    finding: &Finding,
    judged: JudgedTrace,
    out: &mut W,
    err: &mut E,
) -> u8
    ensures { (ending : Ending) × (result ≡ status_of ending)
        × EndsTold (cut_at growing judged.entry.open_line) finding.now
        (judged_of judged.entry) ending
        (W.contents out.old) (W.contents out.new)
        × Reports ending (E.reports err.old) (E.reports err.new) }
{
    match cut_at(growing, judged.open_line) {
        Some(line) => report_unfinished(alloc, line, finding, err),
        None => tell_finding(alloc, finding, judged, out, err),
    }
}

/// Writes the verdict on a text, and makes the other reports about it.
fn tell_finding<W: Write, E: Reporter>(
    alloc: Global,
    finding: &Finding,
    judged: JudgedTrace,
    out: &mut W,
    err: &mut E,
) -> u8
    ensures { (ending : Ending) × (result ≡ status_of ending)
        × EndsFound finding.now (judged_of judged.entry) ending
        (W.contents out.old) (W.contents out.new)
        × Reports ending (E.reports err.old) (E.reports err.new) }
{
    match finding {
        Finding::Lawful => tell_lawful(alloc, judged, out, err),
        Finding::Breach(breach) => tell_breach(alloc, breach, judged, out, err),
        Finding::Torn(number) => report_torn(alloc, *number, err),
    }
}

/// The report if the verdict could not be written.
const UNWRITTEN: &str = "initd: the verdict could not be written\n";

/// Writes that the trace is lawful.
fn tell_lawful<W: Write, E: Reporter>(
    alloc: Global,
    judged: JudgedTrace,
    out: &mut W,
    err: &mut E,
) -> u8
    ensures { (ending : Ending) × (result ≡ status_of ending)
        × EndsLawful (judged_of judged.entry) ending (W.contents out.old) (W.contents out.new)
        × Reports ending (E.reports err.old) (E.reports err.new) }
{
    if !tell(b"lawful\n", out) {
        report(UNWRITTEN, err);
        return DEVICE_FAULT;
    }
    report_judged(alloc, judged, err);
    DONE
}

/// Writes the position of the breach, and reports its line and the law in words.
fn tell_breach<W: Write, E: Reporter>(
    alloc: Global,
    breach: &Breach,
    judged: JudgedTrace,
    out: &mut W,
    err: &mut E,
) -> u8
    ensures { (ending : Ending) × (result ≡ status_of ending)
        × EndsBreach breach.now (judged_of judged.entry) ending
        (W.contents out.old) (W.contents out.new)
        × Reports ending (E.reports err.old) (E.reports err.new) }
{
    let Ok(verdict) = verdict_text(alloc, breach.position(), breach.law().number()) else {
        return report_memory(err);
    };
    let Ok(message) = breach_message(alloc, breach) else {
        return report_memory(err);
    };
    if !tell(verdict.as_bytes(), out) {
        report(UNWRITTEN, err);
        return DEVICE_FAULT;
    }
    report_bytes(&message, err);
    report_judged(alloc, judged, err);
    UNLAWFUL
}

/// Returns the verdict on a trace whose happening at this position, counted from 0, breaks this law.
fn verdict_text(alloc: Global, position: u64, law: u8) -> Result<String, AllocError>
    ensures { IfOk result (λ text. string_bytes text ≡ verdict_text position law) }
{
    format!(in alloc; "unlawful: happening {position}, law {law}\n")
}

/// Returns the verdict for a finding.
fn verdict_of(alloc: Global, finding: &Finding) -> Result<String, AllocError>
    ensures { IfOk result (λ text. string_bytes text ≡ verdict_of finding.now) }
{
    match finding {
        Finding::Lawful => String::from_str(alloc, "lawful\n"),
        Finding::Breach(breach) => verdict_text(alloc, breach.position(), breach.law().number()),
        Finding::Torn(_) => Ok(String::new(alloc)),
    }
}

/// Returns the line of the trace at which the breach is, with its number, and the law in words.
fn breach_message(alloc: Global, breach: &Breach) -> Result<Vec<u8>, AllocError>
    ensures { IfOk result (λ text. text.items ≡ breach_message breach.now) }
{
    let mut text = Vec::new(alloc);
    let mut digits = Buffer::new();
    text.extend_from_slice(b"line ")?;
    text.extend_from_slice(digits.format(breach.line()).as_bytes())?;
    text.extend_from_slice(b": ")?;
    text.extend_from_slice(front_line(breach.text()))?;
    text.extend_from_slice(b": ")?;
    text.extend_from_slice(breach.law().words().as_bytes())?;
    text.push(b'\n')?;
    Ok(text)
}

/// Reports about a trace that was judged: that it begins within a run, the number of its happenings, and the line at
/// which the last one is incomplete.
fn report_judged<E: Reporter>(alloc: Global, judged: JudgedTrace, err: &mut E)
    ensures { ReportsJudged (judged_of judged.entry) (E.reports err.old) (E.reports err.new) }
{
    report_within(alloc, judged.within, err);
    let count = judged.count;
    report_made(format!(in alloc; "initd: {count} happenings\n"), err);
    report_open_line(alloc, judged.open_line, err);
}

/// Reports that the trace at a path begins within a run.
fn report_within<E: Reporter>(alloc: Global, within: Option<&str>, err: &mut E)
    ensures { ReportsWithin (option_map (λ path. path.now) within.entry)
        (E.reports err.old) (E.reports err.new) }
{
    if let Some(path) = within {
        report_made(within_text(alloc, path), err);
    }
}

fn within_text(alloc: Global, path: &str) -> Result<String, AllocError>
    ensures { IfOk result (λ text. string_bytes text ≡ within_message path.now) }
{
    format!(in alloc; "initd: {path} begins within a run; judged as if nothing came before it\n")
}

/// Reports the line at which the last happening of a trace is incomplete.
fn report_open_line<E: Reporter>(alloc: Global, open_line: Option<u64>, err: &mut E)
    ensures { ReportsOpenLine open_line (E.reports err.old) (E.reports err.new) }
{
    if let Some(line) = open_line {
        report_made(left_text(alloc, line), err);
    }
}

fn left_text(alloc: Global, line: u64) -> Result<String, AllocError>
    ensures { IfOk result (λ text. string_bytes text ≡ left_message line) }
{
    format!(in alloc;
        "initd: the happening at trace line {line} is incomplete; judged up to the line before it\n"
    )
}

/// Reports that the happening at a line of a trace is incomplete, with the verdict on the part before it, and returns
/// the exit status.
fn report_unfinished<E: Reporter>(alloc: Global, line: u64, finding: &Finding, err: &mut E) -> u8
    ensures status { result ≡ REFUSED }
    ensures reported { ReportsText (unfinished_message line (verdict_of finding.now))
        (E.reports err.old) (E.reports err.new) }
{
    report_made(unfinished_text(alloc, line, finding), err);
    REFUSED
}

fn unfinished_text(alloc: Global, line: u64, finding: &Finding) -> Result<String, AllocError>
    ensures { IfOk result (λ text.
        string_bytes text ≡ unfinished_message line (verdict_of finding.now)) }
{
    let verdict = verdict_of(alloc, finding)?;
    let verdict = verdict.as_str();
    format!(in alloc;
        "initd: the happening at trace line {line} is incomplete; use --growing to judge what comes before it: {verdict}"
    )
}

/// Reports that no happening begins at a line of a trace, and returns the exit status.
fn report_torn<E: Reporter>(alloc: Global, number: u64, err: &mut E) -> u8
    ensures status { result ≡ REFUSED }
    ensures reported { ReportsText (torn_message number) (E.reports err.old) (E.reports err.new) }
{
    report_made(
        format!(in alloc; "initd: trace line {number} is not a happening\n"),
        err,
    );
    REFUSED
}
