//! A dry run: prints the commands instead of running them.

ghost use Rattle.std.specs.Prelude.{◌≡◌, None, IfSome, IfErr, OnOk};
ghost use Rattle.std.specs.Io.KnownBytes.{Appends};
ghost use Rattle.rc_driver.specs.Printing.{PrintStops, Printed, PrintsLinks, command_line};

use crate::driving::RunEnd;
use crate::runs::{Arg, Rc, RcAnswer, RcStep, ScriptOptions};
use crate::writing::{command_of, tell_text};
use std::alloc::Allocator;
use std::io::Write;

/// Writes the command that would start the next script. Returns how the run ended, if it did.
fn print_next<'n, A: Allocator + Copy, B: Allocator, W: Write>(
    alloc: A,
    rc: &mut Rc<'n, B>,
    way: ScriptOptions,
    dir: &str,
    out: &mut W,
) -> Option<RunEnd<'n>>
    ensures last { IfSome result (λ ended. PrintsLinks way dir.now rc.old (W.contents out.old) ended
        rc.new (W.contents out.new)) }
    ensures one { result ≡ None →
        Printed way dir.now rc.old (W.contents out.old) rc.new (W.contents out.new) }
{
    match rc.next() {
        RcStep::Run(link, arg) => {
            match print_link(alloc, way, dir, link, arg, out) {
                Ok(()) => {
                    let Ok(()) = rc.answer(RcAnswer::NotStarted) else {
                        unreachable!()
                    };
                    None
                }
                Err(ended) => Some(ended),
            }
        }
        RcStep::Waiting => Some(RunEnd::Waiting),
        RcStep::Done => Some(RunEnd::Done),
    }
}

/// Writes the command that would start a script, as a line.
#[tactic(auto, using(crate::proofs::PrintLemmas::line_stopped, crate::proofs::PrintLemmas::line_written))]
fn print_link<A: Allocator + Copy, W: Write>(
    alloc: A,
    way: ScriptOptions,
    dir: &str,
    link: &str,
    arg: Arg,
    out: &mut W,
) -> Result<(), RunEnd<'static>>
    ensures ok { OnOk result (Appends (W.contents out.old) (W.contents out.new)
        (command_line way dir.now (link.now, arg))) }
    ensures err { IfErr result (λ ended. PrintStops ended way dir.now (link.now, arg)
        (W.contents out.old) (W.contents out.new)) }
{
    let Ok(command) = command_of(alloc, way, dir, link, arg) else {
        return Err(RunEnd::Memory);
    };
    tell_text(out, command.as_str())
}

/// Writes the command that would start each of the remaining scripts, one per line, without running any. It needs no
/// host. It takes each script from `rc`, and answers that it was not started.
pub fn print_links<'n, A: Allocator + Copy, B: Allocator, W: Write>(
    alloc: A,
    rc: &mut Rc<'n, B>,
    way: ScriptOptions,
    dir: &str,
    out: &mut W,
) -> RunEnd<'n>
    ensures { PrintsLinks way dir.now rc.old (W.contents out.old) result rc.new
        (W.contents out.new) }
{
    loop {
        if let Some(ended) = print_next(alloc, rc, way, dir, out) {
            return ended;
        }
    }
}
