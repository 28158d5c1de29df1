//! `initd`: runs init(8) over the operating system, or over a script of what a system did, and judges the traces of
//! both.
#![tactic(auto)]

use initd_command::{OsHosts, SHORT_USAGE, run_on_system};
use program_io::{Reports, StandardFiles, report_unread_words, words};
use std::process::ExitCode;
use trace_files::OsTraces;

fn main(rt: HostRuntime) -> ExitCode {
    let _standard = StandardFiles::hold(&rt);
    let mut err = Reports::to(rt.stderr());
    let status = match words(&rt, rt.alloc()) {
        Ok(words) => run_on_system(
            &rt,
            &rt,
            &mut OsHosts::new(rt),
            &mut OsTraces::new(&rt, rt.alloc()),
            rt.alloc(),
            words,
            &mut rt.stdout(),
            &mut err,
        ),
        Err(error) => report_unread_words("initd", SHORT_USAGE, &error, &mut err),
    };
    ExitCode::from(status)
}
