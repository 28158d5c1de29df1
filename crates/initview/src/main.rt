//! `initview`: reads the trace of an init and reports why an entry is not started, the state of all entries, and which
//! children are left.
#![tactic(auto)]

use initview_command::{GrowingFiles, Printed, USAGE, run_words};
use program_io::{Reports, StandardFiles, report_unread_words, words};
use std::process::ExitCode;
use trace_pieces::PiecedFiles;

fn main(rt: HostRuntime) -> ExitCode {
    let _standard = StandardFiles::hold(&rt);
    let mut err = Reports::to(rt.stderr());
    let alloc = rt.alloc();
    let status = match words(&rt, alloc) {
        Ok(words) => {
            run_words(
                &PiecedFiles::new(&rt, alloc, "initview", true),
                &GrowingFiles::new(&rt),
                alloc,
                words.as_slice(),
                &mut Printed::on(&rt, rt.stdout()),
                &mut err,
            )
        }
        Err(error) => report_unread_words("initview", USAGE, &error, &mut err),
    };
    ExitCode::from(status)
}
