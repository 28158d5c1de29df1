//! `rc DIR PREV NEW`: runs the scripts of a runlevel's folder, first those that stop services and then those that start
//! them (LSB Core 5.0, System Initialization).
#![tactic(auto)]

use program_io::{Reports, StandardFiles, report_no_memory, report_unread_words, words};
use rc_command::{MANUAL, os_host, refuse_unwaited, run_on_system};
use std::process::ExitCode;

fn main(rt: HostRuntime) -> ExitCode {
    let _standard = StandardFiles::hold(&rt);
    let mut err = Reports::to(rt.stderr());
    let Ok(mut host) = os_host(rt, rt.alloc()) else {
        return ExitCode::from(report_no_memory("rc", &mut err));
    };
    let mut files = rt;
    let status = match words(&rt, rt.alloc()) {
        Ok(words) => match refuse_unwaited(&rt, rt.alloc(), words.as_slice(), &mut err) {
            Some(status) => status,
            None => run_on_system(
                &mut host,
                &rt,
                &mut files,
                rt.alloc(),
                words,
                &mut rt.stdout(),
                &mut err,
            ),
        },
        Err(error) => report_unread_words("rc", MANUAL, &error, &mut err),
    };
    drop(host);
    ExitCode::from(status)
}
