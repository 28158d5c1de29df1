//! `telinit [-t SEC] [-d DIR] [--initctl P] CHAR`: requests a runlevel, an ondemand letter, a new reading of inittab or
//! a re-execution from init, by appending one request block to the channel file (telinit(8), initreq.h).
#![tactic(auto)]

use program_io::{Reports, StandardFiles, report_unread_words, words};
use std::env;
use std::process::ExitCode;
use telinit_command::{MANUAL, OsChannels, run_words};

fn main(rt: HostRuntime) -> ExitCode {
    let _standard = StandardFiles::hold(&rt);
    let mut err = Reports::to(rt.stderr());
    let status = match words(&rt, rt.alloc()) {
        Ok(words) => {
            let mut channels = OsChannels::new(&rt, rt.alloc());
            let home = env::var(&rt, "INITD_DIR").unwrap_or(String::new(rt.alloc()));
            run_words(
                &mut channels,
                rt.alloc(),
                home.as_str(),
                words,
                &mut rt.stdout(),
                &mut err,
            )
        }
        Err(error) => report_unread_words("telinit", MANUAL, &error, &mut err),
    };
    ExitCode::from(status)
}
