//! `rclinks FILE..`: prints the links in the runlevels' folders for init scripts, with the least numbers that their
//! headers allow (LSB Core 5.0), or creates them in a directory.
#![tactic(auto)]

use program_io::{Reports, StandardFiles, report_unread_words, words};
use rclinks_command::{MANUAL, SystemFolders, run_words};
use std::alloc::Global;
use std::fs::{read_dir, read_link};
use std::io;
use std::process::ExitCode;

/// The folder of the facility files, relative to the program's folder.
const FACILITIES: &str = "share/initd/facilities";

/// Returns the paths of the facility files that are installed with the program, in byte order of their names. There are
/// none if it is not installed.
fn facilities(rt: &HostRuntime, alloc: Global) -> io::Result<Vec<String>> {
    let mut files = Vec::new(alloc);
    let program = read_link(rt, "/proc/self/exe")?;
    let Some((prefix, _)) = program.as_path().as_str().rsplit_once("/bin/") else {
        return Ok(files);
    };
    let folder = format!(in alloc; "{prefix}/{FACILITIES}")?;
    for entry in read_dir(rt, folder.as_str())? {
        files.push(String::from_str(alloc, entry?.path().as_str())?)?;
    }
    files.sort()?;
    Ok(files)
}

fn main(rt: HostRuntime) -> ExitCode {
    let _standard = StandardFiles::hold(&rt);
    let mut err = Reports::to(rt.stderr());
    let alloc = rt.alloc();
    let mut folders = SystemFolders::new(rt, rt);
    let status = match words(&rt, alloc) {
        Ok(words) => {
            let facilities = facilities(&rt, alloc).unwrap_or(Vec::new(alloc));
            run_words(
                &rt,
                &mut folders,
                alloc,
                facilities.as_slice(),
                words.as_slice(),
                &mut rt.stdout(),
                &mut err,
            )
        }
        Err(error) => report_unread_words("rclinks", MANUAL, &error, &mut err),
    };
    ExitCode::from(status)
}
