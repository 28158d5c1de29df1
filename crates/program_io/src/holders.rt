//! Finds the process that holds the lock of a file, if the system reports it.

use crate::files::read_file;
use std::alloc::Allocator;
use std::os::unix::fs::MetadataExt;
use std::rt::Files;
use std::{fs, str};

/// The file in which Linux lists file locks (proc_locks(5)).
const LOCKS: &str = "/proc/locks";

/// Returns the name and number of the process that holds the lock of the file at the path: `initd run 4711`, `flock
/// 4712`, or `process 4713` if the name is not a word.
///
/// Returns `None` if the system does not report the process, for example because it runs in another container.
pub fn lock_holder<R: Files, A: Allocator + Copy>(
    rt: &R,
    alloc: A,
    path: &str,
) -> Option<String<A>> {
    let found = fs::metadata(rt, path).ok()?;
    let (major, minor) = device_of(found.dev());
    let file = format!(in alloc; "{major:02x}:{minor:02x}:{}", found.ino()).ok()?;
    let locks = read_file(rt, alloc, LOCKS).ok()?;
    let lines = str::from_utf8(&locks).ok()?.lines();
    for line in lines {
        if let Some(number) = holder_in(line, file.as_str()) {
            return named(rt, alloc, number);
        }
    }
    None
}

/// Returns the name of the process with this number, followed by the number.
fn named<R: Files, A: Allocator + Copy>(rt: &R, alloc: A, number: u32) -> Option<String<A>> {
    let path = format!(in alloc; "/proc/{number}/comm").ok()?;
    match read_file(rt, alloc, path.as_str()) {
        Ok(text) => {
            let name = name_in(&text);
            format!(in alloc; "{name} {number}").ok()
        }
        Err(_) => format!(in alloc; "process {number}").ok(),
    }
}

/// Returns the name to report for a process whose `comm` file has this text: `initd run` for `initd`, and `process` if
/// it is not one word of printable ASCII characters.
fn name_in(text: &[u8]) -> &str {
    let name = text.trim_ascii_end();
    if name == b"initd".as_slice() {
        return "initd run";
    }
    if name.is_empty() || !name.iter().all(|byte| byte.is_ascii_graphic()) {
        return "process";
    }
    str::from_utf8(name).unwrap_or("process")
}

/// Returns the major and minor numbers of a device.
fn device_of(device: u64) -> (u64, u64) {
    let major = device >> 8 & 0xfff;
    let minor = device & 0xff | device >> 12 & 0xf_ff00;
    (major, minor)
}

/// Returns the process in a line of the list, such as `1: FLOCK  ADVISORY  WRITE 4711 08:01:1234 0 EOF`, if it holds a
/// lock of the file.
fn holder_in(line: &str, file: &str) -> Option<u32> {
    let mut words = line.split_whitespace();
    let kind = words.nth(1)?;
    let number = words.nth(2)?;
    let is_of_file = kind == "FLOCK" && words.next() == Some(file);
    let holder = number.parse().ok()?;
    if is_of_file && holder > 0 {
        Some(holder)
    } else {
        None
    }
}
