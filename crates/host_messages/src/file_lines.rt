//! Messages about files: the bell, a child's log, and the files in the inittab's folder.

use crate::names::escape;
use init_words::Id;
use program_io::Reason;
use std::io::Error;

/// Reports why there is no bell.
pub(crate) fn tell_no_bell(rt: &impl Eprint, path: &str, error: &Error) {
    let _ = eprintln!(rt; "initd: cannot create {path}: {}", Reason(error));
}

/// Reports why the id's child is started without its log.
pub(crate) fn tell_no_log(rt: &impl Eprint, id: &Id, log: &str, error: &Error) {
    let id = id.as_str();
    let _ = eprintln!(rt;
        "initd: {id}: cannot open {log}: {}; started without a log",
        Reason(error)
    );
}

/// Reports which file is the log of an id that cannot be used as a file name.
pub(crate) fn tell_log(rt: &impl Eprint, id: &Id, log: &str) {
    let id = id.as_str();
    let _ = eprintln!(rt; "initd: {id}: logging to {log}");
}

/// Reports that a file in the inittab's folder is ignored. Nothing is reported about `.` and `..`.
pub fn tell_passed(rt: &impl Eprint, folder: &str, name: &[u8]) {
    if matches!(name, b"" | b"." | b"..") {
        return;
    }
    let name = escape(name);
    let _ = eprintln!(rt;
        "initd: {folder}/{name}: skipped: the file name must end with .tab, consist of A-Z a-z \
         0-9 . _ -, and not begin with a dot"
    );
}
