//! Messages about operations that fail and later work again.

use host_lines::Doing;
use program_io::Reason;
use std::io::{Error, ErrorKind};

/// Reports that the operation failed on the file or other object of this name, and why.
pub(crate) fn tell_failure(
    rt: &impl Eprint,
    program: &'static str,
    doing: Doing,
    what: &str,
    error: &Error,
) {
    let to_do = match doing {
        Doing::Hear => "listen to",
        Doing::Read => "read",
        Doing::Write => "write",
        Doing::Carry => "write and read back",
        Doing::SendTerm => "send TERM to",
        Doing::Watch => "watch",
    };
    let _ = eprintln!(rt; "{program}: cannot {to_do} {what}: {}", Reason(error));
}

/// Reports that the operation works again.
pub(crate) fn tell_over(rt: &impl Eprint, program: &'static str, doing: Doing, what: &str) {
    let done = match doing {
        Doing::Hear => "listened to",
        Doing::Read => "read",
        Doing::Write => "written",
        Doing::Carry => "written and read back",
        Doing::SendTerm => "sent TERM",
        Doing::Watch => "watched",
    };
    let _ = eprintln!(rt; "{program}: {what}: can be {done} again");
}

/// Reports why init cannot send TERM to any child, and what to do if a program is missing.
pub(crate) fn tell_unsendable(
    rt: &impl Eprint,
    program: &'static str,
    groups: bool,
    error: &Error,
) {
    let setsid = if groups { ", setsid" } else { "" };
    let reason = Reason(error);
    let _ = match error.kind() {
        ErrorKind::NotFound => eprintln!(rt;
            "{program}: cannot send TERM to any child: {reason}; use a PATH that contains sh{setsid} and kill"
        ),
        _ => eprintln!(rt; "{program}: cannot send TERM to any child: {reason}"),
    };
}

/// Reports that the starts of further ids are not counted.
pub(crate) fn tell_uncounted(rt: &impl Eprint, program: &'static str) {
    let _ = eprintln!(rt; "{program}: out of memory: the starts of further ids are not counted");
}

/// Reports that the text of init's state was truncated when it was read back.
pub(crate) fn tell_cut(rt: &impl Eprint, length: u64) {
    let _ = eprintln!(rt;
        "initd: the saved state was read back incomplete, {length} bytes long; init continues with its current state"
    );
}

/// Reports that the text of init's state that was read back belongs to another generation.
pub(crate) fn tell_older(rt: &impl Eprint, generation: u64) {
    let _ = eprintln!(rt;
        "initd: the saved state that was read back has generation {generation}; give each init its own --state file"
    );
}
