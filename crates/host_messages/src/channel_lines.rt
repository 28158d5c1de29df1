//! Messages about the channel of requests.

use host_lines::Power;
use initctl_frame::Cause;
use program_io::REQUEST;

/// Reports that the channel has bytes before it is first read, and whether they are read or skipped.
pub(crate) fn tell_old(rt: &impl Eprint, path: &str, length: u64, fresh: bool) {
    let requests = length / REQUEST as u64;
    let over = length % REQUEST as u64;
    let (s, they) = match requests {
        1 => ("", "is"),
        _ => ("s", "are"),
    };
    let fate = if fresh {
        "skipped because of --fresh"
    } else {
        "carried out; use --fresh to skip old requests"
    };
    let _ = match (requests, over) {
        (0, _) => eprintln!(rt;
            "initd: {path} already holds {over} bytes of an incomplete request, which the next request would continue; remove the file to start without them"
        ),
        (_, 0) => eprintln!(rt;
            "initd: {path} already holds {requests} request{s}, which {they} {fate}"
        ),
        _ => eprintln!(rt;
            "initd: {path} already holds {requests} request{s} (and {over} bytes of another), which {they} {fate}"
        ),
    };
}

/// Reports that the channel is another file than before, or shorter than the part already read.
pub(crate) fn tell_made_anew(rt: &impl Eprint, path: &str) {
    let _ = eprintln!(rt; "initd: {path} was replaced or truncated; reading it from the start");
}

/// Reports that the channel, or its bell, has a new owner, or an owner other than init's user, and what that user can
/// do.
pub(crate) fn tell_other_owner(
    rt: &impl Eprint,
    path: &str,
    before: u32,
    owner: u32,
    power: Power,
) {
    let power = match power {
        Power::Ask => "request runlevels",
        Power::Wake => "wake init",
    };
    let _ = eprintln!(rt;
        "initd: {path} belongs to user {owner}, not {before}, so whoever can write to it can {power}; if that is not intended, remove it"
    );
}

/// Reports that the channel was written to without growing.
pub(crate) fn tell_written_over(rt: &impl Eprint, path: &str) {
    let _ = eprintln!(rt;
        "initd: {path} was overwritten in place, and the new bytes are not read; append requests, as telinit does"
    );
}

/// Reports that the channel ends with this many bytes that are not a whole request.
pub(crate) fn tell_torn(rt: &impl Eprint, path: &str, over: u64) {
    let _ = eprintln!(rt;
        "initd: {path} ends with {over} bytes of an incomplete request, so later requests will be misread; run truncate -s /384 {path}, or remove it"
    );
}

/// Reports that the channel ends with a whole request again, after it was reported that it did not.
pub(crate) fn tell_whole(rt: &impl Eprint, path: &str) {
    let _ = eprintln!(rt; "initd: {path} ends with a complete request again");
}

/// Reports why init ignores the channel's request of this number, counted from 1.
pub(crate) fn tell_passed_over(rt: &impl Eprint, path: &str, number: u64, cause: Cause) {
    let why = cause_text(cause);
    let _ = eprintln!(rt; "initd: {path}: request {number} {why}: skipped");
}

/// Reports that further ignored requests will not be reported.
pub(crate) fn tell_more_passed_over(rt: &impl Eprint, path: &str) {
    let _ = eprintln!(rt; "initd: {path}: further bad requests are not reported");
}

/// Returns the reason why a request is ignored (initreq.h).
fn cause_text(cause: Cause) -> &'static str {
    match cause {
        Cause::Magic => "has no magic number",
        Cause::Unknown => "has an unknown command",
        Cause::LeftOut => "has a command that init does not support",
        Cause::Character => "has an invalid runlevel character",
    }
}
