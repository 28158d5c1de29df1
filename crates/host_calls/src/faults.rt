//! Recognizes the answers that report a fault, and counts faults.

ghost use Rattle.std.specs.Prelude.{◌≡◌};
ghost use Rattle.host_calls.specs.Calls.{FaultIsCounted, counted, is_failed_answer, is_failed_reply, is_failed_late};

use crate::calls::Reply;
use init_words::{Answer, Id};

/// Returns whether the answer reports a fault.
fn is_failed_answer(answer: &Answer) -> bool
    ensures { result ≡ is_failed_answer answer.now }
{
    matches!(answer, Answer::NotBorn | Answer::NoLook | Answer::Miss)
}

/// Returns whether the reply reports a fault.
pub fn is_failed_reply(reply: &Reply) -> bool
    ensures { result ≡ is_failed_reply reply.now }
{
    match reply {
        Reply::Now(answer) => is_failed_answer(answer),
        Reply::Later => false,
    }
}

/// Returns whether the late answer reports a fault.
pub fn is_failed_late(late: &Option<(Id, Answer)>) -> bool
    ensures { result ≡ is_failed_late late.now }
{
    match late {
        Some(late) => is_failed_answer(&late.1),
        None => false,
    }
}

/// Returns the count of faults after a call. The count stays at its maximum.
pub fn counted(faults: u64, failed: bool) -> u64
    ensures value { result ≡ counted failed faults }
    ensures cause { FaultIsCounted faults result failed }
{
    if failed {
        faults.saturating_add(1)
    } else {
        faults
    }
}
