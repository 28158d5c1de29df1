//! Reads the input of a turn: the clock, requests, and late answers.

ghost use Rattle.std.specs.Prelude.{◌≡◌, ◌<◌, ◌≤◌, ◌+◌, ◌∷◌, [], ℕ, IsTrue, true, false, length, take, Ok};
ghost use Rattle.supervisor.specs.Words.{is_request, TakeBytes, BYTE_LIMIT, LATE_LIMIT, PIECE, come, is_last, ExtendsLogFromCore, ExtendsLogFromReader, TracksPoint, Counted, Hears, CallsLead, Tracks, are_late_answers, are_byte_readings, is_room};
ghost use Rattle.trace_events.specs.declared.happenings.Happening.TheVariants as happening;
ghost use Rattle.supervisor.specs.Parts.{IsLateCall, IsReading, IsBytesCall, MadeCallsLead};

use crate::answering::hear_answer;
use crate::edges::Edge;
use crate::{BYTE_LIMIT, LATE_LIMIT, PIECE};
use host_calls::Host;
use init_words::{Answer, Id};
use initctl_frame::{Blocks, HeardRequest};
use level_core::Core;
use std::alloc::Allocator;
use trace_events::Happening;
use trace_log::Log;

/// Reads the clock. Ignores a failure.
pub(crate) fn hear_clock<A: Allocator, H: Host, L: Log>(core: &mut Core<A>, edge: &mut Edge<H, L>)
    ensures makes { MadeCallsLead L.state edge.old edge.new IsReading
        (Tracks core.old) (λ goal p. Tracks core.new goal p × Counted 0 goal p) }
    ensures grows { ExtendsLogFromCore core.old core.new (L.state edge.old.log)
        (L.state edge.new.log) }
    ensures settings { H.settings edge.new.host ≡ H.settings edge.old.host }
{
    if let Ok(reading) = edge.clock() {
        core.clock(reading);
        edge.note(Happening::Clock(reading));
    }
}

/// Passes a request to the core, and writes it to the log.
fn hear_request<A: Allocator, H: Host, L: Log>(
    core: &mut Core<A>,
    edge: &mut Edge<H, L>,
    request: HeardRequest,
)
    ensures told { edge.new.told ≡ edge.old.told }
    ensures hears { IsTrue (is_request request)
        → Hears (Tracks core.old) (Tracks core.new)
        (L.state edge.old.log) (L.state edge.new.log) (λ past. happening.Got request ∷ past) }
    ensures grows { IsTrue (is_request request)
        → ExtendsLogFromCore core.old core.new (L.state edge.old.log) (L.state edge.new.log) }
    ensures settings { H.settings edge.new.host ≡ H.settings edge.old.host }
{
    core.got(request);
    edge.note(Happening::Got(request));
}

/// Reads bytes up to the end of the current block, or all of them, and returns how many. If this completes the block,
/// handles its request.
fn hear_front<A: Allocator, H: Host, L: Log>(
    core: &mut Core<A>,
    edge: &mut Edge<H, L>,
    blocks: &mut Blocks,
    bytes: &[u8],
) -> usize
    requires { 0 < length bytes.now }
    ensures progress { 0 < result }
    ensures within { result ≤ length bytes.now }
    ensures told { edge.new.told ≡ edge.old.told }
    ensures leads { (room : ℕ)
        → CallsLead (TracksPoint core.old blocks.old) (TracksPoint core.new blocks.new)
        (L.state edge.old.log) (L.state edge.new.log)
        (TakeBytes room (Ok (take result bytes.now)) ∷ []) }
    ensures grows { ExtendsLogFromReader core.old core.new blocks.old blocks.new
        (L.state edge.old.log) (L.state edge.new.log) }
    ensures settings { H.settings edge.new.host ≡ H.settings edge.old.host }
{
    let (count, request) = blocks.feed(bytes);
    if let Some(request) = request {
        hear_request(core, edge, request);
    }
    count
}

/// Reads all these bytes, and handles the requests of the blocks that they complete.
fn hear_bytes<A: Allocator, H: Host, L: Log>(
    core: &mut Core<A>,
    edge: &mut Edge<H, L>,
    blocks: &mut Blocks,
    bytes: &[u8],
)
    ensures told { edge.new.told ≡ edge.old.told }
    ensures leads { (room : ℕ)
        → CallsLead (TracksPoint core.old blocks.old) (TracksPoint core.new blocks.new)
        (L.state edge.old.log) (L.state edge.new.log) (TakeBytes room (Ok bytes.now) ∷ []) }
    ensures grows { ExtendsLogFromReader core.old core.new blocks.old blocks.new
        (L.state edge.old.log) (L.state edge.new.log) }
    ensures settings { H.settings edge.new.host ≡ H.settings edge.old.host }
{
    let mut rest = bytes;
    while !rest.is_empty() {
        let count = hear_front(core, edge, blocks, rest);
        rest = &rest[count..];
    }
}

/// Gets bytes of requests from the host, handles them, and returns how many; 0 if the call failed.
fn take_into<A: Allocator, H: Host, L: Log>(
    core: &mut Core<A>,
    edge: &mut Edge<H, L>,
    blocks: &mut Blocks,
    taken: usize,
    buffer: &mut [u8],
) -> usize
    requires { is_room (length buffer.old) taken ≡ true }
    ensures within { result ≤ length buffer.old }
    ensures takes { MadeCallsLead L.state edge.old edge.new
        (IsBytesCall taken result) (TracksPoint core.old blocks.old)
        (TracksPoint core.new blocks.new) }
    ensures grows { ExtendsLogFromReader core.old core.new blocks.old blocks.new
        (L.state edge.old.log) (L.state edge.new.log) }
    ensures settings { H.settings edge.new.host ≡ H.settings edge.old.host }
{
    let Ok(count) = edge.take_bytes(buffer) else {
        return 0;
    };
    hear_bytes(core, edge, blocks, &buffer[..count]);
    count
}

/// Returns the maximum size of the next piece, given the number of bytes that the turn has read.
fn room_for(taken: usize) -> usize
    requires { taken < BYTE_LIMIT }
    ensures room { is_room result taken ≡ true }
    ensures piece { result ≤ PIECE }
    ensures within { taken + result ≤ BYTE_LIMIT }
{
    PIECE.min(BYTE_LIMIT - taken)
}

/// Reads one piece of the bytes of requests, given the number of bytes that the turn has read, and returns its length;
/// 0 if the call failed.
fn take_piece<A: Allocator, H: Host, L: Log>(
    core: &mut Core<A>,
    edge: &mut Edge<H, L>,
    blocks: &mut Blocks,
    taken: usize,
) -> usize
    requires { taken < BYTE_LIMIT }
    ensures within { taken + result ≤ BYTE_LIMIT }
    ensures takes { MadeCallsLead L.state edge.old edge.new
        (IsBytesCall taken result) (TracksPoint core.old blocks.old)
        (TracksPoint core.new blocks.new) }
    ensures grows { ExtendsLogFromReader core.old core.new blocks.old blocks.new
        (L.state edge.old.log) (L.state edge.new.log) }
    ensures settings { H.settings edge.new.host ≡ H.settings edge.old.host }
{
    let mut buffer = [0; PIECE];
    let room = room_for(taken);
    take_into(core, edge, blocks, taken, &mut buffer[..room])
}

/// Reads the bytes of requests until there are none or the turn reaches its limit.
pub(crate) fn hear_requests<A: Allocator, H: Host, L: Log>(
    core: &mut Core<A>,
    edge: &mut Edge<H, L>,
    blocks: &mut Blocks,
)
    ensures makes { MadeCallsLead L.state edge.old edge.new
        (λ calls. are_byte_readings calls ≡ true) (TracksPoint core.old blocks.old)
        (TracksPoint core.new blocks.new) }
    ensures grows { ExtendsLogFromReader core.old core.new blocks.old blocks.new
        (L.state edge.old.log) (L.state edge.new.log) }
    ensures settings { H.settings edge.new.host ≡ H.settings edge.old.host }
{
    let mut taken = 0;
    while taken < BYTE_LIMIT {
        let count = take_piece(core, edge, blocks, taken);
        if count == 0 {
            return;
        }
        taken += count;
    }
}

/// Begins a round, so a look at each child becomes due.
fn nudge<A: Allocator, H: Host, L: Log>(core: &mut Core<A>, edge: &mut Edge<H, L>)
    ensures hears { Hears (Tracks core.old) (Tracks core.new)
        (L.state edge.old.log) (L.state edge.new.log) (λ past. happening.Nudge ∷ past) }
    ensures told { edge.new.told ≡ edge.old.told }
    ensures grows { ExtendsLogFromCore core.old core.new (L.state edge.old.log)
        (L.state edge.new.log) }
    ensures settings { H.settings edge.new.host ≡ H.settings edge.old.host }
{
    core.nudge();
    edge.note(Happening::Nudge);
}

/// Handles a late answer, if there is one.
fn hear_come<A: Allocator, H: Host, L: Log>(
    core: &mut Core<A>,
    edge: &mut Edge<H, L>,
    late: &Option<(Id, Answer)>,
)
    ensures hears { Hears (Tracks core.old) (Tracks core.new)
        (L.state edge.old.log) (L.state edge.new.log) (come late.now) }
    ensures told { edge.new.told ≡ edge.old.told }
    ensures grows { ExtendsLogFromCore core.old core.new (L.state edge.old.log)
        (L.state edge.new.log) }
    ensures settings { H.settings edge.new.host ≡ H.settings edge.old.host }
{
    if let Some(late) = late {
        hear_answer(core, edge, late.0, late.1);
    }
}

/// Returns whether the turn asks for no more late answers, after `asked` earlier calls.
fn is_last(late: &Option<(Id, Answer)>, asked: usize) -> bool
    requires { asked < LATE_LIMIT }
    ensures { result ≡ is_last late.now asked }
{
    late.is_none() || asked + 1 == LATE_LIMIT
}

/// Asks for a late answer, after `asked` earlier calls in this turn. Begins the round after the last call, and
/// returns whether this was the last.
fn hear_late<A: Allocator, H: Host, L: Log>(
    core: &mut Core<A>,
    edge: &mut Edge<H, L>,
    asked: usize,
) -> bool
    requires { asked < LATE_LIMIT }
    ensures more { result ≡ false → asked + 1 < LATE_LIMIT }
    ensures lates { MadeCallsLead L.state edge.old edge.new
        (IsLateCall asked result) (λ goal p. Tracks core.old goal p × Counted asked goal p)
        (λ goal p. Tracks core.new goal p × Counted (asked + 1) goal p) }
    ensures grows { ExtendsLogFromCore core.old core.new (L.state edge.old.log)
        (L.state edge.new.log) }
    ensures settings { H.settings edge.new.host ≡ H.settings edge.old.host }
{
    let late = edge.late();
    let last = is_last(&late, asked);
    hear_come(core, edge, &late);
    if last {
        nudge(core, edge);
    }
    last
}

/// Handles the late answers, and then begins the round.
pub(crate) fn hear_lates<A: Allocator, H: Host, L: Log>(core: &mut Core<A>, edge: &mut Edge<H, L>)
    ensures makes { MadeCallsLead L.state edge.old edge.new
        (λ calls. are_late_answers calls ≡ true)
        (λ goal p. Tracks core.old goal p × Counted 0 goal p) (Tracks core.new) }
    ensures grows { ExtendsLogFromCore core.old core.new (L.state edge.old.log)
        (L.state edge.new.log) }
    ensures settings { H.settings edge.new.host ≡ H.settings edge.old.host }
{
    let mut asked = 0;
    while !hear_late(core, edge, asked) {
        asked += 1;
    }
}
