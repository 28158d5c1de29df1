//! A record of calls that only proofs can read, and the types that add a call with its answer to it, one for each kind
//! of call.

ghost use Rattle.std.specs.Prelude.{◌≡◌, ◌∷◌, []};

use host_calls::{Call, HostFault, Reply};
use init_words::{Answer, Id, Part, SignalKind};
use program_io::{Noted, Reads};
use std::alloc::Allocator;
use std::marker::{Model, PhantomData};
use trace_events::HappeningIn;

/// A list of calls, newest first. It only serves as the type of a `Noted` value; no list is ever created.
pub struct CallList {
    calls: Vec<Call>,
}

impl Model for CallList {
    ghost use Rattle.std.specs.Prelude.{List};
    ghost use Rattle.host_calls.specs.Calls.{HostCall};

    ghost Value = { List HostCall };

    ghost view = { λ list. list.calls.items };
}

/// Creates the empty list of calls.
struct Empty;

impl Reads<(), CallList> for Empty {
    ghost use Rattle.std.specs.Prelude.{[]};

    ghost value = { λ _. [] };
}

/// Creates a record of no calls.
pub fn no_calls() -> Noted<CallList>
    ensures { result.value ≡ [] }
{
    Noted::of::<(), Empty>(&())
}

/// Adds a call to the list; `M` derives the call from its arguments and its answer.
struct ByCall<M> {
    marker: PhantomData<M>,
}

impl<'a, X, M: Reads<X, Call>> Reads<(&'a Noted<CallList>, X), CallList> for ByCall<M> {
    ghost use Rattle.std.specs.Prelude.{◌∷◌};

    ghost value = { λ added. M.value added.1 ∷ added.0.now.value };
}

/// Returns the record with one more call: its arguments and its answer.
pub fn and_call<X: Copy, M: Reads<X, Call>>(before: &Noted<CallList>, call: X) -> Noted<CallList>
    ensures { result.value ≡ M.value call ∷ before.now.value }
{
    Noted::of::<(&Noted<CallList>, X), ByCall<M>>(&(before, call))
}

/// Derives the recorded call for a start.
pub struct Start;

impl<'a> Reads<(&'a Id, &'a [u8], &'a Reply), Call> for Start {
    ghost use Rattle.host_calls.specs.declared.calls.Call.TheVariants.{Start};

    ghost value = { λ made. Start made.0.now made.1.now made.2.now };
}

/// Derives the recorded call for a look.
pub struct Look;

impl<'a> Reads<(&'a Id, &'a Reply), Call> for Look {
    ghost use Rattle.host_calls.specs.declared.calls.Call.TheVariants.{Look};

    ghost value = { λ made. Look made.0.now made.1.now };
}

/// Derives the recorded call for a signal.
pub struct Signal;

impl<'a> Reads<(&'a Id, SignalKind, &'a Reply), Call> for Signal {
    ghost use Rattle.host_calls.specs.declared.calls.Call.TheVariants.{Signal};

    ghost value = { λ made. Signal made.0.now made.1 made.2.now };
}

/// Derives the recorded call for a late answer.
pub struct Late;

impl<'a> Reads<&'a Option<(Id, Answer)>, Call> for Late {
    ghost use Rattle.host_calls.specs.declared.calls.Call.TheVariants.{Late};

    ghost value = { λ made. Late made.now };
}

/// Derives the recorded call for a reading of the clock.
pub struct Clock;

impl Reads<Result<u64, HostFault>, Call> for Clock {
    ghost use Rattle.host_calls.specs.declared.calls.Call.TheVariants.{Clock};

    ghost value = { λ made. Clock made };
}

/// Derives the recorded call for bytes that were read into the front of a buffer.
pub struct TakeBytes;

impl<'a> Reads<(&'a [u8], Result<usize, HostFault>), Call> for TakeBytes {
    ghost use Rattle.std.specs.Prelude.{length};
    ghost use Rattle.host_calls.specs.Calls.{front_read};
    ghost use Rattle.host_calls.specs.declared.calls.Call.TheVariants.{TakeBytes};

    ghost value = { λ made. TakeBytes (length made.0.now) (front_read made.1 made.0.now) };
}

/// Derives the recorded call for a reading of the inittab's files.
pub struct ReadTables;

impl<'a, A: Allocator> Reads<&'a Result<Vec<Part<A>, A>, HostFault>, Call> for ReadTables {
    ghost use Rattle.host_calls.specs.Calls.{parts_read};
    ghost use Rattle.host_calls.specs.declared.calls.Call.TheVariants.{ReadTables};

    ghost value = { λ made. ReadTables (parts_read (λ parts. parts.items) made.now) };
}

/// Derives the recorded call for a text that was carried and read back.
pub struct Carry;

impl<'a, A: Allocator> Reads<(&'a [u8], &'a Result<Vec<u8, A>, HostFault>), Call> for Carry {
    ghost use Rattle.host_calls.specs.Calls.{text_read};
    ghost use Rattle.host_calls.specs.declared.calls.Call.TheVariants.{Carry};

    ghost value = { λ made. Carry made.0.now (text_read (λ back. back.items) made.1.now) };
}

/// Derives the recorded call for the announcement of a happening.
pub struct Announce;

impl<'a, A: Allocator> Reads<&'a HappeningIn<A>, Call> for Announce {
    ghost use Rattle.host_calls.specs.declared.calls.Call.TheVariants.{Announce};

    ghost value = { λ made. Announce made.now };
}

/// Derives the recorded call for a pause.
pub struct Pause;

impl Reads<(), Call> for Pause {
    ghost use Rattle.host_calls.specs.declared.calls.Call.TheVariants.{Pause};

    ghost value = { λ _. Pause };
}
