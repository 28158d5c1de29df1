//! A record, visible only in proofs, of the calls to a host and the state of the log at each of them.

ghost use Rattle.std.specs.Prelude.{◌≡◌};
ghost use Rattle.supervisor.specs.Edges.{first_told, newest_told};

use host_calls::Host;
use program_io::{Noted, Reads};
use std::marker::{Model, PhantomData};

/// The calls that an edge records, each with the log at that moment, newest first. This type serves only as the type
/// of a note; no value of it exists.
pub struct StampedCalls<L> {
    marker: PhantomData<L>,
}

impl<L> Model for StampedCalls<L> {
    ghost use Rattle.std.specs.Prelude.{List, Option, None};
    ghost use Rattle.supervisor.specs.Edges.{Made};

    ghost Value = { Option (List (Made L)) };

    ghost view = { λ _. None };
}

/// Marks the note of the calls that a host has already recorded, stamped with the log in its current state.
struct Before;

impl<'a, H: Host, L> Reads<(&'a H, &'a L), StampedCalls<L>> for Before {
    ghost use Rattle.supervisor.specs.Edges.{first_told};

    ghost value = { λ both. first_told (H.told both.0.now) both.1.now };
}

/// Returns the record of the calls that a host has already recorded, stamped with the log in its current state.
pub(crate) fn calls_until<H: Host, L>(host: &H, log: &L) -> Noted<StampedCalls<L>>
    ensures { result.value ≡ first_told (H.told host.now) log.now }
{
    Noted::of::<(&H, &L), Before>(&(host, log))
}

/// Marks the note of a record to which the host's newest call was added.
struct ByCall;

impl<'a, H: Host, L> Reads<(&'a Noted<StampedCalls<L>>, &'a H, &'a L), StampedCalls<L>> for ByCall {
    ghost use Rattle.supervisor.specs.Edges.{newest_told};

    ghost value = { λ added. newest_told (H.told added.1.now) added.2.now added.0.now.value };
}

/// Returns the record with the host's newest call added, stamped with the log in its current state.
pub(crate) fn and_call<H: Host, L>(
    before: &Noted<StampedCalls<L>>,
    host: &H,
    log: &L,
) -> Noted<StampedCalls<L>>
    ensures { result.value ≡ newest_told (H.told host.now) log.now before.now.value }
{
    Noted::of::<(&Noted<StampedCalls<L>>, &H, &L), ByCall>(&(before, host, log))
}
