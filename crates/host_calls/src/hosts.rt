//! The host: everything that init asks of the system, call by call.

ghost use Rattle.std.specs.Prelude.{◌≡◌, ◌≤◌, ℕ, List, Option, IfOk, length, is_err, false};
ghost use Rattle.host_calls.specs.Calls.{HostCall, AddsCall, FaultIsCounted};
ghost use Rattle.host_calls.specs.Held.{HeldChildren, HeldChildrenAfter};
ghost use Rattle.host_calls.specs.Settings.{HostSettings};
ghost use Rattle.host_calls.specs.Calls.{is_failed_reply, is_failed_late, text_read, parts_read, front_read};

use crate::calls::{Call, HostFault, Reply};
use init_words::{Answer, Id, Part, SignalKind};
use std::alloc::Allocator;
use trace_events::HappeningIn;

/// Everything that init asks of the system (init(8)).
///
/// A host answers `NotBorn`, `NoLook`, `Miss` or a `HostFault` only if its count of faults increased in that call, or
/// was already at its maximum, where it stays. After a fault, no child was born, reaped or signalled by that call, and
/// the host accepts further calls.
///
/// Contracts describe a host by the calls that it records, with their answers, by the children that it holds, if those
/// are known, and by its count of faults. A host may record no calls at all; once it fails to record a call, it records
/// none from then on.
pub trait Host {
    /// The calls so far with their answers, newest first. None once the host has failed to record a call.
    ghost told: { Self → Option (List HostCall) };

    /// The children that the host holds. None if they are not known.
    ghost held: { Self → Option HeldChildren };

    /// The count of faults.
    ghost failures: { Self → ℕ };

    /// The settings of the host, which no call changes. None if they are not known.
    ghost settings: { Self → Option HostSettings };

    /// Starts a child for the id with the command of an inittab(5) entry, which is its process field without a leading
    /// `+`. The answer is `Born` with the number of the child, or `NotBorn`.
    fn start<A: Allocator + Copy>(&mut self, alloc: A, id: Id, command: &[u8]) -> Reply
        ensures adds { AddsCall (told self.old) (told self.new) (Call.Start id command.now result) }
        ensures children { HeldChildrenAfter (held self.old) (held self.new)
            (Call.Start id command.now result) }
        ensures cause { FaultIsCounted (failures self.old) (failures self.new)
            (is_failed_reply result) }
        ensures settings { settings self.new ≡ settings self.old };

    /// Looks whether the child of the id has ended, and reaps it if it has. The answer is `Ended`, `Alive` or `NoLook`.
    fn look(&mut self, id: Id) -> Reply
        ensures adds { AddsCall (told self.old) (told self.new) (Call.Look id result) }
        ensures children { HeldChildrenAfter (held self.old) (held self.new) (Call.Look id result) }
        ensures cause { FaultIsCounted (failures self.old) (failures self.new)
            (is_failed_reply result) }
        ensures settings { settings self.new ≡ settings self.old };

    /// Sends a signal to the child of the id. The answer is `Hit` or `Miss`.
    fn signal(&mut self, id: Id, signal: SignalKind) -> Reply
        ensures adds { AddsCall (told self.old) (told self.new) (Call.Signal id signal result) }
        ensures children { HeldChildrenAfter (held self.old) (held self.new)
            (Call.Signal id signal result) }
        ensures cause { FaultIsCounted (failures self.old) (failures self.new)
            (is_failed_reply result) }
        ensures settings { settings self.new ≡ settings self.old };

    /// Returns the answer to an order whose reply was `Later`, with the id of the order, or `None` if no answer has
    /// come.
    fn late(&mut self) -> Option<(Id, Answer)>
        ensures adds { AddsCall (told self.old) (told self.new) (Call.Late result) }
        ensures children { HeldChildrenAfter (held self.old) (held self.new) (Call.Late result) }
        ensures cause { FaultIsCounted (failures self.old) (failures self.new)
            (is_failed_late result) }
        ensures settings { settings self.new ≡ settings self.old };

    /// Returns the time, in seconds. It may be less than an earlier one, because the clock may be set back.
    fn clock(&mut self) -> Result<u64, HostFault>
        ensures adds { AddsCall (told self.old) (told self.new) (Call.Clock result) }
        ensures children { HeldChildrenAfter (held self.old) (held self.new) (Call.Clock result) }
        ensures cause { FaultIsCounted (failures self.old) (failures self.new) (is_err result) }
        ensures settings { settings self.new ≡ settings self.old };

    /// Reads the next bytes of requests (initreq.h) into the front of the buffer, and returns their number, which is 0
    /// if none have come.
    fn take_bytes(&mut self, buffer: &mut [u8]) -> Result<usize, HostFault>
        ensures within { IfOk result (λ count. count ≤ length buffer.old) }
        ensures adds { AddsCall (told self.old) (told self.new)
            (Call.TakeBytes (length buffer.old) (front_read result buffer.new)) }
        ensures children { HeldChildrenAfter (held self.old) (held self.new)
            (Call.TakeBytes (length buffer.old) (front_read result buffer.new)) }
        ensures cause { FaultIsCounted (failures self.old) (failures self.new) (is_err result) }
        ensures settings { settings self.new ≡ settings self.old };

    /// Returns the files of the inittab (inittab(5)), in their order, in memory of `alloc`.
    fn read_tables<A: Allocator + Copy>(&mut self, alloc: A) -> Result<Vec<Part<A>, A>, HostFault>
        ensures adds { AddsCall (told self.old) (told self.new)
            (Call.ReadTables (parts_read (λ parts. parts.items) result)) }
        ensures children { HeldChildrenAfter (held self.old) (held self.new)
            (Call.ReadTables (parts_read (λ parts. parts.items) result)) }
        ensures cause { FaultIsCounted (failures self.old) (failures self.new) (is_err result) }
        ensures settings { settings self.new ≡ settings self.old };

    /// Carries the text of init's state to a new init, and returns the text that the new init receives, in memory of
    /// `alloc`.
    fn carry<A: Allocator + Copy>(&mut self, alloc: A, text: &[u8]) -> Result<Vec<u8, A>, HostFault>
        ensures adds { AddsCall (told self.old) (told self.new)
            (Call.Carry text.now (text_read (λ back. back.items) result)) }
        ensures children { HeldChildrenAfter (held self.old) (held self.new)
            (Call.Carry text.now (text_read (λ back. back.items) result)) }
        ensures cause { FaultIsCounted (failures self.old) (failures self.new) (is_err result) }
        ensures settings { settings self.new ≡ settings self.old };

    /// Reports the happening, if init has a message for it (init(8)).
    fn announce<A: Allocator>(&mut self, happening: &HappeningIn<A>)
        ensures adds { AddsCall (told self.old) (told self.new) (Call.Announce happening.now) }
        ensures children { HeldChildrenAfter (held self.old) (held self.new)
            (Call.Announce happening.now) }
        ensures cause { FaultIsCounted (failures self.old) (failures self.new) false }
        ensures settings { settings self.new ≡ settings self.old };

    /// Waits for a second, or for as long as the host was configured to wait.
    fn pause(&mut self)
        ensures adds { AddsCall (told self.old) (told self.new) Call.Pause }
        ensures children { HeldChildrenAfter (held self.old) (held self.new) Call.Pause }
        ensures cause { FaultIsCounted (failures self.old) (failures self.new) false }
        ensures settings { settings self.new ≡ settings self.old };

    /// Returns the count of faults. The count stays at its maximum.
    fn faults(&self) -> u64
        ensures { result ≡ failures self.now };
}
