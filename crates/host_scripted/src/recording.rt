//! The record of the calls that a scripted host received.

ghost use Rattle.std.specs.Prelude.{◌≡◌, ◌≤◌, length, IfOk};
ghost use Rattle.host_calls.specs.Calls.{HostCall, AddsCall, text_read, parts_read, front_read};
ghost use Rattle.host_scripted.specs.Script.{tale};

use host_calls::{Bytes, Call, CallIn, HostFault, PartList, Reply, parts_copy};
use init_words::{Id, Memory, Part};
use std::alloc::Allocator;
use trace_events::{HappeningIn, happening_copy};

/// Records a call, if all calls before it were recorded and there is memory for it. Otherwise the record is unknown
/// from now on.
pub(crate) fn record<A: Allocator>(
    calls: &mut Vec<CallIn<A>, A>,
    tells: &mut bool,
    call: Result<CallIn<A>, Memory>,
)
    ensures { (made : HostCall) → IfOk call (λ value. value ≡ made)
        → AddsCall (tale tells.old calls.old.items) (tale tells.new calls.new.items) made }
{
    *tells = match call {
        Ok(call) => *tells && calls.push(call).is_ok(),
        Err(_) => false,
    };
}

/// Returns the call that started a child.
pub(crate) fn start_call<A: Allocator>(
    alloc: A,
    id: Id,
    command: &[u8],
    reply: &Reply,
) -> Result<CallIn<A>, Memory>
    ensures { IfOk result (λ call. call ≡ Call.Start id command.now reply.now) }
{
    Ok(Call::Start(id, Bytes::copy_of(alloc, command)?, *reply))
}

/// Returns the call that read the files of the inittab.
pub(crate) fn tables_call<A: Allocator + Copy, B: Allocator>(
    alloc: A,
    parts: &Result<Vec<Part<B>, B>, HostFault>,
) -> Result<CallIn<A>, Memory>
    ensures { IfOk result (λ call.
        call ≡ Call.ReadTables (parts_read (λ held. held.items) parts.now)) }
{
    match parts {
        Ok(parts) => {
            let copy = PartList::of(parts_copy(alloc, parts.as_slice())?);
            Ok(Call::ReadTables(Ok(copy)))
        }
        Err(fault) => Ok(Call::ReadTables(Err(*fault))),
    }
}

/// Returns the call that carried a text.
pub(crate) fn carry_call<A: Allocator + Copy, B: Allocator>(
    alloc: A,
    text: &[u8],
    back: &Result<Vec<u8, B>, HostFault>,
) -> Result<CallIn<A>, Memory>
    ensures { IfOk result (λ call.
        call ≡ Call.Carry text.now (text_read (λ held. held.items) back.now)) }
{
    let carried = Bytes::copy_of(alloc, text)?;
    match back {
        Ok(back) => Ok(Call::Carry(carried, Ok(Bytes::copy_of(alloc, back.as_slice())?))),
        Err(fault) => Ok(Call::Carry(carried, Err(*fault))),
    }
}

/// Returns the call that took bytes.
pub(crate) fn bytes_call<A: Allocator>(
    alloc: A,
    buffer: &[u8],
    taken: &Result<usize, HostFault>,
) -> Result<CallIn<A>, Memory>
    requires { IfOk taken.now (λ count. count ≤ length buffer.now) }
    ensures { IfOk result (λ call.
        call ≡ Call.TakeBytes (length buffer.now) (front_read taken.now buffer.now)) }
{
    match taken {
        Ok(count) => {
            let front = Bytes::copy_of(alloc, &buffer[..*count])?;
            Ok(Call::TakeBytes(buffer.len(), Ok(front)))
        }
        Err(fault) => Ok(Call::TakeBytes(buffer.len(), Err(*fault))),
    }
}

/// Returns the call that announced a happening.
pub(crate) fn announce_call<A: Allocator + Copy, B: Allocator>(
    alloc: A,
    happening: &HappeningIn<B>,
) -> Result<CallIn<A>, Memory>
    ensures { IfOk result (λ call. call ≡ Call.Announce happening.now) }
{
    Ok(Call::Announce(happening_copy(alloc, happening)?))
}
