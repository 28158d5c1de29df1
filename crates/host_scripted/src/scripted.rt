//! A host that answers from a script, for tests.

ghost use Rattle.std.specs.Prelude.{◌≡◌, ◌⊎◌, ◌++◌, ◌∷◌, [], OnOk, OnErr, IfOk, IfErr};

use crate::queues::{Pieces, give, next_or};
use crate::recording::{announce_call, bytes_call, carry_call, record, start_call, tables_call};
use host_calls::{
    Bytes, Call, CallIn, Host, HostFault, PartList, Reply, counted, is_failed_late,
    is_failed_reply, parts_copy,
};
use init_words::{Answer, Id, Memory, Part, SignalKind};
use std::alloc::{Allocator, Global};
use std::collections::VecDeque;
use std::marker::Model;
use trace_events::HappeningIn;

/// A host that answers from a script, and records its calls until there is no memory for one.
///
/// Each call that returns an answer takes the first one from its queue; bytes that do not fit in the buffer stay for
/// the next call. With an empty queue, no child is born, none has ended, each signal is sent, no answer comes late,
/// the clock reads 0, there are no bytes, the inittab has no files, and a text is carried whole.
#[derive(Drop)]
pub struct MemoryHost<A: Allocator = Global> {
    starts: VecDeque<Reply, A>,
    looks: VecDeque<Reply, A>,
    signals: VecDeque<Reply, A>,
    lates: VecDeque<Option<(Id, Answer)>, A>,
    clocks: VecDeque<Result<u64, HostFault>, A>,
    pieces: Pieces<A>,
    tables: VecDeque<Result<PartList<A>, HostFault>, A>,
    carries: VecDeque<Result<Bytes<A>, HostFault>, A>,
    calls: Vec<CallIn<A>, A>,
    tells: bool,
    faults: u64,
}

impl<A: Allocator> Model for MemoryHost<A> {
    ghost use Rattle.host_scripted.specs.Script.{Script, tale};

    ghost Value = { Script };

    ghost view = { λ h. record {
      starts = h.starts.items;
      looks = h.looks.items;
      signals = h.signals.items;
      lates = h.lates.items;
      clocks = h.clocks.items;
      pieces = h.pieces;
      tables = h.tables.items;
      carries = h.carries.items;
      told = tale h.tells h.calls.items;
      faults = h.faults;
    } };
}

impl<A: Allocator + Copy> MemoryHost<A> {
    ghost use Rattle.std.specs.Prelude.{Some};

    /// Creates a host with empty queues and an empty record. This does not allocate.
    pub fn new(alloc: A) -> MemoryHost<A>
        ensures { result ≡ record {
          starts = [];
          looks = [];
          signals = [];
          lates = [];
          clocks = [];
          pieces = [];
          tables = [];
          carries = [];
          told = Some [];
          faults = 0;
        } }
    {
        MemoryHost {
            starts: VecDeque::new(alloc),
            looks: VecDeque::new(alloc),
            signals: VecDeque::new(alloc),
            lates: VecDeque::new(alloc),
            clocks: VecDeque::new(alloc),
            pieces: Pieces::new(alloc),
            tables: VecDeque::new(alloc),
            carries: VecDeque::new(alloc),
            calls: Vec::new(alloc),
            tells: true,
            faults: 0,
        }
    }
}

impl<A: Allocator> MemoryHost<A> {
    ghost use Rattle.std.specs.Prelude.{reverse};
    ghost use Rattle.std.specs.Option.{option_map};

    /// Returns the calls so far with their answers, oldest first, or `None` if one of them could not be recorded.
    pub fn calls(&self) -> Option<&[CallIn<A>]>
        ensures { option_map (λ calls. reverse calls.now) result ≡ self.now.told }
    {
        if self.tells {
            Some(self.calls.as_slice())
        } else {
            None
        }
    }

    /// Appends a reply to a start.
    pub fn give_start(&mut self, reply: Reply) -> Result<(), Memory>
        ensures ok { OnOk result (self.new
            ≡ record self.old { starts = self.old.starts ++ reply ∷ [] }) }
        ensures err { OnErr result (self.new ≡ self.old) }
    {
        give(&mut self.starts, reply)
    }

    /// Appends a reply to a look.
    pub fn give_look(&mut self, reply: Reply) -> Result<(), Memory>
        ensures ok { OnOk result (self.new
            ≡ record self.old { looks = self.old.looks ++ reply ∷ [] }) }
        ensures err { OnErr result (self.new ≡ self.old) }
    {
        give(&mut self.looks, reply)
    }

    /// Appends a reply to a signal.
    pub fn give_signal(&mut self, reply: Reply) -> Result<(), Memory>
        ensures ok { OnOk result (self.new
            ≡ record self.old { signals = self.old.signals ++ reply ∷ [] }) }
        ensures err { OnErr result (self.new ≡ self.old) }
    {
        give(&mut self.signals, reply)
    }

    /// Appends an answer that comes late. `None` ends the late answers of a turn.
    pub fn give_late(&mut self, late: Option<(Id, Answer)>) -> Result<(), Memory>
        ensures ok { OnOk result (self.new
            ≡ record self.old { lates = self.old.lates ++ late ∷ [] }) }
        ensures err { OnErr result (self.new ≡ self.old) }
    {
        give(&mut self.lates, late)
    }

    /// Appends a reading of the clock, in seconds.
    pub fn give_clock(&mut self, reading: Result<u64, HostFault>) -> Result<(), Memory>
        ensures ok { OnOk result (self.new
            ≡ record self.old { clocks = self.old.clocks ++ reading ∷ [] }) }
        ensures err { OnErr result (self.new ≡ self.old) }
    {
        give(&mut self.clocks, reading)
    }

    /// Appends a piece of bytes.
    pub fn give_bytes(&mut self, piece: Result<Bytes<A>, HostFault>) -> Result<(), Memory>
        ensures ok { OnOk result (self.new
            ≡ record self.old { pieces = self.old.pieces ++ piece ∷ [] }) }
        ensures err { OnErr result (self.new ≡ self.old) }
    {
        self.pieces.give(piece)
    }

    /// Appends the files of the inittab as one reading returns them.
    pub fn give_table(&mut self, parts: Result<PartList<A>, HostFault>) -> Result<(), Memory>
        ensures ok { OnOk result (self.new
            ≡ record self.old { tables = self.old.tables ++ parts ∷ [] }) }
        ensures err { OnErr result (self.new ≡ self.old) }
    {
        give(&mut self.tables, parts)
    }

    /// Appends the text, or the fault, that a later call of `carry` returns.
    pub fn give_carry(&mut self, back: Result<Bytes<A>, HostFault>) -> Result<(), Memory>
        ensures ok { OnOk result (self.new
            ≡ record self.old { carries = self.old.carries ++ back ∷ [] }) }
        ensures err { OnErr result (self.new ≡ self.old) }
    {
        give(&mut self.carries, back)
    }
}

impl<A: Allocator> MemoryHost<A> {
    ghost use Rattle.host_calls.specs.Calls.{HostCall, AddsCall, FaultIsCounted, counted};
    ghost use Rattle.host_scripted.specs.Script.{Becomes};

    /// Counts a fault if the call failed, and records the call.
    fn note(&mut self, failed: bool, call: Result<CallIn<A>, Memory>)
        ensures state { Becomes self.new
            (record self.old { faults = counted failed self.old.faults }) }
        ensures adds { (made : HostCall) → IfOk call (λ value. value ≡ made)
            → AddsCall self.old.told self.new.told made }
        ensures cause { FaultIsCounted self.old.faults self.new.faults failed }
    {
        self.faults = counted(self.faults, failed);
        record(&mut self.calls, &mut self.tells, call);
    }
}

/// Copies a text.
fn copied<A: Allocator>(alloc: A, text: &[u8]) -> Result<Vec<u8, A>, HostFault>
    ensures ok { IfOk result (λ copy. copy.items ≡ text.now) }
    ensures err { IfErr result (λ fault. fault ≡ HostFault.Memory) }
{
    Vec::from_slice(alloc, text).map_err(|_| HostFault::Memory)
}

/// Copies an item, or returns its fault.
fn item_copied<A: Allocator, B: Allocator>(
    alloc: B,
    item: &Result<Bytes<A>, HostFault>,
) -> Result<Vec<u8, B>, HostFault>
    ensures ok { IfOk result (λ copy. item.now ≡ Ok copy.items) }
    ensures err { IfErr result (λ fault. (item.now ≡ Err fault) ⊎ (fault ≡ HostFault.Memory)) }
{
    match item {
        Ok(bytes) => copied(alloc, bytes.as_slice()),
        Err(fault) => Err(*fault),
    }
}

/// Copies the files of an item, or returns its fault.
fn parts_copied<A: Allocator, B: Allocator + Copy>(
    alloc: B,
    item: &Result<PartList<A>, HostFault>,
) -> Result<Vec<Part<B>, B>, HostFault>
    ensures ok { IfOk result (λ copy. item.now ≡ Ok copy.items) }
    ensures err { IfErr result (λ fault. (item.now ≡ Err fault) ⊎ (fault ≡ HostFault.Memory)) }
{
    match item {
        Ok(parts) => parts_copy(alloc, parts.as_slice()).map_err(|_| HostFault::Memory),
        Err(fault) => Err(*fault),
    }
}

impl<A: Allocator + Copy> Host for MemoryHost<A> {
    ghost use Rattle.std.specs.Prelude.{◌≤◌, false, drop, length, unwrap_or, is_err, None};
    ghost use Rattle.host_calls.specs.Calls.{AddsCall, FaultIsCounted, counted};
    ghost use Rattle.host_calls.specs.Calls.{is_failed_reply, is_failed_late, text_read, parts_read, front_read};
    ghost use Rattle.host_scripted.specs.Script.{Script, Becomes, first, taken_of, left_of};

    ghost told = { λ (s : Script). s.told };

    ghost held = { λ _. None };

    ghost failures = { λ (s : Script). s.faults };

    ghost settings = { λ _. None };

    fn start<B: Allocator + Copy>(&mut self, _alloc: B, id: Id, command: &[u8]) -> Reply
        ensures first { result ≡ unwrap_or (first self.old.starts) (Reply.Now Answer.NotBorn) }
        ensures state { Becomes self.new (record self.old {
          starts = drop 1 self.old.starts;
          faults = counted (is_failed_reply result) self.old.faults;
        }) }
        ensures adds { AddsCall self.old.told self.new.told (Call.Start id command.now result) }
        ensures cause { FaultIsCounted self.old.faults self.new.faults (is_failed_reply result) }
    {
        let reply = next_or(&mut self.starts, Reply::Now(Answer::NotBorn));
        let call = start_call(*self.calls.allocator(), id, command, &reply);
        self.note(is_failed_reply(&reply), call);
        reply
    }

    fn look(&mut self, id: Id) -> Reply
        ensures first { result ≡ unwrap_or (first self.old.looks) (Reply.Now Answer.Alive) }
        ensures state { Becomes self.new (record self.old {
          looks = drop 1 self.old.looks;
          faults = counted (is_failed_reply result) self.old.faults;
        }) }
        ensures adds { AddsCall self.old.told self.new.told (Call.Look id result) }
        ensures cause { FaultIsCounted self.old.faults self.new.faults (is_failed_reply result) }
    {
        let reply = next_or(&mut self.looks, Reply::Now(Answer::Alive));
        let again = &reply;
        self.note(is_failed_reply(again), Ok(Call::Look(id, *again)));
        reply
    }

    fn signal(&mut self, id: Id, signal: SignalKind) -> Reply
        ensures first { result ≡ unwrap_or (first self.old.signals) (Reply.Now Answer.Hit) }
        ensures state { Becomes self.new (record self.old {
          signals = drop 1 self.old.signals;
          faults = counted (is_failed_reply result) self.old.faults;
        }) }
        ensures adds { AddsCall self.old.told self.new.told (Call.Signal id signal result) }
        ensures cause { FaultIsCounted self.old.faults self.new.faults (is_failed_reply result) }
    {
        let reply = next_or(&mut self.signals, Reply::Now(Answer::Hit));
        let again = &reply;
        self.note(is_failed_reply(again), Ok(Call::Signal(id, signal, *again)));
        reply
    }

    fn late(&mut self) -> Option<(Id, Answer)>
        ensures first { result ≡ unwrap_or (first self.old.lates) None }
        ensures state { Becomes self.new (record self.old {
          lates = drop 1 self.old.lates;
          faults = counted (is_failed_late result) self.old.faults;
        }) }
        ensures adds { AddsCall self.old.told self.new.told (Call.Late result) }
        ensures cause { FaultIsCounted self.old.faults self.new.faults (is_failed_late result) }
    {
        let late = next_or(&mut self.lates, None);
        let again = &late;
        self.note(is_failed_late(again), Ok(Call::Late(*again)));
        late
    }

    fn clock(&mut self) -> Result<u64, HostFault>
        ensures first { result ≡ unwrap_or (first self.old.clocks) (Ok 0) }
        ensures state { Becomes self.new (record self.old {
          clocks = drop 1 self.old.clocks;
          faults = counted (is_err result) self.old.faults;
        }) }
        ensures adds { AddsCall self.old.told self.new.told (Call.Clock result) }
        ensures cause { FaultIsCounted self.old.faults self.new.faults (is_err result) }
    {
        let reading = next_or(&mut self.clocks, Ok(0));
        let again = &reading;
        self.note(again.is_err(), Ok(Call::Clock(*again)));
        reading
    }

    fn take_bytes(&mut self, buffer: &mut [u8]) -> Result<usize, HostFault>
        ensures within { IfOk result (λ count. count ≤ length buffer.old) }
        ensures taken { front_read result buffer.new
            ≡ taken_of (length buffer.old) (unwrap_or (first self.old.pieces) (Ok [])) }

        // The bytes that do not fit stay at the front of the queue.
        ensures state { Becomes self.new (record self.old {
          pieces = left_of (length buffer.old) (unwrap_or (first self.old.pieces) (Ok []))
              ++ drop 1 self.old.pieces;
          faults = counted (is_err result) self.old.faults;
        }) }
        ensures adds { AddsCall self.old.told self.new.told
            (Call.TakeBytes (length buffer.old) (front_read result buffer.new)) }
        ensures cause { FaultIsCounted self.old.faults self.new.faults (is_err result) }
    {
        let taken = self.pieces.take(buffer);
        let call = bytes_call(*self.calls.allocator(), buffer, &taken);
        self.note(taken.is_err(), call);
        taken
    }

    fn read_tables<B: Allocator + Copy>(&mut self, alloc: B) -> Result<Vec<Part<B>, B>, HostFault>
        ensures first { IfOk result (λ parts.
            unwrap_or (first self.old.tables) (Ok []) ≡ Ok parts.items) }
        ensures fault { IfErr result (λ fault. (first self.old.tables ≡ Some (Err fault))
            ⊎ (fault ≡ HostFault.Memory)) }
        ensures state { Becomes self.new (record self.old {
          tables = drop 1 self.old.tables;
          faults = counted (is_err result) self.old.faults;
        }) }
        ensures adds { AddsCall self.old.told self.new.told
            (Call.ReadTables (parts_read (λ parts. parts.items) result)) }
        ensures cause { FaultIsCounted self.old.faults self.new.faults (is_err result) }
    {
        let own = *self.calls.allocator();
        let item = next_or(&mut self.tables, Ok(PartList::new(own)));
        let parts = parts_copied(alloc, &item);
        let call = tables_call(own, &parts);
        self.note(parts.is_err(), call);
        parts
    }

    fn carry<B: Allocator + Copy>(&mut self, alloc: B, text: &[u8]) -> Result<Vec<u8, B>, HostFault>
        ensures first { IfOk result (λ back.
            unwrap_or (first self.old.carries) (Ok text.now) ≡ Ok back.items) }
        ensures fault { IfErr result (λ fault. (first self.old.carries ≡ Some (Err fault))
            ⊎ (fault ≡ HostFault.Memory)) }
        ensures state { Becomes self.new (record self.old {
          carries = drop 1 self.old.carries;
          faults = counted (is_err result) self.old.faults;
        }) }
        ensures adds { AddsCall self.old.told self.new.told
            (Call.Carry text.now (text_read (λ back. back.items) result)) }
        ensures cause { FaultIsCounted self.old.faults self.new.faults (is_err result) }
    {
        let back = match self.carries.pop_front() {
            Some(item) => item_copied(alloc, &item),
            None => copied(alloc, text),
        };
        let call = carry_call(*self.calls.allocator(), text, &back);
        self.note(back.is_err(), call);
        back
    }

    fn announce<B: Allocator>(&mut self, happening: &HappeningIn<B>)
        ensures state { Becomes self.new self.old }
        ensures adds { AddsCall self.old.told self.new.told (Call.Announce happening.now) }
        ensures cause { FaultIsCounted self.old.faults self.new.faults false }
    {
        let call = announce_call(*self.calls.allocator(), happening);
        self.note(false, call);
    }

    fn pause(&mut self)
        ensures state { Becomes self.new self.old }
        ensures adds { AddsCall self.old.told self.new.told Call.Pause }
        ensures cause { FaultIsCounted self.old.faults self.new.faults false }
    {
        self.note(false, Ok(Call::Pause));
    }

    fn faults(&self) -> u64 {
        self.faults
    }
}
