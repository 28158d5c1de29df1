//! The edge of init: its host and its log together, so that calls to the host and additions to the log are ordered in
//! time.

ghost use Rattle.std.specs.Prelude.{◌≡◌, ◌∷◌, ◌≤◌, List, IfOk, length, true};
ghost use Rattle.std.specs.Option.{option_map};
ghost use Rattle.supervisor.specs.EdgeWords.{Event, is_short, text_read, parts_read, front_read};
ghost use Rattle.supervisor.specs.Edges.{AddsStamped, calls_of, first_told};
ghost use Rattle.supervisor.specs.Grows.{Grows};
ghost use Rattle.supervisor.specs.CallsLead.{Logs};

use crate::noting::{StampedCalls, and_call, calls_until};
use host_calls::{Call, Host, HostFault, Reply};
use init_words::{Answer, Id, Part, SignalKind};
use program_io::Noted;
use std::alloc::Allocator;
use std::marker::Model;
use trace_events::{Happening, HappeningIn, law_of_ranges};
use trace_log::Log;

/// A host and the log of its run.
///
/// No call to the host changes the log, and only the edge writes happenings to the log. Contracts see the calls that
/// the host records, and the state of the log at each of them. This record exists only in proofs: it takes no memory
/// and no time when a program runs.
#[derive(Drop)]
pub struct Edge<H: Host, L: Log> {
    host: H,
    log: L,
    told: Noted<StampedCalls<L>>,
}

impl<H: Host, L: Log> Model for Edge<H, L> {
    ghost use Rattle.std.specs.Prelude.{◌≡◌};
    ghost use Rattle.std.specs.Option.{option_map};
    ghost use Rattle.supervisor.specs.Edges.{EdgeState, calls_of};

    ghost Value = { EdgeState H L };

    ghost view = { λ edge. record { host = edge.host; log = edge.log; told = edge.told.value } };

    ghost invariant = { λ edge. option_map calls_of edge.told.value ≡ H.told edge.host };
}

impl<H: Host, L: Log> Edge<H, L> {
    /// Creates the edge of a host and a log. Earlier calls to the host are stamped with the log in its current state.
    pub fn new(host: H, log: L) -> Edge<H, L>
        ensures { result
            ≡ record { host = host; log = log; told = first_told (H.told host) log } }
    {
        let told = calls_until(&host, &log);
        Edge { host, log, told }
    }

    /// Returns the host and the log.
    pub fn into_parts(self) -> (H, L)
        ensures { result ≡ (self.host, self.log) }
    {
        let Edge {
            host,
            log,
            told: _told,
        } = self;
        (host, log)
    }

    /// Returns the host.
    pub fn host(&self) -> &H
        ensures { result.now ≡ self.now.host }
    {
        &self.host
    }

    /// Returns the log.
    pub fn log(&self) -> &L
        ensures { result.now ≡ self.now.log }
    {
        &self.log
    }

    /// States in its contract that the calls in the record are the calls that the host records. The function itself
    /// does nothing.
    pub fn law_of_calls(&self)
        ensures { option_map calls_of self.now.told ≡ H.told self.now.host }
    {
        let _host = &self.host;
    }

    /// Starts a child for the id with the command of its entry.
    pub fn start<A: Allocator + Copy>(&mut self, alloc: A, id: Id, command: &[u8]) -> Reply
        ensures adds { AddsStamped self.old.told self.new.told (Call.Start id command.now result)
            self.old.log }
        ensures log { self.new.log ≡ self.old.log }
        ensures settings { H.settings self.new.host ≡ H.settings self.old.host }
    {
        let reply = self.host.start(alloc, id, command);
        self.told = and_call(&self.told, &self.host, &self.log);
        reply
    }

    /// Checks whether the id's child has ended.
    pub fn look(&mut self, id: Id) -> Reply
        ensures adds { AddsStamped self.old.told self.new.told (Call.Look id result) self.old.log }
        ensures log { self.new.log ≡ self.old.log }
        ensures settings { H.settings self.new.host ≡ H.settings self.old.host }
    {
        let reply = self.host.look(id);
        self.told = and_call(&self.told, &self.host, &self.log);
        reply
    }

    /// Sends a signal to the id's child.
    pub fn signal(&mut self, id: Id, signal: SignalKind) -> Reply
        ensures adds { AddsStamped self.old.told self.new.told (Call.Signal id signal result)
            self.old.log }
        ensures log { self.new.log ≡ self.old.log }
        ensures settings { H.settings self.new.host ≡ H.settings self.old.host }
    {
        let reply = self.host.signal(id, signal);
        self.told = and_call(&self.told, &self.host, &self.log);
        reply
    }

    /// Returns an answer to an order whose reply was `Later`, if there is one.
    pub fn late(&mut self) -> Option<(Id, Answer)>
        ensures adds { AddsStamped self.old.told self.new.told (Call.Late result) self.old.log }
        ensures log { self.new.log ≡ self.old.log }
        ensures settings { H.settings self.new.host ≡ H.settings self.old.host }
    {
        let late = self.host.late();
        self.told = and_call(&self.told, &self.host, &self.log);
        late
    }

    /// Reads the clock, in seconds.
    pub fn clock(&mut self) -> Result<u64, HostFault>
        ensures adds { AddsStamped self.old.told self.new.told (Call.Clock result) self.old.log }
        ensures log { self.new.log ≡ self.old.log }
        ensures settings { H.settings self.new.host ≡ H.settings self.old.host }
    {
        let reading = self.host.clock();
        self.told = and_call(&self.told, &self.host, &self.log);
        reading
    }

    /// Reads the next bytes of requests into the front of the buffer, and returns their number.
    pub fn take_bytes(&mut self, buffer: &mut [u8]) -> Result<usize, HostFault>
        ensures within { IfOk result (λ count. count ≤ length buffer.old) }
        ensures adds { AddsStamped self.old.told self.new.told
            (Call.TakeBytes (length buffer.old) (front_read result buffer.new)) self.old.log }
        ensures log { self.new.log ≡ self.old.log }
        ensures settings { H.settings self.new.host ≡ H.settings self.old.host }
    {
        let taken = self.host.take_bytes(buffer);
        self.told = and_call(&self.told, &self.host, &self.log);
        taken
    }

    /// Reads the files of the inittab.
    pub fn read_tables<A: Allocator + Copy>(
        &mut self,
        alloc: A,
    ) -> Result<Vec<Part<A>, A>, HostFault>
        ensures adds { AddsStamped self.old.told self.new.told
            (Call.ReadTables (parts_read (λ parts. parts.items) result)) self.old.log }
        ensures log { self.new.log ≡ self.old.log }
        ensures settings { H.settings self.new.host ≡ H.settings self.old.host }
    {
        let parts = self.host.read_tables(alloc);
        self.told = and_call(&self.told, &self.host, &self.log);
        parts
    }

    /// Hands the text of init's state over to a new init, and returns the text that reaches it.
    pub fn carry<A: Allocator + Copy>(
        &mut self,
        alloc: A,
        text: &[u8],
    ) -> Result<Vec<u8, A>, HostFault>
        ensures adds { AddsStamped self.old.told self.new.told
            (Call.Carry text.now (text_read (λ back. back.items) result)) self.old.log }
        ensures log { self.new.log ≡ self.old.log }
        ensures settings { H.settings self.new.host ≡ H.settings self.old.host }
    {
        let back = self.host.carry(alloc, text);
        self.told = and_call(&self.told, &self.host, &self.log);
        back
    }

    /// Announces a happening, if it is one that init announces.
    pub fn announce<A: Allocator>(&mut self, happening: &HappeningIn<A>)
        ensures adds { AddsStamped self.old.told self.new.told (Call.Announce happening.now)
            self.old.log }
        ensures log { self.new.log ≡ self.old.log }
        ensures settings { H.settings self.new.host ≡ H.settings self.old.host }
    {
        self.host.announce(happening);
        self.told = and_call(&self.told, &self.host, &self.log);
    }

    /// Lets some time pass.
    pub fn pause(&mut self)
        ensures adds { AddsStamped self.old.told self.new.told Call.Pause self.old.log }
        ensures log { self.new.log ≡ self.old.log }
        ensures settings { H.settings self.new.host ≡ H.settings self.old.host }
    {
        self.host.pause();
        self.told = and_call(&self.told, &self.host, &self.log);
    }

    /// Writes a happening to the log, unless the log has failed.
    pub fn write<A: Allocator>(&mut self, happening: &HappeningIn<A>)
        ensures logs { (past : List Event)
            → Logs (L.state self.old.log) (L.state self.new.log) past (happening.now ∷ past) }
        ensures told { self.new.told ≡ self.old.told }
        ensures host { self.new.host ≡ self.old.host }
        ensures grows { is_short happening.now ≡ true
            → Grows (L.state self.old.log) (L.state self.new.log) }
    {
        if !self.log.failed() {
            law_of_ranges(happening);
            let _ = self.log.take(happening);
        }
    }

    /// Writes a happening other than a table.
    pub fn note(&mut self, happening: Happening)
        ensures logs { (past : List Event)
            → Logs (L.state self.old.log) (L.state self.new.log) past (happening ∷ past) }
        ensures told { self.new.told ≡ self.old.told }
        ensures host { self.new.host ≡ self.old.host }
        ensures grows { is_short happening ≡ true
            → Grows (L.state self.old.log) (L.state self.new.log) }
    {
        self.write(&happening);
    }

    /// Returns whether the log has failed.
    pub fn failed(&self) -> bool
        ensures { result ≡ (L.state self.now.log).failed }
    {
        self.log.failed()
    }
}
