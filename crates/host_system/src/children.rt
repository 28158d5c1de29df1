//! The children of a host: starting them, looking at them, sending them signals.

ghost use Rattle.std.specs.Prelude.{◌≡◌, ◌++◌, ◌∷◌, [], IsTrue, IfOk, OnOk, OnErr, true, false, option_map, string_bytes};
ghost use Rattle.host_calls.specs.declared.calls.Reply.TheVariants.{Now};
ghost use Rattle.host_calls.specs.Held.{LookChangesHeld, SignalChangesHeld, holds_child, without_child};
ghost use Rattle.host_system.specs.Asking.{RunsHelpers, LookRequest, SignalRequest, SpawnRequests, StartRequests, WaitRequest, number_of};
ghost use Rattle.host_system.specs.Commands.{words_in};
ghost use Rattle.host_system.specs.Hosts.{is_look_answer, is_signal_answer};
ghost use Rattle.host_system.specs.Systems.{start_answer, status_of, waited};

use crate::child_messages::ChildMessages;
use crate::commands::{add_word, needs_shell};
use crate::held::HeldChild;
use crate::host_options::HostOptions;
use crate::launches::Launch;
use crate::left::LeftProcesses;
use crate::logs::Logs;
use crate::systems::System;
use crate::terms::check_sending;
use crate::watchers::watch_command;
use host_files::boxed;
use host_lines::{ChildLine, ChildMessage, HostLine, MessageSink};
use indexmap::IndexMap;
use init_words::{Answer, ChildNumber, Id, Memory, SignalKind, Stage, Status};
use inittab_text::Table;
use std::alloc::{AllocError, Allocator};
use std::hash::{BuildHasherDefault, FoldHasher};
use std::io;
use std::io::ErrorKind;
use std::marker::Model;
use std::process::{Command, ExitStatus};
use std::rt::{Clock, Files};
use text_lines::next_word;

/// The children of a host, by their ids.
#[derive(Drop)]
pub(crate) struct Children<S: System, A: Allocator> {
    alloc: A,
    handles: IndexMap<Id, HeldChild<S>, BuildHasherDefault<FoldHasher>, A>,
    /// The current stage, and the stage in which inittab was last read again.
    stage: Option<Stage>,
    read_in: Option<Stage>,
    /// Whether the level was announced as settled; also `true` before the first stage.
    is_settled: bool,
    /// The reports about the children.
    messages: ChildMessages<A>,
    left: LeftProcesses<A>,
}

impl<S: System, A: Allocator> Model for Children<S, A> {
    ghost use Rattle.host_calls.specs.Held.{HeldChildren};

    ghost Value = { HeldChildren };

    ghost view = { λ children. children.handles.entries };
}

impl<S: System, A: Allocator + Copy> Children<S, A> {
    /// Returns a value without children. The options determine which reports about children are made.
    pub(crate) fn new(alloc: A, options: &HostOptions) -> Result<Box<Children<S, A>, A>, Memory>
        ensures { IfOk result (λ children. children.value ≡ []) }
    {
        let children = Children {
            alloc,
            handles: IndexMap::new(alloc),
            stage: None,
            read_in: None,
            is_settled: true,
            messages: ChildMessages::new(alloc, options.verbose),
            left: LeftProcesses::new(alloc),
        };
        Ok(boxed(alloc, children)?)
    }

    /// Reports on standard error that init cannot send TERM to any child, if the options ask for that check.
    pub(crate) fn tell_unsendable<R: MessageSink>(
        &self,
        rt: &R,
        system: &mut S,
        options: &HostOptions,
    )
        ensures { RunsHelpers (S.told system.old) (S.told system.new) }
    {
        if !options.sends_term {
            return;
        }
        if let Err(error) = check_sending(system, self.alloc, options.groups) {
            rt.tell(&HostLine::Unsendable {
                groups: options.groups,
                error: &error,
            });
        }
    }

    /// Starts a child for an id that has none, and returns its number. The child executes the process text after the
    /// delay, in seconds. Its output goes to the logs, if there are any.
    pub(crate) fn start<R: Files + MessageSink, B: Allocator + Copy>(
        &mut self,
        rt: &R,
        system: &mut S,
        logs: &mut Logs<A>,
        alloc: B,
        id: Id,
        delay: u16,
        text: &[u8],
    ) -> io::Result<ChildNumber>
        ensures unheld { OnOk result (holds_child id self.old ≡ false) }
        ensures born { IfOk result (λ number. self.new ≡ self.old ++ (id, number) ∷ []) }
        ensures not_born { OnErr result (self.new ≡ self.old) }
        ensures logs { logs.new.folder ≡ logs.old.folder }
        ensures groups { logs.new.groups ≡ logs.old.groups }
        ensures asked { StartRequests (option_map string_bytes logs.old.folder) logs.old.groups
            delay id text.now (start_answer result) (S.told system.old) (S.told system.new) }
    {
        if self.holds(&id) {
            return Err(io::Error::from(ErrorKind::AlreadyExists));
        }
        let mut command = logs.command(rt, alloc, &id, delay, text)?;
        let number = self.spawn(system, id, &mut command)?;
        self.messages.tell_start(rt, &id, number, delay);
        Ok(number)
    }

    /// Returns the number of children.
    pub(crate) fn count(&self) -> usize {
        self.handles.len()
    }

    /// Starts the helper of a system that watches the children.
    pub(crate) fn watch(&self, system: &mut S) -> io::Result<()>
        ensures { S.told system.new ≡ S.told system.old }
    {
        let mut command = watch_command(self.alloc)?;
        for held in self.handles.values() {
            let number = format!(in self.alloc; "{}", held.number().0)?;
            add_word(&mut command, number.as_str())?;
        }
        system.watch(&mut command)
    }

    /// Returns whether the id has a child.
    fn holds(&self, id: &Id) -> bool
        ensures { result ≡ holds_child id.now self.now }
    {
        self.handles.contains_key(id)
    }

    /// Starts a child with the command, and returns its number. Room for its handle is reserved before the child is
    /// born.
    fn spawn<B: Allocator + Copy>(
        &mut self,
        system: &mut S,
        id: Id,
        command: &mut Command<B>,
    ) -> io::Result<ChildNumber>
        requires { holds_child id self.old ≡ false }
        ensures born { IfOk result (λ number. self.new ≡ self.old ++ (id, number) ∷ []) }
        ensures not_born { OnErr result (self.new ≡ self.old) }
        ensures asked { SpawnRequests (words_in command.old) (start_answer result)
            (S.told system.old) (S.told system.new) }
    {
        self.handles.reserve(1)?;
        let process = system.spawn(command)?;
        let held = HeldChild::new(&*system, process);
        let number = held.number();
        let Ok(_) = self.handles.insert(id, held) else {
            unreachable!()
        };
        Ok(number)
    }

    /// Reaps the id's child if it has ended.
    pub(crate) fn look<R: Files + MessageSink + Clock>(
        &mut self,
        rt: &R,
        system: &mut S,
        id: &Id,
    ) -> Answer
        ensures kind { IsTrue (is_look_answer result) }
        ensures held { LookChangesHeld self.old self.new id.now (Now result) }
        ensures asked { LookRequest (number_of id.now self.old) result
            (S.told system.old) (S.told system.new) }
    {
        match self.try_wait(rt, system, id) {
            Ok(Some(status)) => {
                self.release(id);
                self.messages.note_end(rt, id, &status);
                if self.is_settled {
                    self.left.tell(rt, id);
                }
                Answer::Ended(status_of(&status))
            }
            Ok(None) => Answer::Alive,
            Err(_) => Answer::NoLook,
        }
    }

    /// Returns how the id's child ended, if it has ended. If the id has no child, the error is `NotFound`.
    fn try_wait<R: MessageSink + Clock>(
        &mut self,
        rt: &R,
        system: &mut S,
        id: &Id,
    ) -> io::Result<Option<ExitStatus>>
        ensures held { OnOk result (IsTrue (holds_child id.now self.old)) }
        ensures same { self.new ≡ self.old }
        ensures asked { WaitRequest (number_of id.now self.old) (waited result)
            (S.told system.old) (S.told system.new) }
    {
        let Some(held) = self.handles.get_mut(id) else {
            return Err(io::Error::from(ErrorKind::NotFound));
        };
        held.try_wait(system, rt, id, self.is_settled)
    }

    /// Removes the id's child from the held children.
    fn release(&mut self, id: &Id)
        ensures { self.new ≡ without_child id.now self.old }
    {
        self.handles.shift_remove(id);
    }

    /// Reports on standard error how the id's last child ended, and what that usually means.
    pub(crate) fn tell_last_end(&self, rt: &impl MessageSink, id: &Id) {
        self.messages.tell_last_end(rt, id);
    }

    /// Records that the stage was entered.
    pub(crate) fn enter(&mut self, stage: Stage)
        ensures { self.new ≡ self.old }
    {
        self.stage = Some(stage);
        self.is_settled = false;
    }

    /// Records that the level is settled.
    pub(crate) fn settle<R: Files + MessageSink>(&mut self, rt: &R)
        ensures { self.new ≡ self.old }
    {
        self.is_settled = true;
        self.left.tell_all(rt);
    }

    /// Records how an inittab that was read again affects each child.
    pub(crate) fn note_lines<B: Allocator>(&mut self, table: &Table<B>)
        ensures { self.new ≡ self.old }
    {
        let Some(stage) = self.stage else {
            return;
        };
        self.read_in = Some(stage);
        // `retain` keeps all children. It is used because its contract says what is written to each child, and the
        // contract of `iter_mut` does not.
        self.handles.retain(
            |id: &Id, held: &mut HeldChild<S>| -> bool
                ensures { (result ≡ true) × (held.new ≡ held.old) }
            {
                held.note(ChildLine::of(table.get(id), stage));
                true
            },
        );
    }

    /// Sends the signal to the id's child, or, if children have groups, to its process group.
    pub(crate) fn signal<R: Files + MessageSink>(
        &mut self,
        rt: &R,
        system: &mut S,
        groups: bool,
        id: &Id,
        signal: SignalKind,
    ) -> Answer
        ensures kind { IsTrue (is_signal_answer result) }
        ensures held { SignalChangesHeld self.old self.new id.now (Now result) }
        ensures asked { SignalRequest groups (number_of id.now self.old) signal result
            (S.told system.old) (S.told system.new) }
    {
        let is_same_stage = self.stage == self.read_in;
        let Some(held) = self.handles.get_mut(id) else {
            return Answer::Miss;
        };
        self.left.note(rt, groups, id, held.number());
        if !held.send(system, rt, self.alloc, groups, id, signal) {
            return Answer::Miss;
        }
        held.tell_cost(rt, id, is_same_stage);
        self.messages.tell_sent(rt, id, signal);
        Answer::Hit
    }
}

/// Returns how a child with this status ended.
fn status_of(status: &ExitStatus) -> Status
    ensures { result ≡ status_of status.now }
{
    match status.code() {
        Some(code) => Status::Exit(u8::try_from(code).unwrap_or(u8::MAX)),
        None => Status::Killed,
    }
}

/// Reports why no child was born for the id to execute this process text.
pub(crate) fn tell_not_born<'a>(
    rt: &impl MessageSink,
    launch: Launch,
    id: Id,
    text: &'a [u8],
    error: &'a io::Error,
) {
    let program = program_of(launch, text);
    rt.tell(&HostLine::OfChild {
        id,
        message: ChildMessage::NotBorn { program, error },
    });
}

/// Returns the program that starts a process text.
fn program_of(launch: Launch, text: &[u8]) -> &[u8] {
    match next_word(text) {
        None => b"",
        Some(_) if launch.groups => b"setsid",
        Some(_) if launch.delay > 0 || needs_shell(text) => b"sh",
        Some((program, _)) => program,
    }
}
