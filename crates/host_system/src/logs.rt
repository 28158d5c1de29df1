//! The files for the output of the children.

ghost use Rattle.std.specs.List.{list_all};
ghost use Rattle.std.specs.Prelude.{◌≡◌, IfOk, option_map, string_bytes};
ghost use Rattle.host_system.specs.Asking.{AreStarted};
ghost use Rattle.host_system.specs.Commands.{words_at, words_in};
ghost use Rattle.host_system.specs.Logs.{is_log_byte, is_log_name, log_name, log_path};

use crate::commands::{BoxedCommand, command_of, logged_command};
use crate::launches::Launch;
use host_files::is_hidden;
use host_lines::{HostLine, MessageSink};
use indexmap::IndexSet;
use init_words::{Id, Memory};
use program_io::refuse_special;
use std::alloc::{AllocError, Allocator};
use std::fs::OpenOptions;
use std::hash::{BuildHasherDefault, FoldHasher};
use std::io::ErrorKind;
use std::os::unix::fs::OpenOptionsExt;
use std::process::{Command, Stdio};
use std::rt::Files;
use std::{io, str};

/// The mode of a new log: only its owner and its group can read it.
const MODE: u32 = 0o640;

/// The folder of the logs, if the output of the children goes to logs; and whether each child has a session of its
/// own.
#[derive(Drop)]
pub(crate) struct Logs<A: Allocator> {
    pub(crate) folder: Option<String<A>>,
    pub(crate) groups: bool,
    /// The ids for which it was reported that they cannot be file names.
    told: IndexSet<Id, BuildHasherDefault<FoldHasher>, A>,
}

impl<A: Allocator + Copy> Logs<A> {
    /// Returns the logs in this folder, if there is one. `groups` says whether children have sessions of their own.
    pub(crate) fn new(alloc: A, folder: Option<&str>, groups: bool) -> Result<Logs<A>, Memory>
        ensures folder { IfOk result (λ logs.
            option_map string_bytes logs.folder ≡ option_map (λ path. path.now) folder.entry) }
        ensures groups { IfOk result (λ logs. logs.groups ≡ groups) }
    {
        let folder = match folder {
            Some(folder) => Some(String::from_str(alloc, folder)?),
            None => None,
        };
        Ok(Logs {
            folder,
            groups,
            told: IndexSet::new(alloc),
        })
    }

    /// Returns the command that starts a process text after this delay in seconds. If the text has no word, or is not
    /// UTF-8, the error is `InvalidInput`.
    pub(crate) fn command<R: Files + MessageSink, B: Allocator + Copy>(
        &mut self,
        rt: &R,
        alloc: B,
        id: &Id,
        delay: u16,
        text: &[u8],
    ) -> io::Result<BoxedCommand<B>>
        ensures words { IfOk result (λ command. AreStarted (option_map string_bytes self.old.folder)
            self.old.groups delay id.now text.now (words_in command.value)) }
        ensures same { self.new.folder ≡ self.old.folder }
        ensures groups { self.new.groups ≡ self.old.groups }
    {
        let Ok(text) = str::from_utf8(text) else {
            return Err(io::Error::from(ErrorKind::InvalidInput));
        };
        match self.logged(rt, alloc, id, delay, text)? {
            Some(command) => Ok(command),
            None => Err(io::Error::from(ErrorKind::InvalidInput)),
        }
    }

    /// Returns the command that starts a process text, with its output in the id's log and no input if there are logs.
    /// If the log cannot be opened, that is reported on standard error, and the process is started as if there were no
    /// logs.
    fn logged<R: Files + MessageSink, B: Allocator + Copy>(
        &mut self,
        rt: &R,
        alloc: B,
        id: &Id,
        delay: u16,
        text: &str,
    ) -> io::Result<Option<BoxedCommand<B>>>
        ensures words { IfOk result (λ command. AreStarted (option_map string_bytes self.old.folder)
            self.old.groups delay id.now text.now (words_at command)) }
        ensures same { self.new.folder ≡ self.old.folder }
        ensures groups { self.new.groups ≡ self.old.groups }
    {
        let launch = Launch {
            groups: self.groups,
            delay,
        };
        let Some(folder) = &self.folder else {
            return Ok(command_of(alloc, launch, text)?);
        };
        let log = log_path(alloc, folder.as_str(), id)?;
        self.tell(rt, id, log.as_str());
        if let Err(error) = made_ready(rt, log.as_str()) {
            rt.tell(&HostLine::NoLog {
                id: *id,
                log: log.as_str(),
                error: &error,
            });
            return Ok(command_of(alloc, launch, text)?);
        }
        let Some(mut command) = logged_command(alloc, launch, log.as_str(), text)? else {
            return Ok(None);
        };
        close_input(&mut command);
        Ok(Some(command))
    }

    /// Reports once that the id's log has this path, because the id cannot be a file name.
    fn tell(&mut self, rt: &impl MessageSink, id: &Id, log: &str)
        ensures folder { self.new.folder ≡ self.old.folder }
        ensures groups { self.new.groups ≡ self.old.groups }
    {
        if !is_log_name(id.as_bytes()) && !matches!(self.told.insert(*id), Ok(false)) {
            rt.tell(&HostLine::Log { id: *id, log });
        }
    }
}

/// Returns the path of the id's log in a folder.
fn log_path<A: Allocator + Copy>(alloc: A, folder: &str, id: &Id) -> Result<String<A>, AllocError>
    ensures { IfOk result (λ path. string_bytes path ≡ log_path folder.now id.now) }
{
    let name = log_name(id);
    format!(in alloc; "{folder}/{name}.log")
}

/// Returns the name of the id's log, without `.log`.
fn log_name(id: &Id) -> &str
    ensures { result.now ≡ log_name id.now }
{
    if is_log_name(id.as_bytes()) {
        id.as_str()
    } else {
        "_"
    }
}

/// Makes the command start with no input.
fn close_input<A: Allocator + Copy>(command: &mut Command<A>)
    ensures { words_in command.new ≡ words_in command.old }
{
    command.stdin(Stdio::null());
}

/// Creates the file if it does not exist, and checks that it can be appended to.
fn made_ready<R: Files>(rt: &R, path: &str) -> io::Result<()> {
    refuse_special(rt, path)?;
    OpenOptions::new()
        .append(true)
        .create(true)
        .mode(MODE)
        .open(rt, path)?;
    Ok(())
}

/// Returns whether the id followed by `.log` can be the name of a file in the folder, and not of a hidden one.
fn is_log_name(id: &[u8]) -> bool
    ensures { result ≡ is_log_name id.now }
{
    !is_hidden(id) && are_log_bytes(id)
}

fn are_log_bytes(bytes: &[u8]) -> bool
    ensures { result ≡ list_all is_log_byte bytes.now }
{
    bytes.iter().all(|byte| is_log_byte(*byte))
}

fn is_log_byte(byte: u8) -> bool
    ensures { result ≡ is_log_byte byte }
{
    (33..=126).contains(&byte) && byte != b'/'
}
