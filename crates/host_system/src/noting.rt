//! A record of the calls to the system, which only proofs can read, and the types that add a call to it, one for each
//! kind of call.

ghost use Rattle.std.specs.Prelude.{◌≡◌, []};

use init_words::SignalKind;
use program_io::{Noted, Reads};
use std::alloc::Allocator;
use std::io;
use std::marker::{Model, PhantomData};
use std::process::{Command, ExitStatus};
use std::time::Duration;

/// A list of calls, newest first. It only serves as the type of a `Noted` value; no list is ever created.
pub struct SystemCallList {
    marker: PhantomData<()>,
}

impl Model for SystemCallList {
    ghost use Rattle.std.specs.Prelude.{List, []};
    ghost use Rattle.host_system.specs.Systems.{SystemCall};

    ghost Value = { List SystemCall };

    ghost view = { λ _. [] };
}

/// Creates the empty list of calls.
struct Empty;

impl Reads<(), SystemCallList> for Empty {
    ghost use Rattle.std.specs.Prelude.{[]};

    ghost value = { λ _. [] };
}

/// Creates a record of no calls.
pub fn nothing_asked() -> Noted<SystemCallList>
    ensures { result.value ≡ [] }
{
    Noted::of::<(), Empty>(&())
}

/// Returns the record that `M` derives from the earlier record and this call.
pub(crate) fn noted<'a, X: Copy, M: Reads<(&'a Noted<SystemCallList>, X), SystemCallList>>(
    before: &'a Noted<SystemCallList>,
    call: X,
) -> Noted<SystemCallList>
    ensures { result.value ≡ M.value (record { 0 = before.entry; 1 = call }) }
{
    Noted::of::<(&'a Noted<SystemCallList>, X), M>(&(before, call))
}

/// Adds the start of a program to the list. The start is recorded as failed until `Started` records its success.
pub(crate) struct Spawned;

impl<'a, A: Allocator> Reads<(&'a Noted<SystemCallList>, &'a Command<A>), SystemCallList>
    for Spawned {
    ghost use Rattle.std.specs.Prelude.{◌∷◌, None};
    ghost use Rattle.host_system.specs.Commands.{words_in};
    ghost use Rattle.host_system.specs.Systems.SystemCall.{spawn};

    ghost value = { λ asked. spawn (words_in asked.1.now) None ∷ asked.0.now.value };
}

/// Records that the newest call, a start, started the process with this number.
pub(crate) struct Started;

impl<'a> Reads<(&'a Noted<SystemCallList>, u32), SystemCallList> for Started {
    ghost use Rattle.host_system.specs.Systems.{born};

    ghost value = { λ asked. born asked.1 asked.0.now.value };
}

/// Adds a wait for the process with this number to the list.
pub(crate) struct Waited;

impl<'a> Reads<
    (
        &'a Noted<SystemCallList>,
        (u32, &'a io::Result<Option<ExitStatus>>),
    ),
    SystemCallList,
> for Waited {
    ghost use Rattle.std.specs.Prelude.{◌∷◌};
    ghost use Rattle.host_system.specs.Systems.{waited};
    ghost use Rattle.host_system.specs.Systems.SystemCall.{try_wait};

    ghost value = { λ asked. try_wait asked.1.0 (waited asked.1.1.now) ∷ asked.0.now.value };
}

/// Adds a KILL of the process with this number to the list.
pub(crate) struct Killed;

impl<'a> Reads<(&'a Noted<SystemCallList>, (u32, &'a io::Result<()>)), SystemCallList> for Killed {
    ghost use Rattle.std.specs.Prelude.{◌∷◌, is_ok};
    ghost use Rattle.init_words.specs.declared.orders.SignalKind.TheVariants.{Kill};
    ghost use Rattle.host_system.specs.Systems.SystemCall.{send};

    ghost value = { λ asked. send Kill asked.1.0 (is_ok asked.1.1.now) ∷ asked.0.now.value };
}

/// Adds a TERM to the process with this number to the list.
pub(crate) struct Terminated;

impl<'a> Reads<(&'a Noted<SystemCallList>, (u32, &'a io::Result<()>)), SystemCallList>
    for Terminated {
    ghost use Rattle.std.specs.Prelude.{◌∷◌, is_ok};
    ghost use Rattle.init_words.specs.declared.orders.SignalKind.TheVariants.{Term};
    ghost use Rattle.host_system.specs.Systems.SystemCall.{send};

    ghost value = { λ asked. send Term asked.1.0 (is_ok asked.1.1.now) ∷ asked.0.now.value };
}

/// Adds a signal to the process group of the process with this number to the list.
pub(crate) struct GroupSent;

impl<'a> Reads<
    (
        &'a Noted<SystemCallList>,
        (SignalKind, u32, &'a io::Result<()>),
    ),
    SystemCallList,
> for GroupSent {
    ghost use Rattle.std.specs.Prelude.{◌∷◌, is_ok};
    ghost use Rattle.host_system.specs.Systems.SystemCall.{send_group};

    ghost value = { λ asked.
        send_group asked.1.0 asked.1.1 (is_ok asked.1.2.now) ∷ asked.0.now.value };
}

/// Adds a program that was run to its end to the list.
pub(crate) struct Ran;

impl<'a, A: Allocator> Reads<(&'a Noted<SystemCallList>, &'a Command<A>), SystemCallList> for Ran {
    ghost use Rattle.std.specs.Prelude.{◌∷◌};
    ghost use Rattle.host_system.specs.Commands.{words_in};
    ghost use Rattle.host_system.specs.Systems.SystemCall.{run};

    ghost value = { λ asked. run (words_in asked.1.now) ∷ asked.0.now.value };
}

/// Adds a reading of the clock to the list.
pub(crate) struct ClockRead;

impl<'a> Reads<(&'a Noted<SystemCallList>, &'a io::Result<Duration>), SystemCallList>
    for ClockRead {
    ghost use Rattle.std.specs.Prelude.{◌∷◌, option_map};
    ghost use Rattle.std.specs.Result.{result_ok};
    ghost use Rattle.std.specs.Duration.{as_nanos};
    ghost use Rattle.host_system.specs.Systems.SystemCall.{read_clock};

    ghost value = { λ asked.
        read_clock (option_map as_nanos (result_ok asked.1.now)) ∷ asked.0.now.value };
}

/// Adds a reading of the file at a path to the list.
pub(crate) struct FileRead;

impl<'a, A: Allocator> Reads<
    (
        &'a Noted<SystemCallList>,
        (&'a str, &'a io::Result<Vec<u8, A>>),
    ),
    SystemCallList,
> for FileRead {
    ghost use Rattle.std.specs.Prelude.{◌∷◌};
    ghost use Rattle.host_files.specs.Folders.{text_of};
    ghost use Rattle.host_system.specs.Systems.SystemCall.{read_file};

    ghost value = { λ asked.
        read_file asked.1.0.now (text_of asked.1.1.now) ∷ asked.0.now.value };
}
