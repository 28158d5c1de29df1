//! A run of initd on the operating system.

ghost use Rattle.std.specs.Prelude.{◌≡◌, ◌≤◌, ℕ, IsTrue, []};
ghost use Rattle.std.specs.List.{list_all};
ghost use Rattle.init_words.specs.declared.limits.TheConstants.{GRACE};
ghost use Rattle.initctl_frame.specs.Blocks.{requests_in_blocks};
ghost use Rattle.supervisor.specs.Requests.{bytes_of};
ghost use Rattle.supervisor.specs.Texts.{are_given_back};
ghost use Rattle.initd_laws.specs.Requests.{leaves_time};
ghost use Rattle.initd_laws.specs.Signals.{keeps_to_children, kills_warned, numbers_are_new};

use crate::command::run_words;
use crate::os_hosts::OsHosts;
use program_io::{Reporter, Texts};
use std::alloc::Global;
use std::fs::File;
use std::io::Write;
use std::process::Processes;
use std::rt::{Clock, Files};
use trace_files::Traces;

/// Runs initd with these arguments, as [`run_words`] does, on the operating system. Returns the exit status.
///
/// If the kernel returns no number of an unreaped child from fork(2), init waits for and signals only its own children.
/// If also each request for a runlevel allows at least `grace` seconds, and the saved state comes back in a permitted
/// way, each SIGKILL goes to a process that a SIGTERM reached at least `grace` seconds earlier.
pub fn run_on_system<R, T, Q, F, W, E>(
    rt: &R,
    texts: &T,
    hosts: &mut OsHosts<Q>,
    traces: &mut F,
    alloc: Global,
    words: Vec<String>,
    out: &mut W,
    err: &mut E,
) -> u8
where
    R: Processes + Files<File = File> + Alloc + Eprint + Clock,
    T: Texts,
    Q: Processes + Files<File = File> + Clock + Print + Eprint + Clone + Drop,
    F: Traces,
    W: Write,
    E: Reporter,
    requires { hosts.old.calls ≡ [] }
    ensures targets { IsTrue (numbers_are_new hosts.new.asked)
        → IsTrue (keeps_to_children hosts.new.asked) }
    ensures kills { (grace : ℕ) → grace ≤ GRACE → IsTrue (numbers_are_new hosts.new.asked)
        → IsTrue (list_all (leaves_time grace) (requests_in_blocks (bytes_of hosts.new.calls)))
        → IsTrue (are_given_back hosts.new.calls)
        → IsTrue (kills_warned grace hosts.new.asked) }
{
    let status = run_words(rt, texts, hosts, traces, alloc, words, out, err);
    let _asked = hosts.asked();
    status
}
