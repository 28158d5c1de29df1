//! Two laws about the system calls of a run: which processes init waits for and signals, and when it sends SIGKILL.

ghost use Rattle.std.specs.Prelude.{◌≡◌, ◌≤◌, ◌∷◌, ◌++◌, true, ℕ, IsTrue, List, Option};
ghost use Rattle.std.specs.List.{list_all};
ghost use Rattle.init_words.specs.declared.entries.Entry.{Entry};
ghost use Rattle.init_words.specs.declared.levels.Level.{Level};
ghost use Rattle.init_words.specs.declared.limits.TheConstants.{GRACE};
ghost use Rattle.inittab_text.specs.Tables.{is_distinct};
ghost use Rattle.initctl_frame.specs.Blocks.{requests_in_blocks};
ghost use Rattle.host_calls.specs.Calls.{HostCall};
ghost use Rattle.host_calls.specs.Held.{HeldChildren};
ghost use Rattle.host_calls.specs.Settings.{HostSettings};
ghost use Rattle.supervisor.specs.Fronts.{AtEachCall};
ghost use Rattle.supervisor.specs.CallsLead.{IfPossibleFrom, CallsWereInPlace};
ghost use Rattle.supervisor.specs.Requests.{bytes_of};
ghost use Rattle.supervisor.specs.Texts.{are_given_back};
ghost use Rattle.supervisor.specs.Opening.{IsOpening};
ghost use Rattle.host_system.specs.Asking.{AreSystemCallsFor};
ghost use Rattle.host_system.specs.Systems.{SystemCall};
ghost use Rattle.initd_laws.specs.Requests.{leaves_time};
ghost use Rattle.initd_laws.specs.Signals.{keeps_to_children, kills_warned, numbers_are_new};

/// States that a host on the operating system waits for and signals only children that it started and has not reaped.
///
/// It assumes that fork(2) never returns the number of an unreaped child. The function does nothing: its
/// contract is the law.
pub fn law_of_targets()
    ensures whole { (settings : HostSettings) (calls : List HostCall) (held : HeldChildren)
        (asked : List SystemCall) → AreSystemCallsFor settings calls held asked
        → IsTrue (numbers_are_new asked) → IsTrue (keeps_to_children asked) }
    // this also holds up to each call, whatever the kernel does later
    ensures until { (settings : HostSettings) (calls : List HostCall) (held : HeldChildren)
        (later earlier : List SystemCall) → AreSystemCallsFor settings calls held (later ++ earlier)
        → IsTrue (numbers_are_new earlier) → IsTrue (keeps_to_children earlier) }
{}

/// States that in a run each SIGKILL goes to a process that a SIGTERM reached at least `grace` seconds earlier, with no
/// SIGKILL in between.
///
/// It assumes that each request for a runlevel allows that many seconds (telinit(8), `-t`), that fork(2) never returns
/// the number of an unreaped child, and that init's saved state comes back in a permitted way. The function does
/// nothing: its contract is the law.
pub fn law_of_kills()
    ensures { (settings : HostSettings) (level : Option Level) (table : List Entry)
        (next : HostCall) (calls : List HostCall) (held : HeldChildren) (asked : List SystemCall)
        (grace : ℕ) → AreSystemCallsFor settings calls held asked
        → AtEachCall (IfPossibleFrom (IsOpening level table) CallsWereInPlace) (next ∷ calls)
        → is_distinct table ≡ true → IsTrue (numbers_are_new asked)
        → IsTrue (are_given_back calls) → grace ≤ GRACE
        → IsTrue (list_all (leaves_time grace) (requests_in_blocks (bytes_of calls)))
        → IsTrue (kills_warned grace asked) }
{}
