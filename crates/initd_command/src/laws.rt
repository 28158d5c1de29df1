//! Laws about the channel, which relate the bytes of a file that only grew, the requests that telinit appends to it,
//! and the requests that init receives; and a law about the system calls of a run.

ghost use Rattle.std.specs.Prelude.{◌≡◌, ◌++◌, ◌%◌, ◌≤◌, [], ℕ, IsTrue, List, Some, length};
ghost use Rattle.std.specs.List.{list_all};
ghost use Rattle.init_words.specs.declared.limits.TheConstants.{GRACE};
ghost use Rattle.initctl_frame.specs.Blocks.{requests_in_blocks};
ghost use Rattle.supervisor.specs.Texts.{are_given_back};
ghost use Rattle.initd_laws.specs.Requests.{leaves_time};
ghost use Rattle.initd_laws.specs.Signals.{keeps_to_children, kills_warned, numbers_are_new};
ghost use Rattle.initd_command.specs.Endings.{Ending};
ghost use Rattle.initd_command.specs.Hosts.{HostsState, IsAsked, IsOfSystem};
ghost use Rattle.initd_command.specs.Ran.{ArgumentsAsk, RunRecord};
ghost use Rattle.host_files.specs.Channels.{ChannelState, progress_of};
ghost use Rattle.host_files.specs.Grown.{AreOfFile};
ghost use Rattle.host_system.specs.Hearing.{AreBytesOfChannel};
ghost use Rattle.supervisor.specs.Requests.{bytes_of};
ghost use Rattle.initctl_frame.specs.declared.frames.TheConstants.{BLOCK};
ghost use Rattle.initd_command.specs.Heard.{IsNext};
ghost use Rattle.initd_command.specs.Words.{AppendsRequest, HostCall, KnownBytes, KnownTexts};

/// States that the request that telinit(8) appended to a channel of whole requests is the next one that init receives,
/// after the requests that were already in the channel.
///
/// This holds if init reads all bytes of the channel, or all bytes after whole requests that it skipped, as with
/// `--fresh`. The function does nothing: its contract is the law.
pub fn law_of_telinit()
    ensures { (home : List ℕ) (words : List (List ℕ)) (old new : KnownBytes)
        → AppendsRequest home words old new → IsNext home words old new }
{}

/// States that the calls of a host returned all bytes of its channel, if the channel's file only grew, the host read
/// it to the end, and the calls returned everything that was read.
///
/// The bytes are all bytes of the file, or all bytes after whole requests that the host skipped, as with `--fresh`. So
/// [`law_of_telinit`] applies to them. The function does nothing: its contract is the law.
pub fn law_of_a_channel()
    ensures { (calls : List HostCall) (channel : ChannelState) (device number : ℕ) (text : List ℕ)
        → AreBytesOfChannel calls channel → channel.rest ≡ []
        → AreOfFile device number text channel.fresh channel.told
        → (progress_of channel.fresh channel.told).heard ≡ length text
        → (front : List ℕ) × (front ++ bytes_of calls ≡ text) × (length front % BLOCK ≡ 0) }
{}

/// States a property of the system calls of a run, given the last clause of [`run_words`](crate::run_words): init
/// waits for and signals only its own children, and each SIGKILL follows a SIGTERM by at least `grace` seconds.
///
/// The function does nothing: its contract is the law.
pub fn law_of_a_run()
    ensures targets { (hosts : HostsState) → IsAsked hosts.calls hosts.asked
        → IsTrue (numbers_are_new hosts.asked) → IsTrue (keeps_to_children hosts.asked) }
    ensures kills { (text_at : KnownTexts) (words : List (List ℕ)) (hosts : HostsState)
        (ending : Ending) (old new : RunRecord) → old.calls ≡ Some []
        → new.calls ≡ Some hosts.calls → IsAsked hosts.calls hosts.asked
        → ArgumentsAsk text_at words (IsOfSystem hosts) ending old new → (grace : ℕ) → grace ≤ GRACE
        → IsTrue (numbers_are_new hosts.asked)
        → IsTrue (list_all (leaves_time grace) (requests_in_blocks (bytes_of hosts.calls)))
        → IsTrue (are_given_back hosts.calls) → IsTrue (kills_warned grace hosts.asked) }
{}
