//! The options of a host over the operating system: its paths and its behaviour.

ghost use Rattle.std.specs.Prelude.{◌≡◌, false};

/// How long a host pauses.
#[derive(Clone, Copy)]
pub enum Pace {
    /// One second.
    Second,
    /// A tenth of the sum of the pauses since something last happened, between 100 microseconds and a second. Something
    /// happened if a child was born or had ended, a signal was sent, or bytes were read from the channel.
    Tenth,
    /// At most this many hundredths of a second.
    ///
    /// If something happened since the last pause, as for `Tenth`, the next one lasts a thousandth of the maximum. It
    /// is shorter if there are few children: 2 microseconds for each child, but at least 100 microseconds. Otherwise a
    /// pause lasts twice as long as the last one, up to the maximum. With `by_cost`, and if there are children, it also
    /// lasts no longer than 2,000 times the length of the last turn, or a tenth of a second if that is longer. A pause
    /// ends when a child is due to be sent KILL, or an entry is no longer held.
    UpTo { hundredths: u64, by_cost: bool },
}

/// The options of a host: its paths and its behaviour.
#[derive(Clone, Copy)]
pub struct HostOptions<'a> {
    /// The path of the inittab, and the path of the folder with its further files, which `with_folder` reads.
    pub inittab: &'a str,
    pub folder: Option<&'a str>,
    /// The path of the request channel.
    pub channel: &'a str,
    /// The path of the state file. A text is first written to this path followed by `.new`, and then renamed. If
    /// anything but a plain file exists at one of the two paths, the text is rejected.
    pub state: &'a str,
    /// The path of a further file that the state must not replace; the host's own other files are never replaced. If
    /// it is given, the host also checks at the start whether the state could be written, and reports on standard
    /// error if not.
    pub spared: Option<&'a str>,
    /// The folder in which the output of each child is appended to `ID.log`. If the id begins with a dot or has a
    /// slash, the file is `_.log`, which is reported.
    ///
    /// With logs, children have no input. Each is started by `sh`, which becomes the process, or, if the program is
    /// missing, reports that in the log and exits with an error status. If a log cannot be opened, that is reported,
    /// and the child is started as if there were no logs.
    pub logs: Option<&'a str>,
    /// Whether each child is started in a session of its own, by setsid(1), which becomes the program. A signal is
    /// then sent to the child's process group, or to the child if it has no group of its own yet.
    pub groups: bool,
    /// The longest delay of a start in seconds, if starts are delayed. A child is then started by `sh`, which waits
    /// and becomes the program, if its id was started before and, since that child began to run, less than this time
    /// has passed. The delay is one second, and then twice the last one, up to the longest. The delays start again
    /// from zero after a signal to the child, and in each stage.
    pub respawn_delay: Option<u16>,
    pub pace: Pace,
    /// Whether the bell is created at the start, by mkfifo(1), if nothing exists at its path. A failure is reported,
    /// and the host works without a bell.
    pub bell: bool,
    /// Whether a helper watches the children while nothing happens. It exits when one of them ends; it is waitpid(1),
    /// or, if there is none, perl(1). The end of a child then ends a pause. While the helper works, pauses do not
    /// depend on the cost of a turn; while it does not, which is reported, they last at most a second.
    pub watch: bool,
    /// Whether requests that are in the channel when it is first read are skipped: reading then begins after the last
    /// whole request. If the channel does not exist at that time, nothing is skipped.
    pub fresh: bool,
    /// Whether each birth, each end and each signal of a child is reported on standard error; and also, once, each
    /// ignored file that appears in the inittab's folder after the start.
    pub verbose: bool,
    /// Whether init rejects an inittab that has a faulty line, which the host then reports.
    pub strict: bool,
    /// Whether the host checks, before the first start, that children can be sent TERM, and reports on standard error
    /// if not.
    pub sends_term: bool,
}

impl HostOptions<'_> {
    /// Returns options with empty paths and everything else turned off.
    pub fn none() -> HostOptions<'static>
        ensures strict { result.strict ≡ false }
        ensures verbose { result.verbose ≡ false }
        ensures fresh { result.fresh ≡ false }
    {
        HostOptions {
            inittab: "",
            folder: None,
            channel: "",
            state: "",
            spared: None,
            logs: None,
            groups: false,
            respawn_delay: None,
            pace: Pace::Second,
            bell: false,
            watch: false,
            fresh: false,
            verbose: false,
            strict: false,
            sends_term: false,
        }
    }
}
