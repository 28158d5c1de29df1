//! A parsed command line.

ghost use Rattle.std.specs.Prelude.{◌≡◌};
ghost use Rattle.rclinks_command.specs.Command.{keeps_going};
ghost use Rattle.rclinks_command.specs.LineOptions.{line_options};

/// A parsed command line.
#[derive(Clone, Copy)]
pub(crate) struct Line<'f, 'w> {
    /// Report all faults, not only the first one.
    pub(crate) all: bool,
    /// Omit scripts that can't be read or planned.
    pub(crate) skips: bool,
    /// Put scripts that name `$all` last.
    pub(crate) last: bool,
    /// Print the changes of folders instead of making them.
    pub(crate) dry: bool,
    /// Do not read facility files other than the given files.
    pub(crate) bare: bool,
    /// Keep the runlevels of scripts that have links.
    pub(crate) keeps: bool,
    /// Remove links whose script is gone.
    pub(crate) prunes: bool,
    /// The directory of the folders that are written.
    pub(crate) dir: Option<&'w str>,
    /// The paths of the scripts.
    pub(crate) files: &'f [&'w str],
}

impl<'f, 'w> Line<'f, 'w> {
    /// Returns whether the run continues after a fault.
    pub(crate) fn keeps_going(&self) -> bool
        ensures { result ≡ keeps_going (line_options self.now) }
    {
        self.skips || self.all
    }
}
