//! The actions of inittab(5), and the meaning of each for an entry and its process.

ghost use Rattle.std.specs.Prelude.{◌≡◌};
ghost use Rattle.init_words.specs.Actions.{word_of, act_read, starts_by, lives_by, waited_by, ignores_levels, default_levels, has_process, needs_process, is_called_by, is_ondemand, stays_called, wanted_by, is_limited, served_by};

use crate::levels::{Mark, names};
use crate::orders::PowerKind;
use crate::stages::Stage;

/// The action in the third field of an inittab(5) entry.
#[derive(Clone, Copy, PartialEq, Eq)]
pub enum Act {
    Sysinit,
    Boot,
    Bootwait,
    Wait,
    Once,
    Respawn,
    Ondemand,
    Powerwait,
    Powerfail,
    Powerokwait,
    Powerfailnow,
    Off,
    Initdefault,
    Ctrlaltdel,
    Kbrequest,
}

/// The fifteen actions of inittab(5).
pub const ACTS: [Act; 15] = [
    Act::Sysinit,
    Act::Boot,
    Act::Bootwait,
    Act::Wait,
    Act::Once,
    Act::Respawn,
    Act::Ondemand,
    Act::Powerwait,
    Act::Powerfail,
    Act::Powerokwait,
    Act::Powerfailnow,
    Act::Off,
    Act::Initdefault,
    Act::Ctrlaltdel,
    Act::Kbrequest,
];

impl Act {
    /// Returns the name of the action in inittab(5), in lower case.
    pub fn word(self) -> &'static [u8]
        ensures { result.now ≡ word_of self }
    {
        match self {
            Act::Sysinit => b"sysinit",
            Act::Boot => b"boot",
            Act::Bootwait => b"bootwait",
            Act::Wait => b"wait",
            Act::Once => b"once",
            Act::Respawn => b"respawn",
            Act::Ondemand => b"ondemand",
            Act::Powerwait => b"powerwait",
            Act::Powerfail => b"powerfail",
            Act::Powerokwait => b"powerokwait",
            Act::Powerfailnow => b"powerfailnow",
            Act::Off => b"off",
            Act::Initdefault => b"initdefault",
            Act::Ctrlaltdel => b"ctrlaltdel",
            Act::Kbrequest => b"kbrequest",
        }
    }

    /// Returns the action with this name in inittab(5), which must be in lower case.
    #[tactic(auto, unfolding(crate::specs::Actions::act_read))]
    pub fn read(word: &[u8]) -> Option<Act>
        ensures { result ≡ act_read word.now }
    {
        ACTS.iter().copied().find(|act| act.word() == word)
    }

    /// Returns whether an entry with this action and these runlevels is started in the stage (inittab(5)).
    pub fn starts(self, levels: &[Mark], stage: Stage) -> bool
        ensures { result ≡ starts_by self levels.now stage }
    {
        match (self, stage) {
            (Act::Sysinit, Stage::Sysinit) => true,
            (Act::Boot | Act::Bootwait, Stage::Boot) => true,
            (
                Act::Wait
                | Act::Once
                | Act::Respawn
                | Act::Powerwait
                | Act::Powerfail
                | Act::Powerokwait
                | Act::Powerfailnow,
                Stage::Run(level),
            ) => names(levels, Mark::At(level)),
            (Act::Ondemand, Stage::Run(level)) => level.is_numbered(),
            _ => false,
        }
    }

    /// Returns whether a child of an entry with this action and these runlevels may keep running in the stage; if not,
    /// it is stopped (init(8)).
    pub fn lives(self, levels: &[Mark], stage: Stage) -> bool
        ensures { result ≡ lives_by self levels.now stage }
    {
        match (self, stage) {
            (Act::Boot | Act::Bootwait, Stage::Run(_)) => true,
            _ => self.starts(levels, stage),
        }
    }

    /// Returns whether init waits for the process to end before it starts later entries (inittab(5)).
    pub fn is_waited(self) -> bool
        ensures { result ≡ waited_by self }
    {
        matches!(
            self,
            Act::Sysinit | Act::Bootwait | Act::Wait | Act::Powerwait | Act::Powerokwait
        )
    }

    /// Returns whether the runlevels field of entries with this action is ignored (inittab(5)).
    pub fn ignores_levels(self) -> bool
        ensures { result ≡ ignores_levels self }
    {
        matches!(self, Act::Sysinit | Act::Boot | Act::Bootwait)
    }

    /// Returns the characters that an empty runlevels field means for this action.
    pub fn default_levels(self) -> &'static [u8]
        ensures { result.now ≡ default_levels self }
    {
        match self {
            Act::Powerwait | Act::Powerfail | Act::Powerokwait | Act::Powerfailnow => {
                b"S0123456789"
            }
            Act::Initdefault => b"",
            _ => b"0123456789",
        }
    }

    /// Returns whether entries with this action keep their process field. Those of initdefault have none (inittab(5)).
    pub fn has_process(self) -> bool
        ensures { result ≡ has_process self }
    {
        !matches!(self, Act::Initdefault)
    }

    /// Returns whether the process field of entries with this action must contain more than blanks and tabs.
    pub fn needs_process(self) -> bool
        ensures { result ≡ needs_process self }
    {
        !matches!(
            self,
            Act::Initdefault | Act::Off | Act::Ctrlaltdel | Act::Kbrequest
        )
    }

    /// Returns whether a power event of this kind calls entries with this action (inittab(5)).
    pub fn is_called_by(self, kind: PowerKind) -> bool
        ensures { result ≡ is_called_by kind self }
    {
        match kind {
            PowerKind::Fail => matches!(self, Act::Powerwait | Act::Powerfail),
            PowerKind::FailNow => matches!(self, Act::Powerfailnow),
            PowerKind::Ok => matches!(self, Act::Powerokwait),
        }
    }

    /// Returns whether a letter calls entries with this action (telinit(8)).
    pub fn is_ondemand(self) -> bool
        ensures { result ≡ is_ondemand self }
    {
        matches!(self, Act::Ondemand)
    }

    /// Returns whether an entry with this action stays called when it is started. An ondemand entry does, so it is
    /// restarted whenever its process ends; an entry for a power event is started once.
    pub fn stays_called(self) -> bool
        ensures { result ≡ stays_called self }
    {
        matches!(self, Act::Ondemand)
    }

    /// Returns whether an entry with this action that starts in the stage is to be started now: a respawn entry if it
    /// has no child and none is being started (`idle`), an entry of boot or of a level if its start was not ordered
    /// there yet (`fresh`), an entry for a power event if it was called, and an ondemand entry if it was called and is
    /// idle.
    pub fn is_wanted(self, idle: bool, fresh: bool, called: bool) -> bool
        ensures { result ≡ wanted_by self idle fresh called }
    {
        match self {
            Act::Respawn => idle,
            Act::Sysinit | Act::Boot | Act::Bootwait | Act::Wait | Act::Once => fresh,
            Act::Powerwait | Act::Powerfail | Act::Powerfailnow | Act::Powerokwait => called,
            Act::Ondemand => called && idle,
            Act::Off | Act::Initdefault | Act::Ctrlaltdel | Act::Kbrequest => false,
        }
    }

    /// Returns whether the respawn limit applies to entries with this action (init(8)).
    pub fn is_limited(self) -> bool
        ensures { result ≡ is_limited self }
    {
        matches!(self, Act::Respawn | Act::Ondemand)
    }

    /// Returns whether an entry with this action no longer prevents its level from being settled: a wait or once entry
    /// if a start was ordered (`asked`), a respawn entry if it has a child or is held (`kept_up`), and any other entry
    /// always.
    pub fn is_served(self, asked: bool, kept_up: bool) -> bool
        ensures { result ≡ served_by self asked kept_up }
    {
        match self {
            Act::Wait | Act::Once => asked,
            Act::Respawn => kept_up,
            _ => true,
        }
    }
}
