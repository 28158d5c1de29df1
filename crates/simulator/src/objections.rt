//! Why a happening may not come next in a script.

use init_words::{ChildNumber, Id};
use std::error::Error;
use std::fmt;

/// The reason why a happening may not come next in a script.
#[derive(Clone, Copy, Debug, PartialEq, Eq)]
pub enum Objection {
    /// The id has no start that is still to be carried out.
    NoStart(Id),
    /// The id has no look that is still to be carried out.
    NoLook(Id),
    /// The id has no TERM or KILL that is still to be carried out.
    NoSignal(Id),
    /// An unreaped child has this number.
    NumberTaken(ChildNumber),
    /// No living child has this number.
    NoneLiving(ChildNumber),
    /// The id has no dead child with this number.
    NoneDead(Id, ChildNumber),
    /// The id has no answer that init was not told yet.
    NothingDone(Id),
    /// The happening is a step of init.
    OwnStep,
    /// Init does not read inittab at this point.
    NotNow,
    /// The state text of the hand-over has at most this number of bytes.
    NotCut(u64),
    /// No state text of this generation was made before.
    NoneOlder(u64),
    /// The generation number is at its maximum, so no other state text can be made.
    Worn,
}

impl fmt::Display for Objection {
    ghost use Rattle.std.specs.Prelude.{Some};
    ghost use Rattle.simulator.specs.Objections.{objection_text};

    ghost output = { λ objection. Some (objection_text objection) };

    fn fmt<W: fmt::Write>(&self, f: &mut fmt::Formatter<W>) -> fmt::Result {
        match self {
            Objection::NoStart(id) => write!(f, "no start of {} is open", id.as_str()),
            Objection::NoLook(id) => write!(f, "no look of {} is open", id.as_str()),
            Objection::NoSignal(id) => write!(f, "no term or kill of {} is open", id.as_str()),
            Objection::NumberTaken(number) => {
                write!(f, "an unreaped child has the number {}", number.0)
            }
            Objection::NoneLiving(number) => {
                write!(f, "no living child has the number {}", number.0)
            }
            Objection::NoneDead(id, number) => {
                write!(
                    f,
                    "{} has no dead child with the number {}",
                    id.as_str(),
                    number.0
                )
            }
            Objection::NothingDone(id) => write!(f, "there is nothing to tell of {}", id.as_str()),
            Objection::OwnStep => f.write_str("this is a step of init itself"),
            Objection::NotNow => f.write_str("init is not reading the inittab now"),
            Objection::NotCut(bytes) => {
                write!(f, "the state text has no more than {bytes} bytes")
            }
            Objection::NoneOlder(generation) => {
                write!(f, "no state text of generation {generation} was written")
            }
            Objection::Worn => f.write_str("no generation number is left"),
        }
    }
}

impl Error for Objection {}
