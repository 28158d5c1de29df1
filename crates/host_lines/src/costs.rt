//! Why a child is stopped after inittab was read again.

ghost use Rattle.std.specs.Prelude.{◌≡◌, option_copied};
ghost use Rattle.host_lines.specs.Costs.{stops_child, line_of};

use init_words::{Act, Entry, Stage, lives};

/// The effect on a child of an inittab that was read again, in the stage in which it was read.
#[derive(Clone, Copy, PartialEq)]
pub enum ChildLine {
    /// The table has no line with its id.
    Gone,
    /// Its line has the action `off`.
    Off,
    /// Its line may run in the stage, so the child is stopped only if the action of the line has changed.
    ActionChanged,
    /// Its line may not run in the stage.
    NotInLevel,
}

impl ChildLine {
    /// Returns the effect of a table on a child, given the table's entry with the child's id, if there is one.
    pub fn of(entry: Option<&Entry>, stage: Stage) -> ChildLine
        ensures { result ≡ line_of (option_copied entry.entry) stage }
    {
        match entry {
            None => ChildLine::Gone,
            Some(entry) if matches!(entry.act, Act::Off) => ChildLine::Off,
            Some(entry) if lives(entry, stage) => ChildLine::ActionChanged,
            Some(_) => ChildLine::NotInLevel,
        }
    }

    /// Returns whether a child that is stopped is stopped because of this reading of inittab, and not because the stage
    /// has changed since.
    pub fn stops_child(self, is_same_stage: bool) -> bool
        ensures { result ≡ stops_child self is_same_stage }
    {
        is_same_stage || matches!(self, ChildLine::Gone | ChildLine::Off)
    }
}
