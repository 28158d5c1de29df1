//! The timeline of a trace: the lifetimes of the children of each entry, the signals sent to them, holds, failed starts
//! and stages, over the time of the trace. `initview_lines` draws it.
#![tactic(auto)]

mod frames;
mod laws;
mod lives;
mod marks;
mod pieces;
mod rows;
mod sets;

pub use frames::{BAR_LEAST, Frame};
pub use laws::law_of_rows;
pub use lives::{Life, lives_of, marks_for};
pub use marks::{Marks, Shown, TimelineMark};
pub use pieces::{Drawn, Piece, Pieces};
pub use rows::{Row, Seen, State, Timeline, is_ill, is_loud, timeline_of};
