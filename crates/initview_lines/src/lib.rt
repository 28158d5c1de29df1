//! The lines of initview's answers. About a trace: the state of the entries, the reason why an entry is not started
//! next, and the remaining children. About inittabs: the lines that init ignores, the changes that another inittab
//! makes, also to the children that run at the end of a trace, and the entries that a level starts. The contents of the
//! lines are proved; `tools/rows` tests their wording.
#![tactic(auto)]

mod changes;
mod chart;
mod clocks;
mod dimensions;
mod happenings;
mod json;
mod left;
mod line_sinks;
mod lines;
mod lint;
mod own_lines;
mod part_views;
mod phrases;
mod pieces;
mod plans;
mod reasons;
mod reloads;
mod rows;
mod svg;
mod texts;
mod times;
mod wording;
mod words;

pub use changes::{Change, change_lines};
pub use clocks::Zone;
pub use happenings::{News, add_happening};
pub use left::{is_starting, left_lines};
pub use line_sinks::{LineSink, SinkFault};
pub use lines::{FileLine, Head, IdRow, Line, Reason, RowFormat, Stopping, WhichRows, text_line};
pub use lint::{Findings, lint_parts};
pub use own_lines::id_lines;
pub use part_views::PartView;
pub use pieces::take_lines;
pub use plans::plan_lines;
pub use reasons::{Chain, chain_of, why_lines};
pub use reloads::{law_of_reloads, reload_lines};
pub use rows::{row_line, status_lines};
pub use texts::Bytes;
pub use times::{TimeTaken, add_path_times};
pub use wording::words_of;
