//! The state of each entry at the end of a trace, and the reason why an entry is not started next.
//!
//! A view reads the happenings of a trace, whatever program wrote it, up to the first one that breaks a law. Its
//! answers agree with the definitions of `trace_events`. A start is due exactly if there is no reason against it.
#![tactic(auto)]

mod calls;
mod child_lists;
mod children;
mod last_lines;
mod laws;
mod rows;
mod seen_texts;
mod standings;
mod text_views;
mod views;
mod whys;
mod wishes;

pub use children::BornChild;
pub use last_lines::LastLines;
pub use laws::law_of_reasons;
pub use rows::{Births, Ending, Row};
pub use seen_texts::{ObservedTrace, TraceObserver};
pub use standings::{Excluded, Standing};
pub use text_views::{TextView, ViewEnd};
pub use views::TraceView;
pub use whys::{Why, why_by};
pub use wishes::Wish;
