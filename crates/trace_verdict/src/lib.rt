//! Judges the text of a trace that arrives in pieces, for example from a file. It judges one happening at a time, and
//! keeps in memory only the facts that the laws depend on, and the last happening while it is incomplete.
#![tactic(auto)]

mod findings;
mod lines;
mod readers;
mod text_judges;

pub use findings::{Breach, Finding};
pub use readers::TextReader;
pub use text_judges::TextJudge;
