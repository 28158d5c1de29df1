//! Re-execution of init (telinit(8), `u`): init hands over its state as a text, and the next init takes it over.
#![tactic(auto)]

mod handing;
mod taking;

pub use core_text::{StateFault, generation_of};
pub use handing::hand_over;
pub use taking::take_over;
