//! The children that init waits for when it is at rest, the reason for each, and messages about them; see init(8). Init
//! never waits without a reason, and a level is settled in the end.
#![tactic(auto)]

mod arrivals;
mod awaited;
mod lines;
mod requests;
mod rests;

pub use arrivals::law_of_arrival;
pub use awaited::AwaitedChildren;
pub use lines::waiting_lines;
pub use requests::law_of_request;
pub use rests::{Awaited, WhyAwaited, law_of_awaited, law_of_coming, law_of_rest};
