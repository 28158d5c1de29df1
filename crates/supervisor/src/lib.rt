//! A turn of init over its host, its log and its core, and a run of many turns (init(8)).
//!
//! A turn reads the clock, the bytes of requests and the late answers, begins a round, and carries out init's steps
//! until none is due. The calls that the host records determine the trace of a turn, and the log contains this trace,
//! unless it failed. Laws state which trace and children remain if init is killed during a call.
//!
//! The definitions state how the calls of a host determine a trace, and how a turn changes the host, the log and the
//! core. A host records its calls and their answers, newest first; together with the point before them, they
//! determine the trace.
#![tactic(auto)]

mod answering;
mod edge_laws;
mod edges;
mod hearing;
mod laws;
mod noting;
mod opening;
mod ordering;
mod reexecuting;
mod rereading;
mod serving;
mod stepping;

pub use edge_laws::{law_of_children, law_of_parts, law_of_requests, law_of_texts};
pub use edges::Edge;
pub use laws::{law_of_a_crash, law_of_held_looks, law_of_openings};
pub use noting::StampedCalls;
pub use opening::Opening;
pub use serving::{IgnoringObserver, Served, TurnObserver, serve, turn};

/// The maximum number of bytes of requests that a turn reads.
pub const BYTE_LIMIT: usize = 4_096;

/// The maximum number of bytes of requests that a turn reads in one call.
pub const PIECE: usize = 256;

/// The maximum number of late answers that a turn handles.
pub const LATE_LIMIT: usize = 4_096;

/// The maximum number of steps that init takes in a turn.
pub const STEP_LIMIT: usize = 10_000;
