//! The requests that init receives through its control channel: decoding a block of 384 bytes (initreq.h), encoding a
//! request, and splitting a stream of bytes that arrives in arbitrary pieces into requests. Nothing in this crate
//! allocates memory.
#![tactic(auto)]

mod frames;
mod laws;
mod pieces;
mod requests;
mod signs;
mod stream;

pub use frames::{BLOCK, decode, encode, meaning};
pub use laws::blocks_are_parts;
pub use pieces::read_pieces;
pub use requests::{Cause, HeardRequest, Request};
pub use signs::Sign;
pub use stream::Blocks;
