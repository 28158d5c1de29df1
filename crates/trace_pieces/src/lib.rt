//! A trace in pieces (a rotated trace): `TRACE.1`, `TRACE.2` and so on are the files already put away, oldest first;
//! `TRACE` is the file being written; and `TRACE.0.pieces` is the list of the pieces, which init writes.
#![tactic(auto)]

mod lists;
mod names;
mod readers;

pub use lists::{ListLine, Piece, PieceList, is_list, line_text};
pub use names::{FolderNames, are_same, list_path, newest_piece, number_of_file, piece_path};
pub use readers::{PiecedFiles, TraceReader, is_given};
