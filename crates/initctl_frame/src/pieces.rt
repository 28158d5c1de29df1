//! Reads requests from bytes that arrive piece by piece.

ghost use Rattle.std.specs.Prelude.{◌≡◌, ◌≤◌, ◌++◌, ℕ, List, length, flat_map};
ghost use Rattle.std.specs.Option.{option_to_list};
ghost use Rattle.initctl_frame.specs.Blocks.{ReaderAfter, requests_in_blocks};
ghost use Rattle.initctl_frame.specs.Pieces.{StoresRequests};
ghost use Rattle.initctl_frame.specs.declared.requests.HeardRequest.{HeardRequest};

use crate::requests::HeardRequest;
use crate::stream::Blocks;

/// Writes the requests of a stream that arrives in these pieces into `room`, as many as fit, and returns their number.
///
/// They are the requests of the joined bytes, regardless of where the bytes are cut.
pub fn read_pieces(pieces: &[&[u8]], room: &mut [HeardRequest]) -> usize
    ensures { StoresRequests room.old
        (requests_in_blocks (flat_map (λ piece. piece.now) pieces.now)) result room.new }
{
    let mut blocks = Blocks::new();
    let mut count = 0;
    for piece in pieces {
        count = read_piece(&mut blocks, piece, room, count);
    }
    count
}

/// Feeds the whole piece to `blocks`, and writes the completed requests to `room` after the first `count` ones.
/// Returns the new number of requests.
fn read_piece(blocks: &mut Blocks, piece: &[u8], room: &mut [HeardRequest], count: usize) -> usize
    requires { count ≤ length room.old }
    ensures within { result ≤ length room.new }
    ensures stands { (bytes : List ℕ) → ReaderAfter blocks.old bytes
        → ReaderAfter blocks.new (bytes ++ piece.now) }
    ensures fills { (bytes : List ℕ) (places : List HeardRequest) → ReaderAfter blocks.old bytes
        → StoresRequests places (requests_in_blocks bytes) count room.old
        → StoresRequests places (requests_in_blocks (bytes ++ piece.now)) result room.new }
{
    let mut count = count;
    let mut done = 0;
    while done < piece.len() {
        let (taken, got) = blocks.feed(&piece[done..]);
        done += taken;
        count = put(room, count, got);
    }
    count
}

/// Writes a request after the first `count` ones if there is room for it, and returns the new number of requests.
fn put(room: &mut [HeardRequest], count: usize, got: Option<HeardRequest>) -> usize
    requires { count ≤ length room.old }
    ensures within { result ≤ length room.new }
    ensures fills { (places gots : List HeardRequest) → StoresRequests places gots count room.old
        → StoresRequests places (gots ++ option_to_list got) result room.new }
{
    match got {
        Some(got) if count < room.len() => {
            room[count] = got;
            count + 1
        }
        _ => count,
    }
}
