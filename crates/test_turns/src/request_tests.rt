//! Tests of blocks of requests that are cut at any position and arrive in different turns.

use crate::runs::{Bench, bench_of, serve_on};
use host_calls::Bytes;
use host_scripted::MemoryHost;
use init_words::{Level, Memory};
use initctl_frame::{BLOCK, Blocks, Cause, HeardRequest};
use std::alloc::Global;
use test_support::{blocks_of, host_of};
use trace_events::{Happening, HappeningIn};
use trace_log::ListLog;

/// The requests in a good block, a bad one and a good one: `q bad 2`.
const REQUESTS: &[HeardRequest] = &[
    HeardRequest::Reload,
    HeardRequest::Nothing(Cause::Magic),
    HeardRequest::Level(Level::L2, 5),
];

/// Reports whether the log has exactly the first requests, up to the given number.
fn has_requests(list: &[HappeningIn<Global>], count: usize) -> bool {
    let mut position = 0;
    for happening in list {
        if let Happening::Got(request) = happening {
            if REQUESTS.get(position) != Some(request) {
                return false;
            }
            position += 1;
        }
    }
    position == count
}

/// Gives the host the bytes of the requests: the bytes up to a position, and the others in pieces of one length, one
/// piece per turn.
fn give_pieces(
    global: Global,
    host: &mut MemoryHost,
    front: &[u8],
    rest: &[u8],
    length: usize,
) -> Result<(), Memory> {
    if !front.is_empty() {
        host.give_bytes(Ok(Bytes::copy_of(global, front)?))?;
    }
    for piece in rest.chunks(length.max(1)) {
        host.give_bytes(Ok(Bytes::new(global)))?;
        host.give_bytes(Ok(Bytes::copy_of(global, piece)?))?;
    }
    host.give_bytes(Ok(Bytes::new(global)))
}

/// Reports whether, after a turn on the bytes up to a position, the requests in complete blocks were read, and no step
/// is due. If there are none, there are five happenings: the time, the round, two stages, and the settled level.
fn hears_whole_blocks(
    global: Global,
    bench: &mut Bench<Global, Global, ListLog>,
    blocks: &mut Blocks,
    heard: usize,
) -> bool {
    let is_done = supervisor::turn(global, &mut bench.core, &mut bench.edge, blocks, false);
    let list = bench.edge.log().list();
    is_done
        && bench.core.drained()
        && blocks.rest() == heard % BLOCK
        && has_requests(list, heard / BLOCK)
        && (heard >= BLOCK || list.len() == 5)
}

/// Reports whether all requests are read in the given number of turns, if the bytes up to a position come first, and
/// the others in pieces of this length. If no number is given, it must be two turns, of which the first reads the
/// complete blocks.
fn are_heard(global: Global, position: usize, length: usize, turns: Option<u64>) -> Option<bool> {
    let bytes = blocks_of(global, "q bad 2")?;
    let (front, rest) = bytes.split_at_checked(position)?;
    let mut host = host_of(global, global, "")?;
    give_pieces(global, &mut host, front, rest, length).ok()?;
    let mut bench = bench_of(global, host, global, b"", ListLog::new(global))?;
    match turns {
        Some(turns) => {
            serve_on(global, &mut bench, turns, false);
            Some(has_requests(bench.edge.log().list(), 3))
        }
        None => {
            let mut blocks = Blocks::new();
            Some(
                hears_whole_blocks(global, &mut bench, &mut blocks, position)
                    && hears_whole_blocks(global, &mut bench, &mut blocks, 1152),
            )
        }
    }
}

/// Lengths of pieces, and the number of turns that it takes to read them.
const LENGTHS: &[(usize, u64)] = &[(1, 1152), (7, 165), (255, 5), (256, 5), (257, 5), (1151, 2)];

#[test]
fn requests_are_those_of_all_bytes(rt: HostRuntime) {
    for position in 0..1152usize {
        assert!(rt;
            are_heard(rt.alloc(), position, 1152, None) == Some(true),
            "at {position}"
        );
    }
    for (length, turns) in LENGTHS {
        assert!(rt;
            are_heard(rt.alloc(), *length, *length, Some(*turns)) == Some(true),
            "{length}"
        );
    }
}
