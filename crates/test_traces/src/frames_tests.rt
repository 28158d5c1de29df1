//! Tests of request blocks as bytes (initreq.h), and of the requests in them (telinit(8)).

use init_words::{Letter, Level, PowerKind};
use initctl_frame::{
    BLOCK, Blocks, Cause, HeardRequest, Request, Sign, decode, encode, meaning, read_pieces,
};
use std::test::Fail;

/// The ints of the block that asks init to read inittab again: magic, RUNLVL, `q`, 5 seconds.
const RELOAD: [u8; 16] = [
    0x69, 0x19, 0x09, 0x03, 1, 0, 0, 0, 0x71, 0, 0, 0, 5, 0, 0, 0,
];

/// The ints of the block that reports that the power is back: magic, POWEROK, and zeros.
const POWER_BACK: [u8; 16] = [0x69, 0x19, 0x09, 0x03, 4, 0, 0, 0, 0, 0, 0, 0, 0, 0, 0, 0];

/// Returns the block with these ints, followed by zeros.
fn block_of(ints: &[u8; 16]) -> [u8; BLOCK] {
    let mut block = [0; BLOCK];
    block[..16].copy_from_slice(ints);
    block
}

/// Returns the block with these ints after the magic.
fn block_of_ints(command: i32, runlevel: i32, sleeptime: i32) -> [u8; BLOCK] {
    let mut block = block_of(&RELOAD);
    block[4..8].copy_from_slice(&command.to_le_bytes());
    block[8..12].copy_from_slice(&runlevel.to_le_bytes());
    block[12..16].copy_from_slice(&sleeptime.to_le_bytes());
    block
}

/// Command, runlevel and sleeptime, and the request in their block.
const ROWS: &[(i32, i32, i32, HeardRequest)] = &[
    (0, 113, 5, HeardRequest::Nothing(Cause::LeftOut)),
    (2, 113, 5, HeardRequest::Power(PowerKind::Fail)),
    (3, 113, 5, HeardRequest::Power(PowerKind::FailNow)),
    (4, 113, 5, HeardRequest::Power(PowerKind::Ok)),
    (5, 113, 5, HeardRequest::Nothing(Cause::LeftOut)),
    (6, 113, 5, HeardRequest::Nothing(Cause::LeftOut)),
    (7, 113, 5, HeardRequest::Nothing(Cause::LeftOut)),
    (8, 113, 5, HeardRequest::Nothing(Cause::Unknown)),
    (12345, 113, 5, HeardRequest::Nothing(Cause::LeftOut)),
    (-1, 113, 5, HeardRequest::Nothing(Cause::Unknown)),
    (1, 120, 5, HeardRequest::Nothing(Cause::Character)),
    (1, -1, 5, HeardRequest::Nothing(Cause::Character)),
    (1, 307, 5, HeardRequest::Nothing(Cause::Character)),
    (1, 51, -1, HeardRequest::Level(Level::L3, 0)),
    (1, 51, 9999, HeardRequest::Level(Level::L3, 3600)),
    (1, 51, 3600, HeardRequest::Level(Level::L3, 3600)),
    (1, 115, 7, HeardRequest::Level(Level::S, 7)),
    (1, 98, 7, HeardRequest::Call(Letter::B)),
    (1, 81, 7, HeardRequest::Reload),
    (1, 117, 7, HeardRequest::Reexec),
];

#[test]
fn ints_are_read(rt: HostRuntime) {
    for (command, runlevel, sleeptime, want) in ROWS {
        let block = block_of_ints(*command, *runlevel, *sleeptime);
        assert!(rt; decode(&block) == *want, "{command} {runlevel} {sleeptime}");
    }
}

/// A character of telinit(8), or `None` for the return of power; the ints of its block; and the request in it.
const WRITTEN: &[(Option<u8>, &[u8; 16], HeardRequest)] = &[
    (Some(b'q'), &RELOAD, HeardRequest::Reload),
    (None, &POWER_BACK, HeardRequest::Power(PowerKind::Ok)),
];

/// Reports whether the request for a character, for 5 seconds, or that the power is back, has this block, which
/// contains this request.
fn is_written(code: Option<u8>, ints: &[u8; 16], want: HeardRequest) -> Option<bool> {
    let request = match code {
        Some(code) => Request::Runlvl(Sign::read(code)?, 5),
        None => Request::Power(PowerKind::Ok),
    };
    let is_same = match request {
        Request::Runlvl(sign, _) => Some(sign.code()) == code,
        Request::Power(_) => true,
    };
    Some(is_same && encode(&request) == block_of(ints) && meaning(&request) == want)
}

#[test]
fn requests_are_written(rt: HostRuntime) {
    for (code, ints, want) in WRITTEN {
        assert!(rt; is_written(*code, ints, *want) == Some(true), "{code:?}");
    }
    assert!(rt; Sign::read(b'x').is_none());
}

/// A piece, the number of bytes read from it and the request, and the number of bytes of an incomplete block after it.
type Piece<'a> = (&'a [u8], (usize, Option<HeardRequest>), usize);

/// The pieces that a reader reads, one after another; its copy continues after the third.
const PIECES: &[Piece<'static>] = &[
    (&[], (0, None), 0),
    (&RELOAD, (16, None), 16),
    (&[0; 367], (367, None), 383),
    (&[0], (1, Some(HeardRequest::Reload)), 0),
    (
        &[0; 384],
        (384, Some(HeardRequest::Nothing(Cause::Magic))),
        0,
    ),
];

/// The pieces that the reader's copy reads next.
const NEXT_OF_COPY: &[Piece<'static>] = &[
    (&[], (0, None), 383),
    (&[0; 384], (1, Some(HeardRequest::Reload)), 0),
];

fn are_fed(blocks: &mut Blocks, pieces: &[Piece]) -> bool {
    for (piece, want, rest) in pieces {
        if blocks.feed(piece) != *want || blocks.rest() != *rest {
            return false;
        }
    }
    true
}

/// Reports whether the block is read as one request, whatever its bytes are, and nothing of it is kept.
fn is_one(blocks: &mut Blocks, block: &[u8; BLOCK], want: HeardRequest) -> bool {
    are_fed(blocks, &[(block.as_slice(), (BLOCK, Some(want)), 0)])
}

#[test]
fn a_block_comes_in_pieces(rt: HostRuntime) -> Result<(), Fail> {
    let mut blocks = Blocks::new();
    assert!(rt; are_fed(&mut blocks, &PIECES[..3]));
    let mut copy = blocks.clone()?;
    assert!(rt; are_fed(&mut blocks, &PIECES[3..]));
    assert!(rt; is_one(&mut blocks, &block_of(&RELOAD), HeardRequest::Reload));
    assert!(rt; are_fed(&mut copy, NEXT_OF_COPY));
    Ok(())
}

/// Returns a good block, a bad one in which a complete good one begins at the second byte, and one for level 3.
fn three_blocks() -> [u8; 1152] {
    let mut bytes = [0; 1152];
    bytes[..16].copy_from_slice(&RELOAD);
    bytes[385..401].copy_from_slice(&RELOAD);
    bytes[768..784].copy_from_slice(&RELOAD);
    bytes[776] = b'3';
    bytes
}

const THREE_GOT: [HeardRequest; 4] = [
    HeardRequest::Reload,
    HeardRequest::Nothing(Cause::Magic),
    HeardRequest::Level(Level::L3, 5),
    HeardRequest::Reexec,
];

/// Reports whether the requests are the same however the blocks are cut into three pieces.
fn are_heard_of_cuts(bytes: &[u8; 1152]) -> bool {
    for first in 0..1153 {
        for second in first..1153 {
            let pieces = [&bytes[..first], &bytes[first..second], &bytes[second..]];
            let mut room = [HeardRequest::Reexec; 4];
            if read_pieces(&pieces, &mut room) != 3 || room != THREE_GOT {
                return false;
            }
        }
    }
    true
}

#[test]
fn cuts_change_nothing(rt: HostRuntime) {
    assert!(rt; are_heard_of_cuts(&three_blocks()));
    // Requests for which there is no room are omitted.
    let block = block_of(&RELOAD);
    let mut room = [HeardRequest::Reexec];
    assert!(rt; read_pieces(&[&block, &block], &mut room) == 1 && room == [HeardRequest::Reload]);
}

/// Reports whether a block that consists of this byte has no magic number, and each block with this byte in it contains
/// the request of its own bytes.
fn are_ones(byte: u8) -> bool {
    for position in 0..BLOCK {
        let mut block = block_of(&RELOAD);
        block[position] = byte;
        if !is_one(&mut Blocks::new(), &block, decode(&block)) {
            return false;
        }
    }
    is_one(
        &mut Blocks::new(),
        &[byte; BLOCK],
        HeardRequest::Nothing(Cause::Magic),
    )
}

#[test]
fn each_block_is_one_request(rt: HostRuntime) {
    for byte in 0..=255 {
        assert!(rt; are_ones(byte), "{byte}");
    }
}
