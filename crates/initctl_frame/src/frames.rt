//! Decodes and encodes a single request of initreq.h, a block of 384 bytes.

ghost use Rattle.std.specs.Prelude.{◌≡◌, ◌+◌, ◌-◌, ◌≤◌, ◌++◌, ℕ, List, length, replicate};
ghost use Rattle.initctl_frame.specs.Signs.{heard_of_sign};
ghost use Rattle.initctl_frame.specs.Frames.{block_of, block_of_ints, heard_of, heard_of_command, heard_of_ints, heard_of_runlevel, int_at, meaning_of, power_command, seconds_of};

use crate::requests::{Cause, HeardRequest, Request};
use crate::signs::Sign;
use init_words::{GRACE_LIMIT, Letter, Level, PowerKind};

/// The length of a request block in bytes (initreq.h).
pub const BLOCK: usize = 384;

/// The number of bytes of a block that are interpreted: its four ints.
pub(crate) const FRONT: usize = 16;

/// The first int of every block (initreq.h).
const MAGIC: i32 = 0x03091969;

/// Decodes a request block (initreq.h). The result depends on this block alone, and each field is read at its fixed
/// position.
pub fn decode(block: &[u8; BLOCK]) -> HeardRequest
    ensures { result ≡ heard_of block.now }
{
    decode_front(block)
}

/// Encodes a request as four ints, followed by 368 zeros. The runlevel and the sleeptime of a power event are 0.
pub fn encode(request: &Request) -> [u8; BLOCK]
    ensures bytes { result ≡ block_of request.now }
    ensures read_back { heard_of result ≡ meaning_of request.now }
{
    match *request {
        Request::Runlvl(sign, seconds) => block_of_ints(1, sign.code(), seconds),
        Request::Power(kind) => block_of_ints(power_command(kind), 0, 0),
    }
}

/// Returns what a request means to init: the result of decoding the request's block.
pub fn meaning(request: &Request) -> HeardRequest
    ensures { result ≡ meaning_of request.now }
{
    match *request {
        Request::Runlvl(sign, seconds) => heard_of_sign(sign.code(), seconds.min(GRACE_LIMIT)),
        Request::Power(kind) => HeardRequest::Power(kind),
    }
}

/// Decodes the block that begins with these bytes.
pub(crate) fn decode_front(front: &[u8]) -> HeardRequest
    requires { FRONT ≤ length front.now }
    ensures { result ≡ heard_of front.now }
{
    heard_of_ints(
        int_at(front, 0),
        int_at(front, 4),
        int_at(front, 8),
        int_at(front, 12),
    )
}

/// Returns the int whose four bytes begin at this position.
fn int_at(bytes: &[u8], position: usize) -> i32
    requires { position + 4 ≤ length bytes.now }
    ensures { result ≡ int_at position bytes.now }
{
    i32::from_le_bytes([
        bytes[position],
        bytes[position + 1],
        bytes[position + 2],
        bytes[position + 3],
    ])
}

fn heard_of_ints(magic: i32, command: i32, runlevel: i32, sleeptime: i32) -> HeardRequest
    ensures { result ≡ heard_of_ints magic command runlevel sleeptime }
{
    if magic != MAGIC {
        return HeardRequest::Nothing(Cause::Magic);
    }
    heard_of_command(command, runlevel, sleeptime)
}

fn heard_of_command(command: i32, runlevel: i32, sleeptime: i32) -> HeardRequest
    ensures { result ≡ heard_of_command command runlevel sleeptime }
{
    match command {
        1 => heard_of_runlevel(runlevel, seconds_of(sleeptime)),
        2 => HeardRequest::Power(PowerKind::Fail),
        3 => HeardRequest::Power(PowerKind::FailNow),
        4 => HeardRequest::Power(PowerKind::Ok),
        0 | 5 | 6 | 7 | 12345 => HeardRequest::Nothing(Cause::LeftOut),
        _ => HeardRequest::Nothing(Cause::Unknown),
    }
}

fn seconds_of(sleeptime: i32) -> u16
    ensures { result ≡ seconds_of sleeptime }
{
    sleeptime.clamp(0, GRACE_LIMIT as i32) as u16
}

fn heard_of_runlevel(runlevel: i32, seconds: u16) -> HeardRequest
    ensures { result ≡ heard_of_runlevel runlevel seconds }
{
    match u8::try_from(runlevel) {
        Ok(code) => heard_of_sign(code, seconds),
        Err(_) => HeardRequest::Nothing(Cause::Character),
    }
}

fn heard_of_sign(code: u8, seconds: u16) -> HeardRequest
    ensures { result ≡ heard_of_sign code seconds }
{
    if let Some(level) = Level::read(code) {
        return HeardRequest::Level(level, seconds);
    }
    if let Some(letter) = Letter::read(code) {
        return HeardRequest::Call(letter);
    }
    match code {
        b'Q' | b'q' => HeardRequest::Reload,
        b'U' | b'u' => HeardRequest::Reexec,
        _ => HeardRequest::Nothing(Cause::Character),
    }
}

fn power_command(kind: PowerKind) -> u8
    ensures { result ≡ power_command kind }
{
    match kind {
        PowerKind::Fail => 2,
        PowerKind::FailNow => 3,
        PowerKind::Ok => 4,
    }
}

fn block_of_ints(command: u8, runlevel: u8, sleeptime: u16) -> [u8; BLOCK]
    ensures { result ≡ block_of_ints command runlevel sleeptime }
{
    let [m0, m1, m2, m3] = MAGIC.to_le_bytes();
    let [c0, c1, c2, c3] = u32::from(command).to_le_bytes();
    let [r0, r1, r2, r3] = u32::from(runlevel).to_le_bytes();
    let [s0, s1, s2, s3] = u32::from(sleeptime).to_le_bytes();
    padded(&[
        m0, m1, m2, m3, c0, c1, c2, c3, r0, r1, r2, r3, s0, s1, s2, s3,
    ])
}

/// Returns the bytes, padded with zeros to N bytes.
fn padded<const N: usize>(bytes: &[u8]) -> [u8; N]
    requires { length bytes.now ≤ N }
    ensures { result ≡ bytes.now ++ replicate (N - length bytes.now) 0 }
{
    let mut block = [0; N];
    block[..bytes.len()].copy_from_slice(bytes);
    block
}
