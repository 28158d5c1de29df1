//! The replies of a scripted host, as text with items separated by ` / `. Each item is the name of a queue and a reply
//! in the notation of a trace. Also the calls made to the host, as text.
//!
//! `start`, `look` and `signal` have a reply: an answer, or `later`. `late` has the id before the answer, or nothing
//! for the end of a round; `lates` has a number of answers that no order asked for. `clock` has a reading. `table` has
//! the files of an inittab separated by ` + `, the lines of each separated by `|` and its name before an `@`; or
//! `none`; or `long` for one file that is a byte too long; or `many` for 257 files. `carry` has the lines of the state
//! text that comes back, and `bytes` the requests of a piece. A text after a `=` is taken literally. A reading, a
//! piece, a table and a state text can be `fails`, or `lacks` if there is no memory.

use crate::boxes::boxed;
use crate::texts::lines_of;
use host_calls::{Bytes, Call, HostFault, PartList, Reply};
use host_scripted::MemoryHost;
use init_words::{Answer, ChildNumber, Id, Memory, Part, SignalKind, Status};
use initctl_frame::{BLOCK, Request, Sign, encode};
use std::alloc::{Allocator, Global};

fn answer_of(text: &str) -> Option<Answer> {
    match text.split_once(' ').unwrap_or((text, "")) {
        ("birth", number) => Some(Answer::Born(ChildNumber(number.parse::<u32>().ok()?))),
        ("exit", code) => Some(Answer::Ended(Status::Exit(code.parse::<u8>().ok()?))),
        ("nobirth", "") => Some(Answer::NotBorn),
        ("killed", "") => Some(Answer::Ended(Status::Killed)),
        ("still", "") => Some(Answer::Alive),
        ("nolook", "") => Some(Answer::NoLook),
        ("hit", "") => Some(Answer::Hit),
        ("miss", "") => Some(Answer::Miss),
        _ => None,
    }
}

/// Parses the reply of a scripted host in an item of a row.
pub fn reply_of(text: &str) -> Option<Reply> {
    if text == "later" {
        return Some(Reply::Later);
    }
    Some(Reply::Now(answer_of(text)?))
}

/// Parses the late answer in an item of a scripted reply: the id and the answer, or no answer for an empty item.
pub fn late_of(text: &str) -> Option<Option<(Id, Answer)>> {
    if text.is_empty() {
        return Some(None);
    }
    let (id, answer) = text.split_once(' ')?;
    Some(Some((Id::read(id.as_bytes())?, answer_of(answer)?)))
}

/// Returns the fault if the item names one, otherwise the given value.
pub fn given<T: Drop>(item: &str, made: Option<T>) -> Option<Result<T, HostFault>> {
    match item {
        "fails" => Some(Err(HostFault::Device)),
        "lacks" => Some(Err(HostFault::Memory)),
        _ => Some(Ok(made?)),
    }
}

/// Returns the request blocks that the words describe. A word is a character of telinit(8): with `-` after it, only the
/// first 200 bytes of its block are returned, with `-` before it, only the others. Any other word is a block of zeros.
pub fn blocks_of(alloc: Global, words: &str) -> Option<Vec<u8>> {
    let mut bytes = Vec::new(alloc);
    for word in words.split_ascii_whitespace() {
        let (code, from, to) = match word.as_bytes() {
            [code] => (*code, 0, BLOCK),
            [code, b'-'] => (*code, 0, 200),
            [b'-', code] => (*code, 200, BLOCK),
            _ => {
                bytes.extend_from_slice(&[0; BLOCK]).ok()?;
                continue;
            }
        };
        let block = encode(&Request::Runlvl(Sign::read(code)?, 5));
        bytes.extend_from_slice(block.get(from..to)?).ok()?;
    }
    Some(bytes)
}

fn text_of(global: Global, queue: &str, item: &str) -> Option<Vec<u8>> {
    match (item.strip_prefix('='), queue) {
        (Some(text), _) => Vec::from_slice(global, text.as_bytes()).ok(),
        (None, "bytes") => blocks_of(global, item),
        (None, _) => Vec::from_slice(global, lines_of(global, item, "|").ok()?.as_bytes()).ok(),
    }
}

/// Returns the bytes of an item, in the memory of an allocator.
pub fn bytes_of<A: Allocator + Copy>(
    global: Global,
    alloc: A,
    queue: &str,
    item: &str,
) -> Option<Result<Bytes<A>, HostFault>> {
    let text = text_of(global, queue, item)?;
    given(item, Bytes::copy_of(alloc, text.as_slice()).ok())
}

/// Returns a file with this name and text.
pub fn part_of<A: Allocator + Copy>(alloc: A, name: &str, text: &[u8]) -> Result<Part<A>, Memory> {
    Ok(Part {
        name: String::from_str(alloc, name)?,
        bytes: Vec::from_slice(alloc, text)?,
    })
}

fn parts_of<A: Allocator + Copy>(global: Global, alloc: A, text: &str) -> Option<PartList<A>> {
    let mut parts = Vec::new(alloc);
    match text {
        "none" => {}
        "long" => {
            let text = vec![in global; b'#'; 1_048_577].ok()?;
            parts
                .push(part_of(alloc, "part", text.as_slice()).ok()?)
                .ok()?;
        }
        "many" => {
            for _ in 0..257u32 {
                parts.push(part_of(alloc, "part", b"").ok()?).ok()?;
            }
        }
        _ => {
            for part in text.split(" + ") {
                let (name, lines) = part.split_once('@').unwrap_or(("part", part));
                let text = text_of(global, "table", lines)?;
                parts
                    .push(part_of(alloc, name, text.as_slice()).ok()?)
                    .ok()?;
            }
        }
    }
    Some(PartList::of(parts))
}

/// Returns the files of an item, in the memory of an allocator.
pub fn table_of<A: Allocator + Copy>(
    global: Global,
    alloc: A,
    item: &str,
) -> Option<Result<PartList<A>, HostFault>> {
    given(item, parts_of(global, alloc, item))
}

fn give_lates<A: Allocator + Copy>(host: &mut MemoryHost<A>, number: u32) -> Option<()> {
    let id = Id::read(b"none")?;
    for _ in 0..number {
        host.give_late(Some((id, Answer::Alive))).ok()?;
    }
    Some(())
}

/// Adds an item to a queue of a host.
pub fn give<A: Allocator + Copy>(
    global: Global,
    alloc: A,
    host: &mut MemoryHost<A>,
    reply: &str,
) -> Option<()> {
    let (queue, item) = reply.split_once(' ').unwrap_or((reply, ""));
    let given = match queue {
        "start" => host.give_start(reply_of(item)?),
        "look" => host.give_look(reply_of(item)?),
        "signal" => host.give_signal(reply_of(item)?),
        "late" => host.give_late(late_of(item)?),
        "lates" => return give_lates(host, item.parse::<u32>().ok()?),
        "clock" => host.give_clock(given(item, item.parse::<u64>().ok())?),
        "table" => host.give_table(table_of(global, alloc, item)?),
        "bytes" => host.give_bytes(bytes_of(global, alloc, queue, item)?),
        _ => host.give_carry(bytes_of(global, alloc, queue, item)?),
    };
    given.ok()
}

/// Adds all items of a text to the queues of a host.
fn give_all<A: Allocator + Copy>(
    global: Global,
    alloc: A,
    host: &mut MemoryHost<A>,
    replies: &str,
) -> Option<()> {
    if !replies.is_empty() {
        for reply in replies.split(" / ") {
            give(global, alloc, host, reply)?;
        }
    }
    Some(())
}

/// Creates a host with all items of a text in its queues.
pub fn host_of<A: Allocator + Copy>(
    global: Global,
    alloc: A,
    replies: &str,
) -> Option<Box<MemoryHost<A>>> {
    let mut host = boxed(global, MemoryHost::new(alloc)).ok()?;
    give_all(global, alloc, &mut host, replies)?;
    Some(host)
}

/// Returns the call as text, without its answer.
fn call_words(global: Global, call: &Call) -> Option<String> {
    match call {
        Call::Start(id, command, _) => {
            let (id, command) = (id.as_str(), str::from_utf8(command.as_slice()).ok()?);
            format!(in global; "start {id}: {command}")
        }
        Call::Look(id, _) => {
            let id = id.as_str();
            format!(in global; "look {id}")
        }
        Call::Signal(id, signal, _) => {
            let id = id.as_str();
            let signal = match signal {
                SignalKind::Term => "term",
                SignalKind::Kill => "kill",
            };
            format!(in global; "signal {id} {signal}")
        }
        Call::Clock(_) => String::from_str(global, "clock"),
        Call::TakeBytes(_, _) => String::from_str(global, "take bytes"),
        Call::Late(_) => String::from_str(global, "late"),
        Call::ReadTables(Ok(_)) => String::from_str(global, "read tables"),
        Call::ReadTables(Err(_)) => String::from_str(global, "read tables: failed"),
        Call::Carry(_, _) => String::from_str(global, "carry"),
        Call::Announce(_) => String::from_str(global, "announce"),
        Call::Pause => String::from_str(global, "pause"),
    }
    .ok()
}

/// Returns the calls made to a host, oldest first, one per line: the name of the call, its id, and for a start the
/// command. `None` if the host had no memory to record them.
pub fn calls_of(global: Global, host: &MemoryHost) -> Option<String> {
    let mut lines = String::new(global);
    for call in host.calls()? {
        lines.push_str(&call_words(global, call)?).ok()?;
        lines.push('\n').ok()?;
    }
    Some(lines)
}
