//! Processes that a stopped entry left running: its child had started them, the signals to the child do not reach
//! them, and they are still running after the child has ended.

use host_lines::{ChildMessage, HostLine, MessageSink};
use init_words::{ChildNumber, Id};
use program_io::read_file;
use std::alloc::{AllocError, Allocator};
use std::rt::Files;
use std::str;

/// The maximum number of processes of one child that are examined.
const LIMIT: usize = 1_000;

/// A process that a child had started.
#[derive(Clone, Copy)]
struct Process {
    id: Id,
    number: u32,
    /// When it started, in clock ticks since the system booted. It distinguishes processes with the same number.
    began: u64,
}

/// The processes that children had started when they were sent a signal, and that the signal did not reach, grouped by
/// child.
#[derive(Drop)]
pub(crate) struct LeftProcesses<A: Allocator> {
    alloc: A,
    found: Vec<Process, A>,
}

impl<A: Allocator + Copy> LeftProcesses<A> {
    /// Returns a value without processes.
    pub(crate) fn new(alloc: A) -> LeftProcesses<A> {
        LeftProcesses {
            alloc,
            found: Vec::new(alloc),
        }
    }

    /// Looks again, before a signal is sent to the id's child or its group, for the processes that the child had
    /// started and the signal does not reach, as far as /proc and memory allow.
    pub(crate) fn note<R: Files>(&mut self, rt: &R, groups: bool, id: &Id, child: ChildNumber) {
        self.found.retain(|process| process.id != *id);
        let _ = self.find(rt, groups, id, child.0);
    }

    /// Finds the processes that a process had started, the processes that these had started, and so on.
    fn find<R: Files>(
        &mut self,
        rt: &R,
        groups: bool,
        id: &Id,
        child: u32,
    ) -> Result<(), AllocError> {
        let mut numbers = Vec::new(self.alloc);
        numbers.push(child)?;
        for at in 0..LIMIT {
            let Some(number) = numbers.get(at) else {
                return Ok(());
            };
            let text = children_of(rt, self.alloc, *number);
            for word in str::from_utf8(&text).unwrap_or("").split_whitespace() {
                let Ok(number) = word.parse() else {
                    continue;
                };
                numbers.push(number)?;
                match standing_of(rt, self.alloc, number) {
                    Some((group, began)) if !groups || group != child => {
                        self.found.push(Process {
                            id: *id,
                            number,
                            began,
                        })?;
                    }
                    _ => {}
                }
            }
        }
        Ok(())
    }

    /// Reports the processes that the id's child, which has ended, left running, and then forgets them.
    pub(crate) fn tell<R: Files + MessageSink>(&mut self, rt: &R, id: &Id) {
        self.pass_ended(rt);
        let _ = self.print(rt, id);
        self.found.retain(|process| process.id != *id);
    }

    /// Reports the processes that each child left running, because the level is settled, and then forgets them all.
    pub(crate) fn tell_all<R: Files + MessageSink>(&mut self, rt: &R) {
        self.pass_ended(rt);
        let mut told = None;
        for process in &self.found {
            if told != Some(process.id) {
                told = Some(process.id);
                let _ = self.print(rt, &process.id);
            }
        }
        self.found.clear();
    }

    /// Removes the processes that are no longer running.
    fn pass_ended<R: Files>(&mut self, rt: &R) {
        let alloc = self.alloc;
        self.found.retain(|process| {
            matches!(standing_of(rt, alloc, process.number), Some((_, began)) if began == process.began)
        });
    }

    /// Reports on standard error which processes the id's child left running, if any.
    fn print<R: MessageSink>(&self, rt: &R, id: &Id) -> Result<(), AllocError> {
        let mut numbers = String::new(self.alloc);
        let mut count = 0u32;
        for process in &self.found {
            if process.id == *id {
                let number = process.number;
                numbers.push_str(format!(in self.alloc; " {number}")?.as_str())?;
                count = count.saturating_add(1);
            }
        }
        if count > 0 {
            rt.tell(&HostLine::OfChild {
                id: *id,
                message: ChildMessage::Left {
                    count,
                    numbers: numbers.as_str(),
                },
            });
        }
        Ok(())
    }
}

/// Returns the numbers of the processes that a process started, separated by blanks (`children` in proc(5)).
fn children_of<R: Files, A: Allocator + Copy>(rt: &R, alloc: A, number: u32) -> Vec<u8, A> {
    match format!(in alloc; "/proc/{number}/task/{number}/children") {
        Ok(path) => read_file(rt, alloc, path.as_str()).unwrap_or(Vec::new(alloc)),
        Err(_) => Vec::new(alloc),
    }
}

/// Returns the process group of the process with this number, and when it started, if it is running (proc_pid_stat(5)).
fn standing_of<R: Files, A: Allocator + Copy>(rt: &R, alloc: A, number: u32) -> Option<(u32, u64)> {
    let path = format!(in alloc; "/proc/{number}/stat").ok()?;
    let stat = read_file(rt, alloc, path.as_str()).ok()?;
    standing_in(&stat)
}

/// Reads the process group and the start time from the line of `stat`. The name is in parentheses and may have any
/// byte. The state follows the name, the group is the second word after the state, and the start time is the
/// seventeenth word after the group. A process that has ended but has not been waited for counts as not running.
fn standing_in(stat: &[u8]) -> Option<(u32, u64)> {
    let end = stat.iter().rposition(|byte| *byte == b')')?;
    let mut words = str::from_utf8(stat.get(end + 1..)?)
        .ok()?
        .split_whitespace();
    if matches!(words.next()?, "Z" | "X") {
        return None;
    }
    let group = words.nth(1)?.parse().ok()?;
    let began = words.nth(16)?.parse().ok()?;
    Some((group, began))
}
