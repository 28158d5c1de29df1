//! Makes allocations fail one after another, on heaps of increasing size, until a call succeeds: each failed call
//! reports lack of memory, and leaves an existing table unchanged.

use init_words::{Memory, Part};
use inittab_lint::{LineWarning, Warning, warnings};
use inittab_text::{Table, TableFault, read_parts};
use linked_list_allocator::LocalHeap;
use std::alloc::{Allocator, Global};
use std::test::Fail;
use test_support::{Outcome, first_unrefused, part_of};

/// A text with two entries and two faults, and the two entries in their written form.
const TEXT: &[u8] = b"id:3:initdefault:\nnothing\na:3:respawn:/bin/x 1\na:3:once:twice\n";

const WRITTEN: &[u8] = b"id:3:initdefault:\na:3:respawn:/bin/x 1\n";

/// Two files with a fault and two warnings.
const FILES: [&[u8]; 2] = [b"a:3:onec:x\nb:3:once:x & \n", b"c:x:once:x\n"];

const WARNINGS: [LineWarning; 3] = [
    LineWarning {
        part: 0,
        line: 2,
        kind: Warning::Background,
    },
    LineWarning {
        part: 1,
        line: 1,
        kind: Warning::Runlevel,
    },
    LineWarning {
        part: 1,
        line: 1,
        kind: Warning::NoLevel,
    },
];

/// Reports whether the table has these entries.
fn is_table<A: Allocator>(global: Global, table: &Table<A>) -> Result<bool, Memory> {
    Ok(inittab_text::write(global, table)?.as_slice() == WRITTEN)
}

/// Reports whether the answer of a call for two parts of the text is right.
fn is_read(
    global: Global,
    heap: &LocalHeap,
    parts: &[Part],
    call: &str,
) -> Result<bool, TableFault> {
    if call == "read" {
        let (table, faults) = inittab_text::read(heap, TEXT)?;
        return Ok(faults.len() == 2 && is_table(global, &table)?);
    }
    let (table, faults) = read_parts(heap, parts)?;
    Ok(faults.len() == 2 && is_table(global, &table)?)
}

/// Reports whether the answer of a call for a table is right, and leaves the table unchanged.
fn is_kept(
    global: Global,
    heap: &LocalHeap,
    table: &Table,
    call: &str,
) -> Result<bool, TableFault> {
    match call {
        "write" => Ok(
            inittab_text::write(heap, table)?.as_slice() == WRITTEN && is_table(global, table)?,
        ),
        "copy" => Ok(is_table(global, &table.copy(heap)?)? && is_table(global, table)?),
        _ => match inittab_text::read_written(heap, WRITTEN)? {
            Some(read) => Ok(is_table(global, &read)?),
            None => Ok(false),
        },
    }
}

/// Reports whether the warnings about the files are right.
fn is_warned(heap: &LocalHeap, files: &[Part]) -> Result<bool, TableFault> {
    match warnings(heap, files) {
        Ok(found) => Ok(found.as_slice() == WARNINGS.as_slice()),
        Err(_) => Err(TableFault::Memory),
    }
}

/// The arguments of the calls.
#[derive(Clone, Copy)]
struct Given<'a> {
    table: &'a Table,
    parts: &'a [Part],
    files: &'a [Part],
}

/// The calls that allocate, and a number of heaps: each call must fail on more heaps than that.
const CALLS: &[(&str, usize)] = &[
    ("read", 1),
    ("read_parts", 1),
    ("write", 1),
    ("read_written", 1),
    ("copy", 1),
    ("warnings", 1),
];

/// Reports whether the call's answer on a heap is right.
fn is_answered(
    global: Global,
    heap: &LocalHeap,
    given: Given,
    call: &str,
) -> Result<bool, TableFault> {
    let Given {
        table,
        parts,
        files,
    } = given;
    match call {
        "read" | "read_parts" => is_read(global, heap, parts, call),
        "write" | "read_written" | "copy" => is_kept(global, heap, table, call),
        _ => is_warned(heap, files),
    }
}

fn outcome_on(global: Global, heap: &LocalHeap, given: Given, call: &str) -> Option<Outcome> {
    match is_answered(global, heap, given, call) {
        Ok(true) => Some(Outcome::Done),
        Err(TableFault::Memory) => Some(Outcome::Refused),
        _ => None,
    }
}

#[test]
fn each_growth_is_refused_once(rt: HostRuntime) -> Result<(), Fail> {
    let (table, _) = inittab_text::read(rt.alloc(), TEXT)?;
    let parts = [
        part_of(rt.alloc(), "", &TEXT[..26])?,
        part_of(rt.alloc(), "", &TEXT[26..])?,
    ];
    let files = [
        part_of(rt.alloc(), "a", FILES[0])?,
        part_of(rt.alloc(), "b", FILES[1])?,
    ];
    let given = Given {
        table: &table,
        parts: &parts,
        files: &files,
    };
    let wrong = first_unrefused(rt.alloc(), CALLS, |global, heap, call| {
        outcome_on(global, heap, given, call)
    });
    assert!(rt; wrong.is_none(), "{wrong:?}");
    Ok(())
}
