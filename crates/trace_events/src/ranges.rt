//! The ranges of the values in a happening: ids, child numbers, statuses.

ghost use Rattle.std.specs.Prelude.{◌≡◌, ◌+◌, ◌^◌, ◌<◌, true};
ghost use Rattle.trace_events.specs.Words.{is_id};
ghost use Rattle.trace_events.specs.Range.{is_in_range, is_short, is_status, is_hand_over};

use crate::happenings::{Handed, Happening, HappeningIn};
use init_words::{ChildNumber, Id, Status};
use std::alloc::Allocator;

// The range of each value follows from its type.

fn of_id(id: &Id)
    ensures { is_id id.now ≡ true }
{
    let _ = id.as_bytes();
}

fn of_number(number: &ChildNumber)
    ensures { number.now < 2 ^ 32 }
{
    let _number = number.0;
}

fn of_status(status: &Status)
    ensures { is_status status.now ≡ true }
{
    if let Status::Exit(code) = status {
        let _code = *code;
    }
}

fn of_hand_over(how: &Handed)
    ensures { is_hand_over how.now ≡ true }
{
    if let Handed::Cut(count) | Handed::Older(count) = how {
        let _count = *count;
    }
}

/// States that the values of a happening are in range if its seconds are at most an hour, because the types bound all
/// other values. The function does nothing; its contract states the law.
pub fn law_of_ranges<A: Allocator>(happening: &HappeningIn<A>)
    ensures { is_short happening.now ≡ true → is_in_range happening.now ≡ true }
{
    match happening {
        Happening::NewTable(table) => {
            let _ = table.len();
        }
        Happening::Birth(id, number) => {
            of_id(id);
            of_number(number);
        }
        Happening::Reaped(id, number, status) => {
            of_id(id);
            of_number(number);
            of_status(status);
        }
        Happening::Death(number) => of_number(number),
        Happening::Asked(id, _)
        | Happening::Hold(id)
        | Happening::NoBirth(id)
        | Happening::Still(id)
        | Happening::NoLook(id)
        | Happening::Hit(id)
        | Happening::Miss(id)
        | Happening::Told(id) => of_id(id),
        Happening::Clock(reading) => {
            let _reading = *reading;
        }
        Happening::Handed(how) => of_hand_over(how),
        _ => {}
    }
}
