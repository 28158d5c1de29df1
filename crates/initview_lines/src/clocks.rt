//! Prints readings of the clock, using the calendar and time zones of the crate jiff.

use crate::dimensions::YEAR;
use crate::words::{add_number, put};
use jiff::civil::Date;
use jiff::tz::TimeZone;
use jiff::{SignedDuration, Timestamp};
use std::alloc::AllocError;

/// The time zone of the times that are printed.
#[derive(Clone, Copy)]
pub enum Zone<'a> {
    Utc,
    /// The zone of the system.
    Local(TimeZone<'a>),
}

/// A local time: the day, the seconds since the beginning of 1970 in local time, and the offset from UTC in seconds.
#[derive(Clone, Copy)]
struct Reading {
    day: Date,
    seconds: u64,
    ahead: i32,
}

fn instant(seconds: u64) -> Option<Timestamp> {
    Timestamp::from_second(i64::try_from(seconds).ok()?).ok()
}

/// Returns a zone's offset from UTC in seconds. It is 0 for times in 1970, which no real clock of init shows, and
/// `None` after the last instant of jiff, 26 hours before the year 10000.
fn ahead(zone: Zone, seconds: u64) -> Option<i32> {
    match zone {
        Zone::Local(zone) if seconds >= YEAR => Some(zone.to_offset(instant(seconds)?).seconds()),
        _ => Some(0),
    }
}

fn day(seconds: u64) -> Option<Date> {
    let since = SignedDuration::from_secs(i64::try_from(seconds).ok()?);
    Date::new(1970, 1, 1).ok()?.checked_add(since).ok()
}

/// Returns the local time in a zone, or `None` if its year has more than four digits.
fn shown(zone: Zone, seconds: u64) -> Option<Reading> {
    let ahead = ahead(zone, seconds)?;
    let seconds = seconds.checked_add_signed(i64::from(ahead))?;
    Some(Reading {
        day: day(seconds)?,
        seconds,
        ahead,
    })
}

/// Returns the seconds since the beginning of 1970 in the local time of a zone, or in UTC if the local time is unknown.
pub(crate) fn local_seconds(zone: Zone, seconds: u64) -> u64 {
    match shown(zone, seconds) {
        Some(reading) => reading.seconds,
        None => seconds,
    }
}

/// Reports whether both readings have the same offset from UTC.
pub(crate) fn is_one_offset(zone: Zone, one: u64, other: u64) -> bool {
    ahead(zone, one) == ahead(zone, other)
}

/// Adds a number with two digits after a separator.
fn add_two(text: &mut Vec<u8>, sign: &[u8], number: u64) -> Result<(), AllocError> {
    let zero: &[u8] = if number < 10 { b"0" } else { b"" };
    put(text, sign)?;
    add_number(text, zero, number, b"")
}

/// Adds the time of day of a reading of the clock: `07:15:00`.
pub(crate) fn add_hours(text: &mut Vec<u8>, zone: Zone, seconds: u64) -> Result<(), AllocError> {
    let seconds = local_seconds(zone, seconds);
    add_two(text, b"", seconds / 3_600 % 24)?;
    add_two(text, b":", seconds / 60 % 60)?;
    add_two(text, b":", seconds % 60)
}

/// Adds a day: `2026-01-31`.
fn add_date(text: &mut Vec<u8>, day: Date) -> Result<(), AllocError> {
    add_number(text, b"", u64::from(day.year().unsigned_abs()), b"")?;
    add_two(text, b"-", u64::from(day.month().unsigned_abs()))?;
    add_two(text, b"-", u64::from(day.day().unsigned_abs()))
}

/// Adds the day of a reading of the clock, or nothing in 1970 and in years with more than four digits.
pub(crate) fn add_day(text: &mut Vec<u8>, zone: Zone, seconds: u64) -> Result<(), AllocError> {
    match shown(zone, seconds) {
        Some(reading) if seconds >= YEAR => add_date(text, reading.day),
        _ => Ok(()),
    }
}

/// Adds the day and the time of day. For times in 1970, which no real clock of init shows, it adds only the time of
/// day; for years with more than four digits, it adds the number of seconds.
pub(crate) fn add_moment(text: &mut Vec<u8>, zone: Zone, seconds: u64) -> Result<(), AllocError> {
    let Some(reading) = shown(zone, seconds) else {
        return add_number(text, b"", seconds, b"");
    };
    if seconds >= YEAR {
        add_date(text, reading.day)?;
        put(text, b" ")?;
    }
    add_hours(text, zone, seconds)
}

/// Adds the name of the zone after a time, for example ` UTC` or ` CET`, or nothing in 1970.
pub(crate) fn add_zone(text: &mut Vec<u8>, zone: Zone, seconds: u64) -> Result<(), AllocError> {
    match (zone, instant(seconds)) {
        _ if seconds < YEAR => Ok(()),
        (Zone::Utc, _) => put(text, b" UTC"),
        (Zone::Local(zone), Some(time)) => {
            put(text, b" ")?;
            put(text, zone.to_offset_info(time).abbreviation().as_bytes())
        }
        (Zone::Local(_), None) => Ok(()),
    }
}

/// Adds an offset in the format of RFC 3339: `+01:00`.
fn add_offset(text: &mut Vec<u8>, ahead: i32) -> Result<(), AllocError> {
    let minutes = u64::from(ahead.unsigned_abs()) / 60;
    add_two(text, if ahead < 0 { b"-" } else { b"+" }, minutes / 60)?;
    add_two(text, b":", minutes % 60)
}

/// Adds a reading of the clock, in seconds since the beginning of 1970, in the format of RFC 3339:
/// `2026-01-31T07:15:00Z`, or with the offset of a zone. For years with five digits, which the format lacks, it adds
/// the number of seconds.
pub(crate) fn add_time_of_day(
    text: &mut Vec<u8>,
    zone: Zone,
    seconds: u64,
) -> Result<(), AllocError> {
    let Some(reading) = shown(zone, seconds) else {
        return add_number(text, b"", seconds, b"");
    };
    add_date(text, reading.day)?;
    put(text, b"T")?;
    add_hours(text, zone, seconds)?;
    match zone {
        Zone::Utc => put(text, b"Z"),
        Zone::Local(_) => add_offset(text, reading.ahead),
    }
}

/// Adds a reading of the clock in the format of RFC 3339, or the number of seconds in 1970.
pub(crate) fn add_clock(text: &mut Vec<u8>, zone: Zone, seconds: u64) -> Result<(), AllocError> {
    if seconds < YEAR {
        add_number(text, b"", seconds, b"")
    } else {
        add_time_of_day(text, zone, seconds)
    }
}
