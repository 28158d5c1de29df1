//! The messages about the faults of a plan, with the names and paths of the scripts that need each other.

use crate::faulty::is_provided;
use crate::reading::Reading;
use lsb_header::Header;
use rc_links::{PlanFault, Script, has_name};
use std::alloc::Global;
use std::io::Write;

/// A keyword of a header, and the name after it by which a script needs another script.
type Naming<'s> = (&'static str, &'s str);

/// Returns the lines that follow the message about a fault of scripts that have no plan: which scripts cause it
/// together with the one at the position. They list the first missing name, or all of them.
pub(crate) fn who_lines(
    alloc: Global,
    fault: &PlanFault,
    reading: &Reading,
    position: usize,
    first: bool,
) -> Vec<u8> {
    let mut more = Vec::new(alloc);
    let Some(script) = reading.scripts.as_slice().get(position) else {
        return more;
    };
    match fault {
        PlanFault::DoubleProvide(name) => tell_double(name.as_str(), reading, position, &mut more),
        PlanFault::Missing(name) => {
            let only = if first { Some(name.as_str()) } else { None };
            tell_missing(script, reading.path_at(position), only, reading, &mut more);
        }
        PlanFault::Cycle(names) => {
            tell_cycle(names.as_slice(), reading.scripts.as_slice(), &mut more);
        }
        PlanFault::TooDeep | PlanFault::Memory => {}
    }
    more
}

/// Returns the lines that follow the message if none of the scripts can be omitted.
pub(crate) fn last_lines(alloc: Global, fault: &PlanFault) -> Vec<u8> {
    let mut more = Vec::new(alloc);
    if let PlanFault::TooDeep = fault {
        let _ = writeln!(more, "more than 99 scripts each need the next");
    }
    more
}

/// Adds the two files that provide the same name or have the same name.
fn tell_double(name: &str, reading: &Reading, position: usize, more: &mut Vec<u8>) {
    let scripts = reading.scripts.as_slice();
    let path = reading.path_at(position);
    let is_named = match scripts.get(position) {
        Some(script) => has_name(name, script.header().provides()),
        None => false,
    };
    for earlier in 0..position.min(scripts.len()) {
        let other = &scripts[earlier];
        let first = reading.path_at(earlier);
        if is_named && has_name(name, other.header().provides()) {
            let _ = writeln!(more, "{first} and {path} provide {name}");
            return;
        }
        if !is_named && other.name() == name {
            let _ = writeln!(more, "{first} and {path} have the name {name}");
            return;
        }
    }
}

/// Adds the names that a script requires and no script provides, each once, or only the given one.
fn tell_missing(
    script: &Script,
    path: &str,
    only: Option<&str>,
    reading: &Reading,
    more: &mut Vec<u8>,
) {
    let start = script.header().required_start();
    let stop = script.header().required_stop();
    for name in start {
        let name = name.as_str();
        if is_missing(name, only, reading) {
            let (keywords, verb) = if has_name(name, stop) {
                ("Required-Start and Required-Stop", "name")
            } else {
                ("Required-Start", "names")
            };
            let reason = reason_of(name, reading);
            let _ = writeln!(more, "{path}: {keywords} {verb} {name}, {reason}");
        }
    }
    for name in stop {
        let name = name.as_str();
        if !has_name(name, start) && is_missing(name, only, reading) {
            let reason = reason_of(name, reading);
            let keyword = "Required-Stop";
            let _ = writeln!(more, "{path}: {keyword} names {name}, {reason}");
        }
    }
}

/// Returns whether the name is to be reported as missing: no script provides it, it is not a name of the system, and
/// it equals `only` if that is given.
fn is_missing(name: &str, only: Option<&str>, reading: &Reading) -> bool {
    !name.starts_with('$')
        && !is_provided(reading.scripts.as_slice(), name)
        && !only.is_some_and(|one| one != name)
}

/// Returns why no script provides the name.
fn reason_of(name: &str, reading: &Reading) -> &'static str {
    if is_provided(reading.outs.as_slice(), name) {
        "which is skipped"
    } else {
        "which no file provides"
    }
}

/// Adds the steps of a cycle, name by name.
fn tell_cycle(names: &[String], scripts: &[Script], more: &mut Vec<u8>) {
    let starts = is_start_cycle(names, scripts);
    for at in 0..names.len() {
        let Some((from, to)) = step_of(names, scripts, at) else {
            return;
        };
        let (who, whom) = if starts { (from, to) } else { (to, from) };
        if let Some((keyword, name)) = naming(starts, who, whom) {
            let who = who.name();
            let whom = whom.name();
            let _ = writeln!(more, "{who}: {keyword} names {name}, which {whom} provides");
        }
    }
}

/// Returns the scripts of a step of a cycle. The first needs the second.
fn step_of<'s>(
    names: &[String],
    scripts: &'s [Script],
    at: usize,
) -> Option<(&'s Script, &'s Script)> {
    let from = names.get(at)?;
    let to = match names.get(at.saturating_add(1)) {
        Some(name) => name,
        None => names.first()?,
    };
    Some((
        script_named(scripts, from.as_str())?,
        script_named(scripts, to.as_str())?,
    ))
}

fn script_named<'s>(scripts: &'s [Script], name: &str) -> Option<&'s Script> {
    scripts.iter().find(|script| script.name() == name)
}

/// Returns whether each script of the cycle needs the next one for its start.
fn is_start_cycle(names: &[String], scripts: &[Script]) -> bool {
    for at in 0..names.len() {
        match step_of(names, scripts, at) {
            Some((from, to)) if naming(true, from, to).is_some() => {}
            _ => return false,
        }
    }
    true
}

/// Returns how a script names another one that is started before it, or stopped after it.
fn naming<'s>(starts: bool, from: &'s Script, to: &Script) -> Option<Naming<'s>> {
    let header = from.header();
    let (first, required, second, should) = if starts {
        (
            "Required-Start",
            header.required_start(),
            "Should-Start",
            header.should_start(),
        )
    } else {
        (
            "Required-Stop",
            header.required_stop(),
            "Should-Stop",
            header.should_stop(),
        )
    };
    first_provided(first, required, to).or(first_provided(second, should, to))
}

/// Returns the first of a keyword's names that a script provides.
fn first_provided<'s>(
    keyword: &'static str,
    names: &'s [String],
    script: &Script,
) -> Option<Naming<'s>> {
    let provides = script.header().provides();
    let name = names.iter().find(|name| has_name(name.as_str(), provides))?;
    Some((keyword, name.as_str()))
}

/// Returns the names of the system that scripts name and none provides, each once.
pub(crate) fn odd_names(alloc: Global, reading: &Reading) -> Vec<u8> {
    let mut odd = Vec::new(alloc);
    let scripts = reading.scripts.as_slice();
    for position in 0..scripts.len() {
        let header = scripts[position].header();
        let path = reading.path_at(position);
        tell_system(header.required_start(), path, scripts, position, &mut odd);
        tell_system(header.should_start(), path, scripts, position, &mut odd);
        if !is_provided(scripts, "$all") {
            tell_all(header, path, &mut odd);
        }
    }
    odd
}

/// Adds the keywords of a script that name `$all`.
fn tell_all(header: &Header, path: &str, odd: &mut Vec<u8>) {
    for (keyword, names) in [
        ("Required-Start", header.required_start()),
        ("Should-Start", header.should_start()),
        ("Required-Stop", header.required_stop()),
        ("Should-Stop", header.should_stop()),
    ] {
        if has_name("$all", names) {
            let _ = writeln!(
                odd,
                "{path}: {keyword} names $all, which has no effect without --all-last"
            );
        }
    }
}

/// Adds the names of the system that a script names, if no script provides them and no earlier script names them.
fn tell_system(
    names: &[String],
    path: &str,
    scripts: &[Script],
    position: usize,
    odd: &mut Vec<u8>,
) {
    for name in names {
        let name = name.as_str();
        if name.starts_with('$')
            && name != "$all"
            && !is_provided(scripts, name)
            && !is_named(&scripts[..position.min(scripts.len())], name)
        {
            let _ = writeln!(
                odd,
                "{path}: names {name}, which no file provides: it has no effect"
            );
        }
    }
}

/// Returns whether one of the scripts is to be started after the script or facility of this name.
fn is_named(scripts: &[Script], name: &str) -> bool {
    scripts.iter().any(|script| {
        let header = script.header();
        has_name(name, header.required_start()) || has_name(name, header.should_start())
    })
}
