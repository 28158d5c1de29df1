//! `$all` as a facility: scripts that name it start after all other scripts, and stop before them.
//!
//! `tools/pages.d/rclinks` tests this module. The contract of each function is its definition in `specs/AllLast`, so
//! you can change its body freely.

ghost use Rattle.std.specs.Prelude.{◌≡◌, ◌++◌, ◌∷◌, map, string_bytes, IfOk, IfErr, OnOk};
ghost use Rattle.std.specs.List.{list_any};
ghost use Rattle.rc_links.specs.AllLast.{all_facility, has_all, names_all, other_names, others};
ghost use Rattle.rc_links.specs.Scripts.{has_name};

use crate::needs::Phase;
use crate::scripts::Script;
use init_words::Memory;
use lsb_header::Header;
use std::alloc::Allocator;

/// Reports whether the name is one of these.
pub fn has_name<A: Allocator>(name: &str, names: &[String<A>]) -> bool
    ensures { result ≡ has_name name.now (map string_bytes names.now) }
{
    for other in names {
        if name == other.as_str() {
            return true;
        }
    }
    false
}

fn has_all<A: Allocator>(names: &[String<A>]) -> bool
    ensures { result ≡ has_all (map string_bytes names.now) }
{
    has_name("$all", names)
}

/// Reports whether the script names `$all` for its start, or for its stop.
fn names_all<A: Allocator>(phase: Phase, script: &Script<A>) -> bool
    ensures { result ≡ names_all phase script.now }
{
    let header = script.header();
    match phase {
        Phase::Start => has_all(header.required_start()) || has_all(header.should_start()),
        Phase::Stop => has_all(header.required_stop()) || has_all(header.should_stop()),
    }
}

/// Reports whether one of the scripts names `$all`.
fn is_named<A: Allocator>(phase: Phase, scripts: &[Script<A>]) -> bool
    ensures { result ≡ list_any (names_all phase) scripts.now }
{
    scripts.iter().any(|script| names_all(phase, script))
}

/// Appends copies of names.
fn add_names<A: Allocator + Copy>(
    alloc: A,
    names: &mut Vec<String<A>, A>,
    given: &[String<A>],
) -> Result<(), Memory>
    ensures { OnOk result (map string_bytes names.new.items ≡
        map string_bytes names.old.items ++ map string_bytes given.now) }
{
    for name in given {
        names.push(String::from_str(alloc, name.as_str())?)?;
    }
    Ok(())
}

/// Adds the names that a script provides, unless it names `$all`.
fn add_other<A: Allocator + Copy>(
    alloc: A,
    names: &mut Vec<String<A>, A>,
    phase: Phase,
    script: &Script<A>,
) -> Result<(), Memory>
    ensures { OnOk result (map string_bytes names.new.items ≡
        map string_bytes names.old.items ++ other_names phase script.now) }
{
    if names_all(phase, script) {
        return Ok(());
    }
    add_names(alloc, names, script.header().provides())
}

/// Returns the names provided by the scripts that do not name `$all`, if another script does.
fn others<A: Allocator + Copy>(
    alloc: A,
    phase: Phase,
    scripts: &[Script<A>],
) -> Result<Vec<String<A>, A>, Memory>
    ensures { IfOk result (λ names. map string_bytes names.items ≡ others phase scripts.now) }
{
    let mut names = Vec::new(alloc);
    if !is_named(phase, scripts) {
        return Ok(names);
    }
    for script in scripts {
        add_other(alloc, &mut names, phase, script)?;
    }
    Ok(names)
}

/// Returns the facility that provides `$all`.
fn all_facility<A: Allocator + Copy>(alloc: A, scripts: &[Script<A>]) -> Result<Script<A>, Memory>
    ensures { IfOk result (λ facility. facility ≡ all_facility scripts.now) }
{
    let mut provides = Vec::new(alloc);
    provides.push(String::from_str(alloc, "$all")?)?;
    let starts = others(alloc, Phase::Start, scripts)?;
    let stops = others(alloc, Phase::Stop, scripts)?;
    let header = Header::facility(alloc, provides, starts, stops);
    Ok(Script::new(String::from_str(alloc, "$all")?, header))
}

/// Inserts the facility that provides `$all` before the scripts, so that scripts that name it start after all others
/// and stop before them. If memory allocation fails, the scripts are unchanged.
pub fn add_all<A: Allocator + Copy>(alloc: A, scripts: &mut Vec<Script<A>, A>) -> Result<(), Memory>
    ensures added { OnOk result
        (scripts.new.items ≡ all_facility scripts.old.items ∷ scripts.old.items) }
    ensures kept { IfErr result (λ _. scripts.new.items ≡ scripts.old.items) }
{
    let facility = all_facility(alloc, scripts.as_slice())?;
    scripts.insert(0, facility)?;
    Ok(())
}
