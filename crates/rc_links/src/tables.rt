//! Finds the script that provides a name, and names that no script provides.

ghost use Rattle.std.specs.Prelude.{◌≡◌, [], string_bytes, Some, find, map, None, IfErr, IfOk, OnOk};
ghost use Rattle.std.specs.Option.{option_map};
ghost use Rattle.rc_links.specs.Faults.{IsDouble, IsMissing, FaultSatisfies};
ghost use Rattle.rc_links.specs.Scripts.{double_from, is_system, missing_from};
ghost use Rattle.rc_links.specs.Tables.{AddsPlace, AddsPlaces, HasNone, HasPlaces, is_known, is_unknown, known_again, position_in, unknown_of};

use crate::faults::PlanFault;
use crate::scripts::Script;
use indexmap::IndexMap;
use init_words::Memory;
use std::alloc::Allocator;
use std::hash::{BuildHasherDefault, FoldHasher};

/// A table of names and the positions of the scripts that provide them.
pub(crate) type Providers<'a, A> = IndexMap<&'a [u8], usize, BuildHasherDefault<FoldHasher>, A>;

/// Returns the position for a name.
pub(crate) fn position_at<A: Allocator>(table: &Providers<'_, A>, name: &[u8]) -> Option<usize>
    ensures { result ≡ position_in table.now name.now }
{
    table.get(name).copied()
}

/// Sets the position for a name.
fn set_place<'a, A: Allocator + Clone>(
    table: &mut Providers<'a, A>,
    name: &'a [u8],
    position: usize,
) -> Result<(), Memory>
    ensures { OnOk result (AddsPlace table.old table.new name.now position) }
{
    table.insert(name, position)?;
    Ok(())
}

/// Sets the position for each name that a script provides.
fn add_provided<'a, A: Allocator + Clone>(
    table: &mut Providers<'a, A>,
    script: &'a Script<A>,
    position: usize,
) -> Result<(), Memory>
    ensures { OnOk result (AddsPlaces table.old table.new script.now.header.provides position) }
{
    for name in script.header().provides() {
        set_place(table, name.as_bytes(), position)?;
    }
    Ok(())
}

/// Returns the first of the names that is in the table.
fn first_known<'s, A: Allocator, B: Allocator>(
    table: &Providers<'_, A>,
    names: &'s [String<B>],
) -> Option<&'s str>
    ensures { option_map (λ name. name.now) result
        ≡ find (λ name. is_known table.now name) (map string_bytes names.now) }
{
    for name in names {
        if position_at(table, name.as_bytes()).is_some() {
            return Some(name.as_str());
        }
    }
    None
}

/// Returns the first of a script's provided names that is known, or else the script's name if another script has it.
fn doubled<'s, A: Allocator>(
    script: &'s Script<A>,
    provided: &Providers<'_, A>,
    names: &Providers<'_, A>,
) -> Option<&'s str>
    ensures { option_map (λ name. name.now) result ≡ known_again provided.now names.now script.now }
{
    if let Some(name) = first_known(provided, script.header().provides()) {
        return Some(name);
    }
    if position_at(names, script.name().as_bytes()).is_some() {
        return Some(script.name());
    }
    None
}

/// Sets this position for a script's provided names and its own name, if none of them has one.
fn add_script<'a, A: Allocator + Copy>(
    alloc: A,
    provided: &mut Providers<'a, A>,
    names: &mut Providers<'a, A>,
    script: &'a Script<A>,
    position: usize,
) -> Result<(), PlanFault<A>>
    ensures single { OnOk result (known_again provided.old names.old script.now ≡ None) }
    ensures provided { OnOk result
        (AddsPlaces provided.old provided.new script.now.header.provides position) }
    ensures named { OnOk result (AddsPlace names.old names.new script.now.name position) }
    ensures double { IfErr result
        (FaultSatisfies (IsDouble (known_again provided.old names.old script.now))) }
{
    if let Some(name) = doubled(script, provided, names) {
        return Err(double_told(alloc, name));
    }
    add_provided(provided, script, position)?;
    set_place(names, script.name().as_bytes(), position)?;
    Ok(())
}

/// Sets the position of each script for its names.
fn add_scripts<'a, A: Allocator + Copy>(
    alloc: A,
    provided: &mut Providers<'a, A>,
    names: &mut Providers<'a, A>,
    scripts: &'a [Script<A>],
) -> Result<(), PlanFault<A>>
    requires provided { HasNone provided.old }
    requires names { HasNone names.old }
    ensures single { OnOk result (double_from [] scripts.now ≡ None) }
    ensures places { OnOk result (HasPlaces scripts.now provided.new) }
    ensures double { IfErr result (FaultSatisfies (IsDouble (double_from [] scripts.now))) }
{
    for position in 0..scripts.len() {
        add_script(alloc, provided, names, &scripts[position], position)?;
    }
    Ok(())
}

/// Returns the table of the names that scripts provide. Fails if two scripts provide the same name, or have the same
/// name.
pub(crate) fn table_of<A: Allocator + Copy>(
    alloc: A,
    scripts: &[Script<A>],
) -> Result<Providers<'_, A>, PlanFault<A>>
    ensures single { IfOk result (λ table. double_from [] scripts.now ≡ None) }
    ensures places { IfOk result (λ table. HasPlaces scripts.now table) }
    ensures double { IfErr result (FaultSatisfies (IsDouble (double_from [] scripts.now))) }
{
    let mut provided = IndexMap::new(alloc);
    let mut names = IndexMap::new(alloc);
    add_scripts(alloc, &mut provided, &mut names, scripts)?;
    Ok(provided)
}

/// Returns the fault for a name that is provided twice.
fn double_told<A: Allocator>(alloc: A, name: &str) -> PlanFault<A>
    ensures { FaultSatisfies (IsDouble (Some name.now)) result }
{
    match String::from_str(alloc, name) {
        Ok(name) => PlanFault::DoubleProvide(name),
        Err(_) => PlanFault::Memory,
    }
}

/// Returns the fault for a name that is missing.
fn missing_told<A: Allocator>(alloc: A, name: &str) -> PlanFault<A>
    ensures { FaultSatisfies (IsMissing (Some name.now)) result }
{
    match String::from_str(alloc, name) {
        Ok(name) => PlanFault::Missing(name),
        Err(_) => PlanFault::Memory,
    }
}

/// Reports whether a name is one of the system, which needs no script (LSB Core 5.0).
fn is_system(name: &[u8]) -> bool
    ensures { result ≡ is_system name.now }
{
    match name {
        [] => false,
        [first, ..] => *first == b'$',
    }
}

/// Returns the first of the names that no script provides, except those of the system.
fn missing_in<'s, A: Allocator, B: Allocator>(
    table: &Providers<'_, A>,
    names: &'s [String<B>],
) -> Option<&'s str>
    ensures { option_map (λ name. name.now) result
        ≡ find (λ name. is_unknown table.now name) (map string_bytes names.now) }
{
    for name in names {
        if !is_system(name.as_bytes()) && position_at(table, name.as_bytes()).is_none() {
            return Some(name.as_str());
        }
    }
    None
}

/// Returns the first name that a script requires and no script provides.
fn missing_of<'s, A: Allocator>(table: &Providers<'_, A>, script: &'s Script<A>) -> Option<&'s str>
    ensures { option_map (λ name. name.now) result ≡ unknown_of table.now script.now }
{
    let header = script.header();
    if let Some(name) = missing_in(table, header.required_start()) {
        return Some(name);
    }
    missing_in(table, header.required_stop())
}

/// Fails if a script requires a name that none of the scripts provides.
pub(crate) fn check_missing<A: Allocator + Copy>(
    alloc: A,
    scripts: &[Script<A>],
    table: &Providers<'_, A>,
) -> Result<(), PlanFault<A>>
    requires { HasPlaces scripts.now table.now }
    ensures whole { OnOk result (missing_from scripts.now scripts.now ≡ None) }
    ensures missing { IfErr result
        (FaultSatisfies (IsMissing (missing_from scripts.now scripts.now))) }
{
    for script in scripts {
        if let Some(name) = missing_of(table, script) {
            return Err(missing_told(alloc, name));
        }
    }
    Ok(())
}
