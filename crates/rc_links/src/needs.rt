//! The order constraints between scripts, at the start and at the stop.

ghost use Rattle.std.specs.Prelude.{string_bytes, ◌≡◌, ◌++◌, OnOk, IfOk, length, map};
ghost use Rattle.rc_numbers.specs.Numbering.{InRange};
ghost use Rattle.rc_links.specs.Scripts.{need, named, needs_of};
ghost use Rattle.rc_links.specs.Tables.{HasPlaces, needs_by};

use crate::scripts::Script;
use crate::tables::{Providers, position_at};
use init_words::Memory;
use std::alloc::Allocator;

/// The phase for which scripts are ordered: the start or the stop.
#[derive(Clone, Copy, PartialEq, Eq)]
pub(crate) enum Phase {
    Start,
    Stop,
}

/// Returns the need when the script at this position names another script: at the start it needs the other; at the stop
/// the other needs it.
fn need(phase: Phase, position: usize, other: usize) -> (usize, usize)
    ensures { result ≡ need phase position other }
{
    match phase {
        Phase::Start => (position, other),
        Phase::Stop => (other, position),
    }
}

/// Adds the needs for the names that the script at this position lists.
fn add_names<A: Allocator, B: Allocator>(
    edges: &mut Vec<(usize, usize), A>,
    phase: Phase,
    position: usize,
    table: &Providers<'_, A>,
    names: &[String<B>],
) -> Result<(), Memory>
    ensures { OnOk result (edges.new.items ≡
        edges.old.items ++ needs_by phase position table.now (map string_bytes names.now)) }
{
    for name in names {
        if let Some(other) = position_at(table, name.as_bytes()) {
            edges.push(need(phase, position, other))?;
        }
    }
    Ok(())
}

/// Adds the needs for the names in a script's header.
fn add_script<A: Allocator>(
    edges: &mut Vec<(usize, usize), A>,
    phase: Phase,
    position: usize,
    script: &Script<A>,
    table: &Providers<'_, A>,
) -> Result<(), Memory>
    ensures { OnOk result (edges.new.items ≡
        edges.old.items ++ needs_by phase position table.now (named phase script.now.header)) }
{
    let header = script.header();
    match phase {
        Phase::Start => {
            add_names(edges, phase, position, table, header.required_start())?;
            add_names(edges, phase, position, table, header.should_start())
        }
        Phase::Stop => {
            add_names(edges, phase, position, table, header.required_stop())?;
            add_names(edges, phase, position, table, header.should_stop())
        }
    }
}

/// Returns the needs of all scripts.
pub(crate) fn needs<A: Allocator + Copy>(
    alloc: A,
    phase: Phase,
    scripts: &[Script<A>],
    table: &Providers<'_, A>,
) -> Result<Vec<(usize, usize), A>, Memory>
    requires { HasPlaces scripts.now table.now }
    ensures needs { IfOk result (λ edges. edges.items ≡ needs_of phase scripts.now) }
    ensures range { IfOk result (λ edges. InRange (length scripts.now) edges.items) }
{
    let mut edges = Vec::new(alloc);
    for position in 0..scripts.len() {
        add_script(&mut edges, phase, position, &scripts[position], table)?;
    }
    Ok(edges)
}
