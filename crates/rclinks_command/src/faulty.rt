//! Finds the scripts whose fault excludes them from a plan.
//!
//! `tools/pages.d/rclinks-lines` tests this module with `--skip` and `--all`. The contract of each function is its
//! definition in `specs/Skipping`, so that its body can be changed freely. The messages about a fault are in
//! `telling`.

ghost use Rattle.std.specs.Prelude.{◌≡◌, ◌<◌, ◌||◌, ◌&&◌, true, IfSome, length};
ghost use Rattle.rc_links.specs.Scripts.{has_name, has_script};
ghost use Rattle.rclinks_command.specs.Skipping.{IsFaultAt, is_at_fault, is_doubled, is_provided};

use rc_links::{PlanFault, Script, has_name};

/// Returns whether one of the scripts provides the name.
pub(crate) fn is_provided(scripts: &[Script], name: &str) -> bool
    ensures { result ≡ is_provided scripts.now name.now }
{
    scripts
        .iter()
        .any(|script| has_name(name, script.header().provides()))
}

/// Returns whether one of the scripts has the name.
fn has_script(scripts: &[Script], name: &str) -> bool
    ensures { result ≡ has_script scripts.now name.now }
{
    scripts.iter().any(|script| script.name() == name)
}

/// Returns whether the script provides a name that an earlier script provides, or has the same name as an earlier
/// script.
fn is_doubled(before: &[Script], name: &str, script: &Script) -> bool
    ensures { result ≡ is_doubled before.now name.now script.now }
{
    (has_name(name, script.header().provides()) && is_provided(before, name))
        || (script.name() == name && has_script(before, name))
}

/// Returns whether the script requires the name.
fn is_required(name: &str, script: &Script) -> bool
    ensures { result ≡ (has_name name.now script.now.header.required_start
        || has_name name.now script.now.header.required_stop) }
{
    let header = script.header();
    has_name(name, header.required_start()) || has_name(name, header.required_stop())
}

/// Returns whether a fault of the plan is about this script, which comes after the scripts in `before`.
fn is_at_fault(before: &[Script], fault: &PlanFault, script: &Script) -> bool
    ensures { result ≡ is_at_fault before.now fault.now script.now }
{
    match fault {
        PlanFault::DoubleProvide(name) => is_doubled(before, name.as_str(), script),
        PlanFault::Missing(name) => is_required(name.as_str(), script),
        PlanFault::Cycle(names) => has_name(script.name(), names.as_slice()),
        PlanFault::TooDeep | PlanFault::Memory => false,
    }
}

/// Returns the position of a script that a fault of the plan is about: the first one, or for a cycle the last. Returns
/// `None` if there is no such script.
pub(crate) fn place_of(scripts: &[Script], fault: &PlanFault) -> Option<usize>
    ensures within { IfSome result (λ position. position < length scripts.now) }
    ensures fault { IfSome result (IsFaultAt scripts.now fault.now) }
{
    let mut found = None;
    for position in 0..scripts.len() {
        if is_at_fault(&scripts[..position], fault, &scripts[position]) {
            found = Some(position);
            if !matches!(fault, PlanFault::Cycle(_)) {
                return found;
            }
        }
    }
    found
}
