//! The facility files that are read with the files of a command line.

ghost use Rattle.std.specs.Prelude.{◌≡◌, ◌++◌, map, string_bytes, IfOk, OnOk};
ghost use Rattle.std.specs.List.{filter};
ghost use Rattle.rclinks_command.specs.Facilities.{files_with, is_unnamed};

use crate::files::last_part;
use init_words::Memory;
use std::alloc::Global;

/// Returns whether none of the files has the name of the facility file.
fn is_unnamed(files: &[&str], facility: &str) -> bool
    ensures { result ≡ is_unnamed (map (λ file. file.now) files.now) facility.now }
{
    for file in files {
        if last_part(file) == last_part(facility) {
            return false;
        }
    }
    true
}

/// Adds the facility files, except any that has the same name as one of the script files.
fn add_facilities<'w>(
    files: &[&str],
    facilities: &'w [String],
    all: &mut Vec<&'w str>,
) -> Result<(), Memory>
    ensures { OnOk result (map (λ file. file.now) all.new.items
        ≡ map (λ file. file.now) all.old.items
        ++ filter (is_unnamed (map (λ file. file.now) files.now))
        (map string_bytes facilities.now)) }
{
    for facility in facilities {
        if is_unnamed(files, facility.as_str()) {
            all.push(facility.as_str())?;
        }
    }
    Ok(())
}

/// Returns the files. If `takes` is set, the facility files come before them, except those with the same name as one
/// of the files.
pub(crate) fn files_with<'w>(
    alloc: Global,
    facilities: &'w [String],
    takes: bool,
    files: &[&'w str],
) -> Result<Vec<&'w str>, Memory>
    ensures { IfOk result (λ all. map (λ file. file.now) all.items
        ≡ files_with (map string_bytes facilities.now) takes (map (λ file. file.now) files.now)) }
{
    let mut all = Vec::new(alloc);
    if takes {
        add_facilities(files, facilities, &mut all)?;
    }
    all.extend_from_slice(files)?;
    Ok(all)
}
