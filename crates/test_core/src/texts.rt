//! The lines of states, from the third on, and complete texts with them.

use std::alloc::{AllocError, Global};

/// Two starts are open in runlevel 3; a record has the status of its last child.
pub(crate) const STARTED: &str = "clock 0\nstage 3 5\ngoal 3 5\nflags 10\nwish 00 - 000 000\n\
    table 3\nid:3:initdefault:\na:3:respawn:x\nb:3:once:y\n\
    slot id - - - - 0000 - - -\nslot a - - start - 1000 - 0 exit:0\nslot b - - start - 1000 - - killed\nend 14\n";

/// The state of `STARTED` in version 1.
pub(crate) const STARTED_OLD: &str = "clock 0\nstage 3 5\ngoal 3 5\nflags 10\nwish 00 - 000 000\n\
    table 3\nid:3:initdefault:\na:3:respawn:x\nb:3:once:y\n\
    slot id - - - - 0000 - -\nslot a - - start - 1000 - 0\nslot b - - start - 1000 - -\nend 14\n";

/// The child of `a` ended before that of `b` was born, with the same number.
pub(crate) const ENDED: &str = "clock 0\nstage 3 5\ngoal 3 5\nflags 10\nwish 00 - 000 000\n\
    table 3\nid:3:initdefault:\na:3:respawn:x\nb:3:once:y\n\
    slot id - - - - 0000 - - -\nslot a - - start - 1000 - 0,0 exit:0\nslot b 700 once - - 1000 - - -\nend 14\n";

/// No stage has been entered, and there is no entry.
pub(crate) const OPENING: &str =
    "clock 0\nstage none 0\ngoal 3 5\nflags 00\nwish 00 - 000 000\ntable 0\nend 8\n";

/// Init has waited for `w`, and `r` runs.
pub(crate) const SETTLED: &str = "clock 7\nstage 3 5\ngoal 3 5\nflags 11\nwish 00 - 000 000\n\
    table 2\nw:3:wait:a\nr:3:respawn:b\nslot w - - - - 1000 - - exit:0\nslot r 700 respawn - - 1000 - 7 -\nend 12\n";

/// Returns the text of a version and a generation, with these lines.
pub(crate) fn text_of(
    global: Global,
    version: u64,
    generation: u64,
    lines: &str,
) -> Result<String, AllocError> {
    format!(in global; "initd-state {version}\ngeneration {generation}\n{lines}")
}
