//! The action that an unknown word probably means.

ghost use Rattle.std.specs.Prelude.{◌≡◌};
ghost use Rattle.inittab_lint.specs.Meant.{meant, similar};

use crate::shell::is;
use command_words::is_slip;
use init_words::{ACTS, Act};

/// Returns the first action whose name differs from the word by at most one typing error: a letter replaced, added,
/// missing, or swapped with the next one. Case is ignored.
fn similar(word: &[u8]) -> Option<Act>
    ensures { result ≡ similar word.now }
{
    ACTS.iter().copied().find(|act| is_slip(word, act.word()))
}

/// Returns the action that a word probably means: `respawn` for BusyBox's askfirst, otherwise the first action whose
/// name is similar.
pub fn meant(word: &[u8]) -> Option<Act>
    ensures { result ≡ meant word.now }
{
    if is(word, b"askfirst") {
        return Some(Act::Respawn);
    }
    similar(word)
}
