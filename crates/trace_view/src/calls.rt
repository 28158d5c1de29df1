//! The power events and letters that called entries since the last stage or table.

ghost use Rattle.std.specs.Prelude.{◌≡◌, ◌∷◌, List};
ghost use Rattle.trace_view.specs.Words.{Event};
ghost use Rattle.trace_view.specs.Calls.{calls_of, is_named_by};

use init_words::{Entry, Letter, PowerKind};
use std::alloc::Allocator;
use trace_events::{CallSet, Happening, HappeningIn};

/// Updates the calls for a happening.
pub(crate) fn take_call<B: Allocator>(calls: &mut CallSet, happening: &HappeningIn<B>)
    ensures { (past : List Event) → calls.old ≡ calls_of past
        → calls.new ≡ calls_of (happening.now ∷ past) }
{
    match happening {
        Happening::Enter(_, _) | Happening::NewTable(_) => *calls = CallSet::default(),
        Happening::Power(kind) => calls.set_power(*kind, true),
        Happening::Call(letter) => calls.set_letter(*letter, true),
        _ => {}
    }
}

/// Returns whether one of the calls names the entry.
pub(crate) fn is_named(entry: &Entry, calls: CallSet) -> bool
    ensures { result ≡ is_named_by entry.now calls }
{
    entry.act.is_called_by(PowerKind::Fail) && calls.fail
        || entry.act.is_called_by(PowerKind::FailNow) && calls.fail_now
        || entry.act.is_called_by(PowerKind::Ok) && calls.ok
        || entry.act.is_ondemand()
            && (entry.names_letter(Letter::A) && calls.a
                || entry.names_letter(Letter::B) && calls.b
                || entry.names_letter(Letter::C) && calls.c)
}
