//! Finds the law that a happening breaks.

ghost use Rattle.std.specs.Prelude.{◌≡◌, not, if◌then◌else◌, option_map, option_copied};
ghost use Rattle.trace_check.specs.Laws.{law_number};
ghost use Rattle.trace_check.specs.Flaws.{is_limited_in, calm_after};

use crate::judge::Judge;
use crate::laws::Law;
use crate::parts::is_open;
use crate::spells::is_child_excluded;
use crate::tables::{act, entry_at, starts_in};
use init_words::{Entry, Id, Level, OrderKind, waited};
use inittab_text::Table;
use respawn_limit::HOLD;
use std::alloc::Allocator;
use trace_events::{Happening, HappeningIn, is_level};

/// Returns whether the respawn limit applies to the entry of the id (init(8)).
fn is_limited<B: Allocator>(table: &Table<B>, id: &Id) -> bool
    ensures { result ≡ is_limited_in table.now id.now }
{
    match act(table, id) {
        Some(act) => act.is_limited(),
        None => false,
    }
}

impl<A: Allocator> Judge<A> {
    ghost use Rattle.std.specs.Map.{keys_of};
    ghost use Rattle.std.specs.List.{list_any, list_all};
    ghost use Rattle.trace_check.specs.Flaws.{is_alive, is_excluded_in, none_excluded_in, NoneExcludedIfCalm, is_placed_in, is_starting, is_wanted_in, is_owed_in, is_in_turn_in, IsUnowedPrefix, is_over_with, unowed_count_after, first_owed_in, is_held_in, is_full_in, is_free_in, is_due_hold_in, is_served_in, is_settled_in, is_over_in, may_kill_in, flaw_of_birth, flaw_in};

    /// Returns the lowest-numbered law that the happening breaks, given the table in force before it.
    pub(crate) fn flaw<B: Allocator>(
        &self,
        table: &Table<A>,
        calm: bool,
        unowed: usize,
        happening: &HappeningIn<B>,
    ) -> Option<Law>
        requires calm { NoneExcludedIfCalm calm table.now self.now }
        requires unowed { IsUnowedPrefix unowed table.now self.now }
        ensures { option_map law_number result ≡ flaw_in table.now self.now happening.now }
    {
        match happening {
            Happening::Birth(id, _) => self.flaw_of_birth(table, calm, unowed, id),
            Happening::Settle(level) => unless(
                self.is_settled(*level, table, calm),
                Law::NotSettled,
            ),
            Happening::Asked(id, OrderKind::Start) => unless(
                self.is_free(table, id),
                Law::RespawnLimit,
            ),
            Happening::Hold(id) => unless(self.is_due_hold(table, id), Law::RespawnLimit),
            Happening::Asked(id, OrderKind::Term) => unless(
                self.is_excluded(table, id),
                Law::SignalNotDue,
            ),
            Happening::Asked(id, OrderKind::Kill) => unless(
                self.may_kill(table, id),
                Law::SignalNotDue,
            ),
            _ => None,
        }
    }

    fn flaw_of_birth(&self, table: &Table<A>, calm: bool, unowed: usize, id: &Id) -> Option<Law>
        requires calm { NoneExcludedIfCalm calm table.now self.now }
        requires unowed { IsUnowedPrefix unowed table.now self.now }
        ensures { option_map law_number result ≡ flaw_of_birth table.now self.now id.now }
    {
        if self.is_alive(id) {
            Some(Law::SecondChild)
        } else if !self.has_startable_entry(table, id) {
            Some(Law::OutOfStage)
        } else if !self.is_in_turn(table, unowed, id) {
            Some(Law::OutOfTurn)
        } else {
            unless(self.none_excluded(table, calm), Law::BesideExcluded)
        }
    }

    fn is_alive(&self, id: &Id) -> bool
        ensures { result ≡ is_alive self.now id.now }
    {
        self.children.contains_key(id)
    }

    /// Returns whether the child of the id is excluded.
    fn is_excluded(&self, table: &Table<A>, id: &Id) -> bool
        ensures { result ≡ is_excluded_in table.now self.now id.now }
    {
        is_child_excluded(table, self.stage, &self.children, id)
    }

    /// Returns whether no child is excluded. If `calm` is set, this is known without looking at the children.
    fn none_excluded(&self, table: &Table<A>, calm: bool) -> bool
        requires { NoneExcludedIfCalm calm table.now self.now }
        ensures { result ≡ none_excluded_in table.now self.now }
    {
        calm || !self.any_excluded(table)
    }

    fn any_excluded(&self, table: &Table<A>) -> bool
        ensures { result
            ≡ list_any (is_excluded_in table.now self.now) (keys_of self.now.children) }
    {
        self.children.keys().any(|id| self.is_excluded(table, id))
    }

    /// Returns whether the id has an entry that starts in the stage.
    fn has_startable_entry(&self, table: &Table<A>, id: &Id) -> bool
        ensures { result ≡ is_placed_in table.now self.now id.now }
    {
        match table.get(id) {
            Some(entry) => starts_in(entry, self.stage),
            None => false,
        }
    }

    fn is_starting(&self, id: &Id) -> bool
        ensures { result ≡ is_starting self.now id.now }
    {
        is_open(&self.orders, id, OrderKind::Start)
    }

    pub(crate) fn is_wanted(&self, entry: &Entry) -> bool
        ensures { result ≡ is_wanted_in self.now entry.now }
    {
        let id = &entry.id;
        let idle = !self.kept.contains(id) && !self.is_starting(id);
        let asked = self.asked.contains(id);
        let called = self.called.contains(id);
        starts_in(entry, self.stage) && entry.act.is_wanted(idle, !asked, called)
    }

    /// Returns whether the entry is owed: init waits for it, and it has not finished.
    pub(crate) fn is_owed(&self, entry: &Entry) -> bool
        ensures { result ≡ is_owed_in self.now entry.now }
    {
        let id = &entry.id;
        waited(entry) && (self.kept.contains(id) || self.is_starting(id) || self.is_wanted(entry))
    }

    /// Returns whether no entry before the entry of the id is owed.
    fn is_in_turn(&self, table: &Table<A>, unowed: usize, id: &Id) -> bool
        requires { IsUnowedPrefix unowed table.now self.now }
        ensures { result ≡ is_in_turn_in table.now self.now id.now }
    {
        self.first_owed(table, unowed, id).is_none()
    }

    /// Returns the first owed entry before the entry of the id. The first `unowed` entries are known not to be owed.
    pub(crate) fn first_owed<'a>(
        &self,
        table: &'a Table<A>,
        unowed: usize,
        id: &Id,
    ) -> Option<&'a Entry>
        requires { IsUnowedPrefix unowed table.now self.now }
        ensures { option_copied result ≡ first_owed_in table.now self.now id.now }
    {
        let Some(next) = table.at(unowed) else {
            return None;
        };
        if *id == next.id {
            return None;
        }
        self.find_owed(table, id)
    }

    /// Returns the first owed entry before the entry of the id, searching from the first entry of the table.
    fn find_owed<'a>(&self, table: &'a Table<A>, id: &Id) -> Option<&'a Entry>
        ensures { option_copied result ≡ first_owed_in table.now self.now id.now }
    {
        for position in 0..table.len() {
            let entry = entry_at(table, position);
            if *id == entry.id {
                return None;
            }
            if self.is_owed(entry) {
                return Some(entry);
            }
        }
        None
    }

    /// Returns the number of entries at the front of the table that are known not to be owed, given that the first
    /// `unowed` are not. It counts beyond `unowed` only before a birth, because only then does a law depend on it.
    pub(crate) fn unowed_before<B: Allocator>(
        &self,
        table: &Table<A>,
        happening: &HappeningIn<B>,
        unowed: usize,
    ) -> usize
        requires { IsUnowedPrefix unowed table.now self.now }
        ensures { IsUnowedPrefix result table.now self.now }
    {
        match happening {
            Happening::Birth(..) => self.unowed_from(table, unowed),
            _ => unowed,
        }
    }

    /// Returns the position of the first owed entry, given that the first `unowed` are not owed.
    fn unowed_from(&self, table: &Table<A>, unowed: usize) -> usize
        requires { IsUnowedPrefix unowed table.now self.now }
        ensures { IsUnowedPrefix result table.now self.now }
    {
        for position in unowed..table.len() {
            if self.is_owed(entry_at(table, position)) {
                return position;
            }
        }
        table.len().max(unowed)
    }

    /// Returns whether init waits for the entry of the id, but the entry is not owed.
    fn is_over_with(&self, table: &Table<A>, id: &Id) -> bool
        ensures { result ≡ is_over_with table.now self.now id.now }
    {
        match table.get(id) {
            Some(entry) => waited(entry) && !self.is_owed(entry),
            None => false,
        }
    }

    /// Returns the number of entries at the front of the table that are certainly not owed after the happening, given
    /// that the first `unowed` are not owed before it.
    pub(crate) fn unowed_count_after<B: Allocator>(
        &self,
        table: &Table<A>,
        happening: &HappeningIn<B>,
        unowed: usize,
    ) -> usize
        ensures { result ≡ unowed_count_after table.now self.now happening.now unowed }
    {
        match happening {
            Happening::Enter(..) | Happening::NewTable(_) => 0,
            Happening::Power(_) | Happening::Call(_) => 0,
            Happening::Asked(id, _) => count_if(!self.is_over_with(table, id), unowed),
            Happening::Birth(id, _) => count_if(!self.is_over_with(table, id), unowed),
            Happening::Told(id) => count_if(!self.is_over_with(table, id), unowed),
            _ => unowed,
        }
    }

    /// Returns whether the id is held: its last hold began less than five minutes ago (init(8)).
    pub(crate) fn is_held(&self, id: &Id) -> bool
        ensures { result ≡ is_held_in self.now id.now }
    {
        match self.holds.get(id) {
            Some(began) => self.time.saturating_sub(*began) < HOLD,
            None => false,
        }
    }

    /// Returns whether ten starts of the id are less than two minutes old (init(8)).
    pub(crate) fn is_full(&self, id: &Id) -> bool
        ensures { result ≡ is_full_in self.now id.now }
    {
        match self.starts.get(id) {
            Some(starts) => starts.is_full(self.time),
            None => false,
        }
    }

    fn is_free(&self, table: &Table<A>, id: &Id) -> bool
        ensures { result ≡ is_free_in table.now self.now id.now }
    {
        !is_limited(table, id) || !self.is_held(id) && !self.is_full(id)
    }

    fn is_due_hold(&self, table: &Table<A>, id: &Id) -> bool
        ensures { result ≡ is_due_hold_in table.now self.now id.now }
    {
        is_limited(table, id) && !self.is_held(id) && self.is_full(id)
    }

    /// Returns whether the entry does not keep the level from being settled.
    fn is_served(&self, level: Level, entry: &Entry) -> bool
        ensures { result ≡ is_served_in level self.now entry.now }
    {
        if self.is_owed(entry) {
            return false;
        }
        let kept_up = self.is_alive(&entry.id) || self.is_held(&entry.id);
        let asked = self.asked.contains(&entry.id);
        !entry.names_level(level) || entry.act.is_served(asked, kept_up)
    }

    fn all_served(&self, level: Level, table: &Table<A>) -> bool
        ensures { result ≡ list_all (is_served_in level self.now) table.now }
    {
        table
            .entries()
            .iter()
            .all(|entry| self.is_served(level, entry))
    }

    pub(crate) fn is_settled(&self, level: Level, table: &Table<A>, calm: bool) -> bool
        requires { NoneExcludedIfCalm calm table.now self.now }
        ensures { result ≡ is_settled_in level table.now self.now }
    {
        is_level(level, self.stage)
            && self.none_excluded(table, calm)
            && self.all_served(level, table)
    }

    /// Returns whether the grace period has passed since init learned of the first TERM in the child's spell.
    fn is_over(&self, id: &Id) -> bool
        ensures { result ≡ is_over_in self.now id.now }
    {
        match self.termed.get(id) {
            Some(told) => *told <= self.time && u64::from(self.grace) <= self.time - *told,
            None => false,
        }
    }

    fn may_kill(&self, table: &Table<A>, id: &Id) -> bool
        ensures { result ≡ may_kill_in table.now self.now id.now }
    {
        self.is_excluded(table, id) && self.is_over(id)
    }
}

/// Returns whether it is certain that no child is excluded after a happening that broke no law, given whether this was
/// certain before the happening.
pub(crate) fn calm_after<B: Allocator>(happening: &HappeningIn<B>, calm: bool) -> bool
    ensures { result ≡ calm_after happening.now calm }
{
    match happening {
        Happening::Birth(..) | Happening::Settle(_) => true,
        Happening::Enter(..) | Happening::NewTable(_) => false,
        _ => calm,
    }
}

/// Returns the count if the test holds, otherwise 0.
fn count_if(test: bool, count: usize) -> usize
    ensures { result ≡ (if test then count else 0) }
{
    if test { count } else { 0 }
}

/// Returns the law if its test fails.
fn unless(test: bool, law: Law) -> Option<Law>
    ensures { option_map law_number result ≡ (if not test then Some (law_number law) else None) }
{
    if test { None } else { Some(law) }
}
