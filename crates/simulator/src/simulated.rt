//! The system as a script simulates it: its children and its answers.

ghost use Rattle.std.specs.Prelude.{◌≡◌, OnOk, OnErr};
ghost use Rattle.simulator.specs.Objections.{unless};

use crate::objections::Objection;
use indexmap::IndexMap;
use init_words::{Answer, ChildNumber, Id, Memory, OrderKind};
use std::alloc::{Allocator, Global};
use std::hash::{BuildHasherDefault, FoldHasher};
use std::marker::Model;
use trace_events::{Happening, HappeningIn};

/// An unreaped child: the id for which it was born, and whether it has died.
#[derive(Clone, Copy)]
pub struct SimulatedChild {
    pub id: Id,
    pub is_dead: bool,
}

/// The state of the simulated system between two happenings: the orders not yet carried out, the answers not yet told,
/// and the unreaped children.
#[derive(Drop)]
pub struct SimulatedSystem<A: Allocator = Global> {
    orders: IndexMap<Id, OrderKind, BuildHasherDefault<FoldHasher>, A>,
    answers: IndexMap<Id, Answer, BuildHasherDefault<FoldHasher>, A>,
    children: IndexMap<u32, SimulatedChild, BuildHasherDefault<FoldHasher>, A>,
}

impl<A: Allocator> Model for SimulatedSystem<A> {
    ghost use Rattle.simulator.specs.State.{SystemState};

    ghost Value = { SystemState };

    ghost view = { λ side. record {
      orders = side.orders.entries;
      answers = side.answers.entries;
      children = side.children.entries;
    } };
}

impl<A: Allocator + Copy> SimulatedSystem<A> {
    ghost use Rattle.std.specs.Prelude.{List, [], ◌∷◌};
    ghost use Rattle.simulator.specs.Words.{Entry, NewTable};
    ghost use Rattle.simulator.specs.State.{SystemState, empty};
    ghost use Rattle.simulator.specs.Follows.{Follows};

    /// Creates the system before init's first step, for a trace that has only a table. This does not allocate memory.
    pub fn new(alloc: A) -> SimulatedSystem<A>
        ensures { (table : List Entry) → Follows result (NewTable table ∷ []) }
    {
        SimulatedSystem::new_by_state(alloc)
    }

    fn new_by_state(alloc: A) -> SimulatedSystem<A>
        ensures { result ≡ empty }
    {
        SimulatedSystem {
            orders: IndexMap::new(alloc),
            answers: IndexMap::new(alloc),
            children: IndexMap::new(alloc),
        }
    }
}

impl<A: Allocator> SimulatedSystem<A> {
    ghost use Rattle.std.specs.Prelude.{ℕ, List, ◌∷◌, false, true, ◌&&◌, IsTrue, IsOk, is_none, is_some};
    ghost use Rattle.simulator.specs.Words.{Goal, Event, answered_of, may_come, is_sound, is_order};
    ghost use Rattle.init_words.specs.declared.orders.Answer.TheVariants.{Born};
    ghost use Rattle.simulator.specs.State.{order_in, answer_in, OrdersAfterChange, AnswersAfterChange, ChildrenAfterChange, is_living_in, is_dead_in, without, with, with_child, with_death};
    ghost use Rattle.simulator.specs.Steps.{is_script, needs_memory, order_after, answer_after, child_after};
    ghost use Rattle.simulator.specs.Objections.{objection_to};
    ghost use Rattle.simulator.specs.Follows.{Follows};

    /// Returns whether the happening may come next and can come from a script: an act on an order, a death, a `told`, a
    /// nudge, a reading of the clock, a request, a hand-over, or a `notread`. A step of init is never
    /// allowed.
    pub fn allows<B: Allocator>(&self, happening: &HappeningIn<B>) -> bool
        ensures may_come { (goal : Goal) (past : List Event)
            → IsTrue (is_sound goal past) → Follows self.now past
            → result ≡ (is_script happening.now && may_come goal happening.now past) }
        ensures other { is_script happening.now ≡ false → result ≡ false }
    {
        self.objection(happening).is_none()
    }

    /// Returns the first reason why the happening may not come next in a script, or `None` if it may.
    pub fn objection<B: Allocator>(&self, happening: &HappeningIn<B>) -> Option<Objection>
        ensures value { result ≡ objection_to self.now happening.now }
        ensures none { (goal : Goal) (past : List Event)
            → IsTrue (is_sound goal past) → Follows self.now past
            → is_none result ≡ (is_script happening.now && may_come goal happening.now past) }
        ensures other { is_script happening.now ≡ false → is_some result ≡ true }
    {
        self.objection_by_state(happening)
    }

    fn objection_by_state<B: Allocator>(&self, happening: &HappeningIn<B>) -> Option<Objection>
        ensures { result ≡ objection_to self.now happening.now }
    {
        match happening {
            Happening::Birth(id, number) => {
                if self.is_undone(id, OrderKind::Start) {
                    let is_free = self.children.get(&number.0).is_none();
                    unless(is_free, Objection::NumberTaken(*number))
                } else {
                    Some(Objection::NoStart(*id))
                }
            }
            Happening::NoBirth(id) => {
                unless(
                    self.is_undone(id, OrderKind::Start),
                    Objection::NoStart(*id),
                )
            }
            Happening::Death(number) => {
                unless(self.is_living(*number), Objection::NoneLiving(*number))
            }
            Happening::Reaped(id, number, _) => {
                if self.is_undone(id, OrderKind::Look) {
                    unless(self.is_dead(id, *number), Objection::NoneDead(*id, *number))
                } else {
                    Some(Objection::NoLook(*id))
                }
            }
            Happening::Still(id) | Happening::NoLook(id) => {
                unless(self.is_undone(id, OrderKind::Look), Objection::NoLook(*id))
            }
            Happening::Hit(id) | Happening::Miss(id) => {
                let is_signalled = self.is_undone(id, OrderKind::Term)
                    || self.is_undone(id, OrderKind::Kill);
                unless(is_signalled, Objection::NoSignal(*id))
            }
            Happening::Told(id) => {
                unless(self.answers.get(id).is_some(), Objection::NothingDone(*id))
            }
            Happening::NotRead
            | Happening::Clock(_)
            | Happening::Nudge
            | Happening::Got(_)
            | Happening::Handed(_) => None,
            Happening::NewTable(_) => Some(Objection::NotNow),
            _ => Some(Objection::OwnStep),
        }
    }

    /// Returns whether the id has an order of this kind that is still to be carried out.
    fn is_undone(&self, id: &Id, ask: OrderKind) -> bool
        ensures { result ≡ is_order ask (order_in id.now self.now) }
    {
        match self.orders.get(id) {
            Some(given) => *given == ask,
            None => false,
        }
    }

    fn is_living(&self, number: ChildNumber) -> bool
        ensures { result ≡ is_living_in number self.now }
    {
        match self.children.get(&number.0) {
            Some(child) => !child.is_dead,
            None => false,
        }
    }

    fn is_dead(&self, id: &Id, number: ChildNumber) -> bool
        ensures { result ≡ is_dead_in id.now number self.now }
    {
        match self.children.get(&number.0) {
            Some(child) => *id == child.id && child.is_dead,
            None => false,
        }
    }

    /// Returns the answer under way to the id's order: the system has carried it out, and init was not told yet.
    pub fn answer(&self, id: &Id) -> Option<Answer>
        ensures { (past : List Event) → Follows self.now past → result ≡ answered_of id.now past }
    {
        self.answer_by_state(id)
    }

    fn answer_by_state(&self, id: &Id) -> Option<Answer>
        ensures { result ≡ answer_in id.now self.now }
    {
        self.answers.get(id).copied()
    }

    /// Updates the state for a happening of any kind, so that it fits the longer trace. If memory allocation fails,
    /// nothing changes. Only an order or an act allocates memory.
    pub fn take<B: Allocator>(&mut self, happening: &HappeningIn<B>) -> Result<(), Memory>
        ensures ok { OnOk result ((goal : Goal) (past : List Event)
            → IsTrue (is_sound goal (happening.now ∷ past)) → Follows self.old past
            → Follows self.new (happening.now ∷ past)) }
        ensures err { OnErr result (self.new ≡ self.old) }
        ensures succeeds { needs_memory happening.now ≡ false → IsOk result }
    {
        self.take_by_state(happening)
    }

    fn take_by_state<B: Allocator>(&mut self, happening: &HappeningIn<B>) -> Result<(), Memory>
        ensures orders { OnOk result
            (OrdersAfterChange self.old self.new (order_after happening.now)) }
        ensures answers { OnOk result
            (AnswersAfterChange self.old self.new (answer_after happening.now)) }
        ensures children { OnOk result
            (ChildrenAfterChange self.old self.new (child_after happening.now)) }
        ensures err { OnErr result (self.new ≡ self.old) }
        ensures succeeds { needs_memory happening.now ≡ false → IsOk result }
    {
        match happening {
            Happening::Asked(id, ask) => {
                self.orders.insert(*id, *ask)?;
                Ok(())
            }
            Happening::Birth(id, number) => self.birth(*id, *number),
            Happening::NoBirth(id) => self.do_order(*id, Answer::NotBorn),
            Happening::Death(number) => {
                self.death(*number);
                Ok(())
            }
            Happening::Reaped(id, number, status) => {
                self.do_order(*id, Answer::Ended(*status))?;
                self.children.swap_remove(&number.0);
                Ok(())
            }
            Happening::Still(id) => self.do_order(*id, Answer::Alive),
            Happening::NoLook(id) => self.do_order(*id, Answer::NoLook),
            Happening::Hit(id) => self.do_order(*id, Answer::Hit),
            Happening::Miss(id) => self.do_order(*id, Answer::Miss),
            Happening::Told(id) => {
                self.tell(id);
                Ok(())
            }
            _ => Ok(()),
        }
    }

    /// Carries out the id's order: it is no longer open for the system, and its answer is under way.
    fn do_order(&mut self, id: Id, answer: Answer) -> Result<(), Memory>
        ensures orders { OnOk result
            (OrdersAfterChange self.old self.new (λ other. without other id)) }
        ensures answers { OnOk result (AnswersAfterChange self.old self.new
            (λ other. with other id answer)) }
        ensures children { self.new.children ≡ self.old.children }
        ensures err { OnErr result (self.new ≡ self.old) }
    {
        self.answers.insert(id, answer)?;
        self.orders.swap_remove(&id);
        Ok(())
    }

    /// Adds a child. Reserves the memory for its answer first.
    fn birth(&mut self, id: Id, number: ChildNumber) -> Result<(), Memory>
        ensures orders { OnOk result
            (OrdersAfterChange self.old self.new (λ other. without other id)) }
        ensures answers { OnOk result (AnswersAfterChange self.old self.new
            (λ other. with other id (Born number))) }
        ensures children { OnOk result (ChildrenAfterChange self.old self.new
            (λ other. with_child other number id)) }
        ensures err { OnErr result (self.new ≡ self.old) }
    {
        self.answers.reserve(1)?;
        let child = SimulatedChild { id, is_dead: false };
        self.children.insert(number.0, child)?;
        if self.answers.insert(id, Answer::Born(number)).is_err() {
            unreachable!()
        }
        self.orders.swap_remove(&id);
        Ok(())
    }

    /// Marks the child with this number as dead, if there is one.
    fn death(&mut self, number: ChildNumber)
        ensures orders { self.new.orders ≡ self.old.orders }
        ensures answers { self.new.answers ≡ self.old.answers }
        ensures children { ChildrenAfterChange self.old self.new
            (λ other. with_death other number) }
    {
        if let Some(child) = self.children.get_mut(&number.0) {
            child.is_dead = true;
        }
    }

    /// Marks the id's order as carried out and told.
    fn tell(&mut self, id: &Id)
        ensures orders { OrdersAfterChange self.old self.new (λ other. without other id.now) }
        ensures answers { AnswersAfterChange self.old self.new (λ other. without other id.now) }
        ensures children { self.new.children ≡ self.old.children }
    {
        self.orders.swap_remove(id);
        self.answers.swap_remove(id);
    }
}

/// Returns the objection, unless the test holds.
fn unless(holds: bool, objection: Objection) -> Option<Objection>
    ensures { result ≡ unless holds objection }
{
    if holds { None } else { Some(objection) }
}
