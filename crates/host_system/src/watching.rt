//! Decides when a helper watches the children of a host, so that the host need not look at them every tenth of a
//! second.

ghost use Rattle.std.specs.Prelude.{◌≡◌, ◌==◌, ◌||◌, IsTrue, true};
ghost use Rattle.host_system.specs.Watching.{changes_children};

use crate::children::Children;
use crate::systems::System;
use crate::watchers::watch_result;
use host_calls::Reply;
use host_lines::{Doing, MessageSink, Trouble};
use init_words::Answer;
use std::alloc::Allocator;

/// The shortest pause in which a helper is started, in microseconds. So none is started while events follow each other
/// quickly.
const SHORTEST: u64 = 10_000;

/// The name of the children in messages about the helper.
const CHILDREN: &str = "the children";

/// The state of the watch: whether the children are to be watched, and whether the helper watches the present ones.
#[derive(Drop)]
pub(crate) struct Watching {
    is_wanted: bool,
    /// Whether a child was born or had ended since the helper was started, or since the first call.
    is_stale: bool,
    /// The number of failed calls up to the last pause.
    faults: u64,
    failing: Trouble,
}

impl Watching {
    /// Returns a value before any child is watched.
    pub(crate) fn new(is_wanted: bool) -> Watching {
        Watching {
            is_wanted,
            is_stale: false,
            faults: 0,
            failing: Trouble::new(Doing::Watch),
        }
    }

    /// Records an answer: the children change if one was born or had ended.
    pub(crate) fn note(&mut self, reply: &Reply)
        ensures { changes_children reply.now ≡ true → self.new.is_stale ≡ true }
    {
        if matches!(reply, Reply::Now(Answer::Born(_) | Answer::Ended(_))) {
            self.is_stale = true;
        }
    }

    /// Ends a helper that watches other children than the present ones.
    pub(crate) fn end_stale<S: System>(&self, system: &mut S)
        ensures { S.told system.new ≡ S.told system.old }
    {
        if self.is_wanted && self.is_stale {
            system.end_watch();
        }
    }

    /// Returns whether no look is needed before a child ends: there are no children, or a helper watches them, and no
    /// call that init would repeat has failed since the last pause. `faults` is the number of all failed calls.
    pub(crate) fn is_complete(&mut self, has_helper: bool, children: usize, faults: u64) -> bool
        ensures { result ≡ true
            → IsTrue (has_helper || children == 0) × (faults ≡ self.old.faults) }
    {
        let is_watched = has_helper || children == 0;
        let is_complete = self.is_wanted && is_watched && faults == self.faults;
        self.faults = faults;
        is_complete
    }

    /// Starts a helper in a pause of this length, unless the pause is short or one was started for the same children. A
    /// failure is reported, and the next helper is started when the children have changed.
    pub(crate) fn renew<R: MessageSink, S: System, A: Allocator + Copy>(
        &mut self,
        rt: &R,
        system: &mut S,
        children: &Children<S, A>,
        length: u64,
    )
        ensures { S.told system.new ≡ S.told system.old }
    {
        if !self.is_wanted || !self.is_stale || length < SHORTEST || children.count() == 0 {
            return;
        }
        self.is_stale = false;
        if let Err(error) = children.watch(system) {
            self.failing.tell_begun(rt, CHILDREN, &error);
        }
    }

    /// Reports how a helper exited, if that is a failure. Usually it exits because a child ended.
    pub(crate) fn join<R: MessageSink, S: System>(&mut self, rt: &R, system: &mut S)
        ensures { S.told system.new ≡ S.told system.old }
    {
        self.failing
            .tell(rt, CHILDREN, &watch_result(system.join_watch()));
    }
}
