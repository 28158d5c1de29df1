//! The data of a timeline about an id: the lifetimes of its children, and the other marks of the id.

ghost use Rattle.std.specs.Prelude.{◌≡◌, Some, IfOk, OnOk};
ghost use Rattle.initview_timeline.specs.Lives.{id_of, ids_from, is_for, last_after, life_after, lives_after, lives_of, marks_for, with_id};

use crate::marks::{Shown, TimelineMark};
use crate::sets::Ids;
use init_words::{ChildNumber, Id, SignalKind};
use std::alloc::{AllocError, Global};
use trace_view::Ending;

/// The lifetime of a child: its number, the time of its birth, the time of the first SIGTERM sent to it, if any, and
/// the status and time of its end, if it has ended. Times are in seconds.
#[derive(Clone, Copy)]
pub struct Life {
    pub number: ChildNumber,
    pub from: u64,
    pub term: Option<u64>,
    pub end: Option<Ending>,
}

/// Returns the id that the mark is about, if any.
pub(crate) fn id_of(what: Shown) -> Option<Id>
    ensures { result ≡ id_of what }
{
    match what {
        Shown::Read | Shown::Entered(_) | Shown::Settled(_) => None,
        Shown::NotBorn(id) | Shown::Held(id) => Some(id),
        Shown::Born(id, _) | Shown::Sent(id, _) => Some(id),
        Shown::Ended(id, _, _) => Some(id),
    }
}

/// Adds an id, unless the set has it already.
pub(crate) fn add_new(ids: &mut Ids, id: Id) -> Result<(), AllocError>
    ensures { OnOk result (ids.new.keys ≡ with_id ids.old.keys (Some id)) }
{
    ids.insert(id)?;
    Ok(())
}

/// Adds the id of each mark, unless the set has it already.
pub(crate) fn add_ids(ids: &mut Ids, marks: &[TimelineMark]) -> Result<(), AllocError>
    ensures { OnOk result (ids.new.keys ≡ ids_from ids.old.keys marks.now) }
{
    let mut rest = marks;
    while let Some((mark, others)) = rest.split_first() {
        if let Some(id) = id_of(mark.what) {
            add_new(ids, id)?;
        }
        rest = others;
    }
    Ok(())
}

/// Reports whether the mark belongs to the row of the id, or without an id, to the row of the stages.
pub(crate) fn is_for(id: &Option<Id>, what: Shown) -> bool
    ensures { result ≡ is_for id.now what }
{
    *id == id_of(what)
}

/// Returns the marks of a row.
pub fn marks_for(
    alloc: Global,
    id: &Option<Id>,
    marks: &[TimelineMark],
) -> Result<Vec<TimelineMark>, AllocError>
    ensures { IfOk result (λ kept. kept.items ≡ marks_for id.now marks.now) }
{
    marks
        .iter()
        .copied()
        .filter(|mark| is_for(id, mark.what))
        .collect(alloc)
}

/// Returns a life after a mark of its id.
fn life_after(life: Life, mark: &TimelineMark) -> Life
    ensures { result ≡ life_after life mark.now.time mark.now.what }
{
    let mut life = life;
    match mark.what {
        Shown::Sent(_, SignalKind::Term) => life.term = life.term.or(Some(mark.time)),
        Shown::Ended(_, _, status) => {
            life.end = Some(Ending {
                status: Some(status),
                time: mark.time,
            });
        }
        _ => {}
    }
    life
}

/// Updates the last life for a mark of its id.
fn change_last(lives: &mut Vec<Life>, mark: &TimelineMark) -> Result<(), AllocError>
    ensures { OnOk result (lives.new.items
        ≡ last_after lives.old.items mark.now.time mark.now.what) }
{
    let Some(life) = lives.pop() else {
        return Ok(());
    };
    lives.push(life_after(life, mark))?;
    Ok(())
}

/// Updates the lives for a mark of their id: a birth begins a life, and anything else belongs to the last one.
fn take(lives: &mut Vec<Life>, mark: &TimelineMark) -> Result<(), AllocError>
    ensures { OnOk result (lives.new.items
        ≡ lives_after lives.old.items mark.now.time mark.now.what) }
{
    let Shown::Born(_, number) = mark.what else {
        return change_last(lives, mark);
    };
    lives.push(Life {
        number,
        from: mark.time,
        term: None,
        end: None,
    })?;
    Ok(())
}

/// Returns the lives of the children of an id, oldest first, given the marks of the id.
pub fn lives_of(alloc: Global, marks: &[TimelineMark]) -> Result<Vec<Life>, AllocError>
    ensures { IfOk result (λ lives. lives.items ≡ lives_of marks.now) }
{
    let mut lives = Vec::new(alloc);
    let mut rest = marks;
    while let Some((mark, others)) = rest.split_first() {
        take(&mut lives, mark)?;
        rest = others;
    }
    Ok(lives)
}
