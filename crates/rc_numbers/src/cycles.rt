//! Finds a cycle of needs.

ghost use Rattle.std.specs.Prelude.{◌≡◌, ◌<◌, ◌≤◌, ◌++◌, ℕ, List, [], ◌∷◌, Some, None, is_some, if◌then◌else◌, length, get_or, set, drop, take, IfOk, OnOk, IfSome, IsPermutation};
ghost use Rattle.rc_numbers.specs.Numbering.{AllBelow, AreSteps, InRange, IsCycle, IsClosedWalk};
ghost use Rattle.rc_numbers.specs.Passes.{AreBlockers, IsStuck};

use init_words::Memory;
use std::alloc::Allocator;

/// Returns, for each place without a number, a place that it needs and that has no number either.
fn blockers<A: Allocator>(
    alloc: A,
    edges: &[(usize, usize)],
    numbers: &[usize],
) -> Result<Vec<usize, A>, Memory>
    requires { InRange (length numbers.now) edges.now }
    ensures size { IfOk result (λ found. length found.items ≡ length numbers.now) }
    ensures value { IfOk result (λ found. AreBlockers edges.now numbers.now found.items) }
{
    let mut found = vec![in alloc; 0; numbers.len()]?;
    for (position, need) in edges {
        if numbers[*need] == 0 {
            found[*position] = *need;
        }
    }
    Ok(found)
}

/// Returns the places of a path from this index on.
fn suffix<A: Allocator>(alloc: A, path: &[usize], start: usize) -> Result<Vec<usize, A>, Memory>
    requires { start ≤ length path.now }
    ensures { IfOk result (λ suffix. suffix.items ≡ drop start path.now) }
{
    Ok(Vec::from_slice(alloc, &path[start..])?)
}

/// Returns the places of a ring, beginning at this index.
fn rotated<A: Allocator>(alloc: A, ring: &[usize], start: usize) -> Result<Vec<usize, A>, Memory>
    requires { start ≤ length ring.now }
    ensures { IfOk result (λ rotated. rotated.items ≡ drop start ring.now ++ take start ring.now) }
{
    let mut rotated = suffix(alloc, ring, start)?;
    rotated.extend_from_slice(&ring[..start])?;
    Ok(rotated)
}

/// Walks from a place to a place that it needs, and so on, until it reaches a place for the second time. Returns the
/// ring that begins at this place.
fn ring<A: Allocator + Copy>(
    alloc: A,
    edges: &[(usize, usize)],
    numbers: &[usize],
    first: usize,
) -> Result<Vec<usize, A>, Memory>
    requires range { InRange (length numbers.now) edges.now }
    requires stuck { IsStuck (length numbers.now) edges.now numbers.now }
    requires first { first < length numbers.now }
    requires none { get_or numbers.now first 0 ≡ 0 }
    ensures ring { IfOk result (λ ring. IsClosedWalk edges.now ring.items) }
    ensures below { IfOk result (λ ring. AllBelow (length numbers.now) ring.items) }
{
    let next = blockers(alloc, edges, numbers)?;
    let mut marks = vec![in alloc; 0; numbers.len()]?;
    let mut path = Vec::new(alloc);
    let mut at = first;
    'steps: while marks[at] == 0 {
        path.push(at)?;
        marks[at] = path.len();
        at = next[at];
    }
    suffix(alloc, path.as_slice(), marks[at] - 1)
}

/// Returns the needs, sorted by the place that is needed.
fn by_need<A: Allocator>(
    alloc: A,
    edges: &[(usize, usize)],
) -> Result<Vec<(usize, usize), A>, Memory>
    ensures { IfOk result (λ needs. IsPermutation edges.now needs.items) }
{
    let mut needs = Vec::from_slice(alloc, edges)?;
    needs.sort_unstable_by_key(|need: &(usize, usize)| need.1);
    Ok(needs)
}

/// Records that a place needs another place, if the search meets it for the first time.
fn join_paths<A: Allocator>(
    steps: &mut [Option<usize>],
    met: &mut Vec<usize, A>,
    position: usize,
    need: usize,
) -> Result<(), Memory>
    requires { position < length steps.old }
    ensures size { length steps.new ≡ length steps.old }
    ensures steps { OnOk result (steps.new ≡
        (if is_some (get_or steps.old position None) then steps.old
        else set steps.old position (Some need))) }
    ensures met { OnOk result (met.new.items ≡
        (if is_some (get_or steps.old position None) then met.old.items
        else met.old.items ++ position ∷ [])) }
{
    if steps[position].is_none() {
        met.push(position)?;
        steps[position] = Some(need);
    }
    Ok(())
}

/// Visits each place that needs this one. The needs are sorted by the place that is needed.
fn meet_all<A: Allocator>(
    needs: &[(usize, usize)],
    steps: &mut [Option<usize>],
    met: &mut Vec<usize, A>,
    position: usize,
) -> Result<(), Memory>
    requires { InRange (length steps.old) needs.now }
    ensures size { length steps.new ≡ length steps.old }
    ensures steps { OnOk result (AreSteps needs.now steps.old → AreSteps needs.now steps.new) }
{
    let first = needs.partition_point(|need: &(usize, usize)| need.1 < position);
    for (other, need) in &needs[first..] {
        if *need != position {
            break;
        }
        join_paths(steps, met, *other, *need)?;
    }
    Ok(())
}

/// Returns, for the places that need this one directly or indirectly, the next place on a shortest path to it. The
/// search ends when it is back at this place.
fn steps_to<A: Allocator + Copy>(
    alloc: A,
    needs: &[(usize, usize)],
    count: usize,
    position: usize,
) -> Result<Vec<Option<usize>, A>, Memory>
    requires range { InRange count needs.now }
    requires position { position < count }
    ensures size { IfOk result (λ steps. length steps.items ≡ count) }
    ensures steps { IfOk result (λ steps. AreSteps needs.now steps.items) }
{
    let mut steps = vec![in alloc; None; count]?;
    let mut met = Vec::new(alloc);
    met.push(position)?;
    for turn in 0..count {
        if turn >= met.len() || steps[position].is_some() {
            break;
        }
        let next = met[turn];
        meet_all(needs, &mut steps, &mut met, next)?;
    }
    Ok(steps)
}

/// Returns the places from this one on along the steps, if they lead back to it.
fn ring_along<A: Allocator>(
    alloc: A,
    steps: &[Option<usize>],
    position: usize,
) -> Result<Option<Vec<usize, A>>, Memory>
    requires position { position < length steps.now }
    requires range { (a b : ℕ) → get_or steps.now a None ≡ Some b → b < length steps.now }
    ensures ring { IfOk result (λ found. IfSome found
        (λ ring. (edges : List (ℕ × ℕ)) → AreSteps edges steps.now
        → IsClosedWalk edges ring.items)) }
    ensures below { IfOk result (λ found.
        IfSome found (λ ring. AllBelow (length steps.now) ring.items)) }
{
    let mut ring = Vec::new(alloc);
    let mut at = position;
    'steps: for _ in 0..steps.len() {
        ring.push(at)?;
        match steps[at] {
            None => return Ok(None),
            Some(need) => {
                if need == position {
                    return Ok(Some(ring));
                }
                at = need;
            }
        }
    }
    Ok(None)
}

/// Returns a shortest ring through a place, if there is one.
fn ring_through<A: Allocator + Copy>(
    alloc: A,
    needs: &[(usize, usize)],
    count: usize,
    position: usize,
) -> Result<Option<Vec<usize, A>>, Memory>
    requires range { InRange count needs.now }
    requires position { position < count }
    ensures ring { IfOk result (λ found. IfSome found (λ ring. IsClosedWalk needs.now ring.items)) }
    ensures below { IfOk result (λ found. IfSome found (λ ring. AllBelow count ring.items)) }
{
    let steps = steps_to(alloc, needs, count, position)?;
    ring_along(alloc, steps.as_slice(), position)
}

/// Returns a shortest ring through the earliest place that is on one.
fn earliest_ring<A: Allocator + Copy>(
    alloc: A,
    edges: &[(usize, usize)],
    numbers: &[usize],
) -> Result<Option<Vec<usize, A>>, Memory>
    requires { InRange (length numbers.now) edges.now }
    ensures ring { IfOk result (λ found. IfSome found (λ ring. IsClosedWalk edges.now ring.items)) }
    ensures below { IfOk result (λ found.
        IfSome found (λ ring. AllBelow (length numbers.now) ring.items)) }
{
    let needs = by_need(alloc, edges)?;
    for position in 0..numbers.len() {
        if numbers[position] == 0 {
            if let Some(ring) = ring_through(alloc, needs.as_slice(), numbers.len(), position)? {
                return Ok(Some(ring));
            }
        }
    }
    Ok(None)
}

/// Returns a shortest ring through the earliest place that is on one, or, if none is found, the ring to which this
/// place leads.
fn named_cycle<A: Allocator + Copy>(
    alloc: A,
    edges: &[(usize, usize)],
    numbers: &[usize],
    first: usize,
) -> Result<Vec<usize, A>, Memory>
    requires range { InRange (length numbers.now) edges.now }
    requires stuck { IsStuck (length numbers.now) edges.now numbers.now }
    requires first { first < length numbers.now }
    requires none { get_or numbers.now first 0 ≡ 0 }
    ensures ring { IfOk result (λ ring. IsClosedWalk edges.now ring.items) }
    ensures below { IfOk result (λ ring. AllBelow (length numbers.now) ring.items) }
{
    match earliest_ring(alloc, edges, numbers)? {
        Some(found) => Ok(found),
        None => ring(alloc, edges, numbers, first),
    }
}

/// Returns the index of the least number.
fn least_at(places: &[usize]) -> usize
    requires { 0 < length places.now }
    ensures within { result < length places.now }
    ensures least { (k : ℕ) → k < length places.now
        → get_or places.now result 0 ≤ get_or places.now k 0 }
{
    let mut best = 0;
    for position in 0..places.len() {
        if places[position] < places[best] {
            best = position;
        }
    }
    best
}

/// Returns a cycle: a shortest ring through the earliest place that is on one.
pub(crate) fn cycle<A: Allocator + Copy>(
    alloc: A,
    edges: &[(usize, usize)],
    numbers: &[usize],
    first: usize,
) -> Result<Vec<usize, A>, Memory>
    requires range { InRange (length numbers.now) edges.now }
    requires stuck { IsStuck (length numbers.now) edges.now numbers.now }
    requires first { first < length numbers.now }
    requires none { get_or numbers.now first 0 ≡ 0 }
    ensures cycle { IfOk result (λ cycle. IsCycle edges.now cycle.items) }
    ensures below { IfOk result (λ cycle. AllBelow (length numbers.now) cycle.items) }
{
    let ring = named_cycle(alloc, edges, numbers, first)?;
    rotated(alloc, ring.as_slice(), least_at(ring.as_slice()))
}
