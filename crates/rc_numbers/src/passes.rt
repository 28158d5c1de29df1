//! Computes the least numbers that satisfy all needs, in passes.

ghost use Rattle.std.specs.Prelude.{◌≡◌, ◌+◌, ◌<◌, ◌≤◌, ℕ, true, false, if◌then◌else◌, ◌==◌, length, get_or, IfOk};
ghost use Rattle.rc_numbers.specs.Numbering.{InRange};
ghost use Rattle.rc_numbers.specs.Passes.{AreHeights, IsPartial, IsStuck, raised, settled};

use init_words::Memory;
use std::alloc::Allocator;

/// Returns a height after one more need with this number: 0, no height, if the needed place has no number.
fn raised(height: usize, number: usize) -> usize
    requires { number + 1 < 18446744073709551616 }
    ensures { result ≡ raised height number }
{
    if height == 0 || number == 0 {
        0
    } else {
        height.max(number + 1)
    }
}

/// Returns, for each place, one more than the greatest number that it needs, or 0 if a place that it needs has no
/// number.
fn heights<A: Allocator>(
    alloc: A,
    edges: &[(usize, usize)],
    numbers: &[usize],
) -> Result<Vec<usize, A>, Memory>
    requires range { InRange (length numbers.now) edges.now }
    requires small { (a : ℕ) → get_or numbers.now a 0 + 1 < 18446744073709551616 }
    ensures size { IfOk result (λ heights. length heights.items ≡ length numbers.now) }
    ensures value { IfOk result (λ heights. AreHeights edges.now numbers.now heights.items) }
{
    let mut heights = vec![in alloc; 1; numbers.len()]?;
    for (position, need) in edges {
        heights[*position] = raised(heights[*position], numbers[*need]);
    }
    Ok(heights)
}

/// Returns a number, or the height if there is no number.
fn settled_at(number: usize, height: usize) -> usize
    ensures { result ≡ (if number == 0 then height else number) }
{
    if number == 0 { height } else { number }
}

/// Returns the numbers, with the height for each place that had no number.
fn settled<A: Allocator>(
    alloc: A,
    numbers: &[usize],
    heights: &[usize],
) -> Result<Vec<usize, A>, Memory>
    requires { length heights.now ≡ length numbers.now }
    ensures { IfOk result (λ next. next.items ≡ settled numbers.now heights.now) }
{
    let mut next = Vec::new(alloc);
    for position in 0..numbers.len() {
        next.push(settled_at(numbers[position], heights[position]))?;
    }
    Ok(next)
}

/// Returns the least numbers of the places, and 0 for those that can't have one. Each pass numbers every place whose
/// needs all have numbers, until a pass numbers none.
pub(crate) fn numbers<A: Allocator + Copy>(
    alloc: A,
    count: usize,
    edges: &[(usize, usize)],
) -> Result<Vec<usize, A>, Memory>
    requires { InRange count edges.now }
    ensures partial { IfOk result (λ numbers. IsPartial count edges.now numbers.items) }
    ensures stuck { IfOk result (λ numbers. IsStuck count edges.now numbers.items) }
{
    let mut numbers = vec![in alloc; 0; count]?;
    'passes: while numbers.contains(&0) {
        let heights = heights(alloc, edges, numbers.as_slice())?;
        let next = settled(alloc, numbers.as_slice(), heights.as_slice())?;
        if next.as_slice() == numbers.as_slice() {
            return Ok(numbers);
        }
        numbers = next;
    }
    Ok(numbers)
}
