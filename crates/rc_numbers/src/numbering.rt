//! The least numbers of places, or a cycle.

ghost use Rattle.std.specs.Prelude.{◌≡◌, ◌<◌, ℕ, IfOk, IfErr, IfSome, IfNone, length, get_or};
ghost use Rattle.rc_numbers.specs.Numbering.{AllBelow, HasNoNumbering, InRange, IsCycle, IsLeast};

use crate::cycles::cycle;
use crate::passes::numbers;
use init_words::Memory;
use std::alloc::Allocator;

/// Returns the first place without a number.
fn first_without(numbers: &[usize]) -> Option<usize>
    ensures some { IfSome result (λ position.
        (position < length numbers.now) × (get_or numbers.now position 0 ≡ 0)) }
    ensures all { IfNone result
        ((position : ℕ) → position < length numbers.now → 0 < get_or numbers.now position 0) }
{
    for position in 0..numbers.len() {
        if numbers[position] == 0 {
            return Some(position);
        }
    }
    None
}

/// Returns the least numbers of the places below `count`, each 1 or more. If there is no numbering, returns a cycle
/// that begins with its earliest place. In each pair of `edges` the first place needs the second.
pub fn ordered<A: Allocator + Copy>(
    alloc: A,
    count: usize,
    edges: &[(usize, usize)],
) -> Result<Result<Vec<usize, A>, Vec<usize, A>>, Memory>
    requires { InRange count edges.now }
    ensures size { IfOk result (λ order. IfOk order (λ numbers. length numbers.items ≡ count)) }
    ensures least { IfOk result (λ order. IfOk order (λ ns. IsLeast count edges.now ns.items)) }
    ensures cycle { IfOk result (λ order. IfErr order (λ cycle. IsCycle edges.now cycle.items)) }
    ensures none { IfOk result (λ order. IfErr order (λ _. HasNoNumbering edges.now)) }
    ensures below { IfOk result (λ order. IfErr order (λ cycle. AllBelow count cycle.items)) }
{
    let numbers = numbers(alloc, count, edges)?;
    match first_without(numbers.as_slice()) {
        None => Ok(Ok(numbers)),
        Some(first) => Ok(Err(cycle(alloc, edges, numbers.as_slice(), first)?)),
    }
}
