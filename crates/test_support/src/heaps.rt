//! Heaps that are full except for some bytes.

use linked_list_allocator::LocalHeap;
use std::alloc::Global;

const SIZES: &[usize] = &[4096, 256, 64, 16];

/// Allocates what a heap has left except the given number of bytes, in blocks of decreasing sizes, up to 64 of each.
pub fn fill<'a>(
    global: Global,
    heap: &'a LocalHeap,
    room: usize,
) -> Option<Vec<Vec<u8, &'a LocalHeap>>> {
    let _kept = Vec::<u8, &LocalHeap>::with_capacity(heap, room).ok()?;
    let mut fillers = Vec::new(global);
    for size in SIZES {
        for _ in 0..64 {
            let Ok(filler) = Vec::with_capacity(heap, *size) else {
                break;
            };
            fillers.push(filler).ok()?;
        }
    }
    Some(fillers)
}
