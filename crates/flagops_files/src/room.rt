//! Memory for what is made of a text, made ready in large steps.

use std::alloc::Global;

/// The bytes of a block, just below the size of those that the C library maps apart.
const BLOCK: usize = 127 * 1024;

/// The most blocks, some 48 MB: the heap of a thread has 64.
const MOST_BLOCKS: usize = 384;

/// How many bytes of memory a byte of a text comes to, as a tree or expressions.
const FACTOR: usize = 8;

/// Has the C library make ready the memory that this thread will need for what is made of a text of so many bytes. The heap of
/// a thread grows by the page, with a call of the system for each; once it has grown, it is only lent again. Nothing else
/// changes, and where memory is refused it grows later.
pub fn make_room_for(alloc: Global, text_bytes: usize) {
    let mut blocks: Vec<Vec<u8>> = Vec::new(alloc);
    let count = text_bytes.saturating_mul(FACTOR) / BLOCK;
    for _ in 0..count.min(MOST_BLOCKS) {
        match Vec::with_capacity(alloc, BLOCK) {
            Ok(block) => {
                if blocks.push(block).is_err() {
                    return;
                }
            }
            Err(_) => return,
        }
    }
}
