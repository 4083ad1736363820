//! Room for what is read at once.

ghost use Rattle.std.specs.Prelude.{◌<◌, length};

use crate::tuning::HEAP_CHUNK;
use std::alloc::Global;

/// Makes room of `HEAP_CHUNK` bytes on the heap, which leaves the stack to the search; empty where memory is refused.
pub fn long_buffer(alloc: Global) -> Vec<u8> {
    match vec![in alloc; 0; HEAP_CHUNK] {
        Ok(buffer) => buffer,
        Err(_) => Vec::new(alloc),
    }
}

/// The long buffer, or the short one where the long one is empty.
pub fn longer<'b>(long: &'b mut [u8], short: &'b mut [u8]) -> &'b mut [u8]
    requires { 0 < length short.old }
    ensures { 0 < length result.now }
{
    if long.is_empty() { short } else { long }
}
