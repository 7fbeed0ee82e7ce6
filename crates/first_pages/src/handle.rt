//! What the node of a handle asks of its caller next.

use rr_handle::RrNode;
use rr_types::Refusal;
use std::alloc::Global;

/// Marks what is synced, and begins the next flush. It says how many bytes the caller is to write next.
pub fn next_write(alloc: Global, node: &mut RrNode) -> Result<usize, Refusal> {
    match node.due(alloc, 4096)? {
        None => Ok(0),
        Some((write, _bytes)) => Ok(write.len),
    }
}
