//! What a host says to a node, and is asked for next.

use rr_host::Host;
use rr_types::Refusal;

/// Tells a node that is up that the write that was due is made and synced. What that made safe is marked, and the next flush begins. It says how many
/// bytes the host is to write next.
pub fn written(host: &mut Host) -> Result<usize, Refusal> {
    host.done(true)?;
    host.mark()?;
    host.flush()?;
    match host.due() {
        None => Ok(0),
        Some(write) => Ok(write.bytes().len()),
    }
}
