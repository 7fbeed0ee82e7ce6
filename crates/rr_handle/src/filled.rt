//! Bytes for buffers of the caller.

ghost use Rattle.std.specs.Prelude.{◌≡◌, ◌<◌, length, take, IfOk, OnErr};
ghost use Rattle.rr_handle.specs.Seen.{Begins};

use rr_types::Refusal;

/// Copies as much as both hold, from the front on.
pub fn fill(out: &mut [u8], bytes: &[u8])
    ensures bytes { Begins bytes.now out.new }
    ensures len { length out.new ≡ length out.old }
{
    let len = out.len().min(bytes.len());
    out[..len].copy_from_slice(&bytes[..len]);
}

/// Copies all bytes to the front of a buffer. Their number.
///
/// # Errors
/// `TooLarge` where the buffer has less room: it stays as it is.
pub fn put(out: &mut [u8], bytes: &[u8]) -> Result<usize, Refusal>
    ensures ok { IfOk result (λ len. (len ≡ length bytes.now) × (take len out.new ≡ bytes.now)) }
    ensures err { OnErr result (out.new ≡ out.old) }
    ensures short { OnErr result (length out.old < length bytes.now) }
{
    let len = bytes.len();
    if len > out.len() {
        return Err(Refusal::TooLarge);
    }
    out[..len].copy_from_slice(bytes);
    Ok(len)
}
