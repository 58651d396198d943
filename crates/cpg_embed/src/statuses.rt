//! The numbers that calls answer.

ghost use Rattle.std.specs.Prelude.{◌≡◌, ◌++◌, IsTrue, length, drop, nat_le, false};
ghost use Rattle.cpg_embed.specs.Statuses.{IsHanded};

/// The call was done.
pub const OK: u32 = 0;

/// There is no node: it was not opened, or it was closed.
pub const CLOSED: u32 = 64;

/// What is to be handed over is longer than the buffer. It is kept.
pub const SPACE: u32 = 65;

/// Frames wait to be handed over first, or the node is open already.
pub const BUSY: u32 = 66;

/// There is nothing to be handed over.
pub const NONE: u32 = 67;

/// The numbers that are no refusal's, as numbers.
pub fn limits()
    ensures { (OK ≡ 0) × (CLOSED ≡ 64) × (SPACE ≡ 65) × (BUSY ≡ 66) × (NONE ≡ 67) }
{}

/// Hands the bytes over, into the buffer's front, where they fit.
pub(crate) fn hand(bytes: &[u8], buffer: &mut [u8]) -> u32
    ensures { IsHanded bytes.now buffer.old result buffer.new }
{
    if put(bytes, buffer) { OK } else { SPACE }
}

/// Copies the bytes to the buffer's front, where they fit.
fn put(bytes: &[u8], buffer: &mut [u8]) -> bool
    ensures fits { result ≡ nat_le (length bytes.now) (length buffer.old) }
    ensures put { IsTrue result → buffer.new ≡ bytes.now ++ drop (length bytes.now) buffer.old }
    ensures same { result ≡ false → buffer.new ≡ buffer.old }
{
    let count = bytes.len();
    if buffer.len() < count {
        return false;
    }
    buffer[..count].copy_from_slice(bytes);
    true
}
