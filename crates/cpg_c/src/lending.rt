//! Bytes that are lent to C.

ghost use Rattle.std.specs.Prelude.{◌≡◌, length};
ghost use Rattle.cpg_embed.specs.declared.statuses.TheConstants.{OK as DONE};

use cpg_embed::OK;
use std::ptr::{from_ref, null};

/// Tells where the bytes stand, null where there are none, and how many there are. That C reads no others, and these only
/// while they are lent, is trusted.
pub(crate) fn lend(bytes: &[u8], at: &mut *const u8, len: &mut usize) -> u32
    ensures status { result ≡ DONE }
    ensures len { len.new ≡ length bytes.now }
{
    *at = match bytes.first() {
        Some(first) => from_ref(first),
        None => null(),
    };
    *len = bytes.len();
    OK
}
