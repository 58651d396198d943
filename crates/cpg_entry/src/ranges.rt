//! The greatest values that entries, packets and tokens may have, by this project's own rule.

ghost use Rattle.std.specs.Prelude.{◌≡◌, ◌^◌};

use crate::blocks::{BLOCK, LIGHT_BYTES};
use crate::messages::MOST_MESSAGE_BYTES;
use crate::names::MOST_NAME_BYTES;

/// The last place that a ring may have, and so how many entries are agreed on at most.
pub const MOST_PLACES: u32 = 1_048_576;

/// The last hop that a ring may have, 2 to the power of 62.
pub const MOST_HOPS: u64 = 4_611_686_018_427_387_904;

/// How many places a token asks for at most.
pub const MOST_REQUESTS: usize = 32;

/// How many connections a node numbers at most, from 1.
pub const MOST_CONNECTIONS: u16 = 65_535;

/// The limits of this crate, as numbers.
pub fn limits()
    ensures names { MOST_NAME_BYTES ≡ 128 }
    ensures messages { MOST_MESSAGE_BYTES ≡ 8192 }
    ensures places { MOST_PLACES ≡ 1048576 }
    ensures hops { MOST_HOPS ≡ 2 ^ 62 }
    ensures requests { MOST_REQUESTS ≡ 32 }
    ensures connections { MOST_CONNECTIONS ≡ 65535 }
    ensures block { BLOCK ≡ 256 }
    ensures light { LIGHT_BYTES ≡ 16384 }
{}
