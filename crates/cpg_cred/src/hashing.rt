//! A quick hash of names.
//!
//! Proved: each write does what `fed_first` says. Look-ups are right whatever a hash is.

ghost use Rattle.std.specs.Prelude.{◌≡◌};

use std::hash::Hasher;

/// Hashes names, by one multiplication a byte (our own; the form is that of Fowler, Noll and Vo's hash). A name is
/// written byte by byte, after its length, so that of each write the first byte is taken alone. Whoever picks the names
/// can make them collide.
#[derive(Debug, Clone, Copy)]
pub struct NameHasher {
    state: u64,
}

impl Default for NameHasher {
    ghost is_default = { λ hasher. hasher ≡ record { state = 0 } };

    fn default() -> NameHasher {
        NameHasher { state: 0 }
    }
}

impl Hasher for NameHasher {
    ghost use Rattle.cpg_cred.specs.Hashes.{fed_first};

    ghost write = { λ hasher bytes. record { state = fed_first hasher.state bytes } };

    ghost finish = { λ hasher. hasher.state };

    #[inline(always)]
    fn finish(&self) -> u64 {
        self.state
    }

    #[inline(always)]
    fn write(&mut self, bytes: &[u8]) {
        match bytes {
            [] => {}
            [byte, ..] => self.write_u8(*byte),
        }
    }

    #[inline(always)]
    fn write_u8(&mut self, byte: u8) {
        self.state = (self.state ^ u64::from(byte)).wrapping_mul(11400714819323198485);
    }
}
