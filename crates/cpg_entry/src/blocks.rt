//! How long blocks are.

/// How many entries a block has.
pub const BLOCK: usize = 256;

/// How many bytes the messages of a block have at most where it is shared: 64 an entry.
pub const LIGHT_BYTES: usize = 16384;
