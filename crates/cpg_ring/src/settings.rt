//! The settings of a ring and its limits, by this project's own rules.

/// How many entries take places at one visit of the token at most.
pub const BURST: usize = 8;

/// How far past the delivered places a node holds places and gives them out.
pub const WINDOW: u32 = 64;

/// How many calls wait at a node at most.
pub const MOST_WAITING: usize = 256;

/// What all nodes of a ring agree on.
#[derive(Debug, Clone, Copy, PartialEq, Eq)]
pub struct Settings {
    /// The ring's number, which each of its frames carries.
    pub ring: u32,
    /// How many nodes there are, 1 to 8.
    pub nodes: u8,
    /// How many places there are, 1 to 1,048,576.
    pub places: u32,
    /// How many hops the token makes, 1 to 2^62.
    pub hops: u64,
}
