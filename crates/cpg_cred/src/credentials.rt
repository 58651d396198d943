//! Credentials, as handed in with a connection.

/// A user and a group, by their numbers, as handed in with a connection.
#[derive(Debug, Clone, Copy, PartialEq, Eq, Hash)]
pub struct Cred {
    /// The number of the user; 0 is root.
    pub uid: u32,
    /// The number of the group.
    pub gid: u32,
}
