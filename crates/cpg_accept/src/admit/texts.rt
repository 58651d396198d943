//! The files that whom a node lets in is read from.

use cpg_cred::Refusal;

/// A file that was read.
#[derive(Debug, Clone, Copy)]
pub struct NamedText<'a> {
    pub path: &'a str,
    pub text: &'a [u8],
}

/// One of the files.
#[derive(Debug, Clone, Copy, PartialEq, Eq)]
pub enum File {
    /// The conf file of that index, from 0.
    Conf(usize),
    /// The names text.
    Names,
    /// The accounts of users, as in passwd(5).
    Passwd,
    /// The accounts of groups, as in group(5).
    Group,
}

/// Where it is told which numbers the names of users and groups have.
#[derive(Debug, Clone, Copy)]
pub enum NamesFrom<'a> {
    /// Nowhere: the conf file has numbers alone.
    Nowhere,
    /// In a names text.
    Text(&'a [u8]),
    /// In the accounts of users and those of groups.
    Accounts(&'a [u8], &'a [u8]),
}

/// Why a file is not read: a fault with its line, or `Memory`.
#[derive(Debug, Clone, Copy)]
pub struct AdmitFault {
    pub file: File,
    pub refusal: Refusal,
}
