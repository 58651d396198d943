//! `cpg_conf`: texts of names, and of who is let in.

use cpg_conf::{ConfFault, Names, read_conf};
use cpg_cred::{AcceptList, Refused};
use std::alloc::Global;

pub fn read_names(alloc: Global, text: &[u8]) -> Result<Names, ConfFault> {
    Names::read(alloc, text)
}

pub fn read(
    alloc: Global,
    text: &[u8],
    names: &Names,
    list: AcceptList,
) -> Result<AcceptList, Refused<AcceptList>> {
    read_conf(alloc, text, names, list)
}
