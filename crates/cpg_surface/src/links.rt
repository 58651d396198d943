//! `cpg_daemon`: links between threads.

ghost use Rattle.cpg_link.specs.Links.{AreEnds};

use bytes::Bytes;
use cpg_cred::{Refusal, Refused};
use cpg_daemon::{LinkRx, LinkTx, close, link};
use std::alloc::Global;
use std::sync::Wait;

/// The two ends of a link of frames.
pub type Link = (LinkTx, LinkRx);

pub fn new_link(alloc: Global, capacity: usize) -> Result<Link, Refusal> {
    link(alloc, capacity)
}

pub fn put<R: Wait>(rt: &R, sender: &mut LinkTx, frame: Bytes) -> Result<(), Bytes> {
    sender.put(rt, frame)
}

pub fn take<R: Wait>(rt: &R, receiver: &mut LinkRx) -> Option<Bytes> {
    receiver.take(rt)
}

pub fn left<R: Wait>(
    rt: &R,
    alloc: Global,
    sender: LinkTx,
    receiver: LinkRx,
) -> Result<Vec<Bytes>, Refused<Link>>
    requires { AreEnds sender receiver }
{
    close(rt, alloc, sender, receiver)
}
