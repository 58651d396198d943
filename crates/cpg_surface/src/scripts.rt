//! `cpg_console`: scripts read from one stream, and what they print written to another.

use cpg_console::{Fault, accept_script, cluster_script, judge_script, run_script};
use cpg_cred::Refusal;
use cpg_daemon::{Cluster, HistoryName, PassAll};
use cpg_world::World;
use std::alloc::Global;
use std::io::{Read, Write};
use std::sync::Wait;
use std::time::Clock;

/// Where a script is read from, and what it prints written to.
pub struct Streams<'a, R, W> {
    pub alloc: Global,
    pub reader: &'a mut R,
    pub writer: &'a mut W,
}

impl<R: Read, W: Write> Streams<'_, R, W> {
    pub fn judge(&mut self) -> Result<(), Fault> {
        judge_script(self.alloc, self.reader, self.writer)
    }

    pub fn accept(&mut self) -> Result<(), Fault> {
        accept_script(self.alloc, self.reader, self.writer)
    }

    pub fn run(&mut self, world: &mut World) -> Result<(), Fault> {
        run_script(self.alloc, self.reader, self.writer, world)
    }

    /// Runs a script of sessions.
    pub fn sessions<B, H>(&mut self, rt: &H, cluster: &Cluster<B, PassAll>) -> Result<(), Fault>
    where
        B: HistoryName,
        H: Wait + Clock,
    {
        cluster_script(rt, self.alloc, self.reader, self.writer, cluster)
    }
}

/// The part that a fault is of, and what it is.
pub fn parts(fault: &Fault) -> (Option<u32>, Refusal) {
    let Fault { part, refusal } = fault;
    (*part, *refusal)
}
