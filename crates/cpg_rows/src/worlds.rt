//! `%world RING NODES PLACES HOPS WORD ..`: a world, by the commands of `step`; `run` runs the block as one list.

use crate::events::event_of;
use crate::player::{Plays, Row};
use crate::printing::{put_debug, put_reply};
use crate::states::put_audits_of;
use crate::tables::put_rules_of;
use crate::words::{
    NO_COMMAND, accept_list, first, index, node, one, put_hex, put_number_line, settings,
};
use cpg_cred::Refusal;
use cpg_node::Node;
use cpg_step::{put_answer, put_frame};
use cpg_text::{Lines, is_ignored};
use cpg_wire::decode;
use cpg_world::{Reply, World, WorldEvent};
use std::alloc::Global;

#[derive(Drop)]
pub struct Worldly {
    world: World,
}

/// Puts what a command sees of the node.
fn put_look(line: &mut Vec<u8>, node: &Node, row: &Row<'_>, rest: &[u8]) -> Result<(), Refusal> {
    if row.is("audit") {
        return put_audits_of(line, node.audit(), rest);
    }
    if row.is("rules") {
        return put_rules_of(line, node.table(one(rest)?));
    }
    put_number_line(line, "safe", u64::from(node.safe()))
}

/// Puts the line of the frame that the bytes spell.
fn put_spelled(alloc: Global, line: &mut Vec<u8>, bytes: &[u8]) -> Result<(), Refusal> {
    let frame = decode(alloc, bytes)?;
    let put = put_frame(line, &frame);
    drop(frame);
    put
}

impl Worldly {
    pub fn new(alloc: Global, text: &[u8]) -> Result<Worldly, Refusal> {
        let (settings, words) = settings(text)?;
        let list = accept_list(alloc, words)?;
        let made = World::new(alloc, settings, &list);
        drop(list);
        Ok(Worldly { world: made? })
    }

    fn step(&mut self, event: WorldEvent) -> Result<Reply, Refusal> {
        if event.node().get() > self.world.nodes() {
            return Err(NO_COMMAND);
        }
        self.world.step(event)
    }

    fn step_said(&mut self, alloc: Global, line: &mut Vec<u8>, text: &[u8]) -> Result<(), Refusal> {
        let event = event_of(alloc, self.world.nodes(), text)?;
        put_reply(alloc, line, self.step(event)?)
    }

    /// The commands that look at a node.
    fn look(&self, line: &mut Vec<u8>, row: &Row<'_>) -> Result<(), Refusal> {
        let (at, rest) = first(row.rest)?;
        let id = node(at)?;
        if id.get() > self.world.nodes() {
            return Err(NO_COMMAND);
        }
        put_look(line, self.world.node(id), row, rest)
    }

    /// `show K` and `bytes K`.
    fn show(&self, alloc: Global, line: &mut Vec<u8>, row: &Row<'_>) -> Result<(), Refusal> {
        match self.world.sent_frame(index(one(row.rest)?)?) {
            Some(bytes) if row.is("bytes") => put_hex(line, bytes.as_slice()),
            Some(bytes) => put_spelled(alloc, line, bytes.as_slice()),
            None => Err(Refusal::NoFrame),
        }
    }

    /// Runs the events from that one on, and puts their replies. Gives how many were done.
    fn run_rest(
        &mut self,
        alloc: Global,
        line: &mut Vec<u8>,
        rest: &[WorldEvent],
    ) -> Result<usize, Refusal> {
        if !self.world.has_nodes_of(rest) {
            return Err(NO_COMMAND);
        }
        let run = self.world.run(rest);
        for reply in run.replies.as_slice() {
            put_answer(alloc, line, reply)?;
        }
        Ok(run.done)
    }

    /// Runs the list; and where it met Memory, the rest of it, so that the replies are those of the whole.
    fn run_all(
        &mut self,
        alloc: Global,
        line: &mut Vec<u8>,
        events: &[WorldEvent],
        tries: u32,
    ) -> Result<(), Refusal> {
        let mut done = 0usize;
        for _ in 0..tries {
            let rest = events.get(done..).unwrap_or(&[]);
            done = done.saturating_add(self.run_rest(alloc, line, rest)?);
        }
        put_number_line(line, "done", done as u64)
    }

    fn run_in(
        &mut self,
        alloc: Global,
        line: &mut Vec<u8>,
        row: &Row<'_>,
        events: &mut Vec<WorldEvent>,
    ) -> Result<(), Refusal> {
        for text in Lines::of(row.block) {
            if !is_ignored(text) {
                events.push(event_of(alloc, self.world.nodes(), text)?)?;
            }
        }
        self.run_all(alloc, line, events.as_slice(), row.tries)
    }

    fn run(&mut self, alloc: Global, line: &mut Vec<u8>, row: &Row<'_>) -> Result<(), Refusal> {
        let mut events = Vec::new(alloc);
        let ran = self.run_in(alloc, line, row, &mut events);
        drop(events);
        ran
    }
}

impl Plays for Worldly {
    fn make(&mut self, alloc: Global, line: &mut Vec<u8>, row: &Row<'_>) -> Result<(), Refusal> {
        if row.is("run") {
            return self.run(alloc, line, row);
        }
        if row.is("show") || row.is("bytes") {
            return self.show(alloc, line, row);
        }
        if row.is("audit") || row.is("rules") || row.is("safe") {
            return self.look(line, row);
        }
        self.step_said(alloc, line, row.text)
    }

    fn put_state(&self, alloc: Global, text: &mut Vec<u8>) -> Result<(), Refusal> {
        put_debug(alloc, text, &self.world)
    }
}
