//! All nodes, and every frame that was ever sent.

ghost use Rattle.std.specs.Prelude.{◌≡◌, ◌≢◌, ◌↔◌, ◌≤◌, [], ◌∷◌, ◌++◌, length, take, All, IsTrue, None, Some, Ok, Err, OnOk, OnErr, IfOk, IfSome, MatchOption};
ghost use Rattle.cpg_wire.specs.Reading.{frame_of};
ghost use Rattle.cpg_ring.specs.Worlds.{item};
ghost use Rattle.cpg_world_laws.specs.Worlds.{node_in};
ghost use Rattle.cpg_world_laws.specs.Claims.{IsTrueWorld, IsTrueRun};
ghost use Rattle.cpg_world.specs.Kept.{IsAnswered};
ghost use Rattle.cpg_world.specs.Runs.{IsWorldMade, IsStep, HaveRun, IsSpelledBy};

use crate::making::{first_frames, new_nodes};
use crate::meeting::meet;
use crate::runs::{Replies, Run};
use bytes::Bytes;
use cpg_cred::{AcceptList, NodeId, Refusal, is_memory};
use cpg_node::{Node, Settings};
use cpg_ring::are_settings;
use cpg_wire::reads_what_is_spelled;
use cpg_world_laws::{Reply, WorldEvent, every_run};
use std::alloc::Global;
use std::marker::Model;

/// All nodes of a ring, and every frame that was ever sent. Contracts see its settings, its list, its nodes
/// and the frames; every world is one that some list of events leads to from a new one.
#[derive(Debug, Drop)]
pub struct World {
    alloc: Global,
    settings: Settings,
    list: AcceptList,
    nodes: Vec<Node>,
    sent: Vec<Bytes>,
}

impl Model for World {
    ghost use Rattle.cpg_world_laws.specs.Worlds.{WorldValue};
    ghost use Rattle.cpg_ring.specs.Kept.{held_code};
    ghost use Rattle.std.specs.Coded.{codes};
    ghost use Rattle.cpg_world.specs.Kept.{frames_of, IsWorldKept};

    ghost Value = { WorldValue };

    ghost coded = { Prim.hlevel (codes, held_code) };

    ghost view = { λ a. record { settings = a.settings; list = a.list; nodes = a.nodes.items; sent = frames_of a.sent.items } };

    ghost invariant = { λ a. IsWorldKept (record { settings = a.settings; list = a.list; nodes = a.nodes.items; sent = frames_of a.sent.items }) a.sent.items };
}

impl World {
    /// A new world: new nodes with that list, and the first token is sent. Refused with Range where a
    /// setting is out of its range.
    pub fn new(alloc: Global, settings: Settings, list: &AcceptList) -> Result<World, Refusal>
        ensures made { IsWorldMade settings list.now result }
        ensures world { IfOk result (λ world. IsTrueWorld world) }
    {
        every_run();
        if !are_settings(&settings) {
            return Err(Refusal::Range);
        }
        reads_what_is_spelled();
        let list = list.copy(alloc)?;
        let nodes = new_nodes(alloc, settings, &list)?;
        let sent = first_frames(alloc, settings)?;
        Ok(World {
            alloc,
            settings,
            list,
            nodes,
            sent,
        })
    }

    /// One event at its node, with its reply. A refusal for want of memory leaves the world as it was.
    ///
    /// The event's node is one of the world's.
    #[inline(always)]
    pub fn step(&mut self, event: WorldEvent) -> Result<Reply, Refusal>
        requires { node_in event ≤ length self.old.nodes }
        ensures step { IsStep self.old event result self.new }
        ensures world { IsTrueWorld self.new }
    {
        every_run();
        let id = event.node();
        let node = &mut self.nodes[id.get() as usize - 1];
        meet(node, &mut self.sent, event)
    }

    /// The events one after the other, as far as memory goes. An event has room for its reply before it
    /// begins; the one that meets Memory changes nothing.
    ///
    /// Each event's node is one of the world's.
    pub fn run(&mut self, events: &[WorldEvent]) -> Run
        requires { All (λ e. node_in e ≤ length self.old.nodes) events.now }
        ensures ran { HaveRun self.old events.now result.replies self.new }
        ensures done { result.done ≡ length result.replies }
        ensures claims { IsTrueRun self.old (take result.done events.now) result.replies }
        ensures world { IsTrueWorld self.new }
    {
        every_run();
        let mut replies = Vec::new(self.alloc);
        let _ended = self.run_into(events, &mut replies);
        Run {
            done: replies.len(),
            replies: Replies::from_vec(replies),
        }
    }

    /// The events one after the other, with their replies, until one meets Memory.
    fn run_into(
        &mut self,
        events: &[WorldEvent],
        replies: &mut Vec<Result<Reply, Refusal>>,
    ) -> Result<(), Refusal>
        requires nodes { All (λ e. node_in e ≤ length self.old.nodes) events.now }
        requires none { replies.old.items ≡ [] }
        ensures { HaveRun self.old events.now replies.new.items self.new }
    {
        for event in events {
            self.step_into(event, replies)?;
        }
        Ok(())
    }

    /// One event, with its reply after the others; or both are as they were.
    fn step_into(
        &mut self,
        event: &WorldEvent,
        replies: &mut Vec<Result<Reply, Refusal>>,
    ) -> Result<(), Refusal>
        requires { node_in event.now ≤ length self.old.nodes }
        ensures ok { OnOk result (IsAnswered self.old event.now replies.old.items replies.new.items self.new) }
        ensures err { OnErr result ((self.new ≡ self.old) × (replies.new.items ≡ replies.old.items)) }
    {
        replies.reserve(1)?;
        let reply = self.step(event.copy(self.alloc)?);
        if is_memory(&reply) {
            return Err(Refusal::Memory);
        }
        replies.push_reserved(reply);
        Ok(())
    }

    /// How many nodes there are, 1 to 8.
    pub fn nodes(&self) -> u8
        ensures count { result ≡ length self.now.nodes }
        ensures settings { result ≡ self.now.settings.nodes }
    {
        self.settings.nodes
    }

    /// Whether each event's node is one of the world's.
    pub fn has_nodes_of(&self, events: &[WorldEvent]) -> bool
        ensures { IsTrue result ↔ All (λ e. node_in e ≤ length self.now.nodes) events.now }
    {
        let nodes = self.nodes.len();
        events
            .iter()
            .all(|event| event.node().get() as usize <= nodes)
    }

    /// The node of that number, which is one of the world's.
    pub fn node(&self, id: NodeId) -> &Node
        requires { id ≤ length self.now.nodes }
        ensures { item self.now.nodes id ≡ Some result.now }
    {
        &self.nodes[id.get() as usize - 1]
    }

    /// How many frames were sent. In every world the claims of `IsTrueWorld` hold.
    pub fn sent(&self) -> usize
        ensures count { result ≡ length self.now.sent }
        ensures claims { IsTrueWorld self.now }
    {
        every_run();
        self.sent.len()
    }

    /// The bytes of the frame of that number, counted from 1, if so many were sent: its spelling of
    /// version 2.
    pub fn sent_frame(&self, number: usize) -> Option<&Bytes>
        ensures spelled { MatchOption result (item self.now.sent number ≡ None) (λ bytes. IsSpelledBy (item self.now.sent number) bytes.now) }
        ensures frame { IfSome result (λ bytes. frame_of bytes.now ≡ item self.now.sent number) }
    {
        reads_what_is_spelled();
        if number == 0 || number > self.sent.len() {
            return None;
        }
        Some(&self.sent[number - 1])
    }
}
