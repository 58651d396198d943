//! `%nodes RING NODES PLACES HOPS WORD ..`: nodes by hand, and each frame that one of them sent; the first is the first
//! token. `%stations BOARD RING ..`: stations of one board of so many places. `%twins BOARD RING ..`: two stations of
//! node 1. Their commands are those of `step`.

use crate::codec::put_decoded;
use crate::events::event_of;
use crate::looks::put_server;
use crate::nodes::{Server, Shared};
use crate::player::{Plays, Row, given_back};
use crate::printing::put_reply;
use crate::spelling::put_spelled;
use crate::states::put_audits_of;
use crate::tables::put_rules_of;
use crate::words::{
    NO_COMMAND, first, index, is_word, node_of, one, put_hex, put_number_line, settings,
};
use bytes::Bytes;
use cpg_cred::{NodeId, Refusal, Refused, is_memory};
use cpg_entry::Call;
use cpg_node::Settings;
use cpg_station::BoardName;
use cpg_text::put;
use cpg_world::{Reply, WorldEvent};
use std::alloc::Global;

/// How many frames one call sends at most.
const MOST_SENT: usize = 64;

/// What a part has.
#[derive(Clone, Copy, PartialEq, Eq)]
pub enum Kind {
    Nodes,
    Stations,
    Twins,
}

/// Those that serve, and the frames that they sent.
#[derive(Drop)]
pub struct Crew<B: BoardName> {
    shared: Shared<B>,
    nodes: u8,
    servers: Vec<Server<B>>,
    sent: Vec<Bytes>,
}

/// What is answered to a call, which comes back as it was.
fn submitted(answer: Result<(), Refused<Call>>, handed: &Call) -> Result<Reply, Refusal> {
    given_back(answer, |back| back.equals(handed))?;
    Ok(Reply::Admitted)
}

/// The server of that node.
fn server_of<B: BoardName>(
    servers: &mut Vec<Server<B>>,
    node: NodeId,
) -> Result<&mut Server<B>, Refusal> {
    servers
        .get_mut(usize::from(node.get()).saturating_sub(1))
        .ok_or(NO_COMMAND)
}

/// The frame of that number.
fn sent_at(sent: &[Bytes], number: usize) -> Result<&[u8], Refusal> {
    match sent.get(number.wrapping_sub(1)) {
        Some(bytes) => Ok(bytes.as_slice()),
        None => Err(Refusal::NoFrame),
    }
}

/// Puts the frames among those sent, for which there is room. Gives how many.
fn send(sent: &mut Vec<Bytes>, frames: Vec<Bytes>) -> usize {
    let count = frames.len();
    for frame in frames {
        let _ = sent.push(frame);
    }
    count
}

impl<B: BoardName> Crew<B> {
    /// A crew without servers, which has that board.
    pub fn new(alloc: Global, shared: Shared<B>) -> Crew<B> {
        Crew {
            shared,
            nodes: 0,
            servers: Vec::new(alloc),
            sent: Vec::new(alloc),
        }
    }

    /// Takes in the servers of that kind, and sends the first token.
    pub fn fill(&mut self, alloc: Global, kind: Kind, text: &[u8]) -> Result<(), Refusal> {
        let (settings, words) = settings(text)?;
        let count = match kind {
            Kind::Twins => 2,
            _ => settings.nodes.clamp(1, 8),
        };
        for number in 1..=count {
            self.add(alloc, kind, &settings, number, words)?;
        }
        self.nodes = count;
        self.send_first()
    }

    fn add(
        &mut self,
        alloc: Global,
        kind: Kind,
        settings: &Settings,
        number: u8,
        words: &[u8],
    ) -> Result<(), Refusal> {
        let number = if kind == Kind::Twins { 1 } else { number };
        let is_alone = kind == Kind::Nodes;
        let server = self
            .shared
            .new_server(alloc, settings, number, words, is_alone)?;
        Ok(self.servers.push(server)?)
    }

    /// Sends what the last server has to send at first.
    fn send_first(&mut self) -> Result<(), Refusal> {
        let Some(last) = self.servers.last_mut() else {
            return Err(NO_COMMAND);
        };
        match last.timer()? {
            Some(first) => Ok(self.sent.push(first)?),
            None => Ok(()),
        }
    }

    fn submit(
        &mut self,
        alloc: Global,
        node: NodeId,
        conn: u16,
        handed: &Call,
    ) -> Result<Reply, Refusal> {
        let server = server_of(&mut self.servers, node)?;
        let call = handed.copy(alloc)?;
        submitted(server.submit(conn, call), handed)
    }

    /// The node hears those bytes. Gives how many frames it sends.
    fn hear(&mut self, node: NodeId, bytes: &[u8]) -> Result<usize, Refusal> {
        self.sent.reserve(MOST_SENT)?;
        let frames = server_of(&mut self.servers, node)?.frame(bytes)?;
        Ok(send(&mut self.sent, frames))
    }

    /// The node hears the frame of that number.
    fn hear_sent(&mut self, alloc: Global, node: NodeId, number: usize) -> Result<usize, Refusal> {
        let bytes = Vec::from_slice(alloc, sent_at(self.sent.as_slice(), number)?)?;
        let heard = self.hear(node, bytes.as_slice());
        drop(bytes);
        heard
    }

    /// The node hears the frame that the text says.
    fn hear_spelled(&mut self, alloc: Global, node: NodeId, text: &[u8]) -> Result<usize, Refusal> {
        let mut bytes = Vec::new(alloc);
        let put = put_spelled(alloc, &mut bytes, text);
        let heard = match put {
            Ok(()) => self.hear(node, bytes.as_slice()),
            Err(refusal) => Err(refusal),
        };
        drop(bytes);
        heard
    }

    /// `hear NODE FRAME`, or `hear NODE last`: the last frame of those sent.
    fn hear_said(&mut self, alloc: Global, row: &Row<'_>) -> Result<Reply, Refusal> {
        let node = self.node_of(row)?;
        let (_, text) = first(row.rest)?;
        let last = self.sent.len();
        let count = if is_word(text, "last") {
            self.hear_sent(alloc, node, last)?
        } else {
            self.hear_spelled(alloc, node, text)?
        };
        Ok(Reply::Sent(count))
    }

    /// The node that the command names first.
    fn node_of(&self, row: &Row<'_>) -> Result<NodeId, Refusal> {
        let (node, _) = first(row.rest)?;
        node_of(self.nodes, node)
    }

    /// Delivers the next place, again after Memory.
    fn deliver(&mut self, node: NodeId, tries: u32) -> Result<Reply, Refusal> {
        let event = WorldEvent::Deliver(node);
        let mut reply = self.ask(&event);
        for _ in 1..tries {
            if is_memory(&reply) {
                reply = self.ask(&event);
            }
        }
        drop(event);
        reply
    }

    /// Delivers what it can. Gives the last place.
    fn deliver_all(&mut self, node: NodeId, tries: u32) -> Result<Option<u32>, Refusal> {
        let mut last = None;
        for _ in 0..MOST_SENT {
            match self.deliver(node, tries)? {
                Reply::Delivered(Some(place)) => last = Some(place),
                _ => break,
            }
        }
        Ok(last)
    }

    /// `turn NODE`: the node hears the last frame of those sent, and delivers what it can.
    fn turn(&mut self, alloc: Global, line: &mut Vec<u8>, row: &Row<'_>) -> Result<(), Refusal> {
        let node = self.node_of(row)?;
        let last = self.sent.len();
        let count = self.hear_sent(alloc, node, last)?;
        put_number_line(line, "sent", count as u64)?;
        let place = self.deliver_all(node, row.tries)?;
        put_reply(alloc, line, Reply::Delivered(place))
    }

    fn commit(&mut self, row: &Row<'_>) -> Result<Reply, Refusal> {
        let node = self.node_of(row)?;
        let place = server_of(&mut self.servers, node)?.commit()?;
        Ok(Reply::Delivered(place))
    }

    fn halt(&mut self, line: &mut Vec<u8>, row: &Row<'_>) -> Result<(), Refusal> {
        let node = self.node_of(row)?;
        server_of(&mut self.servers, node)?.halt()?;
        put(line, "halted\n")
    }

    fn timer(&mut self, node: NodeId) -> Result<Reply, Refusal> {
        self.sent.reserve(1)?;
        match server_of(&mut self.servers, node)?.timer()? {
            None => Ok(Reply::Sent(0)),
            Some(frame) => {
                let _ = self.sent.push(frame);
                Ok(Reply::Sent(1))
            }
        }
    }

    fn act(&mut self, alloc: Global, event: &WorldEvent) -> Result<Reply, Refusal> {
        match event {
            WorldEvent::Submit(node, conn, call) => self.submit(alloc, *node, *conn, call),
            WorldEvent::Frame(node, number) => {
                Ok(Reply::Sent(self.hear_sent(alloc, *node, *number)?))
            }
            WorldEvent::Timer(node) => self.timer(*node),
            _ => self.ask(event),
        }
    }

    fn ask(&mut self, event: &WorldEvent) -> Result<Reply, Refusal> {
        let server = server_of(&mut self.servers, event.node())?;
        self.shared.ask(server, event)
    }

    /// `show K`: the frame of that number; `bytes K`: its bytes.
    fn show(&self, alloc: Global, line: &mut Vec<u8>, row: &Row<'_>) -> Result<(), Refusal> {
        let bytes = sent_at(self.sent.as_slice(), index(one(row.rest)?)?)?;
        if row.is("bytes") {
            return put_hex(line, bytes);
        }
        put_decoded(alloc, line, bytes)
    }

    /// The commands that look at a server.
    fn look(&mut self, line: &mut Vec<u8>, row: &Row<'_>) -> Result<(), Refusal> {
        let node = self.node_of(row)?;
        let (_, rest) = first(row.rest)?;
        let server = server_of(&mut self.servers, node)?;
        if row.is("audit") {
            return put_audits_of(line, server.audit(), rest);
        }
        if row.is("waiting") {
            return put_number_line(line, "waiting", server.waiting()? as u64);
        }
        if row.is("rules") {
            return put_rules_of(line, server.table(one(rest)?));
        }
        put_number_line(line, "safe", u64::from(server.safe()))
    }

    /// Does what a command of `step` says.
    fn obey(&mut self, alloc: Global, line: &mut Vec<u8>, text: &[u8]) -> Result<(), Refusal> {
        let event = event_of(alloc, self.nodes, text)?;
        let reply = self.act(alloc, &event);
        drop(event);
        put_reply(alloc, line, reply?)
    }
}

impl<B: BoardName> Plays for Crew<B> {
    fn make(&mut self, alloc: Global, line: &mut Vec<u8>, row: &Row<'_>) -> Result<(), Refusal> {
        if row.is("hear") {
            return put_reply(alloc, line, self.hear_said(alloc, row)?);
        }
        if row.is("turn") {
            return self.turn(alloc, line, row);
        }
        if row.is("commit") {
            return put_reply(alloc, line, self.commit(row)?);
        }
        if row.is("halt") {
            return self.halt(line, row);
        }
        if row.is("show") || row.is("bytes") {
            return self.show(alloc, line, row);
        }
        if row.is("audit") || row.is("rules") || row.is("safe") || row.is("waiting") {
            return self.look(line, row);
        }
        self.obey(alloc, line, row.text)
    }

    fn put_state(&self, alloc: Global, text: &mut Vec<u8>) -> Result<(), Refusal> {
        for server in self.servers.as_slice() {
            put_server(alloc, text, &self.shared, server)?;
        }
        put_number_line(text, "sent", self.sent.len() as u64)
    }
}
