//! Nodes and stations, as what serves connections.

ghost use Rattle.std.specs.Prelude.{◌≡◌, [], IfOk};
ghost use Rattle.cpg_station.specs.Stations.{audit_of};

use crate::words::{NO_COMMAND, accept_list};
use bytes::Bytes;
use cpg_board::Board;
use cpg_cred::{NodeId, Refusal, Refused};
use cpg_entry::Call;
use cpg_node::{Connection, Node, Settings};
use cpg_record::Record;
use cpg_rules::Table;
use cpg_station::{BoardName, Station};
use cpg_world::{Reply, WorldEvent};
use std::alloc::Global;
use std::marker::PhantomData;

/// The board that stations share.
#[derive(Drop)]
pub struct Shared<B: BoardName> {
    board: Board,
    of: PhantomData<B>,
    ghost named: { board.cells ≡ B.cells },
}

/// What serves the connections of a node.
#[derive(Drop)]
pub enum Server<B: BoardName> {
    Alone(Node),
    Sharing(Station<B>),
}

/// A new node of that number.
fn new_node(alloc: Global, settings: &Settings, number: u8, words: &[u8]) -> Result<Node, Refusal>
    ensures { IfOk result (λ node. audit_of node ≡ []) }
{
    let id = NodeId::new(number).ok_or(Refusal::Range)?;
    let list = accept_list(alloc, words)?;
    match Node::new(alloc, *settings, id, list) {
        Ok(node) => Ok(node),
        Err(refused) => Err(refused.into_refusal()),
    }
}

/// What the node answers to an event that needs no more than it.
fn ask_node(node: &mut Node, event: &WorldEvent) -> Result<Reply, Refusal> {
    match event {
        WorldEvent::Connect(_, pid, cred) => Ok(Reply::Connected(node.connect(*pid, *cred)?)),
        WorldEvent::Disconnect(_, conn) => {
            node.disconnect(*conn)?;
            Ok(Reply::Closed)
        }
        WorldEvent::Deliver(_) => Ok(Reply::Delivered(node.deliver()?)),
        WorldEvent::Take(_, conn) => Ok(Reply::Took(node.take(*conn)?)),
        WorldEvent::List(_, conn, group) => {
            Ok(Reply::Members(node.list(*conn, group.as_slice())?))
        }
        WorldEvent::Groups(_, conn) => Ok(Reply::Groups(node.groups(*conn)?)),
        _ => Err(NO_COMMAND),
    }
}

/// Judges the next place of the node and takes it as delivered, by one call each.
fn commit_at(node: &mut Node) -> Result<Option<u32>, Refusal> {
    let Some(next) = node.judge_next()? else {
        return Ok(None);
    };
    match node.commit(next) {
        Ok(()) => Ok(Some(node.delivered())),
        Err(refused) => Err(refused.into_refusal()),
    }
}

impl<B: BoardName> Shared<B> {
    pub fn new(board: Board) -> Shared<B>
        requires { board.cells ≡ B.cells }
    {
        Shared {
            board,
            of: PhantomData,
        }
    }

    /// A new node of that number, alone or as a station.
    pub fn new_server(
        &self,
        alloc: Global,
        settings: &Settings,
        number: u8,
        words: &[u8],
        is_alone: bool,
    ) -> Result<Server<B>, Refusal> {
        let node = new_node(alloc, settings, number, words)?;
        if is_alone {
            Ok(Server::Alone(node))
        } else {
            Ok(Server::Sharing(Station::new(node, self.board.seat())))
        }
    }

    /// What the station answers to an event that needs no more than it and the board.
    fn ask_station(&self, station: &mut Station<B>, event: &WorldEvent) -> Result<Reply, Refusal> {
        match event {
            WorldEvent::Connect(_, pid, cred) => {
                Ok(Reply::Connected(station.connect(*pid, *cred)?))
            }
            WorldEvent::Disconnect(_, conn) => {
                station.disconnect(*conn)?;
                Ok(Reply::Closed)
            }
            WorldEvent::Deliver(_) => Ok(Reply::Delivered(station.deliver(&self.board)?)),
            WorldEvent::Take(_, conn) => Ok(Reply::Took(station.take(*conn)?)),
            WorldEvent::List(_, conn, group) => {
                Ok(Reply::Members(station.list(*conn, group.as_slice())?))
            }
            WorldEvent::Groups(_, conn) => Ok(Reply::Groups(station.groups(*conn)?)),
            _ => Err(NO_COMMAND),
        }
    }

    /// What the server answers to an event that needs no more than it and the board.
    pub fn ask(&self, server: &mut Server<B>, event: &WorldEvent) -> Result<Reply, Refusal> {
        match server {
            Server::Alone(node) => ask_node(node, event),
            Server::Sharing(station) => self.ask_station(station, event),
        }
    }

    /// How many records the station's seat has that it has not delivered. A delivery that met Memory behind its
    /// settling leaves one. The seat of a halted station is not seen.
    pub fn ahead(&self, station: &Station<B>) -> Result<usize, Refusal> {
        let mut seat = self.board.seat();
        let brought = station.bring_up(&self.board, &mut seat);
        let known = seat.len();
        drop(seat);
        match brought {
            Ok(()) => Ok(known.saturating_sub(station.delivered() as usize)),
            Err(Refusal::Stopped) => Ok(0),
            Err(refusal) => Err(refusal),
        }
    }
}

impl<B: BoardName> Server<B> {
    pub fn submit(&mut self, conn: u16, call: Call) -> Result<(), Refused<Call>> {
        match self {
            Server::Alone(node) => node.submit(conn, call),
            Server::Sharing(station) => station.submit(conn, call),
        }
    }

    pub fn frame(&mut self, bytes: &[u8]) -> Result<Vec<Bytes>, Refusal> {
        match self {
            Server::Alone(node) => node.frame(bytes),
            Server::Sharing(station) => station.frame(bytes),
        }
    }

    pub fn timer(&mut self) -> Result<Option<Bytes>, Refusal> {
        match self {
            Server::Alone(node) => node.timer(),
            Server::Sharing(station) => station.timer(),
        }
    }

    /// Delivers the next place by two calls, which a node alone has.
    pub fn commit(&mut self) -> Result<Option<u32>, Refusal> {
        match self {
            Server::Alone(node) => commit_at(node),
            Server::Sharing(_) => Err(NO_COMMAND),
        }
    }

    /// Halts a station.
    pub fn halt(&mut self) -> Result<(), Refusal> {
        match self {
            Server::Alone(_) => Err(NO_COMMAND),
            Server::Sharing(station) => {
                station.halt();
                Ok(())
            }
        }
    }

    pub fn audit(&self) -> &[Record] {
        match self {
            Server::Alone(node) => node.audit(),
            Server::Sharing(station) => station.audit(),
        }
    }

    pub fn table(&self, group: &[u8]) -> Option<&Table> {
        match self {
            Server::Alone(node) => node.table(group),
            Server::Sharing(station) => station.table(group),
        }
    }

    pub fn connection(&self, conn: u16) -> Option<Connection> {
        match self {
            Server::Alone(node) => node.connection(conn),
            Server::Sharing(station) => station.connection(conn),
        }
    }

    /// How many entries wait, which a node alone tells.
    pub fn waiting(&self) -> Result<usize, Refusal> {
        match self {
            Server::Alone(node) => Ok(node.waiting()),
            Server::Sharing(_) => Err(NO_COMMAND),
        }
    }

    pub fn safe(&self) -> u32 {
        match self {
            Server::Alone(node) => node.safe(),
            Server::Sharing(station) => station.safe(),
        }
    }
}
