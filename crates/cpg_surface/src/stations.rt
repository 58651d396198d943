//! `cpg_daemon`: a node with its seat, as it lies under a lock.

ghost use Rattle.std.specs.Prelude.{◌≡◌, []};
ghost use Rattle.cpg_station.specs.Stations.{audit_of};

use bytes::Bytes;
use cpg_board::{Board, Seat};
use cpg_cred::{Cred, Refusal, Refused};
use cpg_daemon::{BoardName, Station};
use cpg_group::{Event, Names, Processes, Record};
use cpg_node::{Connection, Node};
use cpg_rules::Table;
use cpg_wire::Call;

pub fn new_station<B: BoardName>(node: Node, seat: Seat) -> Station<B>
    requires { (audit_of node ≡ []) × (seat ≡ []) }
{
    Station::new(node, seat)
}

pub fn connect<B: BoardName>(
    station: &mut Station<B>,
    pid: u32,
    cred: Cred,
) -> Result<u16, Refusal> {
    station.connect(pid, cred)
}

pub fn submit<B: BoardName>(
    station: &mut Station<B>,
    conn: u16,
    call: Call,
) -> Result<(), Refused<Call>> {
    station.submit(conn, call)
}

pub fn disconnect<B: BoardName>(station: &mut Station<B>, conn: u16) -> Result<(), Refusal> {
    station.disconnect(conn)
}

pub fn frame<B: BoardName>(station: &mut Station<B>, bytes: &[u8]) -> Result<Vec<Bytes>, Refusal> {
    station.frame(bytes)
}

pub fn timer<B: BoardName>(station: &mut Station<B>) -> Result<Option<Bytes>, Refusal> {
    station.timer()
}

pub fn deliver<B: BoardName>(
    station: &mut Station<B>,
    board: &Board,
) -> Result<Option<u32>, Refusal>
    requires { board.now.cells ≡ B.cells }
{
    station.deliver(board)
}

pub fn take<B: BoardName>(station: &mut Station<B>, conn: u16) -> Result<Option<Event>, Refusal> {
    station.take(conn)
}

pub fn list<B: BoardName>(
    station: &Station<B>,
    conn: u16,
    group: &[u8],
) -> Result<Processes, Refusal> {
    station.list(conn, group)
}

pub fn groups<B: BoardName>(station: &Station<B>, conn: u16) -> Result<Names, Refusal> {
    station.groups(conn)
}

/// All that can be seen of a station, but for the seat, and whether it is halted.
pub fn shown<'a, B: BoardName>(
    station: &'a Station<B>,
    conn: u16,
    group: &[u8],
) -> (
    (&'a [Record], Option<&'a Table>, Option<Connection>, u32),
    bool,
) {
    let shown = (
        station.audit(),
        station.table(group),
        station.connection(conn),
        station.safe(),
    );
    (shown, station.is_halted())
}
