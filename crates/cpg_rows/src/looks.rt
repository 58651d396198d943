//! What can be seen of a node or station.

use crate::nodes::{Server, Shared};
use crate::printing::put_debug;
use crate::states::put_audits;
use crate::tables::put_rules;
use crate::words::put_number_line;
use cpg_cred::Refusal;
use cpg_node::Connection;
use cpg_record::Record;
use cpg_station::{BoardName, Station};
use cpg_text::{push_number, put};
use std::alloc::Global;

/// Up to which number the connections of a node are shown.
const SHOWN: u16 = 64;

/// Puts what only a station shows: whether it is halted, and whether its seat is as it should be.
fn put_station<B: BoardName>(
    text: &mut Vec<u8>,
    station: &Station<B>,
    ahead: usize,
) -> Result<(), Refusal> {
    put_number_line(text, "delivered", u64::from(station.delivered()))?;
    if station.is_halted() {
        put(text, "halted\n")?;
    }
    if ahead > 1 {
        put_number_line(text, "seat ahead by", ahead as u64)?;
    }
    Ok(())
}

fn put_own<B: BoardName>(
    alloc: Global,
    text: &mut Vec<u8>,
    shared: &Shared<B>,
    server: &Server<B>,
) -> Result<(), Refusal> {
    match server {
        // what waits, what is held, its last token
        Server::Alone(node) => put_debug(alloc, text, node),
        Server::Sharing(station) => put_station(text, station, shared.ahead(station)?),
    }
}

/// Puts the table of each record's group.
fn put_tables<B: BoardName>(
    text: &mut Vec<u8>,
    server: &Server<B>,
    records: &[Record],
) -> Result<(), Refusal> {
    for record in records {
        if let Some(name) = &record.group {
            if let Some(table) = server.table(name.as_slice()) {
                put_rules(text, table)?;
            }
        }
    }
    Ok(())
}

fn put_connection(text: &mut Vec<u8>, conn: u16, open: &Connection) -> Result<(), Refusal> {
    put(text, "connection ")?;
    push_number(text, u64::from(conn))?;
    put(text, " ")?;
    push_number(text, u64::from(open.pid))?;
    put(text, " ")?;
    push_number(text, u64::from(open.cred.uid))?;
    put(text, " ")?;
    push_number(text, u64::from(open.cred.gid))?;
    put(text, " took ")?;
    push_number(text, u64::from(open.taken))?;
    put(text, "\n")
}

fn put_connections<B: BoardName>(text: &mut Vec<u8>, server: &Server<B>) -> Result<(), Refusal> {
    for conn in 1..=SHOWN {
        if let Some(open) = server.connection(conn) {
            put_connection(text, conn, &open)?;
        }
    }
    Ok(())
}

/// Puts all that can be seen of a server.
pub fn put_server<B: BoardName>(
    alloc: Global,
    text: &mut Vec<u8>,
    shared: &Shared<B>,
    server: &Server<B>,
) -> Result<(), Refusal> {
    let records = server.audit();
    put_audits(text, records)?;
    put_tables(text, server, records)?;
    put_connections(text, server)?;
    put_number_line(text, "safe", u64::from(server.safe()))?;
    put_own(alloc, text, shared, server)
}
