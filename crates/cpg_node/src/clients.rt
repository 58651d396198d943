//! The list of a node's connections.

ghost use Rattle.std.specs.Prelude.{◌≡◌, ◌≤◌, length};
ghost use Rattle.cpg_ring.specs.Worlds.{item, with_item};
ghost use Rattle.cpg_node.specs.Nodes.{if_open};

use crate::connections::Client;

/// The connection of that number, if it is open.
pub(crate) fn open_client(clients: &[Client], conn: u16) -> Option<Client>
    ensures { result ≡ if_open (item clients.now conn) }
{
    if conn == 0 {
        return None;
    }
    match clients.get(conn as usize - 1) {
        Some(client) if !client.ended => Some(*client),
        _ => None,
    }
}

/// Changes the connection of that number.
pub(crate) fn put_client(clients: &mut Vec<Client>, conn: u16, client: Client)
    requires low { 1 ≤ conn }
    requires high { conn ≤ length clients.old.items }
    ensures { clients.new.items ≡ with_item clients.old.items conn client }
{
    clients[conn as usize - 1] = client;
}
