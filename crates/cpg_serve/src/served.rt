//! One node with its clients.

ghost use Rattle.std.specs.Prelude.{◌≡◌, ◌⊎◌, ◌≤◌, ◌++◌, ℕ, List, suc, length, take, [], Some, None, IfOk, IfErr, OnOk, OnErr, IsOkUnless, is_some, true, Ok, option_map};
ghost use Rattle.cpg_entry.specs.declared.entries.Entry.{Entry};
ghost use Rattle.cpg_entry.specs.declared.frames.Frame.TheVariants as frames;
ghost use Rattle.cpg_entry.specs.declared.frames.Token.{Token};
ghost use Rattle.cpg_entry.specs.declared.ranges.TheConstants.{MOST_CONNECTIONS};
ghost use Rattle.cpg_wire.specs.declared.codes.Version.TheVariants.{Two};
ghost use Rattle.cpg_wire.specs.Spelling.{spelling};
ghost use Rattle.cpg_ring.specs.Worlds.{item, with_item};
ghost use Rattle.cpg_node.specs.Nodes.{delivered_entries, open_client};
ghost use Rattle.cpg_node.specs.Calls.{connect_refusal, place_to_deliver, node_after_delivery, disconnected, closed_refusal};
ghost use Rattle.cpg_node.specs.Answers.{IsFrameAnswer};
ghost use Rattle.cpg_ring.specs.Answers.{IsAnswer};
ghost use Rattle.cpg_wire.specs.Reading.{frame_of};
ghost use Rattle.cpg_serve.specs.Telling.{new_desk};
ghost use Rattle.cpg_serve.specs.Stories.{StoryAt, nothing_before};
ghost use Rattle.cpg_serve.specs.Runs.{IsFramed};
ghost use Rattle.cpg_serve.specs.Serving.{greeting_of, served_of, AreAsMany, with_node, arrived, parted, out_of, IsServedMade, IsAway, IsHeard, IsCaughtUp, IsWritten, IsUnwritten, AreWritten};
ghost use Rattle.cpg_serve.specs.Alone.{IsAlone, LacksNone};
ghost use Rattle.cpg_serve.specs.Carrying.{ComesToNext, HaveMoved, IsNext, IsRenewed};
ghost use Rattle.cpg_serve.specs.Refusals.{WhyNotBegun, WhyNotRenewed};
ghost use Rattle.cpg_serve.specs.Settling.{IsBrisk, IsLone, IsStill, MovesTo, StaysLone, ToldAll, WhyMoving};

use crate::desks::Desk;
use crate::hearing::Heard;
use crate::nexts::{first_node, swap_in};
use crate::turning::turn_until_still;
use bytes::Bytes;
use cpg_ask::Greeting;
use cpg_cred::{AcceptList, Cred, NodeId, Refusal, Refused};
use cpg_entry::MOST_CONNECTIONS;
use cpg_node::{Node, Settings};
use std::alloc::Global;
use std::marker::Model;

/// One node with its clients. Contracts see it as the node, how its clients are greeted, and the desks of its
/// connections: desk n is item n.
#[derive(Drop)]
pub struct Served {
    alloc: Global,
    greeting: Greeting,
    node: Node,
    desks: Vec<Desk>,
}

impl Model for Served {
    ghost use Rattle.std.specs.Prelude.{◌≡◌, length};
    ghost use Rattle.cpg_ring.specs.Kept.{held_code};
    ghost use Rattle.std.specs.Coded.{codes};
    ghost use Rattle.cpg_serve.specs.Serving.{ServedValue};

    ghost Value = { ServedValue };

    ghost coded = { Prim.hlevel (codes, held_code) };

    ghost view = { λ served. record { greeting = served.greeting; node = served.node; desks = served.desks.items } };

    ghost invariant = { λ served. length served.desks.items ≡ length served.node.clients };
}

impl Served {
    /// A new node of a ring without clients. Range where the settings allow no such node; what is refused comes back.
    pub fn new(
        alloc: Global,
        settings: Settings,
        id: NodeId,
        list: AcceptList,
    ) -> Result<Served, Refused<AcceptList>>
        ensures { IsServedMade settings id list result }
    {
        match Node::new(alloc, settings, id, list) {
            Err(refused) => Err(refused),
            Ok(node) => Ok(Served {
                alloc,
                greeting: Greeting {
                    node: id,
                    nodes: settings.nodes,
                    ring: settings.ring,
                },
                node,
                desks: Vec::new(alloc),
            }),
        }
    }

    /// Takes a client in, by a connection of its own, and gives its number: Access where nothing lets its user in,
    /// ConnectionsFull after 65,535 of them.
    pub fn arrive(&mut self, pid: u32, cred: Cred) -> Result<u16, Refusal>
        ensures ok { IfOk result (λ conn. (conn ≡ suc (length self.old.desks)) × (connect_refusal self.old.node cred ≡ None) × (self.new ≡ arrived self.old pid cred)) }
        ensures why { IfErr result (λ why. (why ≡ Refusal.Memory) ⊎ (connect_refusal self.old.node cred ≡ Some why)) }
        ensures err { OnErr result (self.new ≡ self.old) }
        // It asked nothing yet, and nothing was written to it.
        ensures begins { OnOk result (StoryAt nothing_before (suc (length self.old.desks)) [] [] self.new) }
    {
        self.desks.reserve(1)?;
        let conn = self.node.connect(pid, cred)?;
        self.desks
            .push_reserved(Desk::new(self.alloc, self.greeting));
        Ok(conn)
    }

    /// Hears a client's bytes: its asks are done through its own connection alone. NoConnection where there is no
    /// such client, or its connection ended. The caller keeps what was not heard, and calls `lost` where it is broken.
    pub fn hear(&mut self, conn: u16, bytes: &[u8]) -> Result<Heard, Refusal>
        ensures ok { IfOk result (λ heard. IsHeard conn self.old bytes.now heard.count heard.stop self.new) }
        ensures err { IfErr result (λ why. (why ≡ Refusal.NoConnection) × IsAway self.old conn × (self.new ≡ self.old)) }
    {
        if self.node.connection(conn).is_none() {
            return Err(Refusal::NoConnection);
        }
        hear_at(self.greeting, &mut self.node, &mut self.desks, conn, bytes)
    }

    /// Judges the next place and takes it as delivered, if it is held.
    pub fn deliver(&mut self) -> Result<Option<u32>, Refusal>
        ensures ok { IfOk result (λ place. (place ≡ place_to_deliver self.old.node) × (self.new ≡ with_node self.old (node_after_delivery self.old.node))) }
        ensures err { OnErr result (self.new ≡ self.old) }
        ensures memory { IsOkUnless result Refusal.Memory }
        ensures none { place_to_deliver self.old.node ≡ None → result ≡ Ok None }
    {
        self.node.deliver()
    }

    /// Hears a frame, and gives what is to be sent.
    pub fn frame(&mut self, bytes: &[u8]) -> Result<Vec<Bytes>, Refusal>
        ensures answer { IsFrameAnswer (λ list. list.items) self.old.node (frame_of bytes.now) result self.new.node }
        ensures framed { IsFramed self.old self.new }
    {
        self.node.frame(bytes)
    }

    /// The node's last token sent, to be sent again; none where there is none.
    pub fn timer(&mut self) -> Result<Option<Bytes>, Refusal>
        ensures ok { IfOk result (λ bytes. bytes ≡ option_map (λ t. spelling Two (frames.Token t)) self.old.node.ring.state.last_token) }
        ensures same { self.new ≡ self.old }
        ensures memory { IsOkUnless result Refusal.Memory }
        ensures none { self.old.node.ring.state.last_token ≡ None → result ≡ Ok None }
    {
        self.node.timer()
    }

    /// Ends a client's connection, behind its calls; what was told it, and not written, is dropped.
    pub fn lost(&mut self, conn: u16) -> Result<(), Refusal>
        ensures answer { IsAnswer (closed_refusal (open_client self.old.node conn)) (λ _. self.new ≡ parted self.old conn) result }
        ensures err { OnErr result (self.new ≡ self.old) }
    {
        self.node.disconnect(conn)?;
        empty_at(self.alloc, self.greeting, &mut self.desks, conn);
        Ok(())
    }

    /// The bytes that a client is to be written, in order; none where there is no such client.
    pub fn output(&self, conn: u16) -> &[u8]
        ensures { result.now ≡ out_of (item self.now.desks conn) }
    {
        if conn == 0 {
            return &[];
        }
        match self.desks.get(conn as usize - 1) {
            None => &[],
            Some(desk) => desk.output(),
        }
    }

    /// How many connections it gave out in its ring.
    pub fn connections(&self) -> usize
        ensures { result ≡ length self.now.desks }
    {
        self.desks.len()
    }

    /// How many places of its ring it delivered.
    pub fn delivered(&self) -> u32
        ensures { result ≡ self.now.node.ring.state.delivered }
    {
        self.node.delivered()
    }

    /// Where memory is asked for. There are as many desks as connections.
    pub(crate) fn memory(&self) -> Global
        ensures { length self.now.desks ≡ length self.now.node.clients }
    {
        self.alloc
    }

    /// So many bytes of a client's output were written to it.
    pub fn wrote(&mut self, conn: u16, count: usize)
        requires { count ≤ length (out_of (item self.old.desks conn)) }
        ensures { AreWritten conn self.old (item self.old.desks conn) count self.new }
    {
        wrote_at(self.greeting, &self.node, &mut self.desks, conn, count);
    }

    /// Takes so many bytes at most from a client's output, to be written to it. NoConnection where there never was
    /// such a client, and else Memory.
    pub fn write(&mut self, conn: u16, most: usize) -> Result<Bytes, Refusal>
        ensures ok { IfOk result (λ bytes. IsWritten conn self.old bytes self.new) }
        ensures all { IfOk result (λ bytes. bytes ≡ take most (out_of (item self.old.desks conn))) }
        ensures err { OnErr result (self.new ≡ self.old) }
        ensures why { IfErr result (λ why. IsUnwritten (item self.old.desks conn) why) }
    {
        write_at(
            self.alloc,
            self.greeting,
            &self.node,
            &mut self.desks,
            conn,
            most,
        )
    }

    /// Tells a client all that its node has for it. On an `Err` what is left is told by a later call, and nothing is
    /// lost or told twice.
    pub fn tell(&mut self, conn: u16) -> Result<(), Refusal>
        ensures did { IsCaughtUp conn self.old (item self.old.desks conn) result self.new }
        ensures memory { IsOkUnless result Refusal.Memory }
        ensures count { length self.new.desks ≡ length self.old.desks }
    {
        tell_at(self.greeting, &mut self.node, &mut self.desks, conn)
    }

    /// A ring of one node turns by itself until nothing moves: nothing waits, nothing is to be delivered, and every
    /// client was told all. RingEnd where its places or hops are used up; NotMine in a ring of more nodes. On an `Err`
    /// nothing is lost or told twice.
    pub fn settle(&mut self) -> Result<(), Refusal>
        // Whatever came of it: the node turned, delivered, and told clients, so all that `serve` says holds over it.
        ensures moves { MovesTo self.old self.new }
        ensures count { length self.new.desks ≡ length self.old.desks }
        ensures still { OnOk result (IsStill self.new.node) }
        ensures told { OnOk result ((conn : ℕ) → conn ≤ MOST_CONNECTIONS → ToldAll self.new conn) }
        // In a ring of one node that heard no other's frame: all that was admitted is delivered, in its order, after one
        // turn for each eight entries that waited.
        ensures placed { OnOk result ((t : Token) (placed : List Entry) → IsLone self.old.node.ring t placed → delivered_entries self.new.node.ring.state ≡ placed ++ self.old.node.ring.state.waiting) }
        ensures turns { OnOk result (IsBrisk self.old.node.ring self.new.node.ring) }
        ensures lone { StaysLone self.old.node.ring self.new.node.ring }
        ensures why { (t : Token) (placed : List Entry) → IsLone self.old.node.ring t placed → IfErr result (λ why. WhyMoving self.old.node.ring self.new.node.ring why) }
    {
        self.turn()?;
        self.tell_all()
    }

    /// The next ring of a ring of one node, by these settings and that list: first this one comes to rest, as by
    /// `settle`. Gives the new number of each connection, 0 where it ended; number 1 is the daemon's own connection,
    /// which put the rules in and ended. On an `Err` the next ring did not begin, and nothing is lost or told twice. Range
    /// where the settings are of no ring of one node; Access where the list does not let an open connection in;
    /// ConnectionsFull where 65,535 are open; NoConnection where a member is no open connection's process, and BadName
    /// where a group has no name, as it may be where the node heard what its ring did not send; RingEnd where the next
    /// ring has too few places or hops for the members, the rules, and one more.
    pub fn renew(&mut self, settings: Settings, list: &AcceptList) -> Result<Vec<u16>, Refusal>
        ensures ok { IfOk result (λ numbers. ComesToNext settings list.now numbers.items self.old self.new) }
        ensures count { IfOk result (λ numbers. length numbers.items ≡ length self.old.desks) }
        ensures err { OnErr result (MovesTo self.old self.new) }
        ensures lone { OnErr result (StaysLone self.old.node.ring self.new.node.ring) }
        // In a ring of one node that heard no other's frame: why it did not come to rest, or the next one does not begin.
        ensures why { (t : Token) (placed : List Entry) → IsLone self.old.node.ring t placed → IfErr result (λ why. WhyNotRenewed settings list.now self.old self.new why) }
        // Where its own connections made all its entries, each member is one's process, and each group has a name.
        ensures alone { IsAlone self.old → IfErr result LacksNone }
    {
        self.settle()?;
        self.begin_next(settings, list)
    }

    /// The next ring, where this one is at rest.
    fn begin_next(&mut self, settings: Settings, list: &AcceptList) -> Result<Vec<u16>, Refusal>
        ensures ok { IfOk result (λ numbers. IsRenewed settings list.now numbers.items self.old self.new) }
        ensures count { IfOk result (λ numbers. length numbers.items ≡ length self.old.desks) }
        ensures err { OnErr result (self.new ≡ self.old) }
        ensures why { IfErr result (λ why. WhyNotBegun settings list.now self.old.node why) }
    {
        let numbers = renew_at(self.alloc, &mut self.node, &mut self.desks, settings, list)?;
        self.greeting = greeting_in(settings);
        Ok(numbers)
    }

    /// The node turns until nothing waits, and nothing is to be delivered.
    fn turn(&mut self) -> Result<(), Refusal>
        ensures moves { MovesTo self.old self.new }
        ensures count { length self.new.desks ≡ length self.old.desks }
        ensures still { OnOk result (IsStill self.new.node) }
        ensures turns { OnOk result (IsBrisk self.old.node.ring self.new.node.ring) }
        ensures lone { StaysLone self.old.node.ring self.new.node.ring }
        ensures why { (t : Token) (placed : List Entry) → IsLone self.old.node.ring t placed → IfErr result (λ why. WhyMoving self.old.node.ring self.new.node.ring why) }
    {
        turn_until_still(&mut self.node)
    }

    /// The number of the last connection, of those that a connection may have.
    fn last_conn(&self) -> u16
        ensures { (length self.now.desks ≤ result) ⊎ (MOST_CONNECTIONS ≤ result) }
    {
        if self.desks.len() < usize::from(MOST_CONNECTIONS) {
            self.desks.len() as u16
        } else {
            MOST_CONNECTIONS
        }
    }

    /// Tells every client all that the node has for it.
    fn tell_all(&mut self) -> Result<(), Refusal>
        ensures moves { MovesTo self.old self.new }
        ensures count { length self.new.desks ≡ length self.old.desks }
        ensures ring { self.new.node.ring ≡ self.old.node.ring }
        ensures told { OnOk result ((conn : ℕ) → conn ≤ MOST_CONNECTIONS → ToldAll self.new conn) }
        ensures memory { IsOkUnless result Refusal.Memory }
    {
        let last = self.last_conn();
        let mut conn = 0;
        while conn < last {
            conn += 1;
            self.tell(conn)?;
        }
        Ok(())
    }
}

/// Hears the bytes of the client of that connection.
fn hear_at(
    greeting: Greeting,
    node: &mut Node,
    desks: &mut Vec<Desk>,
    conn: u16,
    bytes: &[u8],
) -> Result<Heard, Refusal>
    requires { is_some (open_client node.old conn) ≡ true }
    ensures ok { IfOk result (λ heard. IsHeard conn (served_of greeting node.old desks.old.items) bytes.now heard.count heard.stop (served_of greeting node.new desks.new.items)) }
    ensures err { IfErr result (λ why. (why ≡ Refusal.NoConnection) × (item desks.old.items conn ≡ None) × (node.new ≡ node.old) × (desks.new.items ≡ desks.old.items)) }
    ensures count { AreAsMany (served_of greeting node.old desks.old.items) (served_of greeting node.new desks.new.items) }
{
    if conn == 0 {
        return Err(Refusal::NoConnection);
    }
    match desks.get_mut(conn as usize - 1) {
        None => Err(Refusal::NoConnection),
        Some(desk) => Ok(desk.hear(node, conn, bytes)),
    }
}

/// Drops all that the client of that connection was told.
fn empty_at(alloc: Global, greeting: Greeting, desks: &mut Vec<Desk>, conn: u16)
    ensures desks { desks.new.items ≡ with_item desks.old.items conn (new_desk greeting) }
    ensures count { length desks.new.items ≡ length desks.old.items }
{
    if conn == 0 {
        return;
    }
    if let Some(desk) = desks.get_mut(conn as usize - 1) {
        *desk = Desk::new(alloc, greeting);
    }
}

/// So many bytes were written to the client of that connection.
fn wrote_at(greeting: Greeting, node: &Node, desks: &mut Vec<Desk>, conn: u16, count: usize)
    requires { count ≤ length (out_of (item desks.old.items conn)) }
    ensures wrote { AreWritten conn (served_of greeting node.now desks.old.items) (item desks.old.items conn) count (served_of greeting node.now desks.new.items) }
    ensures count { length desks.new.items ≡ length desks.old.items }
{
    if conn == 0 {
        return;
    }
    if let Some(desk) = desks.get_mut(conn as usize - 1) {
        desk.wrote(count);
    }
}

/// Takes so many bytes at most from the output of the client of that connection.
fn write_at(
    alloc: Global,
    greeting: Greeting,
    node: &Node,
    desks: &mut Vec<Desk>,
    conn: u16,
    most: usize,
) -> Result<Bytes, Refusal>
    ensures ok { IfOk result (λ bytes. IsWritten conn (served_of greeting node.now desks.old.items) bytes (served_of greeting node.now desks.new.items)) }
    ensures all { IfOk result (λ bytes. bytes ≡ take most (out_of (item desks.old.items conn))) }
    ensures err { OnErr result (desks.new.items ≡ desks.old.items) }
    ensures why { IfErr result (λ why. IsUnwritten (item desks.old.items conn) why) }
    ensures count { length desks.new.items ≡ length desks.old.items }
{
    if conn == 0 {
        return Err(Refusal::NoConnection);
    }
    match desks.get_mut(conn as usize - 1) {
        None => Err(Refusal::NoConnection),
        Some(desk) => Ok(desk.write(alloc, most)?),
    }
}

/// Tells the client of that connection all that the node has for it.
fn tell_at(
    greeting: Greeting,
    node: &mut Node,
    desks: &mut Vec<Desk>,
    conn: u16,
) -> Result<(), Refusal>
    ensures did { IsCaughtUp conn (served_of greeting node.old desks.old.items) (item desks.old.items conn) result (served_of greeting node.new desks.new.items) }
    ensures memory { IsOkUnless result Refusal.Memory }
    ensures count { AreAsMany (served_of greeting node.old desks.old.items) (served_of greeting node.new desks.new.items) }
{
    if conn == 0 {
        return Ok(());
    }
    match desks.get_mut(conn as usize - 1) {
        None => Ok(()),
        Some(desk) => desk.catch_up(node, conn),
    }
}

/// How clients of a ring of one node are greeted.
fn greeting_in(settings: Settings) -> Greeting
    ensures { result ≡ record { node = 1; nodes = 1; ring = settings.ring } }
{
    Greeting {
        node: NodeId::default(),
        nodes: 1,
        ring: settings.ring,
    }
}

/// Puts the next ring's node in place of this one, and moves the desks of open connections.
fn renew_at(
    alloc: Global,
    node: &mut Node,
    desks: &mut Vec<Desk>,
    settings: Settings,
    list: &AcceptList,
) -> Result<Vec<u16>, Refusal>
    requires { length desks.old.items ≡ length node.old.clients }
    ensures ok { IfOk result (λ numbers. IsNext settings list.now numbers.items node.old node.new × HaveMoved (greeting_of node.new) numbers.items desks.old.items desks.new.items) }
    ensures given { IfOk result (λ numbers. length numbers.items ≡ length desks.old.items) }
    ensures err { OnErr result ((node.new ≡ node.old) × (desks.new.items ≡ desks.old.items)) }
    ensures why { IfErr result (λ why. WhyNotBegun settings list.now node.old why) }
    ensures count { length desks.new.items ≡ length node.new.clients }
{
    let mut next = first_node(alloc, settings, list)?;
    let numbers = swap_in(alloc, &greeting_in(settings), node, &mut next, desks);
    drop(next);
    numbers
}
