//! Listings, handed over one at a time.

ghost use Rattle.std.specs.Prelude.{◌≡◌, length};
ghost use Rattle.cpg_node.specs.Nodes.{records_of, open_client};
ghost use Rattle.cpg_record.specs.RuleTables.{rules_of};
ghost use Rattle.cpg_ring.specs.States.{safe_mark};
ghost use Rattle.std.specs.List.{slice_get};
ghost use Rattle.cpg_embed.specs.Events.{IsProcess};
ghost use Rattle.cpg_embed.specs.Listings.{IsListed, AreNamed, IsNamed, IsReached, IsRuleLine, process_at, name_at};

use crate::endpoints::Endpoint;
use crate::processes::Process;
use crate::rules::RuleLine;
use crate::statuses::{NONE, OK, hand};

impl Endpoint {
    /// Lists the members of a group, and tells how many there are. They are told one at a time until the
    /// next listing.
    pub fn list(&mut self, conn: u16, group: &[u8], count: &mut usize) -> u32
        ensures { IsListed self.old group.now (open_client self.old.node conn) result count.new self.new }
    {
        match self.node.list(conn, group) {
            Ok(processes) => {
                *count = processes.as_slice().len();
                self.processes = Some(processes);
                OK
            }
            Err(refusal) => refusal.number(),
        }
    }

    /// Tells one of the processes that were listed last, by its index from 0.
    pub fn listed(&self, index: usize, process: &mut Process) -> u32
        ensures { IsProcess (process_at self.now.processes index) result process.new }
    {
        match &self.processes {
            None => NONE,
            Some(processes) => match processes.as_slice().get(index) {
                Some(listed) => {
                    *process = Process::of_listed(*listed);
                    OK
                }
                None => NONE,
            },
        }
    }

    /// Lists the groups with members that the connection may list, and tells how many there are. Their
    /// names are handed over one at a time until the next such listing.
    pub fn groups(&mut self, conn: u16, count: &mut usize) -> u32
        ensures { AreNamed self.old (open_client self.old.node conn) result count.new self.new }
    {
        match self.node.groups(conn) {
            Ok(names) => {
                *count = names.as_slice().len();
                self.names = Some(names);
                OK
            }
            Err(refusal) => refusal.number(),
        }
    }

    /// Hands over one of the names that were listed last, by its index from 0, with its length.
    pub fn named(&self, index: usize, buffer: &mut [u8], len: &mut usize) -> u32
        ensures { IsNamed (name_at self.now.names index) buffer.old result buffer.new len.new }
    {
        match &self.names {
            None => NONE,
            Some(names) => match names.as_slice().get(index) {
                Some(name) => {
                    *len = name.as_slice().len();
                    hand(name.as_slice(), buffer)
                }
                None => NONE,
            },
        }
    }

    /// Tells a rule of a group's table, by its index from 0.
    pub fn rule(&self, group: &[u8], index: usize, line: &mut RuleLine) -> u32
        ensures { IsRuleLine (slice_get (rules_of (records_of self.now.node) group.now) index) result line.new }
    {
        match self.node.table(group) {
            None => NONE,
            Some(table) => match table.get(index) {
                Some((id, rule)) => {
                    *line = RuleLine::of(id, &rule);
                    OK
                }
                None => NONE,
            },
        }
    }

    /// How many places were delivered.
    pub fn delivered(&self) -> u32
        ensures { result ≡ self.now.node.ring.state.delivered }
    {
        self.node.delivered()
    }

    /// The place up to which every node holds all places.
    pub fn safe(&self) -> u32
        ensures { result ≡ safe_mark self.now.node.ring.state.arus }
    {
        self.node.safe()
    }

    /// How many entries wait for a place, ends of connections too.
    pub fn waiting(&self) -> usize
        ensures { result ≡ length self.now.node.ring.state.waiting }
    {
        self.node.waiting()
    }

    /// Tells how many places were given out and how many hops made, as far as the last token says that the
    /// node sent. What the settings have more is left.
    pub fn reached(&self, places: &mut u32, hops: &mut u64) -> u32
        ensures { IsReached self.now.node.ring.state.last_token result places.new hops.new }
    {
        match self.node.last_token() {
            Some(token) => {
                *places = token.seq;
                *hops = token.hop;
                OK
            }
            None => NONE,
        }
    }
}
