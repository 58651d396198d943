//! Events, told one at a time.

ghost use Rattle.std.specs.Prelude.{◌≡◌, option_map};
ghost use Rattle.std.specs.List.{slice_get};
ghost use Rattle.std.specs.Option.{option_copied};
ghost use Rattle.cpg_node.specs.Nodes.{open_client};
ghost use Rattle.cpg_embed.specs.Events.{IsTaken, IsProcess};
ghost use Rattle.cpg_embed.specs.Processes.{process_of, moved_of};
ghost use Rattle.cpg_embed.specs.Statuses.{AreHanded};
ghost use Rattle.cpg_embed.specs.Telling.{group_in, message_in, members_in, left_in, joined_in};

use crate::endpoints::Endpoint;
use crate::processes::Process;
use crate::statuses::{NONE, OK, hand};
use crate::told::Told;
use cpg_node::Event;
use cpg_record::{Member, Move};

impl Endpoint {
    /// Takes the connection's next event, and tells of it. Its parts are handed over until the next is taken.
    pub fn take(&mut self, conn: u16, told: &mut Told) -> u32
        ensures { IsTaken self.old conn (open_client self.old.node conn) result told.new self.new }
    {
        match self.node.take(conn) {
            Ok(Some(event)) => {
                *told = Told::of(&event);
                self.event = Some(event);
                OK
            }
            Ok(None) => NONE,
            Err(refusal) => refusal.number(),
        }
    }

    /// Hands over the name of the group that the last event names.
    pub fn group(&self, buffer: &mut [u8]) -> u32
        ensures { AreHanded (group_in self.now.event) buffer.old result buffer.new }
    {
        match &self.event {
            None | Some(Event::Verdict { .. }) => NONE,
            Some(Event::Message { group, .. }) => hand(group.as_slice(), buffer),
            Some(Event::Change { group, .. }) => hand(group.as_slice(), buffer),
            Some(Event::RulesChanged { group, .. }) => hand(group.as_slice(), buffer),
        }
    }

    /// Hands over the last event's message.
    pub fn message(&self, buffer: &mut [u8]) -> u32
        ensures { AreHanded (message_in self.now.event) buffer.old result buffer.new }
    {
        match &self.event {
            Some(Event::Message { message, .. }) => hand(message.as_slice(), buffer),
            _ => NONE,
        }
    }

    /// Lends the last event's message, which stays where it is until the next event is taken.
    pub fn lent(&self) -> Option<&[u8]>
        ensures { option_copied result ≡ message_in self.now.event }
    {
        match &self.event {
            Some(Event::Message { message, .. }) => Some(message.as_slice()),
            _ => None,
        }
    }

    /// The members after the last event's change; nobody for any other event.
    fn members(&self) -> &[Member]
        ensures { result.now ≡ members_in self.now.event }
    {
        match &self.event {
            Some(Event::Change { members, .. }) => members.as_slice(),
            _ => &[],
        }
    }

    /// Who left by the last event's change.
    fn leavers(&self) -> &[Move]
        ensures { result.now ≡ left_in self.now.event }
    {
        match &self.event {
            Some(Event::Change { left, .. }) => left.as_slice(),
            _ => &[],
        }
    }

    /// Who joined by the last event's change.
    fn joiners(&self) -> &[Move]
        ensures { result.now ≡ joined_in self.now.event }
    {
        match &self.event {
            Some(Event::Change { joined, .. }) => joined.as_slice(),
            _ => &[],
        }
    }

    /// Tells a member after the last event's change, by its index from 0.
    pub fn member(&self, index: usize, process: &mut Process) -> u32
        ensures { IsProcess (option_map process_of (slice_get (members_in self.now.event) index)) result process.new }
    {
        match self.members().get(index) {
            Some(member) => {
                *process = Process::of(member);
                OK
            }
            None => NONE,
        }
    }

    /// Tells one of those who left by the last event's change, by its index from 0.
    pub fn left(&self, index: usize, process: &mut Process) -> u32
        ensures { IsProcess (option_map moved_of (slice_get (left_in self.now.event) index)) result process.new }
    {
        match self.leavers().get(index) {
            Some(moved) => {
                *process = Process::of_move(moved);
                OK
            }
            None => NONE,
        }
    }

    /// Tells one of those who joined by the last event's change, by its index from 0.
    pub fn joined(&self, index: usize, process: &mut Process) -> u32
        ensures { IsProcess (option_map moved_of (slice_get (joined_in self.now.event) index)) result process.new }
    {
        match self.joiners().get(index) {
            Some(moved) => {
                *process = Process::of_move(moved);
                OK
            }
            None => NONE,
        }
    }
}
