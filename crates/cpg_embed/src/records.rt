//! Records of what was delivered, told by their places.

ghost use Rattle.std.specs.Prelude.{◌≡◌};
ghost use Rattle.std.specs.Option.{option_copied};
ghost use Rattle.cpg_node.specs.Nodes.{records_of};
ghost use Rattle.cpg_record.specs.Places.{record_at};
ghost use Rattle.cpg_embed.specs.Events.{IsProcess};
ghost use Rattle.cpg_embed.specs.Records.{IsAudited, audited_of, call_number, sent_in, group_at, message_at, hearer_at, notified_at};
ghost use Rattle.cpg_embed.specs.Statuses.{AreHanded};

use crate::endpoints::Endpoint;
use crate::processes::Process;
use crate::statuses::{NONE, OK, hand};
use crate::told::{basis_number, rule_number, verdict_number};
use cpg_entry::{Call, Op};
use cpg_record::{Record, Verdict};

/// What a place was given to, and what it was answered, but for bytes and rules.
#[repr(C)]
#[derive(Clone, Copy)]
pub struct Audited {
    /// The connection that asked, by its node and its number there, with its process and credentials.
    pub node: u32,
    pub conn: u32,
    pub pid: u32,
    pub uid: u32,
    pub gid: u32,
    /// What it asked: 1 join, 2 leave, 3 send, 4 insert, 5 remove; 6 its end.
    pub call: u32,
    /// 0 allowed, else why it is denied; what that rests on; and the rule that it rests on.
    pub verdict: u32,
    pub basis: u32,
    pub rule: u32,
    /// How many bytes the group's name has, and the message, and how many members there are after it.
    pub group_len: usize,
    pub message_len: usize,
    pub members: usize,
}

fn call_number(op: &Op) -> u32
    ensures { result ≡ call_number op.now }
{
    match op {
        Op::Act(Call::Join(_)) => 1,
        Op::Act(Call::Leave) => 2,
        Op::Act(Call::Send(_)) => 3,
        Op::Act(Call::Insert(_, _, _)) => 4,
        Op::Act(Call::Remove(_, _)) => 5,
        Op::Gone => 6,
    }
}

/// The message that is sent; nothing where none is.
fn sent_in(op: &Op) -> Option<&[u8]>
    ensures { option_copied result ≡ sent_in op.now }
{
    match op {
        Op::Act(Call::Send(message)) => Some(message.as_slice()),
        _ => None,
    }
}

impl Audited {
    /// What the record says.
    fn of(past: &Record) -> Audited
        ensures { result ≡ audited_of past.now }
    {
        let group_len = match &past.group {
            Some(group) => group.as_slice().len(),
            None => 0,
        };
        let message_len = match sent_in(&past.entry.op) {
            Some(message) => message.len(),
            None => 0,
        };
        Audited {
            node: u32::from(past.entry.node.get()),
            conn: u32::from(past.entry.conn),
            pid: past.entry.pid,
            uid: past.entry.cred.uid,
            gid: past.entry.cred.gid,
            call: call_number(&past.entry.op),
            verdict: verdict_number(past.verdict),
            basis: basis_number(past.verdict),
            rule: rule_number(past.verdict),
            group_len,
            message_len,
            members: past.members.len(),
        }
    }
}

/// One of the members after the record, by its index from 0, where the record is allowed.
fn hearer(past: &Record, index: usize) -> Option<Process>
    ensures { result ≡ hearer_at past.now index }
{
    match past.verdict {
        Verdict::Allowed(_) => match past.members.as_slice().get(index) {
            Some(member) => Some(Process::of(member)),
            None => None,
        },
        Verdict::Denied(_) => None,
    }
}

impl Endpoint {
    /// The record of a place, from 1.
    fn record(&self, place: u32) -> Option<&Record>
        ensures { option_copied result ≡ record_at (records_of self.now.node) place }
    {
        if place == 0 {
            return None;
        }
        self.node.audit().get(place as usize - 1)
    }

    /// Tells the record of a place that was delivered.
    pub fn audit(&self, place: u32, audited: &mut Audited) -> u32
        ensures { IsAudited (record_at (records_of self.now.node) place) result audited.new }
    {
        match self.record(place) {
            Some(past) => {
                *audited = Audited::of(past);
                OK
            }
            None => NONE,
        }
    }

    /// Hands over the group's name of a record.
    pub fn audit_group(&self, place: u32, buffer: &mut [u8]) -> u32
        ensures { AreHanded (group_at (record_at (records_of self.now.node) place)) buffer.old result buffer.new }
    {
        match self.record(place) {
            Some(past) => match &past.group {
                Some(group) => hand(group.as_slice(), buffer),
                None => NONE,
            },
            None => NONE,
        }
    }

    /// Hands over the message of a record.
    pub fn audit_message(&self, place: u32, buffer: &mut [u8]) -> u32
        ensures { AreHanded (message_at (record_at (records_of self.now.node) place)) buffer.old result buffer.new }
    {
        match self.record(place) {
            Some(past) => match sent_in(&past.entry.op) {
                Some(message) => hand(message, buffer),
                None => NONE,
            },
            None => NONE,
        }
    }

    /// Lends the message of a record. A long one stays where it is as long as the node; one that lies in its record, until
    /// the next delivery.
    pub fn audit_lent(&self, place: u32) -> Option<&[u8]>
        ensures { option_copied result ≡ message_at (record_at (records_of self.now.node) place) }
    {
        match self.record(place) {
            Some(past) => sent_in(&past.entry.op),
            None => None,
        }
    }

    /// Tells one of those, at any node, to whom a place that was delivered tells something, by an index from 0: first who
    /// made its entry, and then, where that was allowed, the members of its group after it, among whom the maker may be once
    /// more. It takes the same time for each.
    pub fn notified(&self, place: u32, index: usize, process: &mut Process) -> u32
        ensures { IsProcess (notified_at (record_at (records_of self.now.node) place) index) result process.new }
    {
        let told = match self.record(place) {
            Some(past) if index == 0 => Some(Process::of_maker(&past.entry)),
            Some(past) => hearer(past, index - 1),
            None => None,
        };
        match told {
            Some(found) => {
                *process = found;
                OK
            }
            None => NONE,
        }
    }
}
