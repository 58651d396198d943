//! Records as lines.

ghost use Rattle.std.specs.Prelude.{◌≡◌, ◌++◌, codes, OnOk, IsOkUnless};
ghost use Rattle.std.specs.Option.{option_copied};
ghost use Rattle.cpg_record.specs.Connections.{conn_of};
ghost use Rattle.cpg_json.specs.Marks.{line_fields};
ghost use Rattle.cpg_json.specs.Objects.{after_comma, head_of, more};
ghost use Rattle.cpg_json.specs.Records.{asked_fields, caller_fields, conn_fields, count_json, group_fields, members_field, outcome_fields, process_array, record_json};
ghost use Rattle.cpg_json.specs.Steps.{IsKept};

use crate::arrays::{Item, put_array, put_joined};
use crate::calls::{put_call, put_group, put_verdict};
use crate::marks::put_line_number;
use crate::objects::{put_end, put_head, put_kind, put_name, put_number};
use crate::strings::put_string;
use cpg_cred::{NodeId, Refusal};
use cpg_entry::{Entry, Name};
use cpg_record::{ConnId, Member, Members, Record};
use cpg_text::{push_number, put, put_bytes};
use std::alloc::Global;

/// Puts a connection at the line's end.
pub fn put_conn(line: &mut Vec<u8>, conn: &ConnId) -> Result<(), Refusal>
    ensures ok { OnOk result (line.new.items ≡ line.old.items ++ more (conn_fields conn.now)) }
    ensures memory { IsOkUnless result Refusal.Memory }
{
    put_number(line, "node", u64::from(conn.node.get()))?;
    put_number(line, "connection", u64::from(conn.conn))
}

/// Puts who made an entry at the line's end.
pub fn put_caller(line: &mut Vec<u8>, entry: &Entry) -> Result<(), Refusal>
    ensures ok { OnOk result (line.new.items ≡ line.old.items ++ more (caller_fields entry.now)) }
    ensures memory { IsOkUnless result Refusal.Memory }
{
    put_conn(line, &ConnId::of(entry))?;
    put_number(line, "pid", u64::from(entry.pid))?;
    put_number(line, "uid", u64::from(entry.cred.uid))?;
    put_number(line, "gid", u64::from(entry.cred.gid))
}

/// Puts a process at the line's end.
#[tactic(auto, unfolding(crate::specs::Objects::after_comma))]
pub(crate) fn put_process(line: &mut Vec<u8>, process: (NodeId, u32)) -> Result<(), Refusal>
    ensures ok { OnOk result (line.new.items ≡ line.old.items ++ process_array process) }
    ensures memory { IsOkUnless result Refusal.Memory }
{
    put(line, "[")?;
    push_number(line, u64::from(process.0.get()))?;
    put(line, ",")?;
    push_number(line, u64::from(process.1))?;
    put(line, "]")
}

/// A process, by its node and its pid.
impl Item for (NodeId, u32) {
    ghost use Rattle.cpg_json.specs.Records.{process_array};

    ghost printed = { process_array };

    fn put_item(&self, line: &mut Vec<u8>) -> Result<(), Refusal> {
        put_process(line, *self)
    }
}

/// A member, by its process.
impl Item for Member {
    ghost use Rattle.cpg_json.specs.Records.{member_array};

    ghost printed = { member_array };

    fn put_item(&self, line: &mut Vec<u8>) -> Result<(), Refusal> {
        put_process(line, (self.node, self.pid))
    }
}

/// The name of a group.
impl Item for Name {
    ghost use Rattle.cpg_json.specs.Strings.{json_string};

    ghost printed = { json_string };

    fn put_item(&self, line: &mut Vec<u8>) -> Result<(), Refusal> {
        put_string(line, self.as_slice())
    }
}

fn put_group_members(
    line: &mut Vec<u8>,
    group: Option<&Name>,
    members: &[Member],
) -> Result<(), Refusal>
    ensures ok { OnOk result (line.new.items ≡ line.old.items ++ more (group_fields (option_copied group.entry) members.now)) }
    ensures memory { IsOkUnless result Refusal.Memory }
{
    match group {
        None => Ok(()),
        Some(group) => {
            put_group(line, group.as_slice())?;
            put_array(line, "members", members)
        }
    }
}

/// The members whose text was put last, with that text: records in a row mostly have the same members.
#[derive(Drop)]
pub(crate) struct KeptMembers {
    members: Members,
    text: Vec<u8>,
}

impl KeptMembers {
    /// Nobody, and no text.
    pub(crate) fn new(alloc: Global) -> KeptMembers
        ensures { IsKept result }
    {
        KeptMembers {
            members: Members::new(alloc),
            text: Vec::new(alloc),
        }
    }

    /// Keeps those members with their text, unless they are kept.
    fn keep(&mut self, members: &Members) -> Result<(), Refusal>
        requires { IsKept self.old }
        ensures ok { OnOk result (IsKept self.new × (self.new.members ≡ members.now)) }
        ensures memory { IsOkUnless result Refusal.Memory }
    {
        if self.members.equals(members) {
            return Ok(());
        }
        self.members = members.copy(*self.text.allocator())?;
        self.text.clear();
        put_joined(&mut self.text, members.as_slice())
    }

    /// Puts the kept members of a group at the line's end.
    #[tactic(auto, unfolding(crate::specs::Objects::after_comma, crate::specs::Objects::field))]
    fn put(&self, line: &mut Vec<u8>) -> Result<(), Refusal>
        requires { IsKept self.now }
        ensures ok { OnOk result (line.new.items ≡ line.old.items ++ after_comma (members_field self.now.members)) }
        ensures memory { IsOkUnless result Refusal.Memory }
    {
        put_name(line, "members")?;
        put(line, "[")?;
        put_bytes(line, self.text.as_slice())?;
        put(line, "]")
    }
}

/// Puts the group and its members, where there is a group, at the line's end, by the kept text of the members.
fn put_group_kept(
    line: &mut Vec<u8>,
    group: Option<&Name>,
    members: &Members,
    kept: &mut KeptMembers,
) -> Result<(), Refusal>
    requires { IsKept kept.old }
    ensures ok { OnOk result (line.new.items ≡ line.old.items ++ more (group_fields (option_copied group.entry) members.now)) }
    ensures kept { OnOk result (IsKept kept.new) }
    ensures memory { IsOkUnless result Refusal.Memory }
{
    match group {
        None => Ok(()),
        Some(group) => {
            kept.keep(members)?;
            put_group(line, group.as_slice())?;
            kept.put(line)
        }
    }
}

/// Puts an entry at its place at the line's end.
#[tactic(auto, using(crate::proofs::Fields::more_append))]
fn put_asked(line: &mut Vec<u8>, place: u32, entry: &Entry) -> Result<(), Refusal>
    ensures ok { OnOk result (line.new.items ≡ line.old.items ++ more (asked_fields place entry.now)) }
    ensures memory { IsOkUnless result Refusal.Memory }
{
    put_number(line, "place", u64::from(place))?;
    put_caller(line, entry)?;
    put_call(line, &entry.op)
}

#[tactic(auto, using(crate::proofs::Fields::more_append))]
fn put_outcome(line: &mut Vec<u8>, past: &Record) -> Result<(), Refusal>
    ensures ok { OnOk result (line.new.items ≡ line.old.items ++ more (outcome_fields past.now)) }
    ensures memory { IsOkUnless result Refusal.Memory }
{
    put_verdict(line, past.verdict)?;
    put_group_members(line, past.group.as_ref(), past.members.as_slice())
}

#[tactic(auto, using(crate::proofs::Fields::more_append))]
fn put_outcome_kept(
    line: &mut Vec<u8>,
    past: &Record,
    kept: &mut KeptMembers,
) -> Result<(), Refusal>
    requires { IsKept kept.old }
    ensures ok { OnOk result (line.new.items ≡ line.old.items ++ more (outcome_fields past.now)) }
    ensures kept { OnOk result (IsKept kept.new) }
    ensures memory { IsOkUnless result Refusal.Memory }
{
    put_verdict(line, past.verdict)?;
    put_group_kept(line, past.group.as_ref(), &past.members, kept)
}

/// Puts the line of a record, which stands at that place, at the lines' end.
pub fn put_record(line: &mut Vec<u8>, head: &[u8], place: u32, past: &Record) -> Result<(), Refusal>
    ensures ok { OnOk result (line.new.items ≡ line.old.items ++ record_json head.now place past.now) }
    ensures memory { IsOkUnless result Refusal.Memory }
{
    put_head(line, "record", head)?;
    put_asked(line, place, &past.entry)?;
    put_outcome(line, past)?;
    put_end(line)
}

/// Puts the brace, the kind of an object and the number of a line, where there is one, at the lines' end.
fn put_numbered(line: &mut Vec<u8>, name: &str, number: Option<u32>) -> Result<(), Refusal>
    ensures ok { OnOk result (line.new.items ≡ line.old.items ++ codes "{" ++ head_of name.now (more (line_fields number))) }
    ensures memory { IsOkUnless result Refusal.Memory }
{
    put_kind(line, name)?;
    put_line_number(line, number)
}

/// The same behind the number of its entry's line, where it has one, by the kept text of the members.
#[tactic(auto, using(crate::proofs::Fields::two_put))]
pub(crate) fn put_record_kept(
    line: &mut Vec<u8>,
    number: Option<u32>,
    place: u32,
    past: &Record,
    kept: &mut KeptMembers,
) -> Result<(), Refusal>
    requires { IsKept kept.old }
    ensures ok { OnOk result (line.new.items ≡ line.old.items ++ record_json (more (line_fields number)) place past.now) }
    ensures kept { OnOk result (IsKept kept.new) }
    ensures memory { IsOkUnless result Refusal.Memory }
{
    put_numbered(line, "record", number)?;
    put_asked(line, place, &past.entry)?;
    put_outcome_kept(line, past, kept)?;
    put_end(line)
}

/// Puts the line of the count of records at the lines' end.
pub fn put_count(line: &mut Vec<u8>, head: &[u8], count: u32) -> Result<(), Refusal>
    ensures ok { OnOk result (line.new.items ≡ line.old.items ++ count_json head.now count) }
    ensures memory { IsOkUnless result Refusal.Memory }
{
    put_head(line, "count", head)?;
    put_number(line, "records", u64::from(count))?;
    put_end(line)
}
