//! What calls and commands are answered, as lines.

ghost use Rattle.std.specs.Prelude.{◌≡◌, ◌++◌, ◌∷◌, [], map, OnOk, IsOkUnless, Some};
ghost use Rattle.std.specs.Option.{option_copied};
ghost use Rattle.cpg_json.specs.Answers.{accept_json, answer_json, refusal_carries, refusal_fields, refused_json, reply_json, rule_count_json, rule_json, safe_json, took_json, via_name};
ghost use Rattle.cpg_json.specs.Objects.{array, field, head_of, line as object_line, more, number};

use crate::arrays::{Item, put_array};
use crate::calls::{put_by, put_rule};
use crate::events::put_event_fields;
use crate::objects::{put_end, put_head, put_kind, put_maybe, put_number, put_word};
use cpg_cred::{Refusal, Via};
use cpg_record::Event;
use cpg_rules::Rule;
use cpg_world::Reply;

/// Puts what a refusal carries at the line's end.
fn put_carried(line: &mut Vec<u8>, refusal: Refusal) -> Result<(), Refusal>
    ensures ok { OnOk result (line.new.items ≡ line.old.items ++ more (refusal_carries refusal)) }
    ensures memory { IsOkUnless result Refusal.Memory }
{
    match refusal {
        Refusal::Behind(reached) => put_number(line, "place", u64::from(reached)),
        Refusal::Denied(by) => put_by(line, by),
        Refusal::BadLine(number)
        | Refusal::Unopened(number)
        | Refusal::BadItem(number)
        | Refusal::BadValue(number)
        | Refusal::UnknownName(number)
        | Refusal::BadCommand(number) => put_number(line, "line", u64::from(number)),
        _ => Ok(()),
    }
}

/// Puts a refusal, and what it carries, at the line's end.
pub fn put_refusal(line: &mut Vec<u8>, refusal: Refusal) -> Result<(), Refusal>
    ensures ok { OnOk result (line.new.items ≡ line.old.items ++ more (refusal_fields refusal)) }
    ensures memory { IsOkUnless result Refusal.Memory }
{
    put_number(line, "number", u64::from(refusal.number()))?;
    put_word(line, "refusal", refusal.name())?;
    put_carried(line, refusal)
}

/// Puts the line of a refusal at the lines' end.
pub(crate) fn put_refused(line: &mut Vec<u8>, head: &[u8], refusal: Refusal) -> Result<(), Refusal>
    ensures ok { OnOk result (line.new.items ≡ line.old.items ++ refused_json head.now refusal) }
    ensures memory { IsOkUnless result Refusal.Memory }
{
    put_head(line, "refused", head)?;
    put_refusal(line, refusal)?;
    put_end(line)
}

pub(crate) fn via_name(via: Via) -> &'static str
    ensures { result.now ≡ via_name via }
{
    match via {
        Via::RootUser => "root-user",
        Via::RootGroup => "root-group",
        Via::User => "user",
        Via::Group => "group",
    }
}

fn put_accepted(line: &mut Vec<u8>, via: Via) -> Result<(), Refusal>
    ensures ok { OnOk result (line.new.items ≡ line.old.items ++ accept_json (Some via)) }
    ensures memory { IsOkUnless result Refusal.Memory }
{
    put_kind(line, "accepted")?;
    put_word(line, "via", via_name(via))?;
    put_end(line)
}

/// Puts the line of what lets credentials in, or of their refusal, at the lines' end.
pub fn put_accept(line: &mut Vec<u8>, answer: Option<Via>) -> Result<(), Refusal>
    ensures ok { OnOk result (line.new.items ≡ line.old.items ++ accept_json answer) }
    ensures memory { IsOkUnless result Refusal.Memory }
{
    match answer {
        None => put_refused(line, &[], Refusal::Access),
        Some(via) => put_accepted(line, via),
    }
}

/// Puts an object of its kind alone at the lines' end.
fn put_alone(line: &mut Vec<u8>, head: &[u8], name: &str) -> Result<(), Refusal>
    ensures ok { OnOk result (line.new.items ≡ line.old.items ++ object_line (head_of name.now head.now ∷ [])) }
    ensures memory { IsOkUnless result Refusal.Memory }
{
    put_head(line, name, head)?;
    put_end(line)
}

/// Puts an object of its kind and a number at the lines' end.
fn put_counted(
    line: &mut Vec<u8>,
    head: &[u8],
    name: &str,
    counted: &str,
    value: u64,
) -> Result<(), Refusal>
    ensures ok { OnOk result (line.new.items ≡ line.old.items ++ object_line (head_of name.now head.now ∷ number counted.now value ∷ [])) }
    ensures memory { IsOkUnless result Refusal.Memory }
{
    put_head(line, name, head)?;
    put_number(line, counted, value)?;
    put_end(line)
}

fn put_delivered(line: &mut Vec<u8>, head: &[u8], place: Option<u32>) -> Result<(), Refusal>
    ensures ok { OnOk result (line.new.items ≡ line.old.items ++ reply_json head.now (Reply.Delivered place)) }
    ensures memory { IsOkUnless result Refusal.Memory }
{
    put_head(line, "delivered", head)?;
    put_maybe(line, "place", place)?;
    put_end(line)
}

fn put_taken(line: &mut Vec<u8>, head: &[u8], event: &Event) -> Result<(), Refusal>
    ensures ok { OnOk result (line.new.items ≡ line.old.items ++ took_json head.now (Some event.now)) }
    ensures memory { IsOkUnless result Refusal.Memory }
{
    put_head(line, "event", head)?;
    put_event_fields(line, event)?;
    put_end(line)
}

fn put_took(line: &mut Vec<u8>, head: &[u8], event: Option<&Event>) -> Result<(), Refusal>
    ensures ok { OnOk result (line.new.items ≡ line.old.items ++ took_json head.now (option_copied event.entry)) }
    ensures memory { IsOkUnless result Refusal.Memory }
{
    match event {
        None => put_alone(line, head, "none"),
        Some(event) => put_taken(line, head, event),
    }
}

/// Puts an object of its kind and an array of that name at the lines' end.
fn put_listing<T: Item>(
    line: &mut Vec<u8>,
    head: &[u8],
    name: &str,
    items: &[T],
) -> Result<(), Refusal>
    ensures ok { OnOk result (line.new.items ≡ line.old.items ++ object_line (head_of name.now head.now ∷ field name.now (array (map T.printed items.now)) ∷ [])) }
    ensures memory { IsOkUnless result Refusal.Memory }
{
    put_head(line, name, head)?;
    put_array(line, name, items)?;
    put_end(line)
}

fn put_reply(line: &mut Vec<u8>, head: &[u8], reply: &Reply) -> Result<(), Refusal>
    ensures ok { OnOk result (line.new.items ≡ line.old.items ++ reply_json head.now reply.now) }
    ensures memory { IsOkUnless result Refusal.Memory }
{
    match reply {
        Reply::Connected(conn) => put_counted(
            line,
            head,
            "connected",
            "connection",
            u64::from(*conn),
        ),
        Reply::Admitted => put_alone(line, head, "admitted"),
        Reply::Closed => put_alone(line, head, "closed"),
        Reply::Sent(count) => put_counted(line, head, "sent", "frames", *count as u64),
        Reply::Delivered(place) => put_delivered(line, head, *place),
        Reply::Took(event) => put_took(line, head, event.as_ref()),
        Reply::Members(processes) => put_listing(line, head, "members", processes.as_slice()),
        Reply::Groups(names) => put_listing(line, head, "groups", names.as_slice()),
    }
}

/// Puts the line of a reply or of a refusal at the lines' end.
pub(crate) fn put_answer(
    line: &mut Vec<u8>,
    head: &[u8],
    answer: &Result<Reply, Refusal>,
) -> Result<(), Refusal>
    ensures ok { OnOk result (line.new.items ≡ line.old.items ++ answer_json head.now answer.now) }
    ensures memory { IsOkUnless result Refusal.Memory }
{
    match answer {
        Ok(reply) => put_reply(line, head, reply),
        Err(refusal) => put_refused(line, head, *refusal),
    }
}

/// Puts the line of a table's rule, with its id, at the lines' end.
pub(crate) fn put_rule_line(
    line: &mut Vec<u8>,
    head: &[u8],
    id: u32,
    rule: Rule,
) -> Result<(), Refusal>
    ensures ok { OnOk result (line.new.items ≡ line.old.items ++ rule_json head.now (id, rule)) }
    ensures memory { IsOkUnless result Refusal.Memory }
{
    put_head(line, "rule", head)?;
    put_number(line, "id", u64::from(id))?;
    put_rule(line, rule)?;
    put_end(line)
}

/// Puts the line that counts a table's rules at the lines' end.
pub(crate) fn put_rule_count(line: &mut Vec<u8>, head: &[u8], count: usize) -> Result<(), Refusal>
    ensures ok { OnOk result (line.new.items ≡ line.old.items ++ rule_count_json head.now count) }
    ensures memory { IsOkUnless result Refusal.Memory }
{
    put_counted(line, head, "rules", "rules", count as u64)
}

/// Puts the line of a safe mark at the lines' end.
pub fn put_safe(line: &mut Vec<u8>, head: &[u8], place: u32) -> Result<(), Refusal>
    ensures ok { OnOk result (line.new.items ≡ line.old.items ++ safe_json head.now place) }
    ensures memory { IsOkUnless result Refusal.Memory }
{
    put_counted(line, head, "safe", "place", u64::from(place))
}
