//! The fields of calls, rules and verdicts.

ghost use Rattle.std.specs.Prelude.{◌≡◌, ◌++◌, codes, nat_le, OnOk, IsOkUnless};
ghost use Rattle.std.specs.List.{list_all};
ghost use Rattle.cpg_print.specs.Rules.{effect_text, right_text};
ghost use Rattle.cpg_json.specs.Calls.{by_fields, call_fields, call_name, carried_fields, group_field, hex_fields, message_fields, reason_name, reason_rule, rule_fields, text_fields, verdict_fields, who_object};
ghost use Rattle.cpg_json.specs.Objects.{after_comma, field, more};
ghost use Rattle.cpg_json.specs.Strings.{text_string};

use crate::objects::{put_maybe, put_name, put_number, put_number_or_null, put_text, put_word};
use crate::strings::{put_chars, put_hex};
use cpg_cred::{By, Refusal};
use cpg_entry::{Call, Op};
use cpg_print::node_number;
use cpg_record::{Reason, Verdict};
use cpg_rules::{Effect, Right, Rule, Who};
use cpg_text::put;

/// Puts the name of a group at the line's end.
pub fn put_group(line: &mut Vec<u8>, group: &[u8]) -> Result<(), Refusal>
    ensures ok { OnOk result (line.new.items ≡ line.old.items ++ after_comma (group_field group.now)) }
    ensures memory { IsOkUnless result Refusal.Memory }
{
    put_text(line, "group", group)
}

/// Puts a message at the line's end, with its exact bytes where one of them is no ASCII, and its characters where it is
/// their UTF-8.
#[tactic(auto, using(crate::proofs::Fields::more_append))]
pub(crate) fn put_message(line: &mut Vec<u8>, message: &[u8]) -> Result<(), Refusal>
    ensures ok { OnOk result (line.new.items ≡ line.old.items ++ more (message_fields message.now)) }
    ensures memory { IsOkUnless result Refusal.Memory }
{
    put_text(line, "message", message)?;
    put_bytes_if(line, message)?;
    put_chars_if(line, message)
}

#[tactic(auto, unfolding(crate::specs::Objects::after_comma, crate::specs::Objects::field))]
fn put_bytes_if(line: &mut Vec<u8>, message: &[u8]) -> Result<(), Refusal>
    ensures ok { OnOk result (line.new.items ≡ line.old.items ++ more (hex_fields message.now)) }
    ensures memory { IsOkUnless result Refusal.Memory }
{
    if has_ascii_alone(message) {
        return Ok(());
    }
    put_name(line, "hex")?;
    put_hex(line, message)
}

#[tactic(auto, using(crate::proofs::Texted::text_told, crate::proofs::Texted::text_untold))]
fn put_chars_if(line: &mut Vec<u8>, message: &[u8]) -> Result<(), Refusal>
    ensures ok { OnOk result (line.new.items ≡ line.old.items ++ more (text_fields message.now)) }
    ensures memory { IsOkUnless result Refusal.Memory }
{
    match str::from_utf8(message) {
        Err(_) => Ok(()),
        Ok(text) => put_characters(line, text),
    }
}

#[tactic(auto, unfolding(crate::specs::Objects::after_comma, crate::specs::Objects::field))]
fn put_characters(line: &mut Vec<u8>, text: &str) -> Result<(), Refusal>
    ensures ok { OnOk result (line.new.items ≡ line.old.items ++ after_comma (field (codes "text") (text_string text.now))) }
    ensures memory { IsOkUnless result Refusal.Memory }
{
    put_name(line, "text")?;
    put_chars(line, text)
}

fn has_ascii_alone(bytes: &[u8]) -> bool
    ensures { result ≡ list_all (λ byte. nat_le byte 127) bytes.now }
{
    bytes.iter().all(|byte| *byte <= 127)
}

/// Puts a rule at the line's end.
pub fn put_rule(line: &mut Vec<u8>, rule: Rule) -> Result<(), Refusal>
    ensures ok { OnOk result (line.new.items ≡ line.old.items ++ more (rule_fields rule)) }
    ensures memory { IsOkUnless result Refusal.Memory }
{
    put_word(line, "effect", effect_name(rule.effect))?;
    put_word(line, "right", right_name(rule.right))?;
    put_who(line, rule.who)
}

fn effect_name(effect: Effect) -> &'static str
    ensures { result.now ≡ effect_text effect }
{
    match effect {
        Effect::Allow => "allow",
        Effect::Deny => "deny",
    }
}

/// The name of a right.
pub fn right_name(right: Right) -> &'static str
    ensures { result.now ≡ right_text right }
{
    match right {
        Right::Join => "join",
        Right::Send => "send",
        Right::List => "list",
        Right::Edit => "edit",
    }
}

/// Puts whom a rule speaks of at the line's end.
#[tactic(auto, unfolding(crate::specs::Objects::after_comma, crate::specs::Objects::field))]
fn put_who(line: &mut Vec<u8>, who: Who) -> Result<(), Refusal>
    ensures ok { OnOk result (line.new.items ≡ line.old.items ++ after_comma (field (codes "who") (who_object who))) }
    ensures memory { IsOkUnless result Refusal.Memory }
{
    put_name(line, "who")?;
    put_who_object(line, who)
}

#[tactic(auto, unfolding(crate::specs::Objects::field))]
fn put_who_object(line: &mut Vec<u8>, who: Who) -> Result<(), Refusal>
    ensures ok { OnOk result (line.new.items ≡ line.old.items ++ who_object who) }
    ensures memory { IsOkUnless result Refusal.Memory }
{
    let node = node_number(who.node);
    put(line, "{\"uid\":")?;
    put_number_or_null(line, who.uid)?;
    put_maybe(line, "gid", who.gid)?;
    put_maybe(line, "node", node)?;
    put(line, "}")
}

/// Puts an op at the line's end, without the name of its group.
pub(crate) fn put_call(line: &mut Vec<u8>, op: &Op) -> Result<(), Refusal>
    ensures ok { OnOk result (line.new.items ≡ line.old.items ++ more (call_fields op.now)) }
    ensures memory { IsOkUnless result Refusal.Memory }
{
    put_word(line, "call", call_name(op))?;
    put_carried(line, op)
}

/// The name of an op.
pub(crate) fn call_name(op: &Op) -> &'static str
    ensures { result.now ≡ call_name op.now }
{
    match op {
        Op::Act(Call::Join(_)) => "join",
        Op::Act(Call::Leave) => "leave",
        Op::Act(Call::Send(_)) => "send",
        Op::Act(Call::Insert(_, _, _)) => "insert",
        Op::Act(Call::Remove(_, _)) => "remove",
        Op::Gone => "gone",
    }
}

/// Puts what an op carries beside a group's name at the line's end.
pub(crate) fn put_carried(line: &mut Vec<u8>, op: &Op) -> Result<(), Refusal>
    ensures ok { OnOk result (line.new.items ≡ line.old.items ++ more (carried_fields op.now)) }
    ensures memory { IsOkUnless result Refusal.Memory }
{
    match op {
        Op::Act(Call::Send(message)) => put_message(line, message.as_slice()),
        Op::Act(Call::Insert(_, index, rule)) => {
            put_number(line, "index", u64::from(*index))?;
            put_rule(line, *rule.get())
        }
        Op::Act(Call::Remove(_, id)) => put_number(line, "id", u64::from(*id)),
        _ => Ok(()),
    }
}

/// Puts a verdict at the line's end.
pub fn put_verdict(line: &mut Vec<u8>, verdict: Verdict) -> Result<(), Refusal>
    ensures ok { OnOk result (line.new.items ≡ line.old.items ++ more (verdict_fields verdict)) }
    ensures memory { IsOkUnless result Refusal.Memory }
{
    match verdict {
        Verdict::Allowed(by) => put_allowed(line, by),
        Verdict::Denied(reason) => put_denied(line, reason),
    }
}

fn put_allowed(line: &mut Vec<u8>, by: By) -> Result<(), Refusal>
    ensures ok { OnOk result (line.new.items ≡ line.old.items ++ more (verdict_fields (Verdict.Allowed by))) }
    ensures memory { IsOkUnless result Refusal.Memory }
{
    put_word(line, "verdict", "allowed")?;
    put_by(line, by)
}

/// Puts what something rests on at the line's end.
pub(crate) fn put_by(line: &mut Vec<u8>, by: By) -> Result<(), Refusal>
    ensures ok { OnOk result (line.new.items ≡ line.old.items ++ more (by_fields by)) }
    ensures memory { IsOkUnless result Refusal.Memory }
{
    match by {
        By::Rule(id) => {
            put_word(line, "by", "rule")?;
            put_number(line, "rule", u64::from(id))
        }
        By::Default => put_word(line, "by", "default"),
        By::Root => put_word(line, "by", "root"),
        By::Free => put_word(line, "by", "free"),
    }
}

fn put_denied(line: &mut Vec<u8>, reason: Reason) -> Result<(), Refusal>
    ensures ok { OnOk result (line.new.items ≡ line.old.items ++ more (verdict_fields (Verdict.Denied reason))) }
    ensures memory { IsOkUnless result Refusal.Memory }
{
    put_word(line, "verdict", "denied")?;
    put_word(line, "reason", reason_name(reason))?;
    put_reason_rule(line, reason)
}

fn reason_name(reason: Reason) -> &'static str
    ensures { result.now ≡ reason_name reason }
{
    match reason {
        Reason::Rule(_) => "rule",
        Reason::Default => "default",
        Reason::Closed => "closed",
        Reason::Joined => "joined",
        Reason::Twice => "twice",
        Reason::Full => "full",
        Reason::Position => "position",
        Reason::TableFull => "tablefull",
        Reason::Absent => "absent",
    }
}

fn put_reason_rule(line: &mut Vec<u8>, reason: Reason) -> Result<(), Refusal>
    ensures ok { OnOk result (line.new.items ≡ line.old.items ++ more (reason_rule reason)) }
    ensures memory { IsOkUnless result Refusal.Memory }
{
    match reason {
        Reason::Rule(id) => put_number(line, "rule", u64::from(id)),
        _ => Ok(()),
    }
}
