//! Fields of objects, each put after a comma.

ghost use Rattle.std.specs.Prelude.{◌≡◌, ◌++◌, codes, OnOk, IsOkUnless};
ghost use Rattle.cpg_json.specs.Objects.{after_comma, field, head_of, kind, maybe, number, number_or_null, word};
ghost use Rattle.cpg_json.specs.Strings.{json_string};

use crate::strings::put_string;
use cpg_cred::Refusal;
use cpg_text::{push_number, put, put_bytes};

/// Puts a comma and the name of a field at the line's end.
#[inline(always)]
pub fn put_name(line: &mut Vec<u8>, name: &str) -> Result<(), Refusal>
    ensures ok { OnOk result (line.new.items ≡ line.old.items ++ codes ",\"" ++ name.now ++ codes "\":") }
    ensures memory { IsOkUnless result Refusal.Memory }
{
    put(line, ",\"")?;
    put(line, name)?;
    put(line, "\":")
}

/// Puts the field of a number at the line's end.
#[inline(always)]
#[tactic(auto, unfolding(crate::specs::Objects::after_comma, crate::specs::Objects::field))]
pub fn put_number(line: &mut Vec<u8>, name: &str, value: u64) -> Result<(), Refusal>
    ensures ok { OnOk result (line.new.items ≡ line.old.items ++ after_comma (number name.now value)) }
    ensures memory { IsOkUnless result Refusal.Memory }
{
    put_name(line, name)?;
    push_number(line, value)
}

/// Puts the field of a word at the line's end.
#[inline(always)]
#[tactic(auto, unfolding(crate::specs::Objects::after_comma, crate::specs::Objects::field, crate::specs::Objects::word))]
pub fn put_word(line: &mut Vec<u8>, name: &str, text: &str) -> Result<(), Refusal>
    ensures ok { OnOk result (line.new.items ≡ line.old.items ++ after_comma (field name.now (word text.now))) }
    ensures memory { IsOkUnless result Refusal.Memory }
{
    put_name(line, name)?;
    put(line, "\"")?;
    put(line, text)?;
    put(line, "\"")
}

/// Puts the field of a string at the line's end.
#[tactic(auto, unfolding(crate::specs::Objects::after_comma, crate::specs::Objects::field))]
pub(crate) fn put_text(line: &mut Vec<u8>, name: &str, bytes: &[u8]) -> Result<(), Refusal>
    ensures ok { OnOk result (line.new.items ≡ line.old.items ++ after_comma (field name.now (json_string bytes.now))) }
    ensures memory { IsOkUnless result Refusal.Memory }
{
    put_name(line, name)?;
    put_string(line, bytes)
}

/// Puts the field of a number, or of `null`, at the line's end.
#[tactic(auto, unfolding(crate::specs::Objects::after_comma, crate::specs::Objects::field))]
pub(crate) fn put_maybe(line: &mut Vec<u8>, name: &str, value: Option<u32>) -> Result<(), Refusal>
    ensures ok { OnOk result (line.new.items ≡ line.old.items ++ after_comma (maybe name.now value)) }
    ensures memory { IsOkUnless result Refusal.Memory }
{
    put_name(line, name)?;
    put_number_or_null(line, value)
}

/// Puts a number, or `null`, at the line's end.
pub(crate) fn put_number_or_null(line: &mut Vec<u8>, value: Option<u32>) -> Result<(), Refusal>
    ensures ok { OnOk result (line.new.items ≡ line.old.items ++ number_or_null value) }
    ensures memory { IsOkUnless result Refusal.Memory }
{
    match value {
        None => put(line, "null"),
        Some(value) => push_number(line, u64::from(value)),
    }
}

/// Puts the brace and the kind of an object at the lines' end.
#[inline(always)]
#[tactic(auto, unfolding(crate::specs::Objects::field, crate::specs::Objects::word))]
pub fn put_kind(line: &mut Vec<u8>, name: &str) -> Result<(), Refusal>
    ensures ok { OnOk result (line.new.items ≡ line.old.items ++ codes "{" ++ kind name.now) }
    ensures memory { IsOkUnless result Refusal.Memory }
{
    put(line, "{\"kind\":\"")?;
    put(line, name)?;
    put(line, "\"")
}

/// Puts the brace, the kind of an object and what stands at its head at the lines' end.
#[inline(always)]
pub fn put_head(line: &mut Vec<u8>, name: &str, head: &[u8]) -> Result<(), Refusal>
    ensures ok { OnOk result (line.new.items ≡ line.old.items ++ codes "{" ++ head_of name.now head.now) }
    ensures memory { IsOkUnless result Refusal.Memory }
{
    put_kind(line, name)?;
    put_bytes(line, head)
}

/// Puts the end of an object that stands alone on its line at the lines' end.
#[inline(always)]
pub fn put_end(line: &mut Vec<u8>) -> Result<(), Refusal>
    ensures ok { OnOk result (line.new.items ≡ line.old.items ++ codes "}\n") }
    ensures memory { IsOkUnless result Refusal.Memory }
{
    put(line, "}\n")
}
