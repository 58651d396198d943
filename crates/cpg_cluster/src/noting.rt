//! What is known where a session that waited was told nothing: `cpgring run -v`.
//!
//! The words are this project's own. Proved: the text is that of `specs/Notes.antt`.

ghost use Rattle.std.specs.Prelude.{◌≡◌, ◌++◌, OnOk, IsOkUnless};
ghost use Rattle.cpg_cluster.specs.Notes.{all_text, counted, end_text, note_of, note_line, of_places_text, places_text, seen_text, span_text, waited_text};

use crate::asking::MOST_POLLS;
use crate::forms::WaitLimit;
use crate::replies::Reply;
use cpg_cred::Refusal;
use cpg_ring::Settings;
use cpg_text::{push_number, put};

/// What is known of a wait from the start.
#[derive(Debug, Clone, Copy)]
pub struct Known {
    /// How long it looks.
    pub wait_limit: WaitLimit,
    /// The ring's settings.
    pub settings: Settings,
}

/// Puts how long a wait looks at the text's end.
fn put_span(text: &mut Vec<u8>, wait_limit: WaitLimit) -> Result<(), Refusal>
    ensures ok { OnOk result (text.new.items ≡ text.old.items ++ span_text wait_limit) }
    ensures memory { IsOkUnless result Refusal.Memory }
{
    match wait_limit {
        WaitLimit::Looks => {
            push_number(text, u64::from(MOST_POLLS))?;
            put(text, " looks")
        }
        WaitLimit::Millis(millis) => {
            push_number(text, millis)?;
            put(text, " ms")
        }
    }
}

/// Puts how long was waited at the text's end.
fn put_waited(text: &mut Vec<u8>, wait_limit: WaitLimit) -> Result<(), Refusal>
    ensures ok { OnOk result (text.new.items ≡ text.old.items ++ waited_text wait_limit) }
    ensures memory { IsOkUnless result Refusal.Memory }
{
    put(text, "# nothing was told in ")?;
    put_span(text, wait_limit)
}

/// Puts a number between two words at the text's end.
fn put_counted(text: &mut Vec<u8>, front: &str, number: u64, back: &str) -> Result<(), Refusal>
    ensures ok { OnOk result (text.new.items ≡ text.old.items ++ counted front.now number back.now) }
    ensures memory { IsOkUnless result Refusal.Memory }
{
    put(text, front)?;
    push_number(text, number)?;
    put(text, back)
}

/// Puts how many places the ring has at the text's end.
fn put_of_places(text: &mut Vec<u8>, settings: &Settings) -> Result<(), Refusal>
    ensures ok { OnOk result (text.new.items ≡ text.old.items ++ of_places_text settings.now) }
    ensures memory { IsOkUnless result Refusal.Memory }
{
    let places = u64::from(settings.places);
    put_counted(text, " of the ring's ", places, " places")
}

/// Puts how many of the ring's places were seen at the text's end.
fn put_places(text: &mut Vec<u8>, settings: &Settings, seen: u64) -> Result<(), Refusal>
    ensures ok { OnOk result (text.new.items ≡ text.old.items ++ places_text settings.now seen) }
    ensures memory { IsOkUnless result Refusal.Memory }
{
    push_number(text, seen)?;
    put_of_places(text, settings)
}

/// Puts when the ring ends at the text's end.
fn put_end(text: &mut Vec<u8>, settings: &Settings) -> Result<(), Refusal>
    ensures ok { OnOk result (text.new.items ≡ text.old.items ++ end_text settings.now) }
    ensures memory { IsOkUnless result Refusal.Memory }
{
    put_counted(text, "; it ends after ", settings.hops, " hops")
}

/// Puts that all of the ring's places were seen at the text's end.
fn put_all(text: &mut Vec<u8>, settings: &Settings) -> Result<(), Refusal>
    ensures ok { OnOk result (text.new.items ≡ text.old.items ++ all_text settings.now) }
    ensures memory { IsOkUnless result Refusal.Memory }
{
    put_counted(
        text,
        "all of the ring's ",
        u64::from(settings.places),
        " places",
    )
}

/// Puts which of the ring's places were seen at the text's end, and where not all were, when the ring ends.
fn put_seen(text: &mut Vec<u8>, settings: &Settings, seen: u64) -> Result<(), Refusal>
    ensures ok { OnOk result (text.new.items ≡ text.old.items ++ seen_text settings.now seen) }
    ensures memory { IsOkUnless result Refusal.Memory }
{
    if u64::from(settings.places) <= seen {
        put_all(text, settings)
    } else {
        put_places(text, settings, seen)?;
        put_end(text, settings)
    }
}

/// Puts the line at the text's end.
fn put_note_line(text: &mut Vec<u8>, known: &Known, seen: u64) -> Result<(), Refusal>
    ensures ok { OnOk result (text.new.items ≡ text.old.items ++ note_line known.now seen) }
    ensures memory { IsOkUnless result Refusal.Memory }
{
    put_waited(text, known.wait_limit)?;
    put(text, "; the session has seen ")?;
    put_seen(text, &known.settings, seen)?;
    put(text, "\n")
}

/// Puts what is known at the text's end, where no event came.
pub fn put_note(
    text: &mut Vec<u8>,
    known: &Known,
    answer: &Result<Reply, Refusal>,
) -> Result<(), Refusal>
    ensures ok { OnOk result (text.new.items ≡ text.old.items ++ note_of known.now answer.now) }
    ensures memory { IsOkUnless result Refusal.Memory }
{
    match answer {
        Ok(Reply::Nothing(seen)) => put_note_line(text, known, *seen as u64),
        _ => Ok(()),
    }
}
