//! The script of what was recorded.

ghost use Rattle.std.specs.Prelude.{◌≡◌, ◌++◌, OnOk, IfOk, IsOkUnless};
ghost use Rattle.cpg_cluster.specs.TraceLines.{event_line};
ghost use Rattle.cpg_cluster.specs.TraceScripts.{AreFirstNumbers, first_number, numbered};

use crate::trace::lines::put_event;
use cpg_cred::Refusal;
use cpg_history::Recorded;
use cpg_text::put_byte;
use cpg_world_laws::WorldEvent;
use std::alloc::Global;

/// For each entry of the script the number of the first frame that it sent, and that of the next frame behind them.
pub fn first_numbers(alloc: Global, script: &[Recorded]) -> Result<Vec<u64>, Refusal>
    ensures ok { IfOk result (λ numbers. AreFirstNumbers script.now numbers.items) }
    ensures memory { IsOkUnless result Refusal.Memory }
{
    let mut numbers = Vec::new(alloc);
    let mut next = 2u64;
    for entry in script {
        numbers.push(next)?;
        next = next.wrapping_add(entry.sent as u64);
    }
    numbers.push(next)?;
    Ok(numbers)
}

/// The number of the first frame that the event with that stamp sent.
fn first_of(script: &[Recorded], numbers: &[u64], stamp: u64) -> u64
    requires { AreFirstNumbers script.now numbers.now }
    ensures { result ≡ first_number script.now stamp }
{
    let count = script.len();
    if stamp < count as u64 {
        numbers[stamp as usize]
    } else {
        numbers[count]
    }
}

/// Puts the line of the event at the text's end.
fn put_line(text: &mut Vec<u8>, event: &WorldEvent) -> Result<(), Refusal>
    ensures ok { OnOk result (text.new.items ≡ text.old.items ++ event_line event.now) }
    ensures memory { IsOkUnless result Refusal.Memory }
{
    put_event(text, event)?;
    put_byte(text, b'\n')
}

/// Puts the line of an entry of the script at the text's end.
pub fn put_entry(
    text: &mut Vec<u8>,
    script: &[Recorded],
    numbers: &[u64],
    entry: &Recorded,
) -> Result<(), Refusal>
    requires { AreFirstNumbers script.now numbers.now }
    ensures ok { OnOk result (text.new.items ≡ text.old.items ++ event_line (numbered script.now (entry.now).source (entry.now).event)) }
    ensures memory { IsOkUnless result Refusal.Memory }
{
    match &entry.event {
        WorldEvent::Frame(node, index) => {
            let first = first_of(script, numbers, entry.source);
            let number = first.wrapping_add(*index as u64);
            put_line(text, &WorldEvent::Frame(*node, number as usize))
        }
        event => put_line(text, event),
    }
}
