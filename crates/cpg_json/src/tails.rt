//! What places tell their groups, each put once: the rest of an event's line, behind the connection that it names.
//!
//! Proved: the bytes that are found for a place are the rest of the line of what it tells its group.

ghost use Rattle.std.specs.Prelude.{◌≡◌, ◌≤◌, ◌-◌, ◌++◌, ℕ, List, length, take, drop, IfOk, OnOk, IsOkUnless, option_to_list};
ghost use Rattle.std.specs.List.{concat, flat_map};
ghost use Rattle.std.specs.Option.{option_copied};
ghost use Rattle.cpg_record.specs.declared.records.Record.{Record};
ghost use Rattle.cpg_record.specs.Judging.{judged};
ghost use Rattle.cpg_judge.specs.Texts.{no_text, with_text, HoldsTexts};
ghost use Rattle.cpg_json.specs.Tails.{tail_at, tail_of, AreTails};

use crate::events::put_event_fields;
use crate::objects::put_end;
use cpg_cred::Refusal;
use cpg_group::Policy;
use cpg_record::Event;
use std::alloc::Global;
use std::marker::Model;

/// Puts what an event's line says after its connection at the line's end.
fn put_tail(line: &mut Vec<u8>, event: &Event) -> Result<(), Refusal>
    ensures ok { OnOk result (line.new.items ≡ line.old.items ++ tail_of event.now) }
    ensures memory { IsOkUnless result Refusal.Memory }
{
    put_event_fields(line, event)?;
    put_end(line)
}

/// Puts the same where there is an event.
fn put_tail_if(line: &mut Vec<u8>, event: Option<&Event>) -> Result<(), Refusal>
    ensures ok { OnOk result (line.new.items ≡ line.old.items ++ flat_map tail_of (option_to_list (option_copied event.entry))) }
    ensures memory { IsOkUnless result Refusal.Memory }
{
    match event {
        None => Ok(()),
        Some(event) => put_tail(line, event),
    }
}

/// The tails of places one after the other, with where each of them ends. Contracts see it as a text that
/// cpg_judge keeps of a group, with no members.
#[derive(Drop)]
pub(crate) struct Tails {
    text: Vec<u8>,
    ends: Vec<usize>,
}

impl Model for Tails {
    ghost use Rattle.std.specs.Prelude.{[]};
    ghost use Rattle.cpg_judge.specs.Texts.{TextValue};
    ghost use Rattle.cpg_print.specs.Records.{members_text};

    ghost Value = { TextValue };

    ghost view = { λ tails. record { members = members_text []; text = tails.text.items; ends = tails.ends.items } };
}

impl Tails {
    /// None.
    fn new(alloc: Global) -> Tails
        ensures { result ≡ no_text }
    {
        Tails {
            text: Vec::new(alloc),
            ends: Vec::new(alloc),
        }
    }

    /// Puts the tail of the place, the one after those that were put.
    fn put_place(&mut self, policy: &Policy, place: u32) -> Result<(), Refusal>
        requires { (1 ≤ place) × (place ≤ length policy.now) }
        ensures ok { OnOk result (self.new ≡ with_text (tail_at (judged policy.now) place) self.old) }
        ensures memory { IsOkUnless result Refusal.Memory }
    {
        let event = policy.told_at(place)?;
        put_tail_if(&mut self.text, event.as_ref())?;
        let end = self.text.len();
        self.ends.push(end)?;
        Ok(())
    }

    /// The tails of all judged places.
    pub(crate) fn of(alloc: Global, policy: &Policy) -> Result<Tails, Refusal>
        ensures ok { IfOk result (λ tails. AreTails tails (judged policy.now) (length (judged policy.now))) }
        ensures memory { IsOkUnless result Refusal.Memory }
    {
        let mut tails = Tails::new(alloc);
        for index in 0..policy.len() {
            tails.put_place(policy, index as u32 + 1)?;
        }
        Ok(tails)
    }

    /// Where the first so many texts end.
    fn end(&self, count: usize) -> usize
        ensures { (texts : List (List ℕ)) → HoldsTexts self.now texts → count ≤ length texts → result ≡ length (concat (take count texts)) }
    {
        if count == 0 {
            return 0;
        }
        if count <= self.ends.len() {
            self.ends[count - 1]
        } else {
            0
        }
    }

    /// The texts after the first `from`, up to the first `to`, as one.
    fn range(&self, from: usize, to: usize) -> &[u8]
        ensures { (texts : List (List ℕ)) → HoldsTexts self.now texts → from ≤ to → to ≤ length texts → result.now ≡ concat (drop from (take to texts)) }
    {
        let start = self.end(from);
        let end = self.end(to);
        if start <= end && end <= self.text.len() {
            &self.text[start..end]
        } else {
            &[]
        }
    }

    /// The tail of the place.
    pub(crate) fn at(&self, place: u32) -> &[u8]
        requires { 1 ≤ place }
        ensures { (records : List Record) → AreTails self.now records (length records) → place ≤ length records → result.now ≡ tail_at records place }
    {
        let place = place as usize;
        self.range(place - 1, place)
    }
}
