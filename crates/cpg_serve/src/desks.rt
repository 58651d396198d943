//! A client, as its node's daemon keeps it.

ghost use Rattle.std.specs.Prelude.{◌≡◌, ◌≤◌, ◌++◌, ◌∷◌, [], None, length, take, drop, List, ℕ, IfOk, OnOk, OnErr, IsOkUnless};
ghost use Rattle.cpg_ask.specs.Tells.{Answer, Greets, Denied};
ghost use Rattle.cpg_serve.specs.Telling.{new_desk, told, wrote, spelled};

use crate::events::{is_verdict, put_event};
use bytes::Bytes;
use cpg_ask::{AskCode, Denial, Greeting, Status, put_answer, put_denied, put_greeting};
use cpg_cred::Refusal;
use cpg_node::Event;
use std::alloc::{AllocError, Global};
use std::collections::VecDeque;
use std::marker::Model;

/// A call whose verdict a client is owed: what it asked, and the tag that the answer repeats.
#[derive(Debug, Clone, Copy, PartialEq, Eq)]
pub struct Owed {
    pub code: AskCode,
    pub tag: u16,
}

/// A client: how it is greeted, the calls that no verdict told it yet, the event that was taken and is not spelled
/// yet, and the bytes that it was told and that are not written yet.
#[derive(Drop)]
pub struct Desk {
    pub(crate) alloc: Global,
    pub(crate) greeting: Greeting,
    pub(crate) owed: VecDeque<Owed>,
    pub(crate) next: Option<Event>,
    pub(crate) out: Vec<u8>,
}

impl Model for Desk {
    ghost use Rattle.cpg_serve.specs.Telling.{DeskValue};

    ghost Value = { DeskValue };

    ghost view = { λ desk. record { greeting = desk.greeting; owed = desk.owed.items; next = desk.next; out = desk.out.items } };
}

impl Desk {
    /// The desk of a client that was told nothing, and is owed nothing.
    pub(crate) fn new(alloc: Global, greeting: Greeting) -> Desk
        ensures { result ≡ new_desk greeting }
    {
        Desk {
            alloc,
            greeting,
            owed: VecDeque::new(alloc),
            next: None,
            out: Vec::new(alloc),
        }
    }

    /// The bytes that are to be written.
    pub(crate) fn output(&self) -> &[u8]
        ensures { result.now ≡ self.now.out }
    {
        self.out.as_slice()
    }

    /// So many of the bytes were written.
    pub(crate) fn wrote(&mut self, count: usize)
        requires { count ≤ length self.old.out }
        ensures { self.new ≡ wrote self.old count }
    {
        drop_front(&mut self.out, count);
    }

    /// Takes so many of the bytes at most, to be written.
    pub(crate) fn write(&mut self, alloc: Global, most: usize) -> Result<Bytes, AllocError>
        ensures front { IfOk result (λ bytes. self.old.out ≡ bytes ++ drop (length bytes) self.old.out) }
        ensures ok { IfOk result (λ bytes. self.new ≡ wrote self.old (length bytes)) }
        ensures all { IfOk result (λ bytes. bytes ≡ take most self.old.out) }
        ensures err { OnErr result (self.new ≡ self.old) }
    {
        let count = at_most(self.out.len(), most);
        let bytes = Bytes::copy_from_slice(alloc, &self.out[..count])?;
        self.wrote(count);
        Ok(bytes)
    }

    /// Tells the client the answer to what it asked.
    pub(crate) fn answer(&mut self, code: AskCode, tag: u16, status: Status) -> Result<(), Refusal>
        ensures ok { OnOk result (self.new ≡ told self.old (Answer code tag status)) }
        ensures err { OnErr result (self.new ≡ self.old) }
        ensures memory { IsOkUnless result Refusal.Memory }
    {
        put_answer(&mut self.out, code, tag, status)
    }

    /// Tells the client where it is.
    pub(crate) fn greet(&mut self, tag: u16, status: Status) -> Result<(), Refusal>
        ensures ok { OnOk result (self.new ≡ told self.old (Greets tag status self.old.greeting)) }
        ensures err { OnErr result (self.new ≡ self.old) }
        ensures memory { IsOkUnless result Refusal.Memory }
    {
        put_greeting(self.alloc, &mut self.out, tag, status, &self.greeting)
    }

    /// Tells the client that its message was denied.
    pub(crate) fn deny(&mut self, status: Status, denial: Denial) -> Result<(), Refusal>
        ensures ok { OnOk result (self.new ≡ told self.old (Denied status denial)) }
        ensures err { OnErr result (self.new ≡ self.old) }
        ensures memory { IsOkUnless result Refusal.Memory }
    {
        put_denied(self.alloc, &mut self.out, status, denial)
    }

    /// Spells the event that was taken, if one was.
    pub(crate) fn spell(&mut self) -> Result<(), Refusal>
        ensures ok { OnOk result (self.new ≡ spelled self.old self.old.next) }
        ensures err { OnErr result (self.new ≡ self.old) }
        ensures memory { IsOkUnless result Refusal.Memory }
    {
        let Some(event) = &self.next else {
            return Ok(());
        };
        let first = self.owed.front().copied();
        put_event(self.alloc, &mut self.out, first, event)?;
        if is_verdict(event) {
            self.owed.pop_front();
        }
        self.next = None;
        Ok(())
    }
}

/// The count, or the most where that is less.
fn at_most(count: usize, most: usize) -> usize
    ensures count { result ≤ count }
    ensures most { (bytes : List ℕ) → length bytes ≡ count → take result bytes ≡ take most bytes }
{
    if most < count { most } else { count }
}

/// The bytes without the first ones.
fn drop_front(bytes: &mut Vec<u8>, count: usize)
    requires { count ≤ length bytes.old.items }
    ensures { bytes.new.items ≡ drop count bytes.old.items }
{
    let left = bytes.len() - count;
    bytes.as_mut_slice().rotate_left(count);
    bytes.truncate(left);
}
