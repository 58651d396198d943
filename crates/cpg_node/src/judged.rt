//! The judged entries of a node, with its connections' cursors.

ghost use Rattle.std.specs.Prelude.{◌≡◌, ◌≤◌, ◌<◌, ◌++◌, ◌∷◌, [], length, IsSome, OnOk, OnErr, IfOk, IfErr, IsOkUnless};
ghost use Rattle.std.specs.List.{slice_get};
ghost use Rattle.cpg_record.specs.Events.{inbox};
ghost use Rattle.cpg_record.specs.Judging.{judged, most_places, IsNext};
ghost use Rattle.cpg_node.specs.Cursors.{IsCursor};

use crate::cursors::Cursor;
use crate::inboxes::{event_of, seek};
use cpg_cred::{Refusal, Refused};
use cpg_entry::Entry;
use cpg_group::{Event, Policy, Record};
use cpg_record::ConnId;
use std::alloc::Global;
use std::marker::Model;

/// The judged entries, and up to where the inboxes of the node's connections were looked through, the first
/// connection's first. Contracts see it as the list of entries.
#[derive(Debug, Drop)]
pub(crate) struct Judged {
    policy: Policy,
    cursors: Vec<Cursor>,
}

impl Model for Judged {
    ghost use Rattle.std.specs.Prelude.{◌≤◌, List, All, length};
    ghost use Rattle.cpg_entry.specs.declared.entries.Entry.{Entry};
    ghost use Rattle.cpg_record.specs.Judging.{judged, most_places};
    ghost use Rattle.cpg_node.specs.Cursors.{IsCursor};

    ghost Value = { List Entry };

    ghost view = { λ all. all.policy };

    ghost invariant = { λ all. (length all.policy ≤ most_places) × All (IsCursor (judged all.policy)) all.cursors.items };
}

impl Judged {
    /// No entry, and no connection.
    pub fn new(alloc: Global) -> Judged
        ensures { result ≡ [] }
    {
        Judged {
            policy: Policy::new(alloc),
            cursors: Vec::new(alloc),
        }
    }

    /// The policy that judged the entries.
    pub fn policy(&self) -> &Policy
        ensures { result.now ≡ self.now }
    {
        &self.policy
    }

    /// The records, for who frees them piece by piece.
    pub fn into_records(self) -> Vec<Record>
        ensures { result.items ≡ judged self }
    {
        self.policy.into_records()
    }

    /// Puts the entry of a record last, where the record is its judgement here. A refusal changes nothing and
    /// gives the record back.
    pub fn apply(&mut self, next: Record) -> Result<(), Refused<Record>>
        requires { IsNext self.old next }
        ensures ok { OnOk result (self.new ≡ self.old ++ next.entry ∷ []) }
        ensures unchanged { OnErr result (self.new ≡ self.old) }
        ensures err { IfErr result (λ refused. refused ≡ record { refusal = Refusal.Memory; back = next }) }
    {
        self.policy.apply(next)
    }

    /// Judges the entry and puts it last. A refusal changes nothing and gives the entry back.
    pub fn enter(&mut self, entry: Entry) -> Result<(), Refused<Entry>>
        requires { length self.old < most_places }
        ensures ok { OnOk result (self.new ≡ self.old ++ entry ∷ []) }
        ensures unchanged { OnErr result (self.new ≡ self.old) }
        ensures err { IfErr result (λ refused. refused ≡ record { refusal = Refusal.Memory; back = entry }) }
    {
        self.policy.enter(entry)
    }

    /// Makes a cursor for a new connection.
    pub fn add(&mut self, conn: ConnId) -> Result<(), Refusal>
        ensures same { self.new ≡ self.old }
        ensures memory { IsOkUnless result Refusal.Memory }
    {
        self.cursors.push(Cursor::start(conn))?;
        Ok(())
    }

    /// Where to seek item `index` of the connection's inbox from.
    fn cursor_for(&self, conn: ConnId, index: usize) -> Cursor
        requires { 1 ≤ conn.conn }
        ensures right { IsCursor (judged self.now) result }
        ensures conn { result.conn ≡ conn }
        ensures before { result.told ≤ index }
    {
        match self.cursors.get(usize::from(conn.conn) - 1) {
            Some(cursor) if cursor.conn == conn && cursor.told <= index => *cursor,
            _ => Cursor::start(conn),
        }
    }

    /// Keeps the cursor of its connection.
    fn keep(&mut self, cursor: Cursor)
        requires number { 1 ≤ cursor.conn.conn }
        requires right { IsCursor (judged self.old) cursor }
        ensures { self.new ≡ self.old }
    {
        let at = usize::from(cursor.conn.conn) - 1;
        if at < self.cursors.len() {
            self.cursors[at] = cursor;
        }
    }

    /// Item `index` of the connection's inbox, counted from 0, if there is one.
    pub fn event_of(
        &mut self,
        alloc: Global,
        conn: ConnId,
        index: usize,
    ) -> Result<Option<Event>, Refusal>
        requires { 1 ≤ conn.conn }
        ensures same { self.new ≡ self.old }
        ensures ok { IfOk result (λ event. event ≡ slice_get (inbox (judged self.old) conn) index) }
        ensures few { IfOk result (λ event. IsSome event → index < 2097152) }
        ensures memory { IsOkUnless result Refusal.Memory }
        ensures some { OnErr result (IsSome (slice_get (inbox (judged self.old) conn) index)) }
    {
        let from = self.cursor_for(conn, index);
        let (found, cursor) = seek(&self.policy, from, index);
        let event = event_of(alloc, found);
        if event.is_ok() {
            self.keep(cursor);
        }
        event
    }
}
