//! The judged entries, and what they come to.

ghost use Rattle.std.specs.Prelude.{◌≡◌, ◌≢◌, ◌<◌, ◌≤◌, ◌++◌, ◌∷◌, [], None, length, OnOk, OnErr, IfOk, IfErr, IfSome, MatchOption, IsOkUnless};
ghost use Rattle.cpg_entry.specs.declared.calls.Op.TheVariants.{Gone};
ghost use Rattle.cpg_record.specs.Connections.{conn_of, conns_of};
ghost use Rattle.cpg_record.specs.Events.{events};
ghost use Rattle.cpg_record.specs.Judging.{judged, most_places, record_of, IsNext};
ghost use Rattle.cpg_record.specs.Listings.{AnswersListing, AreGroups, listing};
ghost use Rattle.cpg_record.specs.Membership.{group_of};
ghost use Rattle.cpg_record.specs.Nexts.{acts_in, IsNextTold, TellsNoMore};
ghost use Rattle.cpg_record.specs.Places.{places_of};
ghost use Rattle.cpg_record.specs.RuleTables.{rules_of};
ghost use Rattle.cpg_group.specs.Telling.{told};

use crate::heard::Heard;
use crate::listing::{self, Names, Processes};
use crate::logs::{ConnectionLog, ConnectionLogs};
use crate::nexts::Hint;
use crate::standing::Groups;
use crate::{entering, judging, nexts, telling, told};
use cpg_cred::{Refusal, Refused};
use cpg_entry::{Entry, Name, reserve_ahead};
use cpg_record::{ConnId, Event, Events, Record};
use cpg_rules::{Asker, Table};
use std::alloc::Global;
use std::fmt;
use std::marker::Model;

/// The entries judged so far, in order, each with its record. Contracts see it as the list of entries.
#[derive(Drop)]
pub struct Policy {
    records: Vec<Record>,
    groups: Groups,
    logs: ConnectionLogs,
}

impl fmt::Debug for Policy {
    fn fmt<W: fmt::Write>(&self, f: &mut fmt::Formatter<W>) -> fmt::Result {
        f.debug_list().slice(self.records.as_slice()).finish()
    }
}

impl Model for Policy {
    ghost use Rattle.std.specs.Prelude.{List};
    ghost use Rattle.cpg_entry.specs.declared.entries.Entry.{Entry};
    ghost use Rattle.cpg_record.specs.Judging.{entries_of, AreRecords};
    ghost use Rattle.cpg_group.specs.Standing.{AreStanding};
    ghost use Rattle.cpg_group.specs.ConnectionLogs.{AreConnectionLogs};

    ghost Value = { List Entry };

    ghost view = { λ policy. entries_of policy.records.items };

    ghost invariant = { λ policy. AreRecords policy.records.items × AreStanding policy.groups policy.records.items × AreConnectionLogs policy.logs.kept.entries policy.records.items };
}

impl Policy {
    /// A policy that has judged nothing.
    pub fn new(alloc: Global) -> Policy
        ensures { result ≡ [] }
    {
        Policy {
            records: Vec::new(alloc),
            groups: Groups::new(alloc),
            logs: ConnectionLogs::new(alloc),
        }
    }

    /// The record that the entry would have as the next one.
    pub fn judge(&self, entry: &Entry) -> Result<Record, Refusal>
        requires { length self.now < most_places }
        ensures ok { IfOk result (λ next. next ≡ record_of (judged self.now) entry.now) }
        ensures memory { IsOkUnless result Refusal.Memory }

        // The end of a connection that is in no group takes no memory.
        ensures gone { OnErr result (entry.now.op ≡ Gone → group_of (judged self.now) (conn_of entry.now) ≢ None) }
    {
        judging::judge(
            *self.records.allocator(),
            self.records.as_slice(),
            &self.groups,
            self.logs.of(&ConnId::of(entry)),
            entry,
        )
    }

    /// Puts the entry of a record last, where the record is its judgement here (what `judge` gives). A
    /// refusal changes nothing and gives the record back.
    #[inline(always)]
    pub fn apply(&mut self, next: Record) -> Result<(), Refused<Record>>
        requires { IsNext self.old next }
        ensures ok { OnOk result (self.new ≡ self.old ++ next.entry ∷ []) }
        ensures unchanged { OnErr result (self.new ≡ self.old) }
        ensures err { IfErr result (λ refused. refused ≡ record { refusal = Refusal.Memory; back = next }) }
    {
        if reserve_ahead(&mut self.records, 1).is_err() {
            return Err(Refused {
                refusal: Refusal::Memory,
                back: next,
            });
        }
        let place = self.records.len() as u32 + 1;
        let records = self.records.as_slice();
        match self.logs.take_in(&mut self.groups, records, place, &next) {
            Ok(()) => {
                self.records.push_reserved(next);
                Ok(())
            }
            Err(refusal) => Err(Refused {
                refusal,
                back: next,
            }),
        }
    }

    /// Judges the entry and puts it last, with its record. A refusal changes nothing and gives the entry back.
    #[inline(always)]
    pub fn enter(&mut self, entry: Entry) -> Result<(), Refused<Entry>>
        requires { length self.old < most_places }
        ensures ok { OnOk result (self.new ≡ self.old ++ entry ∷ []) }
        ensures unchanged { OnErr result (self.new ≡ self.old) }
        ensures err { IfErr result (λ refused. refused ≡ record { refusal = Refusal.Memory; back = entry }) }
    {
        if reserve_ahead(&mut self.records, 1).is_err() {
            return Err(Refused {
                refusal: Refusal::Memory,
                back: entry,
            });
        }
        let mut past = judging::draft_of(*self.records.allocator(), entry);
        let place = self.records.len() as u32 + 1;
        let records = self.records.as_slice();
        match entering::enter(&mut self.logs, &mut self.groups, records, place, &mut past) {
            Ok(()) => {
                self.records.push_reserved(past);
                Ok(())
            }
            Err(refusal) => Err(Refused {
                refusal,
                back: past.entry,
            }),
        }
    }

    /// How many entries were judged, at most 1,048,576.
    pub fn len(&self) -> usize
        ensures value { result ≡ length self.now }
        ensures most { result ≤ most_places }
    {
        self.records.len()
    }

    /// The records, the first of which stands at place 1.
    pub fn records(&self) -> &[Record]
        ensures { result.now ≡ judged self.now }
    {
        self.records.as_slice()
    }

    /// Its records, for who frees them piece by piece; all else of it is freed.
    pub fn into_records(self) -> Vec<Record>
        ensures { result.items ≡ judged self }
    {
        self.records
    }

    /// The connections of the entries, each once, in the order of their first entries.
    pub fn connections(&self) -> &[ConnId]
        ensures { result.now ≡ conns_of self.now }
    {
        self.logs.conns()
    }

    /// The node and the pid of each member of a group, in the order of their joins, where the asker may
    /// list it: else `Denied` by the rule, before any memory is asked for. A name that no group has gives
    /// nobody.
    pub fn members(&self, group: &[u8], asker: Asker) -> Result<Processes, Refusal>
        ensures { AnswersListing (listing (judged self.now) asker group.now) result }
    {
        listing::list_members(
            *self.records.allocator(),
            self.records.as_slice(),
            self.groups.of(group),
            group,
            &asker,
        )
    }

    /// The names of the groups with members that the asker may list, in the order of their bytes. Memory is
    /// asked for only where there is one.
    pub fn groups(&self, asker: Asker) -> Result<Names, Refusal>
        ensures ok { IfOk result (λ names. AreGroups (judged self.now) asker names) }
        ensures memory { IsOkUnless result Refusal.Memory }
        ensures some { OnErr result (¬ AreGroups (judged self.now) asker []) }
    {
        listing::list_groups(
            *self.records.allocator(),
            self.records.as_slice(),
            &self.groups,
            &asker,
        )
    }

    /// A group's current table, where it is not empty. Takes no memory.
    pub fn table(&self, group: &[u8]) -> Option<&Table>
        ensures { MatchOption result (rules_of (judged self.now) group.now ≡ []) (λ table. (table.now ≡ rules_of (judged self.now) group.now) × (table.now ≢ [])) }
    {
        let table = self.groups.of(group).table();
        if table.is_empty() { None } else { Some(table) }
    }

    /// What a judged place, from 1, tells a connection. Memory is asked for only where it tells something.
    pub fn events_at(&self, place: u32, conn: ConnId) -> Result<Events, Refusal>
        requires { (1 ≤ place) × (place ≤ length self.now) }
        ensures ok { IfOk result (λ list. list ≡ events (judged self.now) place conn) }
        ensures memory { IsOkUnless result Refusal.Memory }
        ensures told { OnErr result (events (judged self.now) place conn ≢ []) }
    {
        telling::collect_events(
            *self.records.allocator(),
            self.records.as_slice(),
            &self.groups,
            self.logs.of(&conn),
            place,
            &conn,
        )
    }

    /// How many events a judged place, from 1, has for a connection. Takes no memory.
    pub fn count_at(&self, place: u32, conn: ConnId) -> usize
        requires { (1 ≤ place) × (place ≤ length self.now) }
        ensures { result ≡ length (events (judged self.now) place conn) }
    {
        telling::count_events(self.records.as_slice(), self.logs.of(&conn), place, &conn)
    }

    /// The least judged place above `after` that tells the connection anything, if there is one, looked up once
    /// for all that is asked of it. Takes no memory. It is sought first where the hint says, which an earlier
    /// search gave, else by halving.
    #[inline(always)]
    pub fn next_heard(&self, after: u32, conn: ConnId, hint: Hint) -> Option<Heard<'_>>
        ensures next { MatchOption result (TellsNoMore (judged self.now) after conn) (λ heard. IsNextTold (judged self.now) after conn heard.place) }
        ensures value { IfSome result (λ heard. heard ≡ record { records = judged self.now; conn = conn; place = heard.place }) }
    {
        let records = self.records.as_slice();
        let (log, at) = self.logs.of_near(&conn, hint.log);
        let hint = Hint { log: at, ..hint };
        match nexts::find_next(records, &self.groups, log, &conn, after as usize, hint) {
            None => None,
            Some(next) => Some(Heard::of(records, &self.groups, conn, next)),
        }
    }

    /// The least judged place above `after` that tells the connection anything, if there is one. Takes no
    /// memory, and searches by halving.
    pub fn next_event(&self, after: u32, conn: ConnId) -> Option<u32>
        ensures { MatchOption result (TellsNoMore (judged self.now) after conn) (IsNextTold (judged self.now) after conn) }
    {
        let records = self.records.as_slice();
        let log = self.logs.of(&conn);
        let hint = Hint::default();
        match nexts::find_next(records, &self.groups, log, &conn, after as usize, hint) {
            None => None,
            Some(next) => Some(next.place),
        }
    }

    /// What a judged place, from 1, tells each of those of its group who are told of it; the verdict is told
    /// to the maker alone.
    pub fn told_at(&self, place: u32) -> Result<Option<Event>, Refusal>
        requires { (1 ≤ place) × (place ≤ length self.now) }
        ensures ok { IfOk result (λ event. event ≡ told (judged self.now) place) }
        ensures memory { IsOkUnless result Refusal.Memory }
    {
        told::collect_told(
            *self.records.allocator(),
            self.records.as_slice(),
            &self.groups,
            place,
        )
    }

    /// The log of the connection, looked up once for all that is asked of it. Takes no memory.
    pub fn log(&self, conn: ConnId) -> ConnectionLog<'_>
        ensures { result ≡ record { records = judged self.now; conn = conn } }
    {
        ConnectionLog::of(self.records.as_slice(), conn, self.logs.of(&conn))
    }

    /// The ascending places of the allowed entries of the group. Takes no memory.
    pub fn places_in(&self, group: &[u8]) -> &[u32]
        ensures { result.now ≡ places_of (acts_in group.now) (judged self.now) }
    {
        self.groups.of(group).places()
    }
}
