//! The log of each connection, kept beside the records: the places of its own entries, and by which join
//! it is in a group after each. Between two of them its group stays, so the log tells its group at any place.

ghost use Rattle.std.specs.Prelude.{◌≡◌, ◌+◌, ◌≤◌, ◌++◌, ◌∷◌, [], ℕ, List, map, take, length, nat_le, true, false, None, Some, OnOk, OnErr, MatchOption, IsOkUnless};
ghost use Rattle.std.specs.List.{slice_get};
ghost use Rattle.std.specs.List.Sorted.{IsNonDecreasingBy, IsPartitionPoint};
ghost use Rattle.std.specs.Map.{keys_of, lookup};
ghost use Rattle.std.specs.Option.{option_copied};
ghost use Rattle.smallvec.specs.SmallVec.{HasRoomFor};
ghost use Rattle.cpg_record.specs.declared.connections.ConnId.{ConnId};
ghost use Rattle.cpg_record.specs.declared.records.Record.{Record};
ghost use Rattle.cpg_record.specs.Connections.{conn_of, is_conn};
ghost use Rattle.cpg_record.specs.Membership.{group_of};
ghost use Rattle.cpg_record.specs.Nexts.{is_made_by};
ghost use Rattle.cpg_record.specs.Places.{places_of};
ghost use Rattle.cpg_group.specs.Standing.{kept_group, group_past, CanTake};
ghost use Rattle.cpg_group.specs.ConnectionLogs.{kept_log, group_at, join_after, joined_by, AreConnectionLogs, IsConnectionLog, StandsBy};

use crate::places::{Placed, cut_near, find_record};
use crate::standing::Groups;
use cpg_cred::Refusal;
use cpg_entry::{Call, Name, Op};
use cpg_record::{ConnId, Record};
use indexmap::IndexMap;
use smallvec::SmallVec;
use std::alloc::Global;
use std::marker::Model;

/// The place of a connection's own entry, and the place of the join by which the connection is in a group
/// after it: 0 where it is in none.
#[derive(Debug, Clone, Copy, Default)]
pub(crate) struct Stop {
    place: u32,
    join: u32,
}

/// How many stops a log keeps in itself, as most connections make no more entries than that: a longer one
/// has memory of its own.
const KEPT_INSIDE: usize = 4;

/// The stops of a connection, in the order of their places.
pub(crate) type Stops = SmallVec<Stop, KEPT_INSIDE>;

impl Placed for Stop {
    ghost place_of = { λ stop. stop.place };

    fn place(&self) -> u32 {
        self.place
    }
}

/// How many own places the connection of the log has up to the last place, sought from a hint at how many these
/// are.
pub(crate) fn count_own(log: &[Stop], last: usize, hint: usize) -> usize
    ensures { (records : List Record) (conn : ConnId) → IsConnectionLog records conn log.now → result ≡ length (places_of (is_made_by conn) (take last records)) }
{
    cut_near(log, last, hint)
}

/// The own place of that index, from 0, of the connection of the log.
pub(crate) fn own_at(log: &[Stop], index: usize) -> Option<u32>
    ensures { (records : List Record) (conn : ConnId) → IsConnectionLog records conn log.now → result ≡ slice_get (places_of (is_made_by conn) records) index }
{
    match log.get(index) {
        None => None,
        Some(stop) => Some(stop.place),
    }
}

/// The place of the join by which the connection is in a group after the last place up to which it has as many
/// own places, 0 where it is in none.
pub(crate) fn join_past(log: &[Stop], count: usize) -> u32
    ensures early { (records : List Record) (conn : ConnId) (last : ℕ) → IsConnectionLog records conn log.now → count ≡ length (places_of (is_made_by conn) (take last records)) → result ≤ last }
    ensures group { (records : List Record) (conn : ConnId) (last : ℕ) → IsConnectionLog records conn log.now → count ≡ length (places_of (is_made_by conn) (take last records)) → group_at records result ≡ group_of (take last records) conn }
{
    if count == 0 {
        return 0;
    }
    match log.get(count - 1) {
        None => 0,
        Some(stop) => stop.join,
    }
}

/// The place of the join by which the connection is in a group after the last place, 0 where it is in none.
fn join_upto(log: &[Stop], last: usize) -> u32
    ensures early { (records : List Record) (conn : ConnId) → IsConnectionLog records conn log.now → result ≤ last }
    ensures group { (records : List Record) (conn : ConnId) → IsConnectionLog records conn log.now → group_at records result ≡ group_of (take last records) conn }
{
    join_past(log, count_own(log, last, log.len()))
}

/// The place of the join by which the connection is in a group after all records, 0 where it is in none: its
/// last stop has it.
fn join_last(log: &[Stop]) -> u32
    ensures early { (records : List Record) (conn : ConnId) → IsConnectionLog records conn log.now → result ≤ length records }
    ensures group { (records : List Record) (conn : ConnId) → IsConnectionLog records conn log.now → group_at records result ≡ group_of records conn }
{
    match log.last() {
        None => 0,
        Some(stop) => stop.join,
    }
}

/// The group that the record joins, if it joins one.
fn group_joined(past: &Record) -> Option<&Name>
    ensures { option_copied result ≡ joined_by past.now.entry.op }
{
    match &past.entry.op {
        Op::Act(Call::Join(group)) => Some(group),
        _ => None,
    }
}

/// The group that the record at the place joins, if it joins one.
pub(crate) fn find_joined(records: &[Record], place: u32) -> Option<&Name>
    ensures { option_copied result ≡ group_at records.now place }
{
    match find_record(records, place) {
        None => None,
        Some(past) => group_joined(past),
    }
}

/// The group that the connection of the log is in after the last place.
pub(crate) fn find_group<'a>(records: &'a [Record], log: &[Stop], last: usize) -> Option<&'a Name>
    ensures { (conn : ConnId) → IsConnectionLog records.now conn log.now → option_copied result ≡ group_of (take last records.now) conn }
{
    find_joined(records, join_upto(log, last))
}

/// The group that the connection of the log is in after all records.
pub(crate) fn group_now<'a>(records: &'a [Record], log: &[Stop]) -> Option<&'a Name>
    ensures { (conn : ConnId) → IsConnectionLog records.now conn log.now → option_copied result ≡ group_of records.now conn }
{
    find_joined(records, join_last(log))
}

/// The place of the join by which a connection is in a group after its record at the place, where it stood by
/// that one before.
fn next_join(records: &[Record], past: &Record, place: u32, standing: u32) -> u32
    ensures { result ≡ join_after past.now place (group_at records.now standing) standing }
{
    if !past.verdict.is_allowed() {
        return standing;
    }
    match &past.entry.op {
        Op::Act(Call::Join(_)) => match find_joined(records, standing) {
            None => place,
            Some(_) => standing,
        },
        Op::Act(Call::Leave) | Op::Gone => 0,
        _ => standing,
    }
}

/// The stop of the record that comes next, at that place, on the log of its connection.
pub(crate) fn stop_of(records: &[Record], log: &[Stop], place: u32, next: &Record) -> Stop
    requires next { place ≡ length records.now + 1 }
    requires log { IsConnectionLog records.now (conn_of next.now.entry) log.now }
    ensures place { result.place ≡ place }
    ensures join { StandsBy (records.now ++ next.now ∷ []) (conn_of next.now.entry) result }
{
    let standing = join_last(log);
    let join = next_join(records, next, place, standing);
    Stop { place, join }
}

/// Makes room for one more stop. Memory is asked for only where the log has no room left.
#[inline(always)]
pub(crate) fn make_room(log: &mut Stops) -> Result<(), Refusal>
    ensures items { log.new.items ≡ log.old.items }
    ensures room { OnOk result (HasRoomFor log.new 1) }
    ensures memory { IsOkUnless result Refusal.Memory }
{
    if log.len() < log.capacity() {
        return Ok(());
    }
    log.reserve(1)?;
    Ok(())
}

/// Puts the record's stop at the end of its connection's log, and brings the groups past the record. The log
/// grows first, and then the groups, so that a refusal changes neither.
fn lengthen(
    log: &mut Stops,
    groups: &mut Groups,
    records: &[Record],
    place: u32,
    next: &Record,
) -> Result<(), Refusal>
    requires can { (g : List ℕ) → CanTake g (kept_group groups.old g) (place, next.now) }
    requires place { place ≡ length records.now + 1 }
    requires log { IsConnectionLog records.now (conn_of next.now.entry) log.old.items }
    ensures ok { OnOk result ((g : List ℕ) → kept_group groups.new g ≡ group_past g (kept_group groups.old g) (place, next.now)) }
    ensures err { OnErr result ((g : List ℕ) → kept_group groups.new g ≡ kept_group groups.old g) }
    ensures longer { OnOk result (IsConnectionLog (records.now ++ next.now ∷ []) (conn_of next.now.entry) log.new.items) }
    ensures same { OnErr result (log.new.items ≡ log.old.items) }
    ensures memory { IsOkUnless result Refusal.Memory }
{
    make_room(log)?;
    groups.take_in(place, next)?;
    let stop = stop_of(records, log.as_slice(), place, next);
    log.push_reserved(stop);
    Ok(())
}

/// What a connection did, looked up once: its own places and its groups. Contracts see it as the records and
/// the connection.
#[derive(Drop)]
pub struct ConnectionLog<'a> {
    records: &'a [Record],
    conn: ConnId,
    stops: &'a [Stop],
}

impl<'a> Model for ConnectionLog<'a> {
    ghost use Rattle.cpg_group.specs.ConnectionLogs.{IsConnectionLog, ConnectionLogValue};

    ghost Value = { ConnectionLogValue };

    ghost view = { λ log. record { records = log.records.now; conn = log.conn } };

    ghost invariant = { λ log. IsConnectionLog log.records.now log.conn log.stops.now };
}

impl<'a> ConnectionLog<'a> {
    /// The log of the connection by its stops.
    pub(crate) fn of(records: &'a [Record], conn: ConnId, stops: &'a [Stop]) -> ConnectionLog<'a>
        requires { IsConnectionLog records.now conn stops.now }
        ensures { result ≡ record { records = records.now; conn = conn } }
    {
        ConnectionLog {
            records,
            conn,
            stops,
        }
    }

    /// The own place of that index, from 0. Takes no memory.
    pub fn own(&self, index: usize) -> Option<u32>
        ensures { result ≡ slice_get (places_of (is_made_by self.now.conn) self.now.records) index }
    {
        own_at(self.stops, index)
    }

    /// The group that the connection is in after its first own places, as many as are counted. Takes no memory.
    pub fn group_past(&self, count: usize) -> Option<&'a Name>
        ensures { (last : ℕ) → last ≤ length self.now.records → count ≡ length (places_of (is_made_by self.now.conn) (take last self.now.records)) → option_copied result ≡ group_of (take last self.now.records) self.now.conn }
    {
        find_joined(self.records, join_past(self.stops, count))
    }

    /// The group that the connection is in after the last place. Takes no memory, and searches by halving.
    pub fn group_after(&self, last: u32) -> Option<&'a Name>
        ensures { option_copied result ≡ group_of (take last self.now.records) self.now.conn }
    {
        find_group(self.records, self.stops, last as usize)
    }
}

/// The logs of all connections that made an entry.
#[derive(Drop)]
pub(crate) struct ConnectionLogs {
    pub(crate) kept: IndexMap<ConnId, Stops>,
    // Where the log of the entry before is kept. It is believed only where that log is of the wanted
    // connection.
    pub(crate) last: usize,
}

impl ConnectionLogs {
    /// No logs.
    pub(crate) fn new(alloc: Global) -> ConnectionLogs
        ensures logs { (conn : ConnId) → kept_log result.kept.entries conn ≡ [] }
        ensures conns { keys_of result.kept.entries ≡ [] }
    {
        ConnectionLogs {
            kept: IndexMap::new(alloc),
            last: 0,
        }
    }

    /// The connections, in the order of their first entries.
    pub(crate) fn conns(&self) -> &[ConnId]
        ensures { result.now ≡ keys_of self.now.kept.entries }
    {
        self.kept.keys().as_slice()
    }

    /// The log of a connection.
    pub(crate) fn of(&self, conn: &ConnId) -> &[Stop]
        ensures { result.now ≡ kept_log self.now.kept.entries conn.now }
    {
        self.find(conn).0
    }

    /// The log of a connection, and at which index it is kept: looked for first where the hint says.
    #[inline(always)]
    pub(crate) fn of_near(&self, conn: &ConnId, hint: usize) -> (&[Stop], usize)
        ensures { result.0.now ≡ kept_log self.now.kept.entries conn.now }
    {
        match self.kept.get_index(hint) {
            Some((kept, log)) if *kept == *conn => (log.as_slice(), hint),
            _ => self.find(conn),
        }
    }

    /// The log of a connection, and at which index it is kept.
    fn find(&self, conn: &ConnId) -> (&[Stop], usize)
        ensures { result.0.now ≡ kept_log self.now.kept.entries conn.now }
    {
        match self.kept.get_full(conn) {
            Some((index, _, log)) => (log.as_slice(), index),
            None => (&[], 0),
        }
    }

    /// The index at which the log of a connection is kept. The log of the entry before is looked at first,
    /// as many entries are of the same connection as that one, and then no connection is hashed.
    #[inline(always)]
    pub(crate) fn index_of(&self, conn: &ConnId) -> Option<usize>
        ensures { MatchOption result (lookup (is_conn conn.now) self.now.kept.entries ≡ None) (λ index. slice_get (keys_of self.now.kept.entries) index ≡ Some conn.now) }
    {
        match self.kept.get_index(self.last) {
            Some((kept, _)) if *kept == *conn => Some(self.last),
            _ => match self.kept.get_full(conn) {
                Some((index, _, _)) => Some(index),
                None => None,
            },
        }
    }

    /// Keeps a log of the record's connection, which has none, with the record's stop, and brings the groups
    /// past the record. All that takes memory comes before the first change.
    fn add(
        &mut self,
        groups: &mut Groups,
        records: &[Record],
        place: u32,
        next: &Record,
    ) -> Result<(), Refusal>
        requires absent { lookup (is_conn (conn_of next.now.entry)) self.old.kept.entries ≡ None }
        requires can { (g : List ℕ) → CanTake g (kept_group groups.old g) (place, next.now) }
        requires place { place ≡ length records.now + 1 }
        requires logs { AreConnectionLogs self.old.kept.entries records.now }
        ensures ok { OnOk result ((g : List ℕ) → kept_group groups.new g ≡ group_past g (kept_group groups.old g) (place, next.now)) }
        ensures err { OnErr result ((g : List ℕ) → kept_group groups.new g ≡ kept_group groups.old g) }
        ensures longer { OnOk result (AreConnectionLogs self.new.kept.entries (records.now ++ next.now ∷ [])) }
        ensures same { OnErr result (AreConnectionLogs self.new.kept.entries records.now) }
        ensures memory { IsOkUnless result Refusal.Memory }
    {
        self.kept.reserve(1)?;
        let mut log = Stops::new(*self.kept.allocator());
        lengthen(&mut log, groups, records, place, next)?;
        self.last = self.kept.len();
        self.kept.insert(ConnId::of(&next.entry), log)?;
        Ok(())
    }

    /// Puts the record's stop at the end of its connection's log, and brings the groups past the record. A
    /// refusal changes no log and no group.
    pub(crate) fn take_in(
        &mut self,
        groups: &mut Groups,
        records: &[Record],
        place: u32,
        next: &Record,
    ) -> Result<(), Refusal>
        requires can { (g : List ℕ) → CanTake g (kept_group groups.old g) (place, next.now) }
        requires place { place ≡ length records.now + 1 }
        requires logs { AreConnectionLogs self.old.kept.entries records.now }
        ensures ok { OnOk result ((g : List ℕ) → kept_group groups.new g ≡ group_past g (kept_group groups.old g) (place, next.now)) }
        ensures err { OnErr result ((g : List ℕ) → kept_group groups.new g ≡ kept_group groups.old g) }
        ensures longer { OnOk result (AreConnectionLogs self.new.kept.entries (records.now ++ next.now ∷ [])) }
        ensures same { OnErr result (AreConnectionLogs self.new.kept.entries records.now) }
        ensures memory { IsOkUnless result Refusal.Memory }
    {
        match self.index_of(&ConnId::of(&next.entry)) {
            Some(index) => {
                self.last = index;
                let (_, log) = self.kept.pair_mut(index);
                lengthen(log, groups, records, place, next)
            }
            None => self.add(groups, records, place, next),
        }
    }
}
