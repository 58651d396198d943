//! A script of entries is read and checked whole, and what is asked of it is told.
//!
//! Proved: what is found, and that a text which tells it is written; and what each fault leaves.

ghost use Rattle.std.specs.Prelude.{◌≡◌, ◌≤◌, Ok, Some, length, OnOk, IfOk, IfErr, IfSome};
ghost use Rattle.std.specs.List.{list_any};
ghost use Rattle.cpg_record.specs.Connections.{is_conn};
ghost use Rattle.cpg_record.specs.Judging.{judged, most_places};
ghost use Rattle.cpg_judge.specs.Scripts.{entries_of_script};
ghost use Rattle.cpg_why.specs.Findings.{event_place};
ghost use Rattle.cpg_why.specs.Forms.{IsText};
ghost use Rattle.cpg_why.specs.Scripts.{numbers_of, place_asked, CanTell, EndsWhy, IsFound, IsTold, IsWritten, Leaves, Stands, StandsIfAsked, TellsNot};

use crate::asking::{Asked, Missing, WhyFault};
use crate::findings::Findings;
use crate::forms::{Cited, Tells};
use crate::inboxes::{find_told, stands};
use crate::processes::{has_process, stand_process};
use crate::scripts::read_entries;
use crate::standings::{Spot, stand_at};
use crate::walk::{find_denials, find_why, pass_all};
use crate::way::find_way;
use cpg_cluster::read_numbers;
use cpg_entry::Entry;
use cpg_group::Policy;
use cpg_record::ConnId;
use cpg_text::{MOST_BYTES, read_whole, write_whole};
use std::alloc::Global;
use std::io::{Read, Write};

/// Judges the entries of a script, and writes what is asked of them in a form.
///
/// The faults come in this order: `Read`, then `BadCommand` with the first bad line, then that what is asked of
/// is not there, with how many entries or events there are; `Memory` may come at any time; all with nothing written.
/// Last is `Write`, which leaves a front of the text.
pub fn why_script<F: Tells, R: Read, W: Write>(
    alloc: Global,
    reader: &mut R,
    writer: &mut W,
    asked: Asked,
) -> Result<(), WhyFault>
    ensures ok { OnOk result (IfSome (R.remaining reader.old) (λ script.
        (length script ≤ MOST_BYTES) × IsWritten F.form (entries_of_script script) (numbers_of script) asked (W.contents writer.old) (W.contents writer.new))) }
    ensures err { IfErr result (λ fault. IfSome (R.remaining reader.old) (λ script.
        Leaves F.form (entries_of_script script) (numbers_of script) asked fault (W.contents writer.old) (W.contents writer.new))) }

    // Nothing is written before the text is whole, even where the reader tells no bytes.
    ensures ends { IfErr result (λ fault. EndsWhy asked fault (W.contents writer.old) (W.contents writer.new)) }
{
    let script = read_whole(alloc, reader)?;
    let text = tell::<F>(alloc, script.as_slice(), asked)?;
    write_whole(writer, text.as_slice())?;
    Ok(())
}

/// What is told of a script.
fn tell<F: Tells>(alloc: Global, script: &[u8], asked: Asked) -> Result<Vec<u8>, WhyFault>
    requires { length script.now ≤ MOST_BYTES }
    ensures ok { IfOk result (λ text. IsTold F.form (entries_of_script script.now) (numbers_of script.now) asked text.items) }
    ensures err { IfErr result (TellsNot (entries_of_script script.now) asked) }
{
    let entries = read_entries(alloc, script)?;
    let numbers = read_numbers(alloc, script)?;
    tell_entries::<F>(alloc, numbers.as_slice(), entries.as_slice(), asked)
}

/// What is told of entries whose lines have those numbers.
pub(crate) fn tell_entries<F: Tells>(
    alloc: Global,
    numbers: &[u32],
    entries: &[Entry],
    asked: Asked,
) -> Result<Vec<u8>, WhyFault>
    requires { length entries.now ≤ most_places }
    ensures ok { IfOk result (λ text. CanTell asked entries.now × IsText F.form numbers.now entries.now asked text.items) }
    ensures err { IfErr result (TellsNot (Ok entries.now) asked) }
{
    let found = find(alloc, entries, asked)?;
    let cited = Cited {
        numbers,
        records: found.records.as_slice(),
    };
    match F::text_of(alloc, &cited, found.list.as_slice()) {
        Ok(text) => Ok(text),
        Err(refusal) => Err(WhyFault::from(refusal)),
    }
}

/// What is found of what is asked of entries, and the records that it speaks of. Where what is asked of is not there, that
/// is told, with how many entries or events there are.
pub fn find(alloc: Global, entries: &[Entry], asked: Asked) -> Result<Findings, WhyFault>
    requires { length entries.now ≤ most_places }
    ensures ok { IfOk result (λ found. IsFound entries.now asked found.records.items found.list.items) }
    ensures err { IfErr result (TellsNot (Ok entries.now) asked) }
{
    match check_place(entries, &asked) {
        Ok(()) => find_there(alloc, entries, asked),
        Err(fault) => Err(fault),
    }
}

/// The place that is asked of, if one is.
fn place_asked(asked: &Asked) -> Option<u32>
    ensures { result ≡ place_asked asked.now }
{
    match asked {
        Asked::Place(place) => Some(*place),
        Asked::To(place, _) => Some(*place),
        Asked::ToProcess(place, _) => Some(*place),
        _ => None,
    }
}

/// That an entry stands at the place that is asked of, where one is; else how many there are.
#[tactic(auto, using(crate::proofs::Counted::nowhere_asked, crate::proofs::Counted::there_asked))]
fn check_place(entries: &[Entry], asked: &Asked) -> Result<(), WhyFault>
    requires { length entries.now ≤ most_places }
    ensures ok { OnOk result (StandsIfAsked asked.now (length entries.now)) }
    ensures err { IfErr result (TellsNot (Ok entries.now) asked.now) }
{
    match place_asked(asked) {
        None => Ok(()),
        Some(place) => {
            let count = entries.len() as u32;
            if stands(place, count) {
                return Ok(());
            }
            Err(WhyFault::Missing(Missing::Entry {
                place,
                entries: count,
            }))
        }
    }
}

/// The same where an entry stands at the place that is asked of, if one is.
fn find_there(alloc: Global, entries: &[Entry], asked: Asked) -> Result<Findings, WhyFault>
    requires few { length entries.now ≤ most_places }
    requires place { StandsIfAsked asked (length entries.now) }
    ensures ok { IfOk result (λ found. IsFound entries.now asked found.records.items found.list.items) }
    ensures err { IfErr result (TellsNot (Ok entries.now) asked) }
{
    match asked {
        Asked::Place(place) => find_place(alloc, entries, place),
        Asked::Denials => find_all(alloc, entries),
        Asked::Connection(conn) => find_conn(alloc, entries, &conn),
        Asked::To(place, conn) => find_stand(alloc, entries, &conn, place),
        Asked::ToProcess(place, pid) => find_process(alloc, entries, pid, place),
        Asked::Told(conn, event) => find_event(alloc, entries, &conn, event),
    }
}

/// Why the entry of a place was answered as it was.
fn find_place(alloc: Global, entries: &[Entry], place: u32) -> Result<Findings, WhyFault>
    requires few { length entries.now ≤ most_places }
    requires place { Stands place (length entries.now) }
    ensures ok { IfOk result (λ found. IsFound entries.now (Asked.Place place) found.records.items found.list.items) }
    ensures err { IfErr result (TellsNot (Ok entries.now) (Asked.Place place)) }
{
    let found = find_why(alloc, entries, place as usize - 1)?;
    Ok(found)
}

/// Why each denied entry was answered as it was.
fn find_all(alloc: Global, entries: &[Entry]) -> Result<Findings, WhyFault>
    requires { length entries.now ≤ most_places }
    ensures ok { IfOk result (λ found. IsFound entries.now Asked.Denials found.records.items found.list.items) }
    ensures err { IfErr result (TellsNot (Ok entries.now) Asked.Denials) }
{
    let found = find_denials(alloc, entries)?;
    Ok(found)
}

/// The way of a connection.
fn find_conn(alloc: Global, entries: &[Entry], conn: &ConnId) -> Result<Findings, WhyFault>
    requires { length entries.now ≤ most_places }
    ensures ok { IfOk result (λ found. IsFound entries.now (Asked.Connection conn.now) found.records.items found.list.items) }
    ensures err { IfErr result (TellsNot (Ok entries.now) (Asked.Connection conn.now)) }
{
    let walk = pass_all(alloc, entries)?;
    match check_conn(&walk.policy, conn) {
        Ok(()) => {}
        Err(fault) => return Err(fault),
    }
    let mut list = Vec::new(alloc);
    match find_way(&mut list, &walk.policy, conn) {
        Ok(()) => Ok(walk.found(list)),
        Err(refusal) => Err(WhyFault::from(refusal)),
    }
}

/// That the connection made one of the judged entries; else how many connections made one.
fn check_conn(policy: &Policy, conn: &ConnId) -> Result<(), WhyFault>
    requires { length policy.now ≤ most_places }
    ensures ok { OnOk result (CanTell (Asked.Connection conn.now) policy.now) }
    ensures err { IfErr result (TellsNot (Ok policy.now) (Asked.Connection conn.now)) }
{
    let conns = policy.connections();
    if has_conn(conns, conn) {
        return Ok(());
    }
    Err(WhyFault::Missing(Missing::Connection {
        conn: *conn,
        conns: conns.len() as u32,
    }))
}

/// Whether the connection is among them.
fn has_conn(conns: &[ConnId], conn: &ConnId) -> bool
    ensures { result ≡ list_any (is_conn conn.now) conns.now }
{
    conns.iter().any(|other| conn.is(other))
}

/// How the connection stands to the entry of a place, and what it is told there.
fn find_stand(
    alloc: Global,
    entries: &[Entry],
    conn: &ConnId,
    place: u32,
) -> Result<Findings, WhyFault>
    requires few { length entries.now ≤ most_places }
    requires place { Stands place (length entries.now) }
    ensures ok { IfOk result (λ found. IsFound entries.now (Asked.To place conn.now) found.records.items found.list.items) }
    ensures err { IfErr result (TellsNot (Ok entries.now) (Asked.To place conn.now)) }
{
    let walk = pass_all(alloc, entries)?;
    let mut list = Vec::new(alloc);
    let spot = Spot {
        policy: &walk.policy,
        conn,
        place,
    };
    match stand_at(&mut list, &spot) {
        Ok(()) => Ok(walk.found(list)),
        Err(refusal) => Err(WhyFault::from(refusal)),
    }
}

/// The same of each connection of the process.
fn find_process(
    alloc: Global,
    entries: &[Entry],
    pid: u32,
    place: u32,
) -> Result<Findings, WhyFault>
    requires few { length entries.now ≤ most_places }
    requires place { Stands place (length entries.now) }
    ensures ok { IfOk result (λ found. IsFound entries.now (Asked.ToProcess place pid) found.records.items found.list.items) }
    ensures err { IfErr result (TellsNot (Ok entries.now) (Asked.ToProcess place pid)) }
{
    let walk = pass_all(alloc, entries)?;
    match check_process(&walk.policy, pid, place) {
        Ok(()) => {}
        Err(fault) => return Err(fault),
    }
    let mut list = Vec::new(alloc);
    match stand_process(&mut list, &walk.policy, pid, place) {
        Ok(()) => Ok(walk.found(list)),
        Err(refusal) => Err(WhyFault::from(refusal)),
    }
}

/// That a connection of the process made one of the judged entries; else how many connections made one.
fn check_process(policy: &Policy, pid: u32, place: u32) -> Result<(), WhyFault>
    requires few { length policy.now ≤ most_places }
    requires place { Stands place (length policy.now) }
    ensures ok { OnOk result (CanTell (Asked.ToProcess place pid) policy.now) }
    ensures err { IfErr result (TellsNot (Ok policy.now) (Asked.ToProcess place pid)) }
{
    if has_process(policy, pid) {
        return Ok(());
    }
    let conns = policy.connections().len() as u32;
    Err(WhyFault::Missing(Missing::Process { pid, conns }))
}

/// Why the entry was answered as it was that told the connection its event of that number.
fn find_event(
    alloc: Global,
    entries: &[Entry],
    conn: &ConnId,
    event: u32,
) -> Result<Findings, WhyFault>
    requires { length entries.now ≤ most_places }
    ensures ok { IfOk result (λ found. IsFound entries.now (Asked.Told conn.now event) found.records.items found.list.items) }
    ensures err { IfErr result (TellsNot (Ok entries.now) (Asked.Told conn.now event)) }
{
    let place = place_told(alloc, entries, conn, event)?;
    let found = find_why(alloc, entries, place as usize - 1)?;
    Ok(found)
}

/// The place of the entry that told the connection its event of that number.
fn place_told(alloc: Global, entries: &[Entry], conn: &ConnId, event: u32) -> Result<u32, WhyFault>
    requires { length entries.now ≤ most_places }
    ensures told { IfOk result (λ place. CanTell (Asked.Told conn.now event) entries.now) }
    ensures ok { IfOk result (λ place. event_place (judged entries.now) conn.now event ≡ Some place) }
    ensures place { IfOk result (λ place. Stands place (length entries.now)) }
    ensures err { IfErr result (TellsNot (Ok entries.now) (Asked.Told conn.now event)) }
{
    let walk = pass_all(alloc, entries)?;
    find_told(&walk.policy, conn, event)
}
