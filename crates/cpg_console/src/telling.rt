//! A fault or another failure, told on standard error.
//!
//! Proved: the line is written, or after a refusal a front of it is.

ghost use Rattle.std.specs.Prelude.{◌≡◌, ◌⊎◌, ◌++◌, decimal, OnOk, OnErr, IfOk, IfErr, IsTrue};
ghost use Rattle.cpg_cred.specs.Shown.{refusal_text};
ghost use Rattle.std.specs.Io.KnownBytes.{Appends};
ghost use Rattle.cpg_text.specs.Streams.{AppendsFront};
ghost use Rattle.cpg_text.specs.Faults.{part_text};
ghost use Rattle.cpg_accept.specs.Accepting.{whole_fault};
ghost use Rattle.cpg_console.specs.Telling.{absent_text, before_connection, before_process, conn_text, error_line, failure_line, missing_line, one_or_more, present_text};

use crate::failures::{Among, Failure};
use arrayvec::ArrayString;
use cpg_cred::Refusal;
use cpg_record::ConnId;
use cpg_text::{Fault, write_whole};
use cpg_why::Missing;
use std::fmt::{self, Write as _};
use std::io::Write;

/// The most bytes that a fault's line may have. The longest has 70: the fault of a part, with a refusal that names a line.
const ROOM: usize = 128;

/// Writes the fault as it is told, `cpgring: part 2: 35 BadValue 2` on a line.
///
/// It asks for no memory. After `Write` a front of the line is written; after `Memory`, which tells that the line has
/// more bytes than there is room for, nothing.
#[tactic(auto, using(crate::proofs::Fronts::none_of))]
pub fn tell_fault<E: Write>(errors: &mut E, fault: &Fault) -> Result<(), Refusal>
    ensures ok { OnOk result (Appends (E.contents errors.old) (E.contents errors.new) (error_line fault.now)) }
    ensures err { OnErr result (AppendsFront (E.contents errors.old) (E.contents errors.new) (error_line fault.now)) }
    ensures errors { IfErr result (λ refusal. (refusal ≡ Refusal.Memory) ⊎ (refusal ≡ Refusal.Write)) }
{
    match line_of(fault) {
        Ok(line) => write_whole(errors, line.as_bytes()),
        Err(_) => Err(Refusal::Memory),
    }
}

/// Writes the text as far as the stream allows, and says whether all of it is written.
#[tactic(auto, using(crate::proofs::Fronts::all_of))]
pub(crate) fn write_front<E: Write>(errors: &mut E, text: &[u8]) -> bool
    ensures told { IsTrue result → Appends (E.contents errors.old) (E.contents errors.new) text.now }
    ensures front { AppendsFront (E.contents errors.old) (E.contents errors.new) text.now }
{
    match write_whole(errors, text) {
        Ok(()) => true,
        Err(_) => false,
    }
}

/// Tells that memory was refused, as far as the stream allows.
#[tactic(auto, using(crate::proofs::Fronts::all_of))]
pub(crate) fn tell_memory<E: Write>(errors: &mut E)
    ensures { AppendsFront (E.contents errors.old) (E.contents errors.new) (error_line (whole_fault Refusal.Memory)) }
{
    match tell_fault(errors, &Fault::from(Refusal::Memory)) {
        Ok(()) | Err(_) => {}
    }
}

/// Tells that a text could not be written, as far as the stream allows, unless its reader has left.
#[tactic(auto, using(crate::proofs::Fronts::none_of, crate::proofs::Fronts::all_of))]
pub(crate) fn tell_unwritten<E: Write>(errors: &mut E, left: bool)
    ensures { AppendsFront (E.contents errors.old) (E.contents errors.new) (error_line (whole_fault Refusal.Write)) }
{
    if left {
        return;
    }
    match tell_fault(errors, &Fault::from(Refusal::Write)) {
        Ok(()) | Err(_) => {}
    }
}

/// Writes the failure as it is told: a fault as `tell_fault` does, and a wrong word of the command line as
/// `cpgring: bad accept word` on a line; or `cpgring: there is no entry 9: the script has 8`,
/// `cpgring: there is no connection 2.9: the script has 3` or `cpgring: there is no event 9: 1.2 was told 8`.
#[tactic(auto, using(crate::proofs::Fronts::none_of))]
pub fn tell_failure<E: Write>(errors: &mut E, failure: &Failure) -> Result<(), Refusal>
    ensures ok { OnOk result (Appends (E.contents errors.old) (E.contents errors.new) (failure_line failure.now)) }
    ensures err { OnErr result (AppendsFront (E.contents errors.old) (E.contents errors.new) (failure_line failure.now)) }
    ensures errors { IfErr result (λ refusal. (refusal ≡ Refusal.Memory) ⊎ (refusal ≡ Refusal.Write)) }
{
    match failure {
        Failure::BadWord => write_whole(errors, b"cpgring: bad accept word\n"),
        Failure::Fault(fault) => tell_fault(errors, fault),
        Failure::Missing(absent) => match missing_line(absent.among, &absent.what) {
            Ok(line) => write_whole(errors, line.as_bytes()),
            Err(_) => Err(Refusal::Memory),
        },
    }
}

/// The fault's line.
fn line_of(fault: &Fault) -> Result<ArrayString<ROOM>, fmt::Error>
    ensures { IfOk result (λ line. line.bytes ≡ error_line fault.now) }
{
    let mut line = ArrayString::new();
    line.write_str("cpgring: ")?;
    put_part(&mut line, fault.part)?;
    put_refusal(&mut line, fault.refusal)?;
    line.write_str("\n")?;
    Ok(line)
}

/// The line of what is asked of and is not there.
fn missing_line(among: Among, what: &Missing) -> Result<ArrayString<ROOM>, fmt::Error>
    ensures { IfOk result (λ line. line.bytes ≡ missing_line among what.now) }
{
    let mut line = ArrayString::new();
    line.write_str("cpgring: there is no ")?;
    put_absent(&mut line, among, what)?;
    line.write_str(": ")?;
    put_present(&mut line, among, what)?;
    line.write_str("\n")?;
    Ok(line)
}

/// Puts what is asked of and is not there at the line's end.
fn put_absent(line: &mut ArrayString<ROOM>, among: Among, what: &Missing) -> Result<(), fmt::Error>
    ensures { OnOk result (line.new.bytes ≡ line.old.bytes ++ absent_text among what.now) }
{
    match what {
        Missing::Entry { place, .. } => put_numbered(line, "entry ", *place),
        Missing::Event { event, .. } => put_numbered(line, "event ", *event),
        Missing::Connection { conn, .. } => put_conn(line, before_connection(among), conn),
        Missing::Process { pid, .. } => put_numbered(line, before_process(among), *pid),
    }
}

/// The words before a connection that is not there.
fn before_connection(among: Among) -> &'static str
    ensures { result.now ≡ before_connection among }
{
    match among {
        Among::Script => "connection ",
        Among::Delivered => "entry of ",
    }
}

/// The words before a process that is not there.
fn before_process(among: Among) -> &'static str
    ensures { result.now ≡ before_process among }
{
    match among {
        Among::Script => "connection of process ",
        Among::Delivered => "entry of process ",
    }
}

/// Puts what there is in its place at the line's end.
fn put_present(line: &mut ArrayString<ROOM>, among: Among, what: &Missing) -> Result<(), fmt::Error>
    ensures { OnOk result (line.new.bytes ≡ line.old.bytes ++ present_text among what.now) }
{
    match (among, what) {
        (_, Missing::Event { conn, events, .. }) => {
            put_conn(line, "", conn)?;
            put_numbered(line, " was told ", *events)
        }
        (Among::Script, Missing::Entry { entries, .. }) => {
            put_numbered(line, "the script has ", *entries)
        }
        (Among::Script, Missing::Connection { conns, .. } | Missing::Process { conns, .. }) => {
            put_numbered(line, "the script has ", *conns)
        }
        (Among::Delivered, Missing::Entry { entries, .. }) => {
            put_counted(line, *entries, " was delivered", " were delivered")
        }
        (Among::Delivered, Missing::Connection { conns, .. } | Missing::Process { conns, .. }) => {
            put_counted(line, *conns, " connection has one", " connections have one")
        }
    }
}

/// Puts the words and NODE.CONN at the line's end.
fn put_conn(line: &mut ArrayString<ROOM>, words: &str, conn: &ConnId) -> Result<(), fmt::Error>
    ensures { OnOk result (line.new.bytes ≡ line.old.bytes ++ words.now ++ conn_text conn.now) }
{
    put_numbered(line, words, u32::from(conn.node.get()))?;
    put_numbered(line, ".", u32::from(conn.conn))
}

/// Puts the words and the number at the line's end.
fn put_numbered(line: &mut ArrayString<ROOM>, words: &str, number: u32) -> Result<(), fmt::Error>
    ensures { OnOk result (line.new.bytes ≡ line.old.bytes ++ words.now ++ decimal number) }
{
    line.write_str(words)?;
    put_number(line, number)
}

/// Puts the count at the line's end, and the words for one, or else those for more.
fn put_counted(
    line: &mut ArrayString<ROOM>,
    count: u32,
    one: &str,
    more: &str,
) -> Result<(), fmt::Error>
    ensures { OnOk result (line.new.bytes ≡ line.old.bytes ++ one_or_more count one.now more.now) }
{
    put_number(line, count)?;
    line.write_str(if count == 1 { one } else { more })
}

/// Puts which part the fault is of at the line's end, where it is a part's.
fn put_part(line: &mut ArrayString<ROOM>, part: Option<u32>) -> Result<(), fmt::Error>
    ensures { OnOk result (line.new.bytes ≡ line.old.bytes ++ part_text part) }
{
    let Some(part) = part else {
        return Ok(());
    };
    put_numbered(line, "part ", part)?;
    line.write_str(": ")
}

#[tactic(auto, using(crate::proofs::Lines::written_behind))]
fn put_number(line: &mut ArrayString<ROOM>, number: u32) -> Result<(), fmt::Error>
    ensures { OnOk result (line.new.bytes ≡ line.old.bytes ++ decimal number) }
{
    line.write(number)
}

#[tactic(auto, using(crate::proofs::Lines::written_behind))]
fn put_refusal(line: &mut ArrayString<ROOM>, refusal: Refusal) -> Result<(), fmt::Error>
    ensures { OnOk result (line.new.bytes ≡ line.old.bytes ++ refusal_text refusal) }
{
    line.write(refusal)
}
