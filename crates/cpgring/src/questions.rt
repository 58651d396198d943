//! What a word of the command line asks why of.
//!
//! Proved: the question is the definition of `specs/Questions.antt`.

ghost use Rattle.std.specs.Prelude.{◌≡◌, Some, option_map};
ghost use Rattle.cpg_print.specs.Entries.{conn_of_word};
ghost use Rattle.cpg_text.specs.Numbers.{number_in};
ghost use Rattle.cpgring.specs.Questions.{entry_named, event_named, of_place, question_named, to_whom, unless_to};

use cpg_console::Asked;
use cpg_cred::{MOST_NODES, NodeId};
use cpg_entry::MOST_CONNECTIONS;
use cpg_record::ConnId;
use cpg_text::{cut, is, read_u32};

/// The connection of NODE.CONN.
pub(crate) fn read_conn(word: &[u8]) -> Option<ConnId>
    ensures { result ≡ conn_of_word word.now }
{
    let (node, conn) = cut(b'.', word)?;
    let node = read_u32(1, u32::from(MOST_NODES), node)?;
    let conn = read_u32(1, u32::from(MOST_CONNECTIONS), conn)?;
    Some(ConnId {
        node: NodeId::new(node as u8)?,
        conn: conn as u16,
    })
}

/// The event of NODE.CONN:EVENT, of those that the connection was told, from 1.
fn read_event(word: &[u8]) -> Option<Asked>
    ensures { result ≡ event_named word.now }
{
    let (conn, event) = cut(b':', word)?;
    Some(Asked::Told(read_conn(conn)?, read_u32(1, u32::MAX, event)?))
}

/// Why the connection that a word names, or else each of the process that it names, is told of the entry of a place, or is
/// not.
fn to_whom(place: u32, word: &[u8]) -> Option<Asked>
    ensures { result ≡ to_whom place (conn_of_word word.now) (number_in 0 4294967295 word.now) }
{
    match read_conn(word) {
        Some(conn) => Some(Asked::To(place, conn)),
        None => Some(Asked::ToProcess(place, read_u32(0, u32::MAX, word)?)),
    }
}

/// The entry of a place; where a connection or a process is named, why that is told of it, or is not.
fn of_place(to: Option<&str>, place: u32) -> Option<Asked>
    ensures { result ≡ of_place (option_map (λ text. text.now) to.entry) place }
{
    match to {
        None => Some(Asked::Place(place)),
        Some(word) => to_whom(place, word.as_bytes()),
    }
}

/// The one entry that a word asks of: by its place, or by an event that it told. By its place it may be asked why a
/// connection was told of it, or was not.
pub(crate) fn read_entry(to: Option<&str>, word: &[u8]) -> Option<Asked>
    ensures { result ≡ entry_named (option_map (λ text. text.now) to.entry) word.now }
{
    match read_u32(1, u32::MAX, word) {
        Some(place) => of_place(to, place),
        None if to.is_none() => read_event(word),
        None => None,
    }
}

/// What a word asks why of: every denial, the way of a connection, or one entry.
pub(crate) fn read_question(to: Option<&str>, word: &[u8]) -> Option<Asked>
    ensures { result ≡ question_named (option_map (λ text. text.now) to.entry) word.now }
{
    if is(word, b"all") {
        return unless_to(to, Asked::Denials);
    }
    match read_conn(word) {
        Some(conn) => unless_to(to, Asked::Connection(conn)),
        None => read_entry(to, word),
    }
}

/// The question, where no connection is named beside it.
fn unless_to(to: Option<&str>, question: Asked) -> Option<Asked>
    ensures { result ≡ unless_to (option_map (λ text. text.now) to.entry) (Some question) }
{
    match to {
        None => Some(question),
        Some(_) => None,
    }
}
