//! What commands of sessions are answered, as lines.

ghost use Rattle.std.specs.Prelude.{◌≡◌, ◌++◌, ◌∷◌, [], Ok, codes, length, map, OnOk, IsOkUnless};
ghost use Rattle.std.specs.List.{concat};
ghost use Rattle.cpg_board.specs.Seats.{IsSeatOf, records_of};
ghost use Rattle.cpg_json.specs.Answers.{refusal_fields};
ghost use Rattle.cpg_json.specs.Objects.{array, field, head_of, line as object_line, more};
ghost use Rattle.cpg_json.specs.Records.{records_json};
ghost use Rattle.cpg_cluster.specs.Steps.{SeatsOn};
ghost use Rattle.cpg_cluster.specs.declared.replies.Reply.TheVariants as replies;
ghost use Rattle.cpg_json.specs.SessionAnswers.{answer_json, audit_text, reply_json, session_of, whose};

use crate::answers::{put_refusal, put_safe};
use crate::arrays::{Item, put_array};
use crate::events::put_event_fields;
use crate::objects::{put_end, put_head, put_number};
use crate::records::{put_count, put_record};
use cpg_board::{Board, Seat};
use cpg_cluster::{Command, Reply};
use cpg_cred::Refusal;
use cpg_node::Event;

/// The number of the session that the command is for, if it is for one.
pub(crate) fn find_session(command: &Command) -> Option<u32>
    ensures { result ≡ session_of command.now }
{
    match command {
        Command::Ask(number, _) | Command::Close(number) => Some(*number),
        Command::Connect(_, _, _) | Command::Safe(_) => None,
    }
}

fn put_whose(text: &mut Vec<u8>, session: Option<u32>) -> Result<(), Refusal>
    ensures ok { OnOk result (text.new.items ≡ text.old.items ++ more (whose session)) }
    ensures memory { IsOkUnless result Refusal.Memory }
{
    match session {
        None => Ok(()),
        Some(number) => put_number(text, "session", u64::from(number)),
    }
}

/// What the objects of an answer begin with: a head, and the number of the session that it is for.
#[derive(Clone, Copy)]
struct Front<'a> {
    head: &'a [u8],
    session: Option<u32>,
}

impl Front<'_> {
    /// Puts the brace, the kind of an object, the head, and whose it is.
    fn put(&self, text: &mut Vec<u8>, name: &str) -> Result<(), Refusal>
        ensures ok { OnOk result (text.new.items ≡ text.old.items ++ codes "{" ++ head_of name.now (self.now).head.now ++ more (whose (self.now).session)) }
        ensures memory { IsOkUnless result Refusal.Memory }
    {
        put_head(text, name, self.head)?;
        put_whose(text, self.session)
    }
}

/// Puts an object of its kind that says only whose it is.
fn put_alone(text: &mut Vec<u8>, front: &Front<'_>, name: &str) -> Result<(), Refusal>
    ensures ok { OnOk result (text.new.items ≡ text.old.items ++ object_line (head_of name.now (front.now).head.now ∷ whose (front.now).session)) }
    ensures memory { IsOkUnless result Refusal.Memory }
{
    front.put(text, name)?;
    put_end(text)
}

fn put_opened(text: &mut Vec<u8>, front: &Front<'_>, number: usize) -> Result<(), Refusal>
    ensures ok { OnOk result (text.new.items ≡ text.old.items ++ reply_json (front.now).head.now (front.now).session (replies.Opened number)) }
    ensures memory { IsOkUnless result Refusal.Memory }
{
    put_head(text, "session", front.head)?;
    put_number(text, "session", number as u64)?;
    put_end(text)
}

#[tactic(auto, using(crate::proofs::Fields::more_append))]
fn put_taken(text: &mut Vec<u8>, front: &Front<'_>, event: &Event) -> Result<(), Refusal>
    ensures ok { OnOk result (text.new.items ≡ text.old.items ++ reply_json (front.now).head.now (front.now).session (replies.Took event.now)) }
    ensures memory { IsOkUnless result Refusal.Memory }
{
    front.put(text, "event")?;
    put_event_fields(text, event)?;
    put_end(text)
}

#[tactic(auto, using(crate::proofs::Fields::more_append))]
fn put_listing<T: Item>(
    text: &mut Vec<u8>,
    front: &Front<'_>,
    name: &str,
    items: &[T],
) -> Result<(), Refusal>
    ensures ok { OnOk result (text.new.items ≡ text.old.items ++ object_line (head_of name.now (front.now).head.now ∷ whose (front.now).session ++ field name.now (array (map T.printed items.now)) ∷ [])) }
    ensures memory { IsOkUnless result Refusal.Memory }
{
    front.put(text, name)?;
    put_array(text, name, items)?;
    put_end(text)
}

#[tactic(auto, using(cpg_cluster::proofs::Put::known_put))]
fn put_records(
    text: &mut Vec<u8>,
    head: &[u8],
    board: &Board,
    seat: &Seat,
    count: u32,
) -> Result<(), Refusal>
    requires seat { IsSeatOf board.now.cells seat.now }
    requires count { count ≡ length seat.now }
    ensures ok { OnOk result (text.new.items ≡ text.old.items ++ concat (records_json head.now (records_of seat.now))) }
    ensures memory { IsOkUnless result Refusal.Memory }
{
    for index in 0..count {
        put_record(text, head, index + 1, board.known(seat, index + 1))?;
    }
    Ok(())
}

/// Puts the records that the seat knows, and their count, at the text's end. A board has at most 1,048,576 places, so
/// the count fits.
#[tactic(auto, using(crate::proofs::Put::seat_put))]
fn put_seat(text: &mut Vec<u8>, head: &[u8], board: &Board, seat: &Seat) -> Result<(), Refusal>
    requires { IsSeatOf board.now.cells seat.now }
    ensures ok { OnOk result (text.new.items ≡ text.old.items ++ audit_text head.now (records_of seat.now)) }
    ensures memory { IsOkUnless result Refusal.Memory }
{
    let Ok(count) = u32::try_from(seat.len()) else {
        return Err(Refusal::Memory);
    };
    put_records(text, head, board, seat, count)?;
    put_count(text, head, count)
}

fn put_reply(
    text: &mut Vec<u8>,
    board: &Board,
    front: &Front<'_>,
    reply: &Reply,
) -> Result<(), Refusal>
    requires { SeatsOn board.now.cells (Ok reply.now) }
    ensures ok { OnOk result (text.new.items ≡ text.old.items ++ reply_json (front.now).head.now (front.now).session reply.now) }
    ensures memory { IsOkUnless result Refusal.Memory }
{
    match reply {
        Reply::Opened(number) => put_opened(text, front, *number),
        Reply::Admitted => put_alone(text, front, "admitted"),
        Reply::Took(event) => put_taken(text, front, event),
        Reply::Nothing(_) => put_alone(text, front, "none"),
        Reply::Members(processes) => put_listing(text, front, "members", processes.as_slice()),
        Reply::Groups(names) => put_listing(text, front, "groups", names.as_slice()),
        Reply::Audit(seat) => put_seat(text, front.head, board, seat),
        Reply::Closed => put_alone(text, front, "closed"),
        Reply::Safe(place) => put_safe(text, front.head, *place),
    }
}

#[tactic(auto, using(crate::proofs::Fields::more_append))]
fn put_refused(text: &mut Vec<u8>, front: &Front<'_>, why: Refusal) -> Result<(), Refusal>
    ensures ok { OnOk result (text.new.items ≡ text.old.items ++ object_line (head_of (codes "refused") (front.now).head.now ∷ whose (front.now).session ++ refusal_fields why)) }
    ensures memory { IsOkUnless result Refusal.Memory }
{
    front.put(text, "refused")?;
    put_refusal(text, why)?;
    put_end(text)
}

/// Puts the lines of an answer to a command for that session, if it is for one, behind that head at the text's
/// end. A seat of the answer is of that board.
pub fn put_answer_json(
    text: &mut Vec<u8>,
    board: &Board,
    head: &[u8],
    session: Option<u32>,
    answer: &Result<Reply, Refusal>,
) -> Result<(), Refusal>
    requires { SeatsOn board.now.cells answer.now }
    ensures ok { OnOk result (text.new.items ≡ text.old.items ++ answer_json head.now session answer.now) }
    ensures memory { IsOkUnless result Refusal.Memory }
{
    let front = Front { head, session };
    match answer {
        Ok(reply) => put_reply(text, board, &front, reply),
        Err(refusal) => put_refused(text, &front, *refusal),
    }
}
