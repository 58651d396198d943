//! Scripts that check themselves, line by line.
//!
//! Proved: what a script does, each line in its order: a command does what its player says and all that it prints is
//! written, what a line wants is compared with the next printed line, and all is as wanted or it is not. That lines which
//! are typed go the same way one after the other is tested.

ghost use Rattle.std.specs.Prelude.{◌≡◌, ◌≢◌, ◌↔◌, Bool, [], true, false, Some, None, option_map, is_none, OnOk, IfOk, IfSome, IsTrue};
ghost use Rattle.std.specs.Io.KnownBytes.{Appends};
ghost use Rattle.cpg_text.specs.Lines.{is_ignored};
ghost use Rattle.cpg_play.specs.Checking.{are_same, behind_line, next_line, unwanted_in, wanted_behind, wanted_by, went_by, and_went};
ghost use Rattle.cpg_play.specs.Walking.{IsLinePlayed, IsScriptPlayed};

use crate::checking::Printed;
use crate::telling::tell_difference;
use cpg_cluster::hand_on;
use cpg_cluster::shell::{MOST_LINE, put_bad, read_line};
use cpg_cred::Refusal;
use cpg_text::{Lines, is, is_ignored, read_whole, strip_name, trim, write_whole};
use std::alloc::Global;
use std::io::{Read, Write};

/// What does the lines of a kind of script.
pub trait Plays {
    ghost use Rattle.std.specs.Prelude.{◌≡◌, ℕ, Bool, [], List, IfOk, IsOkUnless};

    /// What a line says by what it does: whether it says something, and then what that prints.
    ghost does: { Self → List ℕ → Bool → List ℕ → Self → Type 0 };

    /// Whether what is printed is handed on after each line.
    fn is_live(&self) -> bool;

    /// Whether the line, which is not ignored, says something after the lines before it.
    fn reads(&mut self, alloc: Global, line: &[u8]) -> Result<bool, Refusal>
        ensures same { self.new ≡ self.old }
        ensures memory { IsOkUnless result Refusal.Memory };

    /// Does what the line says, puts what that prints where there is nothing, and returns whether it says something.
    fn plays(&mut self, alloc: Global, line: &[u8], text: &mut Vec<u8>) -> Result<bool, Refusal>
        requires { text.old.items ≡ [] }
        ensures done { IfOk result (λ said. does self.old line.now said text.new.items self.new) }
        ensures memory { IsOkUnless result Refusal.Memory };
}

/// How a line went.
#[derive(Debug, Clone, Copy)]
pub enum Went {
    /// It was ignored, did its command, or wanted what is printed.
    Well,
    /// It wanted something else than is printed, or the command before it printed more than was wanted.
    Otherwise,
    /// It says nothing.
    Bad,
}

/// What a line wants: `=> TEXT` the text as the next line, `=>` that there is none.
fn wanted_by(line: &[u8]) -> Option<Option<&[u8]>>
    ensures { option_map (λ wanted. option_map (λ text. text.now) wanted) result ≡ wanted_by line.now }
{
    wanted_behind(strip_name(b"=>", line)?)
}

/// What is wanted by what follows `=>`.
fn wanted_behind(rest: &[u8]) -> Option<Option<&[u8]>>
    ensures { option_map (λ wanted. option_map (λ text. text.now) wanted) result ≡ wanted_behind rest.now }
{
    match rest {
        [] => Some(None),
        [b' ' | b'\t', text @ ..] => Some(Some(trim(text))),
        _ => None,
    }
}

/// Whether the two lines are one, or both are none.
fn are_same(one: Option<&[u8]>, other: Option<&[u8]>) -> bool
    ensures { result ≡ are_same (option_map (λ text. text.now) one.entry) (option_map (λ text. text.now) other.entry) }
{
    match (one, other) {
        (None, None) => true,
        (Some(one), Some(other)) => is(one, other),
        _ => false,
    }
}

/// How a line went by whether all is as wanted.
fn went_by(wanted: bool) -> Went
    ensures { result ≡ went_by wanted }
{
    if wanted { Went::Well } else { Went::Otherwise }
}

/// Whether all was as wanted, and the line did not go otherwise.
fn and_went(wanted: bool, went: Went) -> bool
    ensures { result ≡ and_went wanted went }
{
    wanted && !matches!(went, Went::Otherwise)
}

/// Whether the line said nothing.
fn is_bad(went: Went) -> bool
    ensures { IsTrue result ↔ (went ≡ Went.Bad) }
{
    matches!(went, Went::Bad)
}

/// Tells whether the next line that was printed is not the wanted one, and goes on behind it.
fn check<E: Write>(
    alloc: Global,
    errors: &mut E,
    printed: &mut Printed,
    number: u32,
    wanted: Option<&[u8]>,
) -> Result<Went, Refusal>
    ensures went { IfOk result (λ went. went ≡ went_by (are_same (next_line printed.old.rest) (option_map (λ text. text.now) wanted.entry))) }
    ensures printed { OnOk result (printed.new ≡ record { rest = behind_line printed.old.rest; wanted = Some number }) }
{
    let is_wanted = are_same(printed.next(), wanted);
    if !is_wanted {
        tell_difference(alloc, errors, number, wanted, printed.next())?;
    }
    printed.pass(number);
    Ok(if is_wanted {
        Went::Well
    } else {
        Went::Otherwise
    })
}

/// Tells whether more was printed than was wanted, where something was.
fn check_end<E: Write>(alloc: Global, errors: &mut E, printed: &Printed) -> Result<Went, Refusal>
    ensures { IfOk result (λ went. went ≡ went_by (is_none (unwanted_in printed.now.rest printed.now.wanted))) }
{
    match printed.unwanted() {
        None => Ok(Went::Well),
        Some(number) => {
            tell_difference(alloc, errors, number, None, printed.next())?;
            Ok(Went::Otherwise)
        }
    }
}

/// Does the command of a line, and writes what it prints.
fn play_command<P: Plays, W: Write>(
    alloc: Global,
    player: &mut P,
    writer: &mut W,
    line: &[u8],
) -> Result<Option<Printed>, Refusal>
    ensures done { IfOk result (λ done. IfSome done (λ printed. P.does player.old line.now true printed.rest player.new)) }
    ensures written { IfOk result (λ done. IfSome done (λ printed. (printed.wanted ≡ None) × Appends (W.contents writer.old) (W.contents writer.new) printed.rest)) }
{
    let mut text = Vec::new(alloc);
    if !player.plays(alloc, line, &mut text)? {
        return Ok(None);
    }
    write_whole(writer, text.as_slice())?;
    if player.is_live() {
        hand_on(writer)?;
    }
    Ok(Some(Printed::of(text)))
}

/// Plays a trimmed line of that number. One that says nothing changes nothing.
fn play_line<P: Plays, W: Write, E: Write>(
    alloc: Global,
    player: &mut P,
    writer: &mut W,
    errors: &mut E,
    printed: &mut Printed,
    number: u32,
    line: &[u8],
) -> Result<Went, Refusal>
    ensures { IfOk result (λ went. went ≢ Went.Bad → (all : Bool) → IsLinePlayed P.does number line.now
        (record { player = player.old; printed = printed.old; written = W.contents writer.old; wanted = all })
        (record { player = player.new; printed = printed.new; written = W.contents writer.new; wanted = and_went all went })) }
{
    if is_ignored(line) {
        return Ok(Went::Well);
    }
    if let Some(wanted) = wanted_by(line) {
        return check(alloc, errors, printed, number, wanted);
    }
    match play_command(alloc, player, writer, line)? {
        None => Ok(Went::Bad),
        Some(text) => {
            let went = check_end(alloc, errors, printed)?;
            *printed = text;
            Ok(went)
        }
    }
}

/// Whether each line says something; the number of the first that does not.
fn read_lines<P: Plays>(alloc: Global, player: &mut P, script: &[u8]) -> Result<(), Refusal>
    ensures { player.new ≡ player.old }
{
    let mut number = 0u32;
    for line in Lines::of(script) {
        number = number.saturating_add(1);
        let line = trim(line);
        if is_ignored(line) || wanted_by(line).is_some() {
            continue;
        }
        if !player.reads(alloc, line)? {
            return Err(Refusal::BadCommand(number));
        }
    }
    Ok(())
}

/// Plays the lines of a script, and says whether all was printed as they want it. What is not is told line by line.
fn play_all<P: Plays, W: Write, E: Write>(
    alloc: Global,
    player: &mut P,
    writer: &mut W,
    errors: &mut E,
    script: &[u8],
) -> Result<bool, Refusal>
    ensures { IfOk result (λ wanted. IsScriptPlayed P.does script.now player.old player.new (W.contents writer.old) (W.contents writer.new) wanted) }
{
    let mut printed = Printed::nothing(alloc);
    let mut wanted = true;
    let mut number = 0u32;
    for line in Lines::of(script) {
        number = number.saturating_add(1);
        let line = trim(line);
        let went = play_line(alloc, player, writer, errors, &mut printed, number, line)?;
        if is_bad(went) {
            return Err(Refusal::BadCommand(number));
        }
        wanted = and_went(wanted, went);
    }
    Ok(and_went(wanted, check_end(alloc, errors, &printed)?))
}

/// Plays a script, which is read and checked whole before its first line is done, and says whether all was printed as its
/// lines want it.
pub fn play_script<P: Plays, R: Read, W: Write, E: Write>(
    alloc: Global,
    player: &mut P,
    reader: &mut R,
    writer: &mut W,
    errors: &mut E,
) -> Result<bool, Refusal>
    ensures { IfOk result (λ wanted. IfSome (R.remaining reader.old) (λ script.
        IsScriptPlayed P.does script player.old player.new (W.contents writer.old) (W.contents writer.new) wanted)) }
{
    let script = read_whole(alloc, reader)?;
    read_lines(alloc, player, script.as_slice())?;
    play_all(alloc, player, writer, errors, script.as_slice())
}

/// Tells a line of that number that says nothing, as the shell does.
fn tell_bad<E: Write>(alloc: Global, errors: &mut E, number: u32) -> Result<(), Refusal> {
    let mut text = Vec::new(alloc);
    put_bad(alloc, &mut text, number)?;
    write_whole(errors, text.as_slice())?;
    hand_on(errors)
}

/// Plays lines as they come, each at once, and says whether all was printed as they want it. A line that says nothing is
/// told, and the next is read.
pub fn play_lines<P: Plays, R: Read, W: Write, E: Write>(
    alloc: Global,
    player: &mut P,
    reader: &mut R,
    writer: &mut W,
    errors: &mut E,
) -> Result<bool, Refusal> {
    let mut printed = Printed::nothing(alloc);
    let mut wanted = true;
    for number in 1..u32::MAX {
        let mut line = Vec::new(alloc);
        let more = read_line(reader, &mut line)?;
        let went = if line.len() > MOST_LINE {
            Went::Bad
        } else {
            let line = trim(line.as_slice());
            play_line(alloc, player, writer, errors, &mut printed, number, line)?
        };
        if is_bad(went) {
            tell_bad(alloc, errors, number)?;
        }
        wanted = and_went(wanted, went);
        if !more {
            return Ok(and_went(wanted, check_end(alloc, errors, &printed)?));
        }
    }
    Err(Refusal::Read)
}
