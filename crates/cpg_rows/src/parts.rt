//! The parts of a file, and the object that each is about.

ghost use Rattle.std.specs.Prelude.{◌≡◌};

use crate::boards::Desk;
use crate::codec::Codec;
use crate::crews::{Crew, Kind};
use crate::doors::Door;
use crate::links::Linked;
use crate::nodes::Shared;
use crate::player::{Player, Plays};
use crate::policies::Judging;
use crate::rings::Ringing;
use crate::tables::Rules;
use crate::words::{NO_COMMAND, first, is_word, named, number};
use crate::worlds::Worldly;
use cpg_board::Board;
use cpg_cred::{Refusal, is_memory};
use cpg_station::BoardName;
use std::alloc::Global;
use std::marker::Brand;
use std::sync::Wait;

/// The line of the next part, where there is one.
type Next<'a> = Result<Option<&'a [u8]>, Refusal>;

/// Plays the file. What stands before the first part is about frames.
pub fn play_file<R: Wait>(rt: &R, player: &mut Player<'_>) -> Result<(), Refusal> {
    player.make_room()?;
    let mut next = player.play(&mut Codec)?;
    for _ in 0..u64::MAX {
        let Some(head) = next else {
            break;
        };
        let played = play_part(rt, player, head);
        if !is_memory(&played) || !player.is_trying_again() {
            next = played?;
        }
    }
    Ok(())
}

/// Plays the part that begins with that line.
fn play_part<'a, R: Wait>(rt: &R, player: &mut Player<'a>, head: &'a [u8]) -> Next<'a> {
    let (kind, rest) = first(player.begin(head)?)?;
    if is_word(kind, "%link") {
        return play_made(player, Linked::new(rt, player.alloc, rest));
    }
    if is_word(kind, "%board") {
        return play_at_board(player, None, rest);
    }
    match named(&KINDS, kind) {
        Ok(kind) => play_at_board(player, Some(kind), rest),
        Err(_) => play_alone(player, kind, rest),
    }
}

/// The parts with nodes or stations.
const KINDS: [(&str, Kind); 3] = [
    ("%nodes", Kind::Nodes),
    ("%stations", Kind::Stations),
    ("%twins", Kind::Twins),
];

/// Plays the part of an object that stands alone.
fn play_alone<'a>(player: &mut Player<'a>, kind: &[u8], rest: &[u8]) -> Next<'a> {
    let alloc = player.alloc;
    if is_word(kind, "%accept") {
        return play_made(player, Door::new(alloc, rest));
    }
    if is_word(kind, "%table") {
        return play_made(player, Ok(Rules::new(alloc)));
    }
    if is_word(kind, "%codec") {
        return play_made(player, Ok(Codec));
    }
    if is_word(kind, "%policy") {
        return play_made(player, Ok(Judging::new(alloc)));
    }
    if is_word(kind, "%ring") {
        return play_made(player, Ringing::new(alloc, rest));
    }
    if is_word(kind, "%world") {
        return play_made(player, Worldly::new(alloc, rest));
    }
    play_refused(player, NO_COMMAND)
}

/// Plays the part of what was made.
fn play_made<'a, P: Plays>(player: &mut Player<'a>, made: Result<P, Refusal>) -> Next<'a> {
    match made {
        Ok(mut object) => player.play(&mut object),
        Err(refusal) => play_refused(player, refusal),
    }
}

/// Plays the part of what could not be made; after Memory it is to be made again.
fn play_refused<'a>(player: &mut Player<'a>, refusal: Refusal) -> Next<'a> {
    if refusal == Refusal::Memory && player.tries_again() {
        return Err(refusal);
    }
    player.refuse(refusal)?;
    player.play(&mut Codec)
}

/// A board of so many places as the part says, and what follows; nodes alone need none.
fn new_board(alloc: Global, kind: Option<Kind>, text: &[u8]) -> Result<(Board, &[u8]), Refusal> {
    if kind == Some(Kind::Nodes) {
        return Ok((Board::new(alloc, 1)?, text));
    }
    let (places, rest) = first(text)?;
    Ok((Board::new(alloc, number(places)?)?, rest))
}

/// The part of a new board, with nodes or stations where it has some.
fn play_at_board<'a>(player: &mut Player<'a>, kind: Option<Kind>, text: &[u8]) -> Next<'a> {
    match (new_board(player.alloc, kind, text), kind) {
        (Ok((board, _)), None) => play_board::<Brand>(player, board),
        (Ok((board, words)), Some(kind)) => play_crew::<Brand>(player, board, kind, words),
        (Err(refusal), _) => play_refused(player, refusal),
    }
}

fn play_board<'a, B: BoardName>(player: &mut Player<'a>, board: Board) -> Next<'a>
    requires { board.cells ≡ B.cells }
{
    let mut desk = Desk::<B>::new(player.alloc, board);
    match desk.fill() {
        Ok(()) => player.play(&mut desk),
        Err(refusal) => play_refused(player, refusal),
    }
}

fn play_crew<'a, B: BoardName>(
    player: &mut Player<'a>,
    board: Board,
    kind: Kind,
    words: &[u8],
) -> Next<'a>
    requires { board.cells ≡ B.cells }
{
    let alloc = player.alloc;
    let mut crew = Crew::new(alloc, Shared::<B>::new(board));
    match crew.fill(alloc, kind, words) {
        Ok(()) => player.play(&mut crew),
        Err(refusal) => play_refused(player, refusal),
    }
}
