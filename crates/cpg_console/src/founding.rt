//! What a new cluster stands on, and what it runs on.
//!
//! Proved: the words of the command line come first, then the settings.

ghost use Rattle.std.specs.Prelude.{◌≡◌, length, map, Some, IfOk, IfErr, IsOkUnless};
ghost use Rattle.cpg_board.specs.Words.{is_counted};
ghost use Rattle.cpg_console.specs.Starting.{IsNotStarted, IsUnmade};
ghost use Rattle.cpg_console.specs.Words.{list_of_words};
ghost use Rattle.cpg_cred.specs.declared.refusals.Refusal.TheVariants.{Memory};
ghost use Rattle.cpg_ring.specs.States.{IsSettings};

use crate::failures::Failure;
use crate::words::read_list;
use cpg_board::Board;
use cpg_cred::{AcceptList, Refusal};
use cpg_ring::{Settings, are_settings};
use std::alloc::Global;
use std::sync::Wait;
use std::thread::Threads;
use std::time::Clock;

/// What starts the threads of a cluster, waits for them and tells the time.
pub trait Host: Threads + Wait + Clock + Copy + Send {}

impl<H: Threads + Wait + Clock + Copy + Send> Host for H {}

/// What a new cluster stands on.
#[derive(Drop)]
pub struct Foundation {
    /// The board that its nodes share.
    pub board: Board,
    /// Whom its nodes let in.
    pub list: AcceptList,
}

/// An empty board of those settings' places, for nodes of which what happens is recorded if that is asked for, and the
/// list of whom the words let in.
///
/// A wrong word comes first, then settings out of their ranges.
pub fn found(
    alloc: Global,
    settings: Settings,
    words: &[&str],
    traced: bool,
) -> Result<Foundation, Failure>
    ensures list { IfOk result (λ foundation. Some foundation.list ≡ list_of_words (map (λ word. word.now) words.now)) }
    ensures board { IfOk result (λ foundation. (length foundation.board.cells ≡ settings.places) × (is_counted foundation.board.table ≡ traced)) }
    ensures err { IfErr result (λ failure. IsNotStarted settings (list_of_words (map (λ word. word.now) words.now)) failure) }
{
    match read_list(alloc, words) {
        Err(refusal) => Err(Failure::from(refusal)),
        Ok(None) => Err(Failure::BadWord),
        Ok(Some(list)) => match board_of(alloc, settings, traced) {
            Err(failure) => Err(failure),
            Ok(board) => Ok(Foundation { board, list }),
        },
    }
}

/// The board of those settings, where they are in their ranges.
fn board_of(alloc: Global, settings: Settings, traced: bool) -> Result<Board, Failure>
    ensures board { IfOk result (λ board. (length board.cells ≡ settings.places) × (is_counted board.table ≡ traced)) }
    ensures err { IfErr result (λ failure. IsUnmade settings failure) }
{
    if !are_settings(&settings) {
        return Err(Failure::from(Refusal::Range));
    }
    match new_board(alloc, settings, traced) {
        Err(_) => Err(Failure::from(Refusal::Memory)),
        Ok(board) => Ok(board),
    }
}

/// An empty board of those settings' places, for nodes of which what happens is recorded if that is asked for.
pub fn new_board(alloc: Global, settings: Settings, traced: bool) -> Result<Board, Refusal>
    requires { IsSettings settings }
    ensures board { IfOk result (λ board. (length board.cells ≡ settings.places) × (is_counted board.table ≡ traced)) }
    ensures memory { IsOkUnless result Memory }
{
    let made = if traced {
        Board::recorded(alloc, settings.places)
    } else {
        Board::new(alloc, settings.places)
    };
    made.map_err(|_| Refusal::Memory)
}
