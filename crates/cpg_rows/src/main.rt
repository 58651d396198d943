//! `cpg_rows [--again] FILE ..` plays files of rows, each a command and what it is answered, and says which are answered
//! otherwise than they stand there. With `--again` a call that answers Memory is made again.
//!
//! Exit status: 0 all are as they stand, 1 some are not, 2 a file can't be read or memory ran out.
#![tactic(auto)]

mod boards;
mod codec;
mod crews;
mod doors;
mod events;
mod links;
mod looks;
mod nodes;
mod parts;
mod player;
mod policies;
mod printing;
mod rings;
mod spelling;
mod states;
mod tables;
mod texts;
mod words;
mod worlds;

use cpg_cred::Refusal;
use cpg_text::{push_number, put, read_whole, write_whole};
use parts::play_file;
use player::{Player, TRIES, surely};
use std::alloc::Global;
use std::env;
use std::fs::File;
use std::process::ExitCode;
use std::rt::Files;
use std::sync::Wait;

/// How many rows were played as they stand, and how many otherwise.
#[derive(Clone, Copy)]
struct Counts {
    passed: u64,
    failed: u64,
}

/// The words of the command line.
fn read_words(rt: &HostRuntime) -> Result<Vec<String>, Refusal> {
    match env::args(rt) {
        Ok(words) => Ok(words.collect(rt.alloc())?),
        Err(_) => Err(Refusal::Memory),
    }
}

fn read_file(rt: &HostRuntime, path: &str) -> Result<Vec<u8>, Refusal> {
    match File::open(rt, path) {
        Ok(mut file) => read_whole(rt.alloc(), &mut file),
        Err(_) => Err(Refusal::Read),
    }
}

fn put_file_line(line: &mut Vec<u8>, path: &str, player: &Player<'_>) -> Result<(), Refusal> {
    line.clear();
    put(line, path)?;
    put(line, ": ")?;
    push_number(line, player.rows)?;
    put(line, " rows, ")?;
    push_number(line, player.failed)?;
    put(line, " otherwise\n")
}

fn put_last_line(line: &mut Vec<u8>, counts: &Counts) -> Result<(), Refusal> {
    line.clear();
    push_number(line, counts.passed)?;
    put(line, " passed, ")?;
    push_number(line, counts.failed)?;
    put(line, " failed\n")
}

/// Prints the rows that failed, and the counts of the file.
fn say_file(rt: &HostRuntime, path: &str, player: &Player<'_>) -> Result<(), Refusal> {
    write_whole(&mut rt.stdout(), player.report.as_slice())?;
    let mut line = Vec::new(rt.alloc());
    let mut put = put_file_line(&mut line, path, player);
    for _ in 1..TRIES {
        if put.is_err() {
            put = put_file_line(&mut line, path, player);
        }
    }
    write_whole(&mut rt.stdout(), line.as_slice())
}

/// Prints the counts of all files.
fn say_all(rt: &HostRuntime, counts: &Counts) -> Result<(), Refusal> {
    let mut line = Vec::new(rt.alloc());
    let mut put = put_last_line(&mut line, counts);
    for _ in 1..TRIES {
        if put.is_err() {
            put = put_last_line(&mut line, counts);
        }
    }
    write_whole(&mut rt.stdout(), line.as_slice())
}

/// Plays the text of a file, and says what came of it.
fn play_text<W: Wait>(
    rt: &HostRuntime,
    waits: &W,
    tries: u32,
    path: &str,
    text: &[u8],
) -> Result<Counts, Refusal> {
    let mut player = Player::new(rt.alloc(), tries, text);
    let played = play_file(waits, &mut player);
    let said = say_file(rt, path, &player);
    let counts = Counts {
        passed: player.rows.saturating_sub(player.failed),
        failed: player.failed,
    };
    drop(player);
    played?;
    said?;
    Ok(counts)
}

/// Plays a file.
fn play<W: Wait>(rt: &HostRuntime, waits: &W, tries: u32, path: &str) -> Result<Counts, Refusal> {
    let text = surely(|| read_file(rt, path))?;
    let counts = play_text(rt, waits, tries, path, text.as_slice());
    drop(text);
    counts
}

/// Plays the files, and makes calls again behind the word `--again`.
fn play_all<W: Wait>(rt: &HostRuntime, waits: &W, words: &[String]) -> Result<Counts, Refusal> {
    let mut all = Counts {
        passed: 0,
        failed: 0,
    };
    let mut tries = 1;
    for word in words.iter().skip(1) {
        if word.as_str() == "--again" {
            tries = TRIES;
        } else {
            let counts = play(rt, waits, tries, word.as_str())?;
            all.passed = all.passed.saturating_add(counts.passed);
            all.failed = all.failed.saturating_add(counts.failed);
        }
    }
    say_all(rt, &all)?;
    Ok(all)
}

fn status_of<W: Wait>(rt: &HostRuntime, waits: &W) -> Result<u8, Refusal> {
    let words = surely(|| read_words(rt))?;
    let played = play_all(rt, waits, words.as_slice());
    drop(words);
    Ok(if played?.failed == 0 { 0 } else { 1 })
}

fn main(rt: HostRuntime) -> ExitCode {
    match status_of(&rt, &rt) {
        Ok(status) => ExitCode::from(status),
        Err(refusal) => {
            let _ = println!(rt; "cpg_rows: {refusal}");
            ExitCode::from(2)
        }
    }
}
