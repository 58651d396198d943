//! How a script's commands are answered: how long a wait looks, and what is printed of an answer.
//!
//! The forms are this project's own. Proved: what is printed is the definition that a form names.

ghost use Rattle.std.specs.Prelude.{◌≡◌, ◌++◌, OnOk, IsOkUnless};
ghost use Rattle.cpg_cluster.specs.Lines.{answer_text};
ghost use Rattle.cpg_cluster.specs.Notes.{note_of};
ghost use Rattle.cpg_cluster.specs.Steps.{SeatsOn};

use crate::commands::Numbered;
use crate::echoing::put_after_echo;
use crate::noting::{Known, put_note};
use crate::printing::put_answer;
use crate::replies::Reply;
use cpg_board::Board;
use cpg_cred::Refusal;
use std::alloc::Global;

/// How long a session that waits is asked for its next event.
#[derive(Debug, Clone, Copy)]
pub enum WaitLimit {
    /// For `MOST_POLLS` looks.
    Looks,
    /// For so many milliseconds by the clock, and at least once.
    Millis(u64),
}

/// How a script's commands are answered.
#[derive(Debug, Clone, Copy)]
pub struct RunOptions<P> {
    /// How long a wait looks.
    pub wait_limit: WaitLimit,
    /// What is printed of an answer.
    pub form: P,
}

/// What prints answers to commands.
pub trait PutsAnswer {
    ghost use Rattle.std.specs.Prelude.{◌≡◌, ◌++◌, ℕ, List, OnOk, IsOkUnless};
    ghost use Rattle.cpg_cluster.specs.declared.commands.Numbered.{Numbered};
    ghost use Rattle.cpg_cluster.specs.Answers.{Answer};
    ghost use Rattle.cpg_cluster.specs.Steps.{SeatsOn};

    // What is printed of the answer to a command.
    ghost printed: { Self → Numbered → Answer → List ℕ };

    /// Puts what is printed of the answer to the command at the text's end. A seat of the answer is of that board.
    fn put(
        &self,
        alloc: Global,
        text: &mut Vec<u8>,
        board: &Board,
        line: &Numbered,
        answer: &Result<Reply, Refusal>,
    ) -> Result<(), Refusal>
        requires { SeatsOn board.now.cells answer.now }
        ensures ok { OnOk result (text.new.items ≡ text.old.items ++ printed self.now line.now answer.now) }
        ensures memory { IsOkUnless result Refusal.Memory };
}

/// Answers as text.
#[derive(Debug, Clone, Copy)]
pub enum TextForm {
    /// Alone.
    Plain,
    /// Each line after the number of the command's line and its session: `7 s2 `, or `7 - ` where it has none.
    Echoed,
}

impl PutsAnswer for TextForm {
    ghost use Rattle.cpg_cluster.specs.Lines.{shown_as};

    ghost printed = { λ shown. shown_as shown };

    fn put(
        &self,
        alloc: Global,
        text: &mut Vec<u8>,
        board: &Board,
        line: &Numbered,
        answer: &Result<Reply, Refusal>,
    ) -> Result<(), Refusal> {
        match self {
            TextForm::Plain => put_answer(alloc, text, board, answer),
            TextForm::Echoed => {
                let mut alone = Vec::new(alloc);
                put_answer(alloc, &mut alone, board, answer)?;
                put_after_echo(alloc, text, line, answer, alone.as_slice())
            }
        }
    }
}

/// Answers as text, and where a session that waited was told nothing, what is known, in a line that begins with `#`.
#[derive(Debug, Clone, Copy)]
pub struct NotedForm {
    /// How they are shown.
    pub shown: TextForm,
    /// What is known of each wait.
    pub known: Known,
}

/// Puts the text of an answer, and what is known of it, at the text's end.
fn put_noted(
    alloc: Global,
    text: &mut Vec<u8>,
    board: &Board,
    known: &Known,
    answer: &Result<Reply, Refusal>,
) -> Result<(), Refusal>
    requires { SeatsOn board.now.cells answer.now }
    ensures ok { OnOk result (text.new.items ≡ text.old.items ++ answer_text answer.now ++ note_of known.now answer.now) }
    ensures memory { IsOkUnless result Refusal.Memory }
{
    put_answer(alloc, text, board, answer)?;
    put_note(text, known, answer)
}

impl PutsAnswer for NotedForm {
    ghost use Rattle.cpg_cluster.specs.Notes.{noted_as};

    ghost printed = { λ noted. noted_as noted.known noted.shown };

    fn put(
        &self,
        alloc: Global,
        text: &mut Vec<u8>,
        board: &Board,
        line: &Numbered,
        answer: &Result<Reply, Refusal>,
    ) -> Result<(), Refusal> {
        match self.shown {
            TextForm::Plain => put_noted(alloc, text, board, &self.known, answer),
            TextForm::Echoed => {
                let mut alone = Vec::new(alloc);
                put_noted(alloc, &mut alone, board, &self.known, answer)?;
                put_after_echo(alloc, text, line, answer, alone.as_slice())
            }
        }
    }
}

/// Waits of `MOST_POLLS` looks, and answers alone.
pub const PLAIN: RunOptions<TextForm> = RunOptions {
    wait_limit: WaitLimit::Looks,
    form: TextForm::Plain,
};
