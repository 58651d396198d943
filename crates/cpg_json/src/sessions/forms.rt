//! Answers to the commands of a script of sessions, as objects of JSON.
//!
//! Proved: what is put is the definition in `specs/SessionAnswers.antt`.

use crate::marks::put_line_number;
use crate::sessions::answers::{find_session, put_answer_json};
use cpg_board::Board;
use cpg_cluster::{Numbered, PutsAnswer, Reply};
use cpg_cred::Refusal;
use std::alloc::Global;

/// Answers as objects of JSON, one a line.
#[derive(Debug, Clone, Copy)]
pub struct AnswersAsJson;

impl PutsAnswer for AnswersAsJson {
    ghost use Rattle.cpg_json.specs.SessionAnswers.{printed_json};

    ghost printed = { λ form. printed_json };

    fn put(
        &self,
        alloc: Global,
        text: &mut Vec<u8>,
        board: &Board,
        line: &Numbered,
        answer: &Result<Reply, Refusal>,
    ) -> Result<(), Refusal> {
        let mut head = Vec::new(alloc);
        put_line_number(&mut head, Some(line.number))?;
        let session = find_session(&line.command);
        put_answer_json(text, board, head.as_slice(), session, answer)
    }
}
