//! How the answers of a cluster are written.
//!
//! Proved: each form is the definition of its crate.

use cpg_board::Board;
use cpg_cluster::{NotedForm, Numbered, PutsAnswer, Reply, TextForm};
use cpg_cred::Refusal;
use cpg_json::sessions::AnswersAsJson;
use std::alloc::Global;

/// A form of the answers of a cluster.
#[derive(Debug, Clone, Copy)]
pub enum OutputForm {
    /// As text.
    Text(TextForm),
    /// As text, with what is known where no event came.
    Noted(NotedForm),
    /// As objects of JSON, one a line.
    Json,
}

impl PutsAnswer for OutputForm {
    ghost use Rattle.cpg_console.specs.OutputForms.{output_as};

    ghost printed = { λ form. output_as form };

    fn put(
        &self,
        alloc: Global,
        text: &mut Vec<u8>,
        board: &Board,
        line: &Numbered,
        answer: &Result<Reply, Refusal>,
    ) -> Result<(), Refusal> {
        match self {
            OutputForm::Text(shown) => shown.put(alloc, text, board, line, answer),
            OutputForm::Noted(noted) => noted.put(alloc, text, board, line, answer),
            OutputForm::Json => AnswersAsJson.put(alloc, text, board, line, answer),
        }
    }
}
