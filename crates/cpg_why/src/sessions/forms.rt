//! A form of answers that prints nothing.

use cpg_board::Board;
use cpg_cluster::{Numbered, PutsAnswer, Reply};
use cpg_cred::Refusal;
use std::alloc::Global;

/// Answers of which nothing is printed.
#[derive(Debug, Clone, Copy)]
pub struct Unprinted;

impl PutsAnswer for Unprinted {
    ghost use Rattle.cpg_why.specs.Sessions.{unprinted};

    ghost printed = { λ form. unprinted };

    fn put(
        &self,
        _alloc: Global,
        _text: &mut Vec<u8>,
        _board: &Board,
        _line: &Numbered,
        _answer: &Result<Reply, Refusal>,
    ) -> Result<(), Refusal> {
        Ok(())
    }
}
