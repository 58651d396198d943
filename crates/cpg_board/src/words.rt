//! The words of the history of all that happens at nodes that share a board, and their rule. The history itself exists in
//! proofs alone. Where its events are counted, what threads share is its length, in a word that each event adds one to; else
//! it is words that nobody writes, one of which each event reads, so that no thread waits for another.
//!
//! The form is our own: the rule of an `atomic_table` says that every view fits the one history, and who has a view of
//! nodes may add their events.

ghost use Rattle.std.specs.Prelude.{◌≡◌, IfOk, IfSome};
ghost use Rattle.cpg_board.specs.Words.{first_seat, is_counted, many_words};

use atomic_table::{Perch, Seat, Table, TableRule};
use cpg_world_laws::WorldEvent;
use std::alloc::{AllocError, Global};
use std::collections::LinkedList;
use std::marker::Model;

/// How many words all threads share where events are counted, and how many where they are not.
const COUNTED: usize = 17;

const UNCOUNTED: usize = 18;

/// What one may add to a history, and has seen of it. It is for contracts: no value of it is made.
pub struct View {
    /// The first of the nodes whose events it may add.
    pub from: u64,
    /// The number after the last of them.
    pub to: u64,
    /// A beginning of the history, since which nothing happened at these nodes.
    pub seen: LinkedList<WorldEvent>,
    /// Another beginning of the history, of which one was told.
    pub also: LinkedList<WorldEvent>,
    /// A number that goes with it, as that of a frame among those sent.
    pub number: u64,
}

/// The rule of the words and of all views, by whether events are counted: there is one history, and each view fits it.
pub struct OneHistory;

impl TableRule<u64, View, bool> for OneHistory {
    ghost use Rattle.cpg_board.specs.Words.{Kept, all_nodes};

    ghost holds = { λ counted s. Kept counted s.words s.views };

    ghost first = { λ counted. all_nodes };
}

/// The words of a history, with their rule.
pub type Line = Table<u64, View, bool, OneHistory, Global>;

/// A right to add events of a history, as its words know it.
pub type Pens = Seat<u64, View>;

/// The words, and the right to add all events, until it is taken. Contracts see which table it is.
#[derive(Drop)]
pub(crate) struct Words {
    line: Line,
    pens: Perch<u64, View>,
    counted: bool,
}

impl Model for Words {
    ghost use Rattle.std.specs.Prelude.{◌≡◌};
    ghost use Rattle.atomic_table.specs.Seated.{TableId};
    ghost use Rattle.cpg_board.specs.Words.{all_nodes, many_words};

    ghost Value = { TableId };

    ghost view = { λ w. w.line.shared.table_id };

    ghost invariant = { λ w. (w.line.shared.table_id.words ≡ many_words w.counted) × (w.line.shared.key ≡ w.counted) × (w.pens.table_id ≡ w.line.shared.table_id) × (w.pens.view ≡ all_nodes) };
}

impl Words {
    /// The words of an empty history.
    #[tactic(auto, using(crate::proofs::Counting::tells_counted))]
    pub(crate) fn new(alloc: Global, counted: bool) -> Result<Words, AllocError>
        ensures { IfOk result (λ w. is_counted w ≡ counted) }
    {
        let (line, seat) = if counted {
            Table::of_words(alloc, &[0; COUNTED], &counted)?
        } else {
            Table::of_words(alloc, &[0; UNCOUNTED], &counted)?
        };
        let pens = Perch::new(&seat, 0);
        // A new perch is free, which no clause says of one that others might share.
        pens.give(seat, 0, 2).map_err(|_| AllocError)?;
        Ok(Words {
            line,
            pens,
            counted,
        })
    }

    /// The words as their steps need them.
    #[tactic(auto, using(crate::proofs::Counting::tells_counted))]
    pub(crate) fn line(&self) -> &Line
        ensures table { result.now.shared.table_id ≡ self.now }
        ensures words { (self.now).words ≡ many_words (is_counted self.now) }
        ensures key { result.now.shared.key ≡ is_counted self.now }
    {
        &self.line
    }

    /// Whether events are counted.
    #[tactic(auto, using(crate::proofs::Counting::tells_counted))]
    pub(crate) fn is_counted(&self) -> bool
        ensures { result ≡ is_counted self.now }
    {
        self.counted
    }

    /// The right to add all events, if nobody took it before.
    pub(crate) fn take(&self) -> Option<Pens>
        ensures { IfSome result (λ pens. (pens.table_id ≡ self.now) × (pens.me ≡ first_seat)) }
    {
        let (_, pens) = self.pens.take(0);
        pens
    }
}
