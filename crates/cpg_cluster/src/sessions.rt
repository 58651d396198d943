//! The sessions that a script was given.

ghost use Rattle.std.specs.Prelude.{◌≡◌};
ghost use mathlib.Core.List.{IsPrefix};
ghost use Rattle.cpg_cluster.specs.Answers.{no_sessions, seen_of};

use cpg_daemon::{Front, HistoryName, Running, Session};
use std::alloc::Global;
use std::marker::Model;

/// The sessions that a script was given, by their numbers, from 1 as connections were accepted: none where one was closed.
/// With them lies a front of the history, in which those that were closed have ended, and which goes on from the worlds
/// whose marks were told. Contracts see the sessions, and what the front has seen.
#[derive(Drop)]
pub struct Sessions<B: HistoryName> {
    pub(crate) slots: Vec<Option<Session<B>>>,
    pub(crate) front: Option<Front<B>>,
}

impl<B: HistoryName> Model for Sessions<B> {
    ghost use Rattle.cpg_cluster.specs.Answers.{SessionsValue, seen_of};

    ghost Value = { SessionsValue };

    ghost view = { λ s. record { slots = s.slots.items; seen = seen_of s.front } };
}

impl<B: HistoryName> Sessions<B> {
    /// Before the first command.
    pub fn none(alloc: Global) -> Sessions<B>
        ensures { result ≡ no_sessions }
    {
        Sessions {
            slots: Vec::new(alloc),
            front: None,
        }
    }
}

/// What is known of the history, and what that front has seen.
#[tactic(auto, using(crate::proofs::Fronts::begins_any))]
pub(crate) fn learn<B: HistoryName, G>(
    running: &Running<B, G>,
    known: &mut Option<Front<B>>,
    front: Front<B>,
)
    ensures old { IsPrefix (seen_of known.old) (seen_of known.new) }
    ensures front { IsPrefix front.seen (seen_of known.new) }
{
    let both = match known.take() {
        None => front,
        Some(known) => running.join(known, front),
    };
    *known = Some(both);
}
