//! The rule of a link's queue, and what its two passes know.

use crossbeam_queue::protocol::{Join, Lesson, Outcome, Protocol, Split};
use std::collections::LinkedList;

/// What a pass of the queue may do, what it has put and what it has taken. No value of it is made.
pub struct Known<T> {
    pub puts: bool,
    pub takes: bool,
    pub put: LinkedList<T>,
    pub taken: LinkedList<T>,
}

/// What was put is what was taken, followed by what stands in the queue.
pub struct InOrder;

impl<T> Protocol<T, Known<T>> for InOrder {
    ghost use Rattle.std.specs.Prelude.{true, []};
    ghost use Rattle.cpg_link.specs.Links.{known, Carries};

    ghost holds = { Carries };

    ghost first = { known true true [] [] };
}

/// The one pass that may do both becomes two, or two become one.
pub struct Ends;

impl<T> Split<Known<T>> for Ends {
    ghost use Rattle.std.specs.Prelude.{true, false, []};
    ghost use Rattle.cpg_link.specs.Links.{known};

    ghost left = { λ whole. known true false whole.put [] };

    ghost right = { λ whole. known false true [] whole.taken };
}

impl<T> Join<Known<T>> for Ends {
    ghost use Rattle.std.specs.Prelude.{true, false, []};
    ghost use Rattle.cpg_link.specs.Links.{known};

    ghost both = { λ sender receiver. known true true sender.put receiver.taken };

    ghost spent = { known false false [] [] };
}

/// A frame is put.
pub struct Puts;

impl<T> Outcome<T, Known<T>> for Puts {
    ghost use Rattle.std.specs.Prelude.{◌≡◌, ◌∷◌, ◌++◌, []};
    ghost use Rattle.cpg_link.specs.Links.{known};

    ghost then = { λ before frame after. after ≡ known before.puts before.takes (before.put ++ frame ∷ []) before.taken };
}

impl<T> Lesson<T, Known<T>> for Puts {
    ghost use Rattle.cpg_link.specs.Links.{StandBehind};

    ghost fact = { StandBehind };
}

/// A frame is taken.
pub struct Takes;

impl<T> Outcome<T, Known<T>> for Takes {
    ghost use Rattle.std.specs.Prelude.{◌≡◌, ◌∷◌, ◌++◌, []};
    ghost use Rattle.cpg_link.specs.Links.{known};

    ghost then = { λ before frame after. after ≡ known before.puts before.takes before.put (before.taken ++ frame ∷ []) };
}

impl<T> Lesson<T, Known<T>> for Takes {
    ghost use Rattle.std.specs.Prelude.{⊤};

    ghost fact = { λ knows items. ⊤ };
}

/// A frame is taken by the pass that may do both, which knows what stands in the queue.
pub struct Empties;

impl<T> Outcome<T, Known<T>> for Empties {
    ghost use Rattle.std.specs.Prelude.{◌≡◌, ◌∷◌, ◌++◌, []};
    ghost use Rattle.cpg_link.specs.Links.{known};

    ghost then = { λ before frame after. after ≡ known before.puts before.takes before.put (before.taken ++ frame ∷ []) };
}

impl<T> Lesson<T, Known<T>> for Empties {
    ghost use Rattle.std.specs.Prelude.{◌≡◌, ◌++◌};

    ghost fact = { λ knows items. knows.put ≡ knows.taken ++ items };
}
