//! What a decision rests on.

use std::fmt;

/// What a decision rests on: a rule of the group's table by its id, or one of three general reasons.
#[derive(Debug, Clone, Copy, PartialEq, Eq)]
pub enum By {
    /// The rule of that id, which is the place of the edit that put it into its table.
    Rule(u32),
    /// No rule spoke: the default of the right that was asked for.
    Default,
    /// The asker's user is 0, who may edit every table.
    Root,
    /// The operation needs no right.
    Free,
}

impl fmt::Display for By {
    ghost use Rattle.cpg_cred.specs.Shown.{by_text};
    ghost use Rattle.std.specs.Prelude.{Some};

    ghost output = { λ by. Some (by_text by) };

    fn fmt<W: fmt::Write>(&self, f: &mut fmt::Formatter<W>) -> fmt::Result {
        match self {
            By::Rule(id) => write!(f, "rule {id}"),
            By::Default => write!(f, "default"),
            By::Root => write!(f, "root"),
            By::Free => write!(f, "free"),
        }
    }
}
