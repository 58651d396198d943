//! Kinds of script, and what each expects of a line.

ghost use Rattle.std.specs.Prelude.{◌≡◌};
ghost use Rattle.cpg_hint.specs.Hints.{nodes_of, pattern_of};

use crate::patterns::Expected;

/// A kind of script.
#[derive(Debug, Clone, Copy)]
pub enum ScriptKind {
    /// Entries that are judged.
    Judge,
    /// Names, conf texts and asks.
    Accept,
    /// Commands over a world of so many nodes.
    Step(u8),
    /// Commands of sessions over a cluster of so many nodes.
    Cluster(u8),
}

impl ScriptKind {
    /// How many nodes there are, where that matters.
    pub fn nodes(self) -> u8
        ensures { result ≡ nodes_of self }
    {
        match self {
            ScriptKind::Step(nodes) | ScriptKind::Cluster(nodes) => nodes,
            ScriptKind::Judge | ScriptKind::Accept => 0,
        }
    }

    /// What is wanted of a line.
    pub fn pattern(self) -> &'static [Expected]
        ensures { result.now ≡ pattern_of self }
    {
        match self {
            ScriptKind::Judge => &[
                Expected::Caller,
                Expected::Pid,
                Expected::Uid,
                Expected::Gid,
                Expected::Op,
            ],
            ScriptKind::Accept => &[Expected::Uid, Expected::Gid],
            ScriptKind::Step(_) => &[Expected::StepCommand],
            ScriptKind::Cluster(_) => &[Expected::RunCommand],
        }
    }
}
