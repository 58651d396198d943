//! What an entry is answered.

ghost use Rattle.std.specs.Prelude.{◌≡◌};
ghost use Rattle.cpg_record.specs.Membership.{is_allowed};
ghost use Rattle.cpg_record.specs.Verdicts.{reason_of};

use cpg_cred::By;

/// Why an entry was denied.
#[derive(Debug, Clone, Copy, PartialEq, Eq)]
pub enum Reason {
    /// The rule of that id denies it.
    Rule(u32),
    /// No rule speaks, and the right is denied by default.
    Default,
    /// The connection is in no group.
    Closed,
    /// The connection is in a group already.
    Joined,
    /// The process is a member of the group already.
    Twice,
    /// The group has 128 members.
    Full,
    /// The index is past the table's end.
    Position,
    /// The table has 64 rules.
    TableFull,
    /// No rule has that id.
    Absent,
}

impl Reason {
    /// The reason of a denial by a table.
    pub fn of(by: By) -> Reason
        ensures { result ≡ reason_of by }
    {
        match by {
            By::Rule(id) => Reason::Rule(id),
            By::Default | By::Root | By::Free => Reason::Default,
        }
    }
}

/// What an entry is answered at its place.
#[derive(Debug, Clone, Copy, PartialEq, Eq)]
pub enum Verdict {
    Allowed(By),
    Denied(Reason),
}

impl Verdict {
    /// Whether the entry acts.
    pub fn is_allowed(self) -> bool
        ensures { result ≡ is_allowed self }
    {
        match self {
            Verdict::Allowed(_) => true,
            Verdict::Denied(_) => false,
        }
    }
}
