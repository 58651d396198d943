//! What follows from the definitions. Each function has nothing to do: its contract is the law.

ghost use Rattle.cpg_why.specs.Laws.{NamedIsTheVerdicts, PassedDoNotMatch, RemovalTellsWhatDecides, TellsDefaults, TellsRules, TellsTheUnmet, TellsVerdictsUnder, TellsVerdictsWithout, TellsWhereNotMatched};
ghost use Rattle.cpg_why.specs.Standings.{ToldByStanding};

/// The rule that is told as what decided is the one that decides, and where the default is told no rule speaks; where a
/// verdict is by a rule, that one is told.
pub fn named_decides()
    ensures rules { TellsRules }
    ensures defaults { TellsDefaults }
    ensures verdicts { NamedIsTheVerdicts }
{}

/// The rule that is named is the one whose removal changes what decides: without it the decision rests on something
/// else, and without any other rule it is the same.
pub fn removal_tells_what_decides()
    ensures { RemovalTellsWhatDecides }
{}

/// What stands behind `without it` is the verdict on the entry if its group's table lacked that rule, all else the same.
pub fn tells_verdicts_without()
    ensures under { TellsVerdictsUnder }
    ensures without { TellsVerdictsWithout }
{}

/// A rule that is passed does not match the asker, and the condition that is told is one that it has and the asker does
/// not meet.
pub fn passed_do_not_match()
    ensures passed { PassedDoNotMatch }
    ensures told { TellsWhereNotMatched }
    ensures unmet { TellsTheUnmet }
{}

/// A connection is told something of an entry exactly where it stands so to it: it made the entry, or the entry is allowed
/// and of the group that it is in.
pub fn told_by_standing()
    ensures { ToldByStanding }
{}
