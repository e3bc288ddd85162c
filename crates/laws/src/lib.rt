#![tactic(auto)]

ghost use Rattle.laws.specs.Law.{LawAboutRuns};
ghost use Rattle.laws.specs.KeepsTree.{KeepsFormed, KeepsApart, KeepsLevel, KeepsNumbers, KeepsRoot, CheckedAgain, FewerReached, LostReached};
ghost use Rattle.laws.specs.RepeatsLaw.{BoundNeverEnds};

/// The law about runs, whole: for every setting, retain list, lawful judge, list of calls, tree and tables, the order of
/// top-level items does not matter, references left to taken names stand inside their closed ring, and completed repeats
/// are short and leave no removable function unused. No repeat is ended by the bound on passes that its definition has.
pub fn law_about_runs()
    ensures law { LawAboutRuns }
    ensures bound { BoundNeverEnds }
{}

/// What a pass leaves of a tree that the check took is taken by the check, and each removal leaves fewer records.
pub fn what_a_pass_leaves_is_checked_again()
    ensures formed { KeepsFormed }
    ensures apart { KeepsApart }
    ensures level { KeepsLevel }
    ensures numbers { KeepsNumbers }
    ensures root { KeepsRoot }
    ensures again { CheckedAgain }
    ensures fewer { FewerReached }
    ensures lost { LostReached }
{}
