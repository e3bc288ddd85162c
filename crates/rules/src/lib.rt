#![tactic(auto)]

ghost use Rattle.rules.specs.Facts.{CheckSound, CheckComplete, CheckMost, ReadBack, TreeIsRead};
ghost use Rattle.rules.specs.Reaching.{LeadsTold, ComponentTold};
ghost use Rattle.rules.specs.Scripts.{Shown};

/// The worked scripts come out of the definitions as they should: passes, trees left and counts, by computation.
pub fn worked_scripts()
    ensures { Shown }
{}

/// The check takes exactly the trees that the words hold, and reading from the root gives what it took.
pub fn check_takes_what_words_hold()
    ensures sound { CheckSound }
    ensures complete { CheckComplete }
    ensures most { CheckMost }
    ensures back { ReadBack }
    ensures read { TreeIsRead }
{}

/// The computed tests of the rings say what they should: edges lead from one name to another, and two names share a component.
pub fn components_are_mutual_reach()
    ensures leads { LeadsTold }
    ensures component { ComponentTold }
{}
