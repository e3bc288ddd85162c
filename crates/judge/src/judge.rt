ghost use Rattle.std.specs.Prelude.{◌≡◌, Bool};
ghost use Rattle.rules.specs.Tree.{Chain};
ghost use Rattle.rules.specs.Judges.{Lawful};
ghost use Rattle.records.specs.Chains.{as_chain};

use records::Children;

/// Tells whether an expression may act, that is, whether evaluating it may have side effects.
pub trait Judge {
    ghost acts: { Self → Chain → Bool };

    /// Whether the first record of the chain may act.
    fn may_act(&self, chain: Children<'_>) -> bool
        ensures { result ≡ acts self.now (as_chain chain.entry) };

    ghost lawful: { (s : Self) → Lawful (acts s) };
}
