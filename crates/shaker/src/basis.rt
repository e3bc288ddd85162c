ghost use Rattle.std.specs.Prelude.{◌≡◌, not};
ghost use Rattle.rules.specs.Tree.{Chain, is_end};
ghost use Rattle.rules.specs.Removal.{By};
ghost use Rattle.records.specs.Chains.{as_chain};
ghost use Rattle.shaker.specs.Places.{place_of};
ghost use Rattle.shaker.specs.Treating.{choice};

use crate::perform::Verdict;
use crate::place::Place;
use records::Children;

/// What a removal goes by.
pub trait Basis {
    ghost by: { Self → By };

    // `had` is one bit: what was found is gone when the verdict falls, and whether there was any is all that is left of it.
    /// What the rules do with the first record of the chain, whose children are treated; `had` tells whether it was found with children.
    fn verdict(&self, place: Place, had: bool, chain: Children<'_>) -> Verdict
        ensures { (found : Chain) → had ≡ not (is_end found) → result ≡ choice (by self.now) (place_of place) found (as_chain chain.entry) };
}
