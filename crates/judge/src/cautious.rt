ghost use Rattle.std.specs.Prelude.{◌≡◌};
ghost use Rattle.rules.specs.Judges.{cautious};
ghost use Rattle.judge.specs.Numbers.{cautious_lawful};
ghost use Rattle.judge.specs.Quiet.{quiet};
ghost use Rattle.records.specs.KindWords.{kind_word};

use crate::judge::Judge;
use records::{Children, Kind};

/// The judge to whom everything acts but a literal, a function expression and an arrow function.
#[derive(Clone, Copy)]
pub struct Cautious;

impl Judge for Cautious {
    ghost acts = { λ _ c. cautious c };

    ghost lawful = { λ _. cautious_lawful };

    fn may_act(&self, chain: Children<'_>) -> bool {
        chain
            .first()
            .is_some_and(|node| !is_quiet(node.record.kind))
    }
}

/// Whether a record of this kind never acts.
fn is_quiet(kind: Kind) -> bool
    ensures { result ≡ quiet (kind_word kind) }
{
    matches!(kind, Kind::Literal | Kind::FunctionExpression | Kind::Arrow)
}
