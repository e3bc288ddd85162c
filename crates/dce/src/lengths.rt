ghost use Rattle.std.specs.Prelude.{◌≡◌, true, false, MatchResult};
ghost use Rattle.dce.specs.Calls.{lengths_fit};

use crate::fault::LengthsFault;
use checker::lengths_fit;

/// The most words of a table or of the retain list.
pub const MOST_TABLE_WORDS: usize = 393_216;

/// Tests the lengths of what a call is handed.
pub(crate) fn check_lengths(
    tree: &[u32],
    declared: &[u32],
    names: &[u32],
    edges: &[u32],
    retain: &[u32],
) -> Result<(), LengthsFault>
    ensures { MatchResult result (λ _. lengths_fit tree.now declared.now names.now edges.now retain.now ≡ true) (λ _. lengths_fit tree.now declared.now names.now edges.now retain.now ≡ false) }
{
    let fit = lengths_fit(tree.len())
        && declared.len() <= MOST_TABLE_WORDS
        && names.len() <= MOST_TABLE_WORDS
        && edges.len() <= MOST_TABLE_WORDS
        && retain.len() <= MOST_TABLE_WORDS;
    if fit { Ok(()) } else { Err(LengthsFault) }
}
