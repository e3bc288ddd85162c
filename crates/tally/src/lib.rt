#![tactic(auto)]

ghost use Rattle.tally.specs.Tallies.{CountsFit, FilledTold};

/// The events of a checked tree never bring a count to 2^32.
pub fn counts_stay_below_2_32()
    ensures { CountsFit }
{}

/// The events of a checked tree, entered into zeroed words, leave the words of the book's rows, or are refused as the book refuses them.
pub fn words_hold_the_rows_of_a_count()
    ensures { FilledTold }
{}
