ghost use Rattle.std.specs.Prelude.{ℕ, ◌≤◌, List, length, IfOk, vec_len};
ghost use Rattle.rules.specs.Tables.{Counts};
ghost use Rattle.rings.specs.Ringed.{Ready};
ghost use Rattle.rings.specs.Spending.{Subtracted};
ghost use Rattle.dce.specs.Discounting.{most_work};
ghost use Rattle.rules.specs.Calls.{most_table_words};

use rings::subtract_cycles;
use std::alloc::{AllocError, Global};

/// The words of work memory that suffice for every call: five for each row that names may have, and one for each of edges.
pub const WORK: usize = 425_984;

/// The work memory of the calls.
pub(crate) fn work_memory(heap: Global) -> Result<Vec<u32>, AllocError>
    ensures { IfOk result (λ work. most_work ≤ vec_len work) }
{
    vec![in heap; 0; WORK]
}

/// Discounts the closed rings of a count.
pub(crate) fn discount(names: &mut [u32], edges: &[u32], work: &mut [u32])
    requires ready { (c : Counts) × (found : List ℕ) × (found' : List ℕ) × Ready c found found' names.old edges.now }
    requires names_fit { length names.old ≤ most_table_words }
    requires edges_fit { length edges.now ≤ most_table_words }
    requires work_fits { most_work ≤ length work.old }
    ensures { Subtracted names.old edges.now names.new }
{
    let Ok(()) = subtract_cycles(names, edges, work) else {
        unreachable!();
    };
}
