ghost use Rattle.std.specs.Prelude.{◌≡◌, ⊤, ◌/◌, ◌≤◌, length};
ghost use Rattle.std.specs.Iterator.{at_most};
ghost use Rattle.tables.specs.Living.{rows, used};
ghost use Rattle.tables.specs.Walking.{rows_left, GivesRow};

use crate::row::Row;
use std::marker::PhantomData;

// A struct: the type of `chunks_exact` under `take_while` names a closure, which a result cannot.
/// The rows of a table in their order, each as its words.
pub struct Rows<'t, R> {
    left: &'t [u32],
    of: PhantomData<R>,
}

// By hand, since a derive asks `Drop` of `R`.
impl<R> Drop for Rows<'_, R> {
    fn drop(self) {
        let Rows { left: _, of: _ } = self;
    }
}

impl<'t, R: Row> Rows<'t, R> {
    /// Those of the table that these words are.
    pub fn of(table: &'t [u32]) -> Rows<'t, R>
        ensures left { rows_left R.WIDTH result ≡ rows R.WIDTH table.now }
        ensures few { used R.WIDTH table.now ≤ length table.now }
        ensures whole { used R.WIDTH table.now ≤ length table.now / R.WIDTH }
    {
        Rows {
            left: table,
            of: PhantomData,
        }
    }
}

impl<'t, R: Row> Iterator for Rows<'t, R> {
    type Item = &'t [u32];

    ghost can_next = { λ _. ⊤ };

    ghost next_gives = { GivesRow R.WIDTH };

    ghost remaining = { λ s. at_most (length (rows_left R.WIDTH s)) };

    fn next(&mut self) -> Option<&'t [u32]> {
        let (row, left) = self.left.split_at_checked(R::WIDTH)?;
        if row[0] == 0 {
            return None;
        }
        self.left = left;
        Some(row)
    }
}
