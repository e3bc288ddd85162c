ghost use Rattle.std.specs.Prelude.{◌≡◌, Some};
ghost use Rattle.std.specs.Fmt.{WritesOnOk};
ghost use Rattle.tables.specs.Living.{rows};
ghost use Rattle.answers.specs.Lines.{words_text, row_text, rows_text};

use std::fmt;
use std::marker::PhantomData;
use tables::{Row, Rows};

/// A table as text: each row behind a space, its words apart by colons.
pub struct TableText<'t, R> {
    words: &'t [u32],
    of: PhantomData<R>,
}

// By hand, since a derive asks `Drop` of `R`.
impl<R> Drop for TableText<'_, R> {
    fn drop(self) {
        let TableText { words: _, of: _ } = self;
    }
}

impl<'t, R> TableText<'t, R> {
    /// The text of the table that these words are.
    pub fn of(words: &'t [u32]) -> TableText<'t, R>
        ensures { result.words.now ≡ words.now }
    {
        TableText {
            words,
            of: PhantomData,
        }
    }
}

impl<R: Row> fmt::Display for TableText<'_, R> {
    ghost output = { λ t. Some (rows_text (rows R.WIDTH t.words.now)) };

    fn fmt<W: fmt::Write>(&self, f: &mut fmt::Formatter<W>) -> fmt::Result {
        for row in Rows::<R>::of(self.words) {
            write_row(row, f)?;
        }
        Ok(())
    }
}

/// Writes one row.
fn write_row<W: fmt::Write>(row: &[u32], f: &mut fmt::Formatter<W>) -> fmt::Result
    ensures { WritesOnOk W.write_str_gives f.old result (row_text row.now) f.new }
{
    let Some((first, others)) = row.split_first() else {
        return Ok(());
    };
    write!(f, " {first}")?;
    write_words(others, f)
}

/// Writes the words of a row behind its first.
fn write_words<W: fmt::Write>(words: &[u32], f: &mut fmt::Formatter<W>) -> fmt::Result
    ensures { WritesOnOk W.write_str_gives f.old result (words_text words.now) f.new }
{
    for word in words {
        write!(f, ":{word}")?;
    }
    Ok(())
}
