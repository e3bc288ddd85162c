ghost use Rattle.std.specs.Prelude.{◌≡◌, ◌+◌, ◌*◌, ◌/◌, ◌<◌, ◌≤◌, true, false, [], length, IfSome, IfOk, IfErr, MatchOption, nat_lt};
ghost use Rattle.rules.specs.Calls.{zeroed};
ghost use Rattle.tables.specs.Living.{rows, used, free, there, IsThere, start_of, keyed, first_row, added, Free};
ghost use Rattle.tables.specs.Held.{Holds};
ghost use Rattle.tables.specs.Inserting.{ComesAlive, FoundThere, OthersStay, HoldsMore, answered, placed};

use crate::fault::TableFault;
use crate::row::Row;
use crate::rows::Rows;

/// The number of the first row with the key.
pub fn find<R: Row>(table: &[u32], key: &R::Key) -> Option<usize>
    ensures row { result ≡ first_row (keyed R.Key.eq R.key_of key.now) (rows R.WIDTH table.now) }
    ensures there { IfSome result (IsThere R.WIDTH table.now) }
{
    let place = Rows::<R>::of(table).position(|row| *key == R::key(row))?;
    Some(place + 1)
}

/// How many rows the table has.
pub fn row_count<R: Row>(table: &[u32]) -> usize
    ensures row { result ≡ used R.WIDTH table.now }
    ensures few { (result ≤ length table.now / R.WIDTH) × (result ≤ length table.now) }
{
    Rows::<R>::of(table).count()
}

/// Whether the table has a row.
pub fn has_row<R: Row>(table: &[u32]) -> bool
    ensures { result ≡ nat_lt 0 (used R.WIDTH table.now) }
{
    Rows::<R>::of(table).next().is_some()
}

// Where it begins, and not its words: half of those who ask read them, and half write.
/// Where the row of this number begins, if it is one of the whole rows.
pub fn row_start<R: Row>(table: &[u32], number: usize) -> Option<usize>
    ensures { MatchOption result (there R.WIDTH table.now number ≡ false) (λ s. (there R.WIDTH table.now number ≡ true) × (s ≡ start_of R.WIDTH number) × (s + R.WIDTH ≤ length table.now)) }
{
    if number == 0 || number > table.len() / R::WIDTH {
        return None;
    }
    Some((number - 1) * R::WIDTH)
}

/// The first free row: its number, and where it begins.
#[derive(Clone, Copy)]
struct FreeRow {
    number: usize,
    start: usize,
}

/// The first free row, if a whole one is free.
fn free_row<R: Row>(table: &[u32]) -> Option<FreeRow>
    ensures { MatchOption result (free R.WIDTH table.now ≡ false) (λ f. Free R.WIDTH table.now f.number f.start) }
{
    let number = row_count::<R>(table) + 1;
    let start = row_start::<R>(table, number)?;
    Some(FreeRow { number, start })
}

/// Puts a new row with the key behind the last row, and gives its number. `at` is the record that needs it.
pub fn insert<R: Row>(table: &mut [u32], key: R::Key, at: u32) -> Result<usize, TableFault>
    ensures words { table.new ≡ added R.WIDTH (R.fresh key) table.old }
    ensures row { IfOk result (λ n. (n ≡ used R.WIDTH table.old + 1) × (free R.WIDTH table.old ≡ true)) }
    ensures there { IfOk result (IsThere R.WIDTH table.new) }
    ensures refused { IfErr result (λ e. (e ≡ R.full at) × (free R.WIDTH table.old ≡ false)) }
    ensures alive { ComesAlive R.WIDTH (R.fresh key) table.old table.new }
    ensures found { FoundThere (keyed R.Key.eq R.key_of key) R.WIDTH (R.fresh key) table.old table.new }
    ensures others { OthersStay R.Key.eq R.key_of key R.WIDTH table.old table.new }
    ensures held { HoldsMore R.WIDTH (R.fresh key) table.old table.new }
{
    let free = free_row::<R>(table).ok_or(R::fault(at))?;
    R::write(&mut table[free.start..free.start + R::WIDTH], key);
    Ok(free.number)
}

// What stays behind the rows is a clause of each writer, and no struct's: what counts holds tables in a struct of its own,
// and of words lent within a struct in a struct the check does not know what they are when the loan ends.
/// The number of the row with the key, which is put behind the last row if it is not there. `at` is the record that needs it.
pub fn need<R: Row>(table: &mut [u32], key: R::Key, at: u32) -> Result<usize, TableFault>
    ensures row { result ≡ answered R.WIDTH (R.full at) table.old (first_row (keyed R.Key.eq R.key_of key) (rows R.WIDTH table.old)) }
    ensures there { IfOk result (IsThere R.WIDTH table.new) }
    ensures words { table.new ≡ placed R.WIDTH (R.fresh key) table.old (first_row (keyed R.Key.eq R.key_of key) (rows R.WIDTH table.old)) }
    ensures behind { zeroed R.WIDTH table.new ≡ zeroed R.WIDTH table.old }
{
    match find::<R>(table, &key) {
        Some(number) => Ok(number),
        None => insert::<R>(table, key, at),
    }
}

/// Makes every whole row 0. The words past the last whole row stay.
pub fn zero_rows<R: Row>(table: &mut [u32])
    ensures words { table.new ≡ zeroed R.WIDTH table.old }
    ensures held { Holds R.WIDTH (λ r. r) table.old [] table.new }
{
    let whole = table.len() / R::WIDTH * R::WIDTH;
    table[..whole].fill(0);
}
