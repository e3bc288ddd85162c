ghost use Rattle.std.specs.Prelude.{◌≡◌, ◌≤◌, true, false, length, MatchOption, slice_index};
ghost use Rattle.rules.specs.Calls.{zeroed};
ghost use Rattle.rules.specs.Rings.{minus};
ghost use Rattle.tables.specs.Counts.{usage_word, assign_word, row_word, plus, with_counts, more_counts, less_counts};
ghost use Rattle.tables.specs.Held.{changed};
ghost use Rattle.tables.specs.Living.{there};

use crate::row::Row;
use crate::table::row_start;

/// The word of a row that counts readings.
const USAGE: usize = 2;
/// The word of a row that counts writings.
const ASSIGN: usize = 3;

/// How often a name is read and written.
#[derive(Clone, Copy, PartialEq, Eq, Default, Debug)]
pub struct VarInfo {
    pub usage: u32,
    pub assign: u32,
}

impl VarInfo {
    /// Both counts added, modulo 2^32.
    pub fn wrapping_add(self, by: VarInfo) -> VarInfo
        ensures usage { result.usage ≡ plus self.usage by.usage }
        ensures assign { result.assign ≡ plus self.assign by.assign }
    {
        VarInfo {
            usage: self.usage.wrapping_add(by.usage),
            assign: self.assign.wrapping_add(by.assign),
        }
    }

    /// Both counts subtracted, modulo 2^32.
    pub fn wrapping_sub(self, by: VarInfo) -> VarInfo
        ensures usage { result.usage ≡ minus self.usage by.usage }
        ensures assign { result.assign ≡ minus self.assign by.assign }
    {
        VarInfo {
            usage: self.usage.wrapping_sub(by.usage),
            assign: self.assign.wrapping_sub(by.assign),
        }
    }

    /// The counts of a row.
    pub fn read(row: &[u32]) -> VarInfo
        requires { 4 ≤ length row.now }
        ensures usage { result.usage ≡ slice_index row.now usage_word }
        ensures assign { result.assign ≡ slice_index row.now assign_word }
    {
        VarInfo {
            usage: row[USAGE],
            assign: row[ASSIGN],
        }
    }

    /// Makes them the counts of a row.
    fn write(self, row: &mut [u32])
        requires { 4 ≤ length row.old }
        ensures { row.new ≡ with_counts self.usage self.assign row.old }
    {
        row[USAGE] = self.usage;
        row[ASSIGN] = self.assign;
    }
}

/// Rows with counts.
pub trait Counted: Row {
    ghost room: { 4 ≤ Self.WIDTH };

    /// The counts of a row.
    final fn counts(table: &[u32], row: usize) -> Option<VarInfo>
        ensures row { MatchOption result (there Self.WIDTH table.now row ≡ false) (λ i. (there Self.WIDTH table.now row ≡ true) × (i.usage ≡ row_word Self.WIDTH row usage_word table.now) × (i.assign ≡ row_word Self.WIDTH row assign_word table.now)) }
    {
        let start = row_start::<Self>(table, row)?;
        Some(VarInfo::read(&table[start..start + Self::WIDTH]))
    }

    // Adding and subtracting are two texts: one for both would take the change as a function, and the clause about that is longer.
    /// Adds to the counts of a row, modulo 2^32.
    final fn add(table: &mut [u32], row: usize, by: VarInfo)
        ensures words { table.new ≡ changed Self.WIDTH row (more_counts by.usage by.assign) table.old }
        ensures behind { zeroed Self.WIDTH table.new ≡ zeroed Self.WIDTH table.old }
    {
        if let Some(start) = row_start::<Self>(table, row) {
            let words = &mut table[start..start + Self::WIDTH];
            VarInfo::read(words).wrapping_add(by).write(words);
        }
    }

    /// Subtracts from the counts of a row, modulo 2^32.
    final fn subtract(table: &mut [u32], row: usize, by: VarInfo)
        ensures words { table.new ≡ changed Self.WIDTH row (less_counts by.usage by.assign) table.old }
        ensures behind { zeroed Self.WIDTH table.new ≡ zeroed Self.WIDTH table.old }
    {
        if let Some(start) = row_start::<Self>(table, row) {
            let words = &mut table[start..start + Self::WIDTH];
            VarInfo::read(words).wrapping_sub(by).write(words);
        }
    }
}
