ghost use Rattle.std.specs.Prelude.{◌≡◌, IfErr, ◌≢◌};
ghost use Rattle.tables_tests.specs.declared.carried.Counting.TheVariants.{Table};

use tables::{BookRow, Counted, Flag, Id, Names, TableFault, VarInfo};

/// A fault of something that fills tables: one of a table, or one of its own.
#[derive(Clone, Copy, PartialEq, Eq, Debug)]
pub enum Counting {
    Table(TableFault),
    Unnamed,
}

impl From<TableFault> for Counting {
    ghost from_gives = { λ x y. y ≡ Table x };

    fn from(fault: TableFault) -> Counting {
        Counting::Table(fault)
    }
}

/// Counts a reading of a name.
pub fn read(names: &mut [u32], id: Id, at: u32) -> Result<usize, Counting>
    ensures refused { IfErr result (λ e. (id.symbol ≡ 0 → e ≡ Counting.Unnamed) × ((id.symbol ≢ 0) → e ≡ Counting.Table (TableFault.Names at))) }
{
    if id.symbol == 0 {
        return Err(Counting::Unnamed);
    }
    let row = Names::need(names, id, at)?;
    Names::add(
        names,
        row,
        VarInfo {
            usage: 1,
            assign: 0,
        },
    );
    Names::set(names, row, Flag::Counted);
    Ok(row)
}
