ghost use Rattle.std.specs.Prelude.{◌≡◌};
ghost use Rattle.analyzer.specs.declared.fault.CountFault.TheVariants.{Table};

use tables::TableFault;

// A rule of the project: each step has an error of its own, in which that of the step below it stands.
/// Why a count stops.
#[derive(Clone, Copy, PartialEq, Eq, Debug)]
pub enum CountFault {
    /// A table has no whole row free.
    Table(TableFault),
}

impl From<TableFault> for CountFault {
    ghost from_gives = { λ x y. y ≡ Table x };

    fn from(fault: TableFault) -> CountFault {
        CountFault::Table(fault)
    }
}
