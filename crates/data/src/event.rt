ghost use Rattle.std.specs.Prelude.{◌≡◌, ◌≤◌, length, IfOk};
ghost use Rattle.rules.specs.Calls.{zeroed};
ghost use Rattle.rules.specs.Refusals.{Says};
ghost use Rattle.rules.specs.Tables.{names_width};
ghost use Rattle.tables.specs.Faults.{number, place};
ghost use Rattle.tables.specs.Living.{keyed};
ghost use Rattle.data.specs.Events.{placed_at, row_placed, counted};

use records::Id;
use tables::{BookRow, Counted, Flag, Names, TableFault, VarInfo};

/// A reference to a name, or a mark: what it adds to the counts, whether the name is an entry then, and the record that refers.
#[derive(Clone, Copy, PartialEq, Eq, Debug)]
pub struct Event {
    pub id: Id,
    pub by: VarInfo,
    pub entry: bool,
    pub at: u32,
}

/// Adds to the counts of a name, which is then counted, and an entry if it is to be one.
#[tactic(auto, unfolding(crate::specs::Events::counted, crate::specs::Events::name_placed))]
pub fn count_name(names: &mut [u32], event: Event) -> Result<(), TableFault>
    ensures is { Says (counted event.id event.by.usage event.by.assign event.entry event.at names.old) (λ _. names.new) number place result }
    ensures behind { zeroed names_width names.new ≡ zeroed names_width names.old }
{
    let row = needed::<Names>(names, event.id, event.at)?;
    Names::add(names, row, event.by);
    if event.entry {
        Names::set(names, row, Flag::Entry);
    }
    Names::set(names, row, Flag::Counted);
    Ok(())
}

/// The row of a key, which gets the first free one if it has none. The record `at` needs it.
pub(crate) fn needed<R: BookRow>(
    table: &mut [u32],
    key: R::Key,
    at: u32,
) -> Result<usize, TableFault>
    ensures is { Says (row_placed (keyed R.Key.eq R.key_of key) R.WIDTH (R.full at) (R.fresh key) table.old) (λ n. placed_at n table.new) number place result }
    ensures few { IfOk result (λ n. n ≤ length table.new) }
    ensures behind { zeroed R.WIDTH table.new ≡ zeroed R.WIDTH table.old }
{
    R::need(table, key, at)
}
