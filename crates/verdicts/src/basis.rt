ghost use Rattle.std.specs.Prelude.{◌≡◌};
ghost use Rattle.rules.specs.Kinds.{member};
ghost use Rattle.rules.specs.Names.{among};
ghost use Rattle.rules.specs.Tables.{read_declared};
ghost use Rattle.rules.specs.Removal.{permitted, unused, never_read, can_drop_binding, can_drop_assignment_to};
ghost use Rattle.records.specs.Ids.{name_of_id};
ghost use Rattle.shaker.specs.Places.{place_of};
ghost use Rattle.verdicts.specs.Grounds.{row_in_words, by_of, silent};

use records::Id;
use shaker::place::Place;
use tables::{Declared, Names, VarInfo, find};

/// The settings.
#[derive(Clone, Copy)]
pub struct Config {
    pub top_level: bool,
    pub preserve_imports_with_side_effects: bool,
}

/// What a removal goes by beside the judge: the settings, the retain list, and the words of declared and names.
#[derive(Clone, Copy)]
pub struct Basis<'t> {
    pub config: Config,
    pub retain: &'t [u32],
    pub declared: &'t [u32],
    pub names: &'t [u32],
}

/// Whether the retain list has the symbol.
fn retained(retain: &[u32], symbol: u32) -> bool
    ensures { result ≡ member symbol retain.now }
{
    // A rule of docs/DECISIONS.md: the retain list is walked by a `for` over the slice, with an invariant over the symbols seen.
    for kept in retain {
        if *kept == symbol {
            return true;
        }
    }
    false
}

/// Whether the name is one of the declared names.
fn is_declared(declared: &[u32], id: Id) -> bool
    ensures { result ≡ among (name_of_id id) (read_declared declared.now) }
{
    find::<Declared>(declared, &id).is_some()
}

// A place stands beside the basis in the methods and not in it: the place changes at each record, and the basis never.
impl<'t> Basis<'t> {
    // `is_var` is a flag, here and in what asks it: it is the original's own parameter.
    /// Whether a name's declaration may go at a place: without `top_level`, functions and `var` need a surrounding Function, the rest a surrounding Block.
    fn permits(&self, place: Place, is_var: bool) -> bool
        ensures { result ≡ permitted (by_of silent self.now).config (place_of place) is_var }
    {
        self.config.top_level
            || if is_var {
                place.in_fn
            } else {
                place.in_block_stmt
            }
    }

    /// Whether a name's row is missing, uncounted or with counts 0.
    fn is_unused(&self, id: Id) -> bool
        ensures { result ≡ unused (row_in_words self.now.names.now (name_of_id id)) }
    {
        Names::info(self.names, id).is_none_or(|info| info.counts == VarInfo::default())
    }

    /// Whether a name was counted and nothing reads it; an entry is read from outside, except under `top_level`.
    fn is_never_read(&self, id: Id) -> bool
        ensures { result ≡ never_read (by_of silent self.now).config (row_in_words self.now.names.now (name_of_id id)) }
    {
        let top_level = self.config.top_level;
        Names::info(self.names, id).is_some_and(|info| info.counts.usage == 0
            && (top_level || !info.entry))
    }

    /// Whether a name's declaration can go.
    pub fn can_drop_binding(&self, place: Place, is_var: bool, id: Id) -> bool
        ensures { result ≡ can_drop_binding (by_of silent self.now) (place_of place) is_var (name_of_id id) }
    {
        self.permits(place, is_var) && !retained(self.retain, id.symbol) && self.is_unused(id)
    }

    /// Whether an Assignment to a name can go. Whether it is a `var` is not looked at.
    pub fn can_drop_assignment_to(&self, place: Place, id: Id) -> bool
        ensures { result ≡ can_drop_assignment_to (by_of silent self.now) (place_of place) (name_of_id id) }
    {
        self.permits(place, false)
            && !retained(self.retain, id.symbol)
            && is_declared(self.declared, id)
            && self.is_never_read(id)
    }
}
