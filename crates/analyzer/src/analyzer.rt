ghost use Rattle.std.specs.Prelude.{◌^◌, ◌<◌, ◌≤◌, length};

use crate::notes::Notes;
use crate::scope::Scope;
use records::{Id, MOST_NESTING};

/// The walk that counts: what surrounds the place that it has come to, the names that hold a reference there, the tables
/// that it fills, its work memory, and what the innermost scope has noted.
#[derive(Drop)]
pub(crate) struct Analyzer<'t> {
    pub(crate) scope: Scope,
    // How much of it is in use lies in `scope`, which a guard puts back.
    pub(crate) path: [Id; MOST_NESTING],
    // Two tables side by side: lent within a struct of their own, the check loses what they are when the loan ends.
    pub(crate) names: &'t mut [u32],
    pub(crate) edges: &'t mut [u32],
    pub(crate) seen: &'t mut [u32],
    pub(crate) notes: Notes,
    ghost held: { scope.len ≤ length path },
    ghost short: { length names.now < 2 ^ 32 },
}

/// A walk while it visits the children of a record. What surrounds the record comes back at the end.
pub(crate) struct Entered<'a, 't> {
    pub(crate) analyzer: &'a mut Analyzer<'t>,
    pub(crate) saved: Scope,
    ghost held: { saved.len ≤ length analyzer.now.path },
}

impl Drop for Entered<'_, '_> {
    ghost use Rattle.analyzer.specs.Visits.{Restores};

    fn drop(self)
        ensures { Restores self.entry.analyzer.now self.entry.saved self.exit.0.now }
    {
        self.analyzer.scope = self.saved;
        let Entered {
            analyzer: _,
            saved: _,
        } = self;
    }
}
