ghost use Rattle.std.specs.Prelude.{◌≡◌, true, false, MatchResult};
ghost use Rattle.rules.specs.Calls.{begun};
ghost use Rattle.dce.specs.Calls.{lengths_fit, state, state_by};
ghost use Rattle.dce.specs.Faults.{NotBegun};

use crate::discount::work_memory;
use crate::fault::BeginFault;
use crate::lengths::check_lengths;
use crate::tree_shaker::TreeShaker;
use judge::Judge;
use std::alloc::Global;
use tables::{Declared, Edges, Names, zero_rows};
use verdicts::Config;

impl<J: Judge + Drop> TreeShaker<J> {
    /// Begins a shaker with its settings and its judge: zeroes the tables, and takes the work memory of all later calls.
    pub fn begin(
        heap: Global,
        config: Config,
        judge: J,
        tree: &[u32],
        declared: &mut [u32],
        names: &mut [u32],
        edges: &mut [u32],
        retain: &[u32],
    ) -> Result<TreeShaker<J>, BeginFault>
        ensures shaker { MatchResult result (λ s. (lengths_fit tree.now declared.old names.old edges.old retain.now ≡ true) × (s.config ≡ config) × (s.judge ≡ judge)) (λ e. NotBegun (lengths_fit tree.now declared.old names.old edges.old retain.now) e) }
        ensures state { MatchResult result (λ s. state tree.now declared.new names.new edges.new s ≡ begun (state_by tree.now declared.old names.old edges.old s.changed)) (λ _. state_by tree.now declared.new names.new edges.new false ≡ state_by tree.now declared.old names.old edges.old false) }
    {
        check_lengths(tree, declared, names, edges, retain)?;
        let work = work_memory(heap)?;
        zero_rows::<Declared>(declared);
        zero_rows::<Names>(names);
        zero_rows::<Edges>(edges);
        Ok(TreeShaker {
            config,
            judge,
            changed: false,
            work,
        })
    }
}
