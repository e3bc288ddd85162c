// What the passes of a repeat changed.
use crate::change::Change;
use crate::compare::changes;
use crate::passes::Passes;
use judge::Judge;
use outline::CheckedTree;
use std::alloc::Global;
use text::Case;
use verdicts::Config;

/// What each pass changed, one after another.
#[derive(Drop)]
pub struct History {
    pub passes: Vec<Vec<Change>>,
}

impl History {
    /// What the first passes of a repeat change in a case's tree. They are made again, one by one.
    pub fn of<J: Judge + Drop>(
        heap: Global,
        case: &Case,
        config: Config,
        judge: J,
        made: u32,
    ) -> anyhow::Result<History> {
        let mut history = History {
            passes: Vec::new(heap),
        };
        if made == 0 {
            return Ok(history);
        }
        let mut passes = Passes::begin(heap, case, config, judge)?;
        let mut before = CheckedTree::new(case.tree.clone()?)?;
        for _ in 0..made {
            let after = passes.make()?;
            history.passes.push(changes(heap, &before, &after)?)?;
            before = after;
        }
        Ok(history)
    }
}
