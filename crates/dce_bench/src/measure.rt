use crate::bench::Bench;
use std::fmt;
use std::time::Instant;

/// What the calls found in a tree and left of it: the records that were reached before, the rows of names and edges after
/// the first pass, the passes of a repeat, and the records that it left.
#[derive(Clone, Copy)]
pub(crate) struct Outcome {
    reached: u32,
    names: usize,
    edges: usize,
    passes: u32,
    left: u32,
}

impl fmt::Display for Outcome {
    fn fmt<W: fmt::Write>(&self, f: &mut fmt::Formatter<W>) -> fmt::Result {
        let Outcome {
            reached,
            names,
            edges,
            passes,
            left,
        } = self;
        write!(
            f,
            "records {reached}, names {names}, edges {edges}, passes {passes}, left {left}"
        )
    }
}

/// The microseconds of a first pass, and of a repeat.
#[derive(Clone, Copy)]
pub(crate) struct Times {
    pass: u128,
    repeat: u128,
}

impl fmt::Display for Times {
    fn fmt<W: fmt::Write>(&self, f: &mut fmt::Formatter<W>) -> fmt::Result {
        let Times { pass, repeat } = self;
        write!(f, "first pass {pass} us, repeat {repeat} us")
    }
}

/// What came of the calls on a tree, and how long they took.
#[derive(Clone, Copy)]
pub(crate) struct Measures {
    pub(crate) outcome: Outcome,
    pub(crate) times: Times,
}

/// Makes a pass on one copy of a tree, and a repeat on another.
pub(crate) fn measure(rt: &HostRuntime, tree: &[u32]) -> anyhow::Result<Measures> {
    let mut first = Bench::begin(rt.alloc(), tree)?;
    let start = Instant::now(rt)?;
    first.pass()?;
    let pass = start.elapsed(rt)?.as_micros();
    let mut whole = Bench::begin(rt.alloc(), tree)?;
    let start = Instant::now(rt)?;
    let repeated = whole.repeat()?;
    let repeat = start.elapsed(rt)?.as_micros();
    Ok(Measures {
        outcome: Outcome {
            reached: repeated.reached,
            names: first.name_rows(),
            edges: first.edge_rows(),
            passes: repeated.passes,
            left: whole.reached()?,
        },
        times: Times { pass, repeat },
    })
}
