// Makes trees of a few shapes in memory, and tells what the calls find in them and leave of them; with an argument, also
// how long the calls take.
#![tactic(auto)]

use std::env;

mod bench;
mod measure;
mod planting;
mod shape;

use measure::{Measures, measure};
use shape::Shape;

/// Sizes whose calls take no time to speak of, in records.
const SIZES: [u32; 2] = [1_000, 4_000];

/// A size near the largest.
const LARGEST: u32 = 16_000;

/// Makes the calls on one tree, and prints what came of it, and the times if they are asked for.
fn run(rt: &HostRuntime, shape: Shape, size: u32, timed: bool) -> anyhow::Result<()> {
    let tree = shape.planted(rt.alloc(), size)?;
    let Measures { outcome, times } = measure(rt, &tree)?;
    print!(rt; "{shape}: {outcome}")?;
    if timed {
        print!(rt; "; {times}")?;
    }
    rt.println("")?;
    Ok(())
}

/// Each size of a shape; the largest only for its times.
fn run_sizes(rt: &HostRuntime, shape: Shape, timed: bool) -> anyhow::Result<()> {
    for size in SIZES {
        run(rt, shape, size, timed)?;
    }
    if timed {
        run(rt, shape, LARGEST, timed)?;
    }
    Ok(())
}

fn main(rt: HostRuntime) -> anyhow::Result<()> {
    let timed = env::args(&rt)?.count() > 1;
    let shapes = [
        Shape::Ring,
        Shape::Chain,
        Shape::Functions,
        Shape::Classes,
        Shape::Eval,
        Shape::Imports,
        Shape::Mesh,
    ];
    for shape in shapes {
        run_sizes(&rt, shape, timed)?;
    }
    Ok(())
}
