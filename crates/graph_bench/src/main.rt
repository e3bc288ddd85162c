#![tactic(auto)]

use graph::{Edges, Pairs, components, words};
use std::env;
use std::time::Instant;

mod shape;

use shape::Shape;

/// The largest graph that the tables of a tree can make.
const NODES: u32 = 16_384;

const EDGES: u32 = 98_304;

/// Labels one graph, and prints how many labels there are, and the microseconds if they are asked for.
fn run(rt: &HostRuntime, shape: Shape, nodes: u32, count: u32, timed: bool) -> anyhow::Result<()> {
    let heap = rt.alloc();
    let edges: Vec<(u32, u32)> = (0..count).map(|k| shape.edge(nodes, k)).collect(heap)?;
    let mut labels = vec![in heap; 0; nodes as usize]?;
    let mut work = vec![in heap; 0; words(nodes as usize, count as usize)]?;
    let start = Instant::now(rt)?;
    let answer = components(&Pairs::of(&edges), &mut work, &mut labels);
    let time = start.elapsed(rt)?.as_micros();
    match answer {
        Ok(found) => print!(rt; "{shape} of {nodes} nodes and {count} edges: {found} labels")?,
        Err(fault) => print!(rt; "{shape} of {nodes} nodes and {count} edges: {fault:?}")?,
    }
    if timed {
        print!(rt; " in {time} us")?;
    }
    rt.println("")?;
    Ok(())
}

/// Each graph at full size.
fn run_all(rt: &HostRuntime, timed: bool) -> anyhow::Result<()> {
    let shapes = [
        Shape::Path,
        Shape::Ring,
        Shape::Star,
        Shape::Hub,
        Shape::Ladder,
        Shape::Dense,
        Shape::Random(1),
        Shape::Random(2),
    ];
    for shape in shapes {
        run(rt, shape, NODES, EDGES, timed)?;
    }
    run(rt, Shape::Random(3), NODES, NODES, timed)?;
    run(rt, Shape::Random(4), NODES, 2 * NODES, timed)
}

/// Each graph in sizes that double, to see how the time grows.
fn run_sizes(rt: &HostRuntime) -> anyhow::Result<()> {
    let shapes = [
        Shape::Path,
        Shape::Ring,
        Shape::Star,
        Shape::Hub,
        Shape::Ladder,
        Shape::Random(1),
    ];
    for shape in shapes {
        for k in 0..8u32 {
            run(rt, shape, 8_192 << k, 49_152 << k, true)?;
        }
    }
    Ok(())
}

fn main(rt: HostRuntime) -> anyhow::Result<()> {
    let timed = env::args(&rt)?.count() > 1;
    run_all(&rt, timed)?;
    if timed {
        run_sizes(&rt)?;
    }
    Ok(())
}
