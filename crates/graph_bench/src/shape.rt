use std::fmt;

/// The graphs to label, each for any number of nodes and edges.
#[derive(Clone, Copy)]
pub enum Shape {
    /// Each node leads to the next one.
    Path,
    /// Each node leads to the next one, and the last to the first.
    Ring,
    /// One node leads to each.
    Star,
    /// One node leads to each, and each leads back.
    Hub,
    /// Each node leads to the next one, and that leads back.
    Ladder,
    /// Each of some nodes leads to each of some more.
    Dense,
    /// Edges by chance.
    Random(u32),
}

/// What the graph is called.
impl fmt::Display for Shape {
    fn fmt<W: fmt::Write>(&self, f: &mut fmt::Formatter<W>) -> fmt::Result {
        f.write_str(match self {
            Shape::Path => "path",
            Shape::Ring => "ring",
            Shape::Star => "star",
            Shape::Hub => "hub",
            Shape::Ladder => "ladder",
            Shape::Dense => "dense",
            Shape::Random(_) => "random",
        })
    }
}

/// To how many nodes each node of a dense graph leads.
const FAN: u32 = 768;

impl Shape {
    /// Its edge `k` on so many nodes, which are at least 2.
    pub(crate) fn edge(self, nodes: u32, k: u32) -> (u32, u32) {
        let last = nodes.saturating_sub(1).max(1);
        let nodes = nodes.max(2);
        match self {
            Shape::Path => (k % last, k % last + 1),
            Shape::Ring => (k % nodes, k.wrapping_add(1) % nodes),
            Shape::Star => (0, k % nodes),
            Shape::Hub => turned(0, k / 2 % nodes, k),
            Shape::Ladder => turned(k / 2 % last, k / 2 % last + 1, k),
            Shape::Dense => (k / FAN % nodes, k % FAN % nodes),
            Shape::Random(seed) => (
                chance(seed, k.wrapping_mul(2)) % nodes,
                chance(seed, k.wrapping_mul(2).wrapping_add(1)) % nodes,
            ),
        }
    }
}

/// The edge from `a` to `b`, or back where `k` is odd.
fn turned(a: u32, b: u32, k: u32) -> (u32, u32) {
    if k % 2 == 0 { (a, b) } else { (b, a) }
}

/// The number at place `k` of a sequence that looks as if it came by chance.
fn chance(seed: u32, k: u32) -> u32 {
    mixed(mixed(seed) ^ k)
}

/// The bits of a number, mixed.
fn mixed(x: u32) -> u32 {
    let x = (x ^ (x >> 16)).wrapping_mul(0x7feb_352d);
    let x = (x ^ (x >> 15)).wrapping_mul(0x846c_a68b);
    x ^ (x >> 16)
}
