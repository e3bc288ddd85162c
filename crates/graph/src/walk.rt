ghost use Rattle.std.specs.Prelude.{◌≡◌, ℕ, ◌+◌, ◌-◌, ◌<◌, ◌≤◌, slice_index};
ghost use Rattle.graph.specs.Graphs.{Leads};
ghost use Rattle.graph.specs.Searching.{with_node, Onward, Stepped};

use crate::edges::Edges;
use std::marker::Model;

/// A walk for components. Its words are lent, so what they tell are numbers, and 0 tells that there is nothing.
#[derive(Drop)]
pub struct Walk<'a, 'b, E: Edges> {
    pub edges: &'a E,
    /// From each edge, the link to the one before it that leaves the same node. A link is one more than the edge's number.
    pub links: &'a [u32],
    /// From each node, the link to its next edge.
    pub turns: &'a mut [u32],
    /// The nodes that stand on the stack.
    pub stack: &'a mut [u32],
    /// For each position on the stack, one more than the position that gets the turn after it.
    pub back: &'b mut [u32],
    /// The positions at which the stack is cut into segments.
    pub borders: &'a mut [u32],
    /// For each node, one more than its position on the stack, or a number past all of these once its component is known.
    pub places: &'a mut [u32],
    /// How high the stack is.
    pub top: u32,
    /// One more than the position of the node whose turn it is: a number, as it stands in `back`.
    pub at: u32,
    /// How many borders there are.
    pub depth: u32,
    /// How many components are known.
    pub count: u32,
}

impl<'a, 'b, E: Edges> Model for Walk<'a, 'b, E> {
    ghost use Rattle.graph.specs.Searching.{Walking, Search, walking};

    ghost Value = { Walking };

    ghost view = { λ w. walking (E.list w.edges.now) w };

    ghost invariant = { λ w. Search (walking (E.list w.edges.now) w) };
}

impl<'a, 'b, E: Edges> Walk<'a, 'b, E> {
    /// Puts a node on the stack, with a border under it, and gives it the turn.
    fn enter(&mut self, node: u32)
        requires known { node < self.old.nodes }
        requires unseen { slice_index self.old.places node ≡ 0 }
        requires reached { (p : ℕ) → p < self.old.top → Leads self.old.edges (slice_index self.old.stack p) node }
        ensures walk { self.new ≡ with_node self.old node }
        ensures seen { 0 < slice_index self.new.places node }
    {
        let top = self.top as usize;
        self.stack[top] = node;
        self.back[top] = self.at;
        self.borders[self.depth as usize] = self.top;
        self.top += 1;
        self.at = self.top;
        self.depth += 1;
        self.places[node as usize] = self.top;
    }

    /// The topmost segment is a component: its nodes get a label, and leave the stack.
    fn close(&mut self)
        requires some { 0 < self.old.depth }
        requires over { self.old.at ≤ slice_index self.old.borders (self.old.depth - 1) }
        ensures { Stepped self.old self.new }
    {
        let label = self.places.len() as u32 + 1 + self.count;
        let border = self.borders[self.depth as usize - 1];
        // By positions: the check does not cover a write to the places while a part of the stack is lent.
        for p in border..self.top {
            let node = self.stack[p as usize] as usize;
            self.places[node] = label;
        }
        self.top = border;
        self.depth -= 1;
        self.count += 1;
    }

    /// How many borders are left when those from `place` on are dropped.
    fn borders_below(&self, place: u32) -> u32
        ensures fewer { result ≤ self.now.depth }
        ensures kept { 0 < result → slice_index self.now.borders (result - 1) < place }
        ensures dropped { (t : ℕ) → result ≤ t → t < self.now.depth → place ≤ slice_index self.now.borders t }
    {
        let borders = &self.borders[..self.depth as usize];
        borders
            .iter()
            .rposition(|border| *border < place)
            .map_or(0, |last| last as u32 + 1)
    }

    /// Follows the next edge of the node whose turn it is, or goes back from it if it has none left.
    fn follow(&mut self)
        requires some { 0 < self.old.depth }
        requires under { slice_index self.old.borders (self.old.depth - 1) < self.old.at }
        ensures { Stepped self.old self.new }
    {
        let position = self.at as usize - 1;
        let node = self.stack[position] as usize;
        let turn = self.turns[node] as usize;
        if turn == 0 {
            self.at = self.back[position];
            return;
        }
        let (_, target) = self.edges.edge(turn - 1);
        let place = self.places[target as usize];
        if place == 0 {
            self.enter(target);
        } else {
            self.depth = self.borders_below(place);
        }
        self.turns[node] = self.links[turn - 1];
    }

    /// One step: the topmost segment is a component, or the node whose turn it is has no edge left, or its next edge is followed.
    fn step(&mut self)
        requires { 0 < self.old.depth }
        ensures { Stepped self.old self.new }
    {
        if self.at <= self.borders[self.depth as usize - 1] {
            self.close();
        } else {
            self.follow();
        }
    }

    /// Searches from an unseen node until the stack is empty again.
    fn visit(&mut self, root: u32)
        requires empty { self.old.top ≡ 0 }
        requires known { root < self.old.nodes }
        requires unseen { slice_index self.old.places root ≡ 0 }
        ensures empty { self.new.top ≡ 0 }
        ensures root { 0 < slice_index self.new.places root }
        ensures onward { Onward self.old self.new }
    {
        self.enter(root);
        // No iterator: a step changes the words that tell which is next, and may be the last.
        while self.depth > 0 {
            self.step();
        }
    }

    /// Searches from each node that is unseen when its number comes.
    pub fn explore(&mut self)
        requires { self.old.top ≡ 0 }
        ensures empty { self.new.top ≡ 0 }
        ensures seen { (v : ℕ) → v < self.old.nodes → 0 < slice_index self.new.places v }
        ensures onward { Onward self.old self.new }
    {
        // Counted: the places are written meanwhile.
        for root in 0..self.places.len() as u32 {
            if self.places[root as usize] == 0 {
                self.visit(root);
            }
        }
    }
}
