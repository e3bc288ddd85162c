ghost use Rattle.std.specs.Prelude.{◌≡◌, ℕ, ◌<◌, ◌≤◌, length, slice_index};
ghost use Rattle.rings.specs.Marking.{Members};

/// The nodes by their labels, in lent words. A link is one more than a node, and 0 where there is none.
#[derive(Clone, Copy)]
pub struct ByLabel<'g, 'm> {
    pub labels: &'g [u32],
    /// From each label, the link to its last node.
    pub firsts: &'m [u32],
    /// From each node, the link to the one before it with its label.
    pub nexts: &'m [u32],
    ghost linked: { Members labels.now (length labels.now) firsts.now nexts.now },
    ghost long: { length nexts.now ≡ length labels.now },
}

/// The nodes of a label, the last one first.
#[derive(Clone, Copy)]
pub struct Nodes<'m> {
    nexts: &'m [u32],
    link: u32,
    ghost within: { link ≤ length nexts.now },
    ghost falls: { (v : ℕ) → v < length nexts.now → slice_index nexts.now v ≤ v },
}

impl<'m> ByLabel<'_, 'm> {
    /// The nodes of a label.
    pub fn nodes(&self, label: usize) -> Nodes<'m>
        requires { label < length self.now.firsts.now }
        ensures nexts { result.nexts.now ≡ self.now.nexts.now }
        ensures link { result.link ≡ slice_index self.now.firsts.now label }
    {
        Nodes {
            nexts: self.nexts,
            link: self.firsts[label],
        }
    }
}

impl Iterator for Nodes<'_> {
    ghost use Rattle.std.specs.Prelude.{⊤};
    ghost use Rattle.std.specs.Iterator.{at_most};
    ghost use Rattle.rings.specs.Walking.{GivesNode};

    type Item = usize;

    ghost can_next = { λ _. ⊤ };

    ghost next_gives = { GivesNode };

    ghost remaining = { λ s. at_most s.link };

    fn next(&mut self) -> Option<usize> {
        let node = (self.link as usize).checked_sub(1)?;
        self.link = self.nexts[node];
        Some(node)
    }
}
