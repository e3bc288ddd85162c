// Names that are counted before memory is taken for them.

use crate::found::Full;
use names::NameSink;
use records::Node;

/// How many names came, and how many may come.
#[derive(Drop)]
pub(crate) struct Counted {
    pub(crate) count: usize,
    pub(crate) most: usize,
}

impl NameSink for Counted {
    ghost use Rattle.std.specs.Prelude.{ℕ};
    ghost use Rattle.outline.specs.Outline.{Counting, counts, counted};

    type Fault = Full;

    ghost State = { Counting };

    ghost Fixed = { ℕ };

    ghost held = { λ s. counts s.most s.count };

    ghost fixed = { λ s. s.most };

    ghost takes = { counted };

    ghost number = { λ _. 0 };

    ghost place = { λ _. 0 };

    fn take(&mut self, _bearer: Node<'_>) -> Result<(), Full> {
        if self.count >= self.most {
            return Err(Full);
        }
        self.count += 1;
        Ok(())
    }
}
