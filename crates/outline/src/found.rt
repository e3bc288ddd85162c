// Names that were found, in memory that was taken before.
ghost use Rattle.std.specs.Prelude.{◌≡◌, ◌≤◌, vec_len, IfOk};
ghost use Rattle.std.specs.Vec.{vec_capacity};

use crate::declared::Named;
use names::NameSink;
use records::Node;
use std::alloc::{AllocError, Global};

// Room and a fault of its own, since what a sink answers is a function of what it holds, which a failed allocation is not.
/// The names found so far, and how many there is room for.
#[derive(Drop)]
pub(crate) struct Found {
    names: Vec<Named>,
    room: usize,
    ghost reserved: { room ≤ vec_capacity names },
}

/// There is no room for a name.
#[derive(Clone, Copy)]
pub(crate) struct Full;

impl Found {
    ghost use Rattle.std.specs.Prelude.{[]};

    /// No names yet, with room for so many.
    pub(crate) fn with_room(heap: Global, room: usize) -> Result<Found, AllocError>
        ensures { IfOk result (λ f. (f.room ≡ room) × (f.names.items ≡ [])) }
    {
        let names = Vec::with_capacity(heap, room)?;
        Ok(Found { names, room })
    }

    /// The names that were found.
    pub(crate) fn into_names(self) -> Vec<Named>
        ensures { result ≡ self.names }
    {
        let Found { names, room: _ } = self;
        names
    }
}

impl NameSink for Found {
    ghost use Rattle.std.specs.Prelude.{ℕ, List};
    ghost use Rattle.outline.specs.Outline.{Held, holds, taken};

    type Fault = Full;

    ghost State = { Held };

    ghost Fixed = { ℕ };

    ghost held = { λ s. holds s.room s.names.items };

    ghost fixed = { λ s. s.room };

    ghost takes = { taken };

    ghost number = { λ _. 0 };

    ghost place = { λ _. 0 };

    fn take(&mut self, bearer: Node<'_>) -> Result<(), Full> {
        if self.names.len() >= self.room {
            return Err(Full);
        }
        let id = bearer.record.id();
        self.names
            .push(Named {
                id,
                record: bearer.number,
            })
            .map_err(|_| Full)
    }
}
