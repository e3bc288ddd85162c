ghost use Rattle.std.specs.Prelude.{◌≡◌, if◌then◌else◌};
ghost use Rattle.records.specs.Chains.{head_of_node};
ghost use Rattle.analyzer.specs.Uses.{is_write};
ghost use Rattle.analyzer.specs.Readings.{fixed_of};
ghost use Rattle.analyzer.specs.Visits.{here_of, state_of};
ghost use Rattle.analyzer.specs.Walk.{Went, referred, assigned};

use crate::analyzer::Analyzer;
use crate::fault::CountFault;
use crate::scope::Role;
use data::{Event, add_reference};
use records::{Kind, Node};
use tables::VarInfo;

/// What a reference does with a name.
#[derive(Clone, Copy, PartialEq, Eq)]
pub(crate) enum Use {
    Reads,
    Writes,
}

impl Use {
    /// What a reference adds to the counts of a name.
    fn weight(self) -> VarInfo
        ensures { result ≡ (if is_write self then record { usage = 0; assign = 1 } else record { usage = 1; assign = 0 }) }
    {
        match self {
            Use::Reads => VarInfo {
                usage: 1,
                assign: 0,
            },
            Use::Writes => VarInfo {
                usage: 0,
                assign: 1,
            },
        }
    }
}

impl<'t> Analyzer<'t> {
    /// Counts a reference to the name that a record bears, unless that is the innermost function's or class's.
    pub(crate) fn reference(&mut self, how: Use, bearer: Node<'_>) -> Result<(), CountFault>
        ensures fixed { fixed_of self.new ≡ fixed_of self.old }
        ensures walk { Went (referred (here_of self.old) (is_write how) (head_of_node bearer.entry) (state_of self.old)) result (state_of self.new) }
    {
        self.notes = self.notes.with_reference(bearer.record);
        let id = bearer.record.id();
        if self.scope.is_own(id) {
            return Ok(());
        }
        // Lent whole first: the check covers no part of the field itself while others are lent for a write.
        let path = &self.path;
        let holders = &path[self.scope.start..self.scope.len];
        let event = Event {
            id,
            by: how.weight(),
            entry: holders.is_empty(),
            at: bearer.number,
        };
        add_reference(self.names, self.edges, holders, event)?;
        Ok(())
    }

    /// Counts what a pattern does itself: a Name pattern by its role, a Property name writes.
    pub(crate) fn assign(&mut self, bearer: Node<'_>) -> Result<(), CountFault>
        ensures fixed { fixed_of self.new ≡ fixed_of self.old }
        ensures walk { Went (assigned (here_of self.old) (head_of_node bearer.entry) (state_of self.old)) result (state_of self.new) }
    {
        if bearer.record.kind == Kind::NamePattern {
            match self.scope.role {
                Role::Declared => Ok(()),
                Role::Written => self.reference(Use::Writes, bearer),
                Role::ReadAndWritten => {
                    self.reference(Use::Reads, bearer)?;
                    self.reference(Use::Writes, bearer)
                }
            }
        } else if bearer.record.kind == Kind::PropertyName {
            self.reference(Use::Writes, bearer)
        } else {
            Ok(())
        }
    }
}
