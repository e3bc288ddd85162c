ghost use Rattle.std.specs.Prelude.{◌≡◌};

use crate::analyzer::Analyzer;
use crate::fault::CountFault;
use crate::reference::Use;
use names::{NameSink, exported_names};
use records::{Children, Node};

/// A walk that reads each name as it comes.
#[derive(Drop)]
struct Reading<'a, 't> {
    analyzer: &'a mut Analyzer<'t>,
}

impl<'a, 't> NameSink for Reading<'a, 't> {
    ghost use Rattle.analyzer.specs.CountFaults.{number as number_of, place as place_of};
    ghost use Rattle.std.specs.Prelude.{ℕ};
    ghost use Rattle.analyzer.specs.Readings.{Place, Fixed, place_of as place_now, fixed_of, read_next};

    type Fault = CountFault;

    ghost State = { Place };

    ghost Fixed = { ℕ × Fixed };

    ghost held = { λ s. place_now s.analyzer.now };

    ghost fixed = { λ s. (s.analyzer.ghost_name, fixed_of s.analyzer.now) };

    ghost takes = { read_next };

    ghost number = { number_of };

    ghost place = { place_of };

    fn take(&mut self, bearer: Node<'_>) -> Result<(), CountFault> {
        self.analyzer.reference(Use::Reads, bearer)
    }
}

impl<'t> Analyzer<'t> {
    ghost use Rattle.records.specs.Chains.{as_chain};
    ghost use Rattle.analyzer.specs.Readings.{fixed_of};
    ghost use Rattle.analyzer.specs.Visits.{here_of, state_of};
    ghost use Rattle.analyzer.specs.Walk.{Went, read_exports};

    /// Counts a reading of each name that an Export declaration with these children declares.
    pub(crate) fn read_exports(&mut self, children: Children<'_>) -> Result<(), CountFault>
        ensures fixed { fixed_of self.new ≡ fixed_of self.old }
        ensures walk { Went (read_exports (here_of self.old) (as_chain children.entry) (state_of self.old)) result (state_of self.new) }
    {
        let mut reading = Reading { analyzer: self };
        exported_names(children, &mut reading)
    }
}
