// How much of what was stored came out.
ghost use Rattle.std.specs.Prelude.{◌≡◌, ◌+◌, ◌^◌, ◌<◌};

use crate::transcript::Transcript;
use std::fmt;

/// Cases, calls and lines that agree.
#[derive(Clone, Copy, Default)]
pub struct Agreement {
    cases: usize,
    calls: usize,
    lines: usize,
}

impl Agreement {
    /// Adds a case that agrees.
    pub fn add(&mut self, transcript: &Transcript)
        ensures cases { self.old.cases + 1 < 2 ^ 64 → self.new.cases ≡ self.old.cases + 1 }
        ensures calls { self.old.calls + transcript.now.calls < 2 ^ 64 → self.new.calls ≡ self.old.calls + transcript.now.calls }
    {
        self.cases = self.cases.saturating_add(1);
        self.calls = self.calls.saturating_add(transcript.calls);
        self.lines = self.lines.saturating_add(transcript.text.lines().count());
    }
}

impl fmt::Display for Agreement {
    fn fmt<W: fmt::Write>(&self, f: &mut fmt::Formatter<W>) -> fmt::Result {
        let cases = self.cases;
        let calls = self.calls;
        let lines = self.lines;
        write!(f, "{cases} cases, {calls} calls and {lines} lines agree")
    }
}
