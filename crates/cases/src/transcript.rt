// What the calls of a case told, in the form in which answers are stored.
ghost use Rattle.std.specs.Prelude.{◌≡◌, vec_len, IfOk};

use crate::replay::Replay;
use judge::{Cautious, Judge, Plain};
use std::alloc::Global;
use text::Case;

/// The text of a case's answers, and how many calls were made.
#[derive(Drop)]
pub struct Transcript {
    pub text: String,
    pub calls: usize,
}

impl Transcript {
    /// Replays a case with its judge.
    pub fn of(heap: Global, case: &Case) -> anyhow::Result<Transcript>
        ensures { IfOk result (λ t. t.calls ≡ vec_len case.now.calls) }
    {
        match case.settings.judge {
            text::Judge::Plain { unresolved } => judged(heap, case, Plain { unresolved }),
            text::Judge::Cautious => judged(heap, case, Cautious),
        }
    }
}

/// Replays a case, and tells each call.
fn judged<J: Judge + Copy>(heap: Global, case: &Case, judge: J) -> anyhow::Result<Transcript>
    ensures { IfOk result (λ t. t.calls ≡ vec_len case.now.calls) }
{
    let name = case.name.as_str();
    let mut text = format!(in heap; "case {name}\n")?;
    let mut replay = Replay::new(heap, case, judge)?;
    for call in &case.calls {
        let answer = replay.make(*call);
        let told = replay.told(answer);
        write!(text, "{told}")?;
    }
    text.push_str("end\n")?;
    Ok(Transcript {
        text,
        calls: case.calls.len(),
    })
}
