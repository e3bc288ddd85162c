// Reads cases from standard input, shakes the tree of each by a repeat, and prints what went in which pass and by which
// rule, the outline of what is left, and what is left that names what went; or why the tree is refused.
#![tactic(auto)]

mod change;
mod compare;
mod handed;
mod history;
mod kinds;
mod passes;
mod refused;
mod report;
mod shaken;

use judge::{Cautious, Plain};
use report::report;
use std::io::Read;
use text::{Case, Cases, Judge};

fn main(rt: HostRuntime) -> anyhow::Result<()> {
    let mut text = Vec::new(rt.alloc());
    rt.stdin().read_to_end(&mut text)?;
    shake(&rt, text.as_slice())
}

// Shakes each case of the text; bad text ends the program with an error that names its line.
fn shake(rt: &HostRuntime, text: &[u8]) -> anyhow::Result<()> {
    let mut cases = Cases::new(text);
    while let Some(case) = cases.next_case(rt.alloc())? {
        shake_case(rt, &case)?;
    }
    Ok(())
}

// Shakes a case's tree with its judge.
fn shake_case(rt: &HostRuntime, case: &Case) -> anyhow::Result<()> {
    match case.settings.judge {
        Judge::Plain { unresolved } => report(rt, case, Plain { unresolved }),
        Judge::Cautious => report(rt, case, Cautious),
    }
}
