// Replays stored cases on a tree shaker, and compares what each call returned and left with the stored answers. Each
// argument NAME stands for two files, NAME.cases and NAME.answers.
#![tactic(auto)]

mod agreement;
mod difference;
mod replay;
mod transcript;

use crate::agreement::Agreement;
use crate::transcript::Transcript;
use anyhow::{Context, ensure};
use std::{env, fs};
use text::Cases;

fn main(rt: HostRuntime) -> anyhow::Result<()> {
    for name in env::args(&rt)?.skip(1) {
        replay_files(&rt, name.as_str())?;
    }
    Ok(())
}

// Replays the cases of a pair of files, and prints how much agreed.
fn replay_files(rt: &HostRuntime, name: &str) -> anyhow::Result<()> {
    let cases = read_file(rt, name, "cases")?;
    let answers = read_file(rt, name, "answers")?;
    let agreement = replay_cases(rt, cases.as_slice(), answers.as_slice())?;
    println!(rt; "{name}: {agreement}")?;
    Ok(())
}

// The bytes of one of the pair's files.
fn read_file(rt: &HostRuntime, name: &str, kind: &str) -> anyhow::Result<Vec<u8>> {
    let path = format!(in rt.alloc(); "{name}.{kind}")?;
    fs::read(rt, path.as_str()).context(format_args!("reading {path}"))
}

// Replays each case, and compares it with the answers that are due for it.
fn replay_cases(rt: &HostRuntime, text: &[u8], answers: &[u8]) -> anyhow::Result<Agreement> {
    let mut agreement = Agreement::default();
    let mut cases = Cases::new(text);
    let mut stored = answers;
    while let Some(case) = cases.next_case(rt.alloc())? {
        let transcript = Transcript::of(rt.alloc(), &case)?;
        stored = difference::behind(rt, &case, stored, transcript.text.as_str())?;
        agreement.add(&transcript);
    }
    ensure!(
        stored.is_empty(),
        "answers are stored behind those of the last case"
    );
    Ok(agreement)
}
