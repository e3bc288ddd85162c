// The comparison of a case with its stored answers.
ghost use Rattle.std.specs.Prelude.{◌≡◌, ◌++◌, IfOk};

use answers::{Difference, agreed};
use anyhow::bail;
use std::io;
use std::io::Write;
use text::Case;

/// The lines of a call.
const CALL_LINES: usize = 6;

/// What is stored behind the answers of a case. Where they are others than those that were found, it prints the first
/// line that differs, and that is an error.
pub fn behind<'s>(
    rt: &HostRuntime,
    case: &Case,
    stored: &'s [u8],
    found: &str,
) -> anyhow::Result<&'s [u8]>
    ensures { IfOk result (λ rest. stored.now ≡ found.now ++ rest.now) }
{
    match agreed(stored, found.as_bytes()) {
        Ok(_) => Ok(&stored[found.len()..]),
        Err(difference) => {
            print_difference(rt, case, &difference)?;
            bail!("the answers differ")
        }
    }
}

/// Prints the case, the call, and both lines.
fn print_difference(rt: &HostRuntime, case: &Case, difference: &Difference<'_>) -> io::Result<()> {
    let name = case.name.as_str();
    let number = difference.before.div_ceil(CALL_LINES);
    match number.checked_sub(1).and_then(|n| case.calls.get(n)) {
        Some(call) => println!(rt; "case {name}, call {number}, {call:?}")?,
        None => println!(rt; "case {name}, its first or last line")?,
    }
    print_line(rt, "stored", difference.stored)?;
    print_line(rt, "found", difference.found)
}

/// Prints a line of answers.
fn print_line(rt: &HostRuntime, whose: &str, line: &[u8]) -> io::Result<()> {
    print!(rt; "{whose}: ")?;
    io::writer(rt).write_all(line)?;
    println!(rt; "")
}
