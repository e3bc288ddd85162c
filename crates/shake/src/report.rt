// What a repeat did to a case's tree, for a reader.
use crate::change::Change;
use crate::history::History;
use crate::shaken::Shaken;
use judge::Judge;
use outline::{CheckedTree, Named};
use records::{Id, Kind};
use std::alloc::{AllocError, Global};
use std::io;
use text::Case;
use verdicts::Config;

/// Shakes a case's tree, and prints what each pass changed, how the repeat ended, and what is left.
pub fn report<J: Judge + Copy + Drop>(
    rt: &HostRuntime,
    case: &Case,
    judge: J,
) -> anyhow::Result<()> {
    let heap = rt.alloc();
    let name = case.name.as_str();
    let config = Config {
        top_level: case.settings.top_level,
        preserve_imports_with_side_effects: case.settings.preserve_imports,
    };
    let Shaken {
        passes,
        reached,
        tree,
    } = Shaken::of(heap, case, config, judge)?;
    let history = History::of(heap, case, config, judge, passes)?;
    println!(rt; "case {name}")?;
    print_history(rt, &history)?;
    if let Err(refused) = reached {
        rt.println(refused)?;
    }
    if reached.is_err() && passes == 0 {
        return Ok(());
    }
    let left = CheckedTree::new(tree)?;
    if let Ok(reached) = reached {
        let count = left.reached();
        println!(rt; "passes: {passes}; records reached: {reached}, left: {count}")?;
    }
    let declared = left.declared(heap)?;
    print_left(rt, &left, &declared)?;
    let found = CheckedTree::new(case.tree.clone()?)?;
    print_lost(rt, &found, &left, &declared)?;
    Ok(())
}

/// Prints what each pass changed.
fn print_history(rt: &HostRuntime, history: &History) -> io::Result<()> {
    for (before, changes) in history.passes.iter().enumerate() {
        print_pass(rt, before, changes.as_slice())?;
    }
    Ok(())
}

/// Prints what a pass changed, which comes after so many.
fn print_pass(rt: &HostRuntime, before: usize, changes: &[Change]) -> io::Result<()> {
    let pass = before.saturating_add(1);
    if changes.is_empty() {
        return println!(rt; "pass {pass}: nothing");
    }
    println!(rt; "pass {pass}:")?;
    for change in changes {
        println!(rt; "  {change}")?;
    }
    Ok(())
}

/// Prints the outline of what is left, and the names that it declares.
fn print_left(rt: &HostRuntime, left: &CheckedTree, declared: &[Named]) -> io::Result<()> {
    for line in &left.lines(rt.alloc())? {
        rt.println(*line)?;
    }
    for named in declared {
        rt.println(*named)?;
    }
    Ok(())
}

/// Prints the records of what is left that refer to lost names.
fn print_lost(
    rt: &HostRuntime,
    found: &CheckedTree,
    left: &CheckedTree,
    declared: &[Named],
) -> io::Result<()> {
    let lost = lost(rt.alloc(), found, declared)?;
    for line in &left.lines(rt.alloc())? {
        let number = line.number;
        let kind = line.record.kind;
        let id = line.record.id();
        if may_refer(kind) && lost.contains(&id) {
            println!(rt; "{number} {kind} {id}: its declaration went")?;
        }
    }
    Ok(())
}

/// The names that the tree declared as it was found, and that are not among those that what is left declares.
fn lost(heap: Global, found: &CheckedTree, declared: &[Named]) -> Result<Vec<Id>, AllocError> {
    let mut lost = Vec::new(heap);
    for named in &found.declared(heap)? {
        if !declared.iter().any(|other| other.id == named.id) {
            lost.push(named.id)?;
        }
    }
    Ok(lost)
}

/// Whether such a record refers to its name, where it does not declare it.
fn may_refer(kind: Kind) -> bool {
    matches!(
        kind,
        Kind::Identifier | Kind::ExportName | Kind::NamePattern | Kind::PropertyName
    )
}
