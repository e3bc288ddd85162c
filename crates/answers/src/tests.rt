use crate::answer::{Answer, Refusal};
use crate::compare::agreed;
use crate::rows::TableText;
use crate::tree::TreeText;
use checker::CheckFault;
use std::test::Fail;
use tables::{Declared, TableFault};

#[test]
fn answers_are_told(rt: HostRuntime) -> Result<(), Fail> {
    let link = Refusal::from(CheckFault::Link(9));
    let full = Refusal::from(TableFault::Edges(4));
    let answers = [
        (Answer::Begin(Ok(())), "begin ok"),
        (Answer::Begin(Err(link)), "begin refused 2 9"),
        (Answer::Reset(Ok(())), "reset ok"),
        (Answer::Pass(Ok(true)), "pass ok 1"),
        (Answer::Pass(Err(full)), "pass refused 7 4"),
        (
            Answer::Repeat {
                passes: 2,
                reached: Ok(30),
            },
            "repeat ok 2 30",
        ),
        (
            Answer::Repeat {
                passes: 1,
                reached: Err(full),
            },
            "repeat refused 7 4 1",
        ),
    ];
    for (answer, told) in &answers {
        assert_eq!(rt; answer.to_string(rt.alloc())?.as_str(), *told);
    }
    Ok(())
}

#[test]
fn tables_and_trees_are_written(rt: HostRuntime) -> Result<(), Fail> {
    let rows = TableText::<Declared>::of(&[1, 2, 30, 4, 0, 0, 5, 6]);
    assert_eq!(rt; rows.to_string(rt.alloc())?.as_str(), " 1:2 30:4");
    let none = TableText::<Declared>::of(&[0, 0, 1, 2]);
    assert_eq!(rt; none.to_string(rt.alloc())?.as_str(), "");
    let tree = [1, 0, 0, 0, 2, 0, 9, 0, 0, 0, 0, 3, 10, 0, 0, 0, 0, 0];
    assert_eq!(rt;
        TreeText(&tree).to_string(rt.alloc())?.as_str(),
        " (1 1 0 0 0 (2 9 0 0 0) (3 10 0 0 0))"
    );
    assert_eq!(rt; TreeText(&tree[..17]).to_string(rt.alloc())?.as_str(), " -");
    Ok(())
}

/// Compares the found answers with the stored ones: what is stored behind them, or the line that differs and how many are before it.
fn compared<'a>(stored: &'a str, found: &'a str) -> (usize, &'a [u8], &'a [u8]) {
    match agreed(stored.as_bytes(), found.as_bytes()) {
        Ok(rest) => (0, rest, &[]),
        Err(line) => (line.before, line.stored, line.found),
    }
}

#[test]
fn the_first_line_that_differs_is_named(rt: HostRuntime) {
    let stored = "begin ok\npass ok 1\nreset ok\n";
    assert_eq!(rt;
        compared(stored, "begin ok\npass ok 1\n"),
        (0, "reset ok\n".as_bytes(), "".as_bytes())
    );
    assert_eq!(rt;
        compared(stored, "begin ok\npass ok 0\n"),
        (1, "pass ok 1".as_bytes(), "pass ok 0".as_bytes())
    );
    assert_eq!(rt;
        compared("begin ok\n", stored),
        (1, "".as_bytes(), "pass ok 1".as_bytes())
    );
}
