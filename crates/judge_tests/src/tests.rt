ghost use Rattle.std.specs.Prelude.{◌≡◌, IfSome};
ghost use Rattle.rules.specs.Tree.{below};
ghost use Rattle.rules.specs.Words.{tree_of};

use judge::{Cautious, Judge, Plain};
use records::{Children, ROOT};
use std::alloc::{AllocError, Global};
use std::process::Abort;
use std::test::Fail;

/// The mark of unresolved names in these tests.
const UNRESOLVED: u32 = 1;

/// Whether the expression of a script's first statement may act, whoever judges it.
fn first_acts<J: Judge>(judge: &J, words: &[u32]) -> Option<bool>
    ensures { IfSome result (λ b. b ≡ J.Judge.acts judge.now (below (below (tree_of words.now 1)))) }
{
    checker::check(words).ok()?;
    let script = Children::of(words, ROOT).chain();
    Some(judge.may_act(script.below().below()))
}

/// Both judges' answers to an expression, given by its records from number 3 on.
fn judged(heap: Global, expression: &[u32]) -> Result<(Option<bool>, Option<bool>), AllocError> {
    let mut words = [2, 0, 0, 0, 2, 0, 11, 0, 0, 0, 3, 0].to_vec(heap)?;
    words.extend_from_slice(expression)?;
    let plain = first_acts(
        &Plain {
            unresolved: UNRESOLVED,
        },
        &words,
    );
    let cautious = first_acts(&Cautious, &words);
    Ok((plain, cautious))
}

/// What the plain and the cautious judge should say of an expression.
fn expect(
    rt: &impl Abort,
    heap: Global,
    what: &str,
    expression: &[u32],
    plain: bool,
    cautious: bool,
) -> Result<(), Fail> {
    let (by_plain, by_cautious) = judged(heap, expression)?;
    assert_eq!(rt; by_plain, Some(plain), "{what}");
    assert_eq!(rt; by_cautious, Some(cautious), "{what}");
    Ok(())
}

#[test]
fn names_and_literals(rt: HostRuntime) -> Result<(), Fail> {
    let heap = rt.alloc();
    expect(
        &rt,
        heap,
        "a resolved name",
        &[27, 0, 9, 2, 0, 0],
        false,
        true,
    )?;
    expect(
        &rt,
        heap,
        "an unresolved name",
        &[27, 0, 9, 1, 0, 0],
        true,
        true,
    )?;
    expect(&rt, heap, "a literal", &[28, 0, 0, 0, 0, 0], false, false)
}

#[test]
fn functions_and_classes(rt: HostRuntime) -> Result<(), Fail> {
    let heap = rt.alloc();
    expect(
        &rt,
        heap,
        "a function expression",
        &[29, 0, 0, 0, 4, 0, 21, 0, 0, 0, 5, 0, 10, 0, 0, 0, 0, 0],
        false,
        false,
    )?;
    expect(
        &rt,
        heap,
        "a class expression",
        &[30, 0, 0, 0, 4, 0, 22, 0, 0, 0, 0, 0],
        true,
        true,
    )?;
    expect(
        &rt,
        heap,
        "an arrow, whatever its body",
        &[31, 0, 0, 0, 4, 0, 27, 0, 9, 1, 0, 0],
        false,
        false,
    )
}

#[test]
fn expressions_made_of_others(rt: HostRuntime) -> Result<(), Fail> {
    let heap = rt.alloc();
    expect(
        &rt,
        heap,
        "arithmetic on a literal",
        &[32, 0, 0, 0, 4, 0, 28, 0, 0, 0, 0, 0],
        false,
        true,
    )?;
    expect(
        &rt,
        heap,
        "its second operand acts",
        &[32, 0, 0, 0, 4, 0, 28, 0, 0, 0, 0, 5, 27, 0, 9, 1, 0, 0],
        true,
        true,
    )?;
    expect(
        &rt,
        heap,
        "a plain expression that acts by itself",
        &[32, 1, 0, 0, 0, 0],
        true,
        true,
    )?;
    expect(
        &rt,
        heap,
        "an object of a resolved name",
        &[33, 0, 0, 0, 4, 0, 27, 0, 9, 2, 0, 0],
        false,
        true,
    )?;
    expect(
        &rt,
        heap,
        "an object, two deep",
        &[33, 0, 0, 0, 4, 0, 32, 0, 0, 0, 5, 0, 27, 0, 9, 1, 0, 0],
        true,
        true,
    )
}

#[test]
fn what_always_acts(rt: HostRuntime) -> Result<(), Fail> {
    let heap = rt.alloc();
    expect(
        &rt,
        heap,
        "a call",
        &[34, 0, 0, 0, 4, 0, 27, 0, 9, 2, 0, 0],
        true,
        true,
    )?;
    expect(
        &rt,
        heap,
        "a delete",
        &[35, 0, 0, 0, 4, 0, 27, 0, 9, 2, 0, 0],
        true,
        true,
    )?;
    expect(
        &rt,
        heap,
        "an assignment",
        &[36, 0, 0, 0, 4, 0, 37, 0, 9, 2, 0, 5, 28, 0, 0, 0, 0, 0],
        true,
        true,
    )
}
