use crate::expect::TOP;
use crate::refusals::{RING, RING_TEXT};
use analyzer::CountFault;
use answers::TreeText;
use dce::{Answer, Call, PassFault, RepeatFault, Repeated, run};
use judge::Plain;
use std::alloc::Global;
use std::process::Abort;
use std::test::Fail;
use tables::TableFault;

/// Runs the calls on the ring, with so many words for names: their answers, and the tree that is left.
fn answered(
    rt: &impl Abort,
    heap: Global,
    names: usize,
    calls: &[Call],
    answers: &[Answer],
    tree_left: &str,
) -> Result<(), Fail> {
    let mut tree = RING;
    let mut declared = [0; 4];
    let mut names = vec![in heap; 0; names]?;
    let mut edges = [0; 8];
    let judge = Plain { unresolved: 1 };
    let ran = run(
        heap,
        TOP,
        judge,
        &mut tree,
        &mut declared,
        &mut names,
        &mut edges,
        &[],
        calls,
    )
    .map_err(|_| "the run begins")?;
    assert!(rt; ran.answers.as_slice() == answers);
    assert!(rt; !ran.changed);
    assert_eq!(rt; TreeText(&tree).to_string(heap)?.as_str(), tree_left);
    Ok(())
}

#[test]
fn a_ring_goes_in_two_passes(rt: HostRuntime) -> Result<(), Fail> {
    let done = Repeated {
        passes: 2,
        reached: 13,
    };
    answered(
        &rt,
        rt.alloc(),
        12,
        &[Call::Repeat, Call::Reset, Call::Pass],
        &[
            Answer::Repeat(Ok(done)),
            Answer::Reset(Ok(())),
            Answer::Pass(Ok(false)),
        ],
        " (1 2 0 0 0)",
    )
}

#[test]
fn a_list_goes_on_after_a_refused_call(rt: HostRuntime) -> Result<(), Fail> {
    let full = PassFault::Count(CountFault::Table(TableFault::Names(7)));
    answered(
        &rt,
        rt.alloc(),
        6,
        &[Call::Repeat, Call::Pass, Call::Reset],
        &[
            Answer::Repeat(Err(RepeatFault {
                fault: full,
                passes: 0,
            })),
            Answer::Pass(Err(full)),
            Answer::Reset(Ok(())),
        ],
        RING_TEXT,
    )
}
