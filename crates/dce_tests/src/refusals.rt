use crate::expect::{Given, NESTED, NESTED_PRESERVING, TOP, TOP_PRESERVING, expect};
use analyzer::CountFault;
use checker::CheckFault;
use dce::{LengthsFault, PassFault, TreeShaker};
use judge::{Cautious, Plain};
use std::alloc::{AllocError, Global};
use std::test::Fail;
use tables::TableFault;

/// The script `function a(){b()} function b(){a()}`.
pub(crate) const RING: [u32; 78] = [
    2, 0, 0, 0, 2, 0, 14, 0, 4, 2, 3, 8, 21, 0, 0, 0, 4, 0, 10, 0, 0, 0, 5, 0, 11, 0, 0, 0, 6, 0,
    34, 0, 0, 0, 7, 0, 27, 0, 5, 2, 0, 0, 14, 0, 5, 2, 9, 0, 21, 0, 0, 0, 10, 0, 10, 0, 0, 0, 11,
    0, 11, 0, 0, 0, 12, 0, 34, 0, 0, 0, 13, 0, 27, 0, 4, 2, 0, 0,
];

pub(crate) const RING_TEXT: &str =
    " (1 2 0 0 0 (2 14 0 4 2 (3 21 0 0 0 (4 10 0 0 0 (5 11 0 0 0 (6 34 0 0 0 (7 27 0 5 2)))))) (8 14 0 5 2 (9 21 0 0 0 (10 \
     10 0 0 0 (11 11 0 0 0 (12 34 0 0 0 (13 27 0 4 2)))))))";

#[test]
fn refused_1_for_the_length_of_the_tree(rt: HostRuntime) -> Result<(), Fail> {
    // no words
    expect(
        &rt,
        rt.alloc(),
        Plain { unresolved: 1 },
        Given {
            tables: [4000, 6000, 8000],
            ..Given::of(TOP_PRESERVING, &[], &[])
        },
        &[Err(PassFault::Lengths(LengthsFault))],
        ["", "", "", " -"],
    )?;
    // no whole number of records
    expect(
        &rt,
        rt.alloc(),
        Plain { unresolved: 1 },
        Given {
            tables: [4000, 6000, 8000],
            ..Given::of(
                NESTED_PRESERVING,
                &[],
                &[
                    1, 0, 0, 0, 3, 0, 4, 0, 8, 2, 0, 0, 3, 0, 0, 0, 5, 0, 4, 0, 4, 2, 0, 2, 4,
                ],
            )
        },
        &[Err(PassFault::Lengths(LengthsFault))],
        ["", "", "", " -"],
    )
}

#[test]
fn refused_2_for_a_link(rt: HostRuntime) -> Result<(), Fail> {
    // past the tree
    expect(
        &rt,
        rt.alloc(),
        Plain { unresolved: 1 },
        Given {
            tables: [4000, 6000, 8000],
            ..Given::of(
                NESTED_PRESERVING,
                &[8],
                &[
                    1, 0, 0, 0, 4, 0, 37, 0, 6, 2, 0, 5, 20, 0, 0, 0, 2, 0, 16, 1, 0, 0, 3,
                    4294967295, 27, 0, 2, 1, 0, 0,
                ],
            )
        },
        &[Err(PassFault::Check(CheckFault::Link(4294967295)))],
        ["", "", "", " -"],
    )?;
    // back to a record
    expect(
        &rt,
        rt.alloc(),
        Plain { unresolved: 9 },
        Given {
            tables: [4000, 6000, 8000],
            ..Given::of(
                NESTED,
                &[11, 9],
                &[1, 0, 0, 0, 1, 0, 0, 0, 4294967295, 0, 0, 4294967295],
            )
        },
        &[Err(PassFault::Check(CheckFault::Link(1)))],
        ["", "", "", " -"],
    )
}

/// A script of Plain expressions in each other, down to an Identifier: the number of the last is also its nesting.
fn nested(heap: Global, last: u32) -> Result<Vec<u32>, AllocError> {
    let mut words = [2, 0, 0, 0, 2, 0, 11, 0, 0, 0, 3, 0].to_vec(heap)?;
    for n in 3..last {
        words.extend_from_slice(&[32, 0, 0, 0, n + 1, 0])?;
    }
    words.extend_from_slice(&[27, 0, 4, 2, 0, 0])?;
    Ok(words)
}

#[test]
fn refused_3_for_a_record_of_nesting_129(rt: HostRuntime) -> Result<(), Fail> {
    let heap = rt.alloc();
    let tree = nested(heap, 129)?;
    expect(
        &rt,
        heap,
        Plain { unresolved: 1 },
        Given::of(TOP, &[], &tree),
        &[Err(PassFault::Check(CheckFault::Deep(129)))],
        ["", "", "", " -"],
    )
}

#[test]
fn refused_1_for_the_length_of_a_table(rt: HostRuntime) -> Result<(), Fail> {
    let heap = rt.alloc();
    let mut tree = [1, 0, 0, 0, 0, 0];
    let mut edges = vec![in heap; 0; 393_217]?;
    let mut shaker = TreeShaker::begin(
        heap,
        TOP,
        Plain { unresolved: 1 },
        &tree,
        &mut [],
        &mut [],
        &mut [],
        &[],
    )?;
    assert_eq!(rt;
        shaker.pass(&mut tree, &mut [], &mut [], &mut edges, &[]),
        Err(PassFault::Lengths(LengthsFault))
    );
    assert_eq!(rt; tree, [1, 0, 0, 0, 0, 0]);
    Ok(())
}

#[test]
fn refused_4_for_a_record(rt: HostRuntime) -> Result<(), Fail> {
    expect(
        &rt,
        rt.alloc(),
        Cautious,
        Given {
            tables: [4000, 6000, 8000],
            ..Given::of(TOP, &[], &[1, 1, 0, 0, 0, 0])
        },
        &[Err(PassFault::Check(CheckFault::Misfit(1)))],
        ["", "", "", " -"],
    )
}

#[test]
fn refused_5_with_declared_zeroed(rt: HostRuntime) -> Result<(), Fail> {
    expect(
        &rt,
        rt.alloc(),
        Plain { unresolved: 1 },
        Given {
            tables: [2, 12, 8],
            ..Given::of(TOP, &[], &RING)
        },
        &[Err(PassFault::Count(CountFault::Table(TableFault::Declared(8))))],
        ["", "", "", RING_TEXT],
    )
}

#[test]
fn refused_6_with_names_edges_and_declared_zeroed(rt: HostRuntime) -> Result<(), Fail> {
    expect(
        &rt,
        rt.alloc(),
        Plain { unresolved: 1 },
        Given {
            tables: [4, 6, 8],
            ..Given::of(TOP, &[], &RING)
        },
        &[Err(PassFault::Count(CountFault::Table(TableFault::Names(7))))],
        ["", "", "", RING_TEXT],
    )
}

#[test]
fn refused_7_with_names_edges_and_declared_zeroed(rt: HostRuntime) -> Result<(), Fail> {
    expect(
        &rt,
        rt.alloc(),
        Plain { unresolved: 1 },
        Given {
            tables: [4, 12, 4],
            ..Given::of(TOP, &[], &RING)
        },
        &[Err(PassFault::Count(CountFault::Table(TableFault::Edges(13))))],
        ["", "", "", RING_TEXT],
    )
}

#[test]
fn refused_6_in_a_second_pass_with_declared_as_it_was(rt: HostRuntime) -> Result<(), Fail> {
    expect(
        &rt,
        rt.alloc(),
        Plain { unresolved: 1 },
        Given {
            tables: [400, 24, 400],
            ..Given::of(
                TOP,
                &[],
                &[
                    2, 0, 0, 0, 2, 0, 14, 0, 9, 2, 3, 17, 21, 0, 0, 0, 4, 0, 10, 0, 0, 0, 5, 0, 16,
                    0, 0, 0, 6, 12, 20, 0, 0, 0, 7, 8, 37, 0, 11, 2, 0, 0, 20, 0, 0, 0, 9, 0, 38,
                    0, 0, 0, 10, 11, 37, 0, 13, 2, 0, 0, 27, 0, 14, 2, 0, 0, 11, 0, 0, 0, 13, 0,
                    34, 0, 0, 0, 14, 0, 36, 0, 0, 0, 15, 0, 37, 0, 11, 2, 0, 16, 27, 0, 2, 2, 0, 0,
                    11, 0, 0, 0, 18, 0, 34, 0, 0, 0, 19, 0, 27, 0, 9, 2, 0, 0,
                ],
            )
        },
        &[
            Ok(true),
            Err(PassFault::Count(CountFault::Table(TableFault::Names(3)))),
        ],
        [
            " 9:2 11:2 13:2",
            "",
            "",
            " (1 2 0 0 0 (2 14 0 9 2 (3 21 0 0 0 (4 10 0 0 0 (5 16 0 0 0 (6 20 0 0 0 (7 37 0 11 2)) (8 20 0 0 0 (9 38 0 0 0 \
             (10 37 0 13 2)) (11 27 0 14 2))) (12 11 0 0 0 (13 34 0 0 0 (16 27 0 2 2)))))) (17 11 0 0 0 (18 34 0 0 0 (19 27 \
             0 9 2))))",
        ],
    )
}
