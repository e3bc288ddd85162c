use crate::expect::{Given, TOP, expect};
use judge::{Cautious, Plain};
use std::test::Fail;

#[test]
fn a_list_that_begins_with_use_asm_is_not_entered(rt: HostRuntime) -> Result<(), Fail> {
    expect(
        &rt,
        rt.alloc(),
        Plain { unresolved: 1 },
        Given::of(
            TOP,
            &[],
            &[
                2, 0, 0, 0, 2, 0, 11, 0, 0, 0, 3, 4, 28, 0, 3, 0, 0, 0, 14, 0, 4, 2, 5, 0, 21, 0,
                0, 0, 6, 0, 10, 0, 0, 0, 0, 0,
            ],
        ),
        &[Ok(false)],
        [
            " 4:2",
            "",
            "",
            " (1 2 0 0 0 (2 11 0 0 0 (3 28 0 3 0)) (4 14 0 4 2 (5 21 0 0 0 (6 10 0 0 0))))",
        ],
    )?;
    // one that comes to begin with it is not entered by the next pass
    expect(
        &rt,
        rt.alloc(),
        Plain { unresolved: 1 },
        Given::of(
            TOP,
            &[],
            &[
                2, 0, 0, 0, 2, 0, 14, 0, 4, 2, 3, 5, 21, 0, 0, 0, 4, 0, 10, 0, 0, 0, 0, 0, 11, 0,
                0, 0, 6, 0, 28, 0, 3, 0, 0, 0,
            ],
        ),
        &[Ok(true), Ok(true)],
        [" 4:2", "", "", " (1 2 0 0 0 (5 11 0 0 0 (6 28 0 3 0)))"],
    )
}

#[test]
fn an_empty_is_unlinked_from_a_list_and_nothing_is_changed(rt: HostRuntime) -> Result<(), Fail> {
    expect(
        &rt,
        rt.alloc(),
        Cautious,
        Given::of(
            TOP,
            &[],
            &[
                1, 0, 0, 0, 2, 0, 6, 0, 0, 0, 3, 4, 7, 0, 10, 2, 0, 0, 9, 0, 0, 0, 0, 0,
            ],
        ),
        &[Ok(false)],
        [
            "",
            " 10:2:1:0:1:1",
            "",
            " (1 1 0 0 0 (2 6 0 0 0 (3 7 0 10 2)))",
        ],
    )
}

#[test]
fn a_childless_block_is_unlinked_from_a_list_and_nothing_is_changed(
    rt: HostRuntime,
) -> Result<(), Fail> {
    expect(
        &rt,
        rt.alloc(),
        Plain { unresolved: 1 },
        Given::of(
            TOP,
            &[],
            &[
                2, 0, 0, 0, 2, 0, 11, 0, 0, 0, 3, 4, 27, 0, 11, 2, 0, 0, 11, 0, 0, 0, 5, 6, 28, 0,
                0, 0, 0, 0, 10, 0, 0, 0, 0, 7, 15, 0, 11, 2, 8, 0, 22, 0, 0, 0, 0, 0,
            ],
        ),
        &[Ok(false)],
        [
            " 11:2",
            " 11:2:1:0:1:1",
            "",
            " (1 2 0 0 0 (2 11 0 0 0 (3 27 0 11 2)) (4 11 0 0 0 (5 28 0 0 0)) (7 15 0 11 2 (8 22 0 0 0)))",
        ],
    )
}

#[test]
fn in_another_place_than_a_list_an_empty_stays(rt: HostRuntime) -> Result<(), Fail> {
    expect(
        &rt,
        rt.alloc(),
        Plain { unresolved: 1 },
        Given::of(
            TOP,
            &[],
            &[
                2, 0, 0, 0, 5, 0, 36, 0, 0, 0, 9, 0, 22, 1, 0, 0, 23, 0, 15, 0, 4, 2, 3, 0, 11, 0,
                0, 0, 24, 17, 15, 0, 4, 2, 19, 0, 28, 0, 0, 0, 0, 0, 27, 9, 27, 27, 9, 9, 37, 0,
                12, 2, 0, 7, 77, 9, 27, 9, 9, 9, 26, 0, 0, 0, 16, 0, 11, 0, 0, 0, 2, 6, 0, 0, 27,
                77, 77, 77, 21, 0, 0, 0, 26, 0, 28, 0, 0, 0, 0, 0, 10, 0, 0, 0, 0, 0, 12, 0, 0, 0,
                4, 12, 21, 0, 0, 0, 27, 0, 22, 0, 0, 0, 22, 0, 11, 0, 0, 0, 15, 0, 23, 0, 0, 0, 14,
                11, 23, 0, 0, 0, 18, 0, 28, 0, 0, 0, 0, 21, 28, 0, 0, 0, 0, 0, 10, 0, 0, 0, 20, 0,
                37, 0, 22, 2, 0, 25, 10, 0, 0, 0, 0, 0,
            ],
        ),
        &[Ok(true)],
        [
            " 4:2 22:2",
            " 4:2:0:0:0:0 22:2:0:1:0:1 12:2:0:1:1:1",
            " 1:2:0:1",
            " (1 2 0 0 0 (5 11 0 0 0 (24 28 0 0 0)) (17 12 0 0 0 (4 9 0 0 0)) (12 11 0 0 0 (2 36 0 0 0 (9 37 0 12 2) (7 28 0 \
             0 0))))",
        ],
    )
}
