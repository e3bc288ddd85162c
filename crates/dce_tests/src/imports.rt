use crate::expect::{Given, TOP, TOP_PRESERVING, expect};
use judge::{Cautious, Plain};
use std::test::Fail;

#[test]
fn an_import_goes_with_its_last_specifier(rt: HostRuntime) -> Result<(), Fail> {
    expect(
        &rt,
        rt.alloc(),
        Plain { unresolved: 9 },
        Given::of(
            TOP,
            &[],
            &[1, 0, 0, 0, 3, 0, 4, 0, 6, 2, 0, 0, 3, 0, 0, 0, 2, 0],
        ),
        &[Ok(true)],
        [" 6:2", "", "", " (1 1 0 0 0)"],
    )
}

#[test]
fn a_specifier_that_is_read_stays(rt: HostRuntime) -> Result<(), Fail> {
    expect(
        &rt,
        rt.alloc(),
        Cautious,
        Given::of(
            TOP,
            &[],
            &[
                1, 0, 0, 0, 2, 0, 3, 0, 0, 0, 3, 4, 4, 0, 5, 0, 0, 0, 11, 0, 0, 0, 5, 0, 27, 0, 5,
                0, 0, 0,
            ],
        ),
        &[Ok(false)],
        [
            " 5:0",
            " 5:0:1:0:1:1",
            "",
            " (1 1 0 0 0 (2 3 0 0 0 (3 4 0 5 0)) (4 11 0 0 0 (5 27 0 5 0)))",
        ],
    )
}

#[test]
fn a_preserved_import_stays_without_specifiers(rt: HostRuntime) -> Result<(), Fail> {
    expect(
        &rt,
        rt.alloc(),
        Cautious,
        Given::of(
            TOP_PRESERVING,
            &[],
            &[
                1, 0, 0, 0, 2, 0, 3, 0, 0, 0, 3, 5, 4, 0, 14, 2, 0, 4, 4, 0, 14, 2, 0, 0, 14, 0,
                14, 2, 6, 10, 21, 0, 0, 0, 7, 0, 37, 0, 14, 2, 0, 8, 37, 0, 14, 2, 0, 9, 10, 0, 0,
                0, 0, 0, 14, 0, 14, 2, 11, 0, 21, 0, 0, 0, 12, 0, 10, 0, 0, 0, 13, 0, 11, 0, 0, 0,
                14, 28, 32, 0, 0, 0, 15, 0, 36, 0, 0, 0, 16, 23, 37, 0, 14, 2, 0, 17, 30, 0, 14, 2,
                18, 0, 22, 1, 0, 0, 19, 0, 31, 0, 0, 0, 20, 0, 37, 0, 14, 2, 0, 21, 37, 0, 14, 2,
                0, 22, 27, 0, 14, 2, 0, 0, 30, 0, 0, 0, 24, 0, 22, 0, 0, 0, 25, 0, 24, 0, 0, 0, 26,
                0, 31, 0, 0, 0, 27, 0, 28, 0, 3, 0, 0, 0, 9, 0, 0, 0, 0, 29, 11, 0, 0, 0, 30, 31,
                27, 0, 14, 2, 0, 0, 9, 0, 0, 0, 0, 0,
            ],
        ),
        &[Ok(true)],
        [" 14:2", "", "", " (1 1 0 0 0 (2 3 0 0 0))"],
    )
}

#[test]
fn an_import_found_without_specifiers_stays(rt: HostRuntime) -> Result<(), Fail> {
    expect(
        &rt,
        rt.alloc(),
        Plain { unresolved: 1 },
        Given::of(
            TOP_PRESERVING,
            &[],
            &[
                1, 0, 0, 0, 11, 0, 4, 0, 7, 2, 0, 0, 22, 0, 0, 0, 0, 0, 3, 0, 0, 0, 0, 10, 15, 0,
                7, 2, 3, 0, 9, 77, 9, 77, 1, 1, 27, 27, 0, 1, 27, 0, 9, 77, 9, 9, 27, 1, 3, 0, 0,
                0, 2, 0, 5, 0, 0, 0, 5, 9, 9, 0, 0, 0, 0, 4,
            ],
        ),
        &[Ok(false)],
        [
            " 7:2",
            " 7:2:1:0:1:1",
            "",
            " (1 1 0 0 0 (4 3 0 0 0) (10 5 0 0 0 (5 15 0 7 2 (3 22 0 0 0))) (9 3 0 0 0 (2 4 0 7 2)))",
        ],
    )
}
