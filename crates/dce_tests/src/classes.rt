use crate::expect::{Given, TOP, TOP_PRESERVING, expect};
use judge::Plain;
use std::test::Fail;

#[test]
fn a_class_with_an_unused_name_goes(rt: HostRuntime) -> Result<(), Fail> {
    expect(
        &rt,
        rt.alloc(),
        Plain { unresolved: 1 },
        Given::of(
            TOP_PRESERVING,
            &[10],
            &[
                1, 0, 0, 0, 2, 0, 5, 0, 0, 0, 3, 6, 16, 0, 0, 0, 4, 0, 20, 0, 0, 0, 5, 0, 37, 0, 1,
                2, 0, 0, 15, 0, 6, 2, 7, 0, 22, 0, 0, 0, 0, 0,
            ],
        ),
        &[Ok(true)],
        [
            " 1:2 6:2",
            " 1:2:1:0:1:1",
            "",
            " (1 1 0 0 0 (2 5 0 0 0 (3 16 0 0 0 (4 20 0 0 0 (5 37 0 1 2)))))",
        ],
    )?;
    // with a method, and a field whose value does not act
    expect(
        &rt,
        rt.alloc(),
        Plain { unresolved: 1 },
        Given::of(
            TOP_PRESERVING,
            &[],
            &[
                1, 0, 0, 0, 10, 0, 36, 5, 4, 0, 12, 1, 24, 0, 0, 0, 12, 0, 9, 5, 4, 4294967295, 3,
                1, 23, 0, 0, 0, 7, 3, 77, 5, 4294967295, 4294967295, 8, 14, 21, 0, 0, 0, 14, 0, 10,
                0, 0, 0, 0, 0, 22, 0, 0, 0, 5, 0, 15, 0, 4, 0, 9, 0, 14, 5, 0, 0, 13, 14, 28, 0, 0,
                0, 0, 0, 0, 1, 0, 0, 7, 14, 37, 0, 4, 0, 0, 8,
            ],
        ),
        &[Ok(true)],
        [" 4:0", "", "", " (1 1 0 0 0)"],
    )
}

#[test]
fn a_class_with_a_static_block_stays(rt: HostRuntime) -> Result<(), Fail> {
    expect(
        &rt,
        rt.alloc(),
        Plain { unresolved: 2 },
        Given::of(
            TOP,
            &[],
            &[
                1, 0, 0, 0, 6, 0, 25, 0, 0, 0, 5, 0, 28, 0, 0, 0, 0, 2, 0, 77, 1, 9, 0, 9, 10, 0,
                0, 0, 0, 0, 3, 0, 0, 0, 8, 10, 22, 1, 0, 0, 3, 0, 4, 0, 4, 2, 0, 0, 0, 9, 0, 9, 0,
                27, 15, 0, 4, 2, 7, 0, 1, 0, 9, 9, 1, 0,
            ],
        ),
        &[Ok(true)],
        [
            " 4:2",
            "",
            "",
            " (1 1 0 0 0 (10 15 0 4 2 (7 22 1 0 0 (3 28 0 0 0) (2 25 0 0 0 (5 10 0 0 0)))))",
        ],
    )
}

#[test]
fn a_class_with_a_computed_key_stays(rt: HostRuntime) -> Result<(), Fail> {
    // of a method
    expect(
        &rt,
        rt.alloc(),
        Plain { unresolved: 1 },
        Given::of(
            TOP,
            &[],
            &[
                2, 0, 0, 0, 2, 0, 15, 0, 4, 2, 3, 0, 22, 0, 0, 0, 4, 0, 23, 1, 0, 0, 5, 0, 28, 0,
                0, 0, 0, 6, 21, 0, 0, 0, 7, 0, 10, 0, 0, 0, 0, 0,
            ],
        ),
        &[Ok(false)],
        [
            " 4:2",
            "",
            "",
            " (1 2 0 0 0 (2 15 0 4 2 (3 22 0 0 0 (4 23 1 0 0 (5 28 0 0 0) (6 21 0 0 0 (7 10 0 0 0))))))",
        ],
    )?;
    // of a field
    expect(
        &rt,
        rt.alloc(),
        Plain { unresolved: 1 },
        Given::of(
            TOP,
            &[],
            &[
                2, 0, 0, 0, 2, 0, 15, 0, 4, 2, 3, 0, 22, 0, 0, 0, 4, 0, 24, 1, 0, 0, 5, 0, 28, 0,
                0, 0, 0, 0,
            ],
        ),
        &[Ok(false)],
        [
            " 4:2",
            "",
            "",
            " (1 2 0 0 0 (2 15 0 4 2 (3 22 0 0 0 (4 24 1 0 0 (5 28 0 0 0)))))",
        ],
    )
}

#[test]
fn a_class_with_an_acting_superclass_stays(rt: HostRuntime) -> Result<(), Fail> {
    expect(
        &rt,
        rt.alloc(),
        Plain { unresolved: 2 },
        Given::of(
            TOP_PRESERVING,
            &[17, 1],
            &[
                1, 0, 0, 0, 2, 0, 15, 0, 2, 2, 3, 0, 22, 1, 0, 0, 4, 0, 36, 1, 0, 0, 5, 0, 37, 0,
                18, 2, 0, 6, 31, 0, 0, 0, 7, 0, 10, 0, 0, 0, 0, 0,
            ],
        ),
        &[Ok(false)],
        [
            " 2:2",
            " 2:2:0:0:0:0 18:2:1:1:0:1",
            " 1:2:1:1",
            " (1 1 0 0 0 (2 15 0 2 2 (3 22 1 0 0 (4 36 1 0 0 (5 37 0 18 2) (6 31 0 0 0 (7 10 0 0 0))))))",
        ],
    )
}

#[test]
fn a_class_with_a_superclass_that_does_not_act_goes(rt: HostRuntime) -> Result<(), Fail> {
    expect(
        &rt,
        rt.alloc(),
        Plain { unresolved: 1 },
        Given::of(
            TOP,
            &[],
            &[
                2, 0, 0, 0, 2, 0, 15, 0, 6, 2, 3, 0, 22, 1, 0, 0, 4, 0, 28, 0, 0, 0, 0, 0,
            ],
        ),
        &[Ok(true), Ok(true)],
        [" 6:2", "", "", " (1 2 0 0 0)"],
    )
}

#[test]
fn a_class_with_an_acting_field_value_stays(rt: HostRuntime) -> Result<(), Fail> {
    expect(
        &rt,
        rt.alloc(),
        Plain { unresolved: 1 },
        Given::of(
            TOP,
            &[],
            &[
                2, 0, 0, 0, 2, 0, 15, 0, 4, 2, 3, 0, 22, 0, 0, 0, 4, 0, 24, 0, 0, 0, 5, 0, 34, 0,
                0, 0, 6, 0, 27, 0, 8, 1, 0, 0,
            ],
        ),
        &[Ok(false)],
        [
            " 4:2",
            " 4:2:0:0:0:0 8:1:1:0:0:1",
            " 1:2:1:0",
            " (1 2 0 0 0 (2 15 0 4 2 (3 22 0 0 0 (4 24 0 0 0 (5 34 0 0 0 (6 27 0 8 1))))))",
        ],
    )
}

#[test]
fn a_field_value_that_gave_way_no_longer_acts(rt: HostRuntime) -> Result<(), Fail> {
    expect(
        &rt,
        rt.alloc(),
        Plain { unresolved: 1 },
        Given::of(
            TOP,
            &[],
            &[
                2, 0, 0, 0, 2, 0, 16, 0, 0, 0, 3, 6, 20, 0, 0, 0, 4, 0, 37, 0, 4, 2, 0, 5, 28, 0,
                0, 0, 0, 0, 15, 0, 6, 2, 7, 0, 22, 0, 0, 0, 8, 0, 24, 0, 0, 0, 9, 0, 36, 0, 0, 0,
                10, 0, 37, 0, 4, 2, 0, 11, 28, 0, 0, 0, 0, 0,
            ],
        ),
        &[Ok(true), Ok(true), Ok(true)],
        [" 4:2 6:2", "", "", " (1 2 0 0 0)"],
    )
}
