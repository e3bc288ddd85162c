use crate::carried::{Counting, read};
use std::test::Fail;
use tables::{
    BookRow, Counted, Declared, Edge, Edges, Flag, Id, NameInfo, Names, TableFault, VarInfo, find,
    has_row, insert, row_count, zero_rows,
};

const A: Id = Id { symbol: 4, mark: 2 };

const B: Id = Id { symbol: 4, mark: 3 };

const C: Id = Id { symbol: 5, mark: 2 };

#[test]
fn an_empty_table_has_no_row_and_takes_none(rt: HostRuntime) {
    let mut table = [0u32; 0];
    assert!(rt; !has_row::<Declared>(&table));
    assert_eq!(rt; find::<Declared>(&table, &A), None);
    assert_eq!(rt;
        insert::<Declared>(&mut table, A, 9),
        Err(TableFault::Declared(9))
    );
    zero_rows::<Declared>(&mut table);
    assert_eq!(rt; row_count::<Declared>(&table), 0);
}

#[test]
fn a_table_shorter_than_a_row_is_left_alone(rt: HostRuntime) {
    let mut table = [4, 2, 7, 7, 7];
    assert!(rt; !has_row::<Names>(&table));
    assert_eq!(rt; find::<Names>(&table, &A), None);
    assert_eq!(rt;
        insert::<Names>(&mut table, A, 3),
        Err(TableFault::Names(3))
    );
    zero_rows::<Names>(&mut table);
    assert_eq!(rt; table, [4, 2, 7, 7, 7]);
}

#[test]
fn a_table_of_one_row_takes_one(rt: HostRuntime) {
    let mut table = [0; 6];
    assert_eq!(rt; insert::<Names>(&mut table, A, 1), Ok(1));
    assert_eq!(rt; table, [4, 2, 0, 0, 0, 0]);
    assert!(rt; has_row::<Names>(&table));
    assert_eq!(rt; find::<Names>(&table, &A), Some(1));
    assert_eq!(rt; find::<Names>(&table, &B), None);
    assert_eq!(rt;
        insert::<Names>(&mut table, B, 2),
        Err(TableFault::Names(2))
    );
    assert_eq!(rt; table, [4, 2, 0, 0, 0, 0]);
}

#[test]
fn words_past_the_last_whole_row_stay(rt: HostRuntime) {
    let mut table = [1, 2, 3, 4, 9];
    zero_rows::<Declared>(&mut table);
    assert_eq!(rt; table, [0, 0, 0, 0, 9]);
    assert_eq!(rt; Declared::need(&mut table, A, 1), Ok(1));
    assert_eq!(rt; Declared::need(&mut table, B, 2), Ok(2));
    assert_eq!(rt; Declared::need(&mut table, A, 3), Ok(1));
    assert_eq!(rt;
        Declared::need(&mut table, C, 4),
        Err(TableFault::Declared(4))
    );
    assert_eq!(rt; table, [4, 2, 4, 3, 9]);
}

#[test]
fn words_behind_the_first_free_row_come_alive(rt: HostRuntime) {
    let mut table = [0, 0, 5, 2];
    assert_eq!(rt; find::<Declared>(&table, &C), None);
    assert_eq!(rt; insert::<Declared>(&mut table, A, 1), Ok(1));
    assert_eq!(rt; row_count::<Declared>(&table), 2);
    assert_eq!(rt; find::<Declared>(&table, &C), Some(2));
}

#[test]
fn edges_go_by_both_rows(rt: HostRuntime) {
    let mut edges = [0; 12];
    assert_eq!(rt; Edges::need(&mut edges, Edge { from: 1, to: 2 }, 1), Ok(1));
    assert_eq!(rt; Edges::need(&mut edges, Edge { from: 1, to: 1 }, 1), Ok(2));
    assert_eq!(rt; Edges::need(&mut edges, Edge { from: 2, to: 2 }, 1), Ok(3));
    assert_eq!(rt; Edges::need(&mut edges, Edge { from: 1, to: 1 }, 1), Ok(2));
    Edges::add(
        &mut edges,
        2,
        VarInfo {
            usage: 5,
            assign: 1,
        },
    );
    Edges::add(
        &mut edges,
        4,
        VarInfo {
            usage: 5,
            assign: 1,
        },
    );
    assert_eq!(rt;
        Edges::need(&mut edges, Edge { from: 2, to: 1 }, 8),
        Err(TableFault::Edges(8))
    );
    assert_eq!(rt; edges, [1, 2, 0, 0, 1, 1, 5, 1, 2, 2, 0, 0]);
}

#[test]
fn counts_wrap(rt: HostRuntime) {
    let mut names = [4, 2, 0, 7, 0, 0, 1];
    Names::subtract(
        &mut names,
        1,
        VarInfo {
            usage: 1,
            assign: 2,
        },
    );
    assert_eq!(rt; names, [4, 2, 4294967295, 5, 0, 0, 1]);
    Names::add(
        &mut names,
        1,
        VarInfo {
            usage: 3,
            assign: 4294967295,
        },
    );
    assert_eq!(rt; names, [4, 2, 2, 4, 0, 0, 1]);
    Names::set(&mut names, 1, Flag::Entry);
    Names::set(&mut names, 0, Flag::Entry);
    assert!(rt;
        Names::is(&names, 1, Flag::Entry)
            && !Names::is(&names, 1, Flag::Counted)
            && !Names::is(&names, 2, Flag::Entry)
    );
    assert_eq!(rt; names, [4, 2, 2, 4, 1, 0, 1]);
}

#[test]
fn a_name_is_known_once_it_was_counted(rt: HostRuntime) {
    let mut names = [4, 2, 3, 1, 1, 0, 5, 2, 0, 6, 0, 1];
    assert_eq!(rt; Names::info(&names, A), None);
    assert_eq!(rt; Names::info(&names, B), None);
    assert_eq!(rt;
        Names::info(&names, C),
        Some(NameInfo {
            counts: VarInfo {
                usage: 0,
                assign: 6,
            },
            entry: false,
        })
    );
    Names::set(&mut names, 1, Flag::Counted);
    assert_eq!(rt;
        Names::info(&names, A),
        Some(NameInfo {
            counts: VarInfo {
                usage: 3,
                assign: 1,
            },
            entry: true,
        })
    );
}

#[test]
fn faults_are_carried(rt: HostRuntime) {
    let mut names = [0; 7];
    assert_eq!(rt; read(&mut names, A, 1), Ok(1));
    assert_eq!(rt; read(&mut names, A, 2), Ok(1));
    assert_eq!(rt;
        read(&mut names, B, 3),
        Err(Counting::Table(TableFault::Names(3)))
    );
    assert_eq!(rt;
        read(&mut names, Id { symbol: 0, mark: 2 }, 4),
        Err(Counting::Unnamed)
    );
    assert_eq!(rt; names, [4, 2, 2, 0, 0, 1, 0]);
}

#[test]
fn the_largest_table_is_filled_at_both_ends(rt: HostRuntime) -> Result<(), Fail> {
    let mut words = vec![in rt.alloc(); 7u32; 393216]?;
    zero_rows::<Edges>(&mut words);
    assert_eq!(rt;
        insert::<Edges>(&mut words, Edge { from: 1, to: 2 }, 1),
        Ok(1)
    );
    zero_rows::<Edges>(&mut words);
    assert!(rt; !has_row::<Edges>(&words));
    Ok(())
}
