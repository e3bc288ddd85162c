ghost use Rattle.rules.specs.Words.{Whole};

use crate::children::Children;
use crate::kind::Kind;
use crate::record::Record;
use crate::write::{set_first, set_next, turn_into};
use std::test::Fail;

/// A Module of an Empty, a Fn declaration and a Block.
fn module() -> [u32; 36]
    ensures { Whole result 2 }
{
    [
        1, 0, 0, 0, 2, 0, // 1 Module
        9, 0, 0, 0, 0, 3, // 2 Empty
        14, 0, 7, 2, 5, 4, // 3 Fn declaration
        10, 0, 0, 0, 0, 0, // 4 Block
        21, 1, 0, 0, 6, 0, // 5 Function
        10, 0, 0, 0, 0, 0, // 6 Block
    ]
}

#[test]
fn kinds_have_words(rt: HostRuntime) -> Result<(), Fail> {
    let kind = Kind::try_from(14).map_err(|_| "14 is a kind")?;
    assert!(rt; kind == Kind::FnDeclaration);
    assert_eq!(rt; kind.name(), "Fn declaration");
    assert_eq!(rt; kind.to_string(rt.alloc())?.as_str(), "Fn declaration");
    assert!(rt; kind.is_declaration());
    assert!(rt; !kind.is_expression());
    assert!(rt; Kind::try_from(0).is_err());
    assert!(rt; Kind::try_from(42).is_err());
    Ok(())
}

#[test]
fn a_record_is_read(rt: HostRuntime) -> Result<(), Fail> {
    let words = module();
    let record = Record::at(&words, 3).ok_or("record 3 is there")?;
    assert!(rt; record.kind == Kind::FnDeclaration);
    assert_eq!(rt; (record.flags, record.symbol, record.mark), (0, 7, 2));
    assert_eq!(rt; (record.first, record.next), (5, 4));
    assert!(rt; Record::at(&words, 0).is_none());
    assert!(rt; Record::at(&words, 7).is_none());
    Ok(())
}

#[test]
fn children_come_in_order(rt: HostRuntime) {
    let words = module();
    let mut order = 0u32;
    for node in Children::of(&words, 2).chain() {
        order = order
            .wrapping_mul(100)
            .wrapping_add(node.number.wrapping_mul(10))
            .wrapping_add(node.record.next);
    }
    assert_eq!(rt; order, 233440);
}

#[test]
fn links_come_in_order(rt: HostRuntime) {
    let words = module();
    let mut order = 0u32;
    for (n, child) in Children::of(&words, 2) {
        let next = child.next;
        order = order
            .wrapping_mul(100)
            .wrapping_add(n.wrapping_mul(10))
            .wrapping_add(next);
    }
    assert_eq!(rt; order, 233440);
}

#[test]
fn links_and_kinds_are_written(rt: HostRuntime) {
    let mut words = module();
    set_next(&mut words, 2, 4);
    set_first(&mut words, 5, 0);
    turn_into(&mut words, 3, Kind::Empty);
    set_next(&mut words, 0, 9);
    set_first(&mut words, 7, 9);
    let after = [
        1, 0, 0, 0, 2, 0, // 1 Module
        9, 0, 0, 0, 0, 4, // 2 Empty
        9, 0, 0, 0, 5, 4, // 3 Empty
        10, 0, 0, 0, 0, 0, // 4 Block
        21, 1, 0, 0, 0, 0, // 5 Function
        10, 0, 0, 0, 0, 0, // 6 Block
    ];
    assert!(rt; words == after);
}
