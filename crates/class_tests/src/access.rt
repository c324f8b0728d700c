// From where a member may be named.

use crate::made::{Method, Type, table};
use class_rows::{Access, Kind, Virt};
use class_table::ClassTable;
use dc_base::{MemberId, NoMemory, TypeId};
use std::alloc::Global;
use std::test::Fail;

// 24: class Owner   25: Owner.Inner   26: class Heir : Owner   27: Heir.Inner   28: class Other
const TYPES: [Type<'static>; 5] = [
    ("Owner", Kind::Class, Some(0), &[], None),
    ("Inner", Kind::Class, Some(0), &[], Some(24)),
    ("Heir", Kind::Class, Some(24), &[], None),
    ("Inner", Kind::Class, Some(0), &[], Some(26)),
    ("Other", Kind::Class, Some(0), &[], None),
];

const METHODS: [Method<'static>; 6] = [
    (24, "A", Access::Private, Virt::Plain),
    (24, "B", Access::PrivateProtected, Virt::Plain),
    (24, "C", Access::Internal, Virt::Plain),
    (24, "D", Access::Protected, Virt::Plain),
    (24, "E", Access::ProtectedInternal, Virt::Plain),
    (24, "F", Access::Public, Virt::Plain),
];

// The names of the methods that may be named.
fn named(
    alloc: Global,
    table: &ClassTable,
    from: u32,
    through: Option<u32>,
) -> Result<String, NoMemory> {
    let mut names = String::new(alloc);
    for m in 0..METHODS.len() {
        if m as u32 >= table.members() {
            return Ok(names);
        }
        if table.accessible(TypeId(from), MemberId(m as u32), through.map(TypeId)) {
            names.push_str(METHODS[m].1)?;
        }
    }
    Ok(names)
}

#[test]
fn each_access_from_inside_round_below_and_outside(rt: HostRuntime) -> Result<(), Fail> {
    let alloc = rt.alloc();
    let table = table(alloc, &TYPES, &METHODS, &[]);
    let Ok(Some(table)) = table else {
        panic!(rt; "no table");
    };
    let rows: [(u32, Option<u32>, &str); 10] = [
        (24, None, "ABCDEF"),
        (25, None, "ABCDEF"),
        (25, Some(24), "ABCDEF"),
        (26, None, "BCDEF"),
        (26, Some(26), "BCDEF"),
        // through the base a protected one isn't reached
        (26, Some(24), "CEF"),
        (27, Some(26), "BCDEF"),
        (27, Some(24), "CEF"),
        (28, None, "CEF"),
        // a type of the references
        (1, None, "F"),
    ];
    for (from, through, want) in rows {
        let told = named(alloc, &table, from, through)?;
        assert_eq!(rt; told.as_str(), want);
    }
    Ok(())
}
