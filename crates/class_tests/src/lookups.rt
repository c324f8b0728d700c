// Look-ups by name, and slots.

use crate::made::{Method, Type, table};
use class_rows::{Access, Kind, Virt};
use class_table::ClassTable;
use dc_base::{MemberId, NoMemory, Text, TypeId};
use std::alloc::Global;
use std::test::Fail;

// 24: interface L   25: interface J : L   26: interface K : L   27: interface I : J, K
// 28: class A   29: class B : A   30: class C : B
const TYPES: [Type<'static>; 7] = [
    ("L", Kind::Interface, None, &[], None),
    ("J", Kind::Interface, None, &[24], None),
    ("K", Kind::Interface, None, &[24], None),
    ("I", Kind::Interface, None, &[25, 26], None),
    ("A", Kind::Class, Some(0), &[], None),
    ("B", Kind::Class, Some(28), &[], None),
    ("C", Kind::Class, Some(29), &[], None),
];

const METHODS: [Method<'static>; 10] = [
    (0, "M", Access::Public, Virt::Virtual),
    (24, "M", Access::Public, Virt::Abstract),
    (26, "M", Access::Public, Virt::Abstract),
    (25, "M", Access::Public, Virt::Abstract),
    (27, "M", Access::Public, Virt::Abstract),
    // hidden, overridden, and overridden again
    (28, "Hidden", Access::Public, Virt::Plain),
    (29, "Hidden", Access::Public, Virt::Plain),
    (28, "Taken", Access::Public, Virt::Virtual),
    (29, "Taken", Access::Public, Virt::Override),
    (30, "Taken", Access::Public, Virt::SealedOverride),
];

fn found(alloc: Global, table: &ClassTable, t: u32, name: &str) -> Result<String, NoMemory> {
    let name = Text::of(alloc, name)?;
    let mut numbers = String::new(alloc);
    for m in table.lookup(TypeId(t), &name) {
        let number = format!(in alloc; " {}", m.0)?;
        numbers.push_str(number.as_str())?;
    }
    Ok(numbers)
}

#[test]
fn a_name_is_looked_up_from_the_nearest_type_on(rt: HostRuntime) -> Result<(), Fail> {
    let alloc = rt.alloc();
    let table = table(alloc, &TYPES, &METHODS, &[]);
    let Ok(Some(table)) = table else {
        panic!(rt; "no table");
    };
    let rows: [(u32, &str, &str); 8] = [
        // I J L K Object, L once
        (27, "M", " 4 3 1 2 0"),
        (24, "M", " 1 0"),
        (30, "M", " 0"),
        (30, "Hidden", " 6 5"),
        (28, "Hidden", " 5"),
        // overrides are left out
        (30, "Taken", " 7"),
        (28, "Taken", " 7"),
        (27, "Taken", ""),
    ];
    for (t, name, want) in rows {
        let told = found(alloc, &table, t, name)?;
        assert_eq!(rt; told.as_str(), want);
    }
    Ok(())
}

#[test]
fn an_override_has_the_slot_of_what_it_overrides(rt: HostRuntime) -> Result<(), Fail> {
    let alloc = rt.alloc();
    let table = table(alloc, &TYPES, &METHODS, &[]);
    let Ok(Some(table)) = table else {
        panic!(rt; "no table");
    };
    for (m, want) in [(7, 7), (8, 7), (9, 7), (6, 6), (3, 3)] {
        if m < table.members() {
            assert_eq!(rt; table.slot(MemberId(m)).0, want);
        }
    }
    Ok(())
}
