// Which references go where.

use crate::made::{Type, table};
use class_rows::Kind;
use dc_base::{Core, Prim_, Ty, TypeId};
use std::test::Fail;

// 24: interface I   25: class A   26: class B : A, I   27: class C : I
const TYPES: [Type<'static>; 4] = [
    ("I", Kind::Interface, None, &[], None),
    ("A", Kind::Class, Some(0), &[], None),
    ("B", Kind::Class, Some(25), &[24], None),
    ("C", Kind::Class, Some(0), &[24], None),
];

const fn class(t: u32, arrays: u8) -> Ty {
    Ty {
        core: Core::Class(TypeId(t)),
        arrays,
        lent: false,
    }
}

const fn prim(prim: Prim_, arrays: u8) -> Ty {
    Ty {
        core: Core::Prim(prim),
        arrays,
        lent: false,
    }
}

#[test]
fn references_go_up_and_arrays_with_their_elements(rt: HostRuntime) -> Result<(), Fail> {
    let alloc = rt.alloc();
    let table = table(alloc, &TYPES, &[], &[]);
    let Ok(Some(table)) = table else {
        panic!(rt; "no table");
    };
    let rows: [(&[Ty], Ty, bool); 14] = [
        (&[], class(26, 0), true),
        (&[class(26, 0), class(27, 0)], class(24, 0), true),
        (&[class(26, 0), class(27, 0)], class(26, 0), false),
        (&[class(26, 0)], class(25, 0), true),
        (&[class(25, 0)], class(26, 0), false),
        (&[class(24, 0)], class(0, 0), true),
        // arrays of classes
        (&[class(26, 1)], class(25, 1), true),
        (&[class(26, 1)], class(24, 1), true),
        (&[class(25, 1)], class(26, 1), false),
        (&[class(26, 2)], class(0, 1), true),
        // arrays of primitives
        (&[prim(Prim_::I4, 1)], prim(Prim_::U4, 1), false),
        (&[prim(Prim_::I4, 1)], class(0, 1), false),
        // to System.Array, and to what that goes to
        (&[prim(Prim_::I4, 1), class(26, 2)], class(3, 0), true),
        (&[prim(Prim_::I4, 1)], class(0, 0), true),
    ];
    for (set, to, want) in rows {
        assert_eq!(rt; table.assignable(set, to), want);
    }
    Ok(())
}

#[test]
fn a_table_hands_out_its_rows(rt: HostRuntime) -> Result<(), Fail> {
    let table = table(rt.alloc(), &TYPES, &[], &[]);
    let Ok(Some(table)) = table else {
        panic!(rt; "no table");
    };
    let (first, second, third) = (TypeId(24), TypeId(25), TypeId(26));
    assert!(rt; table.derives(third, second));
    assert!(rt; !table.derives(second, third));
    assert!(rt; table.is_inside(first, first));
    assert!(rt; !table.is_inside(second, first));
    let rows = table.into_rows();
    assert_eq!(rt; rows.types.len(), 24 + TYPES.len());
    assert!(rt; rows.members.is_empty());
    assert!(rt; rows.explicit.is_empty());
    Ok(())
}
