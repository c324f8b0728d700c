// Methods of interfaces, implemented and not.

use crate::made::{Method, Type, built};
use class_rows::{Access, Kind, Virt};
use std::test::Fail;

// 24: interface I   25: interface J : I   26: class A : J   27: class B : A
const TYPES: [Type<'static>; 4] = [
    ("I", Kind::Interface, None, &[], None),
    ("J", Kind::Interface, None, &[24], None),
    ("A", Kind::Class, Some(0), &[25], None),
    ("B", Kind::Class, Some(26), &[], None),
];

const RUN: Method<'static> = (24, "Run", Access::Public, Virt::Abstract);

const STOP: Method<'static> = (25, "Stop", Access::Public, Virt::Abstract);

#[test]
fn each_class_implements_what_it_and_its_bases_name(rt: HostRuntime) -> Result<(), Fail> {
    let alloc = rt.alloc();
    let rows: [(&[Method<'_>], &[(u32, u32)], &str); 7] = [
        (&[], &[], "ok"),
        (&[RUN], &[], "Unimplemented(TypeId(26), MemberId(0))"),
        (
            &[RUN, (26, "Run", Access::Public, Virt::Virtual)],
            &[],
            "ok",
        ),
        // not public, and not explicitly
        (
            &[RUN, (26, "Run", Access::Internal, Virt::Virtual)],
            &[],
            "Unimplemented(TypeId(26), MemberId(0))",
        ),
        // explicitly, under another name
        (
            &[RUN, (26, "I.Run", Access::Private, Virt::Virtual)],
            &[(1, 0)],
            "ok",
        ),
        // the least method counts, and a class doesn't do for its base
        (
            &[STOP, RUN, (27, "Run", Access::Public, Virt::Virtual)],
            &[],
            "Unimplemented(TypeId(26), MemberId(0))",
        ),
        // the first part that fails counts
        (&[RUN, RUN], &[], "Duplicate(MemberId(0))"),
    ];
    for (methods, pairs, want) in rows {
        let told = built(alloc, &TYPES, methods, pairs)?;
        assert_eq!(rt; told.as_str(), want);
    }
    Ok(())
}
