// Small tables that are refused, worked by hand.

use crate::{build, is_buildable};
use class_rows::{Access, Kind, MemberKind, MemberRow, TableFault, TypeRow, Virt};
use dc_base::{Core, MemberId, NoMemory, Or, Seq, Text, Ty, TypeId};
use std::alloc::Global;
use std::test::Fail;

fn class(alloc: Global, name: &str, base: Option<u32>) -> Result<TypeRow, NoMemory> {
    Ok(TypeRow {
        name: Text::of(alloc, name)?,
        space: Text::of(alloc, "")?,
        outer: None,
        kind: Kind::Class,
        access: Access::Public,
        base: base.map(TypeId),
        bases: Seq::of(Vec::new(alloc)),
        is_abstract: false,
        is_sealed: false,
        own: false,
    })
}

fn method(alloc: Global, owner: u32, name: &str) -> Result<MemberRow, NoMemory> {
    Ok(MemberRow {
        owner: TypeId(owner),
        name: Text::of(alloc, name)?,
        kind: MemberKind::Method,
        access: Access::Public,
        is_static: false,
        virt: Virt::Plain,
        params: Seq::of(Vec::new(alloc)),
        result: Ty {
            core: Core::Void,
            arrays: 0,
            lent: false,
        },
    })
}

// The fault of a table of these classes, by their names and bases, and of these methods of the type 0.
fn fault(
    alloc: Global,
    classes: &[(&str, Option<u32>)],
    methods: &[&str],
) -> Result<(), Or<TableFault>> {
    let mut types = Vec::new(alloc);
    for (name, base) in classes {
        types.push(class(alloc, name, *base)?)?;
    }
    let mut members = Vec::new(alloc);
    for name in methods {
        members.push(method(alloc, 0, name)?)?;
    }
    let explicit: Vec<(MemberId, MemberId)> = Vec::new(alloc);
    if !is_buildable(types.as_slice(), members.as_slice(), explicit.as_slice()) {
        return Ok(());
    }
    build(alloc, types, members, explicit)?;
    Ok(())
}

#[test]
fn tells_the_first_part_that_fails_at_its_least_number(rt: HostRuntime) -> Result<(), Fail> {
    let alloc = rt.alloc();
    let rows: [(&[(&str, Option<u32>)], &[&str], &str); 6] = [
        (
            &[("A", Some(1)), ("A", Some(0))],
            &[],
            "Err(Fault(Cycle(TypeId(0))))",
        ),
        (
            &[("B", Some(9)), ("A", None), ("A", None)],
            &["M", "M"],
            "Err(Fault(Twice(TypeId(1))))",
        ),
        (
            &[("A", Some(9))],
            &["N", "M", "L", "M"],
            "Err(Fault(Duplicate(MemberId(1))))",
        ),
        (
            &[("A", None), ("B", Some(9))],
            &["M"],
            "Err(Fault(MissingBase(TypeId(1))))",
        ),
        (&[("A", None)], &["M"], "Err(Fault(MissingCore(0)))"),
        (&[], &["M"], "Ok(())"),
    ];
    for (classes, methods, want) in rows {
        let answer = fault(alloc, classes, methods);
        assert_eq!(rt; format!(in alloc; "{answer:?}")?.as_str(), want);
    }
    Ok(())
}
