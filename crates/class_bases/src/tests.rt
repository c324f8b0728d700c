// A small table, worked by hand.

use crate::bases_are_there;
use class_rows::{Access, Kind, TableFault, TypeRow};
use dc_base::{NoMemory, Or, Seq, Text, TypeId};
use std::alloc::Global;
use std::test::Fail;

fn type_row(
    alloc: Global,
    kind: Kind,
    is_sealed: bool,
    base: Option<u32>,
) -> Result<TypeRow, NoMemory> {
    Ok(TypeRow {
        name: Text::of(alloc, "T")?,
        space: Text::of(alloc, "")?,
        outer: None,
        kind,
        access: Access::Public,
        base: base.map(TypeId),
        bases: Seq::of(Vec::new(alloc)),
        is_abstract: false,
        is_sealed,
        own: true,
    })
}

fn fit(alloc: Global, table: &[(Kind, bool, Option<u32>)]) -> Result<(), Or<TableFault>> {
    let mut types = Vec::new(alloc);
    for (kind, is_sealed, base) in table {
        types.push(type_row(alloc, *kind, *is_sealed, *base)?)?;
    }
    // The table has no longer list.
    if types.len() > 2 {
        return Err(Or::NoMemory);
    }
    match bases_are_there(types.as_slice(), &[]) {
        Ok(()) => Ok(()),
        Err(fault) => Err(Or::Fault(fault)),
    }
}

#[test]
fn finds_the_first_type_whose_base_does_not_fit(rt: HostRuntime) -> Result<(), Fail> {
    let alloc = rt.alloc();
    let table: [([(Kind, bool, Option<u32>); 2], &str); 4] = [
        (
            [(Kind::Class, false, None), (Kind::Class, true, Some(0))],
            "Ok(())",
        ),
        (
            [(Kind::Class, true, None), (Kind::Class, false, Some(0))],
            "Err(Fault(MissingBase(TypeId(1))))",
        ),
        (
            [
                (Kind::Interface, false, None),
                (Kind::Class, false, Some(0)),
            ],
            "Err(Fault(MissingBase(TypeId(1))))",
        ),
        (
            [(Kind::Class, false, Some(2)), (Kind::Class, false, Some(2))],
            "Err(Fault(MissingBase(TypeId(0))))",
        ),
    ];
    for (types, want) in table {
        let answer = fit(alloc, &types);
        assert_eq!(rt; format!(in alloc; "{answer:?}")?.as_str(), want);
    }
    Ok(())
}
