// Classes with members, and references to them.

use crate::{Shape, Sought, members_meant};
use class_parts::orders_of;
use class_rows::{Access, Kind, MemberKind, MemberRow, Param, TypeRow, Virt, Way};
use dc_base::{Core, MemberId, Prim_, Seq, Text, Ty, TypeId};
use std::alloc::Global;
use std::test::Fail;

const INT: Ty = Ty {
    core: Core::Prim(Prim_::I4),
    arrays: 0,
    lent: false,
};

const VOID: Ty = Ty {
    core: Core::Void,
    arrays: 0,
    lent: false,
};

fn class(alloc: Global, name: &str, base: Option<TypeId>) -> Result<TypeRow, Fail> {
    Ok(TypeRow {
        name: Text::of(alloc, name)?,
        space: Text::of(alloc, "")?,
        outer: None,
        kind: Kind::Class,
        access: Access::Public,
        base,
        bases: Seq::of(Vec::new(alloc)),
        is_abstract: false,
        is_sealed: false,
        own: false,
    })
}

fn member(
    alloc: Global,
    owner: u32,
    name: &str,
    kind: MemberKind,
    is_static: bool,
    params: &[Ty],
    gives: Ty,
) -> Result<MemberRow, Fail> {
    let mut list = Vec::new(alloc);
    for ty in params {
        list.push(Param {
            ty: *ty,
            way: Way::ByValue,
        })?;
    }
    Ok(MemberRow {
        owner: TypeId(owner),
        name: Text::of(alloc, name)?,
        kind,
        access: Access::Public,
        is_static,
        virt: Virt::Plain,
        params: Seq::of(list),
        result: gives,
    })
}

fn field() -> MemberKind {
    MemberKind::Field {
        init_only: false,
        literal: None,
    }
}

// B derives from A, and C from B; D derives from A, and E from a type that isn't there.
fn types_of(alloc: Global) -> Result<Vec<TypeRow>, Fail> {
    let mut types = Vec::new(alloc);
    types.push(class(alloc, "C", Some(TypeId(1)))?)?;
    types.push(class(alloc, "B", Some(TypeId(2)))?)?;
    types.push(class(alloc, "A", None)?)?;
    types.push(class(alloc, "D", Some(TypeId(2)))?)?;
    types.push(class(alloc, "E", Some(TypeId(9)))?)?;
    Ok(types)
}

fn members_of(alloc: Global) -> Result<Vec<MemberRow>, Fail> {
    let mut members = Vec::new(alloc);
    members.push(member(alloc, 2, "M", MemberKind::Method, false, &[INT], VOID)?)?;
    members.push(member(alloc, 1, "M", MemberKind::Method, false, &[], VOID)?)?;
    members.push(member(alloc, 2, "M", MemberKind::Method, false, &[], VOID)?)?;
    members.push(member(alloc, 1, "f", field(), true, &[], INT)?)?;
    members.push(member(alloc, 2, "S", MemberKind::Getter, true, &[], INT)?)?;
    members.push(member(alloc, 1, "M", MemberKind::Setter, false, &[], VOID)?)?;
    members.push(member(alloc, 9, "M", MemberKind::Method, false, &[], VOID)?)?;
    Ok(members)
}

fn found_for(
    alloc: Global,
    types: &[TypeRow],
    members: &[MemberRow],
    sought: &[Sought<'_>],
) -> Result<Vec<Option<MemberId>>, Fail> {
    if types.len() > 99 || members.len() > 99 {
        return Ok(Vec::new(alloc));
    }
    let orders = orders_of(alloc, types)?;
    Ok(members_meant(alloc, types, members, orders.bases.items(), sought)?)
}

#[test]
fn nearest_members_are_meant(rt: HostRuntime) -> Result<(), Fail> {
    let alloc = rt.alloc();
    let rows: [(u32, &[u8], Shape, &[Ty], Ty, Option<u32>); 13] = [
        (0, b"M", Shape::Instance, &[INT], VOID, Some(0)),
        (0, b"M", Shape::Instance, &[], VOID, Some(1)),
        (1, b"M", Shape::Instance, &[], VOID, Some(1)),
        (2, b"M", Shape::Instance, &[], VOID, Some(2)),
        (3, b"M", Shape::Instance, &[], VOID, Some(2)),
        (0, b"f", Shape::Field, &[], INT, Some(3)),
        (2, b"f", Shape::Field, &[], INT, None),
        (3, b"S", Shape::Static, &[], INT, Some(4)),
        (3, b"S", Shape::Instance, &[], INT, None),
        (0, b"M", Shape::Instance, &[INT], INT, None),
        (4, b"M", Shape::Instance, &[], VOID, None),
        (9, b"M", Shape::Instance, &[], VOID, None),
        (1, b"N", Shape::Instance, &[], VOID, None),
    ];
    let mut sought = Vec::new(alloc);
    for (parent, name, shape, params, gives, _) in rows {
        sought.push(Sought {
            parent: TypeId(parent),
            name,
            shape,
            params,
            result: gives,
        })?;
    }
    let types = types_of(alloc)?;
    let members = members_of(alloc)?;
    let found = found_for(
        alloc,
        types.as_slice(),
        members.as_slice(),
        sought.as_slice(),
    )?;
    assert_eq!(rt; found.len(), rows.len());
    for (meant, row) in found.iter().zip(rows.iter()) {
        assert_eq!(rt; meant.map(|m| m.0), row.5);
    }
    Ok(())
}
