// Small tables, worked by hand.

ghost use Rattle.std.specs.Prelude.{IfOk};
ghost use Rattle.class_parts.specs.Orders.{AreOrders};

use crate::{Orders, accessible, orders_of};
use class_rows::{Access, Kind, MemberKind, MemberRow, TypeRow, Virt};
use dc_base::{Core, MemberId, NoMemory, Or, Seq, Text, Ty, TypeId};
use std::alloc::Global;
use std::test::Fail;

fn type_row(alloc: Global, base: Option<u32>) -> Result<TypeRow, NoMemory> {
    Ok(TypeRow {
        name: Text::of(alloc, "T")?,
        space: Text::of(alloc, "")?,
        outer: None,
        kind: Kind::Class,
        access: Access::Public,
        base: base.map(TypeId),
        bases: Seq::of(Vec::new(alloc)),
        is_abstract: false,
        is_sealed: false,
        own: true,
    })
}

fn member_row(alloc: Global, access: Access) -> Result<MemberRow, NoMemory> {
    Ok(MemberRow {
        owner: TypeId(0),
        name: Text::of(alloc, "M")?,
        kind: MemberKind::Method,
        access,
        is_static: false,
        virt: Virt::Plain,
        params: Seq::of(Vec::new(alloc)),
        result: Ty {
            core: Core::Void,
            arrays: 0,
            lent: false,
        },
    })
}

fn types_of(alloc: Global, bases: &[Option<u32>]) -> Result<Vec<TypeRow>, NoMemory> {
    let mut types = Vec::new(alloc);
    for base in bases {
        types.push(type_row(alloc, *base)?)?;
    }
    Ok(types)
}

fn orders(alloc: Global, types: &[TypeRow]) -> Result<Orders, Or<TypeId>>
    ensures { IfOk result (AreOrders types.now) }
{
    if types.len() < 100 {
        orders_of(alloc, types)
    } else {
        Err(Or::NoMemory)
    }
}

fn order(alloc: Global, bases: &[Option<u32>]) -> Result<Seq<u32>, Or<TypeId>> {
    let types = types_of(alloc, bases)?;
    let found = orders(alloc, types.as_slice())?;
    Ok(found.bases)
}

// Whether a member of the type 0 is open from a type.
fn is_open(
    alloc: Global,
    bases: &[Option<u32>],
    access: Access,
    from: u32,
) -> Result<bool, Or<TypeId>> {
    let types = types_of(alloc, bases)?;
    let found = orders(alloc, types.as_slice())?;
    let members = [member_row(alloc, access)?];
    Ok(accessible(
        types.as_slice(),
        &members,
        &found,
        TypeId(from),
        MemberId(0),
        None,
    ))
}

#[test]
fn tells_the_first_type_whose_chain_goes_on(rt: HostRuntime) -> Result<(), Fail> {
    let alloc = rt.alloc();
    let ends = order(alloc, &[None, Some(2), Some(0)]);
    assert_eq!(rt;
        format!(in alloc; "{ends:?}")?.as_str(),
        "Ok(Seq { items: [0, 2, 1] })"
    );
    let cycle = order(alloc, &[None, Some(2), Some(1)]);
    assert_eq!(rt;
        format!(in alloc; "{cycle:?}")?.as_str(),
        "Err(Fault(TypeId(1)))"
    );
    Ok(())
}

#[test]
fn tells_from_where_a_member_may_be_named(rt: HostRuntime) -> Result<(), Fail> {
    let alloc = rt.alloc();
    let bases = [None, Some(0), None];
    for (access, from, want) in [
        (Access::Private, 1, "Ok(false)"),
        (Access::Protected, 1, "Ok(true)"),
        (Access::Protected, 2, "Ok(false)"),
        (Access::Internal, 2, "Ok(true)"),
    ] {
        let answer = is_open(alloc, &bases, access, from);
        assert_eq!(rt; format!(in alloc; "{answer:?}")?.as_str(), want);
    }
    Ok(())
}
