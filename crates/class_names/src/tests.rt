// A small table, worked by hand.

ghost use Rattle.std.specs.Prelude.{◌≡◌, ◌<◌, ℕ, length, IsTrue, Some};
ghost use Rattle.class_names.specs.Outers.{OutersAreThere};

use crate::unique_names;
use class_parts::orders_of;
use class_rows::{Access, Kind, TableFault, TypeRow};
use dc_base::{NoMemory, Or, Seq, Text, TypeId};
use std::alloc::Global;
use std::test::Fail;

// A class of the references: its namespace, its outer type and its name.
fn class(alloc: Global, space: &str, outer: Option<u32>, name: &str) -> Result<TypeRow, NoMemory> {
    Ok(TypeRow {
        name: Text::of(alloc, name)?,
        space: Text::of(alloc, space)?,
        outer: outer.map(TypeId),
        kind: Kind::Class,
        access: Access::Public,
        base: None,
        bases: Seq::of(Vec::new(alloc)),
        is_abstract: false,
        is_sealed: false,
        own: false,
    })
}

fn outer_is_there(types: &[TypeRow], row: &TypeRow) -> bool
    ensures { IsTrue result → (o : ℕ) → row.now.outer ≡ Some (record { 0 = o }) → o < length types.now }
{
    match row.outer {
        Some(outer) => (outer.0 as usize) < types.len(),
        None => true,
    }
}

fn outers_are_there(types: &[TypeRow]) -> bool
    ensures { IsTrue result → OutersAreThere types.now }
{
    for row in types {
        if !outer_is_there(types, row) {
            return false;
        }
    }
    true
}

fn unique_in(alloc: Global, types: &[TypeRow]) -> Result<(), Or<TableFault>> {
    // The table has no longer list, and none that names a type past it.
    if types.len() > 3 || !outers_are_there(types) {
        return Err(Or::NoMemory);
    }
    match orders_of(alloc, types) {
        Ok(orders) => unique_names(alloc, types, orders.outers.items()),
        Err(_) => Err(Or::NoMemory),
    }
}

fn unique(alloc: Global, table: &[(&str, Option<u32>, &str)]) -> Result<(), Or<TableFault>> {
    let mut types = Vec::new(alloc);
    for (space, outer, name) in table {
        types.push(class(alloc, space, *outer, name)?)?;
    }
    unique_in(alloc, types.as_slice())
}

#[test]
fn finds_the_first_type_whose_name_is_taken(rt: HostRuntime) -> Result<(), Fail> {
    let alloc = rt.alloc();
    let table: [(&[(&str, Option<u32>, &str)], &str); 3] = [
        (
            &[("A", None, "T"), ("", Some(0), "U"), ("A", None, "U")],
            "Ok(())",
        ),
        (
            &[("A.B", None, "T"), ("A", None, "T"), ("A", None, "T")],
            "Err(Fault(Twice(TypeId(1))))",
        ),
        (
            &[("", None, "A"), ("", Some(0), "B"), ("A.B", None, "T")],
            "Err(Fault(Twice(TypeId(0))))",
        ),
    ];
    for (types, want) in table {
        let answer = unique(alloc, types);
        assert_eq!(rt; format!(in alloc; "{answer:?}")?.as_str(), want);
    }
    Ok(())
}
