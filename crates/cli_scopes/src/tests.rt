// Rows of TypeRef made by hand, and the types that they mean.

use crate::{Scope, TypeName, TypeRef, Within, types_meant};
use dc_base::TypeId;
use std::test::Fail;

fn at(within: Within, name: &[u8]) -> TypeName<'_> {
    TypeName {
        within,
        space: b"N",
        name,
    }
}

fn row(scope: Scope, name: &[u8]) -> TypeRef<'_> {
    TypeRef {
        scope,
        space: b"N",
        name,
    }
}

#[test]
fn rows_mean_types(rt: HostRuntime) -> Result<(), Fail> {
    let names = [
        at(Within::References, b"A"),
        at(Within::References, b"B"),
        at(Within::InType(TypeId(0)), b"C"),
        at(Within::InType(TypeId(2)), b"D"),
        at(Within::Own, b"A"),
        at(Within::Own, b"A"),
        at(Within::InType(TypeId(4)), b"C"),
    ];
    let rows = [
        (row(Scope::References, b"A"), Some(TypeId(0))),
        (row(Scope::References, b"C"), None),
        (row(Scope::Own, b"A"), Some(TypeId(4))),
        (row(Scope::Own, b"B"), None),
        (row(Scope::InRef(5), b"D"), Some(TypeId(3))),
        (row(Scope::InRef(0), b"C"), Some(TypeId(2))),
        (row(Scope::InRef(2), b"C"), Some(TypeId(6))),
        // In itself, in each other, in one of these, in none that is there, and nowhere.
        (row(Scope::InRef(7), b"A"), None),
        (row(Scope::InRef(9), b"A"), None),
        (row(Scope::InRef(8), b"A"), None),
        (row(Scope::InRef(8), b"C"), None),
        (row(Scope::InRef(99), b"A"), None),
        (row(Scope::Nowhere, b"A"), None),
        (row(Scope::InRef(1), b"D"), None),
    ];
    let mut refs = Vec::new(rt.alloc());
    for (row, _) in rows {
        refs.push(row)?;
    }
    let types = types_meant(rt.alloc(), &names, refs.as_slice())?;
    assert_eq!(rt; types.len(), rows.len());
    for k in 0..rows.len() {
        assert_eq!(rt; types[k], rows[k].1);
    }
    Ok(())
}
