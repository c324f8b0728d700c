// The names of nested types.

ghost use Rattle.std.specs.Prelude.{◌≡◌, ◌<◌, length, IsTrue, IfOk};
ghost use Rattle.class_members.specs.Nested.{HasNested, IsNamedAsNested};

use crate::reference::is_reference;
use class_index::known_name;
use class_rows::{MemberRow, TypeRow};
use dc_base::NoMemory;
use indexmap::IndexSet;
use std::alloc::Global;

/// The name of a member or a nested type, and the number of the type that it stands in.
#[derive(Clone, Copy, Debug, PartialEq, Eq, Hash)]
pub struct NameIn<'a> {
    pub outer: u32,
    pub name: &'a [u8],
}

/// The names of all nested types.
pub fn nested_names<'a>(
    alloc: Global,
    types: &'a [TypeRow],
) -> Result<IndexSet<NameIn<'a>>, NoMemory>
    ensures { IfOk result (λ names. HasNested types.now names.keys) }
{
    let mut names = IndexSet::new(alloc);
    for row in types {
        if let Some(outer) = row.outer {
            let name = row.name.as_str().as_bytes();
            names.insert_full(NameIn {
                outer: outer.0,
                name,
            })?;
        }
    }
    Ok(names)
}

/// Whether a member of a type of the references has the name of a type that is nested in that one.
pub fn is_named_as_nested(types: &[TypeRow], names: &IndexSet<NameIn<'_>>, row: &MemberRow) -> bool
    requires { HasNested types.now names.now.keys }
    ensures yes { IsTrue result → IsNamedAsNested types.now row.now }
    ensures no { IsNamedAsNested types.now row.now → IsTrue result }
{
    if !is_reference(types, row.owner) {
        return false;
    }
    names.contains(&NameIn {
        outer: row.owner.0,
        name: known_name(row),
    })
}
