// The types of the namespace System.

ghost use Rattle.std.specs.Prelude.{◌≡◌, ◌<◌, ◌^◌, length, IsTrue, IfOk};
ghost use Rattle.class_bases.specs.System.{IsOfSystem, HasSystem};

use class_rows::TypeRow;
use dc_base::NoMemory;
use indexmap::IndexMap;
use std::alloc::Global;

fn is_system(row: &TypeRow) -> bool
    ensures yes { IsTrue result → IsOfSystem row.now }
    ensures no { IsOfSystem row.now → IsTrue result }
{
    !row.own && row.outer.is_none() && row.space.as_str() == "System"
}

/// The numbers of the types of the references that are nested in none and declared in System, by their names.
pub fn system_types<'a>(
    alloc: Global,
    types: &'a [TypeRow],
) -> Result<IndexMap<&'a [u8], u32>, NoMemory>
    requires { length types.now < 2 ^ 32 }
    ensures { IfOk result (λ found. HasSystem types.now found.entries) }
{
    let mut found = IndexMap::new(alloc);
    for index in 0..types.len() {
        if is_system(&types[index]) {
            found.insert(types[index].name.as_str().as_bytes(), index as u32)?;
        }
    }
    Ok(found)
}
