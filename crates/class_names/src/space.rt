// The namespaces of the references.

ghost use Rattle.std.specs.Prelude.{IfOk};
ghost use Rattle.class_names.specs.Spaces.{HasPrefixes, HasAdded, HasSpaces};

use class_rows::TypeRow;
use dc_base::NoMemory;
use indexmap::IndexSet;
use std::alloc::Global;

// A namespace and those round it: what stands before a dot in its name, and the whole of it.
fn prefixes<'a>(alloc: Global, space: &'a [u8]) -> Result<Vec<&'a [u8]>, NoMemory>
    ensures { IfOk result (λ found. HasPrefixes space.now found.items) }
{
    let mut found = Vec::new(alloc);
    if space.is_empty() {
        return Ok(found);
    }
    for index in 1..space.len() {
        if space[index] == b'.' {
            found.push(&space[..index])?;
        }
    }
    found.push(space)?;
    Ok(found)
}

fn with_all<'a>(
    mut spaces: IndexSet<&'a [u8]>,
    found: &[&'a [u8]],
) -> Result<IndexSet<&'a [u8]>, NoMemory>
    ensures { IfOk result (λ new. HasAdded spaces.entry.keys found.now new.keys) }
{
    for prefix in found {
        spaces.insert_full(*prefix)?;
    }
    Ok(spaces)
}

/// The namespaces of the types of the references that are nested in none, and those round them.
pub fn namespaces<'a>(alloc: Global, types: &'a [TypeRow]) -> Result<IndexSet<&'a [u8]>, NoMemory>
    ensures { IfOk result (λ spaces. HasSpaces types.now spaces.keys) }
{
    let mut spaces = IndexSet::new(alloc);
    for row in types {
        if !row.own && row.outer.is_none() {
            let found = prefixes(alloc, row.space.as_str().as_bytes())?;
            spaces = with_all(spaces, found.as_slice())?;
        }
    }
    Ok(spaces)
}
