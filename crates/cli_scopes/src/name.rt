// Types by their names.

ghost use Rattle.std.specs.Prelude.{◌≡◌, ◌<◌, ◌^◌, IfOk, Some, length, slice_get};
ghost use Rattle.cli_scopes.specs.Names.{first_of};
ghost use Rattle.cli_scopes.specs.Numbered.{AreNumbered};

use dc_base::{NoMemory, TypeId};
use indexmap::IndexMap;
use std::alloc::Global;
use std::marker::Model;

/// Where a type stands: at the top of the references, at the top of the assembly itself, or in a type.
#[derive(Clone, Copy, Debug, PartialEq, Eq, Hash)]
pub enum Within {
    References,
    Own,
    InType(TypeId),
}

/// What a type is known by: where it stands, its namespace and its name.
#[derive(Clone, Copy, Debug, PartialEq, Eq, Hash)]
pub struct TypeName<'a> {
    pub within: Within,
    pub space: &'a [u8],
    pub name: &'a [u8],
}

/// Types, with an index of their names.
#[derive(Drop)]
pub(crate) struct Index<'a> {
    names: &'a [TypeName<'a>],
    numbers: IndexMap<TypeName<'a>, u32>,
}

impl<'a> Model for Index<'a> {
    ghost use Rattle.std.specs.Prelude.{List};
    ghost use Rattle.cli_scopes.specs.declared.name.TypeName.{TypeName};
    ghost use Rattle.cli_scopes.specs.Numbered.{AreNumbered};

    ghost Value = { List TypeName };

    ghost view = { λ i. i.names.now };

    ghost invariant = { λ i. AreNumbered 0 i.names.now i.numbers.entries };
}

impl<'a> Index<'a> {
    pub(crate) fn of(alloc: Global, names: &'a [TypeName<'a>]) -> Result<Index<'a>, NoMemory>
        requires { length names.now < 2 ^ 32 }
        ensures { IfOk result (λ index. index ≡ names.now) }
    {
        let numbers = numbers(alloc, names)?;
        Ok(Index { names, numbers })
    }

    // The first type with this name. It takes the time of one look-up in a table of hashes.
    pub(crate) fn first(&self, name: TypeName<'_>) -> Option<u32>
        ensures { result ≡ first_of self.now name.entry }
    {
        match self.numbers.get(&name) {
            Some(number) => Some(*number),
            None => None,
        }
    }
}

// For each name its first type.
fn numbers<'a>(
    alloc: Global,
    names: &[TypeName<'a>],
) -> Result<IndexMap<TypeName<'a>, u32>, NoMemory>
    requires { length names.now < 2 ^ 32 }
    ensures { IfOk result (λ numbers. AreNumbered 0 names.now numbers.entries) }
{
    let mut numbers = IndexMap::new(alloc);
    for index in (0..names.len()).rev() {
        let name = name_at(names, index);
        numbers.insert(name, index as u32)?;
    }
    Ok(numbers)
}

fn name_at<'a>(names: &[TypeName<'a>], index: usize) -> TypeName<'a>
    requires { index < length names.now }
    ensures { slice_get names.now index ≡ Some result }
{
    names[index]
}
