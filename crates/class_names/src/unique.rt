// Whether the full names of the references are unique.

ghost use Rattle.std.specs.Prelude.{◌≡◌, ◌^◌, ◌<◌, ℕ, length, IfOk, IfErr, IsTrue};
ghost use Rattle.dc_causes.specs.Causes.{Least};
ghost use Rattle.dc_causes.specs.Answer.{OnFault};
ghost use Rattle.class_chains.specs.Ends.{IsAboveFirst};
ghost use Rattle.class_keys.specs.Least.{IsLeastOf};
ghost use Rattle.class_rows.specs.declared.fault.TableFault.TheVariants.{Twice};
ghost use Rattle.class_rows.specs.Types.{IsOuter};
ghost use Rattle.class_rows.specs.Names.{IsTwice, NamesAreUnique};
ghost use Rattle.class_names.specs.Outers.{OutersAreThere};
ghost use Rattle.class_names.specs.Spaces.{HasSpaces, HasNameOfSpace};
ghost use Rattle.class_names.specs.Inner.{AreNames, HasNameOfAnother};
ghost use Rattle.class_names.specs.Shown.{IsShown, AreShown};

use crate::full::full_name;
use crate::space::namespaces;
use class_keys::{least_shared_key, lesser};
use class_rows::{TableFault, TypeRow};
use dc_base::{NoMemory, Or, Text, TypeId};
use indexmap::IndexSet;
use std::alloc::Global;

/// What no two types may share: an own type shares with none, one of the references its full name.
#[derive(Clone, Copy, Debug, PartialEq, Eq, Hash)]
pub enum Shown<'a> {
    Own(u32),
    Reference(&'a str),
}

// The full names of the types of the references; an own type has the empty text here.
fn names_of(alloc: Global, types: &[TypeRow], order: &[u32]) -> Result<Vec<Text>, NoMemory>
    requires long { length types.now < 2 ^ 32 }
    requires order { IsAboveFirst (IsOuter types.now) (length types.now) order.now }
    requires outers { OutersAreThere types.now }
    ensures { IfOk result (λ names. AreNames types.now (length types.now) names.items) }
{
    let mut names = Vec::new(alloc);
    for index in 0..types.len() {
        let name = if types[index].own {
            Text::of(alloc, "")?
        } else {
            full_name(alloc, types, order, TypeId(index as u32))?
        };
        names.push(name)?;
    }
    Ok(names)
}

fn shown_by<'a>(types: &[TypeRow], names: &'a [Text], index: usize) -> Shown<'a>
    requires long { length types.now < 2 ^ 32 }
    requires names { length names.now ≡ length types.now }
    requires within { index < length types.now }
    ensures { IsShown types.now names.now index result }
{
    if types[index].own {
        Shown::Own(index as u32)
    } else {
        Shown::Reference(names[index].as_str())
    }
}

fn all_shown<'a>(
    alloc: Global,
    types: &[TypeRow],
    names: &'a [Text],
) -> Result<Vec<Shown<'a>>, NoMemory>
    requires long { length types.now < 2 ^ 32 }
    requires names { length names.now ≡ length types.now }
    ensures { IfOk result (λ keys. AreShown types.now names.now (length types.now) keys.items) }
{
    let mut keys = Vec::new(alloc);
    for index in 0..types.len() {
        keys.push(shown_by(types, names, index))?;
    }
    Ok(keys)
}

fn least_named_alike(
    alloc: Global,
    types: &[TypeRow],
    names: &[Text],
) -> Result<Option<usize>, NoMemory>
    requires long { length types.now < 2 ^ 32 }
    requires names { AreNames types.now (length types.now) names.now }
    ensures { IfOk result (IsLeastOf (HasNameOfAnother types.now)) }
{
    let keys = all_shown(alloc, types, names)?;
    least_shared_key(alloc, keys.as_slice())
}

fn is_named_as_space(
    types: &[TypeRow],
    names: &[Text],
    spaces: &IndexSet<&[u8]>,
    index: usize,
) -> bool
    requires names { AreNames types.now (length types.now) names.now }
    requires spaces { HasSpaces types.now spaces.now.keys }
    requires within { index < length types.now }
    ensures yes { IsTrue result → HasNameOfSpace types.now index }
    ensures no { HasNameOfSpace types.now index → IsTrue result }
{
    !types[index].own && spaces.contains(names[index].as_str().as_bytes())
}

fn least_named_as_space(
    types: &[TypeRow],
    names: &[Text],
    spaces: &IndexSet<&[u8]>,
) -> Option<usize>
    requires names { AreNames types.now (length types.now) names.now }
    requires spaces { HasSpaces types.now spaces.now.keys }
    ensures { IsLeastOf (HasNameOfSpace types.now) result }
{
    for index in 0..types.len() {
        if is_named_as_space(types, names, spaces, index) {
            return Some(index);
        }
    }
    None
}

fn least_twice(alloc: Global, types: &[TypeRow], order: &[u32]) -> Result<Option<usize>, NoMemory>
    requires long { length types.now < 2 ^ 32 }
    requires order { IsAboveFirst (IsOuter types.now) (length types.now) order.now }
    requires outers { OutersAreThere types.now }
    ensures { IfOk result (IsLeastOf (IsTwice types.now)) }
{
    let names = names_of(alloc, types, order)?;
    let spaces = namespaces(alloc, types)?;
    let alike = least_named_alike(alloc, types, names.as_slice())?;
    let as_space = least_named_as_space(types, names.as_slice(), &spaces);
    Ok(lesser(alike, as_space))
}

/// Whether no two types of the references share a full name, and none has that of one of their namespaces; else the
/// fault names the least type that shares its name. It takes the time of the full names' lengths together.
pub fn unique_names(alloc: Global, types: &[TypeRow], order: &[u32]) -> Result<(), Or<TableFault>>
    requires long { length types.now < 2 ^ 32 }
    requires order { IsAboveFirst (IsOuter types.now) (length types.now) order.now }
    requires outers { OutersAreThere types.now }
    ensures unique { IfOk result (λ _. NamesAreUnique types.now) }
    ensures twice { IfErr result (OnFault (Least (IsTwice types.now) (λ t. Twice (record { 0 = t })))) }
{
    match least_twice(alloc, types, order)? {
        None => Ok(()),
        Some(t) => Err(Or::Fault(TableFault::Twice(TypeId(t as u32)))),
    }
}
