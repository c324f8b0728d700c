// Types that have no instance fields.

ghost use Rattle.std.specs.Prelude.{◌≡◌, ◌<◌, ◌^◌, length, set, true, false, IsTrue, IfOk};
ghost use Rattle.class_chains.specs.Ends.{IsAboveFirst};
ghost use Rattle.class_rows.specs.Types.{IsAbove};
ghost use Rattle.class_rows.specs.Names.{NamesAreUnique};
ghost use Rattle.class_rows.specs.Core.{IsSystem};
ghost use Rattle.class_bases.specs.System.{HasSystem};
ghost use Rattle.class_rows.specs.Members.{sort_of};
ghost use Rattle.class_rows.specs.Unique.{IsWithoutFields};
ghost use Rattle.class_members.specs.Fieldless.{Marks, AreFieldless, IsMisplacedRow};

use class_bases::system_types;
use class_parts::base_of;
use class_rows::{Kind, MemberRow, Sort, TypeRow};
use dc_base::{NoMemory, TypeId};
use indexmap::IndexMap;
use std::alloc::Global;

// Marks a type, if it is there.
fn with_mark(flags: Vec<bool>, t: TypeId) -> Vec<bool>
    ensures { result.items ≡ set flags.items t.0 true }
{
    let mut flags = flags;
    if (t.0 as usize) < flags.len() {
        flags[t.0 as usize] = true;
    }
    flags
}

// Marks a type and those in its base chain.
fn mark_chain(types: &[TypeRow], order: &[u32], t: TypeId, flags: Vec<bool>) -> Vec<bool>
    requires order { IsAboveFirst (IsAbove types.now) (length types.now) order.now }
    ensures { Marks types.now (λ s. s ≡ t.0) flags.items result.items }
{
    let mut flags = flags;
    let mut next = Some(t);
    while let Some(at) = next {
        flags = with_mark(flags, at);
        next = base_of(types, at);
    }
    flags
}

// The same of the type of System with this name.
fn mark_root(
    types: &[TypeRow],
    order: &[u32],
    systems: &IndexMap<&[u8], u32>,
    name: &[u8],
    flags: Vec<bool>,
) -> Vec<bool>
    requires order { IsAboveFirst (IsAbove types.now) (length types.now) order.now }
    requires unique { NamesAreUnique types.now }
    requires systems { HasSystem types.now systems.now.entries }
    ensures { Marks types.now (IsSystem types.now name.now) flags.items result.items }
{
    match systems.get(name) {
        Some(t) => mark_chain(types, order, TypeId(*t), flags),
        None => flags,
    }
}

/// Flags of System.Object, ValueType, Enum, Array and String, and of the types in their base chains.
pub fn fieldless_types(
    alloc: Global,
    types: &[TypeRow],
    order: &[u32],
) -> Result<Vec<bool>, NoMemory>
    requires long { length types.now < 2 ^ 32 }
    requires order { IsAboveFirst (IsAbove types.now) (length types.now) order.now }
    requires unique { NamesAreUnique types.now }
    ensures { IfOk result (λ flags. AreFieldless types.now flags.items) }
{
    let systems = system_types(alloc, types)?;
    let none = vec![in alloc; false; types.len()]?;
    let object = mark_root(types, order, &systems, b"Object", none);
    let value = mark_root(types, order, &systems, b"ValueType", object);
    let enums = mark_root(types, order, &systems, b"Enum", value);
    let array = mark_root(types, order, &systems, b"Array", enums);
    Ok(mark_root(types, order, &systems, b"String", array))
}

fn is_without_fields(types: &[TypeRow], flags: &[bool], t: TypeId) -> bool
    requires flags { AreFieldless types.now flags.now }
    requires within { t.0 < length types.now }
    ensures yes { IsTrue result → IsWithoutFields types.now t.0 }
    ensures no { IsWithoutFields types.now t.0 → IsTrue result }
{
    if flags[t.0 as usize] {
        return true;
    }
    matches!(types[t.0 as usize].kind, Kind::Interface)
}

fn is_instance_field(row: &MemberRow) -> bool
    ensures yes { IsTrue result → (sort_of row.now.kind ≡ Sort.Field) × (row.now.is_static ≡ false) }
    ensures no { (sort_of row.now.kind ≡ Sort.Field) × (row.now.is_static ≡ false) → IsTrue result }
{
    row.kind.sort() == Sort::Field && !row.is_static
}

/// Whether a member is an instance field of a type that has none.
pub fn is_misplaced(types: &[TypeRow], flags: &[bool], row: &MemberRow) -> bool
    requires flags { AreFieldless types.now flags.now }
    requires within { row.now.owner.0 < length types.now }
    ensures yes { IsTrue result → IsMisplacedRow types.now row.now }
    ensures no { IsMisplacedRow types.now row.now → IsTrue result }
{
    is_instance_field(row) && is_without_fields(types, flags, row.owner)
}
