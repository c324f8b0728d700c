// Whether a table may be built of some rows.

ghost use Rattle.std.specs.Prelude.{◌≡◌, ◌<◌, ◌^◌, ℕ, length, Some, slice_get, IsTrue};
ghost use Rattle.class_rows.specs.declared.row.TypeRow.{TypeRow as Row};
ghost use Rattle.class_rows.specs.declared.row.MemberRow.{MemberRow as Member};
ghost use Rattle.class_table.specs.Buildable.{IsTypeRow, IsBuildable};

use class_rows::{Kind, MemberRow, TypeRow};
use dc_base::{MemberId, TypeId};

fn is_short(count: usize) -> bool
    ensures yes { IsTrue result → count < 2 ^ 32 }
    ensures no { count < 2 ^ 32 → IsTrue result }
{
    count < 0x1_0000_0000
}

fn is_within(outer: Option<TypeId>, count: usize) -> bool
    ensures yes { IsTrue result → (o : TypeId) → outer ≡ Some o → o.0 < count }
    ensures no { ((o : TypeId) → outer ≡ Some o → o.0 < count) → IsTrue result }
{
    match outer {
        Some(o) => (o.0 as usize) < count,
        None => true,
    }
}

fn is_type_row(row: &TypeRow, count: usize) -> bool
    ensures yes { IsTrue result → IsTypeRow count row.now }
    ensures no { IsTypeRow count row.now → IsTrue result }
{
    is_within(row.outer, count) && !matches!(row.kind, Kind::Struct)
}

fn are_type_rows(types: &[TypeRow]) -> bool
    ensures yes { IsTrue result → (t : ℕ) (row : Row) → slice_get types.now t ≡ Some row → IsTypeRow (length types.now) row }
    ensures no { ((t : ℕ) (row : Row) → slice_get types.now t ≡ Some row → IsTypeRow (length types.now) row) → IsTrue result }
{
    for row in types {
        if !is_type_row(row, types.len()) {
            return false;
        }
    }
    true
}

fn are_owned(members: &[MemberRow], count: usize) -> bool
    ensures yes { IsTrue result → (m : ℕ) (row : Member) → slice_get members.now m ≡ Some row → row.owner.0 < count }
    ensures no { ((m : ℕ) (row : Member) → slice_get members.now m ≡ Some row → row.owner.0 < count) → IsTrue result }
{
    for row in members {
        if (row.owner.0 as usize) >= count {
            return false;
        }
    }
    true
}

fn are_short(types: &[TypeRow], members: &[MemberRow], explicit: &[(MemberId, MemberId)]) -> bool
    ensures yes { IsTrue result → (length types.now < 2 ^ 32) × (length members.now < 2 ^ 32) × (length explicit.now < 2 ^ 32) }
    ensures no { (length types.now < 2 ^ 32) × (length members.now < 2 ^ 32) × (length explicit.now < 2 ^ 32) → IsTrue result }
{
    is_short(types.len()) && is_short(members.len()) && is_short(explicit.len())
}

/// Whether a table may be built of these rows: each list is shorter than 2^32, the types round types and the owners of
/// members are in the list, and no type is a struct.
pub fn is_buildable(
    types: &[TypeRow],
    members: &[MemberRow],
    explicit: &[(MemberId, MemberId)],
) -> bool
    ensures yes { IsTrue result → IsBuildable types.now members.now explicit.now }
    ensures no { IsBuildable types.now members.now explicit.now → IsTrue result }
{
    are_short(types, members, explicit) && are_type_rows(types) && are_owned(members, types.len())
}
