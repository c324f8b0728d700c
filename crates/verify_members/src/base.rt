// Members that are named by `base`, and lists of members.

ghost use Rattle.std.specs.Prelude.{◌≡◌, ◌≢◌, Contains};
ghost use Rattle.std.specs.Bool.{OnTrue, OnFalse};
ghost use Rattle.std.specs.Option.{option_copied};
ghost use Rattle.class_rows.specs.declared.row.Sort.TheVariants.{Indexer};
ghost use Rattle.class_rows.specs.Names.{IsReference};
ghost use Rattle.class_rows.specs.Members.{sort_of};
ghost use Rattle.class_rows.specs.declared.row.MemberRow.{MemberRow};
ghost use Rattle.verify_rules.specs.Look.{types_of, method_row};
ghost use Rattle.verify_rules.specs.Members.{IfSo, IsByBase};

use class_rows::{MemberRow, Sort};
use dc_base::{MemberId, TypeId};
use verify_rules::{Setting, member_at};

/// Whether a call on `this` names a virtual member as C# does by `base`.
pub fn is_by_base(setting: &Setting<'_>, member: MemberId, row: &MemberRow) -> bool
    ensures yes { OnTrue result (IsByBase setting.now member row.now) }
    ensures no { OnFalse result (IsByBase setting.now member row.now → ⊥) }
{
    is_above(setting, row) && is_no_indexer(setting, row) && lists(setting.by_base, member)
}

// Whether the class of the method doesn't declare the member itself.
fn is_above(setting: &Setting<'_>, row: &MemberRow) -> bool
    ensures yes { OnTrue result (IfSo (λ (method : MemberRow). row.now.owner ≢ method.owner) (method_row setting.now)) }
    ensures no { OnFalse result (IfSo (λ (method : MemberRow). row.now.owner ≢ method.owner) (method_row setting.now) → ⊥) }
{
    match member_at(setting.table, setting.method) {
        Some(method) => row.owner != method.owner,
        None => true,
    }
}

fn is_no_indexer(setting: &Setting<'_>, row: &MemberRow) -> bool
    ensures yes { OnTrue result (sort_of row.now.kind ≡ Indexer → IsReference (types_of setting.now) row.now.owner.0 → ⊥) }
    ensures no { OnFalse result ((sort_of row.now.kind ≡ Indexer → IsReference (types_of setting.now) row.now.owner.0 → ⊥) → ⊥) }
{
    row.kind.sort() != Sort::Indexer || !is_of_references(setting, row.owner)
}

/// Whether a type stands in one of the references.
pub fn is_of_references(setting: &Setting<'_>, ty: TypeId) -> bool
    ensures yes { OnTrue result (IsReference (types_of setting.now) ty.0) }
    ensures no { OnFalse result (IsReference (types_of setting.now) ty.0 → ⊥) }
{
    if ty.0 < setting.table.types() {
        !setting.table.type_row(ty).own
    } else {
        false
    }
}

/// Whether a member stands in a list.
pub fn lists(members: &[MemberId], member: MemberId) -> bool
    ensures yes { OnTrue result (Contains members.now member) }
    ensures no { OnFalse result (Contains members.now member → ⊥) }
{
    for other in members {
        if is_same(*other, member) {
            return true;
        }
    }
    false
}

fn is_same(member: MemberId, other: MemberId) -> bool
    ensures yes { OnTrue result (member ≡ other) }
    ensures no { OnFalse result (member ≡ other → ⊥) }
{
    member == other
}
