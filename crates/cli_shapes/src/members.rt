// Which own members fail a condition.

ghost use Rattle.std.specs.Prelude.{◌≡◌, ◌<◌, [], length, true};
ghost use Rattle.std.specs.Bool.{OnTrue, OnFalse};
ghost use Rattle.class_rows.specs.Types.{HasType};
ghost use Rattle.cli_shapes.specs.Own.{IsSound, IsTold, HasOwnMember};
ghost use Rattle.cli_shapes.specs.Members.{IsLent, IsFullInInterface, IsOfObject, HasSlotOfObject, IsNamedFinalize, IsFinalizer, HasDeep, IsTooDeep};

use crate::own::Own;
use crate::types::is_system;
use class_rows::{Kind, Param};
use class_table::ClassTable;
use dc_base::{MemberId, TypeId};

/// Whether the type or the result of own member k is a place by reference.
pub(crate) fn is_lent(own: &Own<'_>, k: usize) -> bool
    requires sound { IsSound own.now }
    requires within { k < length own.now.told.now }
    ensures yes { OnTrue result (IsLent own.now k) }
    ensures no { OnFalse result (IsLent own.now k → ⊥) }
{
    own.member_row(k).result.lent
}

/// Whether own member k is a member of an interface that is static or has a body.
pub(crate) fn is_full_in_interface(own: &Own<'_>, k: usize) -> bool
    requires sound { IsSound own.now }
    requires within { k < length own.now.told.now }
    ensures yes { OnTrue result (IsFullInInterface own.now k) }
    ensures no { OnFalse result (IsFullInInterface own.now k → ⊥) }
{
    let row = own.member_row(k);
    is_interface(own.table, row.owner) && (row.is_static || has_body(own, k))
}

fn has_body(own: &Own<'_>, k: usize) -> bool
    requires { k < length own.now.told.now }
    ensures yes { OnTrue result (IsTold own.now k (λ told. told.has_body ≡ true)) }
    ensures no { OnFalse result (IsTold own.now k (λ told. told.has_body ≡ true) → ⊥) }
{
    own.told[k].has_body
}

fn is_interface(table: &ClassTable, t: TypeId) -> bool
    ensures yes { OnTrue result (HasType table.now.types t.0 (λ owner. owner.kind ≡ Kind.Interface)) }
    ensures no { OnFalse result (HasType table.now.types t.0 (λ owner. owner.kind ≡ Kind.Interface) → ⊥) }
{
    if t.0 >= table.types() {
        return false;
    }
    match table.type_row(t).kind {
        Kind::Interface => true,
        _ => false,
    }
}

/// Whether own member k overrides `Object.Finalize`.
pub(crate) fn is_finalizer(own: &Own<'_>, k: usize) -> bool
    requires sound { IsSound own.now }
    requires within { k < length own.now.told.now }
    ensures yes { OnTrue result (IsFinalizer own.now k) }
    ensures no { OnFalse result (IsFinalizer own.now k → ⊥) }
{
    if !is_named_finalize(own, k) {
        return false;
    }
    has_slot_of_object(own, k)
}

fn is_named_finalize(own: &Own<'_>, k: usize) -> bool
    requires sound { IsSound own.now }
    requires within { k < length own.now.told.now }
    ensures yes { OnTrue result (HasOwnMember own.now k IsNamedFinalize) }
    ensures no { OnFalse result (HasOwnMember own.now k IsNamedFinalize → ⊥) }
{
    let row = own.member_row(k);
    row.name.as_str() == "Finalize" && is_bare(row.params.items())
}

fn is_bare(params: &[Param]) -> bool
    ensures yes { OnTrue result (params.now ≡ []) }
    ensures no { OnFalse result (params.now ≡ [] → ⊥) }
{
    params.is_empty()
}

fn has_slot_of_object(own: &Own<'_>, k: usize) -> bool
    requires sound { IsSound own.now }
    requires within { k < length own.now.told.now }
    requires named { HasOwnMember own.now k IsNamedFinalize }
    ensures yes { OnTrue result (HasSlotOfObject own.now k) }
    ensures no { OnFalse result (HasSlotOfObject own.now k → ⊥) }
{
    own.table.is_class_table();
    is_of_object(own, own.table.slot(own.member(k)))
}

fn is_of_object(own: &Own<'_>, m: MemberId) -> bool
    ensures yes { OnTrue result (IsOfObject own.now m.0) }
    ensures no { OnFalse result (IsOfObject own.now m.0 → ⊥) }
{
    if m.0 >= own.table.members() {
        return false;
    }
    is_system(own.table, own.table.member_row(m).owner, "Object")
}

// How many brackets a type may have.
const BRACKETS: u8 = 32;

/// Whether own member k names a type with too many brackets.
pub(crate) fn is_too_deep(own: &Own<'_>, k: usize) -> bool
    requires sound { IsSound own.now }
    requires within { k < length own.now.told.now }
    ensures yes { OnTrue result (IsTooDeep own.now k) }
    ensures no { OnFalse result (IsTooDeep own.now k → ⊥) }
{
    let row = own.member_row(k);
    row.result.arrays > BRACKETS || has_deep(row.params.items())
}

fn has_deep(params: &[Param]) -> bool
    ensures yes { OnTrue result (HasDeep params.now) }
    ensures no { OnFalse result (HasDeep params.now → ⊥) }
{
    for i in 0..params.len() {
        if params[i].ty.arrays > BRACKETS {
            return true;
        }
    }
    false
}
