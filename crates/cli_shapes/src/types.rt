// Which own types fail a condition.

ghost use Rattle.std.specs.Prelude.{◌≡◌, ◌≤◌, ◌-◌, ◌<◌, codes, length, Some, slice_get};
ghost use Rattle.std.specs.Bool.{OnTrue, OnFalse};
ghost use Rattle.class_rows.specs.Core.{IsSystem};
ghost use Rattle.dc_base.specs.declared.ty.Prim_.{Prim_ as Primitive};
ghost use Rattle.cli_shapes.specs.Own.{HasOwnType, HasOf, IsSound};
ghost use Rattle.cli_shapes.specs.Types.{IsStruct, IsStaticWithInstance, IsWithoutConstructor, IsUsualDelegate, IsOtherDelegate, IsInteger, IsOverInteger, IsOtherEnum};
ghost use Rattle.cli_shapes.specs.Marks.{Is, AreMarks, AreAllMarks};

use crate::marks::{Marks, Sought};
use crate::own::Own;
use class_rows::Kind;
use class_table::ClassTable;
use dc_base::{Prim_, TypeId};

/// Whether own type t extends System.ValueType.
pub(crate) fn is_struct(own: &Own<'_>, t: usize) -> bool
    requires sound { IsSound own.now }
    requires within { t < length own.now.table.now.types - own.now.first_type.0 }
    ensures yes { OnTrue result (IsStruct own.now t) }
    ensures no { OnFalse result (IsStruct own.now t → ⊥) }
{
    match own.type_row(t).base {
        Some(b) => is_system(own.table, b, "ValueType"),
        None => false,
    }
}

/// Whether a type is that of the references which stands in System under this name.
pub(crate) fn is_system(table: &ClassTable, t: TypeId, name: &str) -> bool
    ensures yes { OnTrue result (IsSystem table.now.types name.now t.0) }
    ensures no { OnFalse result (IsSystem table.now.types name.now t.0 → ⊥) }
{
    if t.0 >= table.types() {
        return false;
    }
    let row = table.type_row(t);
    !row.own && row.outer.is_none() && row.space.as_str() == "System" && row.name.as_str() == name
}

// Whether own type t has a member of a kind, by the marks of that kind.
fn has(own: &Own<'_>, sought: Sought, marks: &[bool], t: usize) -> bool
    requires marks { AreMarks own.now sought marks.now }
    requires within { t < length own.now.table.now.types - own.now.first_type.0 }
    ensures yes { OnTrue result (HasOf own.now t (Is own.now sought)) }
    ensures no { OnFalse result (HasOf own.now t (Is own.now sought) → ⊥) }
{
    marks[t]
}

fn is_kind(own: &Own<'_>, t: usize, kind: Kind) -> bool
    requires sound { IsSound own.now }
    requires within { t < length own.now.table.now.types - own.now.first_type.0 }
    ensures yes { OnTrue result (HasOwnType own.now t (λ row. row.kind ≡ kind)) }
    ensures no { OnFalse result (HasOwnType own.now t (λ row. row.kind ≡ kind) → ⊥) }
{
    own.type_row(t).kind == kind
}

/// Whether own type t is a static class with an instance member.
pub(crate) fn is_static_with_instance(own: &Own<'_>, marks: &Marks, t: usize) -> bool
    requires marks { AreAllMarks own.now marks.now }
    requires within { t < length own.now.table.now.types - own.now.first_type.0 }
    ensures yes { OnTrue result (IsStaticWithInstance own.now t) }
    ensures no { OnFalse result (IsStaticWithInstance own.now t → ⊥) }
{
    is_kind(own, t, Kind::StaticClass) && has(own, Sought::Instance, marks.instance.items(), t)
}

/// Whether own type t is another class, without an instance constructor.
pub(crate) fn is_without_constructor(own: &Own<'_>, marks: &Marks, t: usize) -> bool
    requires marks { AreAllMarks own.now marks.now }
    requires within { t < length own.now.table.now.types - own.now.first_type.0 }
    ensures yes { OnTrue result (IsWithoutConstructor own.now t) }
    ensures no { OnFalse result (IsWithoutConstructor own.now t → ⊥) }
{
    let makers = marks.constructor.items();
    is_kind(own, t, Kind::Class) && !has(own, Sought::Constructor, makers, t)
}

/// Whether own type t is a delegate that isn't a usual one.
pub(crate) fn is_other_delegate(own: &Own<'_>, marks: &Marks, t: usize) -> bool
    requires marks { AreAllMarks own.now marks.now }
    requires within { t < length own.now.table.now.types - own.now.first_type.0 }
    ensures yes { OnTrue result (IsOtherDelegate own.now t) }
    ensures no { OnFalse result (IsOtherDelegate own.now t → ⊥) }
{
    is_kind(own, t, Kind::Delegate) && !is_usual_delegate(own, marks, t)
}

fn is_usual_delegate(own: &Own<'_>, marks: &Marks, t: usize) -> bool
    requires marks { AreAllMarks own.now marks.now }
    requires within { t < length own.now.table.now.types - own.now.first_type.0 }
    ensures yes { OnTrue result (IsUsualDelegate own.now t) }
    ensures no { OnFalse result (IsUsualDelegate own.now t → ⊥) }
{
    has(own, Sought::UsualMaker, marks.usual_maker.items(), t)
        && !has(own, Sought::OtherMaker, marks.other_maker.items(), t)
        && has(own, Sought::UsualInvoke, marks.usual_invoke.items(), t)
        && !has(own, Sought::OtherInvoke, marks.other_invoke.items(), t)
}

/// Whether own type t is an enum that isn't over an integer type, or that has methods.
pub(crate) fn is_other_enum(own: &Own<'_>, marks: &Marks, t: usize) -> bool
    requires marks { AreAllMarks own.now marks.now }
    requires within { t < length own.now.table.now.types - own.now.first_type.0 }
    ensures yes { OnTrue result (IsOtherEnum own.now t) }
    ensures no { OnFalse result (IsOtherEnum own.now t → ⊥) }
{
    is_enum(own, t)
        && (!is_over_integer(own, t) || has(own, Sought::Method, marks.method.items(), t))
}

fn is_enum(own: &Own<'_>, t: usize) -> bool
    requires sound { IsSound own.now }
    requires within { t < length own.now.table.now.types - own.now.first_type.0 }
    ensures yes { OnTrue result (HasOwnType own.now t (λ row. (prim : Primitive) × (row.kind ≡ Kind.Enum prim))) }
    ensures no { OnFalse result (HasOwnType own.now t (λ row. (prim : Primitive) × (row.kind ≡ Kind.Enum prim)) → ⊥) }
{
    match own.type_row(t).kind {
        Kind::Enum(_) => true,
        _ => false,
    }
}

fn is_over_integer(own: &Own<'_>, t: usize) -> bool
    ensures yes { OnTrue result (IsOverInteger own.now t) }
    ensures no { OnFalse result (IsOverInteger own.now t → ⊥) }
{
    match own.instances.get(t) {
        Some(fields) => fields.count == 1 && is_integer(fields.first),
        None => false,
    }
}

fn is_integer(prim: Option<Prim_>) -> bool
    ensures yes { OnTrue result (IsInteger prim) }
    ensures no { OnFalse result (IsInteger prim → ⊥) }
{
    match prim {
        None => false,
        Some(Prim_::Bool) => false,
        Some(Prim_::Char) => false,
        Some(_) => true,
    }
}
