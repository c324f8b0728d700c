// Which own types have members of a kind.

ghost use Rattle.std.specs.Prelude.{◌≡◌, ◌+◌, ◌-◌, ◌<◌, ℕ, length, slice_get, Some, true, false, codes, IfOk, IfSome, IfNone};
ghost use Rattle.std.specs.Bool.{OnTrue, OnFalse};
ghost use Rattle.class_rows.specs.declared.row.Sort.TheVariants as sort;
ghost use Rattle.class_rows.specs.Members.{sort_of};
ghost use Rattle.cli_shapes.specs.Own.{IsSound, IsTold, IsOf};
ghost use Rattle.cli_shapes.specs.Types.{IsConstructor, IsMethod, IsUsualMaker, IsUsualInvoke, IsOtherInvoke};
ghost use Rattle.cli_shapes.specs.Marks.{Is, AreMarks, AreMarksTo, AreAllMarks};

use crate::own::Own;
use class_rows::{Access, MemberKind, MemberRow, Virt};
use dc_base::{NoMemory, Seq, TypeId};
use std::alloc::Global;

/// A kind of member.
#[derive(Clone, Copy, Debug, PartialEq, Eq)]
pub(crate) enum Sought {
    Instance,
    Constructor,
    Method,
    UsualMaker,
    OtherMaker,
    UsualInvoke,
    OtherInvoke,
}

/// Of each own type whether it has a member of the kind.
#[derive(Debug, Drop)]
pub(crate) struct Marks {
    pub(crate) instance: Seq<bool>,
    pub(crate) constructor: Seq<bool>,
    pub(crate) method: Seq<bool>,
    pub(crate) usual_maker: Seq<bool>,
    pub(crate) other_maker: Seq<bool>,
    pub(crate) usual_invoke: Seq<bool>,
    pub(crate) other_invoke: Seq<bool>,
}

/// The marks of all kinds. They take the time of seven looks at each own member.
pub(crate) fn all_marks(alloc: Global, own: &Own<'_>) -> Result<Marks, NoMemory>
    requires { IsSound own.now }
    ensures { IfOk result (AreAllMarks own.now) }
{
    Ok(Marks {
        instance: marks_of(alloc, own, Sought::Instance)?,
        constructor: marks_of(alloc, own, Sought::Constructor)?,
        method: marks_of(alloc, own, Sought::Method)?,
        usual_maker: marks_of(alloc, own, Sought::UsualMaker)?,
        other_maker: marks_of(alloc, own, Sought::OtherMaker)?,
        usual_invoke: marks_of(alloc, own, Sought::UsualInvoke)?,
        other_invoke: marks_of(alloc, own, Sought::OtherInvoke)?,
    })
}

fn marks_of(alloc: Global, own: &Own<'_>, sought: Sought) -> Result<Seq<bool>, NoMemory>
    requires { IsSound own.now }
    ensures { IfOk result (AreMarks own.now sought) }
{
    let mut marks = vec![in alloc; false; own.types()]?;
    for k in 0..own.told.len() {
        marks = marked(own, sought, marks, k);
    }
    Ok(Seq::of(marks))
}

// Marks the type of own member k, where that is one of the kind.
fn marked(own: &Own<'_>, sought: Sought, marks: Vec<bool>, k: usize) -> Vec<bool>
    requires sound { IsSound own.now }
    requires within { k < length own.now.told.now }
    requires long { length marks.items ≡ length own.now.table.now.types - own.now.first_type.0 }
    ensures { AreMarksTo own.now sought k marks.items → AreMarksTo own.now sought (k + 1) result.items }
{
    let mut marks = marks;
    match sought_type(own, sought, k) {
        Some(t) => {
            marks[t] = true;
            marks
        }
        None => marks,
    }
}

// The type of own member k, where that is one of the kind.
fn sought_type(own: &Own<'_>, sought: Sought, k: usize) -> Option<usize>
    requires sound { IsSound own.now }
    requires within { k < length own.now.told.now }
    ensures some { IfSome result (λ t. (t < length own.now.table.now.types - own.now.first_type.0) × IsOf own.now t (Is own.now sought) k) }
    ensures none { IfNone result ((t : ℕ) → t < length own.now.table.now.types - own.now.first_type.0 → IsOf own.now t (Is own.now sought) k → ⊥) }
{
    let row = own.member_row(k);
    if !is_sought(own, sought, k, row) {
        return None;
    }
    own_type(own, row.owner)
}

// Which own type this is.
fn own_type(own: &Own<'_>, t: TypeId) -> Option<usize>
    requires { IsSound own.now }
    ensures some { IfSome result (λ n. (t.0 ≡ own.now.first_type.0 + n) × (n < length own.now.table.now.types - own.now.first_type.0)) }
    ensures none { IfNone result ((n : ℕ) → n < length own.now.table.now.types - own.now.first_type.0 → t.0 ≡ own.now.first_type.0 + n → ⊥) }
{
    if t.0 < own.first_type.0 || t.0 >= own.table.types() {
        return None;
    }
    Some((t.0 - own.first_type.0) as usize)
}

fn is_sought(own: &Own<'_>, sought: Sought, k: usize, row: &MemberRow) -> bool
    requires { k < length own.now.told.now }
    ensures yes { OnTrue result (Is own.now sought k row.now) }
    ensures no { OnFalse result (Is own.now sought k row.now → ⊥) }
{
    match sought {
        Sought::Instance => !row.is_static,
        Sought::Constructor => is_constructor(k, row),
        Sought::Method => is_method(k, row),
        Sought::UsualMaker => is_usual_maker(own, k, row),
        Sought::OtherMaker => row.name.as_str() == ".ctor" && !is_usual_maker(own, k, row),
        Sought::UsualInvoke => is_usual_invoke(k, row),
        Sought::OtherInvoke => is_other_invoke(k, row),
    }
}

fn is_constructor(_k: usize, row: &MemberRow) -> bool
    ensures yes { OnTrue result (IsConstructor _k row.now) }
    ensures no { OnFalse result (IsConstructor _k row.now → ⊥) }
{
    match row.kind {
        MemberKind::Constructor => !row.is_static,
        _ => false,
    }
}

fn is_method(_k: usize, row: &MemberRow) -> bool
    ensures yes { OnTrue result (IsMethod _k row.now) }
    ensures no { OnFalse result (IsMethod _k row.now → ⊥) }
{
    match row.kind {
        MemberKind::Field { .. } => false,
        _ => true,
    }
}

fn is_usual_maker(own: &Own<'_>, k: usize, row: &MemberRow) -> bool
    requires { k < length own.now.told.now }
    ensures yes { OnTrue result (IsUsualMaker own.now k row.now) }
    ensures no { OnFalse result (IsUsualMaker own.now k row.now → ⊥) }
{
    row.name.as_str() == ".ctor" && !row.is_static && is_public(row) && makes_delegate(own, k)
}

fn makes_delegate(own: &Own<'_>, k: usize) -> bool
    requires { k < length own.now.told.now }
    ensures yes { OnTrue result (IsTold own.now k (λ told. told.makes_delegate ≡ true)) }
    ensures no { OnFalse result (IsTold own.now k (λ told. told.makes_delegate ≡ true) → ⊥) }
{
    own.told[k].makes_delegate
}

fn is_public(row: &MemberRow) -> bool
    ensures yes { OnTrue result (row.now.access ≡ Access.Public) }
    ensures no { OnFalse result (row.now.access ≡ Access.Public → ⊥) }
{
    match row.access {
        Access::Public => true,
        _ => false,
    }
}

fn is_usual_invoke(k: usize, row: &MemberRow) -> bool
    ensures yes { OnTrue result (IsUsualInvoke k row.now) }
    ensures no { OnFalse result (IsUsualInvoke k row.now → ⊥) }
{
    row.name.as_str() == "Invoke"
        && is_plain_method(row)
        && !row.is_static
        && is_public(row)
        && is_virtual(row)
}

fn is_plain_method(row: &MemberRow) -> bool
    ensures yes { OnTrue result (sort_of row.now.kind ≡ sort.Method) }
    ensures no { OnFalse result (sort_of row.now.kind ≡ sort.Method → ⊥) }
{
    match row.kind {
        MemberKind::Method => true,
        _ => false,
    }
}

fn is_virtual(row: &MemberRow) -> bool
    ensures yes { OnTrue result (row.now.virt ≡ Virt.Virtual) }
    ensures no { OnFalse result (row.now.virt ≡ Virt.Virtual → ⊥) }
{
    match row.virt {
        Virt::Virtual => true,
        _ => false,
    }
}

fn is_other_invoke(k: usize, row: &MemberRow) -> bool
    ensures yes { OnTrue result (IsOtherInvoke k row.now) }
    ensures no { OnFalse result (IsOtherInvoke k row.now → ⊥) }
{
    row.name.as_str() == "Invoke" && is_method(k, row) && !is_usual_invoke(k, row)
}
