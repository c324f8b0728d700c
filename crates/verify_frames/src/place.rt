// The method's own places, and the types of members.

ghost use Rattle.std.specs.Prelude.{◌≡◌, slice_get};
ghost use Rattle.std.specs.Bool.{OnTrue, OnFalse};
ghost use Rattle.std.specs.Option.{option_copied};
ghost use Rattle.class_rows.specs.Lookups.{class_ty};
ghost use Rattle.verify_rules.specs.Look.{argument, argument_in, argument_behind, ty_of_param, IsReceiver};
ghost use Rattle.verify_rules.specs.Puts.{count_of, result_of, given_ty, owner_kind};
ghost use Rattle.verify_rules.specs.Rules.{AreZeros};

use class_rows::{Kind, MemberRow};
use dc_base::{Core, Ty};
use verify_rules::{Setting, member_at};

/// The type of an argument, of which number 0 is the receiver where there is one. None where there is no such argument.
pub fn argument(setting: &Setting<'_>, number: u16) -> Option<Ty>
    ensures { result ≡ argument setting.now number }
{
    match member_at(setting.table, setting.method) {
        Some(row) => argument_in(row, row.is_static, usize::from(number)),
        None => None,
    }
}

fn argument_in(row: &MemberRow, is_static: bool, number: usize) -> Option<Ty>
    ensures { result ≡ argument_in row.now is_static number }
{
    if is_static {
        ty_of_param(row, number)
    } else {
        argument_behind(row, number)
    }
}

fn argument_behind(row: &MemberRow, number: usize) -> Option<Ty>
    ensures { result ≡ argument_behind row.now number }
{
    if number == 0 {
        Some(class_ty(row))
    } else {
        ty_of_param(row, number - 1)
    }
}

// The type that a member belongs to, as that of a reference.
pub fn class_ty(row: &MemberRow) -> Ty
    ensures { result ≡ class_ty row.now.owner.0 }
{
    Ty {
        core: Core::Class(row.owner),
        arrays: 0,
        lent: false,
    }
}

fn ty_of_param(row: &MemberRow, number: usize) -> Option<Ty>
    ensures { result ≡ ty_of_param (slice_get row.now.params number) }
{
    match row.params.get(number) {
        Some(param) => Some(param.ty),
        None => None,
    }
}

/// Whether the argument is the receiver of the method.
pub fn is_receiver(setting: &Setting<'_>, number: u16) -> bool
    ensures yes { OnTrue result (IsReceiver setting.now number) }
    ensures no { OnFalse result (IsReceiver setting.now number → ⊥) }
{
    match member_at(setting.table, setting.method) {
        Some(row) => !row.is_static && number == 0,
        None => false,
    }
}

/// Whether the method's locals, if it has any, begin as zeros.
pub fn are_zeros(setting: &Setting<'_>) -> bool
    ensures yes { OnTrue result (AreZeros setting.now) }
    ensures no { OnFalse result (AreZeros setting.now → ⊥) }
{
    setting.locals.is_empty() || setting.init_locals
}

/// The kind of the type that a member belongs to. None where there is none.
pub fn owner_kind(setting: &Setting<'_>, row: &MemberRow) -> Option<Kind>
    ensures { result ≡ owner_kind setting.now row.now }
{
    if row.owner.0 < setting.table.types() {
        Some(setting.table.type_row(row.owner).kind)
    } else {
        None
    }
}

/// What a method gives. None where it gives nothing.
pub fn result_of(row: Option<&MemberRow>) -> Option<Ty>
    ensures { result ≡ result_of (option_copied row.entry) }
{
    match row {
        Some(row) => given_ty(row.result),
        None => None,
    }
}

fn given_ty(ty: Ty) -> Option<Ty>
    ensures { result ≡ given_ty ty }
{
    match ty.core {
        Core::Void if ty.arrays == 0 => None,
        _ => Some(ty),
    }
}

pub fn count_of(ty: Option<Ty>) -> usize
    ensures { result ≡ count_of ty }
{
    match ty {
        Some(_) => 1,
        None => 0,
    }
}
