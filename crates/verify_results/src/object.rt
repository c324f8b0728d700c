// Objects, and tests of what they are.

ghost use Rattle.std.specs.Prelude.{◌≡◌, ◌<◌, IfOk};
ghost use Rattle.std.specs.Option.{option_copied};
ghost use Rattle.class_rows.specs.Lookups.{class_ty};
ghost use Rattle.verify_rules.specs.Kinds.{IsSo};
ghost use Rattle.verify_rules.specs.Results.{array_made, array_over, object_made, made_mark, code_of, instance_of, instance_held, cast_to};

use crate::place::one_of;
use class_rows::{Kind, MemberRow};
use dc_base::{Core, MemberId, NoMemory, Ty, TypeId};
use std::alloc::Global;
use verify_frames::owner_kind;
use verify_rules::{Held, Setting, held_by};
use verify_slots::{Mark, Slot};

/// A new array of elements of this type.
pub fn array_made(alloc: Global, ty: Option<Ty>) -> Result<Option<Slot>, NoMemory>
    requires { IsSo (λ element. element.arrays < 255) ty }
    ensures { IfOk result (λ slot. slot ≡ array_made ty) }
{
    match ty {
        Some(ty) => one_of(alloc, array_over(ty), Mark::Fresh),
        None => Ok(None),
    }
}

fn array_over(ty: Ty) -> Ty
    requires { ty.arrays < 255 }
    ensures { result ≡ array_over ty }
{
    Ty {
        core: ty.core,
        arrays: ty.arrays + 1,
        lent: false,
    }
}

/// A new object, or delegate, of the constructor's type.
pub fn object_made(
    alloc: Global,
    setting: &Setting<'_>,
    maker: Option<&MemberRow>,
) -> Result<Option<Slot>, NoMemory>
    ensures { IfOk result (λ slot. slot ≡ object_made setting.now (option_copied maker.entry)) }
{
    match maker {
        Some(row) => one_of(
            alloc,
            class_of(row.owner),
            made_mark(owner_kind(setting, row)),
        ),
        None => Ok(None),
    }
}

fn made_mark(kind: Option<Kind>) -> Mark
    ensures { result ≡ made_mark kind }
{
    match kind {
        Some(Kind::Delegate) => Mark::Other,
        _ => Mark::Fresh,
    }
}

/// A type as that of a reference.
pub fn class_of(ty: TypeId) -> Ty
    ensures { result ≡ class_ty ty.0 }
{
    Ty {
        core: Core::Class(ty),
        arrays: 0,
        lent: false,
    }
}

/// A method as a function.
pub fn code_of(member: Option<MemberId>) -> Option<Slot>
    ensures { result ≡ code_of member }
{
    match member {
        Some(member) => Some(Slot::Code(member)),
        None => None,
    }
}

/// What a test for this type gives.
pub fn instance_of(
    alloc: Global,
    setting: &Setting<'_>,
    ty: Option<Ty>,
) -> Result<Option<Slot>, NoMemory>
    ensures { IfOk result (λ slot. slot ≡ instance_of setting.now ty) }
{
    match ty {
        Some(ty) => instance_held(alloc, setting, ty, held_by(setting.table, ty)),
        None => Ok(None),
    }
}

fn instance_held(
    alloc: Global,
    setting: &Setting<'_>,
    ty: Ty,
    held: Held,
) -> Result<Option<Slot>, NoMemory>
    ensures { IfOk result (λ slot. slot ≡ instance_held setting.now ty held) }
{
    match held {
        Held::Reference => one_of(alloc, ty, Mark::Other),
        _ => one_of(alloc, class_of(setting.core.object), Mark::Other),
    }
}

/// What a cast to this type gives.
pub fn cast_to(alloc: Global, ty: Option<Ty>) -> Result<Option<Slot>, NoMemory>
    ensures { IfOk result (λ slot. slot ≡ cast_to ty) }
{
    match ty {
        Some(ty) => one_of(alloc, ty, Mark::Other),
        None => Ok(None),
    }
}
