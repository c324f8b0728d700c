// The places that instructions put slots to.

ghost use Rattle.std.specs.Prelude.{◌≡◌};
ghost use Rattle.std.specs.Option.{option_copied};
ghost use Rattle.cli_assembly.specs.Meaning.{AreInOrder};
ghost use Rattle.class_rows.specs.Lookups.{class_ty};
ghost use Rattle.verify_rules.specs.Puts.{top_place, field_ty, this_put, this_of, this_in, this_by, lent_value, value_among, arguments, made_with, made_by, params_of, this_depth};

use cil_rows::Row;
use class_rows::{Kind, MemberRow, Param};
use dc_base::{Core, Prim_, Ty, TypeId};
use verify_frames::{argument, owner_kind, result_of};
use verify_rules::{Setting, member_at, named_row, named_ty};

/// The type of the place of the upper slot. None where it goes to none.
pub fn top_place(setting: &Setting<'_>, row: &Row) -> Option<Ty>
    requires { AreInOrder setting.now.tokens.now }
    ensures { result ≡ top_place setting.now row.now }
{
    match row {
        Row::Return => result_of(member_at(setting.table, setting.method)),
        Row::Throw => Some(class_of(setting.core.exception)),
        Row::StoreArgument(k) => argument(setting, *k),
        Row::StoreLocal(k) => setting.locals.get(usize::from(*k)).copied(),
        Row::StoreField(token) | Row::StoreStatic(token) => field_ty(named_row(setting, *token)),
        Row::Box(token) => named_ty(setting, *token),
        _ => None,
    }
}

fn class_of(ty: TypeId) -> Ty
    ensures { result ≡ class_ty ty.0 }
{
    Ty {
        core: Core::Class(ty),
        arrays: 0,
        lent: false,
    }
}

fn field_ty(row: Option<&MemberRow>) -> Option<Ty>
    ensures { result ≡ field_ty (option_copied row.entry) }
{
    match row {
        Some(row) => Some(row.result),
        None => None,
    }
}

/// The receiver that the instruction uses. None where it uses none.
pub fn this_put(setting: &Setting<'_>, row: &Row) -> Option<Ty>
    requires { AreInOrder setting.now.tokens.now }
    ensures { result ≡ this_put setting.now row.now }
{
    match row {
        Row::Call { callee, .. } => this_of(setting, named_row(setting, *callee)),
        Row::Function { target, by_slot } => {
            if *by_slot {
                this_of(setting, named_row(setting, *target))
            } else {
                None
            }
        }
        Row::LoadField(token) | Row::FieldAddress(token) | Row::StoreField(token) => {
            this_of(setting, named_row(setting, *token))
        }
        _ => None,
    }
}

fn this_of(setting: &Setting<'_>, row: Option<&MemberRow>) -> Option<Ty>
    ensures { result ≡ this_of setting.now (option_copied row.entry) }
{
    match row {
        Some(row) => this_in(setting, row, row.is_static),
        None => None,
    }
}

fn this_in(setting: &Setting<'_>, row: &MemberRow, is_static: bool) -> Option<Ty>
    ensures { result ≡ this_in setting.now row.now is_static }
{
    if is_static {
        None
    } else {
        this_by(
            setting.core.prims.items(),
            row.owner,
            owner_kind(setting, row),
        )
    }
}

fn this_by(system: &[TypeId], ty: TypeId, kind: Option<Kind>) -> Option<Ty>
    ensures { result ≡ this_by system.now ty kind }
{
    match kind {
        None => None,
        Some(Kind::Enum(_)) => Some(lent_value(Core::Enum(ty))),
        Some(Kind::Opaque | Kind::Struct) => {
            Some(lent_value(value_among(system, &PRIMITIVES, ty)))
        }
        Some(Kind::Class | Kind::StaticClass | Kind::Interface | Kind::Delegate) => {
            Some(class_of(ty))
        }
    }
}

const PRIMITIVES: [Prim_; 10] = [
    Prim_::Bool,
    Prim_::Char,
    Prim_::I1,
    Prim_::U1,
    Prim_::I2,
    Prim_::U2,
    Prim_::I4,
    Prim_::U4,
    Prim_::I8,
    Prim_::U8,
];

fn lent_value(core: Core) -> Ty
    ensures { result ≡ lent_value core }
{
    Ty {
        core,
        arrays: 0,
        lent: true,
    }
}

// The primitive type that is this one of System, or the value type itself.
fn value_among(system: &[TypeId], prims: &[Prim_], ty: TypeId) -> Core
    ensures { result ≡ value_among system.now prims.now ty }
{
    match system {
        [other, system @ ..] => match prims {
            [prim, prims @ ..] => {
                if other.0 == ty.0 {
                    Core::Prim(*prim)
                } else {
                    value_among(system, prims, ty)
                }
            }
            _ => Core::Value(ty),
        },
        _ => Core::Value(ty),
    }
}

/// The parameters of the arguments that the instruction passes.
pub fn arguments<'a>(setting: &Setting<'a>, row: &Row) -> &'a [Param]
    requires { AreInOrder setting.now.tokens.now }
    ensures { result.now ≡ arguments setting.now row.now }
{
    match row {
        Row::Call { callee, .. } => params_of(named_row(setting, *callee)),
        Row::New(token) => made_with(setting, named_row(setting, *token)),
        _ => &[],
    }
}

fn params_of(row: Option<&MemberRow>) -> &[Param]
    ensures { result.now ≡ params_of (option_copied row.entry) }
{
    match row {
        Some(row) => row.params.items(),
        None => &[],
    }
}

fn made_with<'a>(setting: &Setting<'_>, row: Option<&'a MemberRow>) -> &'a [Param]
    ensures { result.now ≡ made_with setting.now (option_copied row.entry) }
{
    match row {
        Some(row) => made_by(owner_kind(setting, row), row),
        None => &[],
    }
}

fn made_by(kind: Option<Kind>, row: &MemberRow) -> &[Param]
    ensures { result.now ≡ made_by kind row.now }
{
    match kind {
        Some(Kind::Delegate) => &[],
        _ => row.params.items(),
    }
}

/// How far below the top the receiver stands.
pub fn this_depth(setting: &Setting<'_>, row: &Row) -> usize
    requires { AreInOrder setting.now.tokens.now }
    ensures { result ≡ this_depth setting.now row.now }
{
    match row {
        Row::StoreField(_) => 1,
        _ => arguments(setting, row).len(),
    }
}
