// What a delegate is made of.

ghost use Rattle.std.specs.Prelude.{◌≡◌, false, Some};
ghost use Rattle.std.specs.Bool.{OnTrue, OnFalse};
ghost use Rattle.std.specs.Option.{option_copied};
ghost use Rattle.cli_assembly.specs.Meaning.{AreInOrder};
ghost use Rattle.class_rows.specs.declared.row.Kind.TheVariants.{Delegate};
ghost use Rattle.class_rows.specs.Lookups.{IsAssignable, AreAssignable, class_ty};
ghost use Rattle.verify_rules.specs.declared.held.Held.TheVariants.{Reference};
ghost use Rattle.verify_rules.specs.Look.{types_of};
ghost use Rattle.verify_rules.specs.Held.{held_by};
ghost use Rattle.verify_rules.specs.Slots.{Two};
ghost use Rattle.verify_rules.specs.Kinds.{IsSo};
ghost use Rattle.verify_rules.specs.Members.{KeepsDelegate, MakesDelegate, IsMadeOf, FitsInvoke, FitsResult, IsTarget, IfSo, invoke_of};

use cil_rows::Row;
use class_rows::{Kind, MemberRow, Param, Way};
use dc_base::{Core, Ty, TypeId};
use std::slice;
use verify_frames::owner_kind;
use verify_kinds::is_null;
use verify_rules::{Held, Setting, held_by, member_at, named_row};
use verify_slots::Slot;

/// Whether a new delegate is of the parameters and the result of its type's Invoke, with a target that its method takes.
pub fn keeps_delegate(setting: &Setting<'_>, row: &Row, frame: &[Slot]) -> bool
    requires { AreInOrder setting.now.tokens.now }
    ensures yes { OnTrue result (KeepsDelegate setting.now row.now frame.now) }
    ensures no { OnFalse result (KeepsDelegate setting.now row.now frame.now → ⊥) }
{
    match row {
        Row::New(token) => makes_delegate(setting, frame, named_row(setting, *token)),
        _ => true,
    }
}

fn makes_delegate(setting: &Setting<'_>, frame: &[Slot], maker: Option<&MemberRow>) -> bool
    ensures yes { OnTrue result (IfSo (MakesDelegate setting.now frame.now) (option_copied maker.entry)) }
    ensures no { OnFalse result (IfSo (MakesDelegate setting.now frame.now) (option_copied maker.entry) → ⊥) }
{
    match maker {
        Some(row) => {
            !is_delegate(owner_kind(setting, row)) || two_made_of(setting, row.owner, frame)
        }
        None => true,
    }
}

fn is_delegate(kind: Option<Kind>) -> bool
    ensures yes { OnTrue result (kind ≡ Some Delegate) }
    ensures no { OnFalse result (kind ≡ Some Delegate → ⊥) }
{
    match kind {
        Some(kind) => matches!(kind, Kind::Delegate),
        None => false,
    }
}

fn two_made_of(setting: &Setting<'_>, ty: TypeId, frame: &[Slot]) -> bool
    ensures yes { OnTrue result (Two (IsMadeOf setting.now ty) frame.now) }
    ensures no { OnFalse result (Two (IsMadeOf setting.now ty) frame.now → ⊥) }
{
    match frame {
        [code, target, ..] => is_made_of(setting, ty, target, code),
        _ => false,
    }
}

fn is_made_of(setting: &Setting<'_>, ty: TypeId, target: &Slot, code: &Slot) -> bool
    ensures yes { OnTrue result (IsMadeOf setting.now ty target.now code.now) }
    ensures no { OnFalse result (IsMadeOf setting.now ty target.now code.now → ⊥) }
{
    match code {
        Slot::Code(member) => {
            let row = member_at(setting.table, *member);
            is_member_of(setting, target, row, invoke_of(setting, ty))
        }
        _ => true,
    }
}

// The method Invoke of a delegate type. None where it has none.
fn invoke_of<'a>(setting: &Setting<'a>, ty: TypeId) -> Option<&'a MemberRow>
    ensures { option_copied result ≡ invoke_of setting.now ty }
{
    match setting.invokes.get(ty.0 as usize) {
        Some(Some(member)) => member_at(setting.table, *member),
        _ => None,
    }
}

fn is_member_of(
    setting: &Setting<'_>,
    target: &Slot,
    row: Option<&MemberRow>,
    invoke: Option<&MemberRow>,
) -> bool
    ensures yes { OnTrue result (IsSo (λ member. IsSo (FitsInvoke setting.now target.now member) (option_copied invoke.entry)) (option_copied row.entry)) }
    ensures no { OnFalse result (IsSo (λ member. IsSo (FitsInvoke setting.now target.now member) (option_copied invoke.entry)) (option_copied row.entry) → ⊥) }
{
    match row {
        Some(row) => match invoke {
            Some(invoke) => fits_invoke(setting, target, row, invoke),
            None => false,
        },
        None => false,
    }
}

fn fits_invoke(setting: &Setting<'_>, target: &Slot, row: &MemberRow, invoke: &MemberRow) -> bool
    ensures yes { OnTrue result (FitsInvoke setting.now target.now row.now invoke.now) }
    ensures no { OnFalse result (FitsInvoke setting.now target.now row.now invoke.now → ⊥) }
{
    are_same(row.params.items(), invoke.params.items())
        && fits_result(setting, row.result, invoke.result)
        && is_target(setting, row, row.is_static, target)
}

fn are_same(params: &[Param], others: &[Param]) -> bool
    ensures yes { OnTrue result (params.now ≡ others.now) }
    ensures no { OnFalse result (params.now ≡ others.now → ⊥) }
{
    if params.len() != others.len() {
        return false;
    }
    for index in 0..params.len() {
        if !is_same_param(params[index], others[index]) {
            return false;
        }
    }
    true
}

#[tactic(auto, using(crate::proofs::Params::same))]
fn is_same_param(param: Param, other: Param) -> bool
    ensures yes { OnTrue result (param ≡ other) }
    ensures no { OnFalse result (param ≡ other → ⊥) }
{
    is_same(param.ty, other.ty) && is_same_way(param.way, other.way)
}

fn is_same_way(way: Way, other: Way) -> bool
    ensures yes { OnTrue result (way ≡ other) }
    ensures no { OnFalse result (way ≡ other → ⊥) }
{
    way == other
}

fn fits_result(setting: &Setting<'_>, from: Ty, to: Ty) -> bool
    ensures yes { OnTrue result (FitsResult setting.now from to) }
    ensures no { OnFalse result (FitsResult setting.now from to → ⊥) }
{
    is_same(from, to) || stands_for(setting, from, to)
}

fn is_same(from: Ty, to: Ty) -> bool
    ensures yes { OnTrue result (from ≡ to) }
    ensures no { OnFalse result (from ≡ to → ⊥) }
{
    from == to
}

// Whether both are references, and the one may stand where the other is wanted.
fn stands_for(setting: &Setting<'_>, from: Ty, to: Ty) -> bool
    ensures yes { OnTrue result ((held_by (types_of setting.now) from ≡ Reference) × (held_by (types_of setting.now) to ≡ Reference) × IsAssignable (types_of setting.now) from to) }
    ensures no { OnFalse result ((held_by (types_of setting.now) from ≡ Reference) × (held_by (types_of setting.now) to ≡ Reference) × IsAssignable (types_of setting.now) from to → ⊥) }
{
    is_reference(setting, from) && is_reference(setting, to) && is_assignable(setting, from, to)
}

fn is_reference(setting: &Setting<'_>, ty: Ty) -> bool
    ensures yes { OnTrue result (held_by (types_of setting.now) ty ≡ Reference) }
    ensures no { OnFalse result (held_by (types_of setting.now) ty ≡ Reference → ⊥) }
{
    match held_by(setting.table, ty) {
        Held::Reference => true,
        _ => false,
    }
}

fn is_assignable(setting: &Setting<'_>, from: Ty, to: Ty) -> bool
    ensures yes { OnTrue result (IsAssignable (types_of setting.now) from to) }
    ensures no { OnFalse result (IsAssignable (types_of setting.now) from to → ⊥) }
{
    setting.table.assignable(slice::from_ref(&from), to)
}

fn is_target(setting: &Setting<'_>, row: &MemberRow, is_static: bool, slot: &Slot) -> bool
    ensures yes { OnTrue result (IsTarget setting.now row.now is_static slot.now) }
    ensures no { OnFalse result (IsTarget setting.now row.now is_static slot.now → ⊥) }
{
    if is_static {
        is_null(slot)
    } else {
        is_taken_by(setting, row, slot)
    }
}

fn is_taken_by(setting: &Setting<'_>, row: &MemberRow, slot: &Slot) -> bool
    ensures yes { OnTrue result (IsTarget setting.now row.now false slot.now) }
    ensures no { OnFalse result (IsTarget setting.now row.now false slot.now → ⊥) }
{
    match slot {
        Slot::Refs(set, _) => setting.table.assignable(set.items(), class_of(row.owner)),
        _ => false,
    }
}

// A type as that of a reference.
fn class_of(ty: TypeId) -> Ty
    ensures { result ≡ class_ty ty.0 }
{
    Ty {
        core: Core::Class(ty),
        arrays: 0,
        lent: false,
    }
}
