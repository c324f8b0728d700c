// Members that may be named from the method.

ghost use Rattle.std.specs.Prelude.{◌≡◌, false, Some, None, slice_get, Contains};
ghost use Rattle.std.specs.Bool.{OnTrue, OnFalse};
ghost use Rattle.std.specs.Option.{option_copied};
ghost use Rattle.cli_assembly.specs.Meaning.{AreInOrder};
ghost use Rattle.dc_base.specs.declared.ty.Ty.{Ty};
ghost use Rattle.verify_rules.specs.Puts.{this_depth};
ghost use Rattle.verify_rules.specs.Members.{KeepsAccess, IsNamed, IsReached, IsReachedBy, IsOpenFrom, MayBeNamed, IsLiteral, IfSo, member_named, token_of, through};

use crate::base::lists;
use crate::function::is_function_of;
use cil_rows::Row;
use class_rows::{MemberKind, MemberRow};
use dc_base::{Core, MemberId, Token, Ty, TypeId};
use verify_puts::this_depth;
use verify_rules::{Setting, member_at, named_member};
use verify_slots::Slot;

/// Whether the member that the instruction names may be named from the method, as what it is taken for.
pub fn keeps_access(setting: &Setting<'_>, row: &Row, frame: &[Slot]) -> bool
    requires { AreInOrder setting.now.tokens.now }
    ensures yes { OnTrue result (KeepsAccess setting.now row.now frame.now) }
    ensures no { OnFalse result (KeepsAccess setting.now row.now frame.now → ⊥) }
{
    match member_named(setting, token_of(row)) {
        Some(member) => {
            is_named_there(
                setting,
                row,
                frame,
                member,
                member_at(setting.table, member),
            )
        }
        None => true,
    }
}

fn member_named(setting: &Setting<'_>, token: Option<Token>) -> Option<MemberId>
    requires { AreInOrder setting.now.tokens.now }
    ensures { result ≡ member_named setting.now token }
{
    match token {
        Some(token) => named_member(setting, token),
        None => None,
    }
}

// The token of the member that an instruction names.
fn token_of(row: &Row) -> Option<Token>
    ensures { result ≡ token_of row.now }
{
    match row {
        Row::Call { callee: token, .. }
        | Row::Function { target: token, .. }
        | Row::New(token)
        | Row::LoadField(token)
        | Row::FieldAddress(token)
        | Row::StoreField(token)
        | Row::LoadStatic(token)
        | Row::StaticAddress(token)
        | Row::StoreStatic(token) => Some(*token),
        _ => None,
    }
}

fn is_named_there(
    setting: &Setting<'_>,
    row: &Row,
    frame: &[Slot],
    member: MemberId,
    member_row: Option<&MemberRow>,
) -> bool
    requires { AreInOrder setting.now.tokens.now }
    ensures yes { OnTrue result (IfSo (IsNamed setting.now row.now frame.now member) (option_copied member_row.entry)) }
    ensures no { OnFalse result (IfSo (IsNamed setting.now row.now frame.now member) (option_copied member_row.entry) → ⊥) }
{
    match member_row {
        Some(member_row) => is_named(setting, row, frame, member, member_row),
        None => true,
    }
}

fn is_named(
    setting: &Setting<'_>,
    row: &Row,
    frame: &[Slot],
    member: MemberId,
    member_row: &MemberRow,
) -> bool
    requires { AreInOrder setting.now.tokens.now }
    ensures yes { OnTrue result (IsNamed setting.now row.now frame.now member member_row.now) }
    ensures no { OnFalse result (IsNamed setting.now row.now frame.now member member_row.now → ⊥) }
{
    if !may_be_named(setting, member, None) {
        return false;
    }
    if !is_reached(setting, row, frame, member, member_row) {
        return false;
    }
    if lists(setting.hidden, member) {
        return false;
    }
    if is_literal(&member_row.kind) {
        return false;
    }
    is_function_of(setting, row, frame, member, member_row)
}

// Whether the method may name a member, through a type where one is given.
fn may_be_named(setting: &Setting<'_>, member: MemberId, through: Option<TypeId>) -> bool
    ensures yes { OnTrue result (MayBeNamed setting.now member through) }
    ensures no { OnFalse result (MayBeNamed setting.now member through → ⊥) }
{
    match member_at(setting.table, setting.method) {
        Some(method) => is_open_from(setting, member, through, method),
        None => false,
    }
}

#[tactic(auto, using(crate::proofs::Open::within))]
fn is_open_from(
    setting: &Setting<'_>,
    member: MemberId,
    through: Option<TypeId>,
    method: &MemberRow,
) -> bool
    ensures yes { OnTrue result (IsOpenFrom setting.now member through method.now) }
    ensures no { OnFalse result (IsOpenFrom setting.now member through method.now → ⊥) }
{
    if member.0 < setting.table.members() {
        setting.table.accessible(method.owner, member, through)
    } else {
        false
    }
}

fn is_reached(
    setting: &Setting<'_>,
    row: &Row,
    frame: &[Slot],
    member: MemberId,
    member_row: &MemberRow,
) -> bool
    requires { AreInOrder setting.now.tokens.now }
    ensures yes { OnTrue result (IsReached setting.now row.now frame.now member member_row.now) }
    ensures no { OnFalse result (IsReached setting.now row.now frame.now member member_row.now → ⊥) }
{
    match row {
        Row::New(_) => may_be_named(setting, member, Some(member_row.owner)),
        _ => is_reached_on(setting, row, frame, member, member_row.is_static),
    }
}

// Whether a member is reached through the receiver, where it has one.
fn is_reached_on(
    setting: &Setting<'_>,
    row: &Row,
    frame: &[Slot],
    member: MemberId,
    is_static: bool,
) -> bool
    requires { AreInOrder setting.now.tokens.now }
    ensures yes { OnTrue result (is_static ≡ false → IfSo (IsReachedBy setting.now member) (slice_get frame.now (this_depth setting.now row.now))) }
    ensures no { OnFalse result ((is_static ≡ false → IfSo (IsReachedBy setting.now member) (slice_get frame.now (this_depth setting.now row.now))) → ⊥) }
{
    is_static || is_reached_at(setting, member, frame.get(this_depth(setting, row)))
}

fn is_reached_at(setting: &Setting<'_>, member: MemberId, slot: Option<&Slot>) -> bool
    ensures yes { OnTrue result (IfSo (IsReachedBy setting.now member) (option_copied slot.entry)) }
    ensures no { OnFalse result (IfSo (IsReachedBy setting.now member) (option_copied slot.entry) → ⊥) }
{
    match slot {
        Some(slot) => is_reached_by(setting, member, slot),
        None => true,
    }
}

fn is_reached_by(setting: &Setting<'_>, member: MemberId, slot: &Slot) -> bool
    ensures yes { OnTrue result (IsReachedBy setting.now member slot.now) }
    ensures no { OnFalse result (IsReachedBy setting.now member slot.now → ⊥) }
{
    match slot {
        Slot::Refs(set, _) => is_reached_by_each(setting, member, set.items()),
        _ => true,
    }
}

fn is_reached_by_each(setting: &Setting<'_>, member: MemberId, set: &[Ty]) -> bool
    ensures yes { OnTrue result ((ty : Ty) → Contains set.now ty → MayBeNamed setting.now member (Some (through setting.now ty))) }
    ensures no { OnFalse result (((ty : Ty) → Contains set.now ty → MayBeNamed setting.now member (Some (through setting.now ty))) → ⊥) }
{
    for ty in set {
        if !is_reached_through(setting, member, *ty) {
            return false;
        }
    }
    true
}

fn is_reached_through(setting: &Setting<'_>, member: MemberId, ty: Ty) -> bool
    ensures yes { OnTrue result (MayBeNamed setting.now member (Some (through setting.now ty))) }
    ensures no { OnFalse result (MayBeNamed setting.now member (Some (through setting.now ty)) → ⊥) }
{
    may_be_named(setting, member, Some(through(setting, ty)))
}

// The type through which a member of a reference is reached: an array counts as System.Array.
fn through(setting: &Setting<'_>, ty: Ty) -> TypeId
    ensures { result ≡ through setting.now ty }
{
    match ty.core {
        Core::Class(class) if ty.arrays == 0 => class,
        _ => setting.core.array,
    }
}

fn is_literal(kind: &MemberKind) -> bool
    ensures yes { OnTrue result (IsLiteral kind.now) }
    ensures no { OnFalse result (IsLiteral kind.now → ⊥) }
{
    match kind {
        MemberKind::Field { literal, .. } => literal.is_some(),
        _ => false,
    }
}
