// What the instructions of a head do.

ghost use Rattle.std.specs.Prelude.{◌≡◌, ◌+◌, length, if◌then◌else◌};
ghost use Rattle.std.specs.Option.{option_copied};
ghost use Rattle.cli_assembly.specs.Meaning.{AreInOrder};
ghost use Rattle.cli_heads.specs.Row.{named_ty, named_member, named_row, has_result, is_operator_member, is_constructor, called_with, made_of, taken, is_reference, makes_value, reads_argument, is_operator, unboxes};

use crate::maker::Maker;
use cil_rows::Row;
use class_rows::{Kind, MemberRow, Param, Sort};
use cli_assembly::{Named, meaning_of};
use dc_base::{Core, MemberId, Token, Ty};

pub(crate) fn named_ty(maker: &Maker<'_>, token: Token) -> Option<Ty>
    requires { AreInOrder maker.now.tokens.now }
    ensures { result ≡ named_ty maker.now token }
{
    match meaning_of(maker.tokens, token) {
        Some(Named::OfType(ty)) => Some(*ty),
        _ => None,
    }
}

pub(crate) fn named_member(maker: &Maker<'_>, token: Token) -> Option<MemberId>
    requires { AreInOrder maker.now.tokens.now }
    ensures { result ≡ named_member maker.now token }
{
    match meaning_of(maker.tokens, token) {
        Some(Named::OfMember(member)) => Some(*member),
        _ => None,
    }
}

pub(crate) fn named_row<'a>(maker: &Maker<'a>, token: Token) -> Option<&'a MemberRow>
    requires { AreInOrder maker.now.tokens.now }
    ensures { option_copied result ≡ named_row maker.now token }
{
    let table = maker.table;
    match named_member(maker, token) {
        Some(member) if member.0 < table.members() => Some(table.member_row(member)),
        _ => None,
    }
}

fn has_result(row: Option<&MemberRow>) -> bool
    ensures { result ≡ has_result (option_copied row.entry) }
{
    match row {
        Some(row) => row.result.core != Core::Void,
        None => false,
    }
}

fn is_operator_member(row: Option<&MemberRow>) -> bool
    ensures { result ≡ is_operator_member (option_copied row.entry) }
{
    match row {
        Some(row) => row.kind.sort() == Sort::Operator,
        None => false,
    }
}

/// Whether it is a constructor of objects.
pub(crate) fn is_constructor(row: Option<&MemberRow>) -> bool
    ensures { result ≡ is_constructor (option_copied row.entry) }
{
    match row {
        Some(row) => row.kind.sort() == Sort::Constructor && !row.is_static,
        None => false,
    }
}

// How many values a call takes, with its receiver.
fn called_with(row: Option<&MemberRow>) -> usize
    ensures { result ≡ called_with (option_copied row.entry) }
{
    match row {
        Some(row) => with_receiver(row.is_static, row.params.items()),
        None => 0,
    }
}

fn with_receiver(is_static: bool, params: &[Param]) -> usize
    ensures { result ≡ (if is_static then length params.now else length params.now + 1) }
{
    if is_static {
        params.len()
    } else {
        params.len() + 1
    }
}

// How many values an object is made of.
fn made_of(maker: &Maker<'_>, row: Option<&MemberRow>) -> usize
    ensures { result ≡ made_of maker.now (option_copied row.entry) }
{
    let Some(row) = row else {
        return 0;
    };
    if row.owner.0 < maker.table.types() && maker.table.type_row(row.owner).kind == Kind::Delegate {
        return 2;
    }
    row.params.len()
}

/// How many values the row takes.
pub(crate) fn taken(maker: &Maker<'_>, row: &Row) -> usize
    requires { AreInOrder maker.now.tokens.now }
    ensures { result ≡ taken maker.now row.now }
{
    if let Some(count) = row.takes() {
        return count as usize;
    }
    match row {
        Row::Call { callee, .. } => called_with(named_row(maker, *callee)),
        Row::New(token) => made_of(maker, named_row(maker, *token)),
        _ => 0,
    }
}

fn is_reference(ty: Option<Ty>) -> bool
    ensures { result ≡ is_reference ty }
{
    match ty {
        Some(ty) => ty.arrays > 0 || matches!(ty.core, Core::Class(_)),
        None => false,
    }
}

/// Whether the row makes a value, other than by locals, by a copy of a slot or of `this`.
pub(crate) fn makes_value(maker: &Maker<'_>, row: &Row) -> bool
    requires { AreInOrder maker.now.tokens.now }
    ensures { result ≡ makes_value maker.now row.now }
{
    match row {
        Row::LoadArgument(k) | Row::ArgumentAddress(k) => *k > 0,
        Row::Call { callee, .. } => has_result(named_row(maker, *callee)),
        Row::IsInstance(token) => is_reference(named_ty(maker, *token)),
        Row::Null
        | Row::Truth(_)
        | Row::Int(_)
        | Row::Long(_)
        | Row::Text(_)
        | Row::Arithmetic { .. }
        | Row::Bitwise(_)
        | Row::Shift(_)
        | Row::Unary(_)
        | Row::Compare { .. }
        | Row::Convert { .. }
        | Row::New(_)
        | Row::Function { .. }
        | Row::LoadField(_)
        | Row::FieldAddress(_)
        | Row::LoadStatic(_)
        | Row::StaticAddress(_)
        | Row::NewArray(_)
        | Row::Length
        | Row::LoadElement(_)
        | Row::ElementAddress(_)
        | Row::LoadIndirect(_)
        | Row::Cast(_)
        | Row::Box(_)
        | Row::Unbox(_)
        | Row::UnboxAny(_) => true,
        _ => false,
    }
}

pub(crate) fn reads_argument(row: &Row) -> bool
    ensures { result ≡ reads_argument row.now }
{
    matches!(row, Row::LoadArgument(_) | Row::ArgumentAddress(_))
}

/// Whether the row is an operator in C#: a call of a member that is one counts, and `as`.
pub(crate) fn is_operator(maker: &Maker<'_>, row: &Row) -> bool
    requires { AreInOrder maker.now.tokens.now }
    ensures { result ≡ is_operator maker.now row.now }
{
    match row {
        Row::Arithmetic { .. }
        | Row::Bitwise(_)
        | Row::Shift(_)
        | Row::Unary(_)
        | Row::Compare { .. }
        | Row::IsInstance(_) => true,
        Row::Call { callee, .. } => is_operator_member(named_row(maker, *callee)),
        _ => false,
    }
}

/// Whether it takes a value out of a box.
pub(crate) fn unboxes(maker: &Maker<'_>, row: &Row) -> bool
    requires { AreInOrder maker.now.tokens.now }
    ensures { result ≡ unboxes maker.now row.now }
{
    match row {
        Row::Unbox(_) => true,
        Row::UnboxAny(token) => !is_reference(named_ty(maker, *token)),
        _ => false,
    }
}
