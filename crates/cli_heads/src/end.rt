// The end of a head.

ghost use Rattle.std.specs.Prelude.{◌≡◌, ◌<◌, ◌^◌, Some, length, slice_get, IfOk};
ghost use Rattle.std.specs.Option.{option_copied};
ghost use Rattle.cli_assembly.specs.Meaning.{AreInOrder};
ghost use Rattle.cli_heads.specs.Head.{called_by, constructor, is_type, base_of, is_of_same, are_none, may_call, split, ended};
ghost use Rattle.cli_heads.specs.Fault.{is_same};

use crate::begun::{Begun, Item, are_made, values};
use crate::head::{Head, Store};
use crate::maker::Maker;
use crate::row::{is_constructor, named_member, named_row};
use cil_rows::Row;
use class_rows::MemberRow;
use dc_base::{MemberId, NoMemory, Seq, Token, TypeId};
use std::alloc::Global;

/// The constructor that the row calls, other than by making an object.
pub(crate) fn called_by(maker: &Maker<'_>, row: &Row) -> Option<MemberId>
    requires { AreInOrder maker.now.tokens.now }
    ensures { result ≡ called_by maker.now (Some row.now) }
{
    match row {
        Row::Call {
            callee,
            by_slot: false,
        } => constructor(maker, *callee),
        _ => None,
    }
}

fn constructor(maker: &Maker<'_>, token: Token) -> Option<MemberId>
    requires { AreInOrder maker.now.tokens.now }
    ensures { result ≡ constructor maker.now token }
{
    if is_constructor(named_row(maker, token)) {
        named_member(maker, token)
    } else {
        None
    }
}

fn row_of<'a>(maker: &Maker<'a>, member: MemberId) -> Option<&'a MemberRow>
    ensures { option_copied result ≡ slice_get maker.now.table.now.members member.0 }
{
    let table = maker.table;
    if member.0 < table.members() {
        Some(table.member_row(member))
    } else {
        None
    }
}

fn base_of(maker: &Maker<'_>) -> Option<TypeId>
    ensures { result ≡ base_of (slice_get maker.now.table.now.types maker.now.class.0) }
{
    if maker.class.0 < maker.table.types() {
        maker.table.type_row(maker.class).base
    } else {
        None
    }
}

/// Whether it is a constructor of the class itself.
pub(crate) fn is_same(maker: &Maker<'_>, callee: MemberId) -> bool
    ensures { result ≡ is_same maker.now callee }
{
    match row_of(maker, callee) {
        Some(row) => is_of_same(maker, row),
        None => false,
    }
}

fn is_of_same(maker: &Maker<'_>, row: &MemberRow) -> bool
    ensures { result ≡ is_of_same maker.now row.now }
{
    row.owner.0 == maker.class.0
}

fn is_type(base: Option<TypeId>, ty: TypeId) -> bool
    ensures { result ≡ is_type base ty }
{
    match base {
        Some(base) => base.0 == ty.0,
        None => false,
    }
}

// Whether it may be called behind the stores.
fn may_call(maker: &Maker<'_>, row: &MemberRow, stores: &[Store]) -> bool
    ensures { result ≡ may_call maker.now row.now stores.now }
{
    is_type(base_of(maker), row.owner) || (is_of_same(maker, row) && are_none(stores))
}

fn are_none(stores: &[Store]) -> bool
    ensures { result ≡ are_none stores.now }
{
    stores.is_empty()
}

/// The head that the beginning is with the call of this constructor.
pub(crate) fn ended(
    alloc: Global,
    maker: &Maker<'_>,
    end: usize,
    callee: MemberId,
    begun: Begun,
) -> Result<Option<Head>, NoMemory>
    requires { end < 2 ^ 32 }
    ensures { IfOk result (λ head. head ≡ ended maker.now end callee begun) }
{
    let Some(row) = row_of(maker, callee) else {
        return Ok(None);
    };
    let Begun { stores, stack } = begun;
    let Some((receiver, items)) = split(stack) else {
        return Ok(None);
    };
    if !are_made(items.items())
        || items.len() != row.params.len()
        || !may_call(maker, row, stores.items())
    {
        return Ok(None);
    }
    let arguments = Seq::of(values(alloc, items)?);
    Ok(Some(Head {
        stores,
        receiver,
        arguments,
        call: end as u32,
        callee,
    }))
}

// The `this` at the bottom of a stack, and what is above it.
fn split(stack: Seq<Item>) -> Option<(u32, Seq<Item>)>
    ensures { result ≡ split stack }
{
    let mut items = stack.into_vec();
    if items.is_empty() {
        return None;
    }
    match items.remove(0) {
        Item::This(receiver) => Some((receiver, Seq::of(items))),
        Item::Made(_) => None,
    }
}
