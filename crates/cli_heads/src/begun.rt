// The beginning of a head, one instruction after another.

ghost use Rattle.std.specs.Prelude.{◌≡◌, ◌<◌, ◌^◌, length, IfOk};
ghost use Rattle.cli_assembly.specs.Meaning.{AreInOrder};
ghost use Rattle.cli_heads.specs.Begun.{part_of, own_field, are_made, value_in, values, known_in, knowns, rises, received, stored, this_and_one, made, built, goes_on};

use crate::head::{Store, Value};
use crate::known::{Known, known_of};
use crate::maker::Maker;
use crate::row::{makes_value, named_member, named_row, taken};
use cil_rows::Row;
use class_rows::Sort;
use dc_base::{Items, MemberId, NoMemory, Seq, Token};
use std::alloc::Global;

/// A value on the stack.
#[derive(Debug, Drop)]
pub struct Made {
    pub value: Value,
    pub known: Known,
}

/// What is on the stack: `this`, by the number of the instruction that pushes it, or a value.
#[derive(Debug, Drop)]
pub enum Item {
    This(u32),
    Made(Made),
}

/// The beginning of a head: its stores, and what is on the stack behind them, from the lowest slot up.
#[derive(Drop)]
pub struct Begun {
    pub stores: Seq<Store>,
    pub stack: Seq<Item>,
}

/// What an instruction does in a head.
#[derive(Clone, Copy, Debug, PartialEq, Eq)]
pub enum Part {
    Nothing,
    This,
    Store(Token),
    Value,
}

fn part_of(row: &Row) -> Part
    ensures { result ≡ part_of row.now }
{
    match row {
        Row::Nop => Part::Nothing,
        Row::LoadArgument(0) => Part::This,
        Row::StoreField(token) => Part::Store(*token),
        _ => Part::Value,
    }
}

// The instance field of the class that a token names.
fn own_field(maker: &Maker<'_>, token: Token) -> Option<MemberId>
    requires { AreInOrder maker.now.tokens.now }
    ensures { result ≡ own_field maker.now token }
{
    let row = named_row(maker, token)?;
    if row.kind.sort() == Sort::Field && !row.is_static && row.owner == maker.class {
        named_member(maker, token)
    } else {
        None
    }
}

impl Begun {
    /// The beginning that this one is with instruction k.
    pub(crate) fn with(
        self,
        alloc: Global,
        maker: &Maker<'_>,
        k: usize,
        row: &Row,
    ) -> Result<Option<Begun>, NoMemory>
        requires order { AreInOrder maker.now.tokens.now }
        requires few { k < 2 ^ 32 }
        ensures { IfOk result (λ more. more ≡ goes_on maker.now k row.now self) }
    {
        match part_of(row) {
            Part::Nothing => Ok(Some(self)),
            Part::This => self.with_receiver(k),
            Part::Store(token) => self.with_store(alloc, k, own_field(maker, token)),
            Part::Value => self.with_value(alloc, maker, k, row),
        }
    }

    // With `this` pushed.
    fn with_receiver(self, k: usize) -> Result<Option<Begun>, NoMemory>
        requires { k < 2 ^ 32 }
        ensures { IfOk result (λ more. more ≡ received k self) }
    {
        let Begun { stores, mut stack } = self;
        stack.push(Item::This(k as u32))?;
        Ok(Some(Begun { stores, stack }))
    }

    // With a store to this field of `this`.
    fn with_store(
        self,
        alloc: Global,
        k: usize,
        field: Option<MemberId>,
    ) -> Result<Option<Begun>, NoMemory>
        requires { k < 2 ^ 32 }
        ensures { IfOk result (λ more. more ≡ stored k field self) }
    {
        let Begun { stores, stack } = self;
        let Some(field) = field else {
            return Ok(None);
        };
        let Some((receiver, made)) = this_and_one(stack) else {
            return Ok(None);
        };
        if !rises(stores.items(), field) || made.known.reads {
            return Ok(None);
        }
        let mut stores = stores;
        stores.push(Store {
            receiver,
            value: made.value,
            at: k as u32,
            field,
        })?;
        Ok(Some(Begun {
            stores,
            stack: Seq::new(alloc),
        }))
    }

    // With a value, of those on the stack that the row takes.
    fn with_value(
        self,
        alloc: Global,
        maker: &Maker<'_>,
        k: usize,
        row: &Row,
    ) -> Result<Option<Begun>, NoMemory>
        requires order { AreInOrder maker.now.tokens.now }
        requires few { k < 2 ^ 32 }
        ensures { IfOk result (λ more. more ≡ made maker.now k row.now self) }
    {
        let Begun { stores, stack } = self;
        let count = taken(maker, row);
        let len = stack.len();
        if !makes_value(maker, row) || len < count {
            return Ok(None);
        }
        let mut below = stack.into_vec();
        let over = below.split_off(len - count)?;
        let Some(made) = built(alloc, maker, k, row, over)? else {
            return Ok(None);
        };
        below.push(Item::Made(made))?;
        Ok(Some(Begun {
            stores,
            stack: Seq::of(below),
        }))
    }
}

// Whether the field stands behind those stored to before.
fn rises(stores: &[Store], field: MemberId) -> bool
    ensures { result ≡ rises stores.now field }
{
    match stores.last() {
        Some(store) => store.field.0 < field.0,
        None => true,
    }
}

// A stack of `this` and one value.
fn this_and_one(stack: Seq<Item>) -> Option<(u32, Made)>
    ensures { result ≡ this_and_one stack }
{
    let mut items = stack.into_vec();
    if items.len() != 2 {
        return None;
    }
    let Some(Item::Made(made)) = items.pop() else {
        return None;
    };
    let Some(Item::This(at)) = items.pop() else {
        return None;
    };
    Some((at, made))
}

// The value that the row makes of these.
fn built(
    alloc: Global,
    maker: &Maker<'_>,
    k: usize,
    row: &Row,
    over: Vec<Item>,
) -> Result<Option<Made>, NoMemory>
    requires order { AreInOrder maker.now.tokens.now }
    requires few { k < 2 ^ 32 }
    ensures { IfOk result (λ made. made ≡ built maker.now k row.now over.items) }
{
    if !are_made(over.as_slice()) {
        return Ok(None);
    }
    let known = knowns(alloc, over.as_slice())?;
    let Some(known) = known_of(maker, row, known.as_slice()) else {
        return Ok(None);
    };
    let of = values(alloc, Seq::of(over))?;
    Ok(Some(Made {
        value: Value {
            at: k as u32,
            of: Items::from_vec(of),
        },
        known,
    }))
}

/// Whether `this` isn't among them.
pub(crate) fn are_made(items: &[Item]) -> bool
    ensures { result ≡ are_made items.now }
{
    items.iter().all(|item| matches!(item, Item::Made(_)))
}

fn knowns(alloc: Global, items: &[Item]) -> Result<Vec<Known>, NoMemory>
    ensures { IfOk result (λ of. of.items ≡ knowns items.now) }
{
    Ok(
        items
            .iter()
            .filter_map(|item| known_in(item))
            .collect(alloc)?,
    )
}

fn known_in(item: &Item) -> Option<Known>
    ensures { result ≡ known_in item.now }
{
    match item {
        Item::Made(made) => Some(made.known),
        Item::This(_) => None,
    }
}

/// The values among them, in order.
pub(crate) fn values(alloc: Global, items: Seq<Item>) -> Result<Vec<Value>, NoMemory>
    ensures { IfOk result (λ of. of.items ≡ values items) }
{
    Ok(
        items
            .into_vec()
            .into_iter()
            .filter_map(|item| value_in(item))
            .collect(alloc)?,
    )
}

fn value_in(item: Item) -> Option<Value>
    ensures { result ≡ value_in item }
{
    match item {
        Item::Made(made) => Some(made.value),
        Item::This(_) => None,
    }
}
