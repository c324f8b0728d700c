// Types, and what stands in them.

ghost use Rattle.std.specs.Prelude.{◌≡◌, true, [], ◌∷◌};
ghost use Rattle.cs_grammar.specs.Grammar.{one, either, turns};
ghost use Rattle.cs_grammar.specs.Reads.{Finds, Reads};
ghost use Rattle.cs_productions.specs.Kinds.{kw_enum};
ghost use Rattle.cs_productions.specs.Tokens.{kind as kind_of};
ghost use Rattle.cs_units.specs.Kinds.{body_kinds, item_kinds};
ghost use Rattle.cs_units.specs.Declarations.{enum_type as enum_type_of, delegate_type as delegate_type_of, one_more_item as one_more_item_of};
ghost use Rattle.cs_references.specs.Declarations.{body_type as body_type_of, type_behind as type_behind_of, member_item as member_item_of, type_item as type_item_of, item_at, type_at};

use crate::kinds_of_members::any_member;
use cs_grammar::Fault;
use cs_lex::{Cursor, begins, expect, take_one};
use cs_read_modifiers::kinds::{BODIES, ITEMS, KW_ENUM, TYPE_WORDS};
use cs_read_modifiers::{modifiers, start};
use cs_read_types::kinds::{BRACE, UNBRACE};
use cs_read_types::{any_name, spot};
use cs_read_units::{bases, delegate_type, enum_type, kind};
use cs_tree::{Decl, Item};
use cs_units::Marked;
use dc_base::{Boxed, Items, Or};
use std::alloc::Global;

fn member_item(
    alloc: Global,
    tokens: &mut Cursor,
    limit: u16,
    marked: Marked,
) -> Result<Item, Or<Fault>>
    ensures { Reads ((member_item_of limit marked).reads tokens.old) result tokens.new }
{
    let member = any_member(alloc, tokens, limit, marked)?;
    Ok(Item::Member { member })
}

fn without_body(
    alloc: Global,
    tokens: &mut Cursor,
    limit: u16,
    marked: Marked,
) -> Result<Decl, Or<Fault>>
    ensures { Reads ((either kind_of (kw_enum ∷ []) (enum_type_of limit marked) (delegate_type_of limit marked)).reads tokens.old) result tokens.new }
{
    if begins(tokens, &[KW_ENUM]) {
        return enum_type(alloc, tokens, limit, marked);
    }
    delegate_type(alloc, tokens, limit, marked)
}

#[cycle(types)]
fn one_more_item(
    alloc: Global,
    tokens: &mut Cursor,
    limit: u16,
    nesting: u16,
    mut before: Items<Item>,
) -> Result<Items<Item>, Or<Fault>>
    ensures { Reads ((one_more_item_of (item_at limit nesting) before).reads tokens.old) result tokens.new }
{
    let next = item(alloc, tokens, limit, nesting)?;
    before.push(next)?;
    Ok(before)
}

#[cycle(types)]
fn items(
    alloc: Global,
    tokens: &mut Cursor,
    limit: u16,
    nesting: u16,
) -> Result<Items<Item>, Or<Fault>>
    ensures { Reads ((turns kind_of item_kinds (λ _. true) (one_more_item_of (item_at limit nesting)) []).reads tokens.old) result tokens.new }
{
    let mut so_far = Items::new(alloc);
    'turns: for _ in 0..tokens.left() {
        if !begins(tokens, &ITEMS) {
            return Ok(so_far);
        }
        so_far = one_more_item(alloc, tokens, limit, nesting, so_far)?;
    }
    Ok(so_far)
}

#[cycle(types)]
fn body_type(
    alloc: Global,
    tokens: &mut Cursor,
    limit: u16,
    nesting: u16,
    marked: Marked,
) -> Result<Decl, Or<Fault>>
    ensures { Reads ((body_type_of limit (item_at limit nesting) marked).reads tokens.old) result tokens.new }
{
    let word = take_one(tokens, &BODIES)?;
    let name = any_name(alloc, tokens)?;
    let bases = bases(alloc, tokens, limit)?;
    expect(tokens, BRACE)?;
    let items = items(alloc, tokens, limit, nesting)?;
    expect(tokens, UNBRACE)?;
    Ok(Decl::Body {
        spot: start(&marked, spot(&word)),
        note: None,
        mods: marked.mods,
        kind: kind(word.kind()),
        name,
        bases,
        items,
    })
}

#[cycle(types)]
fn type_behind(
    alloc: Global,
    tokens: &mut Cursor,
    limit: u16,
    nesting: u16,
    marked: Marked,
) -> Result<Decl, Or<Fault>>
    ensures { Reads ((type_behind_of limit (item_at limit nesting) marked).reads tokens.old) result tokens.new }
{
    if begins(tokens, &BODIES) {
        return body_type(alloc, tokens, limit, nesting, marked);
    }
    without_body(alloc, tokens, limit, marked)
}

#[cycle(types)]
fn type_item(
    alloc: Global,
    tokens: &mut Cursor,
    limit: u16,
    nesting: u16,
    marked: Marked,
) -> Result<Item, Or<Fault>>
    ensures { Reads ((type_item_of limit (item_at limit nesting) marked).reads tokens.old) result tokens.new }
{
    let decl = type_behind(alloc, tokens, limit, nesting, marked)?;
    let decl = Boxed::new(alloc, decl)?;
    Ok(Item::Type { decl })
}

#[cycle(types)]
/// What stands in a type, in which so many types may be open in one another.
pub fn item(alloc: Global, tokens: &mut Cursor, limit: u16, nesting: u16) -> Result<Item, Or<Fault>>
    ensures { Reads ((item_at limit nesting).reads tokens.old) result tokens.new }
{
    let marked = modifiers(tokens)?;
    if !begins(tokens, &TYPE_WORDS) {
        return member_item(alloc, tokens, limit, marked);
    }
    if nesting == 0 {
        return Err(Or::Fault(Fault::TooDeep));
    }
    type_item(alloc, tokens, limit, nesting - 1, marked)
}

/// A type, in which so many types may be open in one another.
pub fn type_in_text(
    alloc: Global,
    tokens: &mut Cursor,
    limit: u16,
    nesting: u16,
) -> Result<Decl, Or<Fault>>
    ensures { Reads ((type_at limit nesting).reads tokens.old) result tokens.new }
{
    let marked = modifiers(tokens)?;
    type_behind(alloc, tokens, limit, nesting, marked)
}
