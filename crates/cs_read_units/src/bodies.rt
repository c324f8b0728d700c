// Types, and what stands in them.

ghost use Rattle.std.specs.Prelude.{◌≡◌, true, [], ◌∷◌};
ghost use Rattle.cs_grammar.specs.Grammar.{one, either, turns};
ghost use Rattle.cs_grammar.specs.Reads.{Finds, Reads};
ghost use Rattle.cs_productions.specs.Kinds.{kw_enum};
ghost use Rattle.cs_productions.specs.Tokens.{kind as kind_of};
ghost use Rattle.cs_units.specs.Kinds.{body_kinds, item_kinds};
ghost use Rattle.cs_units.specs.Declarations.{kind_of_body, enum_type as enum_type_of, delegate_type as delegate_type_of, one_more_item as one_more_item_of, body_type as body_type_of, type_behind as type_behind_of, member_item as member_item_of, type_item as type_item_of, item_at, type_at};
ghost use Rattle.cs_read_calls.specs.Asked.{inner_of, Asked};

use crate::delegates::delegate_type;
use crate::enums::enum_type;
use crate::supertypes::bases;
use cs_grammar::Fault;
use cs_lex::{Cursor, begins, expect, take_one};
use cs_read_calls::{Ask, Got, Level};
use cs_read_members::{any_member, limit};
use cs_read_modifiers::kinds::{BODIES, ITEMS, KW_CLASS, KW_ENUM, KW_INTERFACE, TYPE_WORDS};
use cs_read_modifiers::{modifiers, start};
use cs_read_types::kinds::{BRACE, UNBRACE};
use cs_read_types::{any_name, spot};
use cs_tree::{Decl, Item, Kind};
use cs_units::Marked;
use dc_base::{Boxed, Items, Or};
use std::alloc::Global;

/// What a type with a body of members is, by the kind of its word.
pub fn kind(word: u16) -> Kind
    ensures { result ≡ kind_of_body word }
{
    match word {
        KW_CLASS => Kind::Class,
        KW_INTERFACE => Kind::Interface,
        _ => Kind::Struct,
    }
}

fn member_item<F: Fn(Global, &mut Cursor, Ask) -> Result<Got, Or<Fault>>>(
    level: &Level<F>,
    alloc: Global,
    tokens: &mut Cursor,
    marked: Marked,
) -> Result<Item, Or<Fault>>
    requires callable { F.IsAlwaysCallable level.now.read }
    requires exact { (alloc : _) (tokens : _) (ask : _) (result : _) (after : _) → F.post level.now.read alloc tokens ask result after → Asked level.now.at ask tokens.now result after.now }
    ensures { Reads ((member_item_of (inner_of level.now.at) marked).reads tokens.old) result tokens.new }
{
    let member = any_member(level, alloc, tokens, marked)?;
    Ok(Item::Member { member })
}

fn without_body(
    alloc: Global,
    tokens: &mut Cursor,
    limit: u16,
    marked: Marked,
) -> Result<Decl, Or<Fault>>
    ensures { Reads ((either kind_of (kw_enum ∷ []) (enum_type_of limit marked) (delegate_type_of limit marked)).reads tokens.old) result tokens.new }
{
    if begins(tokens, &[KW_ENUM]) {
        return enum_type(alloc, tokens, limit, marked);
    }
    delegate_type(alloc, tokens, limit, marked)
}

#[cycle(types)]
fn one_more_item<F: Fn(Global, &mut Cursor, Ask) -> Result<Got, Or<Fault>>>(
    level: &Level<F>,
    alloc: Global,
    tokens: &mut Cursor,
    nesting: u16,
    mut before: Items<Item>,
) -> Result<Items<Item>, Or<Fault>>
    requires callable { F.IsAlwaysCallable level.now.read }
    requires exact { (alloc : _) (tokens : _) (ask : _) (result : _) (after : _) → F.post level.now.read alloc tokens ask result after → Asked level.now.at ask tokens.now result after.now }
    ensures { Reads ((one_more_item_of (item_at (inner_of level.now.at) nesting) before).reads tokens.old) result tokens.new }
{
    let next = item(level, alloc, tokens, nesting)?;
    before.push(next)?;
    Ok(before)
}

#[cycle(types)]
fn items<F: Fn(Global, &mut Cursor, Ask) -> Result<Got, Or<Fault>>>(
    level: &Level<F>,
    alloc: Global,
    tokens: &mut Cursor,
    nesting: u16,
) -> Result<Items<Item>, Or<Fault>>
    requires callable { F.IsAlwaysCallable level.now.read }
    requires exact { (alloc : _) (tokens : _) (ask : _) (result : _) (after : _) → F.post level.now.read alloc tokens ask result after → Asked level.now.at ask tokens.now result after.now }
    ensures { Reads ((turns kind_of item_kinds (λ _. true) (one_more_item_of (item_at (inner_of level.now.at) nesting)) []).reads tokens.old) result tokens.new }
{
    let mut so_far = Items::new(alloc);
    'turns: for _ in 0..tokens.left() {
        if !begins(tokens, &ITEMS) {
            return Ok(so_far);
        }
        so_far = one_more_item(level, alloc, tokens, nesting, so_far)?;
    }
    Ok(so_far)
}

#[cycle(types)]
fn body_type<F: Fn(Global, &mut Cursor, Ask) -> Result<Got, Or<Fault>>>(
    level: &Level<F>,
    alloc: Global,
    tokens: &mut Cursor,
    nesting: u16,
    marked: Marked,
) -> Result<Decl, Or<Fault>>
    requires callable { F.IsAlwaysCallable level.now.read }
    requires exact { (alloc : _) (tokens : _) (ask : _) (result : _) (after : _) → F.post level.now.read alloc tokens ask result after → Asked level.now.at ask tokens.now result after.now }
    ensures { Reads ((body_type_of (inner_of level.now.at) (item_at (inner_of level.now.at) nesting) marked).reads tokens.old) result tokens.new }
{
    let word = take_one(tokens, &BODIES)?;
    let name = any_name(alloc, tokens)?;
    let bases = bases(alloc, tokens, limit(level))?;
    expect(tokens, BRACE)?;
    let items = items(level, alloc, tokens, nesting)?;
    expect(tokens, UNBRACE)?;
    Ok(Decl::Body {
        spot: start(&marked, spot(&word)),
        note: None,
        mods: marked.mods,
        kind: kind(word.kind()),
        name,
        bases,
        items,
    })
}

#[cycle(types)]
fn type_behind<F: Fn(Global, &mut Cursor, Ask) -> Result<Got, Or<Fault>>>(
    level: &Level<F>,
    alloc: Global,
    tokens: &mut Cursor,
    nesting: u16,
    marked: Marked,
) -> Result<Decl, Or<Fault>>
    requires callable { F.IsAlwaysCallable level.now.read }
    requires exact { (alloc : _) (tokens : _) (ask : _) (result : _) (after : _) → F.post level.now.read alloc tokens ask result after → Asked level.now.at ask tokens.now result after.now }
    ensures { Reads ((type_behind_of (inner_of level.now.at) (item_at (inner_of level.now.at) nesting) marked).reads tokens.old) result tokens.new }
{
    if begins(tokens, &BODIES) {
        return body_type(level, alloc, tokens, nesting, marked);
    }
    without_body(alloc, tokens, limit(level), marked)
}

#[cycle(types)]
fn type_item<F: Fn(Global, &mut Cursor, Ask) -> Result<Got, Or<Fault>>>(
    level: &Level<F>,
    alloc: Global,
    tokens: &mut Cursor,
    nesting: u16,
    marked: Marked,
) -> Result<Item, Or<Fault>>
    requires callable { F.IsAlwaysCallable level.now.read }
    requires exact { (alloc : _) (tokens : _) (ask : _) (result : _) (after : _) → F.post level.now.read alloc tokens ask result after → Asked level.now.at ask tokens.now result after.now }
    ensures { Reads ((type_item_of (inner_of level.now.at) (item_at (inner_of level.now.at) nesting) marked).reads tokens.old) result tokens.new }
{
    let decl = type_behind(level, alloc, tokens, nesting, marked)?;
    let decl = Boxed::new(alloc, decl)?;
    Ok(Item::Type { decl })
}

#[cycle(types)]
/// What stands in a type, in which so many types may be open in one another.
pub fn item<F: Fn(Global, &mut Cursor, Ask) -> Result<Got, Or<Fault>>>(
    level: &Level<F>,
    alloc: Global,
    tokens: &mut Cursor,
    nesting: u16,
) -> Result<Item, Or<Fault>>
    requires callable { F.IsAlwaysCallable level.now.read }
    requires exact { (alloc : _) (tokens : _) (ask : _) (result : _) (after : _) → F.post level.now.read alloc tokens ask result after → Asked level.now.at ask tokens.now result after.now }
    ensures { Reads ((item_at (inner_of level.now.at) nesting).reads tokens.old) result tokens.new }
{
    let marked = modifiers(tokens)?;
    if !begins(tokens, &TYPE_WORDS) {
        return member_item(level, alloc, tokens, marked);
    }
    if nesting == 0 {
        return Err(Or::Fault(Fault::TooDeep));
    }
    type_item(level, alloc, tokens, nesting - 1, marked)
}

/// A type, in which so many types may be open in one another.
pub fn type_in_text<F: Fn(Global, &mut Cursor, Ask) -> Result<Got, Or<Fault>>>(
    level: &Level<F>,
    alloc: Global,
    tokens: &mut Cursor,
    nesting: u16,
) -> Result<Decl, Or<Fault>>
    requires callable { F.IsAlwaysCallable level.now.read }
    requires exact { (alloc : _) (tokens : _) (ask : _) (result : _) (after : _) → F.post level.now.read alloc tokens ask result after → Asked level.now.at ask tokens.now result after.now }
    ensures { Reads ((type_at (inner_of level.now.at) nesting).reads tokens.old) result tokens.new }
{
    let marked = modifiers(tokens)?;
    type_behind(level, alloc, tokens, nesting, marked)
}
