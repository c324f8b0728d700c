// Namespaces and whole texts.

ghost use Rattle.std.specs.Prelude.{◌≡◌, true, [], ◌∷◌};
ghost use Rattle.cs_grammar.specs.Grammar.{turns};
ghost use Rattle.cs_grammar.specs.Reads.{Reads};
ghost use Rattle.cs_productions.specs.Kinds.{dot, kw_namespace};
ghost use Rattle.cs_productions.specs.Tokens.{kind as kind_of};
ghost use Rattle.cs_units.specs.Kinds.{decl_kinds};
ghost use Rattle.cs_units.specs.Declarations.{one_more_type as one_more_type_of, of_namespace as of_namespace_of, one_space as one_space_of, one_more_space as one_more_space_of};
ghost use Rattle.cs_references.specs.Declarations.{type_at, text_at};

use crate::bodies::type_in_text;
use cs_grammar::Fault;
use cs_lex::{Cursor, begins, expect};
use cs_read_modifiers::kinds::{DECLARATIONS, KW_NAMESPACE, SPACES};
use cs_read_types::kinds::{BRACE, UNBRACE};
use cs_read_types::place;
use cs_read_units::placed_path;
use cs_tree::{Decl, Space, Unit};
use dc_base::{Items, Or};
use std::alloc::Global;

fn one_more_type(
    alloc: Global,
    tokens: &mut Cursor,
    limit: u16,
    nesting: u16,
    mut before: Items<Decl>,
) -> Result<Items<Decl>, Or<Fault>>
    ensures { Reads ((one_more_type_of (type_at limit nesting) before).reads tokens.old) result tokens.new }
{
    let next = type_in_text(alloc, tokens, limit, nesting)?;
    before.push(next)?;
    Ok(before)
}

fn types(
    alloc: Global,
    tokens: &mut Cursor,
    limit: u16,
    nesting: u16,
) -> Result<Items<Decl>, Or<Fault>>
    ensures { Reads ((turns kind_of decl_kinds (λ _. true) (one_more_type_of (type_at limit nesting)) []).reads tokens.old) result tokens.new }
{
    let mut so_far = Items::new(alloc);
    'turns: for _ in 0..tokens.left() {
        if !begins(tokens, &DECLARATIONS) {
            return Ok(so_far);
        }
        so_far = one_more_type(alloc, tokens, limit, nesting, so_far)?;
    }
    Ok(so_far)
}

fn namespace(
    alloc: Global,
    tokens: &mut Cursor,
    limit: u16,
    nesting: u16,
) -> Result<Space, Or<Fault>>
    ensures { Reads ((of_namespace_of (type_at limit nesting)).reads tokens.old) result tokens.new }
{
    let spot = place(tokens, KW_NAMESPACE)?;
    let path = placed_path(alloc, tokens)?;
    expect(tokens, BRACE)?;
    let types = types(alloc, tokens, limit, nesting)?;
    expect(tokens, UNBRACE)?;
    Ok(Space::Namespace {
        spot,
        note: None,
        path,
        types,
    })
}

fn space(alloc: Global, tokens: &mut Cursor, limit: u16, nesting: u16) -> Result<Space, Or<Fault>>
    ensures { Reads ((one_space_of (type_at limit nesting)).reads tokens.old) result tokens.new }
{
    if begins(tokens, &[KW_NAMESPACE]) {
        return namespace(alloc, tokens, limit, nesting);
    }
    let decl = type_in_text(alloc, tokens, limit, nesting)?;
    Ok(Space::Type { decl })
}

fn one_more_space(
    alloc: Global,
    tokens: &mut Cursor,
    limit: u16,
    nesting: u16,
    mut before: Items<Space>,
) -> Result<Items<Space>, Or<Fault>>
    ensures { Reads ((one_more_space_of (type_at limit nesting) before).reads tokens.old) result tokens.new }
{
    let next = space(alloc, tokens, limit, nesting)?;
    before.push(next)?;
    Ok(before)
}

fn spaces(
    alloc: Global,
    tokens: &mut Cursor,
    limit: u16,
    nesting: u16,
) -> Result<Items<Space>, Or<Fault>>
    ensures { Reads ((turns kind_of (kw_namespace ∷ decl_kinds) (λ _. true) (one_more_space_of (type_at limit nesting)) []).reads tokens.old) result tokens.new }
{
    let mut so_far = Items::new(alloc);
    'turns: for _ in 0..tokens.left() {
        if !begins(tokens, &SPACES) {
            return Ok(so_far);
        }
        so_far = one_more_space(alloc, tokens, limit, nesting, so_far)?;
    }
    Ok(so_far)
}

/// A whole reference text, whose types have so many types open in one another. It leaves the tokens that begin no further part.
pub fn reference_text(
    alloc: Global,
    tokens: &mut Cursor,
    limit: u16,
    nesting: u16,
) -> Result<Unit, Or<Fault>>
    ensures { Reads ((text_at limit nesting).reads tokens.old) result tokens.new }
{
    let spaces = spaces(alloc, tokens, limit, nesting)?;
    Ok(Unit {
        assembly: None,
        spaces,
    })
}
