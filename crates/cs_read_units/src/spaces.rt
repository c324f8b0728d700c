// Namespaces and whole texts.

ghost use Rattle.std.specs.Prelude.{◌≡◌, true, [], ◌∷◌};
ghost use Rattle.cs_grammar.specs.Grammar.{turns};
ghost use Rattle.cs_grammar.specs.Reads.{Reads};
ghost use Rattle.cs_productions.specs.Kinds.{dot, kw_namespace};
ghost use Rattle.cs_productions.specs.Tokens.{kind as kind_of};
ghost use Rattle.cs_units.specs.Kinds.{decl_kinds};
ghost use Rattle.cs_units.specs.Declarations.{one_more_step as one_more_step_of, placed_path as placed_path_of, one_more_type as one_more_type_of, of_namespace as of_namespace_of, one_space as one_space_of, one_more_space as one_more_space_of, type_at, unit_at};
ghost use Rattle.cs_read_calls.specs.Asked.{inner_of, Asked};

use crate::bodies::type_in_text;
use cs_grammar::Fault;
use cs_lex::{Cursor, begins, expect};
use cs_read_calls::{Ask, Got, Level};
use cs_read_modifiers::kinds::{DECLARATIONS, KW_NAMESPACE, SPACES};
use cs_read_types::kinds::{BRACE, DOT, UNBRACE};
use cs_read_types::{any_name, name_text, place};
use cs_tree::{Decl, Path, Space, Unit};
use dc_base::{Items, Or, Seq};
use std::alloc::Global;

fn one_more_step(alloc: Global, tokens: &mut Cursor, before: Path) -> Result<Path, Or<Fault>>
    ensures { Reads ((one_more_step_of before).reads tokens.old) result tokens.new }
{
    expect(tokens, DOT)?;
    let next = name_text(alloc, tokens)?;
    let Path { spot, mut names } = before;
    names.push(next)?;
    Ok(Path { spot, names })
}

fn more_steps(alloc: Global, tokens: &mut Cursor, first: Path) -> Result<Path, Or<Fault>>
    ensures { Reads ((turns kind_of (dot ∷ []) (λ _. true) one_more_step_of first).reads tokens.old) result tokens.new }
{
    let mut path = first;
    'turns: for _ in 0..tokens.left() {
        if !begins(tokens, &[DOT]) {
            return Ok(path);
        }
        path = one_more_step(alloc, tokens, path)?;
    }
    Ok(path)
}

/// The path of a namespace.
pub fn placed_path(alloc: Global, tokens: &mut Cursor) -> Result<Path, Or<Fault>>
    ensures { Reads (placed_path_of.reads tokens.old) result tokens.new }
{
    let first = any_name(alloc, tokens)?;
    let mut names = Seq::new(alloc);
    names.push(first.text)?;
    let first = Path {
        spot: first.spot,
        names,
    };
    more_steps(alloc, tokens, first)
}

fn one_more_type<F: Fn(Global, &mut Cursor, Ask) -> Result<Got, Or<Fault>>>(
    level: &Level<F>,
    alloc: Global,
    tokens: &mut Cursor,
    nesting: u16,
    mut before: Items<Decl>,
) -> Result<Items<Decl>, Or<Fault>>
    requires callable { F.IsAlwaysCallable level.now.read }
    requires exact { (alloc : _) (tokens : _) (ask : _) (result : _) (after : _) → F.post level.now.read alloc tokens ask result after → Asked level.now.at ask tokens.now result after.now }
    ensures { Reads ((one_more_type_of (type_at (inner_of level.now.at) nesting) before).reads tokens.old) result tokens.new }
{
    let next = type_in_text(level, alloc, tokens, nesting)?;
    before.push(next)?;
    Ok(before)
}

fn types<F: Fn(Global, &mut Cursor, Ask) -> Result<Got, Or<Fault>>>(
    level: &Level<F>,
    alloc: Global,
    tokens: &mut Cursor,
    nesting: u16,
) -> Result<Items<Decl>, Or<Fault>>
    requires callable { F.IsAlwaysCallable level.now.read }
    requires exact { (alloc : _) (tokens : _) (ask : _) (result : _) (after : _) → F.post level.now.read alloc tokens ask result after → Asked level.now.at ask tokens.now result after.now }
    ensures { Reads ((turns kind_of decl_kinds (λ _. true) (one_more_type_of (type_at (inner_of level.now.at) nesting)) []).reads tokens.old) result tokens.new }
{
    let mut so_far = Items::new(alloc);
    'turns: for _ in 0..tokens.left() {
        if !begins(tokens, &DECLARATIONS) {
            return Ok(so_far);
        }
        so_far = one_more_type(level, alloc, tokens, nesting, so_far)?;
    }
    Ok(so_far)
}

fn namespace<F: Fn(Global, &mut Cursor, Ask) -> Result<Got, Or<Fault>>>(
    level: &Level<F>,
    alloc: Global,
    tokens: &mut Cursor,
    nesting: u16,
) -> Result<Space, Or<Fault>>
    requires callable { F.IsAlwaysCallable level.now.read }
    requires exact { (alloc : _) (tokens : _) (ask : _) (result : _) (after : _) → F.post level.now.read alloc tokens ask result after → Asked level.now.at ask tokens.now result after.now }
    ensures { Reads ((of_namespace_of (type_at (inner_of level.now.at) nesting)).reads tokens.old) result tokens.new }
{
    let spot = place(tokens, KW_NAMESPACE)?;
    let path = placed_path(alloc, tokens)?;
    expect(tokens, BRACE)?;
    let types = types(level, alloc, tokens, nesting)?;
    expect(tokens, UNBRACE)?;
    Ok(Space::Namespace {
        spot,
        note: None,
        path,
        types,
    })
}

fn space<F: Fn(Global, &mut Cursor, Ask) -> Result<Got, Or<Fault>>>(
    level: &Level<F>,
    alloc: Global,
    tokens: &mut Cursor,
    nesting: u16,
) -> Result<Space, Or<Fault>>
    requires callable { F.IsAlwaysCallable level.now.read }
    requires exact { (alloc : _) (tokens : _) (ask : _) (result : _) (after : _) → F.post level.now.read alloc tokens ask result after → Asked level.now.at ask tokens.now result after.now }
    ensures { Reads ((one_space_of (type_at (inner_of level.now.at) nesting)).reads tokens.old) result tokens.new }
{
    if begins(tokens, &[KW_NAMESPACE]) {
        return namespace(level, alloc, tokens, nesting);
    }
    let decl = type_in_text(level, alloc, tokens, nesting)?;
    Ok(Space::Type { decl })
}

fn one_more_space<F: Fn(Global, &mut Cursor, Ask) -> Result<Got, Or<Fault>>>(
    level: &Level<F>,
    alloc: Global,
    tokens: &mut Cursor,
    nesting: u16,
    mut before: Items<Space>,
) -> Result<Items<Space>, Or<Fault>>
    requires callable { F.IsAlwaysCallable level.now.read }
    requires exact { (alloc : _) (tokens : _) (ask : _) (result : _) (after : _) → F.post level.now.read alloc tokens ask result after → Asked level.now.at ask tokens.now result after.now }
    ensures { Reads ((one_more_space_of (type_at (inner_of level.now.at) nesting) before).reads tokens.old) result tokens.new }
{
    let next = space(level, alloc, tokens, nesting)?;
    before.push(next)?;
    Ok(before)
}

fn spaces<F: Fn(Global, &mut Cursor, Ask) -> Result<Got, Or<Fault>>>(
    level: &Level<F>,
    alloc: Global,
    tokens: &mut Cursor,
    nesting: u16,
) -> Result<Items<Space>, Or<Fault>>
    requires callable { F.IsAlwaysCallable level.now.read }
    requires exact { (alloc : _) (tokens : _) (ask : _) (result : _) (after : _) → F.post level.now.read alloc tokens ask result after → Asked level.now.at ask tokens.now result after.now }
    ensures { Reads ((turns kind_of (kw_namespace ∷ decl_kinds) (λ _. true) (one_more_space_of (type_at (inner_of level.now.at) nesting)) []).reads tokens.old) result tokens.new }
{
    let mut so_far = Items::new(alloc);
    'turns: for _ in 0..tokens.left() {
        if !begins(tokens, &SPACES) {
            return Ok(so_far);
        }
        so_far = one_more_space(level, alloc, tokens, nesting, so_far)?;
    }
    Ok(so_far)
}

/// A whole text, whose types have so many types open in one another. It leaves the tokens that begin no further part.
pub fn unit<F: Fn(Global, &mut Cursor, Ask) -> Result<Got, Or<Fault>>>(
    level: &Level<F>,
    alloc: Global,
    tokens: &mut Cursor,
    nesting: u16,
) -> Result<Unit, Or<Fault>>
    requires callable { F.IsAlwaysCallable level.now.read }
    requires exact { (alloc : _) (tokens : _) (ask : _) (result : _) (after : _) → F.post level.now.read alloc tokens ask result after → Asked level.now.at ask tokens.now result after.now }
    ensures { Reads ((unit_at (inner_of level.now.at) nesting).reads tokens.old) result tokens.new }
{
    let spaces = spaces(level, alloc, tokens, nesting)?;
    Ok(Unit {
        assembly: None,
        spaces,
    })
}
