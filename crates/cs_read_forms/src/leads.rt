// What begins with `global` inside parentheses: an expression, a type, or a type with a name behind it.

ghost use Rattle.std.specs.Prelude.{◌≡◌, ◌<◌, ◌≤◌, nat_lt, [], ◌∷◌};
ghost use Rattle.cs_grammar.specs.Reads.{Reads};
ghost use Rattle.cs_productions.specs.Operators.{rest_of_form as rest_of_form_of, named_led as named_led_of, array_led as array_led_of, index_led as index_led_of, bracket_led as bracket_led_of, called_led as called_led_of, unnamed_led as unnamed_led_of, path_led as path_led_of, name_led as name_led_of, lead as lead_of};
ghost use Rattle.cs_grammar.specs.Grammar.{gives, guarded};
ghost use Rattle.cs_productions.specs.Kinds.{paren};
ghost use Rattle.cs_productions.specs.Tokens.{kind};
ghost use Rattle.cs_productions.specs.Primaries.{called_path as called_path_of, path_alone};
ghost use Rattle.cs_productions.specs.Types.{global_type};
ghost use Rattle.cs_read_calls.specs.Asked.{inner_of, Asked};

use cs_grammar::Fault;
use cs_lex::{Cursor, begins, expect};
use cs_productions::{Lead, Measured, Part};
use cs_read_calls::{Ask, Got, Level, element, held, leaf};
use cs_read_operators::conditional;
use cs_read_primaries::{blocks_here, called_path, ranks_here};
use cs_read_types::kinds::{BRACKET, COLONS, EXPRESSION, NAMES, PAREN, UNBRACKET};
use cs_read_types::{any_name, global_leaf, path, ranks};
use cs_tree::{Form, Spot, TypeForm, TypeName};
use dc_base::{Or, Seq, Text};
use std::alloc::Global;

fn alone(spot: Spot, path: Seq<Text>) -> Measured
    ensures { result ≡ path_alone spot path }
{
    leaf(Form::Global { spot, path }, spot)
}

fn by_path(spot: Spot, path: Seq<Text>) -> TypeForm
    ensures { result ≡ global_type spot path }
{
    TypeForm {
        spot,
        name: TypeName::Global { path },
        ranks: 0,
    }
}

fn rest_of_form<F: Fn(Global, &mut Cursor, Ask) -> Result<Got, Or<Fault>>>(
    level: &Level<F>,
    alloc: Global,
    tokens: &mut Cursor,
    first: Measured,
) -> Result<Lead, Or<Fault>>
    requires callable { F.IsAlwaysCallable level.now.read }
    requires exact { (alloc : _) (tokens : _) (ask : _) (result : _) (after : _) → F.post level.now.read alloc tokens ask result after → Asked level.now.at ask tokens.now result after.now }
    ensures { Reads ((rest_of_form_of level.now.at.left (inner_of level.now.at) first).reads tokens.old) result tokens.new }
{
    let read = conditional(level, alloc, tokens, first)?;
    Ok(Lead::Form { read })
}

fn named_led(alloc: Global, tokens: &mut Cursor, ty: TypeForm) -> Result<Lead, Or<Fault>>
    ensures { Reads ((named_led_of ty).reads tokens.old) result tokens.new }
{
    let name = any_name(alloc, tokens)?;
    Ok(Lead::Named { ty, name })
}

fn array_led(
    alloc: Global,
    tokens: &mut Cursor,
    blocks: u16,
    limit: u16,
    ty: TypeForm,
) -> Result<Lead, Or<Fault>>
    requires { ty.ranks < 65536 }
    ensures { Reads ((array_led_of blocks limit ty).reads tokens.old) result tokens.new }
{
    expect(tokens, UNBRACKET)?;
    let array = TypeForm {
        ranks: ty.ranks + 1,
        ..ty
    };
    let ty = ranks(tokens, limit, array)?;
    if !begins(tokens, &NAMES) {
        return Ok(Lead::Type { ty });
    }
    if blocks == 0 {
        return Err(Or::Fault(Fault::TooDeep));
    }
    named_led(alloc, tokens, ty)
}

fn index_led<F: Fn(Global, &mut Cursor, Ask) -> Result<Got, Or<Fault>>>(
    level: &Level<F>,
    alloc: Global,
    tokens: &mut Cursor,
    array: Measured,
) -> Result<Lead, Or<Fault>>
    requires callable { F.IsAlwaysCallable level.now.read }
    requires exact { (alloc : _) (tokens : _) (ask : _) (result : _) (after : _) → F.post level.now.read alloc tokens ask result after → Asked level.now.at ask tokens.now result after.now }
    requires within { array.height ≤ level.now.at.left }
    ensures { Reads ((index_led_of level.now.at.left (inner_of level.now.at) array).reads tokens.old) result tokens.new }
{
    let _levels = level.levels();
    let array = held(alloc, array)?;
    let index = level.form(alloc, tokens, Part::Whole)?;
    expect(tokens, UNBRACKET)?;
    let element = element(alloc, array, index)?;
    let first = level.postfixes(alloc, tokens, element)?;
    rest_of_form(level, alloc, tokens, first)
}

fn bracket_led<F: Fn(Global, &mut Cursor, Ask) -> Result<Got, Or<Fault>>>(
    level: &Level<F>,
    alloc: Global,
    tokens: &mut Cursor,
    spot: Spot,
    path: Seq<Text>,
) -> Result<Lead, Or<Fault>>
    requires callable { F.IsAlwaysCallable level.now.read }
    requires exact { (alloc : _) (tokens : _) (ask : _) (result : _) (after : _) → F.post level.now.read alloc tokens ask result after → Asked level.now.at ask tokens.now result after.now }
    ensures { Reads ((bracket_led_of level.now.at.left (inner_of level.now.at) spot path).reads tokens.old) result tokens.new }
{
    expect(tokens, BRACKET)?;
    if !begins(tokens, &EXPRESSION) {
        return array_led(
            alloc,
            tokens,
            blocks_here(level),
            ranks_here(level),
            by_path(spot, path),
        );
    }
    if level.levels() == 0 {
        return Err(Or::Fault(Fault::TooDeep));
    }
    index_led(level, alloc, tokens, alone(spot, path))
}

fn called_or_alone<F: Fn(Global, &mut Cursor, Ask) -> Result<Got, Or<Fault>>>(
    level: &Level<F>,
    alloc: Global,
    tokens: &mut Cursor,
    spot: Spot,
    path: Seq<Text>,
) -> Result<Measured, Or<Fault>>
    requires callable { F.IsAlwaysCallable level.now.read }
    requires exact { (alloc : _) (tokens : _) (ask : _) (result : _) (after : _) → F.post level.now.read alloc tokens ask result after → Asked level.now.at ask tokens.now result after.now }
    ensures { Reads ((guarded kind (nat_lt 0 level.now.at.left) (paren ∷ []) (called_path_of level.now.at.left (inner_of level.now.at) spot path) (gives (path_alone spot path))).reads tokens.old) result tokens.new }
{
    if !begins(tokens, &[PAREN]) {
        return Ok(alone(spot, path));
    }
    if level.levels() == 0 {
        return Err(Or::Fault(Fault::TooDeep));
    }
    called_path(level, alloc, tokens, spot, path)
}

fn called_led<F: Fn(Global, &mut Cursor, Ask) -> Result<Got, Or<Fault>>>(
    level: &Level<F>,
    alloc: Global,
    tokens: &mut Cursor,
    spot: Spot,
    path: Seq<Text>,
) -> Result<Lead, Or<Fault>>
    requires callable { F.IsAlwaysCallable level.now.read }
    requires exact { (alloc : _) (tokens : _) (ask : _) (result : _) (after : _) → F.post level.now.read alloc tokens ask result after → Asked level.now.at ask tokens.now result after.now }
    ensures { Reads ((called_led_of level.now.at.left (inner_of level.now.at) spot path).reads tokens.old) result tokens.new }
{
    let first = called_or_alone(level, alloc, tokens, spot, path)?;
    rest_of_form(level, alloc, tokens, first)
}

fn unnamed_led<F: Fn(Global, &mut Cursor, Ask) -> Result<Got, Or<Fault>>>(
    level: &Level<F>,
    alloc: Global,
    tokens: &mut Cursor,
    spot: Spot,
    path: Seq<Text>,
) -> Result<Lead, Or<Fault>>
    requires callable { F.IsAlwaysCallable level.now.read }
    requires exact { (alloc : _) (tokens : _) (ask : _) (result : _) (after : _) → F.post level.now.read alloc tokens ask result after → Asked level.now.at ask tokens.now result after.now }
    ensures { Reads ((unnamed_led_of level.now.at.left (inner_of level.now.at) spot path).reads tokens.old) result tokens.new }
{
    if begins(tokens, &[BRACKET]) {
        return bracket_led(level, alloc, tokens, spot, path);
    }
    called_led(level, alloc, tokens, spot, path)
}

fn path_led<F: Fn(Global, &mut Cursor, Ask) -> Result<Got, Or<Fault>>>(
    level: &Level<F>,
    alloc: Global,
    tokens: &mut Cursor,
    spot: Spot,
) -> Result<Lead, Or<Fault>>
    requires callable { F.IsAlwaysCallable level.now.read }
    requires exact { (alloc : _) (tokens : _) (ask : _) (result : _) (after : _) → F.post level.now.read alloc tokens ask result after → Asked level.now.at ask tokens.now result after.now }
    ensures { Reads ((path_led_of level.now.at.left (inner_of level.now.at) spot).reads tokens.old) result tokens.new }
{
    expect(tokens, COLONS)?;
    let path = path(alloc, tokens)?;
    if !begins(tokens, &NAMES) {
        return unnamed_led(level, alloc, tokens, spot, path);
    }
    if blocks_here(level) == 0 {
        return Err(Or::Fault(Fault::TooDeep));
    }
    named_led(alloc, tokens, by_path(spot, path))
}

fn name_led<F: Fn(Global, &mut Cursor, Ask) -> Result<Got, Or<Fault>>>(
    level: &Level<F>,
    alloc: Global,
    tokens: &mut Cursor,
    name: Measured,
) -> Result<Lead, Or<Fault>>
    requires callable { F.IsAlwaysCallable level.now.read }
    requires exact { (alloc : _) (tokens : _) (ask : _) (result : _) (after : _) → F.post level.now.read alloc tokens ask result after → Asked level.now.at ask tokens.now result after.now }
    ensures { Reads ((name_led_of level.now.at.left (inner_of level.now.at) name).reads tokens.old) result tokens.new }
{
    let first = level.postfixes(alloc, tokens, name)?;
    rest_of_form(level, alloc, tokens, first)
}

/// What begins with `global` inside parentheses.
pub fn lead<F: Fn(Global, &mut Cursor, Ask) -> Result<Got, Or<Fault>>>(
    level: &Level<F>,
    alloc: Global,
    tokens: &mut Cursor,
) -> Result<Lead, Or<Fault>>
    requires callable { F.IsAlwaysCallable level.now.read }
    requires exact { (alloc : _) (tokens : _) (ask : _) (result : _) (after : _) → F.post level.now.read alloc tokens ask result after → Asked level.now.at ask tokens.now result after.now }
    ensures { Reads ((lead_of level.now.at.left (inner_of level.now.at)).reads tokens.old) result tokens.new }
{
    let name = global_leaf(alloc, tokens)?;
    if begins(tokens, &[COLONS]) {
        return path_led(level, alloc, tokens, name.spot);
    }
    name_led(level, alloc, tokens, name)
}
