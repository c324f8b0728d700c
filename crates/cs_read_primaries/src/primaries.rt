// Primary expressions without parentheses.

ghost use Rattle.std.specs.Prelude.{◌≡◌, ◌<◌, ◌≤◌, nat_lt, [], ◌∷◌};
ghost use Rattle.cs_grammar.specs.Reads.{Reads};
ghost use Rattle.cs_productions.specs.Calls.{called as called_of};
ghost use Rattle.cs_grammar.specs.Grammar.{gives, guarded};
ghost use Rattle.cs_productions.specs.Kinds.{bracket};
ghost use Rattle.cs_productions.specs.Tokens.{kind as kind_of, leaf as leaf_of};
ghost use Rattle.cs_tree.specs.declared.forms.Form.TheVariants.{BaseMember};
ghost use Rattle.cs_productions.specs.Primaries.{base_call, path_alone, of_base as of_base_of, called_path as called_path_of, indexed as indexed_of, behind_path as behind_path_of, global_path as global_path_of, of_global as of_global_of, of_new_object as of_new_object_of, with_member as with_member_of, behind_array as behind_array_of, of_new_array as of_new_array_of, of_new as of_new_of, of_default as of_default_of, of_checked as of_checked_of, of_simple as of_simple_of};
ghost use Rattle.cs_read_calls.specs.Asked.{inner_of, Asked};

use crate::nodes::{checked, new_array};
use cs_grammar::Fault;
use cs_lex::{Cursor, begins, expect, take_one};
use cs_productions::{Args, Measured, Part};
use cs_read_calls::{Ask, Got, Level, held, leaf, raised, raised_call, too_deep};
use cs_read_types::kinds::{
    BRACKET, COLONS, DOT, KW_BASE, KW_CHECKED, KW_DEFAULT, KW_NEW, KW_UNCHECKED, PAREN, UNBRACKET,
    UNPAREN,
};
use cs_read_types::{any_name, global_leaf, named_type, path, place, ranks, simple, ty};
use cs_tree::{Form, Name, Spot, TypeForm};
use dc_base::{Or, Seq, Text};
use std::alloc::Global;

/// How many pairs of brackets a type may have.
pub fn ranks_here<F>(level: &Level<F>) -> u16
    ensures { result ≡ (inner_of level.now.at).ranks }
{
    level.at.ranks
}

/// How many blocks may be opened in one another from here on.
pub fn blocks_here<F>(level: &Level<F>) -> u16
    ensures { result ≡ (inner_of level.now.at).blocks }
{
    level.at.blocks
}

fn base_member<F: Fn(Global, &mut Cursor, Ask) -> Result<Got, Or<Fault>>>(
    level: &Level<F>,
    alloc: Global,
    tokens: &mut Cursor,
    spot: Spot,
    name: Name,
) -> Result<Measured, Or<Fault>>
    requires callable { F.IsAlwaysCallable level.now.read }
    requires exact { (alloc : _) (tokens : _) (ask : _) (result : _) (after : _) → F.post level.now.read alloc tokens ask result after → Asked level.now.at ask tokens.now result after.now }
    ensures { Reads ((called_of level.now.at.left (inner_of level.now.at) 0 (base_call spot name) (leaf_of (BaseMember spot name) spot)).reads tokens.old) result tokens.new }
{
    if !begins(tokens, &[PAREN]) {
        return Ok(leaf(Form::BaseMember { spot, name }, spot));
    }
    if level.levels() == 0 {
        return Err(Or::Fault(Fault::TooDeep));
    }
    let _levels = level.levels();
    let Args { args, height } = level.arguments(alloc, tokens)?;
    Ok(raised_call(height, Form::BaseCall { spot, name, args }, spot))
}

/// `base.b`, `base.b(c)`
pub fn of_base<F: Fn(Global, &mut Cursor, Ask) -> Result<Got, Or<Fault>>>(
    level: &Level<F>,
    alloc: Global,
    tokens: &mut Cursor,
) -> Result<Measured, Or<Fault>>
    requires callable { F.IsAlwaysCallable level.now.read }
    requires exact { (alloc : _) (tokens : _) (ask : _) (result : _) (after : _) → F.post level.now.read alloc tokens ask result after → Asked level.now.at ask tokens.now result after.now }
    ensures { Reads ((of_base_of level.now.at.left (inner_of level.now.at)).reads tokens.old) result tokens.new }
{
    let spot = place(tokens, KW_BASE)?;
    expect(tokens, DOT)?;
    let name = any_name(alloc, tokens)?;
    let member = base_member(level, alloc, tokens, spot, name)?;
    level.postfixes(alloc, tokens, member)
}

/// The call of a path, whose arguments come next.
pub fn called_path<F: Fn(Global, &mut Cursor, Ask) -> Result<Got, Or<Fault>>>(
    level: &Level<F>,
    alloc: Global,
    tokens: &mut Cursor,
    spot: Spot,
    path: Seq<Text>,
) -> Result<Measured, Or<Fault>>
    requires callable { F.IsAlwaysCallable level.now.read }
    requires exact { (alloc : _) (tokens : _) (ask : _) (result : _) (after : _) → F.post level.now.read alloc tokens ask result after → Asked level.now.at ask tokens.now result after.now }
    ensures { Reads ((called_path_of level.now.at.left (inner_of level.now.at) spot path).reads tokens.old) result tokens.new }
{
    let _levels = level.levels();
    let Args { args, height } = level.arguments(alloc, tokens)?;
    let call = raised_call(height, Form::GlobalCall { spot, path, args }, spot);
    level.postfixes(alloc, tokens, call)
}

fn indexed<F: Fn(Global, &mut Cursor, Ask) -> Result<Got, Or<Fault>>>(
    level: &Level<F>,
    alloc: Global,
    tokens: &mut Cursor,
    array: Measured,
) -> Result<Measured, Or<Fault>>
    requires callable { F.IsAlwaysCallable level.now.read }
    requires exact { (alloc : _) (tokens : _) (ask : _) (result : _) (after : _) → F.post level.now.read alloc tokens ask result after → Asked level.now.at ask tokens.now result after.now }
    requires within { array.height ≤ level.now.at.left }
    ensures { Reads ((indexed_of level.now.at.left (inner_of level.now.at) array).reads tokens.old) result tokens.new }
{
    let element = level.one_index(alloc, tokens, array)?;
    level.postfixes(alloc, tokens, element)
}

fn uncalled_path<F: Fn(Global, &mut Cursor, Ask) -> Result<Got, Or<Fault>>>(
    level: &Level<F>,
    alloc: Global,
    tokens: &mut Cursor,
    spot: Spot,
    path: Seq<Text>,
) -> Result<Measured, Or<Fault>>
    requires callable { F.IsAlwaysCallable level.now.read }
    requires exact { (alloc : _) (tokens : _) (ask : _) (result : _) (after : _) → F.post level.now.read alloc tokens ask result after → Asked level.now.at ask tokens.now result after.now }
    ensures { Reads ((guarded kind_of (nat_lt 0 level.now.at.left) (bracket ∷ []) (indexed_of level.now.at.left (inner_of level.now.at) (path_alone spot path)) (gives (path_alone spot path))).reads tokens.old) result tokens.new }
{
    if !begins(tokens, &[BRACKET]) {
        return Ok(leaf(Form::Global { spot, path }, spot));
    }
    if level.levels() == 0 {
        return Err(Or::Fault(Fault::TooDeep));
    }
    indexed(
        level,
        alloc,
        tokens,
        leaf(Form::Global { spot, path }, spot),
    )
}

fn behind_path<F: Fn(Global, &mut Cursor, Ask) -> Result<Got, Or<Fault>>>(
    level: &Level<F>,
    alloc: Global,
    tokens: &mut Cursor,
    spot: Spot,
    path: Seq<Text>,
) -> Result<Measured, Or<Fault>>
    requires callable { F.IsAlwaysCallable level.now.read }
    requires exact { (alloc : _) (tokens : _) (ask : _) (result : _) (after : _) → F.post level.now.read alloc tokens ask result after → Asked level.now.at ask tokens.now result after.now }
    ensures { Reads ((behind_path_of level.now.at.left (inner_of level.now.at) spot path).reads tokens.old) result tokens.new }
{
    if !begins(tokens, &[PAREN]) {
        return uncalled_path(level, alloc, tokens, spot, path);
    }
    if level.levels() == 0 {
        return Err(Or::Fault(Fault::TooDeep));
    }
    called_path(level, alloc, tokens, spot, path)
}

fn global_path<F: Fn(Global, &mut Cursor, Ask) -> Result<Got, Or<Fault>>>(
    level: &Level<F>,
    alloc: Global,
    tokens: &mut Cursor,
    spot: Spot,
) -> Result<Measured, Or<Fault>>
    requires callable { F.IsAlwaysCallable level.now.read }
    requires exact { (alloc : _) (tokens : _) (ask : _) (result : _) (after : _) → F.post level.now.read alloc tokens ask result after → Asked level.now.at ask tokens.now result after.now }
    ensures { Reads ((global_path_of level.now.at.left (inner_of level.now.at) spot).reads tokens.old) result tokens.new }
{
    expect(tokens, COLONS)?;
    let path = path(alloc, tokens)?;
    behind_path(level, alloc, tokens, spot, path)
}

/// `global::A.B.f`, `global::A.B.M(c)`, or the name `global`
pub fn of_global<F: Fn(Global, &mut Cursor, Ask) -> Result<Got, Or<Fault>>>(
    level: &Level<F>,
    alloc: Global,
    tokens: &mut Cursor,
) -> Result<Measured, Or<Fault>>
    requires callable { F.IsAlwaysCallable level.now.read }
    requires exact { (alloc : _) (tokens : _) (ask : _) (result : _) (after : _) → F.post level.now.read alloc tokens ask result after → Asked level.now.at ask tokens.now result after.now }
    ensures { Reads ((of_global_of level.now.at.left (inner_of level.now.at)).reads tokens.old) result tokens.new }
{
    let global = global_leaf(alloc, tokens)?;
    if begins(tokens, &[COLONS]) {
        return global_path(level, alloc, tokens, global.spot);
    }
    level.postfixes(alloc, tokens, global)
}

fn of_new_object<F: Fn(Global, &mut Cursor, Ask) -> Result<Got, Or<Fault>>>(
    level: &Level<F>,
    alloc: Global,
    tokens: &mut Cursor,
    spot: Spot,
    ty: TypeForm,
) -> Result<Measured, Or<Fault>>
    requires callable { F.IsAlwaysCallable level.now.read }
    requires exact { (alloc : _) (tokens : _) (ask : _) (result : _) (after : _) → F.post level.now.read alloc tokens ask result after → Asked level.now.at ask tokens.now result after.now }
    ensures { Reads ((of_new_object_of level.now.at.left (inner_of level.now.at) spot ty).reads tokens.old) result tokens.new }
{
    let _levels = level.levels();
    let Args { args, height } = level.arguments(alloc, tokens)?;
    let class = ty.name;
    let object = raised_call(height, Form::New { spot, class, args }, spot);
    level.postfixes(alloc, tokens, object)
}

fn with_member<F: Fn(Global, &mut Cursor, Ask) -> Result<Got, Or<Fault>>>(
    level: &Level<F>,
    alloc: Global,
    tokens: &mut Cursor,
    array: Measured,
) -> Result<Measured, Or<Fault>>
    requires callable { F.IsAlwaysCallable level.now.read }
    requires exact { (alloc : _) (tokens : _) (ask : _) (result : _) (after : _) → F.post level.now.read alloc tokens ask result after → Asked level.now.at ask tokens.now result after.now }
    requires within { array.height < level.now.at.left }
    ensures { Reads ((with_member_of level.now.at.left (inner_of level.now.at) array).reads tokens.old) result tokens.new }
{
    let member = level.one_member(alloc, tokens, array)?;
    level.postfixes(alloc, tokens, member)
}

fn behind_array<F: Fn(Global, &mut Cursor, Ask) -> Result<Got, Or<Fault>>>(
    level: &Level<F>,
    alloc: Global,
    tokens: &mut Cursor,
    array: Measured,
) -> Result<Measured, Or<Fault>>
    requires callable { F.IsAlwaysCallable level.now.read }
    requires exact { (alloc : _) (tokens : _) (ask : _) (result : _) (after : _) → F.post level.now.read alloc tokens ask result after → Asked level.now.at ask tokens.now result after.now }
    ensures { Reads ((behind_array_of level.now.at.left (inner_of level.now.at) array).reads tokens.old) result tokens.new }
{
    if !begins(tokens, &[DOT]) {
        return Ok(array);
    }
    if array.height >= u32::from(level.levels()) {
        return Err(too_deep(array));
    }
    with_member(level, alloc, tokens, array)
}

fn of_new_array<F: Fn(Global, &mut Cursor, Ask) -> Result<Got, Or<Fault>>>(
    level: &Level<F>,
    alloc: Global,
    tokens: &mut Cursor,
    spot: Spot,
    ty: TypeForm,
) -> Result<Measured, Or<Fault>>
    requires callable { F.IsAlwaysCallable level.now.read }
    requires exact { (alloc : _) (tokens : _) (ask : _) (result : _) (after : _) → F.post level.now.read alloc tokens ask result after → Asked level.now.at ask tokens.now result after.now }
    ensures { Reads ((of_new_array_of level.now.at.left (inner_of level.now.at) spot ty).reads tokens.old) result tokens.new }
{
    expect(tokens, BRACKET)?;
    let _levels = level.levels();
    let length = level.form(alloc, tokens, Part::Whole)?;
    let length = held(alloc, length)?;
    expect(tokens, UNBRACKET)?;
    let element = ranks(tokens, ranks_here(level).saturating_sub(1), ty)?;
    let array = new_array(spot, element, length);
    behind_array(level, alloc, tokens, array)
}

/// `new global::A.B(c)`, `new int[n][]`
pub fn of_new<F: Fn(Global, &mut Cursor, Ask) -> Result<Got, Or<Fault>>>(
    level: &Level<F>,
    alloc: Global,
    tokens: &mut Cursor,
) -> Result<Measured, Or<Fault>>
    requires callable { F.IsAlwaysCallable level.now.read }
    requires exact { (alloc : _) (tokens : _) (ask : _) (result : _) (after : _) → F.post level.now.read alloc tokens ask result after → Asked level.now.at ask tokens.now result after.now }
    ensures { Reads ((of_new_of level.now.at.left (inner_of level.now.at)).reads tokens.old) result tokens.new }
{
    let spot = place(tokens, KW_NEW)?;
    let ty = named_type(alloc, tokens)?;
    if begins(tokens, &[PAREN]) {
        return of_new_object(level, alloc, tokens, spot, ty);
    }
    of_new_array(level, alloc, tokens, spot, ty)
}

/// `default(int)`
pub fn of_default<F: Fn(Global, &mut Cursor, Ask) -> Result<Got, Or<Fault>>>(
    level: &Level<F>,
    alloc: Global,
    tokens: &mut Cursor,
) -> Result<Measured, Or<Fault>>
    requires callable { F.IsAlwaysCallable level.now.read }
    requires exact { (alloc : _) (tokens : _) (ask : _) (result : _) (after : _) → F.post level.now.read alloc tokens ask result after → Asked level.now.at ask tokens.now result after.now }
    ensures { Reads ((of_default_of level.now.at.left (inner_of level.now.at)).reads tokens.old) result tokens.new }
{
    let spot = place(tokens, KW_DEFAULT)?;
    expect(tokens, PAREN)?;
    let ty = ty(alloc, tokens, ranks_here(level))?;
    expect(tokens, UNPAREN)?;
    let value = raised(0, Form::Default { spot, ty }, spot);
    level.postfixes(alloc, tokens, value)
}

/// `checked(a)`, `unchecked(a)`
pub fn of_checked<F: Fn(Global, &mut Cursor, Ask) -> Result<Got, Or<Fault>>>(
    level: &Level<F>,
    alloc: Global,
    tokens: &mut Cursor,
) -> Result<Measured, Or<Fault>>
    requires callable { F.IsAlwaysCallable level.now.read }
    requires exact { (alloc : _) (tokens : _) (ask : _) (result : _) (after : _) → F.post level.now.read alloc tokens ask result after → Asked level.now.at ask tokens.now result after.now }
    ensures { Reads ((of_checked_of level.now.at.left (inner_of level.now.at)).reads tokens.old) result tokens.new }
{
    let token = take_one(tokens, &[KW_CHECKED, KW_UNCHECKED])?;
    expect(tokens, PAREN)?;
    let _levels = level.levels();
    let inner = level.form(alloc, tokens, Part::Whole)?;
    let inner = held(alloc, inner)?;
    expect(tokens, UNPAREN)?;
    let value = checked(&token, inner);
    level.postfixes(alloc, tokens, value)
}

/// A name, a literal or `this`
pub fn of_simple<F: Fn(Global, &mut Cursor, Ask) -> Result<Got, Or<Fault>>>(
    level: &Level<F>,
    alloc: Global,
    tokens: &mut Cursor,
) -> Result<Measured, Or<Fault>>
    requires callable { F.IsAlwaysCallable level.now.read }
    requires exact { (alloc : _) (tokens : _) (ask : _) (result : _) (after : _) → F.post level.now.read alloc tokens ask result after → Asked level.now.at ask tokens.now result after.now }
    ensures { Reads ((of_simple_of level.now.at.left (inner_of level.now.at)).reads tokens.old) result tokens.new }
{
    let leaf = simple(alloc, tokens)?;
    level.postfixes(alloc, tokens, leaf)
}
