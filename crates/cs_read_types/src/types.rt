// Paths, types and parameters.

ghost use Rattle.std.specs.Prelude.{◌≡◌, ◌<◌};
ghost use Rattle.cs_grammar.specs.Reads.{Finds, Reads};
ghost use Rattle.cs_productions.specs.Types.{one_more_name as one_more_name_of, path as path_of, type_by_path as type_by_path_of, named_type as named_type_of, one_more_rank as one_more_rank_of, ranks as ranks_of, type_of_keyword as type_of_keyword_of, ty as ty_of, way as way_of, param as param_of, passed_param as passed_param_of, one_more_param as one_more_param_of, more_params as more_params_of};

use crate::kinds::{BRACKET, COLONS, COMMA, DOT, GLOBAL, KEYWORD_TYPES, KW_OUT, KW_REF, UNBRACKET};
use crate::words::{any_name, given_way, keyword_named, name_text, place};
use cs_grammar::Fault;
use cs_lex::{Cursor, begins, expect};
use cs_tree::{Param, TypeForm, TypeName, Way};
use dc_base::{Or, Seq, Text};
use std::alloc::Global;

fn one_more_name(
    alloc: Global,
    tokens: &mut Cursor,
    mut names: Seq<Text>,
) -> Result<Seq<Text>, Or<Fault>>
    ensures { Reads ((one_more_name_of names).reads tokens.old) result tokens.new }
{
    expect(tokens, DOT)?;
    let name = name_text(alloc, tokens)?;
    names.push(name)?;
    Ok(names)
}

/// `A.B.C`: all names that stand behind one another.
pub fn path(alloc: Global, tokens: &mut Cursor) -> Result<Seq<Text>, Or<Fault>>
    ensures { Reads (path_of.reads tokens.old) result tokens.new }
{
    let first = name_text(alloc, tokens)?;
    let mut names = Seq::new(alloc);
    names.push(first)?;
    'turns: for _ in 0..tokens.left() {
        if !begins(tokens, &[DOT]) {
            return Ok(names);
        }
        names = one_more_name(alloc, tokens, names)?;
    }
    Ok(names)
}

fn type_by_path(alloc: Global, tokens: &mut Cursor) -> Result<TypeForm, Or<Fault>>
    ensures { Reads (type_by_path_of.reads tokens.old) result tokens.new }
{
    let spot = place(tokens, GLOBAL)?;
    expect(tokens, COLONS)?;
    let path = path(alloc, tokens)?;
    Ok(TypeForm {
        spot,
        name: TypeName::Global { path },
        ranks: 0,
    })
}

/// A type without brackets.
pub fn named_type(alloc: Global, tokens: &mut Cursor) -> Result<TypeForm, Or<Fault>>
    ensures { Reads (named_type_of.reads tokens.old) result tokens.new }
{
    if begins(tokens, &KEYWORD_TYPES) {
        return Ok(keyword_named(tokens)?);
    }
    type_by_path(alloc, tokens)
}

fn one_more_rank(tokens: &mut Cursor, ty: TypeForm) -> Result<TypeForm, Or<Fault>>
    requires { ty.ranks < 65536 }
    ensures { Reads ((one_more_rank_of ty).reads tokens.old) result tokens.new }
{
    expect(tokens, BRACKET)?;
    expect(tokens, UNBRACKET)?;
    Ok(TypeForm {
        ranks: ty.ranks + 1,
        ..ty
    })
}

/// The pairs of brackets behind a type, which may have at most so many.
pub fn ranks(tokens: &mut Cursor, limit: u16, first: TypeForm) -> Result<TypeForm, Or<Fault>>
    ensures { Reads ((ranks_of limit first).reads tokens.old) result tokens.new }
{
    let mut ty = first;
    'turns: for _ in 0..tokens.left() {
        if !begins(tokens, &[BRACKET]) {
            return Ok(ty);
        }
        if ty.ranks >= u32::from(limit) {
            return Err(Or::Fault(Fault::TooDeep));
        }
        ty = one_more_rank(tokens, ty)?;
    }
    Ok(ty)
}

/// A type that begins with a keyword.
pub fn type_of_keyword(tokens: &mut Cursor, limit: u16) -> Result<TypeForm, Or<Fault>>
    ensures { Reads ((type_of_keyword_of limit).reads tokens.old) result tokens.new }
{
    let ty = keyword_named(tokens)?;
    ranks(tokens, limit, ty)
}

/// A type.
pub fn ty(alloc: Global, tokens: &mut Cursor, limit: u16) -> Result<TypeForm, Or<Fault>>
    ensures { Reads ((ty_of limit).reads tokens.old) result tokens.new }
{
    let ty = named_type(alloc, tokens)?;
    ranks(tokens, limit, ty)
}

/// How a parameter or an argument is passed.
pub fn way(tokens: &mut Cursor) -> Result<Way, Fault>
    ensures { Finds (way_of.reads tokens.old) result tokens.new }
{
    if begins(tokens, &[KW_REF, KW_OUT]) {
        return given_way(tokens);
    }
    Ok(Way::Value)
}

/// A parameter.
pub fn param(alloc: Global, tokens: &mut Cursor, limit: u16) -> Result<Param, Or<Fault>>
    ensures { Reads ((param_of limit).reads tokens.old) result tokens.new }
{
    let way = way(tokens)?;
    let ty = ty(alloc, tokens, limit)?;
    let name = any_name(alloc, tokens)?;
    Ok(Param { way, ty, name })
}

/// A parameter that begins with `ref` or `out`.
pub fn passed_param(alloc: Global, tokens: &mut Cursor, limit: u16) -> Result<Param, Or<Fault>>
    ensures { Reads ((passed_param_of limit).reads tokens.old) result tokens.new }
{
    let way = given_way(tokens)?;
    let ty = ty(alloc, tokens, limit)?;
    let name = any_name(alloc, tokens)?;
    Ok(Param { way, ty, name })
}

fn one_more_param(
    alloc: Global,
    tokens: &mut Cursor,
    limit: u16,
    mut params: Seq<Param>,
) -> Result<Seq<Param>, Or<Fault>>
    ensures { Reads ((one_more_param_of limit params).reads tokens.old) result tokens.new }
{
    expect(tokens, COMMA)?;
    let next = param(alloc, tokens, limit)?;
    params.push(next)?;
    Ok(params)
}

/// The parameters behind the first ones.
pub fn more_params(
    alloc: Global,
    tokens: &mut Cursor,
    limit: u16,
    first: Seq<Param>,
) -> Result<Seq<Param>, Or<Fault>>
    ensures { Reads ((more_params_of limit first).reads tokens.old) result tokens.new }
{
    let mut params = first;
    'turns: for _ in 0..tokens.left() {
        if !begins(tokens, &[COMMA]) {
            return Ok(params);
        }
        params = one_more_param(alloc, tokens, limit, params)?;
    }
    Ok(params)
}
