// Parentheses, casts and lambdas (ECMA-334, 12.8.5, 12.9.7 and 12.19), and the operators with one operand (12.9).

ghost use Rattle.std.specs.Prelude.{◌≡◌, ◌≤◌};
ghost use Rattle.cs_grammar.specs.Reads.{Reads};
ghost use Rattle.cs_productions.specs.Operators.{lambda as lambda_of, lambda_behind as lambda_behind_of, lambda_from_way as lambda_from_way_of, lambda_from_type as lambda_from_type_of, casting as casting_of, cast_to as cast_to_of, path_of, closed_form as closed_form_of, closed as closed_of, led_in as led_in_of, behind_type as behind_type_of, keyword_in as keyword_in_of, plain_in as plain_in_of, lambda_in as lambda_in_of, form_in as form_in_of, behind_paren as behind_paren_of, of_paren as of_paren_of, of_counted as of_counted_of, of_plain as of_plain_of, plain_operand as plain_operand_of, operand as operand_of, signed as signed_grammar, unary as unary_of, plain_unary as plain_unary_of};
ghost use Rattle.cs_read_calls.specs.Asked.{inner_of, lead_height, Asked};

use crate::nodes::{cast, is_path, one, type_of_path};
use cs_grammar::Fault;
use cs_lex::{Cursor, begins, expect, take_one};
use cs_productions::{Lead, Measured, Part};
use cs_read_calls::{Ask, Got, Level, held, raised};
use cs_read_primaries::{
    blocks_here, of_base, of_checked, of_default, of_global, of_new, of_simple, ranks_here,
};
use cs_read_types::kinds::{
    ARROW, COUNTED, GLOBAL, KEYWORD_TYPES, KW_BASE, KW_DEFAULT, KW_NEW, KW_OUT, KW_REF, NAMES,
    OPERAND, PAREN, UNARY, UNPAREN,
};
use cs_read_types::{any_name, more_params, passed_param, place, type_of_keyword};
use cs_tree::{Form, Param, Spot, TypeForm, Way};
use dc_base::{Or, Seq};
use std::alloc::Global;

fn lambda<F: Fn(Global, &mut Cursor, Ask) -> Result<Got, Or<Fault>>>(
    level: &Level<F>,
    alloc: Global,
    tokens: &mut Cursor,
    spot: Spot,
    params: Seq<Param>,
) -> Result<Measured, Or<Fault>>
    requires callable { F.IsAlwaysCallable level.now.read }
    requires exact { (alloc : _) (tokens : _) (ask : _) (result : _) (after : _) → F.post level.now.read alloc tokens ask result after → Asked level.now.at ask tokens.now result after.now }
    ensures { Reads ((lambda_of level.now.at.left (inner_of level.now.at) spot params).reads tokens.old) result tokens.new }
{
    expect(tokens, UNPAREN)?;
    expect(tokens, ARROW)?;
    let block = level.block(alloc, tokens)?;
    let form = Form::Lambda {
        spot,
        params,
        block,
    };
    level.postfixes(alloc, tokens, raised(0, form, spot))
}

fn lambda_behind<F: Fn(Global, &mut Cursor, Ask) -> Result<Got, Or<Fault>>>(
    level: &Level<F>,
    alloc: Global,
    tokens: &mut Cursor,
    spot: Spot,
    first: Param,
) -> Result<Measured, Or<Fault>>
    requires callable { F.IsAlwaysCallable level.now.read }
    requires exact { (alloc : _) (tokens : _) (ask : _) (result : _) (after : _) → F.post level.now.read alloc tokens ask result after → Asked level.now.at ask tokens.now result after.now }
    ensures { Reads ((lambda_behind_of level.now.at.left (inner_of level.now.at) spot first).reads tokens.old) result tokens.new }
{
    let mut params = Seq::new(alloc);
    params.push(first)?;
    let params = more_params(alloc, tokens, ranks_here(level), params)?;
    lambda(level, alloc, tokens, spot, params)
}

fn lambda_from_way<F: Fn(Global, &mut Cursor, Ask) -> Result<Got, Or<Fault>>>(
    level: &Level<F>,
    alloc: Global,
    tokens: &mut Cursor,
    spot: Spot,
) -> Result<Measured, Or<Fault>>
    requires callable { F.IsAlwaysCallable level.now.read }
    requires exact { (alloc : _) (tokens : _) (ask : _) (result : _) (after : _) → F.post level.now.read alloc tokens ask result after → Asked level.now.at ask tokens.now result after.now }
    ensures { Reads ((lambda_from_way_of level.now.at.left (inner_of level.now.at) spot).reads tokens.old) result tokens.new }
{
    let first = passed_param(alloc, tokens, ranks_here(level))?;
    lambda_behind(level, alloc, tokens, spot, first)
}

fn lambda_from_type<F: Fn(Global, &mut Cursor, Ask) -> Result<Got, Or<Fault>>>(
    level: &Level<F>,
    alloc: Global,
    tokens: &mut Cursor,
    spot: Spot,
    ty: TypeForm,
) -> Result<Measured, Or<Fault>>
    requires callable { F.IsAlwaysCallable level.now.read }
    requires exact { (alloc : _) (tokens : _) (ask : _) (result : _) (after : _) → F.post level.now.read alloc tokens ask result after → Asked level.now.at ask tokens.now result after.now }
    ensures { Reads ((lambda_from_type_of level.now.at.left (inner_of level.now.at) spot ty).reads tokens.old) result tokens.new }
{
    let name = any_name(alloc, tokens)?;
    let way = Way::Value;
    lambda_behind(level, alloc, tokens, spot, Param { way, ty, name })
}

fn casting<F: Fn(Global, &mut Cursor, Ask) -> Result<Got, Or<Fault>>>(
    level: &Level<F>,
    alloc: Global,
    tokens: &mut Cursor,
    spot: Spot,
    ty: TypeForm,
) -> Result<Measured, Or<Fault>>
    requires callable { F.IsAlwaysCallable level.now.read }
    requires exact { (alloc : _) (tokens : _) (ask : _) (result : _) (after : _) → F.post level.now.read alloc tokens ask result after → Asked level.now.at ask tokens.now result after.now }
    ensures { Reads ((casting_of (inner_of level.now.at) spot ty).reads tokens.old) result tokens.new }
{
    let _levels = level.levels();
    let operand = level.form(alloc, tokens, Part::Operand)?;
    let operand = held(alloc, operand)?;
    Ok(cast(spot, ty, operand))
}

fn cast_to<F: Fn(Global, &mut Cursor, Ask) -> Result<Got, Or<Fault>>>(
    level: &Level<F>,
    alloc: Global,
    tokens: &mut Cursor,
    spot: Spot,
    ty: TypeForm,
) -> Result<Measured, Or<Fault>>
    requires callable { F.IsAlwaysCallable level.now.read }
    requires exact { (alloc : _) (tokens : _) (ask : _) (result : _) (after : _) → F.post level.now.read alloc tokens ask result after → Asked level.now.at ask tokens.now result after.now }
    ensures { Reads ((cast_to_of (inner_of level.now.at) spot ty).reads tokens.old) result tokens.new }
{
    expect(tokens, UNPAREN)?;
    casting(level, alloc, tokens, spot, ty)
}

fn closed_form<F: Fn(Global, &mut Cursor, Ask) -> Result<Got, Or<Fault>>>(
    level: &Level<F>,
    alloc: Global,
    tokens: &mut Cursor,
    spot: Spot,
    inner: Measured,
) -> Result<Measured, Or<Fault>>
    requires callable { F.IsAlwaysCallable level.now.read }
    requires exact { (alloc : _) (tokens : _) (ask : _) (result : _) (after : _) → F.post level.now.read alloc tokens ask result after → Asked level.now.at ask tokens.now result after.now }
    requires within { inner.height ≤ level.now.at.left }
    ensures { Reads ((closed_form_of level.now.at.left (inner_of level.now.at) spot inner (path_of inner.form)).reads tokens.old) result tokens.new }
{
    let _levels = level.levels();
    if !is_path(&inner.form) {
        return level.postfixes(alloc, tokens, raised(inner.height, inner.form, spot));
    }
    if !begins(tokens, &OPERAND) {
        return level.postfixes(alloc, tokens, raised(inner.height, inner.form, spot));
    }
    casting(level, alloc, tokens, spot, type_of_path(inner.form))
}

fn closed<F: Fn(Global, &mut Cursor, Ask) -> Result<Got, Or<Fault>>>(
    level: &Level<F>,
    alloc: Global,
    tokens: &mut Cursor,
    spot: Spot,
    lead: Lead,
) -> Result<Measured, Or<Fault>>
    requires callable { F.IsAlwaysCallable level.now.read }
    requires exact { (alloc : _) (tokens : _) (ask : _) (result : _) (after : _) → F.post level.now.read alloc tokens ask result after → Asked level.now.at ask tokens.now result after.now }
    requires within { lead_height lead ≤ level.now.at.left }
    ensures { Reads ((closed_of level.now.at.left (inner_of level.now.at) spot lead).reads tokens.old) result tokens.new }
{
    match lead {
        Lead::Form { read } => {
            expect(tokens, UNPAREN)?;
            closed_form(level, alloc, tokens, spot, read)
        }
        Lead::Type { ty } => cast_to(level, alloc, tokens, spot, ty),
        Lead::Named { ty, name } => {
            let way = Way::Value;
            lambda_behind(level, alloc, tokens, spot, Param { way, ty, name })
        }
    }
}

fn led_in<F: Fn(Global, &mut Cursor, Ask) -> Result<Got, Or<Fault>>>(
    level: &Level<F>,
    alloc: Global,
    tokens: &mut Cursor,
    spot: Spot,
) -> Result<Measured, Or<Fault>>
    requires callable { F.IsAlwaysCallable level.now.read }
    requires exact { (alloc : _) (tokens : _) (ask : _) (result : _) (after : _) → F.post level.now.read alloc tokens ask result after → Asked level.now.at ask tokens.now result after.now }
    ensures { Reads ((led_in_of level.now.at.left (inner_of level.now.at) spot).reads tokens.old) result tokens.new }
{
    let lead = level.lead(alloc, tokens)?;
    closed(level, alloc, tokens, spot, lead)
}

fn behind_type<F: Fn(Global, &mut Cursor, Ask) -> Result<Got, Or<Fault>>>(
    level: &Level<F>,
    alloc: Global,
    tokens: &mut Cursor,
    spot: Spot,
    ty: TypeForm,
) -> Result<Measured, Or<Fault>>
    requires callable { F.IsAlwaysCallable level.now.read }
    requires exact { (alloc : _) (tokens : _) (ask : _) (result : _) (after : _) → F.post level.now.read alloc tokens ask result after → Asked level.now.at ask tokens.now result after.now }
    ensures { Reads ((behind_type_of level.now.at.left (inner_of level.now.at) spot ty).reads tokens.old) result tokens.new }
{
    if !begins(tokens, &NAMES) {
        return cast_to(level, alloc, tokens, spot, ty);
    }
    if blocks_here(level) == 0 {
        return Err(Or::Fault(Fault::TooDeep));
    }
    lambda_from_type(level, alloc, tokens, spot, ty)
}

fn keyword_in<F: Fn(Global, &mut Cursor, Ask) -> Result<Got, Or<Fault>>>(
    level: &Level<F>,
    alloc: Global,
    tokens: &mut Cursor,
    spot: Spot,
) -> Result<Measured, Or<Fault>>
    requires callable { F.IsAlwaysCallable level.now.read }
    requires exact { (alloc : _) (tokens : _) (ask : _) (result : _) (after : _) → F.post level.now.read alloc tokens ask result after → Asked level.now.at ask tokens.now result after.now }
    ensures { Reads ((keyword_in_of level.now.at.left (inner_of level.now.at) spot).reads tokens.old) result tokens.new }
{
    let ty = type_of_keyword(tokens, ranks_here(level))?;
    behind_type(level, alloc, tokens, spot, ty)
}

fn plain_in<F: Fn(Global, &mut Cursor, Ask) -> Result<Got, Or<Fault>>>(
    level: &Level<F>,
    alloc: Global,
    tokens: &mut Cursor,
    spot: Spot,
) -> Result<Measured, Or<Fault>>
    requires callable { F.IsAlwaysCallable level.now.read }
    requires exact { (alloc : _) (tokens : _) (ask : _) (result : _) (after : _) → F.post level.now.read alloc tokens ask result after → Asked level.now.at ask tokens.now result after.now }
    ensures { Reads ((plain_in_of level.now.at.left (inner_of level.now.at) spot).reads tokens.old) result tokens.new }
{
    let _levels = level.levels();
    let inner = level.form(alloc, tokens, Part::Plain)?;
    expect(tokens, UNPAREN)?;
    level.postfixes(alloc, tokens, raised(inner.height, inner.form, spot))
}

fn lambda_in<F: Fn(Global, &mut Cursor, Ask) -> Result<Got, Or<Fault>>>(
    level: &Level<F>,
    alloc: Global,
    tokens: &mut Cursor,
    spot: Spot,
) -> Result<Measured, Or<Fault>>
    requires callable { F.IsAlwaysCallable level.now.read }
    requires exact { (alloc : _) (tokens : _) (ask : _) (result : _) (after : _) → F.post level.now.read alloc tokens ask result after → Asked level.now.at ask tokens.now result after.now }
    ensures { Reads ((lambda_in_of level.now.at.left (inner_of level.now.at) spot).reads tokens.old) result tokens.new }
{
    if begins(tokens, &[UNPAREN]) {
        return lambda(level, alloc, tokens, spot, Seq::new(alloc));
    }
    lambda_from_way(level, alloc, tokens, spot)
}

fn form_in<F: Fn(Global, &mut Cursor, Ask) -> Result<Got, Or<Fault>>>(
    level: &Level<F>,
    alloc: Global,
    tokens: &mut Cursor,
    spot: Spot,
) -> Result<Measured, Or<Fault>>
    requires callable { F.IsAlwaysCallable level.now.read }
    requires exact { (alloc : _) (tokens : _) (ask : _) (result : _) (after : _) → F.post level.now.read alloc tokens ask result after → Asked level.now.at ask tokens.now result after.now }
    ensures { Reads ((form_in_of level.now.at.left (inner_of level.now.at) spot).reads tokens.old) result tokens.new }
{
    if begins(tokens, &KEYWORD_TYPES) {
        return keyword_in(level, alloc, tokens, spot);
    }
    if begins(tokens, &[GLOBAL]) {
        return led_in(level, alloc, tokens, spot);
    }
    plain_in(level, alloc, tokens, spot)
}

fn behind_paren<F: Fn(Global, &mut Cursor, Ask) -> Result<Got, Or<Fault>>>(
    level: &Level<F>,
    alloc: Global,
    tokens: &mut Cursor,
    spot: Spot,
) -> Result<Measured, Or<Fault>>
    requires callable { F.IsAlwaysCallable level.now.read }
    requires exact { (alloc : _) (tokens : _) (ask : _) (result : _) (after : _) → F.post level.now.read alloc tokens ask result after → Asked level.now.at ask tokens.now result after.now }
    ensures { Reads ((behind_paren_of level.now.at.left (inner_of level.now.at) spot).reads tokens.old) result tokens.new }
{
    if !begins(tokens, &[UNPAREN, KW_REF, KW_OUT]) {
        return form_in(level, alloc, tokens, spot);
    }
    if blocks_here(level) == 0 {
        return Err(Or::Fault(Fault::TooDeep));
    }
    lambda_in(level, alloc, tokens, spot)
}

fn of_paren<F: Fn(Global, &mut Cursor, Ask) -> Result<Got, Or<Fault>>>(
    level: &Level<F>,
    alloc: Global,
    tokens: &mut Cursor,
) -> Result<Measured, Or<Fault>>
    requires callable { F.IsAlwaysCallable level.now.read }
    requires exact { (alloc : _) (tokens : _) (ask : _) (result : _) (after : _) → F.post level.now.read alloc tokens ask result after → Asked level.now.at ask tokens.now result after.now }
    ensures { Reads ((of_paren_of level.now.at.left (inner_of level.now.at)).reads tokens.old) result tokens.new }
{
    let spot = place(tokens, PAREN)?;
    behind_paren(level, alloc, tokens, spot)
}

fn of_counted<F: Fn(Global, &mut Cursor, Ask) -> Result<Got, Or<Fault>>>(
    level: &Level<F>,
    alloc: Global,
    tokens: &mut Cursor,
) -> Result<Measured, Or<Fault>>
    requires callable { F.IsAlwaysCallable level.now.read }
    requires exact { (alloc : _) (tokens : _) (ask : _) (result : _) (after : _) → F.post level.now.read alloc tokens ask result after → Asked level.now.at ask tokens.now result after.now }
    ensures { Reads ((of_counted_of level.now.at.left (inner_of level.now.at)).reads tokens.old) result tokens.new }
{
    if begins(tokens, &[PAREN]) {
        return of_paren(level, alloc, tokens);
    }
    if begins(tokens, &[KW_NEW]) {
        return of_new(level, alloc, tokens);
    }
    if begins(tokens, &[KW_DEFAULT]) {
        return of_default(level, alloc, tokens);
    }
    of_checked(level, alloc, tokens)
}

fn of_plain<F: Fn(Global, &mut Cursor, Ask) -> Result<Got, Or<Fault>>>(
    level: &Level<F>,
    alloc: Global,
    tokens: &mut Cursor,
) -> Result<Measured, Or<Fault>>
    requires callable { F.IsAlwaysCallable level.now.read }
    requires exact { (alloc : _) (tokens : _) (ask : _) (result : _) (after : _) → F.post level.now.read alloc tokens ask result after → Asked level.now.at ask tokens.now result after.now }
    ensures { Reads ((of_plain_of level.now.at.left (inner_of level.now.at)).reads tokens.old) result tokens.new }
{
    if begins(tokens, &[KW_BASE]) {
        return of_base(level, alloc, tokens);
    }
    of_simple(level, alloc, tokens)
}

fn plain_operand<F: Fn(Global, &mut Cursor, Ask) -> Result<Got, Or<Fault>>>(
    level: &Level<F>,
    alloc: Global,
    tokens: &mut Cursor,
) -> Result<Measured, Or<Fault>>
    requires callable { F.IsAlwaysCallable level.now.read }
    requires exact { (alloc : _) (tokens : _) (ask : _) (result : _) (after : _) → F.post level.now.read alloc tokens ask result after → Asked level.now.at ask tokens.now result after.now }
    ensures { Reads ((plain_operand_of level.now.at.left (inner_of level.now.at)).reads tokens.old) result tokens.new }
{
    if !begins(tokens, &COUNTED) {
        return of_plain(level, alloc, tokens);
    }
    if level.levels() == 0 {
        return Err(Or::Fault(Fault::TooDeep));
    }
    of_counted(level, alloc, tokens)
}

/// What stands behind a cast, or without an operator in front.
pub fn operand<F: Fn(Global, &mut Cursor, Ask) -> Result<Got, Or<Fault>>>(
    level: &Level<F>,
    alloc: Global,
    tokens: &mut Cursor,
) -> Result<Measured, Or<Fault>>
    requires callable { F.IsAlwaysCallable level.now.read }
    requires exact { (alloc : _) (tokens : _) (ask : _) (result : _) (after : _) → F.post level.now.read alloc tokens ask result after → Asked level.now.at ask tokens.now result after.now }
    ensures { Reads ((operand_of level.now.at.left (inner_of level.now.at)).reads tokens.old) result tokens.new }
{
    if begins(tokens, &[GLOBAL]) {
        return of_global(level, alloc, tokens);
    }
    plain_operand(level, alloc, tokens)
}

fn signed<F: Fn(Global, &mut Cursor, Ask) -> Result<Got, Or<Fault>>>(
    level: &Level<F>,
    alloc: Global,
    tokens: &mut Cursor,
) -> Result<Measured, Or<Fault>>
    requires callable { F.IsAlwaysCallable level.now.read }
    requires exact { (alloc : _) (tokens : _) (ask : _) (result : _) (after : _) → F.post level.now.read alloc tokens ask result after → Asked level.now.at ask tokens.now result after.now }
    ensures { Reads ((signed_grammar (inner_of level.now.at)).reads tokens.old) result tokens.new }
{
    let token = take_one(tokens, &UNARY)?;
    let _levels = level.levels();
    let operand = level.form(alloc, tokens, Part::Unary)?;
    let operand = held(alloc, operand)?;
    Ok(one(&token, operand))
}

/// `!a`, `~a`, `-a`, or an operand
pub fn unary<F: Fn(Global, &mut Cursor, Ask) -> Result<Got, Or<Fault>>>(
    level: &Level<F>,
    alloc: Global,
    tokens: &mut Cursor,
) -> Result<Measured, Or<Fault>>
    requires callable { F.IsAlwaysCallable level.now.read }
    requires exact { (alloc : _) (tokens : _) (ask : _) (result : _) (after : _) → F.post level.now.read alloc tokens ask result after → Asked level.now.at ask tokens.now result after.now }
    ensures { Reads ((unary_of level.now.at.left (inner_of level.now.at)).reads tokens.old) result tokens.new }
{
    if !begins(tokens, &UNARY) {
        return operand(level, alloc, tokens);
    }
    if level.levels() == 0 {
        return Err(Or::Fault(Fault::TooDeep));
    }
    signed(level, alloc, tokens)
}

/// The same, where it does not begin with `global`.
pub fn plain_unary<F: Fn(Global, &mut Cursor, Ask) -> Result<Got, Or<Fault>>>(
    level: &Level<F>,
    alloc: Global,
    tokens: &mut Cursor,
) -> Result<Measured, Or<Fault>>
    requires callable { F.IsAlwaysCallable level.now.read }
    requires exact { (alloc : _) (tokens : _) (ask : _) (result : _) (after : _) → F.post level.now.read alloc tokens ask result after → Asked level.now.at ask tokens.now result after.now }
    ensures { Reads ((plain_unary_of level.now.at.left (inner_of level.now.at)).reads tokens.old) result tokens.new }
{
    if !begins(tokens, &UNARY) {
        return plain_operand(level, alloc, tokens);
    }
    if level.levels() == 0 {
        return Err(Or::Fault(Fault::TooDeep));
    }
    signed(level, alloc, tokens)
}
