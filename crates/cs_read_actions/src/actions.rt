// Declarations by a keyword, and assignments behind their place.

ghost use Rattle.cs_grammar.specs.Reads.{Reads};
ghost use Rattle.cs_statements.specs.Actions.{declared as declared_of, keyword_declared as keyword_declared_of, assigned as assigned_of, compounded as compounded_of, set_to as set_to_of};
ghost use Rattle.cs_read_calls.specs.Asked.{inner_of};
ghost use Rattle.cs_read_actions.specs.Place.{WholeRead};

use crate::kinds::COMPOUND;
use crate::leaves::pairs;
use crate::nodes::{assign, compound_assign, declare};
use crate::place::{Place, expression};
use cs_grammar::Fault;
use cs_lex::{Cursor, begins, expect};
use cs_productions::Measured;
use cs_read_types::kinds::{EQUALS, SEMICOLON};
use cs_read_types::{any_name, operator, type_of_keyword};
use cs_tree::{Action, Syntax, TypeForm};
use dc_base::Or;
use std::alloc::Global;

/// A declaration, behind its type.
pub fn declared<F, G: Fn(Global, &mut Cursor) -> Result<Measured, Or<Fault>>>(
    here: &Place<F, G>,
    alloc: Global,
    tokens: &mut Cursor,
    ty: TypeForm,
) -> Result<Syntax, Or<Fault>>
    requires whole_callable { G.IsAlwaysCallable here.now.whole }
    requires whole_exact { (alloc : _) (tokens : _) (result : _) (after : _) → G.post here.now.whole alloc tokens result after → WholeRead here.now.level.at tokens.now result after.now }
    ensures { Reads ((declared_of here.now.level.at.left (inner_of here.now.level.at) ty).reads tokens.old) result tokens.new }
{
    let name = any_name(alloc, tokens)?;
    expect(tokens, EQUALS)?;
    let value = expression(here, alloc, tokens)?;
    expect(tokens, SEMICOLON)?;
    Ok(declare(ty, name, value))
}

/// A declaration that begins with a keyword.
pub fn keyword_declared<F, G: Fn(Global, &mut Cursor) -> Result<Measured, Or<Fault>>>(
    here: &Place<F, G>,
    alloc: Global,
    tokens: &mut Cursor,
) -> Result<Syntax, Or<Fault>>
    requires whole_callable { G.IsAlwaysCallable here.now.whole }
    requires whole_exact { (alloc : _) (tokens : _) (result : _) (after : _) → G.post here.now.whole alloc tokens result after → WholeRead here.now.level.at tokens.now result after.now }
    ensures { Reads ((keyword_declared_of here.now.level.at.left (inner_of here.now.level.at)).reads tokens.old) result tokens.new }
{
    let ty = type_of_keyword(tokens, pairs(&here.level))?;
    declared(here, alloc, tokens, ty)
}

fn assigned<F, G: Fn(Global, &mut Cursor) -> Result<Measured, Or<Fault>>>(
    here: &Place<F, G>,
    alloc: Global,
    tokens: &mut Cursor,
    place: Measured,
) -> Result<Action, Or<Fault>>
    requires whole_callable { G.IsAlwaysCallable here.now.whole }
    requires whole_exact { (alloc : _) (tokens : _) (result : _) (after : _) → G.post here.now.whole alloc tokens result after → WholeRead here.now.level.at tokens.now result after.now }
    ensures { Reads ((assigned_of here.now.level.at.left (inner_of here.now.level.at) place).reads tokens.old) result tokens.new }
{
    expect(tokens, EQUALS)?;
    let value = expression(here, alloc, tokens)?;
    Ok(assign(place, value))
}

fn compounded<F, G: Fn(Global, &mut Cursor) -> Result<Measured, Or<Fault>>>(
    here: &Place<F, G>,
    alloc: Global,
    tokens: &mut Cursor,
    place: Measured,
) -> Result<Action, Or<Fault>>
    requires whole_callable { G.IsAlwaysCallable here.now.whole }
    requires whole_exact { (alloc : _) (tokens : _) (result : _) (after : _) → G.post here.now.whole alloc tokens result after → WholeRead here.now.level.at tokens.now result after.now }
    ensures { Reads ((compounded_of here.now.level.at.left (inner_of here.now.level.at) place).reads tokens.old) result tokens.new }
{
    let kind = operator(tokens, &COMPOUND)?;
    let value = expression(here, alloc, tokens)?;
    Ok(compound_assign(place, kind, value))
}

/// An assignment, behind its place.
pub fn set_to<F, G: Fn(Global, &mut Cursor) -> Result<Measured, Or<Fault>>>(
    here: &Place<F, G>,
    alloc: Global,
    tokens: &mut Cursor,
    place: Measured,
) -> Result<Action, Or<Fault>>
    requires whole_callable { G.IsAlwaysCallable here.now.whole }
    requires whole_exact { (alloc : _) (tokens : _) (result : _) (after : _) → G.post here.now.whole alloc tokens result after → WholeRead here.now.level.at tokens.now result after.now }
    ensures { Reads ((set_to_of here.now.level.at.left (inner_of here.now.level.at) place).reads tokens.old) result tokens.new }
{
    if begins(tokens, &[EQUALS]) {
        return assigned(here, alloc, tokens, place);
    }
    compounded(here, alloc, tokens, place)
}
