// Labels, and statements that jump.

ghost use Rattle.cs_grammar.specs.Reads.{Reads};
ghost use Rattle.cs_statements.specs.Jumps.{labelled as labelled_of, value_given as value_given_of, value as value_of, of_goto as of_goto_of, of_break as of_break_of, of_continue as of_continue_of, of_return as of_return_of, of_throw as of_throw_of, jump as jump_of};
ghost use Rattle.cs_read_calls.specs.Asked.{inner_of};
ghost use Rattle.cs_read_actions.specs.Place.{WholeRead};

use crate::kinds::{KW_BREAK, KW_CONTINUE, KW_GOTO, KW_RETURN, KW_THROW};
use crate::place::{Place, expression};
use cs_grammar::Fault;
use cs_lex::{Cursor, begins, expect};
use cs_productions::Measured;
use cs_read_types::kinds::{COLON, EXPRESSION, SEMICOLON};
use cs_read_types::{name_text, place};
use cs_tree::{Form, Spot, Syntax};
use dc_base::{Or, Text};
use std::alloc::Global;

/// `name: ;`, behind the name
pub fn labelled(tokens: &mut Cursor, spot: Spot, label: Text) -> Result<Syntax, Or<Fault>>
    ensures { Reads ((labelled_of spot label).reads tokens.old) result tokens.new }
{
    expect(tokens, COLON)?;
    expect(tokens, SEMICOLON)?;
    Ok(Syntax::Label { spot, label })
}

fn value_given<F, G: Fn(Global, &mut Cursor) -> Result<Measured, Or<Fault>>>(
    here: &Place<F, G>,
    alloc: Global,
    tokens: &mut Cursor,
) -> Result<Option<Form>, Or<Fault>>
    requires whole_callable { G.IsAlwaysCallable here.now.whole }
    requires whole_exact { (alloc : _) (tokens : _) (result : _) (after : _) → G.post here.now.whole alloc tokens result after → WholeRead here.now.level.at tokens.now result after.now }
    ensures { Reads ((value_given_of here.now.level.at.left (inner_of here.now.level.at)).reads tokens.old) result tokens.new }
{
    let value = expression(here, alloc, tokens)?;
    expect(tokens, SEMICOLON)?;
    Ok(Some(value.form))
}

fn value<F, G: Fn(Global, &mut Cursor) -> Result<Measured, Or<Fault>>>(
    here: &Place<F, G>,
    alloc: Global,
    tokens: &mut Cursor,
) -> Result<Option<Form>, Or<Fault>>
    requires whole_callable { G.IsAlwaysCallable here.now.whole }
    requires whole_exact { (alloc : _) (tokens : _) (result : _) (after : _) → G.post here.now.whole alloc tokens result after → WholeRead here.now.level.at tokens.now result after.now }
    ensures { Reads ((value_of here.now.level.at.left (inner_of here.now.level.at)).reads tokens.old) result tokens.new }
{
    if begins(tokens, &EXPRESSION) {
        return value_given(here, alloc, tokens);
    }
    expect(tokens, SEMICOLON)?;
    Ok(None)
}

fn of_goto(alloc: Global, tokens: &mut Cursor) -> Result<Syntax, Or<Fault>>
    ensures { Reads (of_goto_of.reads tokens.old) result tokens.new }
{
    let spot = place(tokens, KW_GOTO)?;
    let label = name_text(alloc, tokens)?;
    expect(tokens, SEMICOLON)?;
    Ok(Syntax::Goto { spot, label })
}

fn of_break(tokens: &mut Cursor) -> Result<Syntax, Or<Fault>>
    ensures { Reads (of_break_of.reads tokens.old) result tokens.new }
{
    let spot = place(tokens, KW_BREAK)?;
    expect(tokens, SEMICOLON)?;
    Ok(Syntax::Break { spot })
}

fn of_continue(tokens: &mut Cursor) -> Result<Syntax, Or<Fault>>
    ensures { Reads (of_continue_of.reads tokens.old) result tokens.new }
{
    let spot = place(tokens, KW_CONTINUE)?;
    expect(tokens, SEMICOLON)?;
    Ok(Syntax::Continue { spot })
}

fn of_return<F, G: Fn(Global, &mut Cursor) -> Result<Measured, Or<Fault>>>(
    here: &Place<F, G>,
    alloc: Global,
    tokens: &mut Cursor,
) -> Result<Syntax, Or<Fault>>
    requires whole_callable { G.IsAlwaysCallable here.now.whole }
    requires whole_exact { (alloc : _) (tokens : _) (result : _) (after : _) → G.post here.now.whole alloc tokens result after → WholeRead here.now.level.at tokens.now result after.now }
    ensures { Reads ((of_return_of here.now.level.at.left (inner_of here.now.level.at)).reads tokens.old) result tokens.new }
{
    let spot = place(tokens, KW_RETURN)?;
    let value = value(here, alloc, tokens)?;
    Ok(Syntax::Return { spot, value })
}

fn of_throw<F, G: Fn(Global, &mut Cursor) -> Result<Measured, Or<Fault>>>(
    here: &Place<F, G>,
    alloc: Global,
    tokens: &mut Cursor,
) -> Result<Syntax, Or<Fault>>
    requires whole_callable { G.IsAlwaysCallable here.now.whole }
    requires whole_exact { (alloc : _) (tokens : _) (result : _) (after : _) → G.post here.now.whole alloc tokens result after → WholeRead here.now.level.at tokens.now result after.now }
    ensures { Reads ((of_throw_of here.now.level.at.left (inner_of here.now.level.at)).reads tokens.old) result tokens.new }
{
    let spot = place(tokens, KW_THROW)?;
    let value = value(here, alloc, tokens)?;
    Ok(Syntax::Throw { spot, value })
}

/// `goto L;`, `break;`, `continue;`, `return a;`, `throw a;`
pub fn jump<F, G: Fn(Global, &mut Cursor) -> Result<Measured, Or<Fault>>>(
    here: &Place<F, G>,
    alloc: Global,
    tokens: &mut Cursor,
) -> Result<Syntax, Or<Fault>>
    requires whole_callable { G.IsAlwaysCallable here.now.whole }
    requires whole_exact { (alloc : _) (tokens : _) (result : _) (after : _) → G.post here.now.whole alloc tokens result after → WholeRead here.now.level.at tokens.now result after.now }
    ensures { Reads ((jump_of here.now.level.at.left (inner_of here.now.level.at)).reads tokens.old) result tokens.new }
{
    if begins(tokens, &[KW_GOTO]) {
        return of_goto(alloc, tokens);
    }
    if begins(tokens, &[KW_BREAK]) {
        return of_break(tokens);
    }
    if begins(tokens, &[KW_CONTINUE]) {
        return of_continue(tokens);
    }
    if begins(tokens, &[KW_RETURN]) {
        return of_return(here, alloc, tokens);
    }
    of_throw(here, alloc, tokens)
}
