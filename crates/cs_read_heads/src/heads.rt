// Statements with more in their parentheses than one expression: `for`, `foreach` and `using`.

ghost use Rattle.std.specs.Prelude.{◌≡◌, IfOk};
ghost use Rattle.cs_grammar.specs.Reads.{Reads};
ghost use Rattle.cs_productions.specs.Kinds.{equals, kw_in};
ghost use Rattle.cs_statements.specs.Structured.{step as step_of, of_for as of_for_of, foreach_of, of_foreach as of_foreach_of, using_of, of_using as of_using_of};
ghost use Rattle.cs_read_calls.specs.Asked.{inner_of, Asked};
ghost use Rattle.cs_read_actions.specs.Place.{WholeRead};
ghost use Rattle.cs_read_heads.specs.Tails.{second, for_behind as for_behind_of, over_behind};

use crate::kinds::{KW_FOR, KW_FOREACH, KW_IN, KW_USING};
use cs_grammar::Fault;
use cs_lex::{Cursor, expect};
use cs_productions::Measured;
use cs_read_actions::{Place, expression, pairs, primary};
use cs_read_acts::action_to;
use cs_read_calls::{Ask, Got, Level};
use cs_read_types::kinds::{EQUALS, PAREN, SEMICOLON, UNPAREN};
use cs_read_types::{any_name, place, ty};
use cs_tree::{Action, Block, Form, Spot, Syntax, TypeForm};
use dc_base::Or;
use std::alloc::Global;

/// The step of a `for`, and the `)` behind it.
fn step<
    F: Fn(Global, &mut Cursor, Ask) -> Result<Got, Or<Fault>>,
    G: Fn(Global, &mut Cursor) -> Result<Measured, Or<Fault>>,
>(here: &Place<F, G>, alloc: Global, tokens: &mut Cursor) -> Result<Action, Or<Fault>>
    requires callable { F.IsAlwaysCallable here.now.level.read }
    requires exact { (alloc : _) (tokens : _) (ask : _) (result : _) (after : _) → F.post here.now.level.read alloc tokens ask result after → Asked here.now.level.at ask tokens.now result after.now }
    requires whole_callable { G.IsAlwaysCallable here.now.whole }
    requires whole_exact { (alloc : _) (tokens : _) (result : _) (after : _) → G.post here.now.whole alloc tokens result after → WholeRead here.now.level.at tokens.now result after.now }
    ensures { Reads ((step_of here.now.level.at.left (inner_of here.now.level.at)).reads tokens.old) result tokens.new }
{
    let place = primary(&here.level, alloc, tokens)?;
    action_to(here, alloc, tokens, UNPAREN, place)
}

/// A block behind what was read, which goes where no block stands.
fn with_block<F: Fn(Global, &mut Cursor, Ask) -> Result<Got, Or<Fault>>, A: Drop>(
    level: &Level<F>,
    alloc: Global,
    tokens: &mut Cursor,
    read: A,
) -> Result<(A, Block), Or<Fault>>
    requires callable { F.IsAlwaysCallable level.now.read }
    requires exact { (alloc : _) (tokens : _) (ask : _) (result : _) (after : _) → F.post level.now.read alloc tokens ask result after → Asked level.now.at ask tokens.now result after.now }
    ensures same { IfOk result (λ both. both.0 ≡ read) }
    ensures reads { Reads ((inner_of level.now.at).block.reads tokens.old) (second result) tokens.new }
{
    let block = level.block(alloc, tokens)?;
    Ok((read, block))
}

fn for_behind<
    F: Fn(Global, &mut Cursor, Ask) -> Result<Got, Or<Fault>>,
    G: Fn(Global, &mut Cursor) -> Result<Measured, Or<Fault>>,
>(
    here: &Place<F, G>,
    alloc: Global,
    tokens: &mut Cursor,
    spot: Spot,
    test: Form,
) -> Result<Syntax, Or<Fault>>
    requires callable { F.IsAlwaysCallable here.now.level.read }
    requires exact { (alloc : _) (tokens : _) (ask : _) (result : _) (after : _) → F.post here.now.level.read alloc tokens ask result after → Asked here.now.level.at ask tokens.now result after.now }
    requires whole_callable { G.IsAlwaysCallable here.now.whole }
    requires whole_exact { (alloc : _) (tokens : _) (result : _) (after : _) → G.post here.now.whole alloc tokens result after → WholeRead here.now.level.at tokens.now result after.now }
    ensures { Reads ((for_behind_of here.now.level.at.left (inner_of here.now.level.at) spot test).reads tokens.old) result tokens.new }
{
    expect(tokens, SEMICOLON)?;
    let step = step(here, alloc, tokens)?;
    let (step, block) = with_block(&here.level, alloc, tokens, step)?;
    Ok(Syntax::For {
        spot,
        test,
        step,
        block,
    })
}

/// `for (; a; b += 1) { }`
pub fn of_for<
    F: Fn(Global, &mut Cursor, Ask) -> Result<Got, Or<Fault>>,
    G: Fn(Global, &mut Cursor) -> Result<Measured, Or<Fault>>,
>(here: &Place<F, G>, alloc: Global, tokens: &mut Cursor) -> Result<Syntax, Or<Fault>>
    requires callable { F.IsAlwaysCallable here.now.level.read }
    requires exact { (alloc : _) (tokens : _) (ask : _) (result : _) (after : _) → F.post here.now.level.read alloc tokens ask result after → Asked here.now.level.at ask tokens.now result after.now }
    requires whole_callable { G.IsAlwaysCallable here.now.whole }
    requires whole_exact { (alloc : _) (tokens : _) (result : _) (after : _) → G.post here.now.whole alloc tokens result after → WholeRead here.now.level.at tokens.now result after.now }
    ensures { Reads ((of_for_of here.now.level.at.left (inner_of here.now.level.at)).reads tokens.old) result tokens.new }
{
    let spot = place(tokens, KW_FOR)?;
    expect(tokens, PAREN)?;
    expect(tokens, SEMICOLON)?;
    let test = expression(here, alloc, tokens)?;
    for_behind(here, alloc, tokens, spot, test.form)
}

fn foreach_behind<
    F: Fn(Global, &mut Cursor, Ask) -> Result<Got, Or<Fault>>,
    G: Fn(Global, &mut Cursor) -> Result<Measured, Or<Fault>>,
>(
    here: &Place<F, G>,
    alloc: Global,
    tokens: &mut Cursor,
    spot: Spot,
    ty: TypeForm,
) -> Result<Syntax, Or<Fault>>
    requires callable { F.IsAlwaysCallable here.now.level.read }
    requires exact { (alloc : _) (tokens : _) (ask : _) (result : _) (after : _) → F.post here.now.level.read alloc tokens ask result after → Asked here.now.level.at ask tokens.now result after.now }
    requires whole_callable { G.IsAlwaysCallable here.now.whole }
    requires whole_exact { (alloc : _) (tokens : _) (result : _) (after : _) → G.post here.now.whole alloc tokens result after → WholeRead here.now.level.at tokens.now result after.now }
    ensures { Reads ((over_behind here.now.level.at.left (inner_of here.now.level.at) kw_in foreach_of spot ty).reads tokens.old) result tokens.new }
{
    let name = any_name(alloc, tokens)?;
    expect(tokens, KW_IN)?;
    let array = expression(here, alloc, tokens)?;
    expect(tokens, UNPAREN)?;
    let block = here.level.block(alloc, tokens)?;
    Ok(Syntax::Foreach {
        spot,
        ty,
        name,
        array: array.form,
        block,
    })
}

/// `foreach (int x in a) { }`
pub fn of_foreach<
    F: Fn(Global, &mut Cursor, Ask) -> Result<Got, Or<Fault>>,
    G: Fn(Global, &mut Cursor) -> Result<Measured, Or<Fault>>,
>(here: &Place<F, G>, alloc: Global, tokens: &mut Cursor) -> Result<Syntax, Or<Fault>>
    requires callable { F.IsAlwaysCallable here.now.level.read }
    requires exact { (alloc : _) (tokens : _) (ask : _) (result : _) (after : _) → F.post here.now.level.read alloc tokens ask result after → Asked here.now.level.at ask tokens.now result after.now }
    requires whole_callable { G.IsAlwaysCallable here.now.whole }
    requires whole_exact { (alloc : _) (tokens : _) (result : _) (after : _) → G.post here.now.whole alloc tokens result after → WholeRead here.now.level.at tokens.now result after.now }
    ensures { Reads ((of_foreach_of here.now.level.at.left (inner_of here.now.level.at)).reads tokens.old) result tokens.new }
{
    let spot = place(tokens, KW_FOREACH)?;
    expect(tokens, PAREN)?;
    let ty = ty(alloc, tokens, pairs(&here.level))?;
    foreach_behind(here, alloc, tokens, spot, ty)
}

fn using_behind<
    F: Fn(Global, &mut Cursor, Ask) -> Result<Got, Or<Fault>>,
    G: Fn(Global, &mut Cursor) -> Result<Measured, Or<Fault>>,
>(
    here: &Place<F, G>,
    alloc: Global,
    tokens: &mut Cursor,
    spot: Spot,
    ty: TypeForm,
) -> Result<Syntax, Or<Fault>>
    requires callable { F.IsAlwaysCallable here.now.level.read }
    requires exact { (alloc : _) (tokens : _) (ask : _) (result : _) (after : _) → F.post here.now.level.read alloc tokens ask result after → Asked here.now.level.at ask tokens.now result after.now }
    requires whole_callable { G.IsAlwaysCallable here.now.whole }
    requires whole_exact { (alloc : _) (tokens : _) (result : _) (after : _) → G.post here.now.whole alloc tokens result after → WholeRead here.now.level.at tokens.now result after.now }
    ensures { Reads ((over_behind here.now.level.at.left (inner_of here.now.level.at) equals using_of spot ty).reads tokens.old) result tokens.new }
{
    let name = any_name(alloc, tokens)?;
    expect(tokens, EQUALS)?;
    let value = expression(here, alloc, tokens)?;
    expect(tokens, UNPAREN)?;
    let block = here.level.block(alloc, tokens)?;
    Ok(Syntax::Using {
        spot,
        ty,
        name,
        value: value.form,
        block,
    })
}

/// `using (global::A.B x = a) { }`
pub fn of_using<
    F: Fn(Global, &mut Cursor, Ask) -> Result<Got, Or<Fault>>,
    G: Fn(Global, &mut Cursor) -> Result<Measured, Or<Fault>>,
>(here: &Place<F, G>, alloc: Global, tokens: &mut Cursor) -> Result<Syntax, Or<Fault>>
    requires callable { F.IsAlwaysCallable here.now.level.read }
    requires exact { (alloc : _) (tokens : _) (ask : _) (result : _) (after : _) → F.post here.now.level.read alloc tokens ask result after → Asked here.now.level.at ask tokens.now result after.now }
    requires whole_callable { G.IsAlwaysCallable here.now.whole }
    requires whole_exact { (alloc : _) (tokens : _) (result : _) (after : _) → G.post here.now.whole alloc tokens result after → WholeRead here.now.level.at tokens.now result after.now }
    ensures { Reads ((of_using_of here.now.level.at.left (inner_of here.now.level.at)).reads tokens.old) result tokens.new }
{
    let spot = place(tokens, KW_USING)?;
    expect(tokens, PAREN)?;
    let ty = ty(alloc, tokens, pairs(&here.level))?;
    using_behind(here, alloc, tokens, spot, ty)
}
