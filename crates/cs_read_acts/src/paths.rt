// Statements that begin with `global`: labels, declarations by a type's path, assignments and calls.

ghost use Rattle.std.specs.Prelude.{◌≤◌, [], ◌∷◌};
ghost use Rattle.cs_grammar.specs.Grammar.{either};
ghost use Rattle.cs_grammar.specs.Reads.{Reads};
ghost use Rattle.cs_productions.specs.Kinds.{bracket, colons};
ghost use Rattle.cs_productions.specs.Tokens.{kind as kind_of, spot_of};
ghost use Rattle.cs_productions.specs.Primaries.{global_leaf};
ghost use Rattle.cs_statements.specs.Actions.{postfix_act as postfix_act_of, index_act as index_act_of, bracket_statement as bracket_statement_of, path_act as path_act_of, path_statement as path_statement_of, global_statement as global_statement_of};
ghost use Rattle.cs_read_calls.specs.Asked.{inner_of, Asked};
ghost use Rattle.cs_read_actions.specs.Place.{WholeRead};

use crate::actions::{act, postfix_act};
use cs_grammar::Fault;
use cs_lex::{Cursor, begins, expect, take_one};
use cs_productions::{Measured, Part};
use cs_read_actions::{
    Place, array_declared, called_or_alone, declared, global_type, labelled, named,
};
use cs_read_calls::{Ask, Got, element, held, leaf};
use cs_read_types::kinds::{BRACKET, COLON, COLONS, EXPRESSION, GLOBAL, NAMES, UNBRACKET};
use cs_read_types::{path, spot, text};
use cs_token::Token;
use cs_tree::{Form, Spot, Syntax};
use dc_base::{Or, Seq, Text};
use std::alloc::Global;

fn index_act<
    F: Fn(Global, &mut Cursor, Ask) -> Result<Got, Or<Fault>>,
    G: Fn(Global, &mut Cursor) -> Result<Measured, Or<Fault>>,
>(
    here: &Place<F, G>,
    alloc: Global,
    tokens: &mut Cursor,
    array: Measured,
) -> Result<Syntax, Or<Fault>>
    requires callable { F.IsAlwaysCallable here.now.level.read }
    requires exact { (alloc : _) (tokens : _) (ask : _) (result : _) (after : _) → F.post here.now.level.read alloc tokens ask result after → Asked here.now.level.at ask tokens.now result after.now }
    requires whole_callable { G.IsAlwaysCallable here.now.whole }
    requires whole_exact { (alloc : _) (tokens : _) (result : _) (after : _) → G.post here.now.whole alloc tokens result after → WholeRead here.now.level.at tokens.now result after.now }
    requires within { array.height ≤ here.now.level.at.left }
    ensures { Reads ((index_act_of here.now.level.at.left (inner_of here.now.level.at) array).reads tokens.old) result tokens.new }
{
    // No height reaches the end of its type.
    let _levels = here.level.levels();
    let array = held(alloc, array)?;
    let index = here.level.form(alloc, tokens, Part::Whole)?;
    expect(tokens, UNBRACKET)?;
    let first = element(alloc, array, index)?;
    postfix_act(here, alloc, tokens, first)
}

fn bracket_statement<
    F: Fn(Global, &mut Cursor, Ask) -> Result<Got, Or<Fault>>,
    G: Fn(Global, &mut Cursor) -> Result<Measured, Or<Fault>>,
>(
    here: &Place<F, G>,
    alloc: Global,
    tokens: &mut Cursor,
    spot: Spot,
    path: Seq<Text>,
) -> Result<Syntax, Or<Fault>>
    requires callable { F.IsAlwaysCallable here.now.level.read }
    requires exact { (alloc : _) (tokens : _) (ask : _) (result : _) (after : _) → F.post here.now.level.read alloc tokens ask result after → Asked here.now.level.at ask tokens.now result after.now }
    requires whole_callable { G.IsAlwaysCallable here.now.whole }
    requires whole_exact { (alloc : _) (tokens : _) (result : _) (after : _) → G.post here.now.whole alloc tokens result after → WholeRead here.now.level.at tokens.now result after.now }
    ensures { Reads ((bracket_statement_of here.now.level.at.left (inner_of here.now.level.at) spot path).reads tokens.old) result tokens.new }
{
    expect(tokens, BRACKET)?;
    if !begins(tokens, &EXPRESSION) {
        return array_declared(here, alloc, tokens, global_type(spot, path));
    }
    if here.level.levels() == 0 {
        return Err(Or::Fault(Fault::TooDeep));
    }
    index_act(here, alloc, tokens, leaf(Form::Global { spot, path }, spot))
}

fn path_act<
    F: Fn(Global, &mut Cursor, Ask) -> Result<Got, Or<Fault>>,
    G: Fn(Global, &mut Cursor) -> Result<Measured, Or<Fault>>,
>(
    here: &Place<F, G>,
    alloc: Global,
    tokens: &mut Cursor,
    spot: Spot,
    path: Seq<Text>,
) -> Result<Syntax, Or<Fault>>
    requires callable { F.IsAlwaysCallable here.now.level.read }
    requires exact { (alloc : _) (tokens : _) (ask : _) (result : _) (after : _) → F.post here.now.level.read alloc tokens ask result after → Asked here.now.level.at ask tokens.now result after.now }
    requires whole_callable { G.IsAlwaysCallable here.now.whole }
    requires whole_exact { (alloc : _) (tokens : _) (result : _) (after : _) → G.post here.now.whole alloc tokens result after → WholeRead here.now.level.at tokens.now result after.now }
    ensures { Reads ((path_act_of here.now.level.at.left (inner_of here.now.level.at) spot path).reads tokens.old) result tokens.new }
{
    let place = called_or_alone(&here.level, alloc, tokens, spot, path)?;
    act(here, alloc, tokens, place)
}

fn behind_path<
    F: Fn(Global, &mut Cursor, Ask) -> Result<Got, Or<Fault>>,
    G: Fn(Global, &mut Cursor) -> Result<Measured, Or<Fault>>,
>(
    here: &Place<F, G>,
    alloc: Global,
    tokens: &mut Cursor,
    spot: Spot,
    path: Seq<Text>,
) -> Result<Syntax, Or<Fault>>
    requires callable { F.IsAlwaysCallable here.now.level.read }
    requires exact { (alloc : _) (tokens : _) (ask : _) (result : _) (after : _) → F.post here.now.level.read alloc tokens ask result after → Asked here.now.level.at ask tokens.now result after.now }
    requires whole_callable { G.IsAlwaysCallable here.now.whole }
    requires whole_exact { (alloc : _) (tokens : _) (result : _) (after : _) → G.post here.now.whole alloc tokens result after → WholeRead here.now.level.at tokens.now result after.now }
    ensures { Reads ((either kind_of (bracket ∷ []) (bracket_statement_of here.now.level.at.left (inner_of here.now.level.at) spot path) (path_act_of here.now.level.at.left (inner_of here.now.level.at) spot path)).reads tokens.old) result tokens.new }
{
    if begins(tokens, &[BRACKET]) {
        return bracket_statement(here, alloc, tokens, spot, path);
    }
    path_act(here, alloc, tokens, spot, path)
}

fn path_statement<
    F: Fn(Global, &mut Cursor, Ask) -> Result<Got, Or<Fault>>,
    G: Fn(Global, &mut Cursor) -> Result<Measured, Or<Fault>>,
>(here: &Place<F, G>, alloc: Global, tokens: &mut Cursor, spot: Spot) -> Result<Syntax, Or<Fault>>
    requires callable { F.IsAlwaysCallable here.now.level.read }
    requires exact { (alloc : _) (tokens : _) (ask : _) (result : _) (after : _) → F.post here.now.level.read alloc tokens ask result after → Asked here.now.level.at ask tokens.now result after.now }
    requires whole_callable { G.IsAlwaysCallable here.now.whole }
    requires whole_exact { (alloc : _) (tokens : _) (result : _) (after : _) → G.post here.now.whole alloc tokens result after → WholeRead here.now.level.at tokens.now result after.now }
    ensures { Reads ((path_statement_of here.now.level.at.left (inner_of here.now.level.at) spot).reads tokens.old) result tokens.new }
{
    expect(tokens, COLONS)?;
    let path = path(alloc, tokens)?;
    if begins(tokens, &NAMES) {
        return declared(here, alloc, tokens, global_type(spot, path));
    }
    behind_path(here, alloc, tokens, spot, path)
}

fn behind_global<
    F: Fn(Global, &mut Cursor, Ask) -> Result<Got, Or<Fault>>,
    G: Fn(Global, &mut Cursor) -> Result<Measured, Or<Fault>>,
>(
    here: &Place<F, G>,
    alloc: Global,
    tokens: &mut Cursor,
    token: &Token,
) -> Result<Syntax, Or<Fault>>
    requires callable { F.IsAlwaysCallable here.now.level.read }
    requires exact { (alloc : _) (tokens : _) (ask : _) (result : _) (after : _) → F.post here.now.level.read alloc tokens ask result after → Asked here.now.level.at ask tokens.now result after.now }
    requires whole_callable { G.IsAlwaysCallable here.now.whole }
    requires whole_exact { (alloc : _) (tokens : _) (result : _) (after : _) → G.post here.now.whole alloc tokens result after → WholeRead here.now.level.at tokens.now result after.now }
    ensures { Reads ((either kind_of (colons ∷ []) (path_statement_of here.now.level.at.left (inner_of here.now.level.at) (spot_of token.now)) (postfix_act_of here.now.level.at.left (inner_of here.now.level.at) (global_leaf token.now))).reads tokens.old) result tokens.new }
{
    if begins(tokens, &[COLONS]) {
        return path_statement(here, alloc, tokens, spot(token));
    }
    let name = named(alloc, token)?;
    postfix_act(here, alloc, tokens, name)
}

/// A label, a declaration, an assignment or a call that begins with `global`.
pub fn global_statement<
    F: Fn(Global, &mut Cursor, Ask) -> Result<Got, Or<Fault>>,
    G: Fn(Global, &mut Cursor) -> Result<Measured, Or<Fault>>,
>(here: &Place<F, G>, alloc: Global, tokens: &mut Cursor) -> Result<Syntax, Or<Fault>>
    requires callable { F.IsAlwaysCallable here.now.level.read }
    requires exact { (alloc : _) (tokens : _) (ask : _) (result : _) (after : _) → F.post here.now.level.read alloc tokens ask result after → Asked here.now.level.at ask tokens.now result after.now }
    requires whole_callable { G.IsAlwaysCallable here.now.whole }
    requires whole_exact { (alloc : _) (tokens : _) (result : _) (after : _) → G.post here.now.whole alloc tokens result after → WholeRead here.now.level.at tokens.now result after.now }
    ensures { Reads ((global_statement_of here.now.level.at.left (inner_of here.now.level.at)).reads tokens.old) result tokens.new }
{
    let token = take_one(tokens, &[GLOBAL])?;
    if begins(tokens, &[COLON]) {
        let label = text(alloc, &token)?;
        return labelled(tokens, spot(&token), label);
    }
    behind_global(here, alloc, tokens, &token)
}
