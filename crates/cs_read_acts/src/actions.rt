// Assignments and calls, and what begins with a name.

ghost use Rattle.std.specs.Prelude.{◌≡◌, true, false, MatchResult, IfOk, Ok, Err};
ghost use Rattle.cs_grammar.specs.Grammar.{one};
ghost use Rattle.cs_grammar.specs.Reads.{Reads};
ghost use Rattle.cs_grammar.specs.declared.fault.Fault.TheVariants.{Unexpected};
ghost use Rattle.cs_productions.specs.Tokens.{kind as kind_of, simple_of};
ghost use Rattle.cs_productions.specs.Primaries.{global_leaf};
ghost use Rattle.cs_statements.specs.Kinds.{name_kinds};
ghost use Rattle.cs_statements.specs.Actions.{acted as acted_of, action_to as action_to_of, act as act_of, primary_act as primary_act_of, postfix_act as postfix_act_of, named_statement as named_statement_of};
ghost use Rattle.cs_read_calls.specs.Asked.{inner_of, Asked};
ghost use Rattle.cs_read_actions.specs.Place.{WholeRead};
ghost use Rattle.cs_read_acts.specs.Acts.{ended_by, act_as};

use cs_grammar::Fault;
use cs_lex::{Cursor, begins, expect, take_one};
use cs_productions::Measured;
use cs_read_actions::kinds::{ASSIGNMENT, PLAIN_NAMES};
use cs_read_actions::{Place, invoke, labelled, named, set_to, unnamed_primary};
use cs_read_calls::{Ask, Got};
use cs_read_types::kinds::{COLON, SEMICOLON};
use cs_read_types::{spot, text};
use cs_token::Token;
use cs_tree::{Action, Syntax};
use dc_base::{NoMemory, Or};
use std::alloc::Global;

/// The sign behind what was read, which goes where it isn't there.
fn ended<A: Drop>(tokens: &mut Cursor, end: u16, read: A) -> Result<A, Or<Fault>>
    ensures { Reads ((ended_by end read).reads tokens.old) result tokens.new }
{
    expect(tokens, end)?;
    Ok(read)
}

/// What is done with a call.
fn called<F, G: Fn(Global, &mut Cursor) -> Result<Measured, Or<Fault>>>(
    here: &Place<F, G>,
    alloc: Global,
    tokens: &mut Cursor,
    call: Measured,
) -> Result<Action, Or<Fault>>
    requires whole_callable { G.IsAlwaysCallable here.now.whole }
    requires whole_exact { (alloc : _) (tokens : _) (result : _) (after : _) → G.post here.now.whole alloc tokens result after → WholeRead here.now.level.at tokens.now result after.now }
    ensures { Reads ((acted_of here.now.level.at.left (inner_of here.now.level.at) true call).reads tokens.old) result tokens.new }
{
    if begins(tokens, &ASSIGNMENT) {
        return set_to(here, alloc, tokens, call);
    }
    Ok(invoke(call))
}

fn call_to<F, G: Fn(Global, &mut Cursor) -> Result<Measured, Or<Fault>>>(
    here: &Place<F, G>,
    alloc: Global,
    tokens: &mut Cursor,
    end: u16,
    call: Measured,
) -> Result<Action, Or<Fault>>
    requires whole_callable { G.IsAlwaysCallable here.now.whole }
    requires whole_exact { (alloc : _) (tokens : _) (result : _) (after : _) → G.post here.now.whole alloc tokens result after → WholeRead here.now.level.at tokens.now result after.now }
    ensures { Reads ((action_to_of here.now.level.at.left (inner_of here.now.level.at) end true call).reads tokens.old) result tokens.new }
{
    let action = called(here, alloc, tokens, call)?;
    ended(tokens, end, action)
}

fn place_to<F, G: Fn(Global, &mut Cursor) -> Result<Measured, Or<Fault>>>(
    here: &Place<F, G>,
    alloc: Global,
    tokens: &mut Cursor,
    end: u16,
    place: Measured,
) -> Result<Action, Or<Fault>>
    requires whole_callable { G.IsAlwaysCallable here.now.whole }
    requires whole_exact { (alloc : _) (tokens : _) (result : _) (after : _) → G.post here.now.whole alloc tokens result after → WholeRead here.now.level.at tokens.now result after.now }
    ensures { Reads ((action_to_of here.now.level.at.left (inner_of here.now.level.at) end false place).reads tokens.old) result tokens.new }
{
    let action = set_to(here, alloc, tokens, place)?;
    ended(tokens, end, action)
}

/// What is done to a place or with a call, and the sign behind it.
pub fn action_to<F, G: Fn(Global, &mut Cursor) -> Result<Measured, Or<Fault>>>(
    here: &Place<F, G>,
    alloc: Global,
    tokens: &mut Cursor,
    end: u16,
    place: Measured,
) -> Result<Action, Or<Fault>>
    requires whole_callable { G.IsAlwaysCallable here.now.whole }
    requires whole_exact { (alloc : _) (tokens : _) (result : _) (after : _) → G.post here.now.whole alloc tokens result after → WholeRead here.now.level.at tokens.now result after.now }
    ensures { Reads ((action_to_of here.now.level.at.left (inner_of here.now.level.at) end place.is_call place).reads tokens.old) result tokens.new }
{
    if place.is_call {
        return call_to(here, alloc, tokens, end, place);
    }
    place_to(here, alloc, tokens, end, place)
}

fn act_with<F, G: Fn(Global, &mut Cursor) -> Result<Measured, Or<Fault>>>(
    here: &Place<F, G>,
    alloc: Global,
    tokens: &mut Cursor,
    call: Measured,
) -> Result<Syntax, Or<Fault>>
    requires whole_callable { G.IsAlwaysCallable here.now.whole }
    requires whole_exact { (alloc : _) (tokens : _) (result : _) (after : _) → G.post here.now.whole alloc tokens result after → WholeRead here.now.level.at tokens.now result after.now }
    ensures { Reads ((act_as here.now.level.at.left (inner_of here.now.level.at) true call).reads tokens.old) result tokens.new }
{
    let spot = call.spot;
    let action = call_to(here, alloc, tokens, SEMICOLON, call)?;
    Ok(Syntax::Act { spot, action })
}

fn act_on<F, G: Fn(Global, &mut Cursor) -> Result<Measured, Or<Fault>>>(
    here: &Place<F, G>,
    alloc: Global,
    tokens: &mut Cursor,
    place: Measured,
) -> Result<Syntax, Or<Fault>>
    requires whole_callable { G.IsAlwaysCallable here.now.whole }
    requires whole_exact { (alloc : _) (tokens : _) (result : _) (after : _) → G.post here.now.whole alloc tokens result after → WholeRead here.now.level.at tokens.now result after.now }
    ensures { Reads ((act_as here.now.level.at.left (inner_of here.now.level.at) false place).reads tokens.old) result tokens.new }
{
    let spot = place.spot;
    let action = place_to(here, alloc, tokens, SEMICOLON, place)?;
    Ok(Syntax::Act { spot, action })
}

/// An assignment or a call, behind its place.
pub(crate) fn act<F, G: Fn(Global, &mut Cursor) -> Result<Measured, Or<Fault>>>(
    here: &Place<F, G>,
    alloc: Global,
    tokens: &mut Cursor,
    place: Measured,
) -> Result<Syntax, Or<Fault>>
    requires whole_callable { G.IsAlwaysCallable here.now.whole }
    requires whole_exact { (alloc : _) (tokens : _) (result : _) (after : _) → G.post here.now.whole alloc tokens result after → WholeRead here.now.level.at tokens.now result after.now }
    ensures { Reads ((act_of here.now.level.at.left (inner_of here.now.level.at) place).reads tokens.old) result tokens.new }
{
    if place.is_call {
        return act_with(here, alloc, tokens, place);
    }
    act_on(here, alloc, tokens, place)
}

/// An assignment or a call that begins with no name.
pub fn primary_act<
    F: Fn(Global, &mut Cursor, Ask) -> Result<Got, Or<Fault>>,
    G: Fn(Global, &mut Cursor) -> Result<Measured, Or<Fault>>,
>(here: &Place<F, G>, alloc: Global, tokens: &mut Cursor) -> Result<Syntax, Or<Fault>>
    requires callable { F.IsAlwaysCallable here.now.level.read }
    requires exact { (alloc : _) (tokens : _) (ask : _) (result : _) (after : _) → F.post here.now.level.read alloc tokens ask result after → Asked here.now.level.at ask tokens.now result after.now }
    requires whole_callable { G.IsAlwaysCallable here.now.whole }
    requires whole_exact { (alloc : _) (tokens : _) (result : _) (after : _) → G.post here.now.whole alloc tokens result after → WholeRead here.now.level.at tokens.now result after.now }
    ensures { Reads ((primary_act_of here.now.level.at.left (inner_of here.now.level.at)).reads tokens.old) result tokens.new }
{
    let place = unnamed_primary(&here.level, alloc, tokens)?;
    act(here, alloc, tokens, place)
}

/// An assignment or a call, behind the first part of its place.
pub(crate) fn postfix_act<
    F: Fn(Global, &mut Cursor, Ask) -> Result<Got, Or<Fault>>,
    G: Fn(Global, &mut Cursor) -> Result<Measured, Or<Fault>>,
>(
    here: &Place<F, G>,
    alloc: Global,
    tokens: &mut Cursor,
    first: Measured,
) -> Result<Syntax, Or<Fault>>
    requires callable { F.IsAlwaysCallable here.now.level.read }
    requires exact { (alloc : _) (tokens : _) (ask : _) (result : _) (after : _) → F.post here.now.level.read alloc tokens ask result after → Asked here.now.level.at ask tokens.now result after.now }
    requires whole_callable { G.IsAlwaysCallable here.now.whole }
    requires whole_exact { (alloc : _) (tokens : _) (result : _) (after : _) → G.post here.now.whole alloc tokens result after → WholeRead here.now.level.at tokens.now result after.now }
    ensures { Reads ((postfix_act_of here.now.level.at.left (inner_of here.now.level.at) first).reads tokens.old) result tokens.new }
{
    let place = here.level.postfixes(alloc, tokens, first)?;
    act(here, alloc, tokens, place)
}

/// Takes a name but `global`, which as an expression is its text.
fn plain_name<'a>(tokens: &mut Cursor<'a>) -> Result<Token<'a>, Fault>
    ensures reads { let read = (one kind_of name_kinds (λ t. t)).reads tokens.old in
        MatchResult result (λ taken. read ≡ Ok (taken, tokens.new)) (λ fault. (fault ≡ Unexpected) × (read ≡ Err (false, tokens.new))) }
    ensures name { IfOk result (λ taken. simple_of taken ≡ global_leaf taken) }
{
    let token = take_one(tokens, &PLAIN_NAMES)?;
    Ok(token)
}

fn plain(alloc: Global, token: &Token) -> Result<Measured, NoMemory>
    requires { simple_of token.now ≡ global_leaf token.now }
    ensures { IfOk result (λ name. name ≡ simple_of token.now) }
{
    named(alloc, token)
}

/// A label, or an assignment or a call that begins with a name.
pub fn named_statement<
    F: Fn(Global, &mut Cursor, Ask) -> Result<Got, Or<Fault>>,
    G: Fn(Global, &mut Cursor) -> Result<Measured, Or<Fault>>,
>(here: &Place<F, G>, alloc: Global, tokens: &mut Cursor) -> Result<Syntax, Or<Fault>>
    requires callable { F.IsAlwaysCallable here.now.level.read }
    requires exact { (alloc : _) (tokens : _) (ask : _) (result : _) (after : _) → F.post here.now.level.read alloc tokens ask result after → Asked here.now.level.at ask tokens.now result after.now }
    requires whole_callable { G.IsAlwaysCallable here.now.whole }
    requires whole_exact { (alloc : _) (tokens : _) (result : _) (after : _) → G.post here.now.whole alloc tokens result after → WholeRead here.now.level.at tokens.now result after.now }
    ensures { Reads ((named_statement_of here.now.level.at.left (inner_of here.now.level.at)).reads tokens.old) result tokens.new }
{
    let token = plain_name(tokens)?;
    if begins(tokens, &[COLON]) {
        let label = text(alloc, &token)?;
        return labelled(tokens, spot(&token), label);
    }
    let name = plain(alloc, &token)?;
    postfix_act(here, alloc, tokens, name)
}
