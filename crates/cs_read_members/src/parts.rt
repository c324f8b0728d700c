// What members are made of: parameters, a body, a name of some kinds.

ghost use Rattle.std.specs.Prelude.{◌≡◌, [], ◌∷◌};
ghost use Rattle.cs_grammar.specs.Grammar.{one};
ghost use Rattle.cs_grammar.specs.Reads.{Reads};
ghost use Rattle.cs_productions.specs.Tokens.{kind as kind_of, name_of};
ghost use Rattle.cs_units.specs.Members.{are_none, some_params as some_params_of, params as params_of, body as body_of};
ghost use Rattle.cs_read_calls.specs.Asked.{inner_of, Asked};

use cs_grammar::Fault;
use cs_lex::{Cursor, begins, expect, take_one};
use cs_read_calls::{Ask, Got, Level};
use cs_read_types::kinds::{PAREN, SEMICOLON, UNPAREN};
use cs_read_types::{more_params, param, spot, text};
use cs_tree::{Block, Name, Param};
use dc_base::{Or, Seq};
use std::alloc::Global;

/// How many pairs of brackets a type may have.
pub fn limit<F>(level: &Level<F>) -> u16
    ensures { result ≡ (inner_of level.now.at).ranks }
{
    level.at.ranks
}

/// Whether there are no parameters.
pub(crate) fn are_no(params: &Seq<Param>) -> bool
    ensures { result ≡ are_none params.now }
{
    match params.items() {
        [] => true,
        _ => false,
    }
}

/// Takes a name of one of these kinds.
pub fn named(alloc: Global, tokens: &mut Cursor, kinds: &[u16]) -> Result<Name, Or<Fault>>
    ensures { Reads ((one kind_of kinds.now name_of).reads tokens.old) result tokens.new }
{
    let token = take_one(tokens, kinds)?;
    let text = text(alloc, &token)?;
    Ok(Name {
        spot: spot(&token),
        text,
    })
}

fn some_params(alloc: Global, tokens: &mut Cursor, limit: u16) -> Result<Seq<Param>, Or<Fault>>
    ensures { Reads ((some_params_of limit).reads tokens.old) result tokens.new }
{
    let first = param(alloc, tokens, limit)?;
    let mut params = Seq::new(alloc);
    params.push(first)?;
    let params = more_params(alloc, tokens, limit, params)?;
    expect(tokens, UNPAREN)?;
    Ok(params)
}

/// Parameters, in parentheses.
pub fn params(alloc: Global, tokens: &mut Cursor, limit: u16) -> Result<Seq<Param>, Or<Fault>>
    ensures { Reads ((params_of limit).reads tokens.old) result tokens.new }
{
    expect(tokens, PAREN)?;
    if !begins(tokens, &[UNPAREN]) {
        return some_params(alloc, tokens, limit);
    }
    expect(tokens, UNPAREN)?;
    Ok(Seq::new(alloc))
}

/// A block, or `;`.
pub(crate) fn body<F: Fn(Global, &mut Cursor, Ask) -> Result<Got, Or<Fault>>>(
    level: &Level<F>,
    alloc: Global,
    tokens: &mut Cursor,
) -> Result<Option<Block>, Or<Fault>>
    requires callable { F.IsAlwaysCallable level.now.read }
    requires exact { (alloc : _) (tokens : _) (ask : _) (result : _) (after : _) → F.post level.now.read alloc tokens ask result after → Asked level.now.at ask tokens.now result after.now }
    ensures { Reads ((body_of (inner_of level.now.at)).reads tokens.old) result tokens.new }
{
    if !begins(tokens, &[SEMICOLON]) {
        return Ok(Some(level.block(alloc, tokens)?));
    }
    expect(tokens, SEMICOLON)?;
    Ok(None)
}
