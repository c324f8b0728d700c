// Statements on one expression in parentheses: `if`, `while`, `do` and `lock`.

ghost use Rattle.std.specs.Prelude.{◌≡◌};
ghost use Rattle.cs_grammar.specs.Reads.{Reads};
ghost use Rattle.cs_statements.specs.Structured.{tested as tested_of, keyword_block as keyword_block_of, maybe_block as maybe_block_of, of_if as of_if_of, of_while as of_while_of, of_do as of_do_of, of_lock as of_lock_of};
ghost use Rattle.cs_read_calls.specs.Asked.{inner_of, Asked};
ghost use Rattle.cs_read_actions.specs.Place.{WholeRead};

use crate::kinds::{KW_DO, KW_ELSE, KW_IF, KW_LOCK, KW_WHILE};
use cs_grammar::Fault;
use cs_lex::{Cursor, begins, expect};
use cs_productions::Measured;
use cs_read_actions::{Place, expression};
use cs_read_calls::{Ask, Got, Level};
use cs_read_types::kinds::{PAREN, SEMICOLON, UNPAREN};
use cs_read_types::place;
use cs_tree::{Block, Syntax};
use dc_base::Or;
use std::alloc::Global;

/// An expression in parentheses.
pub fn tested<F, G: Fn(Global, &mut Cursor) -> Result<Measured, Or<Fault>>>(
    here: &Place<F, G>,
    alloc: Global,
    tokens: &mut Cursor,
) -> Result<Measured, Or<Fault>>
    requires whole_callable { G.IsAlwaysCallable here.now.whole }
    requires whole_exact { (alloc : _) (tokens : _) (result : _) (after : _) → G.post here.now.whole alloc tokens result after → WholeRead here.now.level.at tokens.now result after.now }
    ensures { Reads ((tested_of here.now.level.at.left (inner_of here.now.level.at)).reads tokens.old) result tokens.new }
{
    expect(tokens, PAREN)?;
    let test = expression(here, alloc, tokens)?;
    expect(tokens, UNPAREN)?;
    Ok(test)
}

fn keyword_block<F: Fn(Global, &mut Cursor, Ask) -> Result<Got, Or<Fault>>>(
    level: &Level<F>,
    alloc: Global,
    tokens: &mut Cursor,
    keyword: u16,
) -> Result<Option<Block>, Or<Fault>>
    requires callable { F.IsAlwaysCallable level.now.read }
    requires exact { (alloc : _) (tokens : _) (ask : _) (result : _) (after : _) → F.post level.now.read alloc tokens ask result after → Asked level.now.at ask tokens.now result after.now }
    ensures { Reads ((keyword_block_of (inner_of level.now.at) keyword).reads tokens.old) result tokens.new }
{
    expect(tokens, keyword)?;
    let block = level.block(alloc, tokens)?;
    Ok(Some(block))
}

/// A block behind this keyword, where it stands.
pub fn maybe_block<F: Fn(Global, &mut Cursor, Ask) -> Result<Got, Or<Fault>>>(
    level: &Level<F>,
    alloc: Global,
    tokens: &mut Cursor,
    keyword: u16,
) -> Result<Option<Block>, Or<Fault>>
    requires callable { F.IsAlwaysCallable level.now.read }
    requires exact { (alloc : _) (tokens : _) (ask : _) (result : _) (after : _) → F.post level.now.read alloc tokens ask result after → Asked level.now.at ask tokens.now result after.now }
    ensures { Reads ((maybe_block_of (inner_of level.now.at) keyword).reads tokens.old) result tokens.new }
{
    if begins(tokens, &[keyword]) {
        return keyword_block(level, alloc, tokens, keyword);
    }
    Ok(None)
}

/// `if (a) { } else { }`
pub fn of_if<
    F: Fn(Global, &mut Cursor, Ask) -> Result<Got, Or<Fault>>,
    G: Fn(Global, &mut Cursor) -> Result<Measured, Or<Fault>>,
>(here: &Place<F, G>, alloc: Global, tokens: &mut Cursor) -> Result<Syntax, Or<Fault>>
    requires callable { F.IsAlwaysCallable here.now.level.read }
    requires exact { (alloc : _) (tokens : _) (ask : _) (result : _) (after : _) → F.post here.now.level.read alloc tokens ask result after → Asked here.now.level.at ask tokens.now result after.now }
    requires whole_callable { G.IsAlwaysCallable here.now.whole }
    requires whole_exact { (alloc : _) (tokens : _) (result : _) (after : _) → G.post here.now.whole alloc tokens result after → WholeRead here.now.level.at tokens.now result after.now }
    ensures { Reads ((of_if_of here.now.level.at.left (inner_of here.now.level.at)).reads tokens.old) result tokens.new }
{
    let spot = place(tokens, KW_IF)?;
    let test = tested(here, alloc, tokens)?;
    let block = here.level.block(alloc, tokens)?;
    let otherwise = maybe_block(&here.level, alloc, tokens, KW_ELSE)?;
    Ok(Syntax::If {
        spot,
        test: test.form,
        block,
        otherwise,
    })
}

/// `while (a) { }`
pub fn of_while<
    F: Fn(Global, &mut Cursor, Ask) -> Result<Got, Or<Fault>>,
    G: Fn(Global, &mut Cursor) -> Result<Measured, Or<Fault>>,
>(here: &Place<F, G>, alloc: Global, tokens: &mut Cursor) -> Result<Syntax, Or<Fault>>
    requires callable { F.IsAlwaysCallable here.now.level.read }
    requires exact { (alloc : _) (tokens : _) (ask : _) (result : _) (after : _) → F.post here.now.level.read alloc tokens ask result after → Asked here.now.level.at ask tokens.now result after.now }
    requires whole_callable { G.IsAlwaysCallable here.now.whole }
    requires whole_exact { (alloc : _) (tokens : _) (result : _) (after : _) → G.post here.now.whole alloc tokens result after → WholeRead here.now.level.at tokens.now result after.now }
    ensures { Reads ((of_while_of here.now.level.at.left (inner_of here.now.level.at)).reads tokens.old) result tokens.new }
{
    let spot = place(tokens, KW_WHILE)?;
    let test = tested(here, alloc, tokens)?;
    let block = here.level.block(alloc, tokens)?;
    Ok(Syntax::While {
        spot,
        test: test.form,
        block,
    })
}

/// `do { } while (a);`
pub fn of_do<
    F: Fn(Global, &mut Cursor, Ask) -> Result<Got, Or<Fault>>,
    G: Fn(Global, &mut Cursor) -> Result<Measured, Or<Fault>>,
>(here: &Place<F, G>, alloc: Global, tokens: &mut Cursor) -> Result<Syntax, Or<Fault>>
    requires callable { F.IsAlwaysCallable here.now.level.read }
    requires exact { (alloc : _) (tokens : _) (ask : _) (result : _) (after : _) → F.post here.now.level.read alloc tokens ask result after → Asked here.now.level.at ask tokens.now result after.now }
    requires whole_callable { G.IsAlwaysCallable here.now.whole }
    requires whole_exact { (alloc : _) (tokens : _) (result : _) (after : _) → G.post here.now.whole alloc tokens result after → WholeRead here.now.level.at tokens.now result after.now }
    ensures { Reads ((of_do_of here.now.level.at.left (inner_of here.now.level.at)).reads tokens.old) result tokens.new }
{
    let spot = place(tokens, KW_DO)?;
    let block = here.level.block(alloc, tokens)?;
    expect(tokens, KW_WHILE)?;
    let test = tested(here, alloc, tokens)?;
    expect(tokens, SEMICOLON)?;
    Ok(Syntax::DoWhile {
        spot,
        block,
        test: test.form,
    })
}

/// `lock (a) { }`
pub fn of_lock<
    F: Fn(Global, &mut Cursor, Ask) -> Result<Got, Or<Fault>>,
    G: Fn(Global, &mut Cursor) -> Result<Measured, Or<Fault>>,
>(here: &Place<F, G>, alloc: Global, tokens: &mut Cursor) -> Result<Syntax, Or<Fault>>
    requires callable { F.IsAlwaysCallable here.now.level.read }
    requires exact { (alloc : _) (tokens : _) (ask : _) (result : _) (after : _) → F.post here.now.level.read alloc tokens ask result after → Asked here.now.level.at ask tokens.now result after.now }
    requires whole_callable { G.IsAlwaysCallable here.now.whole }
    requires whole_exact { (alloc : _) (tokens : _) (result : _) (after : _) → G.post here.now.whole alloc tokens result after → WholeRead here.now.level.at tokens.now result after.now }
    ensures { Reads ((of_lock_of here.now.level.at.left (inner_of here.now.level.at)).reads tokens.old) result tokens.new }
{
    let spot = place(tokens, KW_LOCK)?;
    let object = tested(here, alloc, tokens)?;
    let block = here.level.block(alloc, tokens)?;
    Ok(Syntax::Lock {
        spot,
        object: object.form,
        block,
    })
}
