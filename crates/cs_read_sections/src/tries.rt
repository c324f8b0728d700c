// `try`

ghost use Rattle.std.specs.Prelude.{◌≡◌, [], ◌∷◌, true};
ghost use Rattle.cs_grammar.specs.Grammar.{turns};
ghost use Rattle.cs_grammar.specs.Reads.{Reads};
ghost use Rattle.cs_productions.specs.Kinds.{kw_catch};
ghost use Rattle.cs_productions.specs.Tokens.{kind as kind_of};
ghost use Rattle.cs_statements.specs.Structured.{maybe_name as maybe_name_of, catching as catching_of, one_more_catching as one_more_catching_of, of_try as of_try_of};
ghost use Rattle.cs_read_calls.specs.Asked.{inner_of, Asked};

use cs_grammar::Fault;
use cs_lex::{Cursor, begins, expect};
use cs_read_actions::pairs;
use cs_read_calls::{Ask, Got, Level};
use cs_read_heads::kinds::{KW_CATCH, KW_FINALLY, KW_TRY};
use cs_read_heads::maybe_block;
use cs_read_types::kinds::{NAMES, PAREN, UNPAREN};
use cs_read_types::{any_name, place, ty};
use cs_tree::{Catching, Name, Syntax};
use dc_base::{Items, Or};
use std::alloc::Global;

fn maybe_name(alloc: Global, tokens: &mut Cursor) -> Result<Option<Name>, Or<Fault>>
    ensures { Reads (maybe_name_of.reads tokens.old) result tokens.new }
{
    if !begins(tokens, &NAMES) {
        return Ok(None);
    }
    let name = any_name(alloc, tokens)?;
    Ok(Some(name))
}

fn catching<F: Fn(Global, &mut Cursor, Ask) -> Result<Got, Or<Fault>>>(
    level: &Level<F>,
    alloc: Global,
    tokens: &mut Cursor,
) -> Result<Catching, Or<Fault>>
    requires callable { F.IsAlwaysCallable level.now.read }
    requires exact { (alloc : _) (tokens : _) (ask : _) (result : _) (after : _) → F.post level.now.read alloc tokens ask result after → Asked level.now.at ask tokens.now result after.now }
    ensures { Reads ((catching_of (inner_of level.now.at)).reads tokens.old) result tokens.new }
{
    let spot = place(tokens, KW_CATCH)?;
    expect(tokens, PAREN)?;
    let ty = ty(alloc, tokens, pairs(level))?;
    let name = maybe_name(alloc, tokens)?;
    expect(tokens, UNPAREN)?;
    let block = level.block(alloc, tokens)?;
    Ok(Catching {
        spot,
        ty,
        name,
        block,
    })
}

fn one_more_catching<F: Fn(Global, &mut Cursor, Ask) -> Result<Got, Or<Fault>>>(
    level: &Level<F>,
    alloc: Global,
    tokens: &mut Cursor,
    mut catches: Items<Catching>,
) -> Result<Items<Catching>, Or<Fault>>
    requires callable { F.IsAlwaysCallable level.now.read }
    requires exact { (alloc : _) (tokens : _) (ask : _) (result : _) (after : _) → F.post level.now.read alloc tokens ask result after → Asked level.now.at ask tokens.now result after.now }
    ensures { Reads ((one_more_catching_of (inner_of level.now.at) catches).reads tokens.old) result tokens.new }
{
    let next = catching(level, alloc, tokens)?;
    catches.push(next)?;
    Ok(catches)
}

fn catches<F: Fn(Global, &mut Cursor, Ask) -> Result<Got, Or<Fault>>>(
    level: &Level<F>,
    alloc: Global,
    tokens: &mut Cursor,
) -> Result<Items<Catching>, Or<Fault>>
    requires callable { F.IsAlwaysCallable level.now.read }
    requires exact { (alloc : _) (tokens : _) (ask : _) (result : _) (after : _) → F.post level.now.read alloc tokens ask result after → Asked level.now.at ask tokens.now result after.now }
    ensures { Reads ((turns kind_of (kw_catch ∷ []) (λ _. true) (one_more_catching_of (inner_of level.now.at)) []).reads tokens.old) result tokens.new }
{
    let mut catches = Items::new(alloc);
    'turns: for _ in 0..tokens.left() {
        if !begins(tokens, &[KW_CATCH]) {
            return Ok(catches);
        }
        catches = one_more_catching(level, alloc, tokens, catches)?;
    }
    Ok(catches)
}

/// `try { } catch (global::A.B x) { } finally { }`
pub fn of_try<F: Fn(Global, &mut Cursor, Ask) -> Result<Got, Or<Fault>>>(
    level: &Level<F>,
    alloc: Global,
    tokens: &mut Cursor,
) -> Result<Syntax, Or<Fault>>
    requires callable { F.IsAlwaysCallable level.now.read }
    requires exact { (alloc : _) (tokens : _) (ask : _) (result : _) (after : _) → F.post level.now.read alloc tokens ask result after → Asked level.now.at ask tokens.now result after.now }
    ensures { Reads ((of_try_of (inner_of level.now.at)).reads tokens.old) result tokens.new }
{
    let spot = place(tokens, KW_TRY)?;
    let block = level.block(alloc, tokens)?;
    let catches = catches(level, alloc, tokens)?;
    let finally = maybe_block(level, alloc, tokens, KW_FINALLY)?;
    Ok(Syntax::Try {
        spot,
        block,
        catches,
        finally,
    })
}
