// All statements, and blocks.

ghost use Rattle.std.specs.Prelude.{◌≡◌, ◌+◌, [], ◌∷◌, true};
ghost use Rattle.cs_grammar.specs.Grammar.{turns};
ghost use Rattle.cs_grammar.specs.Reads.{Reads};
ghost use Rattle.cs_productions.specs.Tokens.{kind as kind_of};
ghost use Rattle.cs_statements.specs.Kinds.{statement_kinds};
ghost use Rattle.cs_statements.specs.Structured.{structured as structured_of};
ghost use Rattle.cs_statements.specs.Blocks.{simple_statement as simple_statement_of, statement as statement_of, one_more_statement as one_more_statement_of, braced as braced_of, empty_block as empty_block_of, block_at};
ghost use Rattle.cs_read_calls.specs.Asked.{inner_of, Asked};
ghost use Rattle.cs_read_actions.specs.Place.{WholeRead};
ghost use Rattle.cs_read_statements.specs.Tails.{untested as untested_of};

use cs_grammar::Fault;
use cs_lex::{Cursor, begins, expect};
use cs_productions::Measured;
use cs_read_actions::kinds::PLAIN_NAMES;
use cs_read_actions::{Place, blocks, jump, keyword_declared};
use cs_read_acts::{global_statement, named_statement, primary_act};
use cs_read_calls::{Ask, Got};
use cs_read_heads::kinds::{
    KW_DO, KW_FOR, KW_FOREACH, KW_IF, KW_LOCK, KW_SWITCH, KW_USING, KW_WHILE,
};
use cs_read_heads::{of_do, of_for, of_foreach, of_if, of_lock, of_using, of_while};
use cs_read_sections::{of_switch, of_try};
use cs_read_types::kinds::{BRACE, GLOBAL, KEYWORD_TYPES, UNBRACE};
use cs_read_types::place;
use cs_tree::{Block, Syntax};
use dc_base::{Items, Or};
use std::alloc::Global;

/// The statements that jump.
const JUMPS: [u16; 5] = [89, 64, 72, 112, 123];

/// The statements that hold blocks.
const BLOCKS: [u16; 8] = [90, 136, 76, 87, 88, 132, 97, 125];

/// What a statement begins with.
const STATEMENTS: [u16; 45] = [
    63, 68, 113, 65, 115, 131, 93, 127, 98, 128, 102, 119, 4, 0, 5, 6, 7, 12, 100, 74, 69, 129, 62,
    1, 8, 2, 3, 124, 83, 101, 122, 89, 64, 72, 112, 123, 90, 136, 76, 87, 88, 132, 97, 125, 121,
];

/// A statement that holds blocks, but one on a test.
fn untested<
    F: Fn(Global, &mut Cursor, Ask) -> Result<Got, Or<Fault>>,
    G: Fn(Global, &mut Cursor) -> Result<Measured, Or<Fault>>,
>(here: &Place<F, G>, alloc: Global, tokens: &mut Cursor) -> Result<Syntax, Or<Fault>>
    requires callable { F.IsAlwaysCallable here.now.level.read }
    requires exact { (alloc : _) (tokens : _) (ask : _) (result : _) (after : _) → F.post here.now.level.read alloc tokens ask result after → Asked here.now.level.at ask tokens.now result after.now }
    requires whole_callable { G.IsAlwaysCallable here.now.whole }
    requires whole_exact { (alloc : _) (tokens : _) (result : _) (after : _) → G.post here.now.whole alloc tokens result after → WholeRead here.now.level.at tokens.now result after.now }
    ensures { Reads ((untested_of here.now.level.at.left (inner_of here.now.level.at)).reads tokens.old) result tokens.new }
{
    if begins(tokens, &[KW_FOREACH]) {
        return of_foreach(here, alloc, tokens);
    }
    if begins(tokens, &[KW_USING]) {
        return of_using(here, alloc, tokens);
    }
    if begins(tokens, &[KW_LOCK]) {
        return of_lock(here, alloc, tokens);
    }
    of_try(&here.level, alloc, tokens)
}

/// A statement that holds blocks.
fn structured<
    F: Fn(Global, &mut Cursor, Ask) -> Result<Got, Or<Fault>>,
    G: Fn(Global, &mut Cursor) -> Result<Measured, Or<Fault>>,
>(here: &Place<F, G>, alloc: Global, tokens: &mut Cursor) -> Result<Syntax, Or<Fault>>
    requires callable { F.IsAlwaysCallable here.now.level.read }
    requires exact { (alloc : _) (tokens : _) (ask : _) (result : _) (after : _) → F.post here.now.level.read alloc tokens ask result after → Asked here.now.level.at ask tokens.now result after.now }
    requires whole_callable { G.IsAlwaysCallable here.now.whole }
    requires whole_exact { (alloc : _) (tokens : _) (result : _) (after : _) → G.post here.now.whole alloc tokens result after → WholeRead here.now.level.at tokens.now result after.now }
    ensures { Reads ((structured_of here.now.level.at.left (inner_of here.now.level.at)).reads tokens.old) result tokens.new }
{
    if begins(tokens, &[KW_IF]) {
        return of_if(here, alloc, tokens);
    }
    if begins(tokens, &[KW_WHILE]) {
        return of_while(here, alloc, tokens);
    }
    if begins(tokens, &[KW_DO]) {
        return of_do(here, alloc, tokens);
    }
    if begins(tokens, &[KW_FOR]) {
        return of_for(here, alloc, tokens);
    }
    untested(here, alloc, tokens)
}

/// A statement without a block of its own.
fn simple_statement<
    F: Fn(Global, &mut Cursor, Ask) -> Result<Got, Or<Fault>>,
    G: Fn(Global, &mut Cursor) -> Result<Measured, Or<Fault>>,
>(here: &Place<F, G>, alloc: Global, tokens: &mut Cursor) -> Result<Syntax, Or<Fault>>
    requires callable { F.IsAlwaysCallable here.now.level.read }
    requires exact { (alloc : _) (tokens : _) (ask : _) (result : _) (after : _) → F.post here.now.level.read alloc tokens ask result after → Asked here.now.level.at ask tokens.now result after.now }
    requires whole_callable { G.IsAlwaysCallable here.now.whole }
    requires whole_exact { (alloc : _) (tokens : _) (result : _) (after : _) → G.post here.now.whole alloc tokens result after → WholeRead here.now.level.at tokens.now result after.now }
    ensures { Reads ((simple_statement_of here.now.level.at.left (inner_of here.now.level.at)).reads tokens.old) result tokens.new }
{
    if begins(tokens, &KEYWORD_TYPES) {
        return keyword_declared(here, alloc, tokens);
    }
    if begins(tokens, &[GLOBAL]) {
        return global_statement(here, alloc, tokens);
    }
    if begins(tokens, &PLAIN_NAMES) {
        return named_statement(here, alloc, tokens);
    }
    if begins(tokens, &JUMPS) {
        return jump(here, alloc, tokens);
    }
    if begins(tokens, &[KW_SWITCH]) {
        return of_switch(here, alloc, tokens);
    }
    primary_act(here, alloc, tokens)
}

/// A statement.
pub fn statement<
    F: Fn(Global, &mut Cursor, Ask) -> Result<Got, Or<Fault>>,
    G: Fn(Global, &mut Cursor) -> Result<Measured, Or<Fault>>,
>(here: &Place<F, G>, alloc: Global, tokens: &mut Cursor) -> Result<Syntax, Or<Fault>>
    requires callable { F.IsAlwaysCallable here.now.level.read }
    requires exact { (alloc : _) (tokens : _) (ask : _) (result : _) (after : _) → F.post here.now.level.read alloc tokens ask result after → Asked here.now.level.at ask tokens.now result after.now }
    requires whole_callable { G.IsAlwaysCallable here.now.whole }
    requires whole_exact { (alloc : _) (tokens : _) (result : _) (after : _) → G.post here.now.whole alloc tokens result after → WholeRead here.now.level.at tokens.now result after.now }
    ensures { Reads ((statement_of here.now.level.at.left (inner_of here.now.level.at)).reads tokens.old) result tokens.new }
{
    if !begins(tokens, &BLOCKS) {
        return simple_statement(here, alloc, tokens);
    }
    if blocks(&here.level) == 0 {
        return Err(Or::Fault(Fault::TooDeep));
    }
    structured(here, alloc, tokens)
}

fn one_more_statement<
    F: Fn(Global, &mut Cursor, Ask) -> Result<Got, Or<Fault>>,
    G: Fn(Global, &mut Cursor) -> Result<Measured, Or<Fault>>,
>(
    here: &Place<F, G>,
    alloc: Global,
    tokens: &mut Cursor,
    mut stmts: Items<Syntax>,
) -> Result<Items<Syntax>, Or<Fault>>
    requires callable { F.IsAlwaysCallable here.now.level.read }
    requires exact { (alloc : _) (tokens : _) (ask : _) (result : _) (after : _) → F.post here.now.level.read alloc tokens ask result after → Asked here.now.level.at ask tokens.now result after.now }
    requires whole_callable { G.IsAlwaysCallable here.now.whole }
    requires whole_exact { (alloc : _) (tokens : _) (result : _) (after : _) → G.post here.now.whole alloc tokens result after → WholeRead here.now.level.at tokens.now result after.now }
    ensures { Reads ((one_more_statement_of (statement_of here.now.level.at.left (inner_of here.now.level.at)) stmts).reads tokens.old) result tokens.new }
{
    let next = statement(here, alloc, tokens)?;
    stmts.push(next)?;
    Ok(stmts)
}

fn statements<
    F: Fn(Global, &mut Cursor, Ask) -> Result<Got, Or<Fault>>,
    G: Fn(Global, &mut Cursor) -> Result<Measured, Or<Fault>>,
>(here: &Place<F, G>, alloc: Global, tokens: &mut Cursor) -> Result<Items<Syntax>, Or<Fault>>
    requires callable { F.IsAlwaysCallable here.now.level.read }
    requires exact { (alloc : _) (tokens : _) (ask : _) (result : _) (after : _) → F.post here.now.level.read alloc tokens ask result after → Asked here.now.level.at ask tokens.now result after.now }
    requires whole_callable { G.IsAlwaysCallable here.now.whole }
    requires whole_exact { (alloc : _) (tokens : _) (result : _) (after : _) → G.post here.now.whole alloc tokens result after → WholeRead here.now.level.at tokens.now result after.now }
    ensures { Reads ((turns kind_of statement_kinds (λ _. true) (one_more_statement_of (statement_of here.now.level.at.left (inner_of here.now.level.at))) []).reads tokens.old) result tokens.new }
{
    let mut stmts = Items::new(alloc);
    'turns: for _ in 0..tokens.left() {
        if !begins(tokens, &STATEMENTS) {
            return Ok(stmts);
        }
        stmts = one_more_statement(here, alloc, tokens, stmts)?;
    }
    Ok(stmts)
}

fn braced<
    F: Fn(Global, &mut Cursor, Ask) -> Result<Got, Or<Fault>>,
    G: Fn(Global, &mut Cursor) -> Result<Measured, Or<Fault>>,
>(here: &Place<F, G>, alloc: Global, tokens: &mut Cursor) -> Result<Block, Or<Fault>>
    requires callable { F.IsAlwaysCallable here.now.level.read }
    requires exact { (alloc : _) (tokens : _) (ask : _) (result : _) (after : _) → F.post here.now.level.read alloc tokens ask result after → Asked here.now.level.at ask tokens.now result after.now }
    requires whole_callable { G.IsAlwaysCallable here.now.whole }
    requires whole_exact { (alloc : _) (tokens : _) (result : _) (after : _) → G.post here.now.whole alloc tokens result after → WholeRead here.now.level.at tokens.now result after.now }
    ensures { Reads ((braced_of (statement_of here.now.level.at.left (inner_of here.now.level.at))).reads tokens.old) result tokens.new }
{
    expect(tokens, BRACE)?;
    let stmts = statements(here, alloc, tokens)?;
    let end = place(tokens, UNBRACE)?;
    Ok(Block { stmts, end })
}

/// A block whose statements stand at this place: one block more may be open with it than in it, and an expression in it has all its
/// levels.
pub fn block<
    F: Fn(Global, &mut Cursor, Ask) -> Result<Got, Or<Fault>>,
    G: Fn(Global, &mut Cursor) -> Result<Measured, Or<Fault>>,
>(here: &Place<F, G>, alloc: Global, tokens: &mut Cursor) -> Result<Block, Or<Fault>>
    requires callable { F.IsAlwaysCallable here.now.level.read }
    requires exact { (alloc : _) (tokens : _) (ask : _) (result : _) (after : _) → F.post here.now.level.read alloc tokens ask result after → Asked here.now.level.at ask tokens.now result after.now }
    requires whole_callable { G.IsAlwaysCallable here.now.whole }
    requires whole_exact { (alloc : _) (tokens : _) (result : _) (after : _) → G.post here.now.whole alloc tokens result after → WholeRead here.now.level.at tokens.now result after.now }
    requires start { here.now.level.at.left ≡ here.now.level.at.levels }
    ensures { Reads ((block_at here.now.level.at.levels here.now.level.at.ranks (here.now.level.at.blocks + 1)).reads tokens.old) result tokens.new }
{
    braced(here, alloc, tokens)
}

/// A block where none may be opened: nothing can stand in it.
pub fn empty_block(alloc: Global, tokens: &mut Cursor) -> Result<Block, Or<Fault>>
    ensures { Reads (empty_block_of.reads tokens.old) result tokens.new }
{
    expect(tokens, BRACE)?;
    let end = place(tokens, UNBRACE)?;
    Ok(Block {
        stmts: Items::new(alloc),
        end,
    })
}
