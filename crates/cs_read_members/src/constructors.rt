// Constructors, those of a type and those that end with `;` among them.

ghost use Rattle.std.specs.Prelude.{◌≡◌, ◌&&◌, [], ◌∷◌};
ghost use Rattle.cs_grammar.specs.Grammar.{either, choice};
ghost use Rattle.cs_grammar.specs.Reads.{Reads};
ghost use Rattle.cs_productions.specs.Kinds.{brace, kw_base};
ghost use Rattle.cs_productions.specs.Tokens.{kind as kind_of};
ghost use Rattle.cs_units.specs.Modifiers.{only_static};
ghost use Rattle.cs_units.specs.Members.{are_none, by_base as by_base_of, by_this as by_this_of, constructor as constructor_of, initializer as initializer_of, maker as maker_of, behind_params as behind_params_of, constructing as constructing_of};
ghost use Rattle.cs_read_calls.specs.Asked.{inner_of, Asked};

use crate::parts::{are_no, limit, params};
use cs_grammar::Fault;
use cs_lex::{Cursor, begins, expect};
use cs_read_calls::{Ask, Got, Level};
use cs_read_modifiers::{is_only_static, start};
use cs_read_types::kinds::{BRACE, COLON, KW_BASE, KW_THIS, SEMICOLON};
use cs_tree::{Initial, Member, Name, Param};
use cs_units::Marked;
use dc_base::{Or, Seq};
use std::alloc::Global;

fn by_base<F: Fn(Global, &mut Cursor, Ask) -> Result<Got, Or<Fault>>>(
    level: &Level<F>,
    alloc: Global,
    tokens: &mut Cursor,
) -> Result<Initial, Or<Fault>>
    requires callable { F.IsAlwaysCallable level.now.read }
    requires exact { (alloc : _) (tokens : _) (ask : _) (result : _) (after : _) → F.post level.now.read alloc tokens ask result after → Asked level.now.at ask tokens.now result after.now }
    ensures { Reads ((by_base_of (inner_of level.now.at)).reads tokens.old) result tokens.new }
{
    expect(tokens, KW_BASE)?;
    let args = level.arguments(alloc, tokens)?.args;
    Ok(Initial::Base { args })
}

fn by_this<F: Fn(Global, &mut Cursor, Ask) -> Result<Got, Or<Fault>>>(
    level: &Level<F>,
    alloc: Global,
    tokens: &mut Cursor,
) -> Result<Initial, Or<Fault>>
    requires callable { F.IsAlwaysCallable level.now.read }
    requires exact { (alloc : _) (tokens : _) (ask : _) (result : _) (after : _) → F.post level.now.read alloc tokens ask result after → Asked level.now.at ask tokens.now result after.now }
    ensures { Reads ((by_this_of (inner_of level.now.at)).reads tokens.old) result tokens.new }
{
    expect(tokens, KW_THIS)?;
    let args = level.arguments(alloc, tokens)?.args;
    Ok(Initial::This { args })
}

fn initial<F: Fn(Global, &mut Cursor, Ask) -> Result<Got, Or<Fault>>>(
    level: &Level<F>,
    alloc: Global,
    tokens: &mut Cursor,
) -> Result<Initial, Or<Fault>>
    requires callable { F.IsAlwaysCallable level.now.read }
    requires exact { (alloc : _) (tokens : _) (ask : _) (result : _) (after : _) → F.post level.now.read alloc tokens ask result after → Asked level.now.at ask tokens.now result after.now }
    ensures { Reads ((either kind_of (kw_base ∷ []) (by_base_of (inner_of level.now.at)) (by_this_of (inner_of level.now.at))).reads tokens.old) result tokens.new }
{
    if begins(tokens, &[KW_BASE]) {
        return by_base(level, alloc, tokens);
    }
    by_this(level, alloc, tokens)
}

fn constructor<F: Fn(Global, &mut Cursor, Ask) -> Result<Got, Or<Fault>>>(
    level: &Level<F>,
    alloc: Global,
    tokens: &mut Cursor,
    marked: Marked,
    name: Name,
    params: Seq<Param>,
) -> Result<Member, Or<Fault>>
    requires callable { F.IsAlwaysCallable level.now.read }
    requires exact { (alloc : _) (tokens : _) (ask : _) (result : _) (after : _) → F.post level.now.read alloc tokens ask result after → Asked level.now.at ask tokens.now result after.now }
    ensures { Reads ((constructor_of (inner_of level.now.at) marked name params).reads tokens.old) result tokens.new }
{
    expect(tokens, COLON)?;
    let initial = initial(level, alloc, tokens)?;
    let block = level.block(alloc, tokens)?;
    Ok(Member::Constructor {
        spot: start(&marked, name.spot),
        note: None,
        mods: marked.mods,
        name,
        params,
        initial,
        block,
    })
}

fn initializer<F: Fn(Global, &mut Cursor, Ask) -> Result<Got, Or<Fault>>>(
    level: &Level<F>,
    alloc: Global,
    tokens: &mut Cursor,
    marked: Marked,
    name: Name,
) -> Result<Member, Or<Fault>>
    requires callable { F.IsAlwaysCallable level.now.read }
    requires exact { (alloc : _) (tokens : _) (ask : _) (result : _) (after : _) → F.post level.now.read alloc tokens ask result after → Asked level.now.at ask tokens.now result after.now }
    ensures { Reads ((initializer_of (inner_of level.now.at) marked name).reads tokens.old) result tokens.new }
{
    let block = level.block(alloc, tokens)?;
    Ok(Member::Initializer {
        spot: start(&marked, name.spot),
        note: None,
        name,
        block,
    })
}

/// The end of a constructor without a block.
pub fn maker(
    tokens: &mut Cursor,
    marked: Marked,
    name: Name,
    params: Seq<Param>,
) -> Result<Member, Or<Fault>>
    ensures { Reads ((maker_of marked name params).reads tokens.old) result tokens.new }
{
    expect(tokens, SEMICOLON)?;
    Ok(Member::Maker {
        spot: start(&marked, name.spot),
        mods: marked.mods,
        name,
        params,
    })
}

fn without_initial<F: Fn(Global, &mut Cursor, Ask) -> Result<Got, Or<Fault>>>(
    level: &Level<F>,
    alloc: Global,
    tokens: &mut Cursor,
    marked: Marked,
    name: Name,
    params: Seq<Param>,
) -> Result<Member, Or<Fault>>
    requires callable { F.IsAlwaysCallable level.now.read }
    requires exact { (alloc : _) (tokens : _) (ask : _) (result : _) (after : _) → F.post level.now.read alloc tokens ask result after → Asked level.now.at ask tokens.now result after.now }
    ensures { Reads ((choice kind_of (only_static marked.mods && are_none params) (brace ∷ []) (initializer_of (inner_of level.now.at) marked name) (maker_of marked name params)).reads tokens.old) result tokens.new }
{
    let of_type = is_only_static(&marked.mods) && are_no(&params);
    if of_type && begins(tokens, &[BRACE]) {
        return initializer(level, alloc, tokens, marked, name);
    }
    maker(tokens, marked, name, params)
}

fn behind_params<F: Fn(Global, &mut Cursor, Ask) -> Result<Got, Or<Fault>>>(
    level: &Level<F>,
    alloc: Global,
    tokens: &mut Cursor,
    marked: Marked,
    name: Name,
    params: Seq<Param>,
) -> Result<Member, Or<Fault>>
    requires callable { F.IsAlwaysCallable level.now.read }
    requires exact { (alloc : _) (tokens : _) (ask : _) (result : _) (after : _) → F.post level.now.read alloc tokens ask result after → Asked level.now.at ask tokens.now result after.now }
    ensures { Reads ((behind_params_of (inner_of level.now.at) marked name params).reads tokens.old) result tokens.new }
{
    if begins(tokens, &[COLON]) {
        return constructor(level, alloc, tokens, marked, name, params);
    }
    without_initial(level, alloc, tokens, marked, name, params)
}

/// What stands behind the name of a constructor.
pub(crate) fn constructing<F: Fn(Global, &mut Cursor, Ask) -> Result<Got, Or<Fault>>>(
    level: &Level<F>,
    alloc: Global,
    tokens: &mut Cursor,
    marked: Marked,
    name: Name,
) -> Result<Member, Or<Fault>>
    requires callable { F.IsAlwaysCallable level.now.read }
    requires exact { (alloc : _) (tokens : _) (ask : _) (result : _) (after : _) → F.post level.now.read alloc tokens ask result after → Asked level.now.at ask tokens.now result after.now }
    ensures { Reads ((constructing_of (inner_of level.now.at) marked name).reads tokens.old) result tokens.new }
{
    let params = params(alloc, tokens, limit(level))?;
    behind_params(level, alloc, tokens, marked, name, params)
}
