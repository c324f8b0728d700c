// Methods, those that implement one by name among them.

ghost use Rattle.std.specs.Prelude.{◌≡◌, true, [], ◌∷◌};
ghost use Rattle.cs_grammar.specs.Grammar.{turns};
ghost use Rattle.cs_grammar.specs.Reads.{Reads};
ghost use Rattle.cs_productions.specs.Kinds.{dot};
ghost use Rattle.cs_productions.specs.Tokens.{kind as kind_of};
ghost use Rattle.cs_units.specs.Members.{method as method_of, one_more_part as one_more_part_of, implementing as implementing_of};
ghost use Rattle.cs_read_calls.specs.Asked.{inner_of, Asked};

use crate::parts::{body, limit, params};
use cs_grammar::Fault;
use cs_lex::{Cursor, begins, expect};
use cs_read_calls::{Ask, Got, Level};
use cs_read_types::kinds::{COLONS, DOT};
use cs_read_types::{any_name, name_text};
use cs_tree::{Explicit, Member, Name, Spot, TypeForm};
use cs_units::{Implementing, Marked};
use dc_base::{Or, Seq};
use std::alloc::Global;

/// What stands behind the name of a method.
pub(crate) fn method<F: Fn(Global, &mut Cursor, Ask) -> Result<Got, Or<Fault>>>(
    level: &Level<F>,
    alloc: Global,
    tokens: &mut Cursor,
    spot: Spot,
    marked: Marked,
    outcome: Option<TypeForm>,
    explicit: Option<Explicit>,
    name: Name,
) -> Result<Member, Or<Fault>>
    requires callable { F.IsAlwaysCallable level.now.read }
    requires exact { (alloc : _) (tokens : _) (ask : _) (result : _) (after : _) → F.post level.now.read alloc tokens ask result after → Asked level.now.at ask tokens.now result after.now }
    ensures { Reads ((method_of (inner_of level.now.at) spot marked outcome explicit name).reads tokens.old) result tokens.new }
{
    let params = params(alloc, tokens, limit(level))?;
    let block = body(level, alloc, tokens)?;
    Ok(Member::Method {
        spot,
        note: None,
        mods: marked.mods,
        result: outcome,
        explicit,
        name,
        params,
        block,
    })
}

fn one_more_part(
    alloc: Global,
    tokens: &mut Cursor,
    before: Implementing,
) -> Result<Implementing, Or<Fault>>
    ensures { Reads ((one_more_part_of before).reads tokens.old) result tokens.new }
{
    expect(tokens, DOT)?;
    let next = any_name(alloc, tokens)?;
    let Implementing { mut path, name } = before;
    path.push(name.text)?;
    Ok(Implementing { path, name: next })
}

/// The names that stand behind the first two of an interface and its method.
pub fn more_parts(
    alloc: Global,
    tokens: &mut Cursor,
    first: Implementing,
) -> Result<Implementing, Or<Fault>>
    ensures { Reads ((turns kind_of (dot ∷ []) (λ _. true) one_more_part_of first).reads tokens.old) result tokens.new }
{
    let mut named = first;
    'turns: for _ in 0..tokens.left() {
        if !begins(tokens, &[DOT]) {
            return Ok(named);
        }
        named = one_more_part(alloc, tokens, named)?;
    }
    Ok(named)
}

/// What stands behind the `global` of a method that implements one by name.
pub(crate) fn implementing<F: Fn(Global, &mut Cursor, Ask) -> Result<Got, Or<Fault>>>(
    level: &Level<F>,
    alloc: Global,
    tokens: &mut Cursor,
    spot: Spot,
    marked: Marked,
    outcome: Option<TypeForm>,
    at: Spot,
) -> Result<Member, Or<Fault>>
    requires callable { F.IsAlwaysCallable level.now.read }
    requires exact { (alloc : _) (tokens : _) (ask : _) (result : _) (after : _) → F.post level.now.read alloc tokens ask result after → Asked level.now.at ask tokens.now result after.now }
    ensures { Reads ((implementing_of (inner_of level.now.at) spot marked outcome at).reads tokens.old) result tokens.new }
{
    expect(tokens, COLONS)?;
    let first = name_text(alloc, tokens)?;
    expect(tokens, DOT)?;
    let name = any_name(alloc, tokens)?;
    let mut path = Seq::new(alloc);
    path.push(first)?;
    let Implementing { path, name } = more_parts(alloc, tokens, Implementing { path, name })?;
    let explicit = Some(Explicit { spot: at, path });
    method(level, alloc, tokens, spot, marked, outcome, explicit, name)
}
