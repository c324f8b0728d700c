// Places and calls: the primary expressions that a statement begins with.

ghost use Rattle.std.specs.Prelude.{◌≡◌, [], ◌∷◌, nat_lt, true};
ghost use Rattle.cs_grammar.specs.Kinds.{subset};
ghost use Rattle.cs_grammar.specs.Grammar.{one, either};
ghost use Rattle.cs_grammar.specs.Reads.{Reads};
ghost use Rattle.cs_productions.specs.Kinds.{simple_kinds, kw_base};
ghost use Rattle.cs_productions.specs.Tokens.{kind as kind_of, simple_of};
ghost use Rattle.cs_productions.specs.Primaries.{of_base as of_base_of};
ghost use Rattle.cs_statements.specs.Actions.{parenthesized as parenthesized_of, counted_primary as counted_primary_of, of_unnamed as of_unnamed_of, unnamed_primary as unnamed_primary_of, of_named as of_named_of, primary as primary_of};
ghost use Rattle.cs_read_calls.specs.Asked.{inner_of, Asked};

use crate::kinds::{PLAIN_NAMES, UNNAMED};
use cs_grammar::Fault;
use cs_lex::{Cursor, begins, expect};
use cs_productions::{Measured, Part};
use cs_read_calls::{Ask, Got, Level, raised};
use cs_read_primaries::{of_base, of_checked, of_default, of_global, of_new};
use cs_read_types::kinds::{COUNTED, GLOBAL, KW_BASE, KW_DEFAULT, KW_NEW, PAREN, UNPAREN};
use cs_read_types::{place, simple};
use dc_base::Or;
use std::alloc::Global;

/// Takes a name, a literal or `this`, of these kinds.
fn simple_among(alloc: Global, tokens: &mut Cursor, kinds: &[u16]) -> Result<Measured, Or<Fault>>
    requires { subset kinds.now simple_kinds ≡ true }
    ensures { Reads ((one kind_of kinds.now simple_of).reads tokens.old) result tokens.new }
{
    if !begins(tokens, kinds) {
        return Err(Or::Fault(Fault::Unexpected));
    }
    simple(alloc, tokens)
}

fn parenthesized<F: Fn(Global, &mut Cursor, Ask) -> Result<Got, Or<Fault>>>(
    level: &Level<F>,
    alloc: Global,
    tokens: &mut Cursor,
) -> Result<Measured, Or<Fault>>
    requires callable { F.IsAlwaysCallable level.now.read }
    requires exact { (alloc : _) (tokens : _) (ask : _) (result : _) (after : _) → F.post level.now.read alloc tokens ask result after → Asked level.now.at ask tokens.now result after.now }
    ensures { Reads ((parenthesized_of level.now.at.left (inner_of level.now.at)).reads tokens.old) result tokens.new }
{
    let spot = place(tokens, PAREN)?;
    let _levels = level.levels();
    let inner = level.form(alloc, tokens, Part::Whole)?;
    expect(tokens, UNPAREN)?;
    let Measured { form, height, .. } = inner;
    level.postfixes(alloc, tokens, raised(height, form, spot))
}

fn counted_primary<F: Fn(Global, &mut Cursor, Ask) -> Result<Got, Or<Fault>>>(
    level: &Level<F>,
    alloc: Global,
    tokens: &mut Cursor,
) -> Result<Measured, Or<Fault>>
    requires callable { F.IsAlwaysCallable level.now.read }
    requires exact { (alloc : _) (tokens : _) (ask : _) (result : _) (after : _) → F.post level.now.read alloc tokens ask result after → Asked level.now.at ask tokens.now result after.now }
    ensures { Reads ((counted_primary_of level.now.at.left (inner_of level.now.at)).reads tokens.old) result tokens.new }
{
    if begins(tokens, &[PAREN]) {
        return parenthesized(level, alloc, tokens);
    }
    if begins(tokens, &[KW_NEW]) {
        return of_new(level, alloc, tokens);
    }
    if begins(tokens, &[KW_DEFAULT]) {
        return of_default(level, alloc, tokens);
    }
    of_checked(level, alloc, tokens)
}

fn of_unnamed<F: Fn(Global, &mut Cursor, Ask) -> Result<Got, Or<Fault>>>(
    level: &Level<F>,
    alloc: Global,
    tokens: &mut Cursor,
) -> Result<Measured, Or<Fault>>
    requires callable { F.IsAlwaysCallable level.now.read }
    requires exact { (alloc : _) (tokens : _) (ask : _) (result : _) (after : _) → F.post level.now.read alloc tokens ask result after → Asked level.now.at ask tokens.now result after.now }
    ensures { Reads ((of_unnamed_of level.now.at.left (inner_of level.now.at)).reads tokens.old) result tokens.new }
{
    let leaf = simple_among(alloc, tokens, &UNNAMED)?;
    level.postfixes(alloc, tokens, leaf)
}

fn uncounted_primary<F: Fn(Global, &mut Cursor, Ask) -> Result<Got, Or<Fault>>>(
    level: &Level<F>,
    alloc: Global,
    tokens: &mut Cursor,
) -> Result<Measured, Or<Fault>>
    requires callable { F.IsAlwaysCallable level.now.read }
    requires exact { (alloc : _) (tokens : _) (ask : _) (result : _) (after : _) → F.post level.now.read alloc tokens ask result after → Asked level.now.at ask tokens.now result after.now }
    ensures { Reads ((either kind_of (kw_base ∷ []) (of_base_of level.now.at.left (inner_of level.now.at)) (of_unnamed_of level.now.at.left (inner_of level.now.at))).reads tokens.old) result tokens.new }
{
    if begins(tokens, &[KW_BASE]) {
        return of_base(level, alloc, tokens);
    }
    of_unnamed(level, alloc, tokens)
}

/// A place or a call that begins with no name.
pub fn unnamed_primary<F: Fn(Global, &mut Cursor, Ask) -> Result<Got, Or<Fault>>>(
    level: &Level<F>,
    alloc: Global,
    tokens: &mut Cursor,
) -> Result<Measured, Or<Fault>>
    requires callable { F.IsAlwaysCallable level.now.read }
    requires exact { (alloc : _) (tokens : _) (ask : _) (result : _) (after : _) → F.post level.now.read alloc tokens ask result after → Asked level.now.at ask tokens.now result after.now }
    ensures { Reads ((unnamed_primary_of level.now.at.left (inner_of level.now.at)).reads tokens.old) result tokens.new }
{
    if !begins(tokens, &COUNTED) {
        return uncounted_primary(level, alloc, tokens);
    }
    if level.levels() == 0 {
        return Err(Or::Fault(Fault::TooDeep));
    }
    counted_primary(level, alloc, tokens)
}

fn of_named<F: Fn(Global, &mut Cursor, Ask) -> Result<Got, Or<Fault>>>(
    level: &Level<F>,
    alloc: Global,
    tokens: &mut Cursor,
) -> Result<Measured, Or<Fault>>
    requires callable { F.IsAlwaysCallable level.now.read }
    requires exact { (alloc : _) (tokens : _) (ask : _) (result : _) (after : _) → F.post level.now.read alloc tokens ask result after → Asked level.now.at ask tokens.now result after.now }
    ensures { Reads ((of_named_of level.now.at.left (inner_of level.now.at)).reads tokens.old) result tokens.new }
{
    let leaf = simple_among(alloc, tokens, &PLAIN_NAMES)?;
    level.postfixes(alloc, tokens, leaf)
}

/// A place or a call.
pub fn primary<F: Fn(Global, &mut Cursor, Ask) -> Result<Got, Or<Fault>>>(
    level: &Level<F>,
    alloc: Global,
    tokens: &mut Cursor,
) -> Result<Measured, Or<Fault>>
    requires callable { F.IsAlwaysCallable level.now.read }
    requires exact { (alloc : _) (tokens : _) (ask : _) (result : _) (after : _) → F.post level.now.read alloc tokens ask result after → Asked level.now.at ask tokens.now result after.now }
    ensures { Reads ((primary_of level.now.at.left (inner_of level.now.at)).reads tokens.old) result tokens.new }
{
    if begins(tokens, &[GLOBAL]) {
        return of_global(level, alloc, tokens);
    }
    if begins(tokens, &PLAIN_NAMES) {
        return of_named(level, alloc, tokens);
    }
    unnamed_primary(level, alloc, tokens)
}
