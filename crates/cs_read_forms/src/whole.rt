// A part of an expression at one level, from its first token on.

ghost use Rattle.std.specs.Prelude.{◌≡◌};
ghost use Rattle.cs_grammar.specs.Grammar.{bind};
ghost use Rattle.cs_grammar.specs.Reads.{Reads};
ghost use Rattle.cs_productions.specs.Levels.{forms_at};
ghost use Rattle.cs_read_calls.specs.Asked.{inner_of, Asked};
ghost use Rattle.cs_read_forms.specs.InTwo.{begun as begun_of, gone_on as gone_on_of};

use crate::parentheses::{operand, plain_unary, unary};
use cs_grammar::Fault;
use cs_lex::Cursor;
use cs_productions::{Measured, Part};
use cs_read_calls::{Ask, Got, Level};
use cs_read_operators::{
    additive, and, conditional, conditional_and, equality, exclusive_or, inclusive_or,
    multiplicative, relational, shift,
};
use dc_base::Or;
use std::alloc::Global;

fn begun<F: Fn(Global, &mut Cursor, Ask) -> Result<Got, Or<Fault>>>(
    level: &Level<F>,
    alloc: Global,
    tokens: &mut Cursor,
    part: Part,
) -> Result<Measured, Or<Fault>>
    requires callable { F.IsAlwaysCallable level.now.read }
    requires exact { (alloc : _) (tokens : _) (ask : _) (result : _) (after : _) → F.post level.now.read alloc tokens ask result after → Asked level.now.at ask tokens.now result after.now }
    ensures { Reads ((begun_of part level.now.at.left (inner_of level.now.at)).reads tokens.old) result tokens.new }
{
    match part {
        Part::Operand => operand(level, alloc, tokens),
        Part::Plain => plain_unary(level, alloc, tokens),
        _ => unary(level, alloc, tokens),
    }
}

fn gone_on<F: Fn(Global, &mut Cursor, Ask) -> Result<Got, Or<Fault>>>(
    level: &Level<F>,
    alloc: Global,
    tokens: &mut Cursor,
    part: Part,
    first: Measured,
) -> Result<Measured, Or<Fault>>
    requires callable { F.IsAlwaysCallable level.now.read }
    requires exact { (alloc : _) (tokens : _) (ask : _) (result : _) (after : _) → F.post level.now.read alloc tokens ask result after → Asked level.now.at ask tokens.now result after.now }
    ensures { Reads ((gone_on_of part level.now.at.left (inner_of level.now.at) first).reads tokens.old) result tokens.new }
{
    match part {
        Part::Operand | Part::Unary => Ok(first),
        Part::Multiplicative => multiplicative(level, alloc, tokens, first),
        Part::Additive => additive(level, alloc, tokens, first),
        Part::Shift => shift(level, alloc, tokens, first),
        Part::Relational => relational(level, alloc, tokens, first),
        Part::Equality => equality(level, alloc, tokens, first),
        Part::And => and(level, alloc, tokens, first),
        Part::ExclusiveOr => exclusive_or(level, alloc, tokens, first),
        Part::InclusiveOr => inclusive_or(level, alloc, tokens, first),
        Part::ConditionalAnd => conditional_and(level, alloc, tokens, first),
        Part::Whole | Part::Plain => conditional(level, alloc, tokens, first),
    }
}

fn in_two<F: Fn(Global, &mut Cursor, Ask) -> Result<Got, Or<Fault>>>(
    level: &Level<F>,
    alloc: Global,
    tokens: &mut Cursor,
    part: Part,
) -> Result<Measured, Or<Fault>>
    requires callable { F.IsAlwaysCallable level.now.read }
    requires exact { (alloc : _) (tokens : _) (ask : _) (result : _) (after : _) → F.post level.now.read alloc tokens ask result after → Asked level.now.at ask tokens.now result after.now }
    ensures { Reads ((bind (begun_of part level.now.at.left (inner_of level.now.at)) (gone_on_of part level.now.at.left (inner_of level.now.at))).reads tokens.old) result tokens.new }
{
    let first = begun(level, alloc, tokens, part)?;
    gone_on(level, alloc, tokens, part, first)
}

/// A part of an expression, such as its whole or an operand.
pub fn form<F: Fn(Global, &mut Cursor, Ask) -> Result<Got, Or<Fault>>>(
    level: &Level<F>,
    alloc: Global,
    tokens: &mut Cursor,
    part: Part,
) -> Result<Measured, Or<Fault>>
    requires callable { F.IsAlwaysCallable level.now.read }
    requires exact { (alloc : _) (tokens : _) (ask : _) (result : _) (after : _) → F.post level.now.read alloc tokens ask result after → Asked level.now.at ask tokens.now result after.now }
    ensures { Reads ((forms_at level.now.at.left (inner_of level.now.at) part).reads tokens.old) result tokens.new }
{
    in_two(level, alloc, tokens, part)
}
