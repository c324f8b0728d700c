// Two-place operators and `?:` (ECMA-334, 12.10 to 12.14 and 12.18), each level from its first unary expression on.

ghost use Rattle.std.specs.Prelude.{◌≡◌, ◌<◌, ◌≤◌};
ghost use Rattle.cs_grammar.specs.Reads.{Reads};
ghost use Rattle.cs_productions.specs.Operators.{one_binary as one_binary_of, binaries as binaries_of, one_test as one_test_of, one_relation as one_relation_of, relations as relations_of, multiplicative as multiplicative_of, additive as additive_of, shift as shift_of, relational as relational_of, equality as equality_of, and as and_of, exclusive_or as exclusive_or_of, inclusive_or as inclusive_or_of, conditional_and as conditional_and_of, choosing as choosing_of, chosen as chosen_of, conditional as conditional_of};
ghost use Rattle.cs_read_calls.specs.Asked.{inner_of, Asked};
ghost use Rattle.cs_read_operators.specs.Behind.{equality as equality_behind, inclusive_or as inclusive_or_behind, conditional_or as conditional_or_behind, conditional as conditional_behind};

use crate::nodes::{tested, three, two};
use cs_grammar::Fault;
use cs_lex::{Cursor, begins, expect};
use cs_productions::{Measured, Part};
use cs_read_calls::{Ask, Got, Level, held, too_deep};
use cs_read_primaries::ranks_here;
use cs_read_types::kinds::{
    ADDITIVE, AMP, AT_LEAST, AT_MOST, BAR, BOTH, CARET, COLON, COMPARISONS, EITHER_ONE, EQUAL,
    EQUALITY, GREATER, KW_AS, KW_IS, LESS, MULTIPLICATIVE, QUESTION, RELATIONAL, SHIFT, SHIFT_LEFT,
    SHIFT_RIGHT, TYPE_TESTS, UNEQUAL,
};
use cs_read_types::{operator, ty};
use dc_base::Or;
use std::alloc::Global;

/// What any level behind a sum goes on with.
const BEHIND_SUMS: [u16; 16] = [
    SHIFT_LEFT,
    SHIFT_RIGHT,
    LESS,
    GREATER,
    AT_MOST,
    AT_LEAST,
    KW_IS,
    KW_AS,
    EQUAL,
    UNEQUAL,
    AMP,
    CARET,
    BAR,
    BOTH,
    EITHER_ONE,
    QUESTION,
];

fn one_binary<F: Fn(Global, &mut Cursor, Ask) -> Result<Got, Or<Fault>>>(
    level: &Level<F>,
    alloc: Global,
    tokens: &mut Cursor,
    operators: &[u16],
    right: Part,
    left: Measured,
) -> Result<Measured, Or<Fault>>
    requires callable { F.IsAlwaysCallable level.now.read }
    requires exact { (alloc : _) (tokens : _) (ask : _) (result : _) (after : _) → F.post level.now.read alloc tokens ask result after → Asked level.now.at ask tokens.now result after.now }
    requires within { left.height ≤ level.now.at.left }
    ensures { Reads ((one_binary_of (inner_of level.now.at) operators.now right left).reads tokens.old) result tokens.new }
{
    let _levels = level.levels();
    let left = held(alloc, left)?;
    let kind = operator(tokens, operators)?;
    let next = level.form(alloc, tokens, right)?;
    Ok(two(alloc, left, kind, next)?)
}

fn binaries<F: Fn(Global, &mut Cursor, Ask) -> Result<Got, Or<Fault>>>(
    level: &Level<F>,
    alloc: Global,
    tokens: &mut Cursor,
    operators: &[u16],
    right: Part,
    first: Measured,
) -> Result<Measured, Or<Fault>>
    requires callable { F.IsAlwaysCallable level.now.read }
    requires exact { (alloc : _) (tokens : _) (ask : _) (result : _) (after : _) → F.post level.now.read alloc tokens ask result after → Asked level.now.at ask tokens.now result after.now }
    ensures { Reads ((binaries_of level.now.at.left (inner_of level.now.at) operators.now right first).reads tokens.old) result tokens.new }
{
    let mut left = first;
    'turns: for _ in 0..tokens.left() {
        if !begins(tokens, operators) {
            return Ok(left);
        }
        if left.height >= u32::from(level.levels()) {
            return Err(too_deep(left));
        }
        left = one_binary(level, alloc, tokens, operators, right, left)?;
    }
    Ok(left)
}

fn one_test<F: Fn(Global, &mut Cursor, Ask) -> Result<Got, Or<Fault>>>(
    level: &Level<F>,
    alloc: Global,
    tokens: &mut Cursor,
    left: Measured,
) -> Result<Measured, Or<Fault>>
    requires callable { F.IsAlwaysCallable level.now.read }
    requires exact { (alloc : _) (tokens : _) (ask : _) (result : _) (after : _) → F.post level.now.read alloc tokens ask result after → Asked level.now.at ask tokens.now result after.now }
    requires within { left.height ≤ level.now.at.left }
    ensures { Reads ((one_test_of (inner_of level.now.at) left).reads tokens.old) result tokens.new }
{
    let _levels = level.levels();
    let left = held(alloc, left)?;
    let kind = operator(tokens, &TYPE_TESTS)?;
    let ty = ty(alloc, tokens, ranks_here(level))?;
    Ok(tested(left, kind, ty))
}

fn one_relation<F: Fn(Global, &mut Cursor, Ask) -> Result<Got, Or<Fault>>>(
    level: &Level<F>,
    alloc: Global,
    tokens: &mut Cursor,
    left: Measured,
) -> Result<Measured, Or<Fault>>
    requires callable { F.IsAlwaysCallable level.now.read }
    requires exact { (alloc : _) (tokens : _) (ask : _) (result : _) (after : _) → F.post level.now.read alloc tokens ask result after → Asked level.now.at ask tokens.now result after.now }
    requires within { left.height ≤ level.now.at.left }
    ensures { Reads ((one_relation_of (inner_of level.now.at) left).reads tokens.old) result tokens.new }
{
    if begins(tokens, &TYPE_TESTS) {
        return one_test(level, alloc, tokens, left);
    }
    one_binary(level, alloc, tokens, &COMPARISONS, Part::Shift, left)
}

fn relations<F: Fn(Global, &mut Cursor, Ask) -> Result<Got, Or<Fault>>>(
    level: &Level<F>,
    alloc: Global,
    tokens: &mut Cursor,
    first: Measured,
) -> Result<Measured, Or<Fault>>
    requires callable { F.IsAlwaysCallable level.now.read }
    requires exact { (alloc : _) (tokens : _) (ask : _) (result : _) (after : _) → F.post level.now.read alloc tokens ask result after → Asked level.now.at ask tokens.now result after.now }
    ensures { Reads ((relations_of level.now.at.left (inner_of level.now.at) first).reads tokens.old) result tokens.new }
{
    let mut left = first;
    'turns: for _ in 0..tokens.left() {
        if !begins(tokens, &RELATIONAL) {
            return Ok(left);
        }
        if left.height >= u32::from(level.levels()) {
            return Err(too_deep(left));
        }
        left = one_relation(level, alloc, tokens, left)?;
    }
    Ok(left)
}

/// `a * b`
pub fn multiplicative<F: Fn(Global, &mut Cursor, Ask) -> Result<Got, Or<Fault>>>(
    level: &Level<F>,
    alloc: Global,
    tokens: &mut Cursor,
    first: Measured,
) -> Result<Measured, Or<Fault>>
    requires callable { F.IsAlwaysCallable level.now.read }
    requires exact { (alloc : _) (tokens : _) (ask : _) (result : _) (after : _) → F.post level.now.read alloc tokens ask result after → Asked level.now.at ask tokens.now result after.now }
    ensures { Reads ((multiplicative_of level.now.at.left (inner_of level.now.at) first).reads tokens.old) result tokens.new }
{
    binaries(level, alloc, tokens, &MULTIPLICATIVE, Part::Unary, first)
}

/// `a + b`
pub fn additive<F: Fn(Global, &mut Cursor, Ask) -> Result<Got, Or<Fault>>>(
    level: &Level<F>,
    alloc: Global,
    tokens: &mut Cursor,
    first: Measured,
) -> Result<Measured, Or<Fault>>
    requires callable { F.IsAlwaysCallable level.now.read }
    requires exact { (alloc : _) (tokens : _) (ask : _) (result : _) (after : _) → F.post level.now.read alloc tokens ask result after → Asked level.now.at ask tokens.now result after.now }
    ensures { Reads ((additive_of level.now.at.left (inner_of level.now.at) first).reads tokens.old) result tokens.new }
{
    let left = multiplicative(level, alloc, tokens, first)?;
    binaries(level, alloc, tokens, &ADDITIVE, Part::Multiplicative, left)
}

/// `a << b`
pub fn shift<F: Fn(Global, &mut Cursor, Ask) -> Result<Got, Or<Fault>>>(
    level: &Level<F>,
    alloc: Global,
    tokens: &mut Cursor,
    first: Measured,
) -> Result<Measured, Or<Fault>>
    requires callable { F.IsAlwaysCallable level.now.read }
    requires exact { (alloc : _) (tokens : _) (ask : _) (result : _) (after : _) → F.post level.now.read alloc tokens ask result after → Asked level.now.at ask tokens.now result after.now }
    ensures { Reads ((shift_of level.now.at.left (inner_of level.now.at) first).reads tokens.old) result tokens.new }
{
    let left = additive(level, alloc, tokens, first)?;
    binaries(level, alloc, tokens, &SHIFT, Part::Additive, left)
}

/// `a < b`, `a is T`
pub fn relational<F: Fn(Global, &mut Cursor, Ask) -> Result<Got, Or<Fault>>>(
    level: &Level<F>,
    alloc: Global,
    tokens: &mut Cursor,
    first: Measured,
) -> Result<Measured, Or<Fault>>
    requires callable { F.IsAlwaysCallable level.now.read }
    requires exact { (alloc : _) (tokens : _) (ask : _) (result : _) (after : _) → F.post level.now.read alloc tokens ask result after → Asked level.now.at ask tokens.now result after.now }
    ensures { Reads ((relational_of level.now.at.left (inner_of level.now.at) first).reads tokens.old) result tokens.new }
{
    let left = shift(level, alloc, tokens, first)?;
    relations(level, alloc, tokens, left)
}

/// `a == b`
pub fn equality<F: Fn(Global, &mut Cursor, Ask) -> Result<Got, Or<Fault>>>(
    level: &Level<F>,
    alloc: Global,
    tokens: &mut Cursor,
    first: Measured,
) -> Result<Measured, Or<Fault>>
    requires callable { F.IsAlwaysCallable level.now.read }
    requires exact { (alloc : _) (tokens : _) (ask : _) (result : _) (after : _) → F.post level.now.read alloc tokens ask result after → Asked level.now.at ask tokens.now result after.now }
    ensures { Reads ((equality_of level.now.at.left (inner_of level.now.at) first).reads tokens.old) result tokens.new }
{
    let left = relational(level, alloc, tokens, first)?;
    binaries(level, alloc, tokens, &EQUALITY, Part::Relational, left)
}

/// `a & b`
pub fn and<F: Fn(Global, &mut Cursor, Ask) -> Result<Got, Or<Fault>>>(
    level: &Level<F>,
    alloc: Global,
    tokens: &mut Cursor,
    first: Measured,
) -> Result<Measured, Or<Fault>>
    requires callable { F.IsAlwaysCallable level.now.read }
    requires exact { (alloc : _) (tokens : _) (ask : _) (result : _) (after : _) → F.post level.now.read alloc tokens ask result after → Asked level.now.at ask tokens.now result after.now }
    ensures { Reads ((and_of level.now.at.left (inner_of level.now.at) first).reads tokens.old) result tokens.new }
{
    let left = equality(level, alloc, tokens, first)?;
    binaries(level, alloc, tokens, &[AMP], Part::Equality, left)
}

/// `a ^ b`
pub fn exclusive_or<F: Fn(Global, &mut Cursor, Ask) -> Result<Got, Or<Fault>>>(
    level: &Level<F>,
    alloc: Global,
    tokens: &mut Cursor,
    first: Measured,
) -> Result<Measured, Or<Fault>>
    requires callable { F.IsAlwaysCallable level.now.read }
    requires exact { (alloc : _) (tokens : _) (ask : _) (result : _) (after : _) → F.post level.now.read alloc tokens ask result after → Asked level.now.at ask tokens.now result after.now }
    ensures { Reads ((exclusive_or_of level.now.at.left (inner_of level.now.at) first).reads tokens.old) result tokens.new }
{
    let left = and(level, alloc, tokens, first)?;
    binaries(level, alloc, tokens, &[CARET], Part::And, left)
}

/// `a | b`
pub fn inclusive_or<F: Fn(Global, &mut Cursor, Ask) -> Result<Got, Or<Fault>>>(
    level: &Level<F>,
    alloc: Global,
    tokens: &mut Cursor,
    first: Measured,
) -> Result<Measured, Or<Fault>>
    requires callable { F.IsAlwaysCallable level.now.read }
    requires exact { (alloc : _) (tokens : _) (ask : _) (result : _) (after : _) → F.post level.now.read alloc tokens ask result after → Asked level.now.at ask tokens.now result after.now }
    ensures { Reads ((inclusive_or_of level.now.at.left (inner_of level.now.at) first).reads tokens.old) result tokens.new }
{
    let left = exclusive_or(level, alloc, tokens, first)?;
    binaries(level, alloc, tokens, &[BAR], Part::ExclusiveOr, left)
}

/// `a && b`
pub fn conditional_and<F: Fn(Global, &mut Cursor, Ask) -> Result<Got, Or<Fault>>>(
    level: &Level<F>,
    alloc: Global,
    tokens: &mut Cursor,
    first: Measured,
) -> Result<Measured, Or<Fault>>
    requires callable { F.IsAlwaysCallable level.now.read }
    requires exact { (alloc : _) (tokens : _) (ask : _) (result : _) (after : _) → F.post level.now.read alloc tokens ask result after → Asked level.now.at ask tokens.now result after.now }
    ensures { Reads ((conditional_and_of level.now.at.left (inner_of level.now.at) first).reads tokens.old) result tokens.new }
{
    let left = inclusive_or(level, alloc, tokens, first)?;
    binaries(level, alloc, tokens, &[BOTH], Part::InclusiveOr, left)
}

fn choosing<F: Fn(Global, &mut Cursor, Ask) -> Result<Got, Or<Fault>>>(
    level: &Level<F>,
    alloc: Global,
    tokens: &mut Cursor,
    test: Measured,
) -> Result<Measured, Or<Fault>>
    requires callable { F.IsAlwaysCallable level.now.read }
    requires exact { (alloc : _) (tokens : _) (ask : _) (result : _) (after : _) → F.post level.now.read alloc tokens ask result after → Asked level.now.at ask tokens.now result after.now }
    requires within { test.height ≤ level.now.at.left }
    ensures { Reads ((choosing_of (inner_of level.now.at) test).reads tokens.old) result tokens.new }
{
    let _levels = level.levels();
    let test = held(alloc, test)?;
    expect(tokens, QUESTION)?;
    let on_true = level.form(alloc, tokens, Part::Whole)?;
    let on_true = held(alloc, on_true)?;
    expect(tokens, COLON)?;
    let on_false = level.form(alloc, tokens, Part::Whole)?;
    Ok(three(alloc, test, on_true, on_false)?)
}

fn chosen<F: Fn(Global, &mut Cursor, Ask) -> Result<Got, Or<Fault>>>(
    level: &Level<F>,
    alloc: Global,
    tokens: &mut Cursor,
    test: Measured,
) -> Result<Measured, Or<Fault>>
    requires callable { F.IsAlwaysCallable level.now.read }
    requires exact { (alloc : _) (tokens : _) (ask : _) (result : _) (after : _) → F.post level.now.read alloc tokens ask result after → Asked level.now.at ask tokens.now result after.now }
    ensures { Reads ((chosen_of level.now.at.left (inner_of level.now.at) test).reads tokens.old) result tokens.new }
{
    if !begins(tokens, &[QUESTION]) {
        return Ok(test);
    }
    if test.height >= u32::from(level.levels()) {
        return Err(too_deep(test));
    }
    choosing(level, alloc, tokens, test)
}

/// Shifts and comparisons behind a sum.
fn comparisons_behind<F: Fn(Global, &mut Cursor, Ask) -> Result<Got, Or<Fault>>>(
    level: &Level<F>,
    alloc: Global,
    tokens: &mut Cursor,
    sum: Measured,
) -> Result<Measured, Or<Fault>>
    requires callable { F.IsAlwaysCallable level.now.read }
    requires exact { (alloc : _) (tokens : _) (ask : _) (result : _) (after : _) → F.post level.now.read alloc tokens ask result after → Asked level.now.at ask tokens.now result after.now }
    ensures { Reads ((equality_behind level.now.at.left (inner_of level.now.at) sum).reads tokens.old) result tokens.new }
{
    let left = binaries(level, alloc, tokens, &SHIFT, Part::Additive, sum)?;
    let left = relations(level, alloc, tokens, left)?;
    binaries(level, alloc, tokens, &EQUALITY, Part::Relational, left)
}

/// Comparisons and `&`, `^` and `|` behind a sum.
fn bits_behind<F: Fn(Global, &mut Cursor, Ask) -> Result<Got, Or<Fault>>>(
    level: &Level<F>,
    alloc: Global,
    tokens: &mut Cursor,
    sum: Measured,
) -> Result<Measured, Or<Fault>>
    requires callable { F.IsAlwaysCallable level.now.read }
    requires exact { (alloc : _) (tokens : _) (ask : _) (result : _) (after : _) → F.post level.now.read alloc tokens ask result after → Asked level.now.at ask tokens.now result after.now }
    ensures { Reads ((inclusive_or_behind level.now.at.left (inner_of level.now.at) sum).reads tokens.old) result tokens.new }
{
    let left = comparisons_behind(level, alloc, tokens, sum)?;
    let left = binaries(level, alloc, tokens, &[AMP], Part::Equality, left)?;
    let left = binaries(level, alloc, tokens, &[CARET], Part::And, left)?;
    binaries(level, alloc, tokens, &[BAR], Part::ExclusiveOr, left)
}

/// All two-place operators behind a sum.
fn connectives_behind<F: Fn(Global, &mut Cursor, Ask) -> Result<Got, Or<Fault>>>(
    level: &Level<F>,
    alloc: Global,
    tokens: &mut Cursor,
    sum: Measured,
) -> Result<Measured, Or<Fault>>
    requires callable { F.IsAlwaysCallable level.now.read }
    requires exact { (alloc : _) (tokens : _) (ask : _) (result : _) (after : _) → F.post level.now.read alloc tokens ask result after → Asked level.now.at ask tokens.now result after.now }
    ensures { Reads ((conditional_or_behind level.now.at.left (inner_of level.now.at) sum).reads tokens.old) result tokens.new }
{
    let left = bits_behind(level, alloc, tokens, sum)?;
    let left = binaries(level, alloc, tokens, &[BOTH], Part::InclusiveOr, left)?;
    binaries(
        level,
        alloc,
        tokens,
        &[EITHER_ONE],
        Part::ConditionalAnd,
        left,
    )
}

/// What goes on behind a sum, which is most often nothing: then its levels aren't gone through.
fn behind_sum<F: Fn(Global, &mut Cursor, Ask) -> Result<Got, Or<Fault>>>(
    level: &Level<F>,
    alloc: Global,
    tokens: &mut Cursor,
    sum: Measured,
) -> Result<Measured, Or<Fault>>
    requires callable { F.IsAlwaysCallable level.now.read }
    requires exact { (alloc : _) (tokens : _) (ask : _) (result : _) (after : _) → F.post level.now.read alloc tokens ask result after → Asked level.now.at ask tokens.now result after.now }
    ensures { Reads ((conditional_behind level.now.at.left (inner_of level.now.at) sum).reads tokens.old) result tokens.new }
{
    if !begins(tokens, &BEHIND_SUMS) {
        return Ok(sum);
    }
    let test = connectives_behind(level, alloc, tokens, sum)?;
    chosen(level, alloc, tokens, test)
}

/// `a ? b : c`
pub fn conditional<F: Fn(Global, &mut Cursor, Ask) -> Result<Got, Or<Fault>>>(
    level: &Level<F>,
    alloc: Global,
    tokens: &mut Cursor,
    first: Measured,
) -> Result<Measured, Or<Fault>>
    requires callable { F.IsAlwaysCallable level.now.read }
    requires exact { (alloc : _) (tokens : _) (ask : _) (result : _) (after : _) → F.post level.now.read alloc tokens ask result after → Asked level.now.at ask tokens.now result after.now }
    ensures { Reads ((conditional_of level.now.at.left (inner_of level.now.at) first).reads tokens.old) result tokens.new }
{
    let sum = additive(level, alloc, tokens, first)?;
    behind_sum(level, alloc, tokens, sum)
}
