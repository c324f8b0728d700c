// Fields, constants and operators.

ghost use Rattle.std.specs.Prelude.{◌≡◌, [], ◌∷◌};
ghost use Rattle.cs_grammar.specs.Grammar.{either};
ghost use Rattle.cs_grammar.specs.Reads.{Reads};
ghost use Rattle.cs_productions.specs.Kinds.{equals};
ghost use Rattle.cs_productions.specs.Tokens.{kind as kind_of};
ghost use Rattle.cs_statements.specs.Jumps.{no_value};
ghost use Rattle.cs_units.specs.Members.{first_value as first_value_of, field as field_of, constant as constant_of, operator as operator_of};
ghost use Rattle.cs_read_calls.specs.Asked.{inner_of, Asked};

use crate::parts::{limit, params};
use cs_grammar::Fault;
use cs_lex::{Cursor, begins, expect};
use cs_productions::Part;
use cs_read_calls::{Ask, Got, Level};
use cs_read_modifiers::kinds::{KW_CONST, KW_OPERATOR};
use cs_read_modifiers::start;
use cs_read_types::kinds::{EQUALS, SEMICOLON};
use cs_read_types::{any_name, place, ty};
use cs_tree::{Form, Member, Name, Spot, TypeForm};
use cs_units::Marked;
use dc_base::Or;
use std::alloc::Global;

fn first_value<F: Fn(Global, &mut Cursor, Ask) -> Result<Got, Or<Fault>>>(
    level: &Level<F>,
    alloc: Global,
    tokens: &mut Cursor,
) -> Result<Option<Form>, Or<Fault>>
    requires callable { F.IsAlwaysCallable level.now.read }
    requires exact { (alloc : _) (tokens : _) (ask : _) (result : _) (after : _) → F.post level.now.read alloc tokens ask result after → Asked level.now.at ask tokens.now result after.now }
    ensures { Reads ((first_value_of (inner_of level.now.at)).reads tokens.old) result tokens.new }
{
    expect(tokens, EQUALS)?;
    let value = level.form(alloc, tokens, Part::Whole)?;
    expect(tokens, SEMICOLON)?;
    Ok(Some(value.form))
}

fn value<F: Fn(Global, &mut Cursor, Ask) -> Result<Got, Or<Fault>>>(
    level: &Level<F>,
    alloc: Global,
    tokens: &mut Cursor,
) -> Result<Option<Form>, Or<Fault>>
    requires callable { F.IsAlwaysCallable level.now.read }
    requires exact { (alloc : _) (tokens : _) (ask : _) (result : _) (after : _) → F.post level.now.read alloc tokens ask result after → Asked level.now.at ask tokens.now result after.now }
    ensures { Reads ((either kind_of (equals ∷ []) (first_value_of (inner_of level.now.at)) no_value).reads tokens.old) result tokens.new }
{
    if begins(tokens, &[EQUALS]) {
        return first_value(level, alloc, tokens);
    }
    expect(tokens, SEMICOLON)?;
    Ok(None)
}

/// What stands behind the name of a field.
pub(crate) fn field<F: Fn(Global, &mut Cursor, Ask) -> Result<Got, Or<Fault>>>(
    level: &Level<F>,
    alloc: Global,
    tokens: &mut Cursor,
    marked: Marked,
    ty: TypeForm,
    name: Name,
) -> Result<Member, Or<Fault>>
    requires callable { F.IsAlwaysCallable level.now.read }
    requires exact { (alloc : _) (tokens : _) (ask : _) (result : _) (after : _) → F.post level.now.read alloc tokens ask result after → Asked level.now.at ask tokens.now result after.now }
    ensures { Reads ((field_of (inner_of level.now.at) marked ty name).reads tokens.old) result tokens.new }
{
    let value = value(level, alloc, tokens)?;
    Ok(Member::Field {
        spot: start(&marked, ty.spot),
        note: None,
        mods: marked.mods,
        ty,
        name,
        value,
    })
}

/// `const int X = 5;`
pub(crate) fn constant<F: Fn(Global, &mut Cursor, Ask) -> Result<Got, Or<Fault>>>(
    level: &Level<F>,
    alloc: Global,
    tokens: &mut Cursor,
    marked: Marked,
) -> Result<Member, Or<Fault>>
    requires callable { F.IsAlwaysCallable level.now.read }
    requires exact { (alloc : _) (tokens : _) (ask : _) (result : _) (after : _) → F.post level.now.read alloc tokens ask result after → Asked level.now.at ask tokens.now result after.now }
    ensures { Reads ((constant_of (inner_of level.now.at) marked).reads tokens.old) result tokens.new }
{
    let spot = place(tokens, KW_CONST)?;
    let ty = ty(alloc, tokens, limit(level))?;
    let name = any_name(alloc, tokens)?;
    expect(tokens, EQUALS)?;
    let value = level.form(alloc, tokens, Part::Whole)?;
    expect(tokens, SEMICOLON)?;
    Ok(Member::Constant {
        spot: start(&marked, spot),
        note: None,
        mods: marked.mods,
        ty,
        name,
        value: value.form,
    })
}

/// `operator bool op_Equality(int a, int b);`
pub(crate) fn operator<F: Fn(Global, &mut Cursor, Ask) -> Result<Got, Or<Fault>>>(
    level: &Level<F>,
    alloc: Global,
    tokens: &mut Cursor,
) -> Result<Member, Or<Fault>>
    requires callable { F.IsAlwaysCallable level.now.read }
    requires exact { (alloc : _) (tokens : _) (ask : _) (result : _) (after : _) → F.post level.now.read alloc tokens ask result after → Asked level.now.at ask tokens.now result after.now }
    ensures { Reads ((operator_of (inner_of level.now.at)).reads tokens.old) result tokens.new }
{
    let spot = place(tokens, KW_OPERATOR)?;
    let ty = ty(alloc, tokens, limit(level))?;
    let name = any_name(alloc, tokens)?;
    let params = params(alloc, tokens, limit(level))?;
    expect(tokens, SEMICOLON)?;
    Ok(Member::Operator {
        spot,
        ty,
        name,
        params,
    })
}
