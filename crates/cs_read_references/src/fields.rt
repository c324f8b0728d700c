// Fields, constants and operators.

ghost use Rattle.std.specs.Prelude.{◌≡◌};
ghost use Rattle.cs_grammar.specs.Reads.{Reads};
ghost use Rattle.cs_references.specs.Members.{field as field_of, constant as constant_of, operator as operator_of, constructing as constructing_of};

use crate::values::value;
use cs_grammar::Fault;
use cs_lex::{Cursor, expect};
use cs_read_members::{maker, params};
use cs_read_modifiers::kinds::{KW_CONST, KW_OPERATOR};
use cs_read_modifiers::start;
use cs_read_types::kinds::{EQUALS, SEMICOLON};
use cs_read_types::{any_name, place, ty};
use cs_tree::{Member, Name, Spot, TypeForm};
use cs_units::Marked;
use dc_base::Or;
use std::alloc::Global;

/// What stands behind the name of a field.
pub fn field(
    tokens: &mut Cursor,
    marked: Marked,
    ty: TypeForm,
    name: Name,
) -> Result<Member, Or<Fault>>
    ensures { Reads ((field_of marked ty name).reads tokens.old) result tokens.new }
{
    expect(tokens, SEMICOLON)?;
    Ok(Member::Field {
        spot: start(&marked, ty.spot),
        note: None,
        mods: marked.mods,
        ty,
        name,
        value: None,
    })
}

/// `const int X = 5;`
pub fn constant(
    alloc: Global,
    tokens: &mut Cursor,
    limit: u16,
    marked: Marked,
) -> Result<Member, Or<Fault>>
    ensures { Reads ((constant_of limit marked).reads tokens.old) result tokens.new }
{
    let spot = place(tokens, KW_CONST)?;
    let ty = ty(alloc, tokens, limit)?;
    let name = any_name(alloc, tokens)?;
    expect(tokens, EQUALS)?;
    let value = value(alloc, tokens, limit)?;
    expect(tokens, SEMICOLON)?;
    Ok(Member::Constant {
        spot: start(&marked, spot),
        note: None,
        mods: marked.mods,
        ty,
        name,
        value,
    })
}

/// `operator bool op_Equality(int a, int b);`
pub fn operator(alloc: Global, tokens: &mut Cursor, limit: u16) -> Result<Member, Or<Fault>>
    ensures { Reads ((operator_of limit).reads tokens.old) result tokens.new }
{
    let spot = place(tokens, KW_OPERATOR)?;
    let ty = ty(alloc, tokens, limit)?;
    let name = any_name(alloc, tokens)?;
    let params = params(alloc, tokens, limit)?;
    expect(tokens, SEMICOLON)?;
    Ok(Member::Operator {
        spot,
        ty,
        name,
        params,
    })
}

/// What stands behind the name of a constructor.
pub fn constructing(
    alloc: Global,
    tokens: &mut Cursor,
    limit: u16,
    marked: Marked,
    name: Name,
) -> Result<Member, Or<Fault>>
    ensures { Reads ((constructing_of limit marked name).reads tokens.old) result tokens.new }
{
    let params = params(alloc, tokens, limit)?;
    maker(tokens, marked, name, params)
}
