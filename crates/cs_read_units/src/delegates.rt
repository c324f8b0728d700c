// Delegates.

ghost use Rattle.std.specs.Prelude.{◌≡◌};
ghost use Rattle.cs_grammar.specs.Reads.{Reads};
ghost use Rattle.cs_units.specs.Declarations.{result as result_of, delegate_type as delegate_type_of};

use cs_grammar::Fault;
use cs_lex::{Cursor, begins, expect};
use cs_read_members::params;
use cs_read_modifiers::kinds::{KW_DELEGATE, KW_VOID};
use cs_read_modifiers::start;
use cs_read_types::kinds::SEMICOLON;
use cs_read_types::{any_name, place, ty};
use cs_tree::{Decl, TypeForm};
use cs_units::Marked;
use dc_base::Or;
use std::alloc::Global;

fn outcome(alloc: Global, tokens: &mut Cursor, limit: u16) -> Result<Option<TypeForm>, Or<Fault>>
    ensures { Reads ((result_of limit).reads tokens.old) result tokens.new }
{
    if !begins(tokens, &[KW_VOID]) {
        return Ok(Some(ty(alloc, tokens, limit)?));
    }
    expect(tokens, KW_VOID)?;
    Ok(None)
}

/// `delegate int D(int a);`
pub fn delegate_type(
    alloc: Global,
    tokens: &mut Cursor,
    limit: u16,
    marked: Marked,
) -> Result<Decl, Or<Fault>>
    ensures { Reads ((delegate_type_of limit marked).reads tokens.old) result tokens.new }
{
    let spot = place(tokens, KW_DELEGATE)?;
    let outcome = outcome(alloc, tokens, limit)?;
    let name = any_name(alloc, tokens)?;
    let params = params(alloc, tokens, limit)?;
    expect(tokens, SEMICOLON)?;
    Ok(Decl::Delegate {
        spot: start(&marked, spot),
        note: None,
        mods: marked.mods,
        result: outcome,
        name,
        params,
    })
}
