// Methods, those that implement one by name among them.

ghost use Rattle.std.specs.Prelude.{◌≡◌};
ghost use Rattle.cs_grammar.specs.Reads.{Reads};
ghost use Rattle.cs_references.specs.Members.{method as method_of, implementing as implementing_of};

use cs_grammar::Fault;
use cs_lex::{Cursor, expect};
use cs_read_members::{more_parts, params};
use cs_read_types::kinds::{COLONS, DOT, SEMICOLON};
use cs_read_types::{any_name, name_text};
use cs_tree::{Explicit, Member, Name, Spot, TypeForm};
use cs_units::{Implementing, Marked};
use dc_base::{Or, Seq};
use std::alloc::Global;

/// What stands behind the name of a method.
pub fn method(
    alloc: Global,
    tokens: &mut Cursor,
    limit: u16,
    spot: Spot,
    marked: Marked,
    outcome: Option<TypeForm>,
    explicit: Option<Explicit>,
    name: Name,
) -> Result<Member, Or<Fault>>
    ensures { Reads ((method_of limit spot marked outcome explicit name).reads tokens.old) result tokens.new }
{
    let params = params(alloc, tokens, limit)?;
    expect(tokens, SEMICOLON)?;
    Ok(Member::Method {
        spot,
        note: None,
        mods: marked.mods,
        result: outcome,
        explicit,
        name,
        params,
        block: None,
    })
}

/// What stands behind the `global` of a method that implements one by name.
pub fn implementing(
    alloc: Global,
    tokens: &mut Cursor,
    limit: u16,
    spot: Spot,
    marked: Marked,
    outcome: Option<TypeForm>,
    at: Spot,
) -> Result<Member, Or<Fault>>
    ensures { Reads ((implementing_of limit spot marked outcome at).reads tokens.old) result tokens.new }
{
    expect(tokens, COLONS)?;
    let first = name_text(alloc, tokens)?;
    expect(tokens, DOT)?;
    let name = any_name(alloc, tokens)?;
    let mut path = Seq::new(alloc);
    path.push(first)?;
    let Implementing { path, name } = more_parts(alloc, tokens, Implementing { path, name })?;
    let explicit = Some(Explicit { spot: at, path });
    method(alloc, tokens, limit, spot, marked, outcome, explicit, name)
}
