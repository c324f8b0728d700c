// What a type is derived from.

ghost use Rattle.std.specs.Prelude.{◌≡◌, true, [], ◌∷◌};
ghost use Rattle.cs_grammar.specs.Grammar.{turns};
ghost use Rattle.cs_grammar.specs.Reads.{Reads};
ghost use Rattle.cs_productions.specs.Kinds.{comma};
ghost use Rattle.cs_productions.specs.Tokens.{kind as kind_of};
ghost use Rattle.cs_units.specs.Declarations.{one_more_base as one_more_base_of, given_bases as given_bases_of, bases as bases_of};

use cs_grammar::Fault;
use cs_lex::{Cursor, begins, expect};
use cs_read_types::kinds::{COLON, COMMA};
use cs_read_types::ty;
use cs_tree::TypeForm;
use dc_base::{Or, Seq};
use std::alloc::Global;

fn one_more_base(
    alloc: Global,
    tokens: &mut Cursor,
    limit: u16,
    mut bases: Seq<TypeForm>,
) -> Result<Seq<TypeForm>, Or<Fault>>
    ensures { Reads ((one_more_base_of limit bases).reads tokens.old) result tokens.new }
{
    expect(tokens, COMMA)?;
    let next = ty(alloc, tokens, limit)?;
    bases.push(next)?;
    Ok(bases)
}

fn more_bases(
    alloc: Global,
    tokens: &mut Cursor,
    limit: u16,
    first: Seq<TypeForm>,
) -> Result<Seq<TypeForm>, Or<Fault>>
    ensures { Reads ((turns kind_of (comma ∷ []) (λ _. true) (one_more_base_of limit) first).reads tokens.old) result tokens.new }
{
    let mut bases = first;
    'turns: for _ in 0..tokens.left() {
        if !begins(tokens, &[COMMA]) {
            return Ok(bases);
        }
        bases = one_more_base(alloc, tokens, limit, bases)?;
    }
    Ok(bases)
}

fn given_bases(alloc: Global, tokens: &mut Cursor, limit: u16) -> Result<Seq<TypeForm>, Or<Fault>>
    ensures { Reads ((given_bases_of limit).reads tokens.old) result tokens.new }
{
    expect(tokens, COLON)?;
    let first = ty(alloc, tokens, limit)?;
    let mut bases = Seq::new(alloc);
    bases.push(first)?;
    more_bases(alloc, tokens, limit, bases)
}

/// The types that stand behind a colon, if there is one.
pub fn bases(alloc: Global, tokens: &mut Cursor, limit: u16) -> Result<Seq<TypeForm>, Or<Fault>>
    ensures { Reads ((bases_of limit).reads tokens.old) result tokens.new }
{
    if begins(tokens, &[COLON]) {
        return given_bases(alloc, tokens, limit);
    }
    Ok(Seq::new(alloc))
}
