// Enums.

ghost use Rattle.std.specs.Prelude.{◌≡◌, true, [], ◌∷◌, IfOk};
ghost use Rattle.cs_grammar.specs.Grammar.{one, turns};
ghost use Rattle.cs_grammar.specs.Reads.{Reads};
ghost use Rattle.cs_productions.specs.Kinds.{names, number as number_kind};
ghost use Rattle.cs_productions.specs.Tokens.{kind as kind_of};
ghost use Rattle.cs_units.specs.Declarations.{number_of_token, enumerator as enumerator_of, one_more_enumerator as one_more_enumerator_of, enum_type as enum_type_of};

use cs_grammar::Fault;
use cs_lex::{Cursor, begins, expect, take_one};
use cs_read_modifiers::kinds::{KW_ENUM, NUMBER};
use cs_read_modifiers::{flag, start};
use cs_read_types::kinds::{BRACE, COLON, COMMA, EQUALS, MINUS, NAMES, UNBRACE};
use cs_read_types::{any_name, place, ty};
use cs_token::{Lexeme, Token};
use cs_tree::{Decl, Enumerator};
use cs_units::Marked;
use dc_base::{NoMemory, Or, Seq};
use std::alloc::Global;

/// The value of a number; a token that is none has the value 0.
fn value_of(alloc: Global, token: &Token) -> Result<u64, NoMemory>
    ensures { IfOk result (λ value. value ≡ number_of_token token.now) }
{
    match token.lexeme(alloc)? {
        Lexeme::Number(value, _) => Ok(value),
        _ => Ok(0),
    }
}

fn number(alloc: Global, tokens: &mut Cursor) -> Result<u64, Or<Fault>>
    ensures { Reads ((one kind_of (number_kind ∷ []) number_of_token).reads tokens.old) result tokens.new }
{
    let token = take_one(tokens, &[NUMBER])?;
    Ok(value_of(alloc, &token)?)
}

fn enumerator(alloc: Global, tokens: &mut Cursor) -> Result<Enumerator, Or<Fault>>
    ensures { Reads (enumerator_of.reads tokens.old) result tokens.new }
{
    let name = any_name(alloc, tokens)?;
    expect(tokens, EQUALS)?;
    let negative = flag(tokens, MINUS)?;
    let value = number(alloc, tokens)?;
    expect(tokens, COMMA)?;
    Ok(Enumerator {
        name,
        negative: negative.is_some(),
        value,
    })
}

fn one_more_enumerator(
    alloc: Global,
    tokens: &mut Cursor,
    mut before: Seq<Enumerator>,
) -> Result<Seq<Enumerator>, Or<Fault>>
    ensures { Reads ((one_more_enumerator_of before).reads tokens.old) result tokens.new }
{
    let next = enumerator(alloc, tokens)?;
    before.push(next)?;
    Ok(before)
}

fn enumerators(alloc: Global, tokens: &mut Cursor) -> Result<Seq<Enumerator>, Or<Fault>>
    ensures { Reads ((turns kind_of names (λ _. true) one_more_enumerator_of []).reads tokens.old) result tokens.new }
{
    let mut so_far = Seq::new(alloc);
    'turns: for _ in 0..tokens.left() {
        if !begins(tokens, &NAMES) {
            return Ok(so_far);
        }
        so_far = one_more_enumerator(alloc, tokens, so_far)?;
    }
    Ok(so_far)
}

/// `enum E : int { A = 0, B = -1, }`
pub fn enum_type(
    alloc: Global,
    tokens: &mut Cursor,
    limit: u16,
    marked: Marked,
) -> Result<Decl, Or<Fault>>
    ensures { Reads ((enum_type_of limit marked).reads tokens.old) result tokens.new }
{
    let spot = place(tokens, KW_ENUM)?;
    let name = any_name(alloc, tokens)?;
    expect(tokens, COLON)?;
    let ty = ty(alloc, tokens, limit)?;
    expect(tokens, BRACE)?;
    let enumerators = enumerators(alloc, tokens)?;
    expect(tokens, UNBRACE)?;
    Ok(Decl::Enum {
        spot: start(&marked, spot),
        note: None,
        mods: marked.mods,
        name,
        ty,
        enumerators,
    })
}
