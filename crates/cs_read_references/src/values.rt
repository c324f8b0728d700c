// The values of constants.

ghost use Rattle.std.specs.Prelude.{◌≡◌, IfOk, [], ◌∷◌};
ghost use Rattle.cs_grammar.specs.Grammar.{either};
ghost use Rattle.cs_grammar.specs.Reads.{Reads};
ghost use Rattle.cs_productions.specs.Kinds.{minus};
ghost use Rattle.cs_productions.specs.Tokens.{kind as kind_of, word_literal, literal_of};
ghost use Rattle.cs_statements.specs.Kinds.{literal_kinds};
ghost use Rattle.cs_references.specs.Members.{literal_form, literal as literal_of_text, any_number, negative_of as negative_form, negative as negative_of, enclosed as enclosed_of, cast as cast_of, value as value_of};

use cs_grammar::Fault;
use cs_lex::{Cursor, begins, expect, take_one};
use cs_read_modifiers::kinds::NUMBER;
use cs_read_types::kinds::{KW_NULL, KW_TRUE, MINUS, PAREN, UNPAREN};
use cs_read_types::{place, spot, ty};
use cs_token::{Lexeme, Token};
use cs_tree::{Form, Literal, Spot, UnaryOp};
use dc_base::{Boxed, NoMemory, Or};
use std::alloc::Global;

// Literals: numbers with and without a suffix, characters, texts, `true`, `false`, `null`.
const LITERALS: [u16; 7] = [1, 8, 2, 3, 124, 83, 101];

fn word(kind: u16) -> Literal
    ensures { result ≡ word_literal kind }
{
    if kind == KW_NULL {
        Literal::Null
    } else {
        Literal::Bool {
            value: kind == KW_TRUE,
        }
    }
}

/// The literal that a token is.
fn literal_of(alloc: Global, token: &Token) -> Result<Literal, NoMemory>
    ensures { IfOk result (λ literal. literal ≡ literal_of token.now.lexeme) }
{
    let kind = token.kind();
    match token.lexeme(alloc)? {
        Lexeme::Number(value, suffix) => Ok(Literal::Number { value, suffix }),
        Lexeme::Char(unit) => Ok(Literal::Char { unit }),
        Lexeme::Literal(units) => Ok(Literal::Text { units }),
        _ => Ok(word(kind)),
    }
}

fn form(alloc: Global, token: &Token) -> Result<Form, NoMemory>
    ensures { IfOk result (λ form. form ≡ literal_form token.now) }
{
    Ok(Form::Literal {
        spot: spot(token),
        literal: literal_of(alloc, token)?,
    })
}

fn literal(alloc: Global, tokens: &mut Cursor) -> Result<Form, Or<Fault>>
    ensures { Reads (literal_of_text.reads tokens.old) result tokens.new }
{
    let token = take_one(tokens, &LITERALS)?;
    Ok(form(alloc, &token)?)
}

fn number(alloc: Global, tokens: &mut Cursor) -> Result<Form, Or<Fault>>
    ensures { Reads (any_number.reads tokens.old) result tokens.new }
{
    let token = take_one(tokens, &[NUMBER])?;
    Ok(form(alloc, &token)?)
}

// A number behind a minus.
fn negated(alloc: Global, spot: Spot, operand: Form) -> Result<Form, NoMemory>
    ensures { IfOk result (λ form. form ≡ negative_form spot operand) }
{
    let operand = Boxed::new(alloc, operand)?;
    Ok(Form::Unary {
        spot,
        op: UnaryOp::Minus,
        operand,
    })
}

fn negative(alloc: Global, tokens: &mut Cursor) -> Result<Form, Or<Fault>>
    ensures { Reads (negative_of.reads tokens.old) result tokens.new }
{
    let spot = place(tokens, MINUS)?;
    let operand = number(alloc, tokens)?;
    Ok(negated(alloc, spot, operand)?)
}

// A number behind a minus, in parentheses.
fn enclosed(alloc: Global, tokens: &mut Cursor) -> Result<Form, Or<Fault>>
    ensures { Reads (enclosed_of.reads tokens.old) result tokens.new }
{
    let spot = place(tokens, PAREN)?;
    expect(tokens, MINUS)?;
    let operand = number(alloc, tokens)?;
    expect(tokens, UNPAREN)?;
    Ok(negated(alloc, spot, operand)?)
}

fn operand(alloc: Global, tokens: &mut Cursor) -> Result<Form, Or<Fault>>
    ensures { Reads ((either kind_of literal_kinds literal_of_text enclosed_of).reads tokens.old) result tokens.new }
{
    if begins(tokens, &LITERALS) {
        return literal(alloc, tokens);
    }
    enclosed(alloc, tokens)
}

fn cast(alloc: Global, tokens: &mut Cursor, limit: u16) -> Result<Form, Or<Fault>>
    ensures { Reads ((cast_of limit).reads tokens.old) result tokens.new }
{
    let spot = place(tokens, PAREN)?;
    let ty = ty(alloc, tokens, limit)?;
    expect(tokens, UNPAREN)?;
    let operand = operand(alloc, tokens)?;
    let operand = Boxed::new(alloc, operand)?;
    Ok(Form::Cast { spot, ty, operand })
}

fn negative_or_cast(alloc: Global, tokens: &mut Cursor, limit: u16) -> Result<Form, Or<Fault>>
    ensures { Reads ((either kind_of (minus ∷ []) negative_of (cast_of limit)).reads tokens.old) result tokens.new }
{
    if begins(tokens, &[MINUS]) {
        return negative(alloc, tokens);
    }
    cast(alloc, tokens, limit)
}

/// A literal, a number behind a minus, or a cast of one.
pub fn value(alloc: Global, tokens: &mut Cursor, limit: u16) -> Result<Form, Or<Fault>>
    ensures { Reads ((value_of limit).reads tokens.old) result tokens.new }
{
    if begins(tokens, &LITERALS) {
        return literal(alloc, tokens);
    }
    negative_or_cast(alloc, tokens, limit)
}
