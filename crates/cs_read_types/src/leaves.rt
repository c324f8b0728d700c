// Names, literals and `this` as expressions, and the operators that tokens are.

ghost use Rattle.std.specs.Prelude.{◌≡◌, [], ◌∷◌, IfOk};
ghost use Rattle.cs_grammar.specs.Grammar.{one};
ghost use Rattle.cs_grammar.specs.Reads.{Finds, Reads};
ghost use Rattle.cs_productions.specs.Tokens.{kind as kind_of, spot_of, word_literal, simple_form, simple as simple_of, unary_of, binary_of};
ghost use Rattle.cs_productions.specs.Primaries.{global_leaf as global_leaf_of};
ghost use Rattle.cs_productions.specs.Kinds.{global};

use crate::kinds::{
    AMP, AT_LEAST, AT_MOST, BANG, BAR, BOTH, CARET, EQUAL, GLOBAL, GREATER, KW_NULL, KW_THIS,
    KW_TRUE, LESS, MINUS, PERCENT, PLUS, SHIFT_LEFT, SHIFT_RIGHT, SIMPLE, SLASH, TILDE, TIMES,
    UNEQUAL,
};
use crate::words::{spot, text};
use cs_grammar::Fault;
use cs_lex::{Cursor, take_one};
use cs_productions::Measured;
use cs_token::{Lexeme, Token};
use cs_tree::{BinaryOp, Form, Literal, UnaryOp};
use dc_base::{NoMemory, Or};
use std::alloc::Global;

fn word(kind: u16) -> Literal
    ensures { result ≡ word_literal kind }
{
    if kind == KW_NULL {
        Literal::Null
    } else {
        Literal::Bool {
            value: kind == KW_TRUE,
        }
    }
}

/// The expression that a token is by itself.
fn form(alloc: Global, token: &Token) -> Result<Form, NoMemory>
    ensures { IfOk result (λ form. form ≡ simple_form token.now.lexeme (spot_of token.now)) }
{
    let spot = spot(token);
    let kind = token.kind();
    match token.lexeme(alloc)? {
        Lexeme::Name(text) => Ok(Form::Name { spot, text }),
        Lexeme::Number(value, suffix) => Ok(Form::Literal {
            spot,
            literal: Literal::Number { value, suffix },
        }),
        Lexeme::Char(unit) => Ok(Form::Literal {
            spot,
            literal: Literal::Char { unit },
        }),
        Lexeme::Literal(units) => Ok(Form::Literal {
            spot,
            literal: Literal::Text { units },
        }),
        _ if kind == KW_THIS => Ok(Form::This { spot }),
        _ => Ok(Form::Literal {
            spot,
            literal: word(kind),
        }),
    }
}

/// Takes a name, a literal or `this`.
pub fn simple(alloc: Global, tokens: &mut Cursor) -> Result<Measured, Or<Fault>>
    ensures { Reads (simple_of.reads tokens.old) result tokens.new }
{
    let token = take_one(tokens, &SIMPLE)?;
    let form = form(alloc, &token)?;
    Ok(Measured {
        form,
        height: 0,
        spot: spot(&token),
        is_call: false,
    })
}

/// Takes the name `global`.
pub fn global_leaf(alloc: Global, tokens: &mut Cursor) -> Result<Measured, Or<Fault>>
    ensures { Reads ((one kind_of (global ∷ []) global_leaf_of).reads tokens.old) result tokens.new }
{
    let token = take_one(tokens, &[GLOBAL])?;
    let text = text(alloc, &token)?;
    let spot = spot(&token);
    Ok(Measured {
        form: Form::Name { spot, text },
        height: 0,
        spot,
        is_call: false,
    })
}

/// Takes one operator of these kinds, for its kind.
pub fn operator(tokens: &mut Cursor, kinds: &[u16]) -> Result<u16, Fault>
    ensures { Finds ((one kind_of kinds.now kind_of).reads tokens.old) result tokens.new }
{
    Ok(take_one(tokens, kinds)?.kind())
}

pub fn unary(kind: u16) -> UnaryOp
    ensures { result ≡ unary_of kind }
{
    match kind {
        BANG => UnaryOp::Not,
        TILDE => UnaryOp::Complement,
        _ => UnaryOp::Minus,
    }
}

pub fn binary(kind: u16) -> BinaryOp
    ensures { result ≡ binary_of kind }
{
    match kind {
        TIMES => BinaryOp::Mul,
        SLASH => BinaryOp::Div,
        PERCENT => BinaryOp::Rem,
        PLUS => BinaryOp::Add,
        MINUS => BinaryOp::Sub,
        SHIFT_LEFT => BinaryOp::ShiftLeft,
        SHIFT_RIGHT => BinaryOp::ShiftRight,
        LESS => BinaryOp::Less,
        GREATER => BinaryOp::Greater,
        AT_MOST => BinaryOp::AtMost,
        AT_LEAST => BinaryOp::AtLeast,
        EQUAL => BinaryOp::Equal,
        UNEQUAL => BinaryOp::Unequal,
        AMP => BinaryOp::BitAnd,
        CARET => BinaryOp::BitXor,
        BAR => BinaryOp::BitOr,
        BOTH => BinaryOp::And,
        _ => BinaryOp::Or,
    }
}
