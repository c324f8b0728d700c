// Tokens.

ghost use Rattle.std.specs.Prelude.{◌≡◌, IfNone, IfSome, IfOk, Some, None};
ghost use Rattle.std.specs.Str.{chars};
ghost use Rattle.cs_token.specs.Tokens.{kind_of, token_at};
ghost use Rattle.cs_token.specs.Cuts.{HasOneCut};
ghost use Rattle.cs_token.specs.Pieces.{Passes};

use crate::Lexeme;
use crate::pieces::first_piece;
use dc_base::NoMemory;
use std::alloc::Global;
use std::marker::Model;

/// A token, which contracts see as its value with its line and its column. It names the place in the text where it stands.
#[derive(Drop)]
pub struct Token<'a> {
    text: &'a str,
    kind: u16,
    line: u32,
    column: u32,
}

impl<'a> Model for Token<'a> {
    ghost use Rattle.cs_token.specs.Placed.{Placed, Begins, lexeme_at};

    ghost Value = { Placed };

    ghost view = { λ t. record { lexeme = lexeme_at t.text.now; line = t.line; column = t.column } };

    ghost invariant = { λ t. Begins t.text.now t.kind };
}

impl<'a> Token<'a> {
    /// The token that a text begins with, at this place, and what stands behind it.
    pub fn first(text: &'a str, line: u32, column: u32) -> Option<(Token<'a>, &'a str)>
        ensures none { IfNone result (token_at (chars text.now) ≡ None) }
        ensures some { IfSome result (λ p. token_at (chars text.now) ≡ Some (p.0.lexeme, chars p.1.now)) }
        ensures placed { IfSome result (λ p. (p.0.line ≡ line) × (p.0.column ≡ column)) }
        ensures passes { IfSome result (λ p. Passes p.1.now text.now) }
    {
        let (piece, rest) = first_piece(text)?;
        let kind = piece.kind();
        Some((
            Token {
                text,
                kind,
                line,
                column,
            },
            rest,
        ))
    }

    /// What a grammar tells tokens apart by.
    pub fn kind(&self) -> u16
        ensures { result ≡ kind_of self.now.lexeme }
    {
        self.kind
    }

    /// Counted from 1.
    pub fn line(&self) -> u32
        ensures { result ≡ self.now.line }
    {
        self.line
    }

    /// Counted from 1, in characters.
    pub fn column(&self) -> u32
        ensures { result ≡ self.now.column }
    {
        self.column
    }

    /// The token's value, made anew.
    pub fn lexeme(&self, alloc: Global) -> Result<Lexeme, NoMemory>
        ensures { IfOk result (λ lexeme. lexeme ≡ self.now.lexeme) }
    {
        match first_piece(self.text) {
            Some((piece, _)) => piece.lexeme(alloc),
            None => unreachable!(),
        }
    }
}

/// A text is cut into tokens in one way: up to its end, or up to the first place where none stands.
pub fn one_cut()
    ensures { HasOneCut }
{}
