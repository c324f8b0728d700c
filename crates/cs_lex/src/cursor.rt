// A place among the tokens of a text.

ghost use Rattle.std.specs.Prelude.{◌≡◌, ◌<◌, [], ◌∷◌, length, drop, MatchOption};
ghost use Rattle.std.specs.Str.{chars};
ghost use Rattle.cs_lex.specs.Places.{At};
ghost use Rattle.cs_lex.specs.Cursors.{HasTokens, tokens_from};

use crate::places::advanced;
use cs_token::{Token, before, behind_gap};
use std::marker::Model;

/// A place among the tokens of a text, which contracts see as the tokens from there on. A token is cut when the place before it is
/// reached, and none of them is kept.
#[derive(Drop)]
pub struct Cursor<'a> {
    /// The whole text.
    source: &'a str,
    /// What is left of it, from the next token on.
    here: &'a str,
    line: usize,
    column: usize,
    /// The next token where one stands, and what stands behind it.
    next: Option<Token<'a>>,
    behind: &'a str,
    /// The number of tokens that are left.
    left: usize,
}

impl<'a> Model for Cursor<'a> {
    ghost use Rattle.std.specs.Prelude.{List};
    ghost use Rattle.std.specs.Str.{chars};
    ghost use Rattle.cs_token.specs.Placed.{Placed};
    ghost use Rattle.cs_lex.specs.Cursors.{tokens_from, IsCursor};

    ghost Value = { List Placed };

    ghost view = { λ c. tokens_from (chars c.source.now) c.left (chars c.here.now) };

    ghost invariant = { λ c. IsCursor c.source.now c.here.now (c.line, c.column) c.next c.behind.now c.left };
}

impl<'a> Cursor<'a> {
    /// The place in a text from which on this is left, with so many tokens.
    pub(crate) fn at(
        source: &'a str,
        here: &'a str,
        place: (usize, usize),
        left: usize,
    ) -> Cursor<'a>
        requires placed { At source.now here.now place }
        requires counted { HasTokens left (chars here.now) }
        ensures { result ≡ tokens_from (chars source.now) left (chars here.now) }
    {
        let (line, column) = place;
        let (next, behind) = match Token::first(here, line as u32, column as u32) {
            Some((next, behind)) => (Some(next), behind),
            None => (None, here),
        };
        Cursor {
            source,
            here,
            line,
            column,
            next,
            behind,
            left,
        }
    }

    /// The number of tokens that are left.
    pub fn left(&self) -> usize
        ensures { result ≡ length self.now }
    {
        self.left
    }

    /// The next token, which stays.
    pub fn peek(&self) -> Option<&Token<'a>>
        ensures { MatchOption result (self.now ≡ []) (λ next. (rest : _) × (self.now ≡ next.now ∷ rest)) }
    {
        if self.left == 0 {
            return None;
        }
        self.next.as_ref()
    }

    /// The place behind the next token.
    fn passed(&self) -> Cursor<'a>
        requires { 0 < length self.now }
        ensures { result ≡ drop 1 self.now }
    {
        let here = behind_gap(self.behind);
        let place = advanced(before(self.here, here), self.line, self.column);
        Cursor::at(self.source, here, place, self.left - 1)
    }

    /// The next token, which goes.
    pub fn advance(&mut self) -> Option<Token<'a>>
        ensures { MatchOption result ((self.old ≡ []) × (self.new ≡ [])) (λ next. self.old ≡ next ∷ self.new) }
    {
        if self.left == 0 {
            return None;
        }
        let behind = self.passed();
        let next = self.next.take();
        *self = behind;
        next
    }
}
