// The first character of a text, and the part before a rest.

ghost use Rattle.std.specs.Prelude.{◌≡◌, [], ◌∷◌, ◌++◌, encode_utf8, MatchOption, IfSome};
ghost use Rattle.std.specs.Str.{chars};
ghost use Rattle.cs_token.specs.Pieces.{Follows, Passes};

/// The first character of a text, and what stands behind it.
#[tactic(auto, using(std::proofs::lemmas::Str::chars_past_char))]
pub fn split_first(text: &str) -> Option<(char, &str)>
    ensures cut { MatchOption result (text.now ≡ []) (λ p. text.now ≡ encode_utf8 p.0 ++ p.1.now) }
    ensures read { MatchOption result (chars text.now ≡ []) (λ p. chars text.now ≡ p.0 ∷ chars p.1.now) }
    ensures passes { IfSome result (λ p. Passes p.1.now text.now) }
{
    let mut characters = text.chars();
    match characters.next() {
        Some(first) => Some((first, characters.as_str())),
        None => None,
    }
}

/// The part of a text that stands before its rest.
pub fn before<'a>(text: &'a str, rest: &str) -> &'a str
    requires { Follows rest.now text.now }
    ensures { text.now ≡ result.now ++ rest.now }
{
    &text[..text.len() - rest.len()]
}
