// Single tokens, and what they leave in a tree.

ghost use Rattle.std.specs.Prelude.{◌≡◌, IfOk};
ghost use Rattle.cs_grammar.specs.Reads.{Finds, Reads};
ghost use Rattle.cs_productions.specs.Tokens.{spot_of, place as place_of, text_of as token_text, name_text as name_text_of, any_name as any_name_of, keyword_type_of, way_of};
ghost use Rattle.cs_productions.specs.Types.{keyword_type as keyword_type_grammar, given_way as given_way_of};

use crate::kinds::{
    KEYWORD_TYPES, KW_BOOL, KW_BYTE, KW_CHAR, KW_INT, KW_LONG, KW_OBJECT, KW_OUT, KW_REF, KW_SBYTE,
    KW_SHORT, KW_UINT, KW_ULONG, KW_USHORT, NAMES,
};
use cs_grammar::Fault;
use cs_lex::{Cursor, take_one};
use cs_token::{Lexeme, Token};
use cs_tree::{KeywordType, Name, Spot, TypeForm, TypeName, Way};
use dc_base::{NoMemory, Or, Text};
use std::alloc::Global;

/// Where a token stands.
pub fn spot(token: &Token) -> Spot
    ensures { result ≡ spot_of token.now }
{
    Spot {
        line: token.line(),
        column: token.column(),
    }
}

/// Takes one token of this kind, for its place.
pub fn place(tokens: &mut Cursor, kind: u16) -> Result<Spot, Fault>
    ensures { Finds ((place_of kind).reads tokens.old) result tokens.new }
{
    Ok(spot(&take_one(tokens, &[kind])?))
}

/// The text of a name; a token that is none has no text.
pub fn text(alloc: Global, token: &Token) -> Result<Text, NoMemory>
    ensures { IfOk result (λ text. text ≡ token_text token.now) }
{
    match token.lexeme(alloc)? {
        Lexeme::Name(text) => Ok(text),
        _ => Ok(Text::from_string(String::new(alloc))),
    }
}

/// Takes a name, for its text.
pub fn name_text(alloc: Global, tokens: &mut Cursor) -> Result<Text, Or<Fault>>
    ensures { Reads (name_text_of.reads tokens.old) result tokens.new }
{
    let token = take_one(tokens, &NAMES)?;
    Ok(text(alloc, &token)?)
}

/// Takes a name, for its text and its place.
pub fn any_name(alloc: Global, tokens: &mut Cursor) -> Result<Name, Or<Fault>>
    ensures { Reads (any_name_of.reads tokens.old) result tokens.new }
{
    let token = take_one(tokens, &NAMES)?;
    let text = text(alloc, &token)?;
    Ok(Name {
        spot: spot(&token),
        text,
    })
}

/// The type that a keyword of this kind names.
fn keyword_type(kind: u16) -> KeywordType
    ensures { result ≡ keyword_type_of kind }
{
    match kind {
        KW_BOOL => KeywordType::Bool,
        KW_CHAR => KeywordType::Char,
        KW_SBYTE => KeywordType::Sbyte,
        KW_BYTE => KeywordType::Byte,
        KW_SHORT => KeywordType::Short,
        KW_USHORT => KeywordType::Ushort,
        KW_INT => KeywordType::Int,
        KW_UINT => KeywordType::Uint,
        KW_LONG => KeywordType::Long,
        KW_ULONG => KeywordType::Ulong,
        KW_OBJECT => KeywordType::Object,
        _ => KeywordType::String,
    }
}

/// Takes a keyword that names a type.
pub(crate) fn keyword_named(tokens: &mut Cursor) -> Result<TypeForm, Fault>
    ensures { Finds (keyword_type_grammar.reads tokens.old) result tokens.new }
{
    let token = take_one(tokens, &KEYWORD_TYPES)?;
    Ok(TypeForm {
        spot: spot(&token),
        name: TypeName::Keyword {
            keyword: keyword_type(token.kind()),
        },
        ranks: 0,
    })
}

fn way(kind: u16) -> Way
    ensures { result ≡ way_of kind }
{
    if kind == KW_REF { Way::Ref } else { Way::Out }
}

/// Takes `ref` or `out`.
pub(crate) fn given_way(tokens: &mut Cursor) -> Result<Way, Fault>
    ensures { Finds (given_way_of.reads tokens.old) result tokens.new }
{
    Ok(way(take_one(tokens, &[KW_REF, KW_OUT])?.kind()))
}
