// Names, types, literals and parameters.

ghost use Rattle.std.specs.Prelude.{◌≡◌, ◌++◌, OnOk, map};
ghost use Rattle.std.specs.List.{flat_map};
ghost use Rattle.std.specs.String.{string_bytes};
ghost use Rattle.cs_layout.specs.Pieces.{piece_bytes, followed};
ghost use Rattle.cs_layout.specs.Words.{name, path, dotted, more_names, keyword_type, type_without_ranks, ranks, type_pieces, number, character, text, truth, literal_pieces, way_pieces, comma, listed, param_pieces};

use crate::fixed::{Fixed, write_fixed};
use cs_token::Suffix;
use cs_tree::{KeywordType, Literal, Param, TypeForm, TypeName, Way};
use dc_base::{NoMemory, Text};

#[tactic(auto, unfolding(crate::specs::Words::keyword_type))]
fn keyword_text(keyword: KeywordType) -> &'static str
    ensures { result.now ≡ flat_map piece_bytes (keyword_type keyword) }
{
    match keyword {
        KeywordType::Bool => "bool",
        KeywordType::Char => "char",
        KeywordType::Sbyte => "sbyte",
        KeywordType::Byte => "byte",
        KeywordType::Short => "short",
        KeywordType::Ushort => "ushort",
        KeywordType::Int => "int",
        KeywordType::Uint => "uint",
        KeywordType::Long => "long",
        KeywordType::Ulong => "ulong",
        KeywordType::Object => "object",
        KeywordType::String => "string",
    }
}

#[tactic(auto, unfolding(crate::specs::Pieces::followed))]
fn write_keyword_type(out: &mut String, keyword: KeywordType) -> Result<(), NoMemory>
    ensures { OnOk result (string_bytes out.new ≡ followed (string_bytes out.old) (keyword_type keyword)) }
{
    out.push_str(keyword_text(keyword))?;
    Ok(())
}

/// Writes a name, behind an `@` where it is a keyword's word.
#[tactic(auto, unfolding(crate::specs::Pieces::followed, crate::specs::Words::name))]
pub fn write_name(out: &mut String, text: &Text) -> Result<(), NoMemory>
    ensures { OnOk result (string_bytes out.new ≡ followed (string_bytes out.old) (name text.now)) }
{
    cs_written::write_name(out, text.as_str())
}

#[tactic(auto, unfolding(crate::specs::Pieces::followed, crate::specs::Words::number))]
fn write_number(out: &mut String, value: u64, suffix: Suffix) -> Result<(), NoMemory>
    ensures { OnOk result (string_bytes out.new ≡ followed (string_bytes out.old) (number value suffix)) }
{
    cs_written::write_number(out, value, suffix)
}

#[tactic(auto, unfolding(crate::specs::Pieces::followed, crate::specs::Words::character))]
fn write_character(out: &mut String, unit: u16) -> Result<(), NoMemory>
    ensures { OnOk result (string_bytes out.new ≡ followed (string_bytes out.old) (character unit)) }
{
    cs_written::write_character(out, unit)
}

#[tactic(auto, unfolding(crate::specs::Pieces::followed, crate::specs::Words::text))]
fn write_text(out: &mut String, units: &[u16]) -> Result<(), NoMemory>
    ensures { OnOk result (string_bytes out.new ≡ followed (string_bytes out.old) (text units.now)) }
{
    cs_written::write_text(out, units)
}

fn write_truth(out: &mut String, value: bool) -> Result<(), NoMemory>
    ensures { OnOk result (string_bytes out.new ≡ followed (string_bytes out.old) (truth value)) }
{
    if value {
        write_fixed(out, Fixed::True)
    } else {
        write_fixed(out, Fixed::False)
    }
}

/// Writes a literal.
pub fn write_literal(out: &mut String, literal: &Literal) -> Result<(), NoMemory>
    ensures { OnOk result (string_bytes out.new ≡ followed (string_bytes out.old) (literal_pieces literal.now)) }
{
    match literal {
        Literal::Number { value, suffix } => write_number(out, *value, *suffix),
        Literal::Char { unit } => write_character(out, *unit),
        Literal::Text { units } => write_text(out, units.units()),
        Literal::Bool { value } => write_truth(out, *value),
        Literal::Null => write_fixed(out, Fixed::Null),
    }
}

/// A name behind a dot.
#[tactic(auto, using(crate::proofs::Following::followed_append))]
fn write_dotted(out: &mut String, text: &Text) -> Result<(), NoMemory>
    ensures { OnOk result (string_bytes out.new ≡ followed (string_bytes out.old) (dotted text.now)) }
{
    write_fixed(out, Fixed::Dot)?;
    write_name(out, text)
}

#[tactic(auto, using(crate::proofs::Following::followed_nothing))]
fn write_more_names(out: &mut String, names: &[Text]) -> Result<(), NoMemory>
    ensures { OnOk result (string_bytes out.new ≡ followed (string_bytes out.old) (more_names names.now)) }
{
    for text in names {
        write_dotted(out, text)?;
    }
    Ok(())
}

/// Names with dots between them.
#[tactic(auto, using(crate::proofs::Following::followed_append, crate::proofs::Following::followed_nothing))]
pub fn write_path(out: &mut String, names: &[Text]) -> Result<(), NoMemory>
    ensures { OnOk result (string_bytes out.new ≡ followed (string_bytes out.old) (path names.now)) }
{
    match names {
        [] => Ok(()),
        [first, rest @ ..] => {
            write_name(out, first)?;
            write_more_names(out, rest)?;
            Ok(())
        }
    }
}

/// Writes a type without its brackets.
#[tactic(auto, using(crate::proofs::Following::followed_append))]
pub fn write_type_name(out: &mut String, ty: &TypeName) -> Result<(), NoMemory>
    ensures { OnOk result (string_bytes out.new ≡ followed (string_bytes out.old) (type_without_ranks ty.now)) }
{
    match ty {
        TypeName::Keyword { keyword } => write_keyword_type(out, *keyword),
        TypeName::Global { path } => {
            write_fixed(out, Fixed::Global)?;
            write_path(out, path.items())
        }
    }
}

/// Writes so many pairs of brackets.
#[tactic(auto, using(crate::proofs::Following::followed_nothing, crate::proofs::Following::followed_rank))]
pub fn write_ranks(out: &mut String, count: u32) -> Result<(), NoMemory>
    ensures { OnOk result (string_bytes out.new ≡ followed (string_bytes out.old) (ranks count)) }
{
    for _rank in 0..count {
        write_fixed(out, Fixed::Brackets)?;
    }
    Ok(())
}

/// Writes a type.
#[tactic(auto, using(crate::proofs::Following::followed_append))]
pub fn write_type(out: &mut String, ty: &TypeForm) -> Result<(), NoMemory>
    ensures { OnOk result (string_bytes out.new ≡ followed (string_bytes out.old) (type_pieces ty.now)) }
{
    write_type_name(out, &ty.name)?;
    write_ranks(out, ty.ranks)
}

/// Writes how an argument or a parameter is passed.
#[tactic(auto, using(crate::proofs::Following::followed_nothing))]
pub fn write_way(out: &mut String, way: Way) -> Result<(), NoMemory>
    ensures { OnOk result (string_bytes out.new ≡ followed (string_bytes out.old) (way_pieces way)) }
{
    match way {
        Way::Value => Ok(()),
        Way::Ref => write_fixed(out, Fixed::Ref),
        Way::Out => write_fixed(out, Fixed::Out),
    }
}

#[tactic(auto, using(crate::proofs::Following::followed_append))]
fn write_param(out: &mut String, param: &Param) -> Result<(), NoMemory>
    ensures { OnOk result (string_bytes out.new ≡ followed (string_bytes out.old) (param_pieces param.now)) }
{
    write_way(out, param.way)?;
    write_type(out, &param.ty)?;
    write_fixed(out, Fixed::Blank)?;
    write_name(out, &param.name.text)
}

/// Nothing before the first of several parts, and a comma before each other one.
#[tactic(auto, using(crate::proofs::Following::followed_nothing))]
pub fn write_comma(out: &mut String, before: usize) -> Result<(), NoMemory>
    ensures { OnOk result (string_bytes out.new ≡ followed (string_bytes out.old) (comma before)) }
{
    if before == 0 {
        return Ok(());
    }
    write_fixed(out, Fixed::Comma)
}

/// Parameters with commas between them.
#[tactic(auto, using(crate::proofs::Following::followed_nothing))]
pub fn write_params(out: &mut String, params: &[Param]) -> Result<(), NoMemory>
    ensures { OnOk result (string_bytes out.new ≡ followed (string_bytes out.old) (listed (map param_pieces params.now))) }
{
    for (index, param) in params.iter().enumerate() {
        write_comma(out, index)?;
        write_param(out, param)?;
    }
    Ok(())
}
