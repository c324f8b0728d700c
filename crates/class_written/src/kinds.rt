// What kind of type is declared.

ghost use Rattle.std.specs.Prelude.{◌≡◌};
ghost use Rattle.cs_declared.specs.Names.{joined};
ghost use Rattle.cs_declared.specs.Seen.{seen};
ghost use Rattle.class_written.specs.Forms.{placed_kind, body_kind, underlying, enum_kind, prim_written, keyword_prim, system_prim, simple_type, integer_of};

use class_rows::Kind;
use cs_declared::{Declared, What};
use cs_tree::{KeywordType, Kind as TreeKind, Mods, TypeForm, TypeName};
use dc_base::{Prim_, Text};

/// What kind of type it is.
pub fn kind_of(declared: &Declared<'_>) -> Kind
    ensures { result ≡ placed_kind (seen declared.now) }
{
    match &declared.what {
        What::Body { kind, .. } => body_kind(declared.mods, *kind),
        What::Enum { ty, .. } => enum_kind(underlying(ty)),
        What::Delegate { .. } => Kind::Delegate,
    }
}

fn body_kind(mods: Mods, kind: TreeKind) -> Kind
    ensures { result ≡ body_kind mods kind }
{
    match kind {
        TreeKind::Class if mods.is_static || (mods.is_abstract && mods.is_sealed) =>
            Kind::StaticClass,
        TreeKind::Class => Kind::Class,
        TreeKind::Interface => Kind::Interface,
        TreeKind::Struct => Kind::Opaque,
    }
}

fn enum_kind(over: Option<Prim_>) -> Kind
    ensures { result ≡ enum_kind over }
{
    Kind::Enum(over.unwrap_or(Prim_::I4))
}

/// The integer type that an enum is written over.
pub fn underlying(form: &TypeForm) -> Option<Prim_>
    ensures { result ≡ underlying form.now }
{
    if form.ranks > 0 {
        return None;
    }
    integer(written(&form.name))
}

fn integer(prim: Option<Prim_>) -> Option<Prim_>
    ensures { result ≡ integer_of prim }
{
    match prim? {
        Prim_::Bool | Prim_::Char => None,
        other => Some(other),
    }
}

/// The primitive type that is written so.
pub fn written(name: &TypeName) -> Option<Prim_>
    ensures { result ≡ prim_written name.now }
{
    match name {
        TypeName::Keyword { keyword } => keyword_prim(*keyword),
        TypeName::Global { path } => system_prim(path.items()),
    }
}

fn keyword_prim(keyword: KeywordType) -> Option<Prim_>
    ensures { result ≡ keyword_prim keyword }
{
    match keyword {
        KeywordType::Bool => Some(Prim_::Bool),
        KeywordType::Char => Some(Prim_::Char),
        KeywordType::Sbyte => Some(Prim_::I1),
        KeywordType::Byte => Some(Prim_::U1),
        KeywordType::Short => Some(Prim_::I2),
        KeywordType::Ushort => Some(Prim_::U2),
        KeywordType::Int => Some(Prim_::I4),
        KeywordType::Uint => Some(Prim_::U4),
        KeywordType::Long => Some(Prim_::I8),
        KeywordType::Ulong => Some(Prim_::U8),
        KeywordType::Object | KeywordType::String => None,
    }
}

fn system_prim(path: &[Text]) -> Option<Prim_>
    ensures { result ≡ system_prim path.now }
{
    match path {
        [space, name] if space.as_str() == "System" => simple_type(name.as_str()),
        _ => None,
    }
}

fn simple_type(name: &str) -> Option<Prim_>
    ensures { result ≡ simple_type name.now }
{
    match name {
        "Boolean" => Some(Prim_::Bool),
        "Char" => Some(Prim_::Char),
        "SByte" => Some(Prim_::I1),
        "Byte" => Some(Prim_::U1),
        "Int16" => Some(Prim_::I2),
        "UInt16" => Some(Prim_::U2),
        "Int32" => Some(Prim_::I4),
        "UInt32" => Some(Prim_::U4),
        "Int64" => Some(Prim_::I8),
        "UInt64" => Some(Prim_::U8),
        _ => None,
    }
}
