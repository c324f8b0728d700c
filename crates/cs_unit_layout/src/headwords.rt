// The words that declarations begin with.

ghost use Rattle.std.specs.Prelude.{◌≡◌, OnOk};
ghost use Rattle.std.specs.List.{flat_map};
ghost use Rattle.std.specs.String.{string_bytes};
ghost use Rattle.cs_layout.specs.Pieces.{piece_bytes, followed};
ghost use Rattle.cs_unit_layout.specs.Heads.{headword};

use dc_base::NoMemory;

/// A text that is the same in all declarations of one form.
#[derive(Clone, Copy, Debug, PartialEq, Eq)]
pub enum Headword {
    Public,
    Private,
    Protected,
    Internal,
    ProtectedOrInternal,
    ProtectedAndInternal,
    Static,
    Abstract,
    Sealed,
    Virtual,
    Override,
    Readonly,
    Extern,
    Const,
    Void,
    Class,
    Interface,
    Struct,
    Enum,
    Delegate,
    Namespace,
    Operator,
    Indexer,
    Get,
    Set,
    ByBase,
    ByThis,
    Minus,
    ItemEnd,
}

#[tactic(auto, unfolding(crate::specs::Heads::headword), using(crate::proofs::Words::indexer_bytes, crate::proofs::Words::get_bytes, crate::proofs::Words::set_bytes))]
fn text(word: Headword) -> &'static str
    ensures { result.now ≡ flat_map piece_bytes (headword word) }
{
    match word {
        Headword::Public => "public ",
        Headword::Private => "private ",
        Headword::Protected => "protected ",
        Headword::Internal => "internal ",
        Headword::ProtectedOrInternal => "protected internal ",
        Headword::ProtectedAndInternal => "private protected ",
        Headword::Static => "static ",
        Headword::Abstract => "abstract ",
        Headword::Sealed => "sealed ",
        Headword::Virtual => "virtual ",
        Headword::Override => "override ",
        Headword::Readonly => "readonly ",
        Headword::Extern => "extern ",
        Headword::Const => "const ",
        Headword::Void => "void ",
        Headword::Class => "class ",
        Headword::Interface => "interface ",
        Headword::Struct => "struct ",
        Headword::Enum => "enum ",
        Headword::Delegate => "delegate ",
        Headword::Namespace => "namespace ",
        Headword::Operator => "operator ",
        Headword::Indexer => "indexer ",
        Headword::Get => "get",
        Headword::Set => "set",
        Headword::ByBase => "base",
        Headword::ByThis => "this",
        Headword::Minus => "-",
        Headword::ItemEnd => ",",
    }
}

/// Writes a text that is the same in all declarations of one form.
#[tactic(auto, unfolding(cs_layout::specs::Pieces::followed))]
pub fn write_headword(out: &mut String, word: Headword) -> Result<(), NoMemory>
    ensures { OnOk result (string_bytes out.new ≡ followed (string_bytes out.old) (headword word)) }
{
    out.push_str(text(word))?;
    Ok(())
}
