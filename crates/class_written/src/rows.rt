// The rows of types.

ghost use Rattle.std.specs.Prelude.{◌≡◌, IfOk, map};
ghost use Rattle.cs_declared.specs.Seen.{seen, content_of};
ghost use Rattle.class_written.specs.TypeRows.{type_row, access_or, access_of_word, access_within, super, implied, class_base, is_interface, enum_base, abstract_by, sealed_by, body_above, class_above, above_of, interface_kind};

use crate::Types;
use crate::kinds::{kind_of, underlying};
use class_rows::{Access, Kind, TypeRow};
use cs_declared::{Declared, What, Within};
use cs_tree::{Access as Word, Kind as TreeKind, Mods, TypeForm};
use dc_base::{NoMemory, Prim_, Seq, Text, TypeId};
use std::alloc::Global;

/// The base of a type, and the interfaces that it names.
#[derive(Debug, Drop)]
pub struct Above {
    pub base: Option<TypeId>,
    pub bases: Seq<TypeId>,
}

/// The row of a type.
pub fn type_row(
    alloc: Global,
    types: &Types<'_>,
    declared: &Declared<'_>,
) -> Result<TypeRow, NoMemory>
    ensures { IfOk result (λ row. row ≡ type_row types.now (seen declared.now)) }
{
    let above = above_of(alloc, types, &declared.full, &declared.what)?;
    let kind = kind_of(declared);
    Ok(TypeRow {
        name: declared.name.text.copied(alloc)?,
        space: declared.space.copied(alloc)?,
        outer: declared.outer,
        kind,
        access: access_or(declared.mods.access, access_within(declared.within)),
        base: above.base,
        bases: above.bases,
        is_abstract: is_abstract(declared.mods, kind),
        is_sealed: is_sealed(declared.mods, kind),
        own: false,
    })
}

/// The access that a word means, or this one where there is none.
pub fn access_or(word: Option<Word>, other: Access) -> Access
    ensures { result ≡ access_or word other }
{
    match word {
        Some(Word::Public) => Access::Public,
        Some(Word::Private) => Access::Private,
        Some(Word::Protected) => Access::Protected,
        Some(Word::Internal) => Access::Internal,
        Some(Word::ProtectedOrInternal) => Access::ProtectedInternal,
        Some(Word::ProtectedAndInternal) => Access::PrivateProtected,
        None => other,
    }
}

/// The access of what has no word for it.
pub fn access_within(within: Within) -> Access
    ensures { result ≡ access_within within }
{
    match within {
        Within::Space => Access::Internal,
        Within::Interface => Access::Public,
        Within::Type => Access::Private,
    }
}

fn is_abstract(mods: Mods, kind: Kind) -> bool
    ensures { result ≡ abstract_by mods kind }
{
    match kind {
        Kind::Interface | Kind::StaticClass => true,
        Kind::Class => mods.is_abstract,
        _ => false,
    }
}

fn is_sealed(mods: Mods, kind: Kind) -> bool
    ensures { result ≡ sealed_by mods kind }
{
    match kind {
        Kind::Interface => false,
        Kind::Class => mods.is_sealed,
        _ => true,
    }
}

fn above_of(
    alloc: Global,
    types: &Types<'_>,
    full: &Text,
    what: &What<'_>,
) -> Result<Above, NoMemory>
    ensures { IfOk result (λ above. above ≡ above_of types.now full.now (content_of what.now)) }
{
    match what {
        What::Body { kind, bases, .. } => {
            let named = supers(alloc, types, bases)?;
            Ok(body_above(types, full, *kind, named))
        }
        What::Enum { ty, .. } => Ok(Above {
            base: enum_base(types, underlying(ty)),
            bases: Seq::of(Vec::new(alloc)),
        }),
        What::Delegate { .. } => Ok(Above {
            base: implied(types, "System.MulticastDelegate"),
            bases: Seq::of(Vec::new(alloc)),
        }),
    }
}

fn supers(alloc: Global, types: &Types<'_>, forms: &[TypeForm]) -> Result<Vec<TypeId>, NoMemory>
    ensures { IfOk result (λ named. named.items ≡ map (super types.now) forms.now) }
{
    let mut named = Vec::new(alloc);
    for form in forms {
        named.push(super_(alloc, types, form)?)?;
    }
    Ok(named)
}

fn super_(alloc: Global, types: &Types<'_>, form: &TypeForm) -> Result<TypeId, NoMemory>
    ensures { IfOk result (λ id. id ≡ super types.now form.now) }
{
    if form.ranks > 0 {
        return Ok(TypeId(u32::MAX));
    }
    Ok(TypeId(types.number_written(alloc, &form.name)?))
}

fn body_above(types: &Types<'_>, full: &Text, kind: TreeKind, named: Vec<TypeId>) -> Above
    ensures { result ≡ body_above types.now full.now kind named.items }
{
    match kind {
        TreeKind::Class => class_above(types, class_base(types, full), named),
        TreeKind::Interface => Above {
            base: None,
            bases: Seq::of(named),
        },
        TreeKind::Struct => Above {
            base: implied(types, "System.ValueType"),
            bases: Seq::of(named),
        },
    }
}

fn class_above(types: &Types<'_>, other: Option<TypeId>, named: Vec<TypeId>) -> Above
    ensures { result ≡ class_above types.now other named.items }
{
    let mut named = named;
    match named.first() {
        Some(first) if !is_interface(types, *first) => {
            let base = named.remove(0);
            Above {
                base: Some(base),
                bases: Seq::of(named),
            }
        }
        _ => Above {
            base: other,
            bases: Seq::of(named),
        },
    }
}

fn class_base(types: &Types<'_>, full: &Text) -> Option<TypeId>
    ensures { result ≡ class_base types.now full.now }
{
    if full.as_str() == "System.Object" {
        return None;
    }
    implied(types, "System.Object")
}

fn implied(types: &Types<'_>, name: &str) -> Option<TypeId>
    ensures { result ≡ implied types.now name.now }
{
    Some(TypeId(types.number(name)?))
}

fn enum_base(types: &Types<'_>, over: Option<Prim_>) -> Option<TypeId>
    ensures { result ≡ enum_base types.now over }
{
    match over {
        Some(_) => implied(types, "System.Enum"),
        None => Some(TypeId(u32::MAX)),
    }
}

fn is_interface(types: &Types<'_>, id: TypeId) -> bool
    ensures { result ≡ is_interface types.now id }
{
    match types.kind(id.0) {
        Some(kind) => kind == Kind::Interface,
        None => false,
    }
}
