// The types of a text, from its start on.

ghost use Rattle.std.specs.Prelude.{◌≡◌, IfOk, length, map, ◌++◌, [], ◌∷◌};
ghost use Rattle.class_rows.specs.Names.{dotted};
ghost use Rattle.cs_declared.specs.Types.{types_in, decl_grown, space_grown, of_space, of_type, within_of, placed, all_grown, types_of, item_grown};
ghost use Rattle.cs_declared.specs.Seen.{seen, content_of};

use crate::scope::{Scope, dotted, joined};
use crate::{Declared, What, Within};
use cs_tree::{Decl, Item, Kind, Mods, Name, Space, Unit};
use dc_base::{NoMemory, Text, TypeId};
use std::alloc::Global;

/// The types that a text declares. It takes time in proportion to the text and the names that it puts together.
pub fn declared_types(alloc: Global, unit: &Unit) -> Result<Vec<Declared<'_>>, NoMemory>
    ensures { IfOk result (λ found. map seen found.items ≡ types_in unit.now) }
{
    let mut found = Vec::new(alloc);
    for space in unit.spaces.as_slice() {
        of_space(alloc, &mut found, space)?;
    }
    Ok(found)
}

fn of_space<'a>(
    alloc: Global,
    found: &mut Vec<Declared<'a>>,
    space: &'a Space,
) -> Result<(), NoMemory>
    ensures { IfOk result (λ _. map seen found.new.items ≡ space_grown (map seen found.old.items) space.now) }
{
    match space {
        Space::Namespace { path, types, .. } => {
            let scope = scope_of(alloc, joined(alloc, path.names.items())?)?;
            of_types(alloc, found, &scope, types.as_slice())
        }
        Space::Type { decl } => {
            let scope = scope_of(alloc, Text::of(alloc, "")?)?;
            of_decl(alloc, found, &scope, decl)
        }
    }
}

fn of_types<'a>(
    alloc: Global,
    found: &mut Vec<Declared<'a>>,
    scope: &Scope,
    types: &'a [Decl],
) -> Result<(), NoMemory>
    ensures { IfOk result (λ _. map seen found.new.items ≡ all_grown (map decl_grown types.now) scope.now (map seen found.old.items)) }
{
    for decl in types {
        of_decl(alloc, found, scope, decl)?;
    }
    Ok(())
}

fn scope_of(alloc: Global, name: Text) -> Result<Scope, NoMemory>
    ensures { IfOk result (λ scope. scope ≡ of_space name) }
{
    Ok(Scope {
        outer: None,
        within: Within::Space,
        space: name.copied(alloc)?,
        front: name,
    })
}

#[cycle(walk)]
fn of_decl<'a>(
    alloc: Global,
    found: &mut Vec<Declared<'a>>,
    scope: &Scope,
    decl: &'a Decl,
) -> Result<(), NoMemory>
    ensures { IfOk result (λ _. map seen found.new.items ≡ decl_grown decl.now scope.now (map seen found.old.items)) }
{
    match decl {
        Decl::Body {
            mods,
            kind,
            name,
            bases,
            items,
            ..
        } => {
            let inner = inner_scope(alloc, found, scope, *kind, name)?;
            let what = What::Body {
                kind: *kind,
                bases: bases.items(),
                items: items.as_slice(),
            };
            add(alloc, found, scope, *mods, name, what)?;
            of_items(alloc, found, &inner, items.as_slice())
        }
        Decl::Enum {
            mods,
            name,
            ty,
            enumerators,
            ..
        } => {
            let what = What::Enum {
                ty,
                enumerators: enumerators.items(),
            };
            add(alloc, found, scope, *mods, name, what)
        }
        Decl::Delegate {
            mods,
            result,
            name,
            params,
            ..
        } => {
            let what = What::Delegate {
                result: result.as_ref(),
                params: params.items(),
            };
            add(alloc, found, scope, *mods, name, what)
        }
    }
}

// What stands round the types that are nested in the next type. No memory holds more types than there are numbers.
fn inner_scope(
    alloc: Global,
    found: &[Declared<'_>],
    scope: &Scope,
    kind: Kind,
    name: &Name,
) -> Result<Scope, NoMemory>
    ensures { IfOk result (λ inner. inner ≡ of_type (length found.now) kind (dotted scope.now.front name.now.text)) }
{
    let Ok(number) = u32::try_from(found.len()) else {
        return Err(NoMemory);
    };
    Ok(Scope {
        outer: Some(TypeId(number)),
        within: within_of(kind),
        space: Text::of(alloc, "")?,
        front: dotted(alloc, &scope.front, &name.text)?,
    })
}

fn within_of(kind: Kind) -> Within
    ensures { result ≡ within_of kind }
{
    match kind {
        Kind::Interface => Within::Interface,
        Kind::Class | Kind::Struct => Within::Type,
    }
}

fn add<'a>(
    alloc: Global,
    found: &mut Vec<Declared<'a>>,
    scope: &Scope,
    mods: Mods,
    name: &'a Name,
    what: What<'a>,
) -> Result<(), NoMemory>
    ensures { IfOk result (λ _. map seen found.new.items ≡ map seen found.old.items ++ placed scope.now mods name.now (content_of what.entry) ∷ []) }
{
    found.push(Declared {
        outer: scope.outer,
        within: scope.within,
        space: scope.space.copied(alloc)?,
        full: dotted(alloc, &scope.front, &name.text)?,
        mods,
        name,
        what,
    })?;
    Ok(())
}

#[cycle(walk)]
fn of_items<'a>(
    alloc: Global,
    found: &mut Vec<Declared<'a>>,
    scope: &Scope,
    items: &'a [Item],
) -> Result<(), NoMemory>
    ensures { IfOk result (λ _. map seen found.new.items ≡ all_grown (types_of (map item_grown items.now)) scope.now (map seen found.old.items)) }
{
    for item in items {
        if let Item::Type { decl } = item {
            of_decl(alloc, found, scope, decl.get())?;
        }
    }
    Ok(())
}
