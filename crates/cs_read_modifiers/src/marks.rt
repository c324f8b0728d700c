// Modifiers: at most one access, then the others, in one order.

ghost use Rattle.std.specs.Prelude.{◌≡◌};
ghost use Rattle.cs_grammar.specs.Reads.{Finds};
ghost use Rattle.cs_units.specs.Modifiers.{flag as flag_of, public_access as public_access_of, internal_access as internal_access_of, private_access as private_access_of, protected_access as protected_access_of, given_access as given_access_of, access as access_of, first_of, modifiers as modifiers_of, unmarked, only_static, start as start_of};

use crate::kinds::{
    ACCESS, KW_ABSTRACT, KW_EXTERN, KW_INTERNAL, KW_OVERRIDE, KW_PRIVATE, KW_PROTECTED, KW_PUBLIC,
    KW_READONLY, KW_SEALED, KW_STATIC, KW_VIRTUAL,
};
use cs_grammar::Fault;
use cs_lex::{Cursor, begins};
use cs_read_types::place;
use cs_tree::{Access, Mods, Spot};
use cs_units::{Accessed, Marked};

/// The place of a word of this kind, if it comes next.
pub fn flag(tokens: &mut Cursor, kind: u16) -> Result<Option<Spot>, Fault>
    ensures { Finds ((flag_of kind).reads tokens.old) result tokens.new }
{
    if !begins(tokens, &[kind]) {
        return Ok(None);
    }
    Ok(Some(place(tokens, kind)?))
}

fn public_access(tokens: &mut Cursor) -> Result<Accessed, Fault>
    ensures { Finds (public_access_of.reads tokens.old) result tokens.new }
{
    let spot = place(tokens, KW_PUBLIC)?;
    Ok(Accessed {
        access: Some(Access::Public),
        spot: Some(spot),
    })
}

fn internal_access(tokens: &mut Cursor) -> Result<Accessed, Fault>
    ensures { Finds (internal_access_of.reads tokens.old) result tokens.new }
{
    let spot = place(tokens, KW_INTERNAL)?;
    Ok(Accessed {
        access: Some(Access::Internal),
        spot: Some(spot),
    })
}

fn private_access(tokens: &mut Cursor) -> Result<Accessed, Fault>
    ensures { Finds (private_access_of.reads tokens.old) result tokens.new }
{
    let spot = place(tokens, KW_PRIVATE)?;
    let access = match flag(tokens, KW_PROTECTED)? {
        Some(_) => Access::ProtectedAndInternal,
        None => Access::Private,
    };
    Ok(Accessed {
        access: Some(access),
        spot: Some(spot),
    })
}

fn protected_access(tokens: &mut Cursor) -> Result<Accessed, Fault>
    ensures { Finds (protected_access_of.reads tokens.old) result tokens.new }
{
    let spot = place(tokens, KW_PROTECTED)?;
    let access = match flag(tokens, KW_INTERNAL)? {
        Some(_) => Access::ProtectedOrInternal,
        None => Access::Protected,
    };
    Ok(Accessed {
        access: Some(access),
        spot: Some(spot),
    })
}

fn given_access(tokens: &mut Cursor) -> Result<Accessed, Fault>
    ensures { Finds (given_access_of.reads tokens.old) result tokens.new }
{
    if begins(tokens, &[KW_PUBLIC]) {
        return public_access(tokens);
    }
    if begins(tokens, &[KW_INTERNAL]) {
        return internal_access(tokens);
    }
    if begins(tokens, &[KW_PRIVATE]) {
        return private_access(tokens);
    }
    protected_access(tokens)
}

fn access(tokens: &mut Cursor) -> Result<Accessed, Fault>
    ensures { Finds (access_of.reads tokens.old) result tokens.new }
{
    if begins(tokens, &ACCESS) {
        return given_access(tokens);
    }
    Ok(Accessed {
        access: None,
        spot: None,
    })
}

/// The first of two places.
fn first(one: Option<Spot>, other: Option<Spot>) -> Option<Spot>
    ensures { result ≡ first_of one other }
{
    match one {
        Some(spot) => Some(spot),
        None => other,
    }
}

/// The modifiers of a declaration, and the place of the first.
pub fn modifiers(tokens: &mut Cursor) -> Result<Marked, Fault>
    ensures { Finds (modifiers_of.reads tokens.old) result tokens.new }
{
    let access = access(tokens)?;
    let static_at = flag(tokens, KW_STATIC)?;
    let abstract_at = flag(tokens, KW_ABSTRACT)?;
    let sealed_at = flag(tokens, KW_SEALED)?;
    let virtual_at = flag(tokens, KW_VIRTUAL)?;
    let override_at = flag(tokens, KW_OVERRIDE)?;
    let readonly_at = flag(tokens, KW_READONLY)?;
    let extern_at = flag(tokens, KW_EXTERN)?;
    let late = first(
        virtual_at,
        first(override_at, first(readonly_at, extern_at)),
    );
    let early = first(static_at, first(abstract_at, first(sealed_at, late)));
    Ok(Marked {
        mods: Mods {
            access: access.access,
            is_static: static_at.is_some(),
            is_abstract: abstract_at.is_some(),
            is_sealed: sealed_at.is_some(),
            is_virtual: virtual_at.is_some(),
            is_override: override_at.is_some(),
            is_readonly: readonly_at.is_some(),
            is_extern: extern_at.is_some(),
        },
        spot: first(access.spot, early),
    })
}

/// Whether there is no modifier.
pub fn is_unmarked(marked: &Marked) -> bool
    ensures { result ≡ unmarked marked.now }
{
    marked.spot.is_none()
}

/// Whether `static` is the only modifier.
pub fn is_only_static(mods: &Mods) -> bool
    ensures { result ≡ only_static mods.now }
{
    mods.is_static
        && mods.access.is_none()
        && !mods.is_abstract
        && !mods.is_sealed
        && !mods.is_virtual
        && !mods.is_override
        && !mods.is_readonly
        && !mods.is_extern
}

/// Where a declaration begins: at its first modifier, or at what stands behind them.
pub fn start(marked: &Marked, behind: Spot) -> Spot
    ensures { result ≡ start_of marked.now behind }
{
    match marked.spot {
        Some(spot) => spot,
        None => behind,
    }
}
