// Accessors, properties and indexers.

ghost use Rattle.std.specs.Prelude.{◌≡◌};
ghost use Rattle.cs_grammar.specs.Reads.{Reads};
ghost use Rattle.cs_references.specs.Members.{accessor as accessor_of, with_setter as with_setter_of, behind_getter as behind_getter_of, with_getter as with_getter_of, first_accessor as first_accessor_of, accessors as accessors_of, property as property_of, indexing as indexing_of};

use cs_grammar::Fault;
use cs_lex::{Cursor, begins, expect};
use cs_read_members::without_setter;
use cs_read_modifiers::kinds::{GETTER, SETTER};
use cs_read_modifiers::{is_unmarked, modifiers, start};
use cs_read_types::kinds::{BRACE, BRACKET, SEMICOLON, UNBRACE, UNBRACKET};
use cs_read_types::{any_name, place, ty};
use cs_tree::{Accessor, Member, Name, Spot, TypeForm};
use cs_units::{Accessors, Marked};
use dc_base::Or;
use std::alloc::Global;

fn accessor(tokens: &mut Cursor, word: u16, marked: Marked) -> Result<Accessor, Or<Fault>>
    ensures { Reads ((accessor_of word marked).reads tokens.old) result tokens.new }
{
    let spot = place(tokens, word)?;
    expect(tokens, SEMICOLON)?;
    Ok(Accessor {
        spot: start(&marked, spot),
        mods: marked.mods,
        block: None,
    })
}

fn with_setter(
    tokens: &mut Cursor,
    getter: Option<Accessor>,
    marked: Marked,
) -> Result<Accessors, Or<Fault>>
    ensures { Reads ((with_setter_of getter marked).reads tokens.old) result tokens.new }
{
    let setter = accessor(tokens, SETTER, marked)?;
    expect(tokens, UNBRACE)?;
    Ok(Accessors {
        getter,
        setter: Some(setter),
    })
}

fn behind_getter(
    tokens: &mut Cursor,
    getter: Option<Accessor>,
    marked: Marked,
) -> Result<Accessors, Or<Fault>>
    ensures { Reads ((behind_getter_of getter marked).reads tokens.old) result tokens.new }
{
    if is_unmarked(&marked) && begins(tokens, &[UNBRACE]) {
        return without_setter(tokens, getter);
    }
    with_setter(tokens, getter, marked)
}

fn with_getter(tokens: &mut Cursor, marked: Marked) -> Result<Accessors, Or<Fault>>
    ensures { Reads ((with_getter_of marked).reads tokens.old) result tokens.new }
{
    let getter = accessor(tokens, GETTER, marked)?;
    let more = modifiers(tokens)?;
    behind_getter(tokens, Some(getter), more)
}

fn first_accessor(tokens: &mut Cursor, marked: Marked) -> Result<Accessors, Or<Fault>>
    ensures { Reads ((first_accessor_of marked).reads tokens.old) result tokens.new }
{
    if begins(tokens, &[GETTER]) {
        return with_getter(tokens, marked);
    }
    behind_getter(tokens, None, marked)
}

fn accessors(tokens: &mut Cursor) -> Result<Accessors, Or<Fault>>
    ensures { Reads (accessors_of.reads tokens.old) result tokens.new }
{
    expect(tokens, BRACE)?;
    let marked = modifiers(tokens)?;
    first_accessor(tokens, marked)
}

/// What stands behind the name of a property.
pub fn property(
    tokens: &mut Cursor,
    marked: Marked,
    ty: TypeForm,
    name: Name,
) -> Result<Member, Or<Fault>>
    ensures { Reads ((property_of marked ty name).reads tokens.old) result tokens.new }
{
    let Accessors { getter, setter } = accessors(tokens)?;
    Ok(Member::Property {
        spot: start(&marked, ty.spot),
        note: None,
        mods: marked.mods,
        ty,
        name,
        getter,
        setter,
    })
}

/// What stands behind the `indexer` of an indexer.
pub fn indexing(
    alloc: Global,
    tokens: &mut Cursor,
    limit: u16,
    marked: Marked,
    at: Spot,
) -> Result<Member, Or<Fault>>
    ensures { Reads ((indexing_of limit marked at).reads tokens.old) result tokens.new }
{
    let ty_here = ty(alloc, tokens, limit)?;
    let name = any_name(alloc, tokens)?;
    expect(tokens, BRACKET)?;
    let index_ty = ty(alloc, tokens, limit)?;
    let index = any_name(alloc, tokens)?;
    expect(tokens, UNBRACKET)?;
    let Accessors { getter, setter } = accessors(tokens)?;
    Ok(Member::Indexer {
        spot: start(&marked, at),
        mods: marked.mods,
        ty: ty_here,
        name,
        index_ty,
        index,
        getter,
        setter,
    })
}
