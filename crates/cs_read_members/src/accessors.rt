// Accessors, properties and indexers.

ghost use Rattle.std.specs.Prelude.{◌≡◌};
ghost use Rattle.cs_grammar.specs.Reads.{Reads};
ghost use Rattle.cs_units.specs.Members.{accessor as accessor_of, without_setter as without_setter_of, with_setter as with_setter_of, behind_getter as behind_getter_of, with_getter as with_getter_of, first_accessor as first_accessor_of, accessors as accessors_of, property as property_of, indexing as indexing_of};
ghost use Rattle.cs_read_calls.specs.Asked.{inner_of, Asked};

use crate::parts::{body, limit};
use cs_grammar::Fault;
use cs_lex::{Cursor, begins, expect};
use cs_read_calls::{Ask, Got, Level};
use cs_read_modifiers::kinds::{GETTER, SETTER};
use cs_read_modifiers::{is_unmarked, modifiers, start};
use cs_read_types::kinds::{BRACE, BRACKET, UNBRACE, UNBRACKET};
use cs_read_types::{any_name, place, ty};
use cs_tree::{Accessor, Member, Name, Spot, TypeForm};
use cs_units::{Accessors, Marked};
use dc_base::Or;
use std::alloc::Global;

fn accessor<F: Fn(Global, &mut Cursor, Ask) -> Result<Got, Or<Fault>>>(
    level: &Level<F>,
    alloc: Global,
    tokens: &mut Cursor,
    word: u16,
    marked: Marked,
) -> Result<Accessor, Or<Fault>>
    requires callable { F.IsAlwaysCallable level.now.read }
    requires exact { (alloc : _) (tokens : _) (ask : _) (result : _) (after : _) → F.post level.now.read alloc tokens ask result after → Asked level.now.at ask tokens.now result after.now }
    ensures { Reads ((accessor_of (inner_of level.now.at) word marked).reads tokens.old) result tokens.new }
{
    let spot = place(tokens, word)?;
    let block = body(level, alloc, tokens)?;
    Ok(Accessor {
        spot: start(&marked, spot),
        mods: marked.mods,
        block,
    })
}

/// The end of a property that has no setter.
pub fn without_setter(tokens: &mut Cursor, getter: Option<Accessor>) -> Result<Accessors, Or<Fault>>
    ensures { Reads ((without_setter_of getter).reads tokens.old) result tokens.new }
{
    expect(tokens, UNBRACE)?;
    Ok(Accessors {
        getter,
        setter: None,
    })
}

fn with_setter<F: Fn(Global, &mut Cursor, Ask) -> Result<Got, Or<Fault>>>(
    level: &Level<F>,
    alloc: Global,
    tokens: &mut Cursor,
    getter: Option<Accessor>,
    marked: Marked,
) -> Result<Accessors, Or<Fault>>
    requires callable { F.IsAlwaysCallable level.now.read }
    requires exact { (alloc : _) (tokens : _) (ask : _) (result : _) (after : _) → F.post level.now.read alloc tokens ask result after → Asked level.now.at ask tokens.now result after.now }
    ensures { Reads ((with_setter_of (inner_of level.now.at) getter marked).reads tokens.old) result tokens.new }
{
    let setter = accessor(level, alloc, tokens, SETTER, marked)?;
    expect(tokens, UNBRACE)?;
    Ok(Accessors {
        getter,
        setter: Some(setter),
    })
}

fn behind_getter<F: Fn(Global, &mut Cursor, Ask) -> Result<Got, Or<Fault>>>(
    level: &Level<F>,
    alloc: Global,
    tokens: &mut Cursor,
    getter: Option<Accessor>,
    marked: Marked,
) -> Result<Accessors, Or<Fault>>
    requires callable { F.IsAlwaysCallable level.now.read }
    requires exact { (alloc : _) (tokens : _) (ask : _) (result : _) (after : _) → F.post level.now.read alloc tokens ask result after → Asked level.now.at ask tokens.now result after.now }
    ensures { Reads ((behind_getter_of (inner_of level.now.at) getter marked).reads tokens.old) result tokens.new }
{
    if is_unmarked(&marked) && begins(tokens, &[UNBRACE]) {
        return without_setter(tokens, getter);
    }
    with_setter(level, alloc, tokens, getter, marked)
}

fn with_getter<F: Fn(Global, &mut Cursor, Ask) -> Result<Got, Or<Fault>>>(
    level: &Level<F>,
    alloc: Global,
    tokens: &mut Cursor,
    marked: Marked,
) -> Result<Accessors, Or<Fault>>
    requires callable { F.IsAlwaysCallable level.now.read }
    requires exact { (alloc : _) (tokens : _) (ask : _) (result : _) (after : _) → F.post level.now.read alloc tokens ask result after → Asked level.now.at ask tokens.now result after.now }
    ensures { Reads ((with_getter_of (inner_of level.now.at) marked).reads tokens.old) result tokens.new }
{
    let getter = accessor(level, alloc, tokens, GETTER, marked)?;
    let more = modifiers(tokens)?;
    behind_getter(level, alloc, tokens, Some(getter), more)
}

fn first_accessor<F: Fn(Global, &mut Cursor, Ask) -> Result<Got, Or<Fault>>>(
    level: &Level<F>,
    alloc: Global,
    tokens: &mut Cursor,
    marked: Marked,
) -> Result<Accessors, Or<Fault>>
    requires callable { F.IsAlwaysCallable level.now.read }
    requires exact { (alloc : _) (tokens : _) (ask : _) (result : _) (after : _) → F.post level.now.read alloc tokens ask result after → Asked level.now.at ask tokens.now result after.now }
    ensures { Reads ((first_accessor_of (inner_of level.now.at) marked).reads tokens.old) result tokens.new }
{
    if begins(tokens, &[GETTER]) {
        return with_getter(level, alloc, tokens, marked);
    }
    behind_getter(level, alloc, tokens, None, marked)
}

fn accessors<F: Fn(Global, &mut Cursor, Ask) -> Result<Got, Or<Fault>>>(
    level: &Level<F>,
    alloc: Global,
    tokens: &mut Cursor,
) -> Result<Accessors, Or<Fault>>
    requires callable { F.IsAlwaysCallable level.now.read }
    requires exact { (alloc : _) (tokens : _) (ask : _) (result : _) (after : _) → F.post level.now.read alloc tokens ask result after → Asked level.now.at ask tokens.now result after.now }
    ensures { Reads ((accessors_of (inner_of level.now.at)).reads tokens.old) result tokens.new }
{
    expect(tokens, BRACE)?;
    let marked = modifiers(tokens)?;
    first_accessor(level, alloc, tokens, marked)
}

/// What stands behind the name of a property.
pub(crate) fn property<F: Fn(Global, &mut Cursor, Ask) -> Result<Got, Or<Fault>>>(
    level: &Level<F>,
    alloc: Global,
    tokens: &mut Cursor,
    marked: Marked,
    ty: TypeForm,
    name: Name,
) -> Result<Member, Or<Fault>>
    requires callable { F.IsAlwaysCallable level.now.read }
    requires exact { (alloc : _) (tokens : _) (ask : _) (result : _) (after : _) → F.post level.now.read alloc tokens ask result after → Asked level.now.at ask tokens.now result after.now }
    ensures { Reads ((property_of (inner_of level.now.at) marked ty name).reads tokens.old) result tokens.new }
{
    let Accessors { getter, setter } = accessors(level, alloc, tokens)?;
    Ok(Member::Property {
        spot: start(&marked, ty.spot),
        note: None,
        mods: marked.mods,
        ty,
        name,
        getter,
        setter,
    })
}

/// What stands behind the `indexer` of an indexer.
pub(crate) fn indexing<F: Fn(Global, &mut Cursor, Ask) -> Result<Got, Or<Fault>>>(
    level: &Level<F>,
    alloc: Global,
    tokens: &mut Cursor,
    marked: Marked,
    at: Spot,
) -> Result<Member, Or<Fault>>
    requires callable { F.IsAlwaysCallable level.now.read }
    requires exact { (alloc : _) (tokens : _) (ask : _) (result : _) (after : _) → F.post level.now.read alloc tokens ask result after → Asked level.now.at ask tokens.now result after.now }
    ensures { Reads ((indexing_of (inner_of level.now.at) marked at).reads tokens.old) result tokens.new }
{
    let ty_here = ty(alloc, tokens, limit(level))?;
    let name = any_name(alloc, tokens)?;
    expect(tokens, BRACKET)?;
    let index_ty = ty(alloc, tokens, limit(level))?;
    let index = any_name(alloc, tokens)?;
    expect(tokens, UNBRACKET)?;
    let Accessors { getter, setter } = accessors(level, alloc, tokens)?;
    Ok(Member::Indexer {
        spot: start(&marked, at),
        mods: marked.mods,
        ty: ty_here,
        name,
        index_ty,
        index,
        getter,
        setter,
    })
}
