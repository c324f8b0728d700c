// A member by what it begins with, its modifiers aside.

ghost use Rattle.std.specs.Prelude.{◌≡◌, [], ◌∷◌};
ghost use Rattle.cs_grammar.specs.Grammar.{either, choice};
ghost use Rattle.cs_grammar.specs.Reads.{Reads};
ghost use Rattle.cs_productions.specs.Kinds.{paren, indexer, kw_void, kw_operator};
ghost use Rattle.cs_productions.specs.Tokens.{kind as kind_of};
ghost use Rattle.cs_units.specs.Kinds.{maker_names};
ghost use Rattle.cs_units.specs.Modifiers.{start as start_of, unmarked};
ghost use Rattle.cs_units.specs.Members.{behind_name as behind_name_of, global_behind as global_behind_of, name_behind as name_behind_of, behind_type as behind_type_of, void_global as void_global_of, void_name as void_name_of, void_method as void_method_of, method as method_of, property as property_of, operator as operator_of, constant as constant_of, keyword_member as keyword_member_of, path_member as path_member_of, global_member as global_member_of, indexer_member as indexer_member_of, named_member as named_member_of, any_member as any_member_of};
ghost use Rattle.cs_read_calls.specs.Asked.{inner_of, Asked};

use crate::accessors::{indexing, property};
use crate::constructors::constructing;
use crate::fields::{constant, field, operator};
use crate::methods::{implementing, method};
use crate::parts::{limit, named};
use cs_grammar::Fault;
use cs_lex::{Cursor, begins, expect};
use cs_read_calls::{Ask, Got, Level};
use cs_read_modifiers::kinds::{INDEXER, KW_OPERATOR, KW_VOID, MAKERS, PLAIN_NAMES};
use cs_read_modifiers::{is_unmarked, start};
use cs_read_types::kinds::{COLONS, EQUALS, GLOBAL, KEYWORD_TYPES, PAREN, SEMICOLON};
use cs_read_types::{path, place, ranks, type_of_keyword};
use cs_tree::{Member, Name, Spot, TypeForm, TypeName};
use cs_units::Marked;
use dc_base::Or;
use std::alloc::Global;

fn method_or_property<F: Fn(Global, &mut Cursor, Ask) -> Result<Got, Or<Fault>>>(
    level: &Level<F>,
    alloc: Global,
    tokens: &mut Cursor,
    marked: Marked,
    ty: TypeForm,
    name: Name,
) -> Result<Member, Or<Fault>>
    requires callable { F.IsAlwaysCallable level.now.read }
    requires exact { (alloc : _) (tokens : _) (ask : _) (result : _) (after : _) → F.post level.now.read alloc tokens ask result after → Asked level.now.at ask tokens.now result after.now }
    ensures { Reads ((either kind_of (paren ∷ []) (method_of (inner_of level.now.at) (start_of marked ty.spot) marked (Some ty) None name) (property_of (inner_of level.now.at) marked ty name)).reads tokens.old) result tokens.new }
{
    if begins(tokens, &[PAREN]) {
        let spot = start(&marked, ty.spot);
        return method(level, alloc, tokens, spot, marked, Some(ty), None, name);
    }
    property(level, alloc, tokens, marked, ty, name)
}

fn behind_name<F: Fn(Global, &mut Cursor, Ask) -> Result<Got, Or<Fault>>>(
    level: &Level<F>,
    alloc: Global,
    tokens: &mut Cursor,
    marked: Marked,
    ty: TypeForm,
    name: Name,
) -> Result<Member, Or<Fault>>
    requires callable { F.IsAlwaysCallable level.now.read }
    requires exact { (alloc : _) (tokens : _) (ask : _) (result : _) (after : _) → F.post level.now.read alloc tokens ask result after → Asked level.now.at ask tokens.now result after.now }
    ensures { Reads ((behind_name_of (inner_of level.now.at) marked ty name).reads tokens.old) result tokens.new }
{
    if begins(tokens, &[EQUALS, SEMICOLON]) {
        return field(level, alloc, tokens, marked, ty, name);
    }
    method_or_property(level, alloc, tokens, marked, ty, name)
}

fn global_behind<F: Fn(Global, &mut Cursor, Ask) -> Result<Got, Or<Fault>>>(
    level: &Level<F>,
    alloc: Global,
    tokens: &mut Cursor,
    marked: Marked,
    ty: TypeForm,
) -> Result<Member, Or<Fault>>
    requires callable { F.IsAlwaysCallable level.now.read }
    requires exact { (alloc : _) (tokens : _) (ask : _) (result : _) (after : _) → F.post level.now.read alloc tokens ask result after → Asked level.now.at ask tokens.now result after.now }
    ensures { Reads ((global_behind_of (inner_of level.now.at) marked ty).reads tokens.old) result tokens.new }
{
    let name = named(alloc, tokens, &[GLOBAL])?;
    if begins(tokens, &[COLONS]) {
        let spot = start(&marked, ty.spot);
        return implementing(level, alloc, tokens, spot, marked, Some(ty), name.spot);
    }
    behind_name(level, alloc, tokens, marked, ty, name)
}

fn name_behind<F: Fn(Global, &mut Cursor, Ask) -> Result<Got, Or<Fault>>>(
    level: &Level<F>,
    alloc: Global,
    tokens: &mut Cursor,
    marked: Marked,
    ty: TypeForm,
) -> Result<Member, Or<Fault>>
    requires callable { F.IsAlwaysCallable level.now.read }
    requires exact { (alloc : _) (tokens : _) (ask : _) (result : _) (after : _) → F.post level.now.read alloc tokens ask result after → Asked level.now.at ask tokens.now result after.now }
    ensures { Reads ((name_behind_of (inner_of level.now.at) marked ty).reads tokens.old) result tokens.new }
{
    let name = named(alloc, tokens, &PLAIN_NAMES)?;
    behind_name(level, alloc, tokens, marked, ty, name)
}

fn behind_type<F: Fn(Global, &mut Cursor, Ask) -> Result<Got, Or<Fault>>>(
    level: &Level<F>,
    alloc: Global,
    tokens: &mut Cursor,
    marked: Marked,
    ty: TypeForm,
) -> Result<Member, Or<Fault>>
    requires callable { F.IsAlwaysCallable level.now.read }
    requires exact { (alloc : _) (tokens : _) (ask : _) (result : _) (after : _) → F.post level.now.read alloc tokens ask result after → Asked level.now.at ask tokens.now result after.now }
    ensures { Reads ((behind_type_of (inner_of level.now.at) marked ty).reads tokens.old) result tokens.new }
{
    if begins(tokens, &[GLOBAL]) {
        return global_behind(level, alloc, tokens, marked, ty);
    }
    name_behind(level, alloc, tokens, marked, ty)
}

fn void_global<F: Fn(Global, &mut Cursor, Ask) -> Result<Got, Or<Fault>>>(
    level: &Level<F>,
    alloc: Global,
    tokens: &mut Cursor,
    marked: Marked,
    at: Spot,
) -> Result<Member, Or<Fault>>
    requires callable { F.IsAlwaysCallable level.now.read }
    requires exact { (alloc : _) (tokens : _) (ask : _) (result : _) (after : _) → F.post level.now.read alloc tokens ask result after → Asked level.now.at ask tokens.now result after.now }
    ensures { Reads ((void_global_of (inner_of level.now.at) marked at).reads tokens.old) result tokens.new }
{
    let name = named(alloc, tokens, &[GLOBAL])?;
    let spot = start(&marked, at);
    if begins(tokens, &[COLONS]) {
        return implementing(level, alloc, tokens, spot, marked, None, name.spot);
    }
    method(level, alloc, tokens, spot, marked, None, None, name)
}

fn void_name<F: Fn(Global, &mut Cursor, Ask) -> Result<Got, Or<Fault>>>(
    level: &Level<F>,
    alloc: Global,
    tokens: &mut Cursor,
    marked: Marked,
    at: Spot,
) -> Result<Member, Or<Fault>>
    requires callable { F.IsAlwaysCallable level.now.read }
    requires exact { (alloc : _) (tokens : _) (ask : _) (result : _) (after : _) → F.post level.now.read alloc tokens ask result after → Asked level.now.at ask tokens.now result after.now }
    ensures { Reads ((void_name_of (inner_of level.now.at) marked at).reads tokens.old) result tokens.new }
{
    let name = named(alloc, tokens, &PLAIN_NAMES)?;
    let spot = start(&marked, at);
    method(level, alloc, tokens, spot, marked, None, None, name)
}

fn void_method<F: Fn(Global, &mut Cursor, Ask) -> Result<Got, Or<Fault>>>(
    level: &Level<F>,
    alloc: Global,
    tokens: &mut Cursor,
    marked: Marked,
) -> Result<Member, Or<Fault>>
    requires callable { F.IsAlwaysCallable level.now.read }
    requires exact { (alloc : _) (tokens : _) (ask : _) (result : _) (after : _) → F.post level.now.read alloc tokens ask result after → Asked level.now.at ask tokens.now result after.now }
    ensures { Reads ((void_method_of (inner_of level.now.at) marked).reads tokens.old) result tokens.new }
{
    let spot = place(tokens, KW_VOID)?;
    if begins(tokens, &[GLOBAL]) {
        return void_global(level, alloc, tokens, marked, spot);
    }
    void_name(level, alloc, tokens, marked, spot)
}

fn keyword_member<F: Fn(Global, &mut Cursor, Ask) -> Result<Got, Or<Fault>>>(
    level: &Level<F>,
    alloc: Global,
    tokens: &mut Cursor,
    marked: Marked,
) -> Result<Member, Or<Fault>>
    requires callable { F.IsAlwaysCallable level.now.read }
    requires exact { (alloc : _) (tokens : _) (ask : _) (result : _) (after : _) → F.post level.now.read alloc tokens ask result after → Asked level.now.at ask tokens.now result after.now }
    ensures { Reads ((keyword_member_of (inner_of level.now.at) marked).reads tokens.old) result tokens.new }
{
    let ty = type_of_keyword(tokens, limit(level))?;
    behind_type(level, alloc, tokens, marked, ty)
}

fn path_member<F: Fn(Global, &mut Cursor, Ask) -> Result<Got, Or<Fault>>>(
    level: &Level<F>,
    alloc: Global,
    tokens: &mut Cursor,
    marked: Marked,
    spot: Spot,
) -> Result<Member, Or<Fault>>
    requires callable { F.IsAlwaysCallable level.now.read }
    requires exact { (alloc : _) (tokens : _) (ask : _) (result : _) (after : _) → F.post level.now.read alloc tokens ask result after → Asked level.now.at ask tokens.now result after.now }
    ensures { Reads ((path_member_of (inner_of level.now.at) marked spot).reads tokens.old) result tokens.new }
{
    expect(tokens, COLONS)?;
    let path = path(alloc, tokens)?;
    let element = TypeForm {
        spot,
        name: TypeName::Global { path },
        ranks: 0,
    };
    let ty = ranks(tokens, limit(level), element)?;
    behind_type(level, alloc, tokens, marked, ty)
}

fn global_member<F: Fn(Global, &mut Cursor, Ask) -> Result<Got, Or<Fault>>>(
    level: &Level<F>,
    alloc: Global,
    tokens: &mut Cursor,
    marked: Marked,
) -> Result<Member, Or<Fault>>
    requires callable { F.IsAlwaysCallable level.now.read }
    requires exact { (alloc : _) (tokens : _) (ask : _) (result : _) (after : _) → F.post level.now.read alloc tokens ask result after → Asked level.now.at ask tokens.now result after.now }
    ensures { Reads ((global_member_of (inner_of level.now.at) marked).reads tokens.old) result tokens.new }
{
    let name = named(alloc, tokens, &[GLOBAL])?;
    if begins(tokens, &[COLONS]) {
        return path_member(level, alloc, tokens, marked, name.spot);
    }
    constructing(level, alloc, tokens, marked, name)
}

fn indexer_member<F: Fn(Global, &mut Cursor, Ask) -> Result<Got, Or<Fault>>>(
    level: &Level<F>,
    alloc: Global,
    tokens: &mut Cursor,
    marked: Marked,
) -> Result<Member, Or<Fault>>
    requires callable { F.IsAlwaysCallable level.now.read }
    requires exact { (alloc : _) (tokens : _) (ask : _) (result : _) (after : _) → F.post level.now.read alloc tokens ask result after → Asked level.now.at ask tokens.now result after.now }
    ensures { Reads ((indexer_member_of (inner_of level.now.at) marked).reads tokens.old) result tokens.new }
{
    let name = named(alloc, tokens, &[INDEXER])?;
    if begins(tokens, &[PAREN]) {
        return constructing(level, alloc, tokens, marked, name);
    }
    indexing(level, alloc, tokens, marked, name.spot)
}

fn named_member<F: Fn(Global, &mut Cursor, Ask) -> Result<Got, Or<Fault>>>(
    level: &Level<F>,
    alloc: Global,
    tokens: &mut Cursor,
    marked: Marked,
) -> Result<Member, Or<Fault>>
    requires callable { F.IsAlwaysCallable level.now.read }
    requires exact { (alloc : _) (tokens : _) (ask : _) (result : _) (after : _) → F.post level.now.read alloc tokens ask result after → Asked level.now.at ask tokens.now result after.now }
    ensures { Reads ((named_member_of (inner_of level.now.at) marked).reads tokens.old) result tokens.new }
{
    let name = named(alloc, tokens, &MAKERS)?;
    constructing(level, alloc, tokens, marked, name)
}

fn operator_or_constant<F: Fn(Global, &mut Cursor, Ask) -> Result<Got, Or<Fault>>>(
    level: &Level<F>,
    alloc: Global,
    tokens: &mut Cursor,
    marked: Marked,
) -> Result<Member, Or<Fault>>
    requires callable { F.IsAlwaysCallable level.now.read }
    requires exact { (alloc : _) (tokens : _) (ask : _) (result : _) (after : _) → F.post level.now.read alloc tokens ask result after → Asked level.now.at ask tokens.now result after.now }
    ensures { Reads ((choice kind_of (unmarked marked) (kw_operator ∷ []) (operator_of (inner_of level.now.at)) (constant_of (inner_of level.now.at) marked)).reads tokens.old) result tokens.new }
{
    if is_unmarked(&marked) && begins(tokens, &[KW_OPERATOR]) {
        return operator(level, alloc, tokens);
    }
    constant(level, alloc, tokens, marked)
}

fn without_type<F: Fn(Global, &mut Cursor, Ask) -> Result<Got, Or<Fault>>>(
    level: &Level<F>,
    alloc: Global,
    tokens: &mut Cursor,
    marked: Marked,
) -> Result<Member, Or<Fault>>
    requires callable { F.IsAlwaysCallable level.now.read }
    requires exact { (alloc : _) (tokens : _) (ask : _) (result : _) (after : _) → F.post level.now.read alloc tokens ask result after → Asked level.now.at ask tokens.now result after.now }
    ensures { Reads ((either kind_of (indexer ∷ []) (indexer_member_of (inner_of level.now.at) marked) (either kind_of maker_names (named_member_of (inner_of level.now.at) marked) (either kind_of (kw_void ∷ []) (void_method_of (inner_of level.now.at) marked) (choice kind_of (unmarked marked) (kw_operator ∷ []) (operator_of (inner_of level.now.at)) (constant_of (inner_of level.now.at) marked))))).reads tokens.old) result tokens.new }
{
    if begins(tokens, &[INDEXER]) {
        return indexer_member(level, alloc, tokens, marked);
    }
    if begins(tokens, &MAKERS) {
        return named_member(level, alloc, tokens, marked);
    }
    if begins(tokens, &[KW_VOID]) {
        return void_method(level, alloc, tokens, marked);
    }
    operator_or_constant(level, alloc, tokens, marked)
}

/// A member, behind its modifiers.
pub fn any_member<F: Fn(Global, &mut Cursor, Ask) -> Result<Got, Or<Fault>>>(
    level: &Level<F>,
    alloc: Global,
    tokens: &mut Cursor,
    marked: Marked,
) -> Result<Member, Or<Fault>>
    requires callable { F.IsAlwaysCallable level.now.read }
    requires exact { (alloc : _) (tokens : _) (ask : _) (result : _) (after : _) → F.post level.now.read alloc tokens ask result after → Asked level.now.at ask tokens.now result after.now }
    ensures { Reads ((any_member_of (inner_of level.now.at) marked).reads tokens.old) result tokens.new }
{
    if begins(tokens, &KEYWORD_TYPES) {
        return keyword_member(level, alloc, tokens, marked);
    }
    if begins(tokens, &[GLOBAL]) {
        return global_member(level, alloc, tokens, marked);
    }
    without_type(level, alloc, tokens, marked)
}
