// A member by what it begins with, its modifiers aside.

ghost use Rattle.std.specs.Prelude.{◌≡◌, [], ◌∷◌};
ghost use Rattle.cs_grammar.specs.Grammar.{either, choice};
ghost use Rattle.cs_grammar.specs.Reads.{Reads};
ghost use Rattle.cs_productions.specs.Kinds.{paren, indexer, kw_void, kw_operator};
ghost use Rattle.cs_productions.specs.Tokens.{kind as kind_of};
ghost use Rattle.cs_units.specs.Kinds.{maker_names};
ghost use Rattle.cs_units.specs.Modifiers.{start as start_of, unmarked};
ghost use Rattle.cs_references.specs.Members.{behind_name as behind_name_of, global_behind as global_behind_of, name_behind as name_behind_of, behind_type as behind_type_of, void_global as void_global_of, void_name as void_name_of, void_method as void_method_of, method as method_of, property as property_of, operator as operator_of, constant as constant_of, keyword_member as keyword_member_of, path_member as path_member_of, global_member as global_member_of, indexer_member as indexer_member_of, named_member as named_member_of, any_member as any_member_of};

use crate::accessors::{indexing, property};
use crate::fields::{constant, constructing, field, operator};
use crate::methods::{implementing, method};
use cs_grammar::Fault;
use cs_lex::{Cursor, begins, expect};
use cs_read_members::named;
use cs_read_modifiers::kinds::{INDEXER, KW_OPERATOR, KW_VOID, MAKERS, PLAIN_NAMES};
use cs_read_modifiers::{is_unmarked, start};
use cs_read_types::kinds::{COLONS, GLOBAL, KEYWORD_TYPES, PAREN, SEMICOLON};
use cs_read_types::{path, place, ranks, type_of_keyword};
use cs_tree::{Member, Name, Spot, TypeForm, TypeName};
use cs_units::Marked;
use dc_base::Or;
use std::alloc::Global;

fn method_or_property(
    alloc: Global,
    tokens: &mut Cursor,
    limit: u16,
    marked: Marked,
    ty: TypeForm,
    name: Name,
) -> Result<Member, Or<Fault>>
    ensures { Reads ((either kind_of (paren ∷ []) (method_of limit (start_of marked ty.spot) marked (Some ty) None name) (property_of marked ty name)).reads tokens.old) result tokens.new }
{
    if begins(tokens, &[PAREN]) {
        let spot = start(&marked, ty.spot);
        return method(alloc, tokens, limit, spot, marked, Some(ty), None, name);
    }
    property(tokens, marked, ty, name)
}

fn behind_name(
    alloc: Global,
    tokens: &mut Cursor,
    limit: u16,
    marked: Marked,
    ty: TypeForm,
    name: Name,
) -> Result<Member, Or<Fault>>
    ensures { Reads ((behind_name_of limit marked ty name).reads tokens.old) result tokens.new }
{
    if begins(tokens, &[SEMICOLON]) {
        return field(tokens, marked, ty, name);
    }
    method_or_property(alloc, tokens, limit, marked, ty, name)
}

fn global_behind(
    alloc: Global,
    tokens: &mut Cursor,
    limit: u16,
    marked: Marked,
    ty: TypeForm,
) -> Result<Member, Or<Fault>>
    ensures { Reads ((global_behind_of limit marked ty).reads tokens.old) result tokens.new }
{
    let name = named(alloc, tokens, &[GLOBAL])?;
    if begins(tokens, &[COLONS]) {
        let spot = start(&marked, ty.spot);
        return implementing(alloc, tokens, limit, spot, marked, Some(ty), name.spot);
    }
    behind_name(alloc, tokens, limit, marked, ty, name)
}

fn name_behind(
    alloc: Global,
    tokens: &mut Cursor,
    limit: u16,
    marked: Marked,
    ty: TypeForm,
) -> Result<Member, Or<Fault>>
    ensures { Reads ((name_behind_of limit marked ty).reads tokens.old) result tokens.new }
{
    let name = named(alloc, tokens, &PLAIN_NAMES)?;
    behind_name(alloc, tokens, limit, marked, ty, name)
}

fn behind_type(
    alloc: Global,
    tokens: &mut Cursor,
    limit: u16,
    marked: Marked,
    ty: TypeForm,
) -> Result<Member, Or<Fault>>
    ensures { Reads ((behind_type_of limit marked ty).reads tokens.old) result tokens.new }
{
    if begins(tokens, &[GLOBAL]) {
        return global_behind(alloc, tokens, limit, marked, ty);
    }
    name_behind(alloc, tokens, limit, marked, ty)
}

fn void_global(
    alloc: Global,
    tokens: &mut Cursor,
    limit: u16,
    marked: Marked,
    at: Spot,
) -> Result<Member, Or<Fault>>
    ensures { Reads ((void_global_of limit marked at).reads tokens.old) result tokens.new }
{
    let name = named(alloc, tokens, &[GLOBAL])?;
    let spot = start(&marked, at);
    if begins(tokens, &[COLONS]) {
        return implementing(alloc, tokens, limit, spot, marked, None, name.spot);
    }
    method(alloc, tokens, limit, spot, marked, None, None, name)
}

fn void_name(
    alloc: Global,
    tokens: &mut Cursor,
    limit: u16,
    marked: Marked,
    at: Spot,
) -> Result<Member, Or<Fault>>
    ensures { Reads ((void_name_of limit marked at).reads tokens.old) result tokens.new }
{
    let name = named(alloc, tokens, &PLAIN_NAMES)?;
    let spot = start(&marked, at);
    method(alloc, tokens, limit, spot, marked, None, None, name)
}

fn void_method(
    alloc: Global,
    tokens: &mut Cursor,
    limit: u16,
    marked: Marked,
) -> Result<Member, Or<Fault>>
    ensures { Reads ((void_method_of limit marked).reads tokens.old) result tokens.new }
{
    let spot = place(tokens, KW_VOID)?;
    if begins(tokens, &[GLOBAL]) {
        return void_global(alloc, tokens, limit, marked, spot);
    }
    void_name(alloc, tokens, limit, marked, spot)
}

fn keyword_member(
    alloc: Global,
    tokens: &mut Cursor,
    limit: u16,
    marked: Marked,
) -> Result<Member, Or<Fault>>
    ensures { Reads ((keyword_member_of limit marked).reads tokens.old) result tokens.new }
{
    let ty = type_of_keyword(tokens, limit)?;
    behind_type(alloc, tokens, limit, marked, ty)
}

fn path_member(
    alloc: Global,
    tokens: &mut Cursor,
    limit: u16,
    marked: Marked,
    spot: Spot,
) -> Result<Member, Or<Fault>>
    ensures { Reads ((path_member_of limit marked spot).reads tokens.old) result tokens.new }
{
    expect(tokens, COLONS)?;
    let path = path(alloc, tokens)?;
    let element = TypeForm {
        spot,
        name: TypeName::Global { path },
        ranks: 0,
    };
    let ty = ranks(tokens, limit, element)?;
    behind_type(alloc, tokens, limit, marked, ty)
}

fn global_member(
    alloc: Global,
    tokens: &mut Cursor,
    limit: u16,
    marked: Marked,
) -> Result<Member, Or<Fault>>
    ensures { Reads ((global_member_of limit marked).reads tokens.old) result tokens.new }
{
    let name = named(alloc, tokens, &[GLOBAL])?;
    if begins(tokens, &[COLONS]) {
        return path_member(alloc, tokens, limit, marked, name.spot);
    }
    constructing(alloc, tokens, limit, marked, name)
}

fn indexer_member(
    alloc: Global,
    tokens: &mut Cursor,
    limit: u16,
    marked: Marked,
) -> Result<Member, Or<Fault>>
    ensures { Reads ((indexer_member_of limit marked).reads tokens.old) result tokens.new }
{
    let name = named(alloc, tokens, &[INDEXER])?;
    if begins(tokens, &[PAREN]) {
        return constructing(alloc, tokens, limit, marked, name);
    }
    indexing(alloc, tokens, limit, marked, name.spot)
}

fn named_member(
    alloc: Global,
    tokens: &mut Cursor,
    limit: u16,
    marked: Marked,
) -> Result<Member, Or<Fault>>
    ensures { Reads ((named_member_of limit marked).reads tokens.old) result tokens.new }
{
    let name = named(alloc, tokens, &MAKERS)?;
    constructing(alloc, tokens, limit, marked, name)
}

fn operator_or_constant(
    alloc: Global,
    tokens: &mut Cursor,
    limit: u16,
    marked: Marked,
) -> Result<Member, Or<Fault>>
    ensures { Reads ((choice kind_of (unmarked marked) (kw_operator ∷ []) (operator_of limit) (constant_of limit marked)).reads tokens.old) result tokens.new }
{
    if is_unmarked(&marked) && begins(tokens, &[KW_OPERATOR]) {
        return operator(alloc, tokens, limit);
    }
    constant(alloc, tokens, limit, marked)
}

fn without_type(
    alloc: Global,
    tokens: &mut Cursor,
    limit: u16,
    marked: Marked,
) -> Result<Member, Or<Fault>>
    ensures { Reads ((either kind_of (indexer ∷ []) (indexer_member_of limit marked) (either kind_of maker_names (named_member_of limit marked) (either kind_of (kw_void ∷ []) (void_method_of limit marked) (choice kind_of (unmarked marked) (kw_operator ∷ []) (operator_of limit) (constant_of limit marked))))).reads tokens.old) result tokens.new }
{
    if begins(tokens, &[INDEXER]) {
        return indexer_member(alloc, tokens, limit, marked);
    }
    if begins(tokens, &MAKERS) {
        return named_member(alloc, tokens, limit, marked);
    }
    if begins(tokens, &[KW_VOID]) {
        return void_method(alloc, tokens, limit, marked);
    }
    operator_or_constant(alloc, tokens, limit, marked)
}

/// A member, behind its modifiers.
pub fn any_member(
    alloc: Global,
    tokens: &mut Cursor,
    limit: u16,
    marked: Marked,
) -> Result<Member, Or<Fault>>
    ensures { Reads ((any_member_of limit marked).reads tokens.old) result tokens.new }
{
    if begins(tokens, &KEYWORD_TYPES) {
        return keyword_member(alloc, tokens, limit, marked);
    }
    if begins(tokens, &[GLOBAL]) {
        return global_member(alloc, tokens, limit, marked);
    }
    without_type(alloc, tokens, limit, marked)
}
