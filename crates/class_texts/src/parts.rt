// What the rows of members are made of.

ghost use Rattle.std.specs.Prelude.{◌≡◌, IfOk, ◌++◌, [], ◌∷◌};
ghost use Rattle.class_texts.specs.MemberRows.{way_of, is_lent, param_of, params_of, by_value, virt_by, virt_of, access_of, plain};

use crate::row::{Home, Row};
use class_rows::{Access, MemberRow, Param, Virt, Way};
use class_written::{Types, access_or, access_within};
use cs_declared::Within;
use cs_tree::{Access as Word, Mods, Param as TreeParam, Way as TreeWay};
use dc_base::{NoMemory, Seq, Text, Ty};
use std::alloc::Global;

/// A row of a member that implements none by name.
pub fn plain(row: MemberRow) -> Row
    ensures { result ≡ plain row }
{
    Row {
        row,
        implements: None,
    }
}

/// The parameters of a member.
pub fn params(
    alloc: Global,
    types: &Types<'_>,
    written: &[TreeParam],
) -> Result<Seq<Param>, NoMemory>
    ensures { IfOk result (λ params. params ≡ params_of types.now written.now) }
{
    let mut params = Vec::new(alloc);
    for param in written {
        params.push(param_of(alloc, types, param)?)?;
    }
    Ok(Seq::of(params))
}

fn param_of(alloc: Global, types: &Types<'_>, param: &TreeParam) -> Result<Param, NoMemory>
    ensures { IfOk result (λ p. p ≡ param_of types.now param.now) }
{
    Ok(Param {
        ty: types.ty(alloc, &param.ty, is_lent(param.way))?,
        way: way_of(param.way),
    })
}

fn way_of(way: TreeWay) -> Way
    ensures { result ≡ way_of way }
{
    match way {
        TreeWay::Value => Way::ByValue,
        TreeWay::Ref => Way::Ref,
        TreeWay::Out => Way::Out,
    }
}

fn is_lent(way: TreeWay) -> bool
    ensures { result ≡ is_lent way }
{
    !matches!(way, TreeWay::Value)
}

/// A parameter by value.
pub fn by_value(ty: Ty) -> Param
    ensures { result ≡ by_value ty }
{
    Param {
        ty,
        way: Way::ByValue,
    }
}

/// No parameters.
pub fn no_params(alloc: Global) -> Seq<Param>
    ensures { result ≡ [] }
{
    Seq::of(Vec::new(alloc))
}

/// One parameter by value.
pub fn one_param(alloc: Global, ty: Ty) -> Result<Seq<Param>, NoMemory>
    ensures { IfOk result (λ params. params ≡ by_value ty ∷ []) }
{
    let mut params = Vec::new(alloc);
    params.push(by_value(ty))?;
    Ok(Seq::of(params))
}

/// Whether a method has a slot.
pub fn virt_of(within: Within, mods: Mods) -> Virt
    ensures { result ≡ virt_of within mods }
{
    match within {
        Within::Interface => Virt::Abstract,
        Within::Space | Within::Type => virt_by(mods),
    }
}

fn virt_by(mods: Mods) -> Virt
    ensures { result ≡ virt_by mods }
{
    if mods.is_override {
        return if mods.is_sealed {
            Virt::SealedOverride
        } else {
            Virt::Override
        };
    }
    if mods.is_abstract {
        return Virt::Abstract;
    }
    if mods.is_virtual {
        Virt::Virtual
    } else {
        Virt::Plain
    }
}

/// The access of a member.
pub fn access_of(home: Home, word: Option<Word>) -> Access
    ensures { result ≡ access_of home word }
{
    access_or(word, access_within(home.within))
}

/// A name behind a prefix.
pub fn prefixed(alloc: Global, prefix: &str, name: &Text) -> Result<Text, NoMemory>
    ensures { IfOk result (λ text. text ≡ prefix.now ++ name.now) }
{
    let mut text = String::from_str(alloc, prefix)?;
    text.push_str(name.as_str())?;
    Ok(Text::from_string(text))
}
