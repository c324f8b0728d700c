// Members and whole texts as texts.

ghost use Rattle.std.specs.Prelude.{◌≡◌, ◌++◌, IfOk, OnOk, OnErr};
ghost use Rattle.std.specs.List.{flat_map};
ghost use Rattle.std.specs.String.{string_bytes};
ghost use Rattle.cs_layout.specs.Pieces.{piece_bytes};
ghost use Rattle.cs_unit_layout.specs.Members.{member_laid};
ghost use Rattle.cs_unit_layout.specs.Units.{margin_of, unit_laid};

use crate::members::write_member;
use crate::units::write_unit;
use cs_tree::{Member, Unit};
use dc_base::{NoMemory, Text};
use std::alloc::Global;

/// The blanks before a line at so many levels.
#[tactic(auto, using(crate::proofs::Margins::one_more_level))]
fn margin(alloc: Global, indent: u32) -> Result<String, NoMemory>
    ensures { IfOk result (λ text. string_bytes text ≡ margin_of indent) }
{
    let mut text = String::new(alloc);
    for _level in 0..indent {
        text.push_str("    ")?;
    }
    Ok(text)
}

/// A member as it is printed, at so many levels.
#[tactic(auto, unfolding(cs_layout::specs::Pieces::followed))]
fn printed_member(alloc: Global, member: &Member, indent: u32) -> Result<String, NoMemory>
    ensures { IfOk result (λ text. string_bytes text ≡ flat_map piece_bytes (member_laid member.now (margin_of indent))) }
{
    let before = margin(alloc, indent)?;
    let mut out = String::new(alloc);
    write_member(alloc, &mut out, member, before.as_str())?;
    Ok(out)
}

/// Appends a member, on lines of its own behind so many levels of four blanks, with its note before it. Where memory is wanted the
/// text stays as it was.
pub fn print_member(
    alloc: Global,
    member: &Member,
    indent: u32,
    out: &mut String,
) -> Result<(), NoMemory>
    ensures printed { OnOk result (string_bytes out.new ≡ string_bytes out.old ++ flat_map piece_bytes (member_laid member.now (margin_of indent))) }
    ensures kept { OnErr result (string_bytes out.new ≡ string_bytes out.old) }
{
    let text = printed_member(alloc, member, indent)?;
    out.push_str(text.as_str())?;
    Ok(())
}

/// A whole text, from the line with its assembly's name on. The one fault is want of memory.
#[tactic(auto, unfolding(cs_layout::specs::Pieces::followed))]
pub fn print(alloc: Global, unit: &Unit) -> Result<Text, NoMemory>
    ensures { IfOk result (λ text. text ≡ flat_map piece_bytes (unit_laid unit.now)) }
{
    let mut out = String::new(alloc);
    write_unit(alloc, &mut out, unit)?;
    Ok(Text::from_string(out))
}
