// The text of a flat body: its tree, printed.

ghost use Rattle.std.specs.Prelude.{◌≡◌, [], IfOk};
ghost use Rattle.std.specs.List.{flat_map};
ghost use Rattle.cs_layout.specs.Pieces.{piece_bytes};
ghost use Rattle.cs_unit_layout.specs.Members.{member_laid};
ghost use Rattle.ilspy_body.specs.Layout.{text_of};

use crate::tree::member;
use cs_body::Body;
use cs_print::print_member;
use cs_tree::Member;
use dc_base::{NoMemory, Text};
use std::alloc::Global;

/// The text of a lone body's flat form, as one method: `static int M(int a0, int a1, int a2, int a3)` and its block.
pub fn text(alloc: Global, body: &Body) -> Result<Text, NoMemory>
    ensures { IfOk result (λ text. text ≡ text_of body.now) }
{
    let member = member(alloc, body)?;
    printed(alloc, &member)
}

fn printed(alloc: Global, member: &Member) -> Result<Text, NoMemory>
    ensures { IfOk result (λ text. text ≡ flat_map piece_bytes (member_laid member.now [])) }
{
    let mut out = String::new(alloc);
    print_member(alloc, member, 0, &mut out)?;
    Ok(Text::from_string(out))
}
