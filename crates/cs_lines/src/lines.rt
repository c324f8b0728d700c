// Margins and lines.

ghost use Rattle.std.specs.Prelude.{◌≡◌, ◌++◌, OnOk, IfOk};
ghost use Rattle.std.specs.String.{string_bytes};
ghost use Rattle.cs_layout.specs.Pieces.{followed};
ghost use Rattle.cs_layout.specs.Words.{fixed};
ghost use Rattle.cs_layout.specs.Layout.{indent, line, deeper as deeper_of};
ghost use Rattle.cs_layout.specs.declared.fixed.Fixed.TheVariants.{Newline};

use cs_layout::{Fixed, write_fixed};
use dc_base::NoMemory;
use std::alloc::Global;

/// The margin one level deeper: four blanks more.
pub fn deeper(alloc: Global, margin: &str) -> Result<String, NoMemory>
    ensures { IfOk result (λ text. string_bytes text ≡ deeper_of margin.now) }
{
    let mut text = String::from_str(alloc, margin)?;
    text.push_str("    ")?;
    Ok(text)
}

/// Writes a margin.
#[tactic(auto, unfolding(cs_layout::specs::Pieces::followed, cs_layout::specs::Layout::indent))]
pub fn write_indent(out: &mut String, margin: &str) -> Result<(), NoMemory>
    ensures { OnOk result (string_bytes out.new ≡ followed (string_bytes out.old) (indent margin.now)) }
{
    out.push_str(margin)?;
    Ok(())
}

/// Writes a line with a text that is the same in all trees.
#[tactic(auto, using(cs_layout::proofs::Following::followed_append, cs_layout::proofs::Following::followed_nothing))]
pub fn write_line(out: &mut String, part: Fixed, margin: &str) -> Result<(), NoMemory>
    ensures { OnOk result (string_bytes out.new ≡ followed (string_bytes out.old) (line margin.now (fixed part))) }
{
    write_indent(out, margin)?;
    write_fixed(out, part)?;
    write_fixed(out, Fixed::Newline)
}

/// Writes the beginning of a line.
#[tactic(auto, using(cs_layout::proofs::Following::followed_append, cs_layout::proofs::Following::followed_nothing))]
pub fn write_head(out: &mut String, part: Fixed, margin: &str) -> Result<(), NoMemory>
    ensures { OnOk result (string_bytes out.new ≡ followed (string_bytes out.old) (indent margin.now ++ fixed part)) }
{
    write_indent(out, margin)?;
    write_fixed(out, part)
}

/// Writes the end of a line.
#[tactic(auto, using(cs_layout::proofs::Following::followed_append, cs_layout::proofs::Following::followed_nothing))]
pub fn write_end(out: &mut String, part: Fixed) -> Result<(), NoMemory>
    ensures { OnOk result (string_bytes out.new ≡ followed (string_bytes out.old) (fixed part ++ fixed Newline)) }
{
    write_fixed(out, part)?;
    write_fixed(out, Fixed::Newline)
}
