// Comments that tell names in the assembly.

ghost use Rattle.std.specs.Prelude.{◌≡◌, ◌++◌, OnOk};
ghost use Rattle.std.specs.List.{flat_map};
ghost use Rattle.std.specs.Str.{chars};
ghost use Rattle.std.specs.String.{string_bytes};
ghost use Rattle.std.specs.Char.Escape.{encode_utf16};
ghost use Rattle.cs_layout.specs.Pieces.{followed};
ghost use Rattle.cs_unit_layout.specs.Heads.{unit_noted, char_noted, noted, name_note, note_pieces, assembly_note, assembly_pieces};

use cs_layout::{Fixed, write_fixed};
use cs_lines::write_indent;
use cs_written::write_numbered;
use dc_base::{NoMemory, Text};

/// Units by their numbers.
fn write_units(out: &mut String, units: &[u16]) -> Result<(), NoMemory>
    ensures { OnOk result (string_bytes out.new ≡ string_bytes out.old ++ flat_map unit_noted units.now) }
{
    for unit in units {
        write_numbered(out, *unit)?;
    }
    Ok(())
}

fn write_char(out: &mut String, c: char) -> Result<(), NoMemory>
    ensures { OnOk result (string_bytes out.new ≡ string_bytes out.old ++ char_noted c) }
{
    let code = c as u32;
    if 0x20 <= code && code <= 0x7E {
        out.push(c)?;
        return Ok(());
    }
    let mut room = [0; 2];
    write_units(out, c.encode_utf16(&mut room))
}

fn write_chars(out: &mut String, text: &str) -> Result<(), NoMemory>
    ensures { OnOk result (string_bytes out.new ≡ string_bytes out.old ++ flat_map char_noted (chars text.now)) }
{
    for c in text.chars() {
        write_char(out, c)?;
    }
    Ok(())
}

#[tactic(auto, unfolding(cs_layout::specs::Pieces::followed, crate::specs::Heads::noted))]
fn write_noted(out: &mut String, text: &Text) -> Result<(), NoMemory>
    ensures { OnOk result (string_bytes out.new ≡ followed (string_bytes out.old) (noted text.now)) }
{
    write_chars(out, text.as_str())
}

#[tactic(auto, unfolding(cs_layout::specs::Pieces::followed, crate::specs::Heads::name_note))]
fn write_name_note(out: &mut String) -> Result<(), NoMemory>
    ensures { OnOk result (string_bytes out.new ≡ followed (string_bytes out.old) name_note) }
{
    out.push_str("// name: ")?;
    Ok(())
}

#[tactic(auto, unfolding(cs_layout::specs::Pieces::followed, crate::specs::Heads::assembly_note))]
fn write_assembly_note(out: &mut String) -> Result<(), NoMemory>
    ensures { OnOk result (string_bytes out.new ≡ followed (string_bytes out.old) assembly_note) }
{
    out.push_str("// assembly ")?;
    Ok(())
}

/// Writes a line with the name in the assembly, where the text has another one.
#[tactic(auto, using(cs_layout::proofs::Following::followed_append, cs_layout::proofs::Following::followed_nothing))]
pub fn write_note(out: &mut String, note: &Option<Text>, margin: &str) -> Result<(), NoMemory>
    ensures { OnOk result (string_bytes out.new ≡ followed (string_bytes out.old) (note_pieces note.now margin.now)) }
{
    match note {
        None => Ok(()),
        Some(name) => {
            write_indent(out, margin)?;
            write_name_note(out)?;
            write_noted(out, name)?;
            write_fixed(out, Fixed::Newline)
        }
    }
}

/// Writes the line with the assembly's name, where it is known.
#[tactic(auto, using(cs_layout::proofs::Following::followed_append, cs_layout::proofs::Following::followed_nothing))]
pub fn write_assembly(out: &mut String, assembly: &Option<Text>) -> Result<(), NoMemory>
    ensures { OnOk result (string_bytes out.new ≡ followed (string_bytes out.old) (assembly_pieces assembly.now)) }
{
    match assembly {
        None => Ok(()),
        Some(name) => {
            write_assembly_note(out)?;
            write_noted(out, name)?;
            write_fixed(out, Fixed::Newline)
        }
    }
}
