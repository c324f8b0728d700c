// Names in lines.

ghost use Rattle.std.specs.Prelude.{◌≡◌, ◌≤◌, ◌<◌, ◌^◌, ◌++◌, ◌∷◌, [], OnOk, false};
ghost use Rattle.std.specs.String.{string_bytes};
ghost use Rattle.std.specs.Fmt.{digit_glyph};
ghost use Rattle.ilspy_cli.specs.Escape.{escaped, char_text, pair_text, unit_text};

use dc_base::NoMemory;

/// Puts a name at the end, each character outside 0x20 to 0x7E as its UTF-16 units.
pub(crate) fn push_escaped(out: &mut String, name: &str) -> Result<(), NoMemory>
    ensures { OnOk result (string_bytes out.new ≡ string_bytes out.old ++ escaped name.now) }
{
    for c in name.chars() {
        push_char(out, c)?;
    }
    Ok(())
}

fn push_char(out: &mut String, c: char) -> Result<(), NoMemory>
    ensures { OnOk result (string_bytes out.new ≡ string_bytes out.old ++ char_text c) }
{
    let code = c as u32;
    if 0x20 <= code && code <= 0x7E {
        out.push(c)?;
        Ok(())
    } else if code < 0x1_0000 {
        push_unit(out, code)
    } else {
        push_pair(out, code)
    }
}

// The two units of a character past 0xFFFF.
fn push_pair(out: &mut String, code: u32) -> Result<(), NoMemory>
    requires low { 0x1_0000 ≤ code }
    requires high { code < 0x11_0000 }
    ensures { OnOk result (string_bytes out.new ≡ string_bytes out.old ++ pair_text code) }
{
    push_unit(out, 0xD800 + (code - 0x1_0000) / 0x400)?;
    push_unit(out, 0xDC00 + (code - 0x1_0000) % 0x400)?;
    Ok(())
}

fn push_unit(out: &mut String, unit: u32) -> Result<(), NoMemory>
    requires { unit < 2 ^ 16 }
    ensures { OnOk result (string_bytes out.new ≡ string_bytes out.old ++ unit_text unit) }
{
    out.push_str("\\u")?;
    push_hex(out, unit / 0x1000)?;
    push_hex(out, unit / 0x100 % 16)?;
    push_hex(out, unit / 0x10 % 16)?;
    push_hex(out, unit % 16)
}

fn push_hex(out: &mut String, digit: u32) -> Result<(), NoMemory>
    requires { digit < 16 }
    ensures { OnOk result (string_bytes out.new ≡ string_bytes out.old ++ digit_glyph false digit ∷ []) }
{
    write!(out, "{digit:x}")?;
    Ok(())
}
