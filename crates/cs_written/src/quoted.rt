// Characters and texts in quotes.

ghost use Rattle.std.specs.Prelude.{◌≡◌, ◌++◌, ◌∷◌, [], ◌<◌, OnOk};
ghost use Rattle.std.specs.Char.{digit_char};
ghost use Rattle.std.specs.List.{flat_map};
ghost use Rattle.std.specs.String.{string_bytes};
ghost use Rattle.std.proofs.Math.Utf8.{encodes};
ghost use Rattle.cs_token.specs.declared.lexeme.Lexeme.TheVariants.{Char, Literal};
ghost use Rattle.cs_written.specs.Spelled.{hex_spelled, unit_spelled, spelled};

use dc_base::NoMemory;

fn write_ascii(out: &mut String, c: u16) -> Result<(), NoMemory>
    requires { c < 128 }
    ensures { OnOk result (string_bytes out.new ≡ string_bytes out.old ++ c ∷ []) }
{
    out.push(c as u8 as char)?;
    Ok(())
}

/// Writes a `\` and a letter.
fn write_escape(out: &mut String, letter: u16) -> Result<(), NoMemory>
    requires { letter < 128 }
    ensures { OnOk result (string_bytes out.new ≡ string_bytes out.old ++ 92 ∷ letter ∷ []) }
{
    out.push_str("\\")?;
    write_ascii(out, letter)
}

fn write_digit(out: &mut String, digit: u16) -> Result<(), NoMemory>
    requires { digit < 16 }
    ensures { OnOk result (string_bytes out.new ≡ string_bytes out.old ++ digit_char digit ∷ []) }
{
    write_ascii(out, if digit < 10 { 48 + digit } else { 87 + digit })
}

/// Writes a UTF-16 unit by its number: `\u` and four hexadecimal digits in small letters.
pub fn write_numbered(out: &mut String, unit: u16) -> Result<(), NoMemory>
    ensures { OnOk result (string_bytes out.new ≡ string_bytes out.old ++ 92 ∷ 117 ∷ hex_spelled unit) }
{
    out.push_str("\\u")?;
    write_digit(out, unit / 16 / 16 / 16)?;
    write_digit(out, unit / 16 / 16 % 16)?;
    write_digit(out, unit / 16 % 16)?;
    write_digit(out, unit % 16)
}

/// Writes a unit between these quotes.
fn write_unit(out: &mut String, quote: u16, unit: u16) -> Result<(), NoMemory>
    requires { quote < 128 }
    ensures { OnOk result (string_bytes out.new ≡ string_bytes out.old ++ unit_spelled quote unit) }
{
    if unit == 92 || unit == quote {
        return write_escape(out, unit);
    }
    if unit == 0 {
        return write_escape(out, 48);
    }
    if unit == 10 {
        return write_escape(out, 110);
    }
    if unit == 13 {
        return write_escape(out, 114);
    }
    if unit == 9 {
        return write_escape(out, 116);
    }
    if 32 <= unit && unit <= 126 {
        return write_ascii(out, unit);
    }
    write_numbered(out, unit)
}

/// Writes a character in quotes.
pub fn write_character(out: &mut String, unit: u16) -> Result<(), NoMemory>
    ensures { OnOk result (string_bytes out.new ≡ string_bytes out.old ++ encodes (spelled (Char unit))) }
{
    out.push_str("'")?;
    write_unit(out, 39, unit)?;
    out.push_str("'")?;
    Ok(())
}

fn write_units(out: &mut String, units: &[u16]) -> Result<(), NoMemory>
    ensures { OnOk result (string_bytes out.new ≡ string_bytes out.old ++ flat_map (unit_spelled 34) units.now) }
{
    for unit in units {
        write_unit(out, 34, *unit)?;
    }
    Ok(())
}

/// Writes a text in quotes.
pub fn write_text(out: &mut String, units: &[u16]) -> Result<(), NoMemory>
    ensures { OnOk result (string_bytes out.new ≡ string_bytes out.old ++ encodes (spelled (Literal units.now))) }
{
    out.push_str("\"")?;
    write_units(out, units)?;
    out.push_str("\"")?;
    Ok(())
}
