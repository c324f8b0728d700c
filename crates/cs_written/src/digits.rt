// Numbers.

ghost use Rattle.std.specs.Prelude.{◌≡◌, ◌++◌, OnOk};
ghost use Rattle.std.specs.String.{string_bytes};
ghost use Rattle.std.proofs.Math.Utf8.{encodes};
ghost use Rattle.std.specs.Fmt.{decimal};
ghost use Rattle.cs_token.specs.declared.lexeme.Lexeme.TheVariants.{Number};
ghost use Rattle.cs_written.specs.Spelled.{spelled, suffix_spelled};

use cs_token::Suffix;
use dc_base::NoMemory;
use std::fmt::Write;

fn suffix_text(suffix: Suffix) -> &'static str
    ensures { result.now ≡ suffix_spelled suffix }
{
    match suffix {
        Suffix::Plain => "",
        Suffix::Unsigned => "U",
        Suffix::Long => "L",
        Suffix::UnsignedLong => "UL",
    }
}

fn write_digits(out: &mut String, number: u64) -> Result<(), NoMemory>
    ensures { OnOk result (string_bytes out.new ≡ string_bytes out.old ++ decimal number) }
{
    write!(out, "{number}")?;
    Ok(())
}

/// Writes a number in decimal digits, with its suffix.
pub fn write_number(out: &mut String, number: u64, suffix: Suffix) -> Result<(), NoMemory>
    ensures { OnOk result (string_bytes out.new ≡ string_bytes out.old ++ encodes (spelled (Number number suffix))) }
{
    write_digits(out, number)?;
    out.push_str(suffix_text(suffix))?;
    Ok(())
}
