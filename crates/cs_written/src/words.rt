// Names.

ghost use Rattle.std.specs.Prelude.{◌≡◌, ◌++◌, OnOk};
ghost use Rattle.std.specs.String.{string_bytes};
ghost use Rattle.std.proofs.Math.Utf8.{encodes};
ghost use Rattle.cs_token.specs.declared.lexeme.Lexeme.TheVariants.{Name};
ghost use Rattle.cs_written.specs.Spelled.{spelled};

use dc_base::{NoMemory, keyword};

/// Writes a name, behind an `@` where it is a keyword's word.
pub fn write_name(out: &mut String, name: &str) -> Result<(), NoMemory>
    ensures { OnOk result (string_bytes out.new ≡ string_bytes out.old ++ encodes (spelled (Name name.now))) }
{
    if keyword(name) {
        out.push('@')?;
    }
    out.push_str(name)?;
    Ok(())
}
