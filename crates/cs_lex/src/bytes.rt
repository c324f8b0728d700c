// Bytes as text.

ghost use Rattle.std.specs.Prelude.{◌≡◌, IfOk, IfErr, IsUtf8};
ghost use Rattle.std.specs.Str.{chars};
ghost use Rattle.cs_token.specs.Cuts.{place_after};
ghost use Rattle.cs_lex.specs.Lexed.{IsBroken, IsPlace};

use crate::LexFault;
use crate::places::advanced;
use std::str;

/// The text in UTF-8 that these bytes are.
pub fn text_of(bytes: &[u8]) -> Result<&str, LexFault>
    ensures ok { IfOk result (λ text. text.now ≡ bytes.now) }
    ensures fault { IfErr result (IsBroken bytes.now) }
{
    match str::from_utf8(bytes) {
        Ok(text) => Ok(text),
        Err(error) => Err(place_behind(&bytes[..error.valid_up_to()])),
    }
}

/// The place behind the characters that these bytes are.
fn place_behind(bytes: &[u8]) -> LexFault
    requires { IsUtf8 bytes.now }
    ensures { IsPlace result (place_after (1, 1) (chars bytes.now)) }
{
    match str::from_utf8(bytes) {
        Ok(text) => {
            let (line, column) = advanced(text, 1, 1);
            LexFault { line, column }
        }
        Err(_) => unreachable!(),
    }
}
