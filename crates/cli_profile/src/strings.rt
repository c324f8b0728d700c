// Names in the heap of strings.

ghost use Rattle.std.specs.Bool.{OnTrue, OnFalse};
ghost use Rattle.cli_metadata.specs.Metadata.{IsString};

use cli_metadata::Metadata;

// Whether this text stands at a place of the heap of strings.
pub(crate) fn is_text(metadata: &Metadata, i: u32, text: &str) -> bool
    ensures yes { OnTrue result (IsString metadata.now.strings i text.now) }
    ensures no { OnFalse result (IsString metadata.now.strings i text.now → ⊥) }
{
    match metadata.string(i) {
        Ok(found) => found == text,
        Err(_) => false,
    }
}
