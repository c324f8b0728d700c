// Texts of the heap of strings.

ghost use Rattle.cli_names.specs.Texts.{IsTextAt};

use cli_metadata::Metadata;

/// The text that begins at a place of the heap of strings; empty where none does.
pub fn text_at<'a>(metadata: &Metadata<'a>, i: u32) -> &'a str
    ensures { IsTextAt metadata.now i result.now }
{
    match metadata.string(i) {
        Ok(text) => text,
        Err(_) => "",
    }
}
