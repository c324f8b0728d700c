// What is printed is read back.

ghost use Rattle.cs_roundtrip.specs.Laws.{PrintedTextsAreRead};

/// What is printed of a well formed text is that text, but for its places and notes, and nothing else.
pub fn printed_texts_are_read()
    ensures { PrintedTextsAreRead }
{}
