// What is printed is read back.

ghost use Rattle.cs_roundtrip_units.specs.Laws.{TextsAreReadBack};

/// The tokens of a printed text are that text and nothing else, its notes aside.
pub fn texts_are_read_back()
    ensures { TextsAreReadBack }
{}
