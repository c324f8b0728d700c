// What is printed is read back.

ghost use Rattle.cs_roundtrip_forms.specs.Laws.{ExpressionsAreReadBack};

/// The tokens of a printed expression, in which no lambda stands, are that expression and nothing else.
pub fn expressions_are_read_back()
    ensures { ExpressionsAreReadBack }
{}
