// What is printed is read back.

ghost use Rattle.cs_roundtrip_types.specs.Laws.{TypesAreReadBack, ParamsAreReadBack};

/// The tokens of a printed type are that type and nothing else.
pub fn types_are_read_back()
    ensures { TypesAreReadBack }
{}

/// The same of parameters.
pub fn params_are_read_back()
    ensures { ParamsAreReadBack }
{}
