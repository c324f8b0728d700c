// What is printed is read back.

ghost use Rattle.cs_roundtrip_statements.specs.Laws.{ExpressionsAreReadBack, BlocksAreReadBack, BlocksOfTextsAreReadBack};

/// The tokens of a printed expression are that expression and nothing else.
pub fn expressions_with_lambdas_are_read_back()
    ensures { ExpressionsAreReadBack }
{}

/// The same of blocks.
pub fn blocks_are_read_back()
    ensures { BlocksAreReadBack }
{}

/// The same of blocks within the depths of a text: 400 levels of an expression, 200 blocks and 33 pairs of brackets.
pub fn blocks_of_texts_are_read_back()
    ensures { BlocksOfTextsAreReadBack }
{}
