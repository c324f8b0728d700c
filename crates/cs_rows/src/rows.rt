// Rows of expressions and blocks.

ghost use Rattle.cs_rows.specs.Expressions.{Operators, Casts, Depths};
ghost use Rattle.cs_rows.specs.Statements.{Blocks};
ghost use Rattle.cs_rows.specs.Words.{Kinds};

/// Which operator binds more, and to which side operators associate.
pub fn operators_are_as_meant()
    ensures { Operators }
{}

/// Casts, parentheses, paths and new arrays.
pub fn casts_are_as_meant()
    ensures { Casts }
{}

/// One level too many, and one pair of brackets too many.
pub fn depths_are_as_meant()
    ensures { Depths }
{}

/// Statements in a block.
pub fn blocks_are_as_meant()
    ensures { Blocks }
{}

/// The kinds of the productions are those of the tokens that they are named by.
pub fn kinds_are_as_meant()
    ensures { Kinds }
{}
