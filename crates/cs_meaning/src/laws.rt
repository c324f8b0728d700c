// What follows from the meaning of expressions and statements, for the crates above.

ghost use Rattle.cs_meaning.specs.Laws.{LiteralsGive, VariablesGive, SumsGive, DifferencesGive, ProductsGive, DeclarationsRun, ReturnsEnd, BodiesReturn, ReturnsOneInt};

/// What the expressions of a lone body give.
pub fn expressions_give()
    ensures literals { LiteralsGive }
    ensures variables { VariablesGive }
    ensures sums { SumsGive }
    ensures differences { DifferencesGive }
    ensures products { ProductsGive }
{}

/// A list of declarations and a `return` runs one statement after the other.
pub fn statements_run()
    ensures declarations { DeclarationsRun }
    ensures returns { ReturnsEnd }
    ensures bodies { BodiesReturn }
{}

/// A body returns one int at most on the same arguments.
pub fn one_result()
    ensures { ReturnsOneInt }
{}
