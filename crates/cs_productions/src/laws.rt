// What follows of the productions of types.

ghost use Rattle.cs_productions.specs.Laws.{HasOneType, HasOneParam};

/// A list of tokens is one type and no other, or has one fault, at the first token with which no type goes on.
pub fn one_type()
    ensures { HasOneType }
{}

/// The same of parameters.
pub fn one_param()
    ensures { HasOneParam }
{}
