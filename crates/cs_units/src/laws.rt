// What follows of the productions: one answer for each list of tokens.

ghost use Rattle.cs_units.specs.Laws.{HasOneMember, HasOneUnit};

/// A list of tokens is one member or nested type and no other, or has one fault, at the first token with which none goes on.
pub fn one_member()
    ensures { HasOneMember }
{}

/// The same of whole texts.
pub fn one_unit()
    ensures { HasOneUnit }
{}
