// What follows from the definitions, for the crates above.

ghost use Rattle.cil_body.specs.Laws.{HasOneBody, BodyHasNoFault, BodyHasOneFault, BodyHasRanges};

/// Bytes begin with one body, or have one fault, and never both.
pub fn one_body()
    ensures one_body { HasOneBody }
    ensures no_fault { BodyHasNoFault }
    ensures one_fault { BodyHasOneFault }
{}

/// The clauses of a body that was read are ranges of its code.
pub fn body_has_ranges()
    ensures { BodyHasRanges }
{}
