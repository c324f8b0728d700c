// What follows from the definitions of signatures, for the crates above.

ghost use Rattle.cli_signature.specs.Laws.{HasOneDerivation, HasNoFault, HasOneFault};

/// A blob is a signature of its kind in one way, or has one fault, and never both.
pub fn one_reading()
    ensures one_derivation { HasOneDerivation }
    ensures no_fault { HasNoFault }
    ensures one_fault { HasOneFault }
{}
