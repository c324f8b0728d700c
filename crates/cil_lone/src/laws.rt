// What follows from the definitions, for the crates above.

ghost use Rattle.cil_lone.specs.Laws.{HasOneCode, HasNoFault, HasOneFault, CodeWalks, OperandsFit, CodeIsConsecutive, PlacesAreWithin, InstructionsHaveBytes, IsOfAllBodies, IsOfLoneBodies};

/// A file is a lone body with one code, or has one fault, and never both.
pub fn one_reading()
    ensures one_code { HasOneCode }
    ensures no_fault { HasNoFault }
    ensures one_fault { HasOneFault }
{}

/// What is said of the stack by sets of places follows the code from front to back.
pub fn balance_is_a_walk()
    ensures { CodeWalks }
{}

/// The instructions of a lone body stand in its file one directly behind the other, with operands that are ints.
pub fn code_fills_the_file()
    ensures consecutive { CodeIsConsecutive }
    ensures within { PlacesAreWithin }
    ensures operands { OperandsFit }
    ensures some { InstructionsHaveBytes }
{}

/// A lone body is cut as all bodies are: the same instructions stand at the same bytes.
pub fn one_cut()
    ensures all { IsOfAllBodies }
    ensures lone { IsOfLoneBodies }
{}
