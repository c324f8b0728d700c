// What follows from the definitions, for the crates above.

ghost use Rattle.cil_instruction.specs.Standard.{HasEach, HasNoOther, HasNoLeftOut};
ghost use Rattle.cil_instruction.specs.LeftOut.{HasEachLeftOut, HasOnlyLeftOut};
ghost use Rattle.cil_instruction.specs.Laws.{HasBytes, StandsWithin, SwitchHasCases, OperandIsSpelled, CauseIsOfCut};

/// The table is that of the standard: it has the instructions with their opcodes and operands, nothing else, and none of
/// the opcodes that are left out.
pub fn table_is_the_standards()
    ensures each { HasEach }
    ensures no_other { HasNoOther }
    ensures no_left_out { HasNoLeftOut }
{}

/// The list of the opcodes that are left out has those of the standard's instructions that aren't taken, and nothing
/// else.
pub fn left_out_is_the_standards()
    ensures each { HasEachLeftOut }
    ensures only { HasOnlyLeftOut }
{}

/// An instruction has bytes, which stand among those that it was read from; where none is read, there are three causes.
pub fn one_instruction()
    ensures some { HasBytes }
    ensures within { StandsWithin }
    ensures cases { SwitchHasCases }
    ensures operand { OperandIsSpelled }
    ensures cause { CauseIsOfCut }
{}
