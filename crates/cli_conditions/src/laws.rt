// What follows from the definitions.

ghost use Rattle.cli_conditions.specs.Laws.{NumbersTell};

/// A place in the order is that of one condition.
pub fn one_number()
    ensures { NumbersTell }
{}
