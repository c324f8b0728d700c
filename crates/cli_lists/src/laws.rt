// What follows from the definitions.

ghost use Rattle.cli_lists.specs.Laws.{HasOneOwner, StandInOrder, HasOneAnswer, HasLeastToken};

/// Lists are stretches one behind the other, and no row stands in two.
pub fn stretches_one_behind_the_other()
    ensures one_owner { HasOneOwner }
    ensures in_order { StandInOrder }
{}

/// Each row begins lists, or one token is the fault, never both; it is the least of a row that doesn't.
pub fn one_first_fault()
    ensures one_answer { HasOneAnswer }
    ensures least { HasLeastToken }
{}
