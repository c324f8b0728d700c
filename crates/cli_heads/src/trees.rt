// The trees of a head are its code.

ghost use Rattle.cli_heads.specs.Trees.{TreesAreCode};

/// The stores of a head's beginning and what stands on its stack are, as trees, the instructions that it is: in order, each
/// once, and none besides but `nop`s.
pub fn trees_are_code()
    ensures { TreesAreCode }
{}
