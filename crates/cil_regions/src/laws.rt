// What follows from the definitions, for the crates above.

ghost use Rattle.cil_regions.specs.Laws.{HasOneTree, TreeHasNoFault, TreeHasOneFault};

/// The regions of a body make one tree, or have one fault, and never both.
pub fn one_region_tree()
    ensures one_tree { HasOneTree }
    ensures no_fault { TreeHasNoFault }
    ensures one_fault { TreeHasOneFault }
{}
