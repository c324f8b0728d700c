// A law, and no step.

ghost use Rattle.verify_puts.specs.Law.{PartsAreAll};

/// What an instruction puts fits exactly where each of its parts does.
pub fn parts_are_all()
    ensures { PartsAreAll }
{}
