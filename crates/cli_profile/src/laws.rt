// What follows from the definitions.

ghost use Rattle.cli_profile.specs.Laws.{HasOneAnswer};

/// The rows are in the profile, or one failure is the first, and never both.
pub fn one_first_failure()
    ensures { HasOneAnswer }
{}
