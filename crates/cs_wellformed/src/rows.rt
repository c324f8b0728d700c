// Rows of well formed trees, with their levels.

ghost use Rattle.cs_wellformed.specs.Rows.{LevelsAreAsMeant};

/// Sample trees are well formed, and their texts have as many levels as they are seen to have.
pub fn levels_are_as_meant()
    ensures { LevelsAreAsMeant }
{}
