// What follows of the definition.

ghost use Rattle.class_references.specs.Laws.{HasOneTable, TypesStandBehindTheirs, TextsAreBuildable};

/// A text has one answer and no other: the rows of a table, or one fault.
pub fn one_table()
    ensures { HasOneTable }
{}

/// A type that is nested in another stands behind it.
pub fn types_stand_behind_theirs()
    ensures { TypesStandBehindTheirs }
{}

/// Of the rows of a text a table may be built, where there are numbers enough for them.
pub fn texts_are_buildable()
    ensures { TextsAreBuildable }
{}
