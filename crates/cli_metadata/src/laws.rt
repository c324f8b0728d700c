// What follows from the definitions.

ghost use Rattle.cli_metadata.specs.Laws.{TablesAreTheStandards, CodedAreTheStandards, HasOneContent, HasNoFault, HasOneFault, RowsAreWithin};

/// The tables with their columns, and the coded indices with their tables, are those of the standard.
pub fn tables_are_the_standards()
    ensures tables { TablesAreTheStandards }
    ensures coded { CodedAreTheStandards }
{}

/// Bytes are metadata with one content, or have one fault, and never both.
pub fn one_reading()
    ensures one_content { HasOneContent }
    ensures no_fault { HasNoFault }
    ensures one_fault { HasOneFault }
{}

/// Each row of metadata stands whole among its bytes.
pub fn rows_are_whole()
    ensures { RowsAreWithin }
{}
