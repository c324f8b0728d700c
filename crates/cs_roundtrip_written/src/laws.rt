// What is printed is written well, and is read back.

ghost use Rattle.cs_roundtrip_written.specs.Laws.{ExpressionsAreWrittenWell, BlocksAreWrittenWell, PrintedExpressionsAreReadBack, PrintedBlocksAreReadBack};

/// Tokens of a printed expression stand apart where they would be read otherwise.
pub fn expressions_are_written_well()
    ensures { ExpressionsAreWrittenWell }
{}

/// The same of blocks.
pub fn blocks_are_written_well()
    ensures { BlocksAreWrittenWell }
{}

/// The text of a printed expression has tokens, which are that expression and nothing else.
pub fn printed_expressions_are_read_back()
    ensures { PrintedExpressionsAreReadBack }
{}

/// The same of blocks.
pub fn printed_blocks_are_read_back()
    ensures { PrintedBlocksAreReadBack }
{}
