// What is laid out is tokens that are written with gaps.

ghost use Rattle.cs_layout.specs.Pieces.{LaidIsWritten};

/// Pieces are tokens that are written with blanks and newlines between them.
pub fn laid_is_written()
    ensures { LaidIsWritten }
{}
