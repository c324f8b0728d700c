// What is written is read.

ghost use Rattle.cs_written.specs.Written.{WrittenIsRead};

/// Tokens that are written with gaps where they need them are read as just these tokens.
pub fn written_is_read()
    ensures { WrittenIsRead }
{}
