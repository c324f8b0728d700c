// What follows of the grammar for whole texts.

ghost use Rattle.cs_read_texts.specs.Texts.{HasOneText, HasOneReference};

/// A text has one answer and no other: a tree, or one fault at one place.
pub fn one_text()
    ensures { HasOneText }
{}

/// A reference text has one answer and no other.
pub fn one_reference()
    ensures { HasOneReference }
{}
