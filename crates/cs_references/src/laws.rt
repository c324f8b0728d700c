// What follows of the productions: one answer for each list of tokens.

ghost use Rattle.cs_references.specs.Laws.{HasOneReferenceText};

/// A list of tokens is one reference text and no other, or has one fault, at the first token with which none goes on.
pub fn one_reference_text()
    ensures { HasOneReferenceText }
{}
