// What follows of the productions: one answer for each list of tokens.

ghost use Rattle.cs_statements.specs.Laws.{HasOneExpression, HasOneBlock, HasOneBlockInText};

/// A list of tokens is one expression and no other, or has one fault, at the first token with which no expression goes on.
pub fn one_expression()
    ensures { HasOneExpression }
{}

/// The same of blocks.
pub fn one_block()
    ensures { HasOneBlock }
{}

/// The same of blocks within the depths of a text: 400 levels of an expression, 200 blocks and 33 pairs of brackets.
pub fn one_block_in_text()
    ensures { HasOneBlockInText }
{}
