// What follows from the definitions.

ghost use Rattle.cli_named.specs.Laws.{NamesAreOne, NamesHaveNumbers, NumbersAreOnes, NumbersAreBelow};

use cli_sig_tokens::one_list;

/// The row of a token names one list of tokens, and a token whose row names some has a number, which tells the token.
pub fn names_are_one()
    ensures one { NamesAreOne }
    ensures numbered { NamesHaveNumbers }
    ensures told { NumbersAreOnes }
    ensures below { NumbersAreBelow }
{
    one_list();
}
