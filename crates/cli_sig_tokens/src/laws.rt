// What follows from the definitions.

ghost use Rattle.cli_sig_tokens.specs.Laws.{TokensAreOne, SpecTokensAreOne};

use cli_signature::one_reading;
use dc_base::one_number_begins;

/// What stands at a place of the heap of blobs names one list of tokens.
pub fn one_list()
    ensures tokens { TokensAreOne }
    ensures specs { SpecTokensAreOne }
{
    one_number_begins();
    one_reading();
}
