// What follows from the definitions.

ghost use Rattle.cli_sigs.specs.Laws.{HasOneRefusal};

use cli_signature::one_reading;
use dc_base::one_number_begins;

/// All rows that are asked have signatures, or one refusal is the first, and never both.
pub fn one_first_refusal()
    ensures { HasOneRefusal }
{
    one_number_begins();
    one_reading();
}
