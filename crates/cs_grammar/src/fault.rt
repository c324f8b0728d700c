// Why a reader stops.

ghost use Rattle.std.specs.Prelude.{◌≡◌};
ghost use Rattle.dc_base.specs.declared.failure.Or.TheVariants.{Fault as WithFault};

use dc_base::Or;

/// Why the tokens go on to no value from the next one on.
#[derive(Clone, Copy, Debug, PartialEq, Eq)]
pub enum Fault {
    /// No text of the grammar goes on with the next token, or with the end.
    Unexpected,
    /// The next token begins what is too deep.
    TooDeep,
}

impl From<Fault> for Or<Fault> {
    ghost from_gives = { λ f e. e ≡ WithFault f };

    fn from(fault: Fault) -> Self {
        Or::Fault(fault)
    }
}
