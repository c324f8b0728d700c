// Why a text is none of the grammar.

ghost use Rattle.std.specs.Prelude.{◌≡◌};
ghost use Rattle.dc_base.specs.declared.failure.Or.TheVariants.{Fault as WithFault};

use dc_base::Or;
use thiserror::Error;

/// Why a text is none of the grammar, with the line and the column of the place. Both count from 1, columns in characters. A fault at
/// the text's end stands behind its last character.
#[derive(Clone, Copy, Debug, PartialEq, Eq, Error)]
pub enum ReadFault {
    /// No token stands here.
    #[error("no token at {0}:{1}")]
    Lex(usize, usize),
    /// No text of the grammar goes on with this token, or ends here.
    #[error("unexpected at {0}:{1}")]
    Parse(usize, usize),
    /// Texts go on with this token that have more levels.
    #[error("too deep at {0}:{1}")]
    Deep(usize, usize),
}

impl From<ReadFault> for Or<ReadFault> {
    ghost from_gives = { λ fault or. or ≡ WithFault fault };

    fn from(fault: ReadFault) -> Self {
        Or::Fault(fault)
    }
}
