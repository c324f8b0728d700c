// Where an assembly is out of the profile.

use crate::Condition;
use dc_base::Token;
use thiserror::Error;

/// A condition that an assembly doesn't meet, and the token of the row that fails it.
#[derive(Clone, Copy, Debug, PartialEq, Eq, Error)]
#[error("{condition} {:08x}", .token.0)]
pub struct Unmet {
    pub condition: Condition,
    pub token: Token,
}
