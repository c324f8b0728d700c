// Why a row is refused.

use cli_metadata::MetaFault;
use dc_base::Token;
use thiserror::Error;

/// A row with a cell that says nothing, and why.
#[derive(Clone, Copy, Debug, PartialEq, Eq, Error)]
#[error("{:08x}: {fault}", .token.0)]
pub struct CellFault {
    pub token: Token,
    pub fault: MetaFault,
}
