// Why a text declares no class table.

use class_rows::TableFault;
use cs_read_texts::ReadFault;
use thiserror::Error;

/// Why a text declares no class table: it is no reference text, or its types and members make no table.
#[derive(Clone, Copy, Debug, PartialEq, Eq, Error)]
pub enum RefFault {
    #[error("{0}")]
    Read(ReadFault),
    #[error("{0}")]
    Types(TableFault),
}
