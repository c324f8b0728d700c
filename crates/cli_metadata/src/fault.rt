// What is wrong with metadata.

use thiserror::Error;

/// What is wrong at a place of the metadata, or with an index into a heap.
#[derive(Clone, Copy, Debug, PartialEq, Eq, Error)]
pub enum MetaCause {
    /// The root has another signature, or a field, a stream header or a name of it doesn't stand.
    #[error("no metadata root")]
    BadRoot,
    /// A stream that is read passes the end of the metadata, or there is no stream of tables.
    #[error("no whole stream")]
    BadStream,
    /// The stream of tables has another version or an unknown bit of HeapSizes, or a field before its row counts doesn't
    /// stand.
    #[error("no header of tables")]
    BadHeader,
    /// A table is there whose number no table has.
    #[error("an unknown table")]
    UnknownTable,
    /// A row count or a table doesn't stand whole in the stream of tables.
    #[error("a table that is cut off")]
    Truncated,
    /// The index isn't below the length of the heap.
    #[error("an index past the heap")]
    BadIndex,
    /// The index begins no zero-ended UTF-8 text.
    #[error("no text")]
    BadText,
    /// The index begins no item of the heap.
    #[error("no blob")]
    BadBlob,
}

/// What is wrong, and where: a place counts bytes from the first one of the root, and for an item of a heap it is the
/// index.
#[derive(Clone, Copy, Debug, PartialEq, Eq, Error)]
#[error("{cause} at {place}")]
pub struct MetaFault {
    pub cause: MetaCause,
    pub place: u32,
}
