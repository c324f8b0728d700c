// What the number in a cell is.

/// A place in the heap of strings; `Metadata::string` gives the text.
pub type StringIndex = u32;

/// A place in the heap of blobs; `Metadata::blob` gives the bytes.
pub type BlobIndex = u32;

/// The number of a GUID, counted from 1; 0 is none.
pub type GuidIndex = u32;

/// The number of a row of a table that the column tells, counted from 1.
pub type RowNumber = u32;
