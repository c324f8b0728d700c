// Why a file is no image.

use thiserror::Error;

/// Why a file is no image, in the order of testing.
#[derive(Clone, Copy, Debug, PartialEq, Eq, Error)]
pub enum ImageCause {
    /// No headers of a PE file stand in it.
    #[error("no PE file")]
    NotPe,
    /// A section header, or the raw bytes that it speaks of, pass the file's end.
    #[error("a section that passes the end of the file")]
    BadSection,
    /// Data directory 14 names no CLI header whose metadata is in a section.
    #[error("no CLI header with metadata in a section")]
    NoCli,
    /// The flags in the CLI header don't say that the image has CIL alone.
    #[error("not of CIL alone")]
    NotIlOnly,
}

/// Why a file is no image, and where, counted from the file's first byte.
#[derive(Clone, Copy, Debug, PartialEq, Eq, Error)]
#[error("{cause} at {place}")]
pub struct ImageFault {
    pub cause: ImageCause,
    pub place: u32,
}
