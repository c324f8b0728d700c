// Look-ups at many addresses of an image.

use pe_image::{Image, ImageIndex};

/// How many addresses are looked up, how far they are apart, and how many bytes are wanted at each.
const COUNT: u32 = 50_000;

const STEP: u32 = 97;

const LEN: u32 = 16;

/// The ranges that were found, and how many bytes they have.
#[derive(Clone, Copy)]
pub struct Found {
    pub ranges: u64,
    pub bytes: u64,
}

impl Found {
    const NONE: Found = Found {
        ranges: 0,
        bytes: 0,
    };

    fn and(self, range: Option<&[u8]>) -> Found {
        match range {
            Some(bytes) => Found {
                ranges: self.ranges.saturating_add(1),
                bytes: self.bytes.saturating_add(bytes.len() as u64),
            },
            None => self,
        }
    }
}

/// Each address is looked up in the image.
pub fn scanned(image: &Image) -> Found {
    let mut found = Found::NONE;
    for k in 0..COUNT {
        found = found.and(image.at(STEP * k, LEN)).and(image.rest(STEP * k));
    }
    found
}

/// Each address is looked up in the index.
pub fn indexed(index: &ImageIndex) -> Found {
    let mut found = Found::NONE;
    for k in 0..COUNT {
        found = found.and(index.at(STEP * k, LEN)).and(index.rest(STEP * k));
    }
    found
}
