// The headers of a PE file.

ghost use Rattle.std.specs.Prelude.{◌≡◌, ◌+◌, ◌≤◌, ◌^◌, length, IfOk, IfErr, IfSome, IfNone};
ghost use Rattle.pe_image.specs.Headers.{magic_of, cli_directory_of, optional_place, table_place, IsPe};
ghost use Rattle.dc_causes.specs.Answer.{ReadBy, FaultOf};
ghost use Rattle.pe_image.specs.Image.{wrong, ReadsHeaders};
ghost use Rattle.pe_image.specs.declared.headers.Format.{Format};

use crate::fault::{ImageCause, ImageFault};
use crate::number::{read_u16, u16_at, u32_at};

// The bytes `P`, `E`, 0, 0.
const SIGNATURE: u32 = 0x4550;

/// Of which kind the optional header is: with addresses of 32 bits, or of 64.
#[derive(Clone, Copy, Debug, PartialEq, Eq)]
pub enum Format {
    Pe32,
    Pe32Plus,
}

impl Format {
    fn of(magic: u16) -> Option<Format>
        ensures found { IfSome result (λ format. magic ≡ magic_of format) }
        ensures none { IfNone result ((format : Format) → magic ≡ magic_of format → ⊥) }
    {
        match magic {
            0x10B => Some(Format::Pe32),
            0x20B => Some(Format::Pe32Plus),
            _ => None,
        }
    }

    /// Where data directory 14 stands in the optional header.
    pub fn cli_directory(self) -> usize
        ensures { result ≡ cli_directory_of self }
    {
        match self {
            Format::Pe32 => 208,
            Format::Pe32Plus => 224,
        }
    }
}

/// What the headers of a PE file say: the place of their signature, how many sections there are, how long the optional
/// header is, and of which kind.
#[derive(Clone, Copy, Debug)]
pub struct Headers {
    pub signature: u32,
    pub section_count: u16,
    pub optional_size: u16,
    pub format: Format,
}

impl Headers {
    /// The place of the optional header.
    pub fn optional(self) -> usize
        ensures { result ≡ optional_place self }
    {
        self.signature as usize + 24
    }

    /// The place of the section headers.
    pub fn table(self) -> usize
        ensures { result ≡ table_place self }
    {
        self.optional() + usize::from(self.optional_size)
    }
}

/// The headers of a PE file.
pub fn headers_of(file: &[u8]) -> Result<Headers, ImageFault>
    requires { length file.now ≤ 2 ^ 31 }
    ensures read { IfOk result (ReadBy (ReadsHeaders file.now)) }
    ensures pe { IfOk result (IsPe file.now) }
    ensures fault { IfErr result (FaultOf (ReadsHeaders file.now)) }
{
    let Some(signature) = u32_at(file, 0x3C) else {
        return Err(not_pe(0));
    };
    let place = signature as usize;
    if u32_at(file, place) != Some(SIGNATURE) {
        return Err(not_pe(0x3C));
    }
    let Some(format) = u16_at(file, place + 24).and_then(Format::of) else {
        return Err(not_pe(signature + 24));
    };
    Ok(Headers {
        signature,
        section_count: read_u16(file, place + 6),
        optional_size: read_u16(file, place + 20),
        format,
    })
}

fn not_pe(place: u32) -> ImageFault
    ensures { result ≡ wrong ImageCause.NotPe place }
{
    ImageFault {
        cause: ImageCause::NotPe,
        place,
    }
}
