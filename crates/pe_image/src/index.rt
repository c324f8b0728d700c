// The sections of an image, read once for many look-ups.

ghost use Rattle.std.specs.Prelude.{◌≡◌, ◌≤◌, ◌^◌, length, find, IfOk, IfSome, IsTrue, option_map};
ghost use Rattle.std.specs.Option.{option_copied};
ghost use Rattle.pe_image.specs.Sections.{holds, range_at, range_from, bytes_in};
ghost use Rattle.pe_image.specs.Table.{sections_of, IsTable};

use crate::blocks::{Reach, blocks, next_reaching};
use crate::sections::{Section, Table};
use dc_base::NoMemory;
use std::alloc::Global;
use std::marker::Model;

// How many sections make a block, and how many of those blocks a wide one. There are 65,535 sections at most.
const WIDTH: usize = 64;

const RATIO: usize = 32;

/// The sections of an image in memory, for whoever asks for many addresses. A look-up takes some hundred steps at most,
/// however many sections there are and however they lie: it looks by halves into wide blocks and into blocks for the first
/// in which a section holds the bytes, and then at the sections of one block. A clause sees its file and its sections.
#[derive(Debug, Drop)]
pub struct ImageIndex<'a> {
    file: &'a [u8],
    sections: Vec<Section>,
    blocks: Vec<Vec<Reach>>,
    wide: Vec<Vec<Reach>>,
}

impl<'a> Model for ImageIndex<'a> {
    ghost use Rattle.pe_image.specs.Image.{IndexParts};

    ghost Value = { IndexParts };

    ghost use Rattle.pe_image.specs.IndexView.{index_parts_of, IsSoundIndex};

    ghost view = { index_parts_of };

    ghost invariant = { IsSoundIndex };
}

impl<'a> ImageIndex<'a> {
    pub(crate) fn new(
        alloc: Global,
        file: &'a [u8],
        table: Table,
    ) -> Result<ImageIndex<'a>, NoMemory>
        requires short { length file.now ≤ 2 ^ 31 }
        requires table { IsTable file.now table }
        ensures file { IfOk result (λ index. index.file ≡ file.now) }
        ensures sections { IfOk result (λ index. index.sections ≡ sections_of file.now table) }
    {
        let sections = table.sections(alloc, file)?;
        let wide = blocks(alloc, sections.as_slice(), WIDTH * RATIO)?;
        let blocks = blocks(alloc, sections.as_slice(), WIDTH)?;
        Ok(ImageIndex {
            file,
            sections,
            blocks,
            wide,
        })
    }

    /// What [`crate::Image::at`] answers.
    pub fn at(&self, rva: u32, len: u32) -> Option<&'a [u8]>
        ensures bytes { option_copied result ≡ option_map (bytes_in self.now.file) (range_at self.now.sections rva len) }
        ensures len { IfSome result (λ bytes. length bytes.now ≡ len) }
        ensures short { IfSome result (λ bytes. length bytes.now ≤ 2 ^ 31) }
    {
        let section = self.first_holding(rva, len)?;
        Some(section.range_at(rva, len).of(self.file))
    }

    /// What [`crate::Image::rest`] answers.
    pub fn rest(&self, rva: u32) -> Option<&'a [u8]>
        ensures bytes { option_copied result ≡ option_map (bytes_in self.now.file) (range_from self.now.sections rva) }
        ensures short { IfSome result (λ bytes. length bytes.now ≤ 2 ^ 31) }
    {
        let section = self.first_holding(rva, 1)?;
        Some(section.range_from(rva).of(self.file))
    }

    // The first section whose raw bytes hold `len` bytes from an address on.
    fn first_holding(&self, rva: u32, len: u32) -> Option<Section>
        ensures found { result ≡ find (holds rva len) self.now.sections }
        ensures holds { IfSome result (λ s. IsTrue (holds rva len s)) }
    {
        first_of(self.candidates(rva, len), rva, len)
    }

    // The sections from the first block on in which one may hold the bytes.
    fn candidates(&self, rva: u32, len: u32) -> &[Section]
        ensures { find (holds rva len) result.now ≡ find (holds rva len) self.now.sections }
    {
        let sections = self.sections.as_slice();
        let end = u64::from(rva) + u64::from(len);
        let wide = next_reaching(self.wide.as_slice(), 0, rva, end);
        let block = next_reaching(self.blocks.as_slice(), wide * RATIO, rva, end);
        &sections[sections.len().min(block * WIDTH)..]
    }
}

// The first of these sections whose raw bytes hold `len` bytes from an address on.
fn first_of(sections: &[Section], rva: u32, len: u32) -> Option<Section>
    ensures found { result ≡ find (holds rva len) sections.now }
    ensures holds { IfSome result (λ s. IsTrue (holds rva len s)) }
{
    for section in sections {
        if section.holds(rva, len) {
            return Some(*section);
        }
    }
    None
}
