// Sections in blocks, each of which tells how far its sections reach.

ghost use Rattle.std.specs.Prelude.{◌+◌, ◌<◌, ◌≤◌, IfOk};
ghost use Rattle.std.specs.List.Sorted.{IsNonDecreasingBy};
ghost use Rattle.pe_image.specs.Blocks.{AreInOrder, AreAllInOrder, AreReaches, AreBlocks, AreShort, Covers};
ghost use Rattle.pe_image.specs.declared.sections.Section.{Section};

use crate::sections::Section;
use dc_base::NoMemory;
use std::alloc::Global;

/// An address, and the greatest end of the sections of a block that begin by it.
#[derive(Clone, Copy, Debug)]
pub struct Reach {
    pub address: u32,
    pub end: u64,
}

/// For each block of so many sections, and of those that are left at last, how far they reach, by address.
pub fn blocks(
    alloc: Global,
    sections: &[Section],
    width: usize,
) -> Result<Vec<Vec<Reach>>, NoMemory>
    requires { 0 < width }
    ensures { IfOk result (λ blocks. AreBlocks sections.now width blocks.items) }
{
    let mut blocks = Vec::new(alloc);
    let mut from = 0;
    while from < sections.len() {
        let count = width.min(sections.len() - from);
        blocks.push(reaches(alloc, &sections[from..from + count])?)?;
        from += count;
    }
    Ok(blocks)
}

// How far these sections reach, by address.
fn reaches(alloc: Global, sections: &[Section]) -> Result<Vec<Reach>, NoMemory>
    ensures { IfOk result (λ reaches. AreReaches sections.now reaches.items) }
{
    let mut sorted = sections.to_vec(alloc)?;
    sorted.sort_by_key(|section| section.address)?;
    running(alloc, sorted.as_slice())
}

// How far the first of these sections reach, up to each of them.
fn running(alloc: Global, sorted: &[Section]) -> Result<Vec<Reach>, NoMemory>
    requires { IsNonDecreasingBy (λ (section : Section). section.address) sorted.now }
    ensures { IfOk result (λ reaches. AreReaches sorted.now reaches.items) }
{
    let mut reaches = Vec::new(alloc);
    let mut end = 0;
    for section in sorted {
        end = section.end().max(end);
        reaches.push(Reach {
            address: section.address,
            end,
        })?;
    }
    Ok(reaches)
}

/// The first block from this one on of which a section that begins by the address may reach to the end.
pub fn next_reaching(blocks: &[Vec<Reach>], from: usize, rva: u32, end: u64) -> usize
    requires { AreAllInOrder blocks.now }
    ensures onwards { from ≤ result }
    ensures passed { AreShort blocks.now from result rva end }
{
    let mut block = from;
    while block < blocks.len() && greatest_end(blocks[block].as_slice(), rva) < end {
        block += 1;
    }
    block
}

// How far the sections of a block reach that begin by the address.
fn greatest_end(block: &[Reach], rva: u32) -> u64
    requires { AreInOrder block.now }
    ensures { (s : Section) → Covers block.now s → s.address ≤ rva → s.address + s.size ≤ result }
{
    let begun = block.partition_point(|reach| reach.address <= rva);
    if begun == 0 {
        return 0;
    }
    block[begun - 1].end
}
