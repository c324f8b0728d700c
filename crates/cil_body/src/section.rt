// The sections behind the code, and their clauses.

ghost use Rattle.std.specs.Prelude.{◌≡◌, ◌+◌, ◌≤◌, ◌<◌, ◌^◌, ◌++◌, ◌↔◌, length, All, IfOk, IfErr, OnOk, IfSome, IfNone, IsTrue};
ghost use Rattle.cil_body.specs.Code.{AreInOrder};
ghost use Rattle.cil_body.specs.Section.{AreClauses, IsSectionFault, IsSection, IsKind, IsClause, AreBounds, IsBound, IsClauseBroken, aligned, clause_width, clauses_of, clause_at, fat_clause, small_clause};
ghost use Rattle.cil_instruction.specs.declared.fault.BodyCause.TheVariants.{BadSection};
ghost use Rattle.cil_body.specs.declared.section.Section.{Section};

use crate::header::Header;
use byteorder::{ByteOrder, LittleEndian};
use cil_instruction::{BodyCause, BodyFault};
use dc_base::Or;
use std::alloc::Global;

/// A section of clauses: where it stands, counted from the header's first byte, its size in bytes with its own header,
/// whether its clauses are fat ones, and whether another section follows.
#[derive(Clone, Copy, Debug)]
pub struct Section {
    pub at: usize,
    pub size: usize,
    pub is_fat: bool,
    pub has_more: bool,
}

/// A clause as it stands in its section, and its place.
#[derive(Clone, Copy, Debug)]
pub struct RawClause {
    pub at: u32,
    pub kind: u32,
    pub try_at: u32,
    pub try_len: u32,
    pub handler_at: u32,
    pub handler_len: u32,
    pub class: u32,
}

/// The flag of a section that holds clauses, alone in the low six bits.
const CLAUSES: u8 = 0x1;
/// The flag of a section whose clauses are fat.
const FAT: u8 = 0x40;
/// The flag of a section that another one follows.
const MORE: u8 = 0x80;

/// The clauses of all sections behind the code, whose instructions start at these places.
pub fn raw_clauses(
    alloc: Global,
    bytes: &[u8],
    header: Header,
    starts: &[u32],
) -> Result<Vec<RawClause>, Or<BodyFault>>
    requires short { length bytes.now ≤ 2 ^ 31 }
    requires within { header.start + header.size ≤ length bytes.now }
    requires order { AreInOrder starts.now }
    ensures read { IfOk result (λ raw. AreClauses bytes.now header starts.now raw.items) }
    ensures fault { IfErr result (IsSectionFault bytes.now header starts.now) }
{
    let mut clauses = Vec::new(alloc);
    if !header.has_sections {
        return Ok(clauses);
    }
    let mut at = aligned(header.start + header.size as usize);
    loop {
        let Some(section) = section_at(bytes, at) else {
            return Err(Or::Fault(bad_section(at as u32)));
        };
        add_clauses(bytes, section, starts, header.size, &mut clauses)?;
        if !section.has_more {
            return Ok(clauses);
        }
        at += section.size;
    }
}

fn bad_section(at: u32) -> BodyFault
    ensures cause { result.cause ≡ BadSection }
    ensures place { result.at ≡ at }
{
    BodyFault {
        cause: BodyCause::BadSection,
        at,
    }
}

// The first multiple of four from this place on.
fn aligned(place: usize) -> usize
    requires { place < 2 ^ 32 }
    ensures { result ≡ aligned place }
{
    (place + 3) / 4 * 4
}

// The section that stands at this place, if one does.
fn section_at(bytes: &[u8], at: usize) -> Option<Section>
    ensures found { IfSome result (IsSection bytes.now at) }
    ensures none { IfNone result ((s : Section) → IsSection bytes.now at s → ⊥) }
{
    let header = bytes.get(at..)?;
    if header.len() < 4 || header[0] % FAT != CLAUSES {
        return None;
    }
    let is_fat = header[0] & FAT != 0;
    let size = if is_fat {
        LittleEndian::read_u24(&header[1..]) as usize
    } else {
        usize::from(header[1])
    };
    if size % width(is_fat) != 4 || header.len() < size {
        return None;
    }
    Some(Section {
        at,
        size,
        is_fat,
        has_more: header[0] & MORE != 0,
    })
}

// The bytes of a clause.
fn width(is_fat: bool) -> usize
    ensures { result ≡ clause_width is_fat }
{
    if is_fat { 24 } else { 12 }
}

// Adds the clauses of a section, up to the first that is none.
fn add_clauses(
    bytes: &[u8],
    section: Section,
    starts: &[u32],
    size: u32,
    clauses: &mut Vec<RawClause>,
) -> Result<(), Or<BodyFault>>
    requires short { length bytes.now ≤ 2 ^ 31 }
    requires section { IsSection bytes.now section.at section }
    requires order { AreInOrder starts.now }
    ensures added { OnOk result (clauses.new.items ≡ clauses.old.items ++ clauses_of bytes.now section) }
    ensures fine { OnOk result (All (IsClause starts.now size) (clauses_of bytes.now section)) }
    ensures fault { IfErr result (IsClauseBroken bytes.now section starts.now size) }
{
    let width = width(section.is_fat);
    for i in 0..(section.size - 4) / width {
        let at = section.at + 4 + i * width;
        let clause = clause_at(bytes, section.is_fat, at);
        if !is_clause(clause, starts, size) {
            return Err(Or::Fault(bad_section(at as u32)));
        }
        clauses.push(clause)?;
    }
    Ok(())
}

// The clause at this place, whose bytes are all there.
fn clause_at(bytes: &[u8], is_fat: bool, at: usize) -> RawClause
    requires short { length bytes.now ≤ 2 ^ 31 }
    requires within { at + clause_width is_fat ≤ length bytes.now }
    ensures { result ≡ clause_at is_fat bytes.now at }
{
    if is_fat {
        fat_clause(bytes, at)
    } else {
        small_clause(bytes, at)
    }
}

fn fat_clause(bytes: &[u8], at: usize) -> RawClause
    requires short { length bytes.now ≤ 2 ^ 31 }
    requires within { at + 24 ≤ length bytes.now }
    ensures { result ≡ fat_clause bytes.now at }
{
    RawClause {
        at: at as u32,
        kind: LittleEndian::read_u32(&bytes[at..]),
        try_at: LittleEndian::read_u32(&bytes[at + 4..]),
        try_len: LittleEndian::read_u32(&bytes[at + 8..]),
        handler_at: LittleEndian::read_u32(&bytes[at + 12..]),
        handler_len: LittleEndian::read_u32(&bytes[at + 16..]),
        class: LittleEndian::read_u32(&bytes[at + 20..]),
    }
}

fn small_clause(bytes: &[u8], at: usize) -> RawClause
    requires short { length bytes.now ≤ 2 ^ 31 }
    requires within { at + 12 ≤ length bytes.now }
    ensures { result ≡ small_clause bytes.now at }
{
    RawClause {
        at: at as u32,
        kind: u32::from(LittleEndian::read_u16(&bytes[at..])),
        try_at: u32::from(LittleEndian::read_u16(&bytes[at + 2..])),
        try_len: u32::from(bytes[at + 4]),
        handler_at: u32::from(LittleEndian::read_u16(&bytes[at + 5..])),
        handler_len: u32::from(bytes[at + 7]),
        class: LittleEndian::read_u32(&bytes[at + 8..]),
    }
}

// Whether a clause has a kind of the standard and bounds at the code's instructions.
fn is_clause(clause: RawClause, starts: &[u32], size: u32) -> bool
    requires { AreInOrder starts.now }
    ensures { IsTrue result ↔ IsClause starts.now size clause }
{
    is_kind(clause.kind)
        && are_bounds(clause.try_at, clause.try_len, starts, size)
        && are_bounds(clause.handler_at, clause.handler_len, starts, size)
}

// Whether a kind of clause is one of the standard's.
fn is_kind(kind: u32) -> bool
    ensures { IsTrue result ↔ IsKind kind }
{
    matches!(kind, 0 | 1 | 2 | 4)
}

// Whether a range isn't empty, and begins and ends where an instruction starts or with the code.
fn are_bounds(at: u32, len: u32, starts: &[u32], size: u32) -> bool
    requires { AreInOrder starts.now }
    ensures { IsTrue result ↔ AreBounds starts.now size at len }
{
    let Some(end) = at.checked_add(len) else {
        return false;
    };
    len > 0 && is_bound(at, starts, size) && is_bound(end, starts, size)
}

fn is_bound(place: u32, starts: &[u32], size: u32) -> bool
    requires { AreInOrder starts.now }
    ensures { IsTrue result ↔ IsBound starts.now size place }
{
    place == size || starts.binary_search(&place).is_ok()
}
