// The type of an enum's values.

ghost use Rattle.std.specs.Prelude.{◌≡◌, ◌≤◌, ℕ, length, not, IfSome, IfNone};
ghost use Rattle.dc_causes.specs.First.{IsLeast};
ghost use Rattle.cli_metadata.specs.declared.tables.Table.TheVariants as tables;
ghost use Rattle.cli_metadata.specs.Metadata.{rows_of};
ghost use Rattle.cli_lists.specs.Lists.{IsListColumn};
ghost use Rattle.cli_flags.specs.Flags.{has};
ghost use Rattle.cli_flags.specs.declared.bits.MemberFlag.{MemberFlag};
ghost use Rattle.cli_kinds.specs.Underlying.{field_at, prim_alone, IsFieldRow, IsInstanceField, IsPrimOf, IsUnderlying};

use cli_flags::{MemberFlag, has_member_flag};
use cli_lists::ListColumn;
use cli_metadata::Metadata;
use cli_signature::{RawTy, field_sig};
use cli_tables::FieldRow;
use dc_base::Prim_;

/// The primitive type of the first instance field of row `n` of TypeDef, where it has one of a primitive type, and else int. It
/// takes the time of one look at each of its fields. `fields` is the list of fields of the metadata.
pub fn underlying(metadata: &Metadata, fields: &ListColumn, n: u32) -> Prim_
    requires column { IsListColumn fields.now }
    requires same { fields.now.rows ≡ rows_of metadata.now tables.Field }
    requires low { 1 ≤ n }
    requires high { n ≤ length fields.now.cells }
    ensures { IsUnderlying metadata.now fields.now n result }
{
    match first_instance(metadata, fields, n) {
        Some(f) => prim_of(metadata, metadata.row(f)).unwrap_or(Prim_::I4),
        None => Prim_::I4,
    }
}

// The first instance field of row n of TypeDef.
fn first_instance(metadata: &Metadata, fields: &ListColumn, n: u32) -> Option<u32>
    requires column { IsListColumn fields.now }
    requires same { fields.now.rows ≡ rows_of metadata.now tables.Field }
    requires low { 1 ≤ n }
    requires high { n ≤ length fields.now.cells }
    ensures some { IfSome result (λ f. IsLeast (IsInstanceField metadata.now fields.now n) f) }
    ensures there { IfSome result (IsFieldRow metadata.now) }
    ensures none { IfNone result ((f : ℕ) → IsInstanceField metadata.now fields.now n f → ⊥) }
{
    let list = fields.list(n);
    for f in list.start..list.end {
        if is_instance(metadata, f) {
            return Some(f);
        }
    }
    None
}

fn is_instance(metadata: &Metadata, f: u32) -> bool
    requires { IsFieldRow metadata.now f }
    ensures { result ≡ not (has MemberFlag.Static (field_at metadata.now f).flags) }
{
    let row: FieldRow = metadata.row(f);
    !has_member_flag(row.flags, MemberFlag::Static)
}

fn prim_of(metadata: &Metadata, row: FieldRow) -> Option<Prim_>
    ensures { IsPrimOf metadata.now row result }
{
    match metadata.blob(row.signature) {
        Ok(blob) => match field_sig(blob) {
            Ok(raw) => prim_alone(raw),
            Err(_) => None,
        },
        Err(_) => None,
    }
}

fn prim_alone(raw: RawTy) -> Option<Prim_>
    ensures { result ≡ prim_alone raw }
{
    if raw.lent || raw.arrays > 0 {
        return None;
    }
    match raw.element {
        0x02 => Some(Prim_::Bool),
        0x03 => Some(Prim_::Char),
        0x04 => Some(Prim_::I1),
        0x05 => Some(Prim_::U1),
        0x06 => Some(Prim_::I2),
        0x07 => Some(Prim_::U2),
        0x08 => Some(Prim_::I4),
        0x09 => Some(Prim_::U4),
        0x0A => Some(Prim_::I8),
        0x0B => Some(Prim_::U8),
        _ => None,
    }
}
